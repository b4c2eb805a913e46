// Numbers, and the seeds that a text lists.
ghost use Rattle.std.specs.Prelude.{◌≡◌, ◌<◌, IfSome, length};
ghost use Rattle.lumos_words.specs.Fits.{SeedsFit};
ghost use Rattle.lumos_words.specs.Numbers.{class_of, has_vertex, if_new, number_of, seed_of, seeds_of, vertex_of};

use crate::request::{SeedWord, SeedWords};
use arrayvec::ArrayVec;

// The number that a text writes. `parse` takes a plus sign before it, and we don't.
pub(crate) fn number_of(text: &str) -> Option<u64>
    ensures { result ≡ number_of text.now }
{
    if text.starts_with('+') {
        return None;
    }
    text.parse::<u64>().ok()
}

fn vertex_of(text: &str) -> Option<u32>
    ensures { result ≡ vertex_of text.now }
{
    let number = number_of(text)?;
    if number <= 268435455 {
        Some(number as u32)
    } else {
        None
    }
}

fn class_of(text: &str) -> Option<u8>
    ensures { result ≡ class_of text.now }
{
    match text.as_bytes() {
        [byte @ b'0'..=b'3'] => Some(*byte - b'0'),
        _ => None,
    }
}

fn seed_of(item: &str) -> Option<SeedWord>
    ensures { result ≡ seed_of item.now }
{
    let (vertex, class) = item.split_once(':')?;
    let vertex = vertex_of(vertex)?;
    let class = class_of(class)?;
    Some(SeedWord { vertex, class })
}

fn has_vertex(seeds: &[SeedWord], vertex: u32) -> bool
    ensures { result ≡ has_vertex vertex seeds.now }
{
    seeds.iter().any(|seed| seed.vertex == vertex)
}

// The seed of an item, where it may follow the seeds before.
fn next_seed(seeds: &[SeedWord], item: &str) -> Option<SeedWord>
    ensures seed { result ≡ if_new seeds.now (seed_of item.now) }
    ensures room { IfSome result (λ _. length seeds.now < 64) }
{
    let seed = seed_of(item)?;
    if has_vertex(seeds, seed.vertex) || seeds.len() >= 64 {
        None
    } else {
        Some(seed)
    }
}

// The seeds that a text lists.
pub(crate) fn seeds_of(text: &str) -> Option<SeedWords>
    ensures value { result ≡ seeds_of text.now }
    ensures fits { IfSome result SeedsFit }
{
    let mut seeds: ArrayVec<SeedWord, 64> = ArrayVec::new();
    for item in text.split(',') {
        let seed = next_seed(seeds.as_slice(), item)?;
        seeds.push(seed);
    }
    Some(SeedWords::from_seeds(seeds))
}
