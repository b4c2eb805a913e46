// The programs that words name.
ghost use Rattle.std.specs.Prelude.{◌≡◌};
ghost use Rattle.lumos_words.specs.Fits.{SeedsFit};
ghost use Rattle.lumos_top.specs.Programs.{seeds_from};

use lumos_words::SeedWords;
use programs::{Seed, Seeds, Spreading};

// The seeds that words list, in their order.
fn seeds_of(words: &SeedWords) -> Seeds
    requires { SeedsFit words.now }
    ensures { result ≡ seeds_from words.now }
{
    let mut seeds = Seeds::new();
    let items = words.items();
    for k in 0..items.len() {
        let Ok(()) = seeds.push(Seed {
            vertex: items[k].vertex,
            class: items[k].class,
        }) else {
            unreachable!()
        };
    }
    seeds
}

/// The program `spreading` with these numbers, from the seeds that words list.
pub fn spreading(unit: u64, share: u32, words: &SeedWords) -> Spreading
    requires { SeedsFit words.now }
    ensures unit { result.unit ≡ unit }
    ensures share { result.share ≡ share }
    ensures seeds { result.seeds ≡ seeds_from words.now }
{
    Spreading {
        unit,
        share,
        seeds: seeds_of(words),
    }
}
