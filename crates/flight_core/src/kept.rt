// What is kept of the chunks.
ghost use Rattle.std.specs.Prelude.{◌≡◌, ◌<◌, ◌≤◌, ◌∷◌, length, MatchOption, vec_len, vec_capacity};
ghost use Rattle.std.specs.List.{remove};
ghost use Rattle.std.specs.Option.{option_copied};
ghost use Rattle.flight_core.specs.Events.{is_kept, kept_of, without};

use std::collections::VecDeque;
use std::marker::Model;

/// What is kept of a chunk in an iteration: an item for each of its vertices.
#[derive(Drop)]
pub struct KeptItems<X> {
    pub time: u32,
    pub column: u32,
    pub items: Vec<X>,
}

impl<X> Model for KeptItems<X> {
    ghost use Rattle.flight_core.specs.Events.{Kept};

    ghost Value = { Kept X };

    ghost view = { λ k. record { time = k.time; column = k.column; items = k.items.items } };
}

impl<X> KeptItems<X> {
    // Whether the items are those of a chunk in an iteration.
    fn is_of(&self, time: u32, column: u32) -> bool
        ensures { result ≡ is_kept time column self.now }
    {
        self.time == time && self.column == column
    }

    // The items.
    fn items(&self) -> &[X]
        ensures { result.now ≡ self.now.items }
    {
        self.items.as_slice()
    }
}

// The items of a chunk in an iteration, where they are in the list.
fn find_kept<X>(list: &[KeptItems<X>], time: u32, column: u32) -> Option<&[X]>
    ensures { option_copied result ≡ kept_of list.now time column }
{
    for kept in list {
        if kept.is_of(time, column) {
            return Some(kept.items());
        }
    }
    None
}

/// The items of a chunk in an iteration, where they are kept.
pub fn kept_in<X>(list: &VecDeque<KeptItems<X>>, time: u32, column: u32) -> Option<&[X]>
    ensures { option_copied result ≡ kept_of list.now.items time column }
{
    let (first, second) = list.as_slices();
    match find_kept(first, time, column) {
        Some(items) => Some(items),
        None => find_kept(second, time, column),
    }
}

/// The items of a chunk in an iteration, where they are kept in a list.
pub fn kept_among<X>(list: &Vec<KeptItems<X>>, time: u32, column: u32) -> Option<&[X]>
    ensures { option_copied result ≡ kept_of list.now.items time column }
{
    find_kept(list.as_slice(), time, column)
}

// The place at which a chunk in an iteration stands in the list.
fn place_of<X>(list: &[KeptItems<X>], time: u32, column: u32) -> Option<usize>
    ensures { MatchOption result (without list.now time column ≡ list.now)
        (λ at. (at < length list.now) × (remove list.now at ≡ without list.now time column)) }
{
    for at in 0..list.len() {
        if list[at].is_of(time, column) {
            return Some(at);
        }
    }
    None
}

/// Drops what is kept of a chunk in an iteration.
pub fn drop_kept<X: Copy>(list: &mut Vec<KeptItems<X>>, time: u32, column: u32)
    ensures items { list.new.items ≡ without list.old.items time column }
    ensures len { vec_len list.new ≤ vec_len list.old }
    ensures capacity { vec_capacity list.new ≡ vec_capacity list.old }
{
    let place = place_of(list.as_slice(), time, column);
    if let Some(at) = place {
        list.remove(at);
    }
}

/// Keeps these items of a chunk in an iteration, in place of what was kept of it. There has to be room in the list.
pub fn replace_kept<X: Copy>(list: &mut Vec<KeptItems<X>>, kept: KeptItems<X>)
    requires { vec_len list.old < vec_capacity list.old }
    ensures { list.new.items ≡ kept ∷ without list.old.items kept.time kept.column }
{
    drop_kept(list, kept.time, kept.column);
    let put = list.insert(0, kept);
    if put.is_err() {
        unreachable!();
    }
}
