// The triples that are done.
ghost use Rattle.std.specs.Prelude.{◌≡◌};
ghost use Rattle.flight_core.specs.Events.{is_mark, mark, mark_of};

use std::collections::VecDeque;

/// A triple that is done: the block of this row and column in this iteration, and whether it was fed or skipped.
#[derive(Clone, Copy, Debug, PartialEq, Eq, Drop)]
pub struct Mark {
    pub time: u32,
    pub row: u32,
    pub column: u32,
    pub is_fed: bool,
}

impl Mark {
    // Whether the mark is that of a triple.
    fn is_of(&self, time: u32, row: u32, column: u32) -> bool
        ensures { result ≡ is_mark time row column self.now }
    {
        self.time == time && (self.row == row && self.column == column)
    }
}

/// A triple's mark.
pub fn marked(time: u32, row: u32, column: u32, is_fed: bool) -> Mark
    ensures { result ≡ mark time row column is_fed }
{
    Mark {
        time,
        row,
        column,
        is_fed,
    }
}

// Whether a triple was fed, where it is done.
fn find_mark(marks: &[Mark], time: u32, row: u32, column: u32) -> Option<bool>
    ensures { result ≡ mark_of marks.now time row column }
{
    for mark in marks {
        if mark.is_of(time, row, column) {
            return Some(mark.is_fed);
        }
    }
    None
}

/// Whether a triple was fed, where it is done.
pub fn mark_in(marks: &VecDeque<Mark>, time: u32, row: u32, column: u32) -> Option<bool>
    ensures { result ≡ mark_of marks.now.items time row column }
{
    let (first, second) = marks.as_slices();
    let found = find_mark(first, time, row, column);
    found.or(find_mark(second, time, row, column))
}
