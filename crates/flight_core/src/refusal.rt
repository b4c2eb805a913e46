// The first of the reasons for which an event is refused.
ghost use Rattle.std.specs.Prelude.{◌≡◌, ◌∷◌, [], Option};
ghost use Rattle.std.specs.Option.{option_map};
ghost use Rattle.flight_core.specs.Events.{first_of, in_bounds, prior, reason_if};
ghost use Rattle.flight_core.specs.declared.event.Illegal.TheVariants.{Bounds, ColumnFinal, AlreadyDone, SourceNotFinal, OldNotFinal, ColumnOpen};

use crate::event::Illegal;

/// The iteration before, and 0 before iteration 0.
pub fn before(time: u32) -> u32
    ensures { result ≡ prior time }
{
    time.saturating_sub(1)
}

/// Whether an iteration lies from 1 to 1024 and two parts below the number of parts.
pub fn lies_in_bounds(parts: u32, time: u32, row: u32, column: u32) -> bool
    ensures { result ≡ in_bounds 1024 parts time row column }
{
    0 < time && (time < 1025 && (row < parts && column < parts))
}

/// Why a block can't be fed, by the four tests.
pub fn block_fault(
    outside: bool,
    column_final: bool,
    done: bool,
    source_open: bool,
) -> Option<Illegal>
    ensures { result ≡ first_of (reason_if outside Bounds ∷ reason_if column_final ColumnFinal ∷ reason_if done AlreadyDone
        ∷ reason_if source_open SourceNotFinal ∷ []) }
{
    if outside {
        Some(Illegal::Bounds)
    } else if column_final {
        Some(Illegal::ColumnFinal)
    } else if done {
        Some(Illegal::AlreadyDone)
    } else if source_open {
        Some(Illegal::SourceNotFinal)
    } else {
        None
    }
}

/// Why a chunk can't be made final, by the three tests and its first open row.
pub fn chunk_fault(
    outside: bool,
    column_final: bool,
    old_open: bool,
    open_row: Option<u32>,
) -> Option<Illegal>
    ensures { result ≡ first_of (reason_if outside Bounds ∷ reason_if column_final ColumnFinal ∷ reason_if old_open OldNotFinal
        ∷ option_map ColumnOpen open_row ∷ []) }
{
    if outside {
        Some(Illegal::Bounds)
    } else if column_final {
        Some(Illegal::ColumnFinal)
    } else if old_open {
        Some(Illegal::OldNotFinal)
    } else {
        match open_row {
            Some(row) => Some(Illegal::ColumnOpen { row }),
            None => None,
        }
    }
}
