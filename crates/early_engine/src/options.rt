// What a run is asked for, and what its calls answer.

use lumos_depot::FileKind;
use lumos_report::Ending;

/// How the iterations of a run go through the grid.
#[derive(Clone, Copy, Debug, PartialEq, Eq, Drop)]
pub enum Mode {
    /// Each odd iteration feeds the next one too, from each block above the diagonal, whose sources are then final; and the
    /// next one goes only through the blocks on the diagonal and below it. The rule is our own.
    Fed,
    /// Each iteration goes through every block, as GridGraph's does.
    Plain,
}

/// What is reported of the values.
#[derive(Clone, Copy, Debug, PartialEq, Eq, Drop)]
pub enum Show {
    /// A line for each vertex, at first and after each iteration.
    All,
    /// No values.
    Brief,
}

/// What a run is asked for.
#[derive(Clone, Copy, Debug, PartialEq, Eq, Drop)]
pub struct RunOptions {
    /// How many iterations are done at most: from 1 to 1000000, which are our own bounds.
    pub iterations: u32,
    pub mode: Mode,
    pub show: Show,
    /// How many bytes the values and sums in memory may take.
    pub budget: u64,
}

/// Why an engine isn't opened.
#[derive(Clone, Copy, Debug, PartialEq, Eq, Drop)]
pub enum OpenFault {
    /// The windows over values and sums need more bytes than the budget has.
    BudgetTooSmall {
        need: u64,
        given: u64,
    },
    /// A number in a file isn't one that can stand there.
    Damaged {
        file: FileKind,
        place: u64,
        found: u64,
    },
    /// The depot failed.
    Depot,
    /// Want of memory.
    NoMemory,
}

/// Why a run stops before its end.
#[derive(Clone, Copy, Debug, PartialEq, Eq, Drop)]
pub enum RunFault {
    /// The depot failed.
    Depot,
    /// The sink failed.
    Out,
    /// In this iteration the next value of this vertex is beyond the numbers that a value holds, and that of none below it.
    Range {
        iteration: u32,
        vertex: u32,
    },
    /// A number in a file isn't one that can stand there.
    Damaged {
        file: FileKind,
        place: u64,
        found: u64,
    },
}

/// How far an engine is.
#[derive(Clone, Copy, Debug, PartialEq, Eq, Drop)]
pub enum Phase {
    /// It was opened, and nothing was reported.
    Fresh,
    /// Its values are those after the last iteration that was reported, and the run goes on.
    Going,
    /// The run ended, or a fault stopped it.
    Stopped,
}

/// What came of an iteration.
#[derive(Clone, Copy, Debug, PartialEq, Eq, Drop)]
pub enum Turn {
    /// The run goes on.
    Going,
    /// The run ended with it.
    Ended(Ending),
}
