// What a report says of an iteration and of a run.

/// How an iteration's sums were made. The rule is our own.
#[derive(Clone, Copy, Debug, PartialEq, Eq, Drop)]
pub enum Kind {
    /// From all blocks.
    Full,
    /// Early for some blocks, during the iteration before.
    Fed,
}

/// Why a run ended.
#[derive(Clone, Copy, Debug, PartialEq, Eq, Drop)]
pub enum Why {
    /// No shown value moved in its last iteration.
    Still,
    /// All the iterations that were asked for were done.
    Limit,
}

/// How a run ended, as long as no number grew out of its range.
#[derive(Clone, Copy, Debug, PartialEq, Eq, Drop)]
pub struct Ending {
    /// The last iteration, which was finished.
    pub iterations: u32,
    pub why: Why,
}
