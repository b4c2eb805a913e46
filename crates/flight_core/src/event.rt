// Events of many iterations, and why one is refused.

/// What can be done with a block or a chunk in an iteration t: feed the sums of iteration t from block (i, j), skip that
/// block, or make the values of chunk j of iteration t.
#[derive(Clone, Copy, Debug, PartialEq, Eq, Drop)]
pub enum Event {
    /// The edges of block (i, j) give their targets what they contribute in iteration t.
    Feed { t: u32, i: u32, j: u32 },
    /// The edges of block (i, j) are passed over in iteration t, since they contribute nothing.
    Skip { t: u32, i: u32, j: u32 },
    /// The values of chunk j in iteration t are made of its values before and its sums.
    Finalise { t: u32, j: u32 },
}

/// Why an event is refused. Where several apply, the first of an event's list is told.
#[derive(Clone, Copy, Debug, PartialEq, Eq, Drop)]
pub enum Illegal {
    /// The iteration is 0 or above the greatest one, or a part is not below the number of parts.
    Bounds,
    /// The column is final in the iteration.
    ColumnFinal,
    /// The block is done in the iteration.
    AlreadyDone,
    /// The chunk of the sources is not final in the iteration before.
    SourceNotFinal,
    /// This vertex of the chunk of the sources contributes, and none below it does.
    NotSkippable { vertex: u32 },
    /// The chunk is not final in the iteration before.
    OldNotFinal,
    /// The block of this row is not done in the iteration, and those of all rows below it are.
    ColumnOpen { row: u32 },
}

/// Why an event was not done.
#[derive(Clone, Copy, Debug, PartialEq, Eq, Drop)]
pub enum StepFault {
    /// The event is not legal, for this reason.
    Illegal(Illegal),
    /// Want of memory.
    NoMemory,
}
