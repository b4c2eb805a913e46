// What is asked of the builder, and why it stops.

use edge_text::{InputFault, TextLimits};

/// How many parts a grid gets.
#[derive(Clone, Copy, Debug, PartialEq, Eq, Drop)]
pub enum PartsChoice {
    /// This number, from 1 to 256.
    Stated(u32),
    /// The least number from 16 to 256 whose chunks need no more bytes than a budget, where each vertex of a chunk needs
    /// this many, at most 256.
    Fitted { per_vertex: u64, budget: u64 },
}

/// How a grid is built: its parts, the limits of the list's text, and the bytes of memory for the pool of chains, which
/// aren't looked at yet.
#[derive(Clone, Copy, Debug, PartialEq, Eq, Drop)]
pub struct BuildOptions {
    pub parts: PartsChoice,
    pub limits: TextLimits,
    pub budget: u64,
}

/// Why no grid was built.
#[derive(Clone, Copy, Debug, PartialEq, Eq, Drop)]
pub enum BuildFault {
    /// A line of the list is faulty.
    Input(InputFault),
    /// A good line made more edges than the limit.
    TooManyEdges { limit: u64 },
    /// The text has more bytes than the limit.
    InputTooLong { limit: u64 },
    /// No number of parts fits the budget: what the most parts need, and the budget. It doesn't come where the parts are
    /// stated.
    BudgetTooSmall { need: u64, given: u64 },
    /// The source failed.
    Read,
    /// The depot failed.
    Depot,
    /// Want of memory. It has no other cause.
    NoMemory,
}
