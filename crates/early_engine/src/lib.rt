//! A proved out-of-core engine in the manner of GridGraph: it reads the blocks of a grid from its files, column by
//! column, and runs the synchronous iterations of a vertex program over them: each by itself, or every second one from
//! sums that the one before made early.
#![tactic(auto)]

mod begin;
mod block;
mod column;
mod engine;
mod iteration;
mod kind;
mod laws;
mod layout;
mod open;
mod options;
mod part;
mod room;
mod run;
mod turning;
mod visit;
mod write;

pub use engine::Engine;
pub use laws::passes_are_legal;
pub use options::{Mode, OpenFault, Phase, RunFault, RunOptions, Show, Turn};
