//! Builds the files of a grid from the text of an edge list, over any source and any depot: the list goes into Spool, its
//! blocks are counted, its edges are sorted into their blocks through a pool of chains, the blocks on the diagonal and
//! below it are copied, and Meta comes last.
#![tactic(auto)]

mod builder;
mod bytes;
mod chains;
mod columns;
mod copying;
mod counts;
mod numbers;
mod options;
mod reads;
mod sorting;
mod spool;
mod tallies;

pub use builder::build;
pub use options::{BuildFault, BuildOptions, PartsChoice};
