//! The report of a run: its lines, and the calls that write them.
#![tactic(auto)]

mod records;
mod text;
mod write;

pub use records::{Ending, Kind, Why};
pub use write::{write_counts, write_ending, write_head, write_value, write_zero};

#[cfg(test)]
mod tests;
