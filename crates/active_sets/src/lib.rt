//! Which chunks of a grid are active, and which blocks an iteration needs for that: GridGraph's selective scheduling.
#![tactic(auto)]

mod active;

pub use active::ActiveParts;

#[cfg(test)]
mod tests;
