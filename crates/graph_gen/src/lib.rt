//! A made-up edge list, for trying the engine on a graph of any size.
//!
//! A seed, a number of vertices and a number of edges have one text. It is drawn as it is read, and takes no memory.
#![tactic(auto)]

mod drawing;
mod source;
#[cfg(test)]
mod tests;

pub use source::GenSource;
