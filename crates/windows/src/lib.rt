//! Windows over the values and the sums of a graph's chunks, under a budget: the chunks that fit beside them stay in memory,
//! and the values of the others, and the sums for the iteration ahead, stand in files.
#![tactic(auto)]

mod close;
mod coding;
mod copies;
mod fault;
mod feed;
mod initial;
mod laws;
mod part;
mod windows;

pub use coding::Coded;
pub use fault::WindowFault;
pub use laws::loads_add_up;
pub use windows::Windows;
