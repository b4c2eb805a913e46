//! The edges of a grid's blocks, read from their file in the order in which they stand there.
#![tactic(auto)]

mod cursor;
mod laws;
mod reads;
mod records;

pub use cursor::BlockCursor;
pub use laws::{grid_blocks_are_streamed, pieces_are_the_block};
