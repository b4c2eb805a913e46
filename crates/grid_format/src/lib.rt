//! The files of a grid: the bytes of its head and of its blocks' counts, and the checks of both.
#![tactic(auto)]

mod bytes;
mod counts;
mod head;
mod laws;
mod reads;
mod table;
mod write;

pub use head::{GridFault, GridInfo, read_head};
pub use laws::grids_are_read;
pub use table::{BlockTable, TableFault};
pub use write::write_meta;
