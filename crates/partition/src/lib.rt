//! How the vertices of a graph are cut into parts, and its edges into blocks.
#![tactic(auto)]

mod fitting;
mod laws;
mod parts;
mod records;

pub use fitting::least_parts;
pub use laws::{blocks_hold_each_edge_once, ranges_cover_once};
pub use parts::Parts;
pub use records::{PartFault, VertexRange};
