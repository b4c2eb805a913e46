//! What a vertex program and its sums are: sums that may be joined in any order, programs over the vertices of a graph,
//! and the laws that both keep.
#![tactic(auto)]

mod combine;
mod combines;
mod program;

pub use crate::combine::{Combine, join_all, join_order};
pub use crate::combines::{Least, LeastTriple, Total, Total4};
pub use crate::program::{VertexProgram, order_of_edges};
