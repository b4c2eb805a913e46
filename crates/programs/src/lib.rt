//! The vertex programs that Lumos runs.
#![tactic(auto)]

mod components;
mod meaning;
mod numbers;
mod pagerank;
mod paths;
mod seeds;
mod spreading;
mod tally;

pub use crate::components::{Components, Label};
pub use crate::meaning::{components_are_least, paths_are_least, still_components, still_paths};
pub use crate::pagerank::{PageRank, Rank};
pub use crate::paths::{Cost, Paths};
pub use crate::seeds::{Seed, SeedFault, Seeds};
pub use crate::spreading::{Scores, Spreading};
pub use crate::tally::Tally;
