//! The outside, as the engine sees it: where bytes come from, where they go, and the files of one directory.
//!
//! An object may tell the bytes that it holds, as those in memory do, or tell nothing, as the streams and files of
//! the system. Each counts its faults, and a call answers a fault only where the count rose in it.
#![tactic(auto)]

mod depot;
mod memory_depot;
mod memory_sink;
mod memory_source;
mod stream;

pub use depot::{Depot, DepotFault, FileKind};
pub use memory_depot::MemDepot;
pub use memory_sink::MemSink;
pub use memory_source::MemSource;
pub use stream::{Failed, Sink, Source};
