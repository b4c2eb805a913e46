//! The steps of synchronous execution, over slices: edges feed sums, and sums make the next values. Above them many
//! iterations on one state: which events are legal in it, what stands after them whatever their order, and the text of a
//! schedule of them.
#![tactic(auto)]

mod event;
mod kept;
mod laws;
mod made;
mod mark;
mod refusal;
mod replay;
mod said;
mod schedule;
mod start;
mod steps;

pub use crate::event::{Event, Illegal, StepFault};
pub use crate::laws::{legal_events, open_iterations};
pub use crate::replay::Replay;
pub use crate::schedule::{ScheduleFault, ScheduleReader};
pub use crate::steps::{Finish, feed_edges, finalise};
