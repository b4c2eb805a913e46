//! Tests of the crates below the engine, each over those below it. They stand apart from those of the whole call, so that they
//! needn't wait for it.
#![tactic(auto)]

#[cfg(test)]
mod blocks;
#[cfg(test)]
mod events;
pub mod four;
#[cfg(test)]
mod heads;
#[cfg(test)]
mod lists;
#[cfg(test)]
mod objects;
#[cfg(test)]
mod schedules;
#[cfg(test)]
mod windowing;
