//! Tests of a build, the engine and the whole call. A crate with tests is proved twice, so these stand apart.
#![tactic(auto)]

#[cfg(test)]
mod commands;
#[cfg(test)]
mod damage;
pub mod damaging;
#[cfg(test)]
mod engines;
#[cfg(test)]
mod five;
#[cfg(test)]
mod grids;
#[cfg(test)]
mod large;
#[cfg(test)]
mod refusals;
#[cfg(test)]
mod rows;
#[cfg(test)]
mod samples;
#[cfg(test)]
mod walks;
