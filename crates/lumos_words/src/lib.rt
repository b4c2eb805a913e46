//! The words of a command line, and what they ask for. `clap` reads the words behind the command word, by a command that is
//! built of one table of options; all else is our own. One definition says what any list of words asks for, or what is
//! wrong with it.
#![tactic(auto)]

mod faults;
mod numbers;
mod parse;
mod read;
mod request;
mod settings;
mod table;

pub use faults::{OptionName, UsageFault, UsageWhat, WordsFault};
pub use read::read_words;
pub use request::{BuildWords, IterWords, PathText, ProgramWords, Request, SeedWord, SeedWords};

#[cfg(test)]
mod tests;
