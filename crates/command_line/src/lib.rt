//! The words of the program's command line: the profile, the clock and the job.
#![tactic(auto)]

mod argument;
mod clock;
mod commands;
mod help;
mod profile;
mod words;

pub use argument::CommandWord;
pub use words::{CommandLine, Job, TestWords, UsageFault, command_of};
