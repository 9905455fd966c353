//! The dump of compiled scripts: a line for each operation.
#![tactic(auto)]

mod asks;
mod commands;
mod operation;
mod responses;
mod strings;

pub use operation::write_operation;
