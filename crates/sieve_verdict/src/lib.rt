//! The verdict on a message (RFC 5228, 2.10): its lines, and whether a text has these lines.
#![tactic(auto)]

mod agreement;
mod comparing;
mod lines;
mod response_lines;
mod verdict;

pub use lines::{write_action, write_error, write_implicit, write_lookup, write_origin};
pub use verdict::Verdict;
