//! The validator of Sieve scripts (RFC 5228): a text is a faultless script, or has a first fault.
#![tactic(auto)]

mod arguments;
mod checked;
mod collating;
mod command_rules;
mod context;
mod cutting;
mod judged;
pub mod laws;
pub mod profile_laws;
mod said;
mod scope;
mod test_rules;
mod usage;
mod validator;

pub use checked::Checked;
pub use judged::{FaultKind, JudgeFault, Judged, judge};
pub use sieve_table::Rule;
pub use validator::{CheckFault, check};
