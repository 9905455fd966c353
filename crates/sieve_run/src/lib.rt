//! Runs checked Sieve scripts on a message (RFC 5228, 2.10 and 4). The verdict says what becomes of
//! the message, and which scripts it looked up.
#![tactic(auto)]

mod including;
mod interpreter;
pub mod laws;
mod library;
mod lookups;
mod meter;
mod operations;
mod script;
mod shelf;
mod steps;
mod turn;

pub use flag_lists::FlagList;
pub use including::find;
pub use interpreter::run;
pub use library::{Found, Library};
pub use message_text::{Message, MessageFault};
pub use meter::Meter;
pub use octets::Octets;
pub use script::Script;
pub use script_names::{Location, ScriptName};
pub use shelf::Shelf;
pub use sieve_conditions::mailbox_count;
pub use sieve_delivery::{
    Action, Addresses, Entry, Envelope, ErrorKind, Filing, Origin, Response, RunError, Texts,
};
pub use sieve_script::Rejection;
pub use sieve_verdict::Verdict;
