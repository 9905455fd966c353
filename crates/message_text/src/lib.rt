//! Messages, their header fields (RFC 5322, 2.2) and the addresses of a field's value (RFC 5322,
//! 3.4).
//!
//! Every octet string up to [`MAX_MESSAGE`](sieve_limits::MAX_MESSAGE) is a [`Message`]. It keeps
//! its octets once, with the places of its fields. [`addresses`] reads any octets as a list of
//! addresses.
#![tactic(auto)]

mod addressing;
mod blanks;
mod fields;
pub mod laws;
mod lines;
mod marks;
mod messages;
mod names;
mod pieces;
mod values;

pub use crate::addressing::{Address, AddressPart, addresses};
pub use crate::lines::next_line;
pub use crate::messages::{Message, MessageFault};
pub use crate::names::{FieldName, name_hash};
