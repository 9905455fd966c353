//! The table of Sieve (RFC 5228): a row for each command, test and tag says what it takes.
//! Further the capabilities that a script can require, and the rules that it can break with their
//! numbers and words.
#![tactic(auto)]

mod address;
mod capability;
mod command_rows;
mod known;
pub mod laws;
mod required;
mod role;
mod row;
mod rule;
mod table;
mod tag;
mod test_rows;

pub use address::{is_address_field, is_envelope_part};
pub use capability::Capability;
pub use known::{is_known, known_command, known_tag, known_test, may_be_required};
pub use required::Required;
pub use role::{has_role, is_expanded, names_variable};
pub use row::{Form, Inner, Role, Row, Slot, TagKind, TagRow, same_kind};
pub use rule::Rule;
pub use table::{CommandKind, TestKind, command_named, test_named};
pub use tag::{Tag, same_tag, tag_named};
