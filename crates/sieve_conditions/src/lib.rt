//! The values that tests find in a delivery (RFC 5228, 2.7 and 5). Strings are in RFC 5229, 5,
//! flags in RFC 5232, 4, dates in RFC 5260, 4 and 5. The body is in RFC 5173, 4, and mailboxes are
//! in RFC 5490, 3.1.
#![tactic(auto)]

mod asking;
mod body_values;
mod counting;
mod date_values;
mod field_cache;
mod field_values;
mod field_walk;
mod flag_values;
pub mod laws;
mod mailboxes;
mod matcher;
mod path_values;
mod string_values;

pub use asking::{compare, exists, is_over, is_under};
pub use field_cache::FieldCache;
pub use mailboxes::{mailbox_count, mailboxes_exist};
