//! Flags (RFC 5232, sections 2 to 4): which texts are flags, and how lists are joined, shortened
//! and searched.
#![tactic(auto)]

mod flag;
mod flag_spelling;
mod flags;
pub mod laws;
mod sought_flags;

pub use crate::flag_spelling::{is_keyword, next_flag};
pub use crate::flags::{FlagList, flag_text, flags_of, flags_of_texts, union, without};
pub use crate::sought_flags::{flag_keys, flag_keys_of_texts, next_key};
