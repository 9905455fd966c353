//! Structured values of header fields (RFC 5322, 3.2 and 3.4.1): comments, which nest, quoted
//! strings and domain literals.
#![tactic(auto)]

mod state;

pub use state::{ALL_BRACKETS, Brackets, COMMENTS_ALONE, LexerState, STRINGS_TOO, is_closed};
