//! Encoded words in the values of header fields (RFC 2047), and values with these decoded to UTF-8.
#![tactic(auto)]

mod encoding;
pub mod laws;
mod meaning;
mod values;
mod word;

pub use values::decoded_value;
