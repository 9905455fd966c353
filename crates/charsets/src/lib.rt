//! Charsets of mail (RFC 2047, section 2): which are known by name, and octets of them in UTF-8.
#![tactic(auto)]

mod charset;
pub mod laws;
mod tables;

pub use charset::{Charset, Codepage, charset_named, in_utf8, text_in};
