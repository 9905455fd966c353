//! Encoded characters in scripts' strings (RFC 5228, 2.4.2.4), and strings with them replaced.
#![tactic(auto)]

mod characters;
mod item;
pub mod laws;
mod sequence;
mod value;

pub use characters::replaced;
