//! The entities of a message, their types, and the octets of their contents (RFC 2045, RFC 2046).
#![tactic(auto)]

mod base64;
mod content_type;
mod encoding;
mod entities;
pub mod laws;
mod lines;
mod marks;
mod multipart;
mod quoted;
mod texts;
mod wanted;

pub use encoding::TransferEncoding;
pub use entities::{Entity, Given, body_of, entities_of};
pub use wanted::WantedType;
