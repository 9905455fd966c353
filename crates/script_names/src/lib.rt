//! The places where scripts are kept, and their names there (RFC 6609, 3.2).
#![tactic(auto)]

pub mod laws;
mod location;
mod name;

pub use location::Location;
pub use name::ScriptName;
