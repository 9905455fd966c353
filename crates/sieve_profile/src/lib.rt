//! The extensions that a bench knows only where they are asked for by their names. A profile is
//! a set of them.
#![tactic(auto)]

mod extension;
pub mod laws;
mod profile;

pub use extension::{ALL, EXTENSIONS, Extension, PIGEONHOLE};
pub use profile::Profile;
