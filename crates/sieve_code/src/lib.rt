//! The compiler of checked Sieve scripts. Code is operations in a row, with one truth register. It
//! does what the script does (RFC 5228, 3 to 5).
#![tactic(auto)]

mod code;
mod command_code;
mod compiler;
mod condition_code;
pub mod laws;
mod operation;
mod packing;
mod pools;
mod tail;

pub use code::Code;
pub use compiler::compile;
pub use operation::{
    PackedAsk, PackedLeaf, PackedOperation, PackedSettings, PackedSource, PackedVacation,
};
pub use script_names::Location;
