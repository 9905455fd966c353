//! The devices that are read and written, and how octets, their quoted form and lines are written.
#![tactic(auto)]

mod devices;
mod writers;

pub use devices::{Counted, Faults, Sink, Source};
pub use writers::{Piece, WriteFault, write_out, write_pieces, write_quoted};
