//! The octets of a session: those that are read and not used yet, its lines and their words. And
//! the commands of lines, and the counted octets that follow them.
#![tactic(auto)]

mod cutting;
mod extension_lines;
mod input;
mod known_line;
pub mod laws;
mod line;
mod line_kind;
mod payload;
mod session_line;
mod word;

pub use input::Input;
pub use known_line::command_of_line;
pub use line::Line;
pub use payload::{Taken, take_octets};
pub use session_line::SessionCommand;
pub use word::SessionWord;
