//! The syntax of Sieve (RFC 5228, sections 2 and 8): the tokens of a text, and its one tree.
#![tactic(auto)]

mod command_name;
mod cursor;
pub mod laws;
mod line;
mod multi_line;
mod octet;
mod parser;
mod reader;
mod scan;
mod script;
mod step;
mod symbol;
mod test_name;
pub mod token;
pub mod tree;
mod value;
mod white;

pub use command_name::CommandName;
pub use parser::{SyntaxFault, parse};
pub use script::ParsedScript;
pub use test_name::TestName;
pub use token::{Token, TokenKind, tokens};
pub use tree::{Argument, Command, Test, Tests, Text};
