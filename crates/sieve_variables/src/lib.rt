//! Variables of Sieve scripts (RFC 5229), apart from the commands and tests that use them. Their
//! names, the references to them in strings, and modifiers. And the octets that strings stand for
//! while a script runs.
#![tactic(auto)]

mod expansion;
mod few;
mod labelled;
pub mod laws;
mod modifier;
mod name;
mod part;
mod parts;
mod references;
mod values;
mod variable;
mod variables;

pub use labelled::Labelled;
pub use modifier::{LetterCase, Modifiers};
pub use name::{folded, is_global_name, is_identifier};
pub use part::{Literal, Part, PartRef};
pub use parts::{Parts, scoped_parts};
pub use references::{References, parts_of_text, references_in};
pub use values::{Own, Values};
pub use variable::{Names, Variable, VariableRef};
