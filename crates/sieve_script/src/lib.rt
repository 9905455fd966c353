//! The labels of the arguments of a Sieve script (RFC 5228, section 2.6). By these its commands and
//! tests are read, and their readings make the abstract script.
#![tactic(auto)]

mod by_label;
mod command_reading;
mod conditions;
mod cut_argument;
mod dates;
mod given;
mod label;
pub mod laws;
mod reading;
mod script;
mod script_builder;
mod shape;
mod tags;
mod test_reading;
mod vacation;

pub use command_reading::read_command;
pub use conditions::{first_condition, joined, with_condition};
pub use cut_argument::CutArgument;
pub use given::literal_in_parts;
pub use label::{Label, after_first, first_role};
pub use reading::{
    Ask, BodyTransform, CommandReading, Comparison, DateZone, FlagChange, Leaf, MatchType, ReadAsk,
    ReadLeaf, ReadVacation, Rejection, Settings, TestReading, Vacation, ValueSource,
};
pub use script::{Branch, Condition, Statement};
pub use script_builder::ScriptBuilder;
pub use script_names::Location;
pub use shape::{RowLabels, known_labels};
pub use sieve_table::{CommandKind, TestKind};
pub use sieve_variables::{
    LetterCase, Literal, Modifiers, Part, PartRef, Parts, Variable, VariableRef,
};
pub use test_reading::read_test;
