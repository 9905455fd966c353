//! The abstract script: the readings of a checked script's commands and tests (RFC 5228, sections 3
//! to 5). The branches of each `if` are grouped. Lists are kept from the end: the last command,
//! branch or condition stands first. `ScriptBuilder` and `joined` read in order and turn each list
//! around once. The compiler begins at the end, so it takes the lists as they are.
use crate::reading::{ReadAsk, ReadLeaf};

/// A condition: the questions of tests, joined (RFC 5228, section 5).
#[derive(Drop)]
pub enum Condition {
    /// It always holds.
    Always,
    /// It never holds.
    Never,
    /// The question that a test asks of the delivery.
    Asks(ReadAsk),
    /// The condition in it doesn't hold.
    Not(Box<Condition>),
    /// All conditions in it hold; the last stands first.
    All(Vec<Condition>),
    /// Some condition in it holds; the last stands first.
    Any(Vec<Condition>),
}

/// A command of the abstract script.
#[derive(Drop)]
#[cycle(statements)]
pub enum Statement {
    /// It ends the run (RFC 5228, section 3.3).
    Stop,
    /// It ends its script (RFC 6609, section 3.3).
    Return,
    /// It acts.
    Act {
        /// The command, with its arguments.
        leaf: ReadLeaf,
        /// The line of the command.
        line: u32,
    },
    /// An `if` with the branches that go on with it (RFC 5228, section 3.1).
    Choose {
        /// The branches with tests; the last stands first.
        branches: Vec<Branch>,
        /// The block of the `else`, if there is one; its last command stands first.
        otherwise: Option<Vec<Statement>>,
    },
}

/// A branch with a test.
#[derive(Drop)]
#[cycle(statements)]
pub struct Branch {
    /// The condition of its test.
    pub condition: Condition,
    /// Its block; the last command stands first.
    pub block: Vec<Statement>,
}
