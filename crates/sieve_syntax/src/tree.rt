//! The tree of a script by its grammar (RFC 5228, 8.2). A line is one plus the number of
//! LF before it.

ghost use Rattle.std.specs.Prelude.{◌≡◌};
ghost use Rattle.sieve_syntax.specs.view.Tree.{text_of};

use crate::command_name::CommandName;
use crate::test_name::TestName;
use octets::SmallOctets;
use std::mem::size_of;

/// A command (RFC 5228, 2.9). `name` is its identifier, and `line` the line where that begins.
/// `args` are its arguments in order. `tests` are the tests after these, and `block` are the
/// commands of its block, if it has one.
#[derive(Drop)]
pub struct Command {
    pub name: CommandName,
    /// The line of the identifier.
    pub line: u32,
    pub args: Vec<Argument>,
    pub tests: Tests,
    /// The commands between `{` and `}`, or `None` where the command ends by `;`.
    pub block: Option<Vec<Command>>,
}

/// A command takes twelve words: a text of `keep;` alone has one for each five octets.
const _: () = prove!(size_of::<Command>() == 96);

/// A test (RFC 5228, 2.5). `name` is its identifier, and `line` the line where that begins. `args`
/// are its arguments in order, and `tests` the tests after these.
#[derive(Drop)]
#[cycle(tests)]
pub struct Test {
    pub name: TestName,
    /// The line of the identifier.
    pub line: u32,
    pub args: Vec<Argument>,
    pub tests: Tests,
}

/// The tests that stand after the arguments of a command or a test.
#[derive(Drop)]
#[cycle(tests)]
pub enum Tests {
    None,
    One(Box<Test>),
    /// The tests of a list in parentheses, one or more.
    List(Box<Vec<Test>>),
}

/// An argument (RFC 5228, 2.6).
#[derive(Drop)]
pub enum Argument {
    /// A list of one or more strings in brackets, or one string without brackets.
    Strings { items: Vec<Text>, bracketed: bool },
    /// A number with its unit multiplied in, or `None` where it is past `u64::MAX`, and its line.
    Number { value: Option<u64>, line: u32 },
    /// A tag without its colon, as it is written, and the line of the colon.
    Tag { name: SmallOctets, line: u32 },
}

/// A string: the octets that it stands for, and the line where it begins.
#[derive(Drop)]
pub struct Text {
    pub string: SmallOctets,
    pub line: u32,
}

impl Text {
    /// The octets that the string stands for.
    pub fn octets(&self) -> &[u8]
        ensures { result.now ≡ (text_of self.now).string }
    {
        self.string.as_slice()
    }
}
