//! The commands, tests and blocks that are open while the tokens of a script are read. They hold
//! their parts so far.

ghost use Rattle.std.specs.Prelude.{◌≡◌, IfOk};
ghost use Rattle.sieve_syntax.specs.Machine.{command_of_parts, test_with};
ghost use Rattle.sieve_syntax.specs.view.Reader.{head_value};
ghost use Rattle.sieve_syntax.specs.view.Tree.{block_of, command_as, test_of, tests_of};

use crate::command_name::CommandName;
use crate::test_name::TestName;
use crate::tree::{Argument, Command, Test, Tests, Text};
use octets::SmallOctets;
use std::alloc::{AllocError, Global};

/// A command or a test whose arguments are being read.
#[derive(Drop)]
pub(crate) struct Head {
    pub(crate) name: SmallOctets,
    pub(crate) line: u32,
    pub(crate) args: Vec<Argument>,
}

/// A command or a test that waits for a test inside it.
#[derive(Drop)]
pub(crate) enum Level {
    /// A command or a test that waits for its one test.
    One(Head),
    /// A command or a test that waits for the next test of its list, and the tests before that.
    List(Head, Vec<Test>),
}

/// A command whose block stands open, and the commands before it.
#[derive(Drop)]
pub(crate) struct Open {
    pub(crate) done: Vec<Command>,
    pub(crate) head: Head,
    pub(crate) tests: Tests,
}

/// The open blocks, the innermost last, and the commands read in the innermost. And the tests
/// that are open in the command that is being read, the innermost last. Between two commands the
/// tests don't matter.
#[derive(Drop)]
pub(crate) struct Outer {
    pub(crate) blocks: Vec<Open>,
    pub(crate) done: Vec<Command>,
    pub(crate) levels: Vec<Level>,
}

/// The place of the next token.
#[derive(Drop)]
pub(crate) enum ParserState {
    /// Between two commands.
    Between,
    /// After an identifier or an argument.
    Arguments(Head),
    /// In a list of strings, where a string has to come.
    BeforeString(Head, Vec<Text>),
    /// In a list of strings, after a string.
    AfterString(Head, Vec<Text>),
    /// In a list of tests, where a test has to come.
    BeforeTest,
    /// After a list of tests.
    AfterTests(Head, Tests),
}

/// The command with this head, these tests and this block.
pub(crate) fn command_with(
    alloc: Global,
    head: Head,
    tests: Tests,
    block: Option<Vec<Command>>,
) -> Result<Command, AllocError>
    ensures { IfOk result (λ command. command_as command
        ≡ command_of_parts (head_value head) (tests_of tests) (block_of block)) }
{
    Ok(Command {
        name: CommandName::new(alloc, head.name)?,
        line: head.line,
        args: head.args,
        tests,
        block,
    })
}

/// The test with this head and these tests.
pub(crate) fn finished_test(alloc: Global, head: Head, tests: Tests) -> Result<Test, AllocError>
    ensures { IfOk result (λ test. test_of test ≡ test_with (head_value head) (tests_of tests)) }
{
    Ok(Test {
        name: TestName::new(alloc, head.name)?,
        line: head.line,
        args: head.args,
        tests,
    })
}
