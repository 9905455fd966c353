//! The table: a row for each command and test.
ghost use Rattle.std.specs.Prelude.{◌≡◌, find};
ghost use Rattle.sieve_table.specs.Table.{command_named, command_row, is_named, test_named, test_row};
ghost use Rattle.sieve_table.specs.view.Row.{row_as};

use crate::row::Row;
use crate::tag::is_named;
use crate::{command_rows, test_rows};

/// A command of the table, whether or not a profile knows it.
#[derive(Clone, Copy, Debug, PartialEq, Eq)]
pub enum CommandKind {
    /// `require` (RFC 5228, 3.2).
    Require,
    /// `if` (RFC 5228, 3.1).
    If,
    /// `elsif` (RFC 5228, 3.1).
    Elsif,
    /// `else` (RFC 5228, 3.1).
    Else,
    /// `keep` (RFC 5228, 4.3).
    Keep,
    /// `fileinto` (RFC 5228, 4.1).
    Fileinto,
    /// `redirect` (RFC 5228, 4.2).
    Redirect,
    /// `discard` (RFC 5228, 4.4).
    Discard,
    /// `stop` (RFC 5228, 3.3).
    Stop,
    /// `set` (RFC 5229, section 4).
    Set,
    /// `setflag` (RFC 5232, 3.1).
    SetFlag,
    /// `addflag` (RFC 5232, 3.2).
    AddFlag,
    /// `removeflag` (RFC 5232, 3.3).
    RemoveFlag,
    /// `include` (RFC 6609, 3.2).
    Include,
    /// `return` (RFC 6609, 3.3).
    Return,
    /// `global` (RFC 6609, 3.4.1).
    Global,
    /// `vacation` (RFC 5230, section 4).
    Vacation,
    /// `reject` (RFC 5429, 2.2).
    Reject,
    /// `ereject` (RFC 5429, 2.1).
    Ereject,
}

/// A test of the table, whether or not a profile knows it.
#[derive(Clone, Copy, PartialEq, Eq)]
pub enum TestKind {
    /// `header` (RFC 5228, 5.7).
    Header,
    /// `address` (RFC 5228, 5.1).
    Address,
    /// `envelope` (RFC 5228, 5.4).
    Envelope,
    /// `exists` (RFC 5228, 5.5).
    Exists,
    /// `size` (RFC 5228, 5.9).
    Size,
    /// `allof` (RFC 5228, 5.2).
    AllOf,
    /// `anyof` (RFC 5228, 5.3).
    AnyOf,
    /// `not` (RFC 5228, 5.8).
    Not,
    /// `true` (RFC 5228, 5.10).
    True,
    /// `false` (RFC 5228, 5.6).
    False,
    /// `string` (RFC 5229, section 5).
    String,
    /// `hasflag` (RFC 5232, section 4).
    HasFlag,
    /// `mailboxexists` (RFC 5490, 3.1).
    MailboxExists,
    /// `duplicate` (RFC 7352, section 3).
    Duplicate,
    /// `date` (RFC 5260, section 4).
    Date,
    /// `currentdate` (RFC 5260, section 5).
    CurrentDate,
    /// `body` (RFC 5173, section 4).
    Body,
}

/// All commands, in the order of `CommandKind`.
const COMMANDS: [CommandKind; 19] = [
    CommandKind::Require,
    CommandKind::If,
    CommandKind::Elsif,
    CommandKind::Else,
    CommandKind::Keep,
    CommandKind::Fileinto,
    CommandKind::Redirect,
    CommandKind::Discard,
    CommandKind::Stop,
    CommandKind::Set,
    CommandKind::SetFlag,
    CommandKind::AddFlag,
    CommandKind::RemoveFlag,
    CommandKind::Include,
    CommandKind::Return,
    CommandKind::Global,
    CommandKind::Vacation,
    CommandKind::Reject,
    CommandKind::Ereject,
];

/// All tests, in the order of `TestKind`.
const TESTS: [TestKind; 17] = [
    TestKind::Header,
    TestKind::Address,
    TestKind::Envelope,
    TestKind::Exists,
    TestKind::Size,
    TestKind::AllOf,
    TestKind::AnyOf,
    TestKind::Not,
    TestKind::True,
    TestKind::False,
    TestKind::String,
    TestKind::HasFlag,
    TestKind::MailboxExists,
    TestKind::Duplicate,
    TestKind::Date,
    TestKind::CurrentDate,
    TestKind::Body,
];

impl CommandKind {
    /// The command's row: its identifier, tags, arguments, tests, block and needed capabilities
    /// (RFC 5228, 2.6).
    pub fn row(self) -> Row
        ensures { row_as result ≡ command_row self }
    {
        match self {
            CommandKind::Require => command_rows::require_row(),
            CommandKind::If => command_rows::if_row(),
            CommandKind::Elsif => command_rows::elsif_row(),
            CommandKind::Else => command_rows::else_row(),
            CommandKind::Keep => command_rows::keep_row(),
            CommandKind::Fileinto => command_rows::fileinto_row(),
            CommandKind::Redirect => command_rows::redirect_row(),
            CommandKind::Discard => command_rows::discard_row(),
            CommandKind::Stop => command_rows::stop_row(),
            CommandKind::Set => command_rows::set_row(),
            CommandKind::SetFlag => command_rows::set_flag_row(),
            CommandKind::AddFlag => command_rows::add_flag_row(),
            CommandKind::RemoveFlag => command_rows::remove_flag_row(),
            CommandKind::Include => command_rows::include_row(),
            CommandKind::Return => command_rows::return_row(),
            CommandKind::Global => command_rows::global_row(),
            CommandKind::Vacation => command_rows::vacation_row(),
            CommandKind::Reject => command_rows::reject_row(),
            CommandKind::Ereject => command_rows::ereject_row(),
        }
    }
}

impl TestKind {
    /// The test's row: its identifier, tags, arguments, tests and needed capabilities
    /// (RFC 5228, 2.6).
    pub fn row(self) -> Row
        ensures { row_as result ≡ test_row self }
    {
        match self {
            TestKind::Header => test_rows::header_row(),
            TestKind::Address => test_rows::address_row(),
            TestKind::Envelope => test_rows::envelope_row(),
            TestKind::Exists => test_rows::exists_row(),
            TestKind::Size => test_rows::size_row(),
            TestKind::AllOf => test_rows::all_of_row(),
            TestKind::AnyOf => test_rows::any_of_row(),
            TestKind::Not => test_rows::not_row(),
            TestKind::True => test_rows::true_row(),
            TestKind::False => test_rows::false_row(),
            TestKind::String => test_rows::string_row(),
            TestKind::HasFlag => test_rows::has_flag_row(),
            TestKind::MailboxExists => test_rows::mailbox_exists_row(),
            TestKind::Duplicate => test_rows::duplicate_row(),
            TestKind::Date => test_rows::date_row(),
            TestKind::CurrentDate => test_rows::current_date_row(),
            TestKind::Body => test_rows::body_row(),
        }
    }
}

/// The first of some commands with this identifier (RFC 5228, 2.1).
fn find_command(kinds: &[CommandKind], written: &[u8]) -> Option<CommandKind>
    ensures { result ≡ find (λ kind. is_named (command_row kind).name written.now) kinds.now }
{
    kinds
        .iter()
        .copied()
        .find(|kind| is_named(kind.row().name, written))
}

/// The first of some tests with this identifier (RFC 5228, 2.1).
fn find_test(kinds: &[TestKind], written: &[u8]) -> Option<TestKind>
    ensures { result ≡ find (λ kind. is_named (test_row kind).name written.now) kinds.now }
{
    kinds
        .iter()
        .copied()
        .find(|kind| is_named(kind.row().name, written))
}

/// The command with the identifier `written`, in any case of ASCII, or `None` (RFC 5228, 2.1).
#[tactic(auto, unfolding(crate::specs::Table::command_named))]
pub fn command_named(written: &[u8]) -> Option<CommandKind>
    ensures { result ≡ command_named written.now }
{
    find_command(&COMMANDS, written)
}

/// The test with the identifier `written`, in any case of ASCII, or `None` (RFC 5228, 2.1).
#[tactic(auto, unfolding(crate::specs::Table::test_named))]
pub fn test_named(written: &[u8]) -> Option<TestKind>
    ensures { result ≡ test_named written.now }
{
    find_test(&TESTS, written)
}
