//! The rows of the table for commands. Each has a function of its own, since a large one is
//! slow to prove.
ghost use Rattle.std.specs.Prelude.{◌≡◌};
ghost use Rattle.sieve_table.specs.Table.{command_row};
ghost use Rattle.sieve_table.specs.declared.table.CommandKind.TheVariants as command;
ghost use Rattle.sieve_table.specs.view.Row.{row_as};

use crate::capability::Capability;
use crate::row::{BARE, FLAGS, Form, Inner, Role, Row, Slot};
use crate::tag::Tag;

/// The variable whose flags a command changes (RFC 5232, section 3).
const FLAG_VARIABLE: Slot = Slot {
    form: Form::One,
    role: Role::NameToSet,
    needs: Some(Capability::Variables),
};

/// The row of a command that changes flags (RFC 5232, section 3). It has no name yet.
const FLAG_COMMAND: Row = Row {
    front: Some(FLAG_VARIABLE),
    slots: &[FLAGS],
    needs: &[Capability::Imap4flags],
    ..BARE
};

/// The text of a response or of a refusal.
const REASON: Slot = Slot {
    form: Form::One,
    role: Role::Text,
    needs: None,
};

/// `require` (RFC 5228, 3.2).
pub(crate) fn require_row() -> Row
    ensures { row_as result ≡ command_row command.Require }
{
    Row {
        name: b"require",
        slots: &[Slot {
            form: Form::List,
            role: Role::Capabilities,
            needs: None,
        }],
        ..BARE
    }
}

/// `if` (RFC 5228, 3.1).
pub(crate) fn if_row() -> Row
    ensures { row_as result ≡ command_row command.If }
{
    Row {
        name: b"if",
        tests: Inner::One,
        has_block: true,
        ..BARE
    }
}

/// `elsif` (RFC 5228, 3.1).
pub(crate) fn elsif_row() -> Row
    ensures { row_as result ≡ command_row command.Elsif }
{
    Row {
        name: b"elsif",
        tests: Inner::One,
        has_block: true,
        ..BARE
    }
}

/// `else` (RFC 5228, 3.1).
pub(crate) fn else_row() -> Row
    ensures { row_as result ≡ command_row command.Else }
{
    Row {
        name: b"else",
        has_block: true,
        ..BARE
    }
}

/// `keep` (RFC 5228, 4.3).
pub(crate) fn keep_row() -> Row
    ensures { row_as result ≡ command_row command.Keep }
{
    Row {
        name: b"keep",
        tags: &[Tag::Flags],
        ..BARE
    }
}

/// `fileinto` (RFC 5228, 4.1).
pub(crate) fn fileinto_row() -> Row
    ensures { row_as result ≡ command_row command.Fileinto }
{
    Row {
        name: b"fileinto",
        tags: &[Tag::Flags, Tag::Copy, Tag::Create, Tag::SpecialUse],
        slots: &[Slot {
            form: Form::One,
            role: Role::Mailbox,
            needs: None,
        }],
        needs: &[Capability::Fileinto],
        ..BARE
    }
}

/// `redirect` (RFC 5228, 4.2).
pub(crate) fn redirect_row() -> Row
    ensures { row_as result ≡ command_row command.Redirect }
{
    Row {
        name: b"redirect",
        tags: &[Tag::Copy],
        slots: &[Slot {
            form: Form::One,
            role: Role::Address,
            needs: None,
        }],
        ..BARE
    }
}

/// `discard` (RFC 5228, 4.4).
pub(crate) fn discard_row() -> Row
    ensures { row_as result ≡ command_row command.Discard }
{
    Row {
        name: b"discard",
        ..BARE
    }
}

/// `stop` (RFC 5228, 3.3).
pub(crate) fn stop_row() -> Row
    ensures { row_as result ≡ command_row command.Stop }
{
    Row {
        name: b"stop",
        ..BARE
    }
}

/// `set` (RFC 5229, section 4).
pub(crate) fn set_row() -> Row
    ensures { row_as result ≡ command_row command.Set }
{
    Row {
        name: b"set",
        tags: &[
            Tag::Lower,
            Tag::Upper,
            Tag::LowerFirst,
            Tag::UpperFirst,
            Tag::QuoteWildcard,
            Tag::Length,
        ],
        slots: &[
            Slot {
                form: Form::One,
                role: Role::NameToSet,
                needs: None,
            },
            Slot {
                form: Form::One,
                role: Role::Text,
                needs: None,
            },
        ],
        needs: &[Capability::Variables],
        ..BARE
    }
}

/// `setflag` (RFC 5232, 3.1).
pub(crate) fn set_flag_row() -> Row
    ensures { row_as result ≡ command_row command.SetFlag }
{
    Row {
        name: b"setflag",
        ..FLAG_COMMAND
    }
}

/// `addflag` (RFC 5232, 3.2).
pub(crate) fn add_flag_row() -> Row
    ensures { row_as result ≡ command_row command.AddFlag }
{
    Row {
        name: b"addflag",
        ..FLAG_COMMAND
    }
}

/// `removeflag` (RFC 5232, 3.3).
pub(crate) fn remove_flag_row() -> Row
    ensures { row_as result ≡ command_row command.RemoveFlag }
{
    Row {
        name: b"removeflag",
        ..FLAG_COMMAND
    }
}

/// `include` (RFC 6609, 3.2).
pub(crate) fn include_row() -> Row
    ensures { row_as result ≡ command_row command.Include }
{
    Row {
        name: b"include",
        tags: &[Tag::Personal, Tag::Global, Tag::Once, Tag::Optional],
        slots: &[Slot {
            form: Form::One,
            role: Role::ScriptName,
            needs: None,
        }],
        needs: &[Capability::Include],
        ..BARE
    }
}

/// `return` (RFC 6609, 3.3).
pub(crate) fn return_row() -> Row
    ensures { row_as result ≡ command_row command.Return }
{
    Row {
        name: b"return",
        needs: &[Capability::Include],
        ..BARE
    }
}

/// `global` (RFC 6609, 3.4.1).
pub(crate) fn global_row() -> Row
    ensures { row_as result ≡ command_row command.Global }
{
    Row {
        name: b"global",
        slots: &[Slot {
            form: Form::List,
            role: Role::NamesToDeclare,
            needs: None,
        }],
        needs: &[Capability::Include, Capability::Variables],
        ..BARE
    }
}

/// `vacation` (RFC 5230, section 4).
pub(crate) fn vacation_row() -> Row
    ensures { row_as result ≡ command_row command.Vacation }
{
    Row {
        name: b"vacation",
        tags: &[
            Tag::Days,
            Tag::Subject,
            Tag::From,
            Tag::Addresses,
            Tag::Mime,
            Tag::ResponseHandle,
        ],
        slots: &[REASON],
        needs: &[Capability::Vacation],
        ..BARE
    }
}

/// `reject` (RFC 5429, 2.2).
pub(crate) fn reject_row() -> Row
    ensures { row_as result ≡ command_row command.Reject }
{
    Row {
        name: b"reject",
        slots: &[REASON],
        needs: &[Capability::Reject],
        ..BARE
    }
}

/// `ereject` (RFC 5429, 2.1).
pub(crate) fn ereject_row() -> Row
    ensures { row_as result ≡ command_row command.Ereject }
{
    Row {
        name: b"ereject",
        slots: &[REASON],
        needs: &[Capability::Ereject],
        ..BARE
    }
}
