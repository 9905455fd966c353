//! Why an edit is refused, and why a report is not written.
ghost use Rattle.std.specs.Prelude.{◌≡◌};
ghost use Rattle.bench.specs.declared.fault.EditFault.TheVariants as edit;

use std::alloc::AllocError;
use thiserror::Error;

/// Why an edit was refused. A refused edit changes nothing. Where several hold, the first of
/// `TooLarge`, `NoSuchScript`, `NameTaken`, `NoSuchMessage`, `Full`, `NoMemory` is answered.
#[derive(Clone, Copy, Debug, PartialEq, Eq, Error)]
pub enum EditFault {
    /// There is no script of that name.
    #[error("no such script")]
    NoSuchScript = 1,
    /// A script has that name.
    #[error("the name is taken")]
    NameTaken = 2,
    /// There is no message of that id.
    #[error("no such message")]
    NoSuchMessage = 3,
    /// There are 4,096 scripts, or 65,536 messages, and this is one more.
    #[error("the bench is full")]
    Full = 4,
    /// Too many octets: more than 1,048,576 in a text or a list of mailboxes. Or more than
    /// 16,777,216 in a message, 65,536 in an expected text, or 255 in a mailbox. Or more than 1,024
    /// in a name, an id or an address.
    #[error("too large")]
    TooLarge = 5,
    /// Out of memory.
    #[error("out of memory")]
    NoMemory = 6,
}

impl From<AllocError> for EditFault {
    ghost from_gives = { λ _ fault. fault ≡ edit.NoMemory };

    fn from(_refused: AllocError) -> EditFault {
        EditFault::NoMemory
    }
}

/// Why a report wasn't written.
#[derive(Clone, Copy, Debug, PartialEq, Eq, Error)]
pub enum ReportFault {
    /// Out of memory; nothing was written.
    #[error("out of memory")]
    NoMemory = 1,
    /// The writer failed, and a front of the report was written.
    #[error("the writer failed")]
    Write = 2,
}
