//! How the test of a message ends.
/// How the test of a message, or a dump, ended.
#[derive(Clone, Copy, Debug, PartialEq, Eq)]
pub enum TestEnd {
    /// No script has a fault, and no message an error.
    Clean = 0,
    /// A script has a fault, or a message an error.
    Faulty = 1,
    /// A text, a name, a message, its id or an address is past its limit. Or a mailbox or the list
    /// of mailboxes is.
    TooLarge = 2,
    /// There are more scripts than a bench holds.
    Full = 3,
    /// The report, or the dump, could not be written.
    Write = 4,
    /// Memory ran out.
    NoMemory = 5,
}
