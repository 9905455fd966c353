//! How a run of the program ends, and the status that it ends with.
ghost use Rattle.std.specs.Prelude.{◌≡◌};
ghost use Rattle.session_server.specs.Status.{status};

use bench::TestEnd;

/// How a session ended.
#[derive(Clone, Copy, Debug, PartialEq, Eq)]
pub enum SessionEnd {
    /// The input ended after a whole command.
    Done = 0,
    /// A line was no command.
    Syntax = 1,
    /// The input ended inside the octets of a command.
    Truncated = 2,
    /// The input could not be read.
    Read = 3,
    /// A reply could not be written.
    Write = 4,
    /// Out of memory for the line buffer. Nothing was read or written.
    NoMemory = 5,
    /// All the reads that were allowed were made, and the end of the input had not come.
    TurnLimit = 6,
}

/// How a run ended.
#[derive(Clone, Copy, Debug, PartialEq, Eq)]
pub enum End {
    Session(SessionEnd),
    Test(TestEnd),
}

/// The status of the process:
/// - 0: done.
/// - 1: a fault in a script, or an error of a message.
/// - 2: a line that is no command, an input that is cut off, or too much.
/// - 3: a fault in reading or writing, or too many reads.
/// - 4: out of memory.
pub fn status_of(end: End) -> u8
    ensures { result ≡ status end }
{
    match end {
        End::Session(SessionEnd::Done) | End::Test(TestEnd::Clean) => 0,
        End::Test(TestEnd::Faulty) => 1,
        End::Session(SessionEnd::Syntax | SessionEnd::Truncated)
        | End::Test(TestEnd::TooLarge | TestEnd::Full) => 2,
        End::Session(SessionEnd::Read | SessionEnd::Write | SessionEnd::TurnLimit)
        | End::Test(TestEnd::Write) => 3,
        End::Session(SessionEnd::NoMemory) | End::Test(TestEnd::NoMemory) => 4,
    }
}
