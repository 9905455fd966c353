//! Errors of runs.
ghost use Rattle.std.specs.Prelude.{◌≡◌};
ghost use Rattle.sieve_delivery.specs.ErrorKind.{error_word};

use script_names::ScriptName;

/// Why a run failed.
#[derive(Clone, Copy, Debug, PartialEq, Eq)]
pub enum ErrorKind {
    /// There is no such script.
    MissingScript = 1,
    /// The script has a fault.
    InvalidScript = 2,
    /// A script that is running is included again (RFC 6609, 3.1).
    RecursiveInclude = 3,
    /// Includes are nested too deeply (RFC 6609, 3.1).
    IncludeDepth = 4,
    /// Too many scripts are included. RFC 6609, section 3.1, lets an implementation limit them.
    IncludeCount = 5,
    /// A redirect isn't to one address (RFC 5228, 4.2), or a response isn't from one (RFC 5230,
    /// 4.3).
    BadAddress = 6,
    /// Too many actions (RFC 5228, 2.10.4).
    TooManyActions = 7,
    /// Too many global variables (RFC 5229, 6).
    TooManyGlobals = 8,
    /// A mailbox has no legal name (RFC 5228, 4.1), or no legal use (RFC 8579, 4).
    BadMailbox = 9,
    /// A second response (RFC 5230, 4.7).
    SecondVacation = 10,
    /// A rejection, and an action that doesn't go with one (RFC 5429, 2.4).
    ConflictingActions = 11,
}

impl ErrorKind {
    /// The word that a report prints for the error.
    pub fn word(self) -> &'static [u8]
        ensures { result.now ≡ error_word self }
    {
        match self {
            ErrorKind::MissingScript => b"missing-script",
            ErrorKind::InvalidScript => b"invalid-script",
            ErrorKind::RecursiveInclude => b"recursive-include",
            ErrorKind::IncludeDepth => b"include-depth",
            ErrorKind::IncludeCount => b"include-count",
            ErrorKind::BadAddress => b"bad-address",
            ErrorKind::TooManyActions => b"too-many-actions",
            ErrorKind::TooManyGlobals => b"too-many-globals",
            ErrorKind::BadMailbox => b"bad-mailbox",
            ErrorKind::SecondVacation => b"second-vacation",
            ErrorKind::ConflictingActions => b"conflicting-actions",
        }
    }
}

/// The place at which a run failed, and the reason.
#[derive(Drop)]
pub struct RunError {
    /// The script of the command that failed.
    pub script: ScriptName,
    /// The command's line, or 0 if the main script itself can't run.
    pub line: u64,
    /// Why it failed.
    pub kind: ErrorKind,
}
