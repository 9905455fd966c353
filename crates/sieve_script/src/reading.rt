//! The readings of commands and tests, with defaults filled in (RFC 5228, sections 3, 4 and 5).
//! The reading of a checked script has the strings of the arguments that it is made of. The types
//! are generic in how names of fields (`N`), lists of strings (`L`) and strings (`S`) are kept.
//! `V` is how the arguments of a `vacation` are kept. A reading has a string as its parts, and
//! code has it at a place.
ghost use Rattle.std.specs.Prelude.{◌≡◌};
ghost use Rattle.sieve_script.specs.Reading.{rejection_word};

use match_text::{Collation, Relation};
use message_text::AddressPart;
use script_names::Location;
use sieve_variables::{Literal, Modifiers, Parts, Variable};

/// How a test compares values with keys (RFC 5228, section 2.7.1; RFC 5231, section 4).
#[derive(Clone, Copy, PartialEq, Eq)]
pub enum MatchType {
    /// A value is a key.
    Is,
    /// A value contains a key.
    Contains,
    /// A value matches a key, which may have wildcards.
    Matches,
    /// A value stands in that relation to a key.
    Value(Relation),
    /// The number of values, in decimal, stands in that relation to a key.
    Count(Relation),
}

/// How a test compares a value with a key (RFC 5228, section 2.7).
#[derive(Clone, Copy, PartialEq, Eq)]
pub struct Comparison {
    /// How a value matches a key (RFC 5228, section 2.7.1).
    pub match_type: MatchType,
    /// Which octets are equal (RFC 5228, section 2.7.3).
    pub collation: Collation,
}

/// The zone in which a date is shown (RFC 5260, section 4.1).
#[derive(Clone, Copy, Drop)]
pub enum DateZone<S> {
    /// The local one.
    Local,
    /// The one in which the date was written.
    Original,
    /// The one that a string names.
    Named(S),
}

/// The part of a body that a test looks at (RFC 5173, section 5).
#[derive(Clone, Copy, Drop)]
pub enum BodyTransform<L> {
    /// All of it as it stands.
    Raw,
    /// The contents of some types.
    Content {
        /// The entries that name them.
        entries: L,
    },
    /// Its texts.
    Text,
}

/// Where a test takes values from.
#[derive(Clone, Copy, Drop)]
pub enum ValueSource<N, L, S> {
    /// From the fields of some names (RFC 5228, section 5.7), or from the addresses in them
    /// (RFC 5228, section 5.1).
    Fields {
        /// Which part of an address, where the values are addresses.
        part: Option<AddressPart>,
        /// The names of fields.
        names: N,
    },
    /// From the envelope (RFC 5228, section 5.4).
    Envelope {
        /// Which part of an address.
        part: AddressPart,
        /// The names of the envelope's parts.
        names: L,
    },
    /// Strings themselves (RFC 5229, section 5).
    String {
        /// The strings.
        texts: L,
    },
    /// Flags (RFC 5232, section 4).
    Flags {
        /// The variables that hold them, each by its name; the internal flags where none are named.
        variables: Option<L>,
    },
    /// From the date of the first field of a name (RFC 5260, section 4).
    Date {
        /// The zone in which it is shown.
        zone: DateZone<S>,
        /// The name of the field.
        field: S,
        /// Which part of the date.
        part: S,
    },
    /// From the current date (RFC 5260, section 5).
    CurrentDate {
        /// The zone in which it is shown.
        zone: DateZone<S>,
        /// Which part of the date.
        part: S,
    },
    /// From the body of the message (RFC 5173, section 4).
    Body {
        /// The part of it that the test looks at.
        transform: BodyTransform<L>,
    },
}

/// The question that a test asks of the delivery.
#[derive(Clone, Copy, Drop)]
pub enum Ask<N, L, S> {
    /// Whether some value matches some key (RFC 5228, section 2.7).
    Compares {
        /// Where the values are from.
        source: ValueSource<N, L, S>,
        /// How a value is compared with a key.
        comparison: Comparison,
        /// The keys.
        keys: L,
    },
    /// Whether all named fields are there (RFC 5228, section 5.5).
    Exists {
        /// The names of fields.
        names: N,
    },
    /// Whether the message has more octets (RFC 5228, section 5.9).
    Over {
        /// The number of octets.
        limit: u64,
    },
    /// Whether the message has fewer octets (RFC 5228, section 5.9).
    Under {
        /// The number of octets.
        limit: u64,
    },
    /// Whether all named mailboxes are there (RFC 5490, section 3.1).
    MailboxExists {
        /// The names of mailboxes.
        names: L,
    },
    /// Whether the message came before (RFC 7352, section 3).
    Duplicate,
}

/// The question of a test of a checked script, whose strings are parts.
pub type ReadAsk = Ask<Vec<Parts>, Vec<Parts>, Parts>;

/// The reading of a test, without the tests in it.
#[derive(Drop)]
pub enum TestReading {
    /// True (RFC 5228, section 5.10).
    Always,
    /// False (RFC 5228, section 5.6).
    Never,
    /// A question that the test asks of the delivery.
    Asks(ReadAsk),
    /// Whether all tests in it hold (RFC 5228, section 5.2).
    AllOf,
    /// Whether some test in it holds (RFC 5228, section 5.3).
    AnyOf,
    /// Whether the test in it doesn't hold (RFC 5228, section 5.8).
    Not,
}

/// How a command changes flags (RFC 5232, section 3).
#[derive(Clone, Copy, PartialEq, Eq)]
pub enum FlagChange {
    /// The flags become those that the command names (RFC 5232, section 3.1).
    Set,
    /// The flags that the command names are added (RFC 5232, section 3.2).
    Add,
    /// The flags that the command names are taken out (RFC 5232, section 3.3).
    Remove,
}

/// The settings of a `fileinto`, beside its mailbox.
#[derive(Clone, Copy, Drop)]
pub struct Settings<L, S> {
    /// The flags of the stored message, where the command names them (RFC 5232, section 5).
    pub flags: Option<L>,
    /// Whether the command's action leaves the implicit keep as it is (RFC 3894, section 3).
    pub copy: bool,
    /// Whether a mailbox that isn't there is to be made (RFC 5490, section 3.2).
    pub create: bool,
    /// The use of the mailbox to store into, where the command names one (RFC 8579, section 4).
    pub special_use: Option<S>,
}

/// The arguments of a `vacation` (RFC 5230, section 4).
#[derive(Clone, Copy, Drop)]
pub struct Vacation<L, S> {
    /// The text of the response.
    pub reason: S,
    /// For how many days a sender gets no other response, where that is given
    /// (RFC 5230, section 4.1).
    pub days: Option<u64>,
    /// The subject of the response, where it is given (RFC 5230, section 4.3).
    pub subject: Option<S>,
    /// Whom the response is from, where that is given (RFC 5230, section 4.3).
    pub from: Option<S>,
    /// Further addresses of the user, where they are given (RFC 5230, section 4.5).
    pub addresses: Option<L>,
    /// Whether the text is a MIME entity (RFC 5230, section 4.4).
    pub mime: bool,
    /// The handle by which a server would know such a response, where it is given
    /// (RFC 5230, section 4.2).
    pub handle: Option<S>,
}

/// The arguments of a `vacation` of a checked script, whose strings are parts.
pub type ReadVacation = Vacation<Vec<Parts>, Parts>;

/// The action by which a message is rejected (RFC 5429, section 2).
#[derive(Clone, Copy, PartialEq, Eq)]
pub enum Rejection {
    /// `reject` (RFC 5429, section 2.2).
    Reject,
    /// `ereject` (RFC 5429, section 2.1).
    Ereject,
}

impl Rejection {
    /// The word of the command, and of its line in a dump and a verdict.
    pub fn word(self) -> &'static [u8]
        ensures { result.now ≡ rejection_word self }
    {
        match self {
            Rejection::Reject => b"reject",
            Rejection::Ereject => b"ereject",
        }
    }
}

/// A command that acts, with its arguments.
#[derive(Drop)]
pub enum Leaf<L, S, V> {
    /// A command that stores into the mailbox of the delivery (RFC 5228, section 4.3).
    Keep {
        /// The flags of the stored message, where the command names them (RFC 5232, section 5).
        flags: Option<L>,
    },
    /// A command that stores into the mailbox of that name (RFC 5228, section 4.1).
    Fileinto {
        /// The name.
        mailbox: S,
        /// The settings beside the mailbox.
        settings: Settings<L, S>,
    },
    /// A command that sends the message on to that address (RFC 5228, section 4.2).
    Redirect {
        /// The address.
        address: S,
        /// Whether the implicit keep stays as it is (RFC 3894, section 3).
        copy: bool,
    },
    /// A command that discards the message (RFC 5228, section 4.4).
    Discard,
    /// A command that gives a variable a value (RFC 5229, section 4).
    Set {
        /// The variable.
        variable: Variable,
        /// The changes of the value before it is set (RFC 5229, section 4.1).
        modifiers: Modifiers,
        /// The value.
        value: S,
    },
    /// A command that changes flags (RFC 5232, section 3).
    Flags {
        /// How the command changes them.
        change: FlagChange,
        /// The variable that holds them; the internal flags where none is named.
        variable: Option<Variable>,
        /// The flags that the command names.
        flags: L,
    },
    /// A command that runs another script (RFC 6609, section 3.2).
    Include {
        /// Where the script is kept.
        location: Location,
        /// Whether the script runs only where it hasn't run yet.
        once: bool,
        /// Whether the script may be missing.
        optional: bool,
        /// The script's name.
        name: Literal,
    },
    /// A command that answers the sender (RFC 5230).
    Vacation {
        /// The arguments of the command.
        vacation: V,
    },
    /// A command that rejects the message (RFC 5429).
    Reject {
        /// The action by which the message is rejected.
        how: Rejection,
        /// The reason of the rejection.
        reason: S,
    },
}

/// A command of a checked script that acts, whose strings are parts.
pub type ReadLeaf = Leaf<Vec<Parts>, Parts, Box<ReadVacation>>;

/// The reading of a command, without its test and its block.
#[derive(Drop)]
pub enum CommandReading {
    /// The first branch of a chain (RFC 5228, section 3.1).
    If,
    /// A branch after another, with a test (RFC 5228, section 3.1).
    Elsif,
    /// The last branch of a chain (RFC 5228, section 3.1).
    Else,
    /// A command that ends the run (RFC 5228, section 3.3).
    Stop,
    /// A command that ends its script (RFC 6609, section 3.3).
    Return,
    /// A command that does nothing when it runs (RFC 5228, section 3.2; RFC 6609, section 3.4.1).
    Nothing,
    /// A command that acts.
    Act(ReadLeaf),
}
