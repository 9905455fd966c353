//! The rows of the table, and the types of their columns.
ghost use Rattle.std.specs.Prelude.{◌≡◌};
ghost use Rattle.sieve_table.specs.Table.{same_kind};

use crate::capability::Capability;
use crate::tag::Tag;

/// How an argument is written.
#[derive(Clone, Copy)]
pub enum Form {
    /// One string without brackets.
    One,
    /// A list of strings, or one string.
    List,
    /// A number.
    Number,
}

/// The purpose of an argument, by which its strings are judged and read.
#[derive(Clone, Copy, PartialEq, Eq)]
pub enum Role {
    /// Capabilities (RFC 5228, 3.2).
    Capabilities,
    /// A comparator (RFC 5228, 2.7.3).
    ComparatorName,
    /// Names of header fields (RFC 5228, 2.4.2.2).
    FieldNames,
    /// Names of header fields that hold addresses (RFC 5228, 5.1).
    AddressFields,
    /// Parts of an envelope (RFC 5228, 5.4).
    EnvelopeParts,
    /// The keys that values are compared with (RFC 5228, 2.7.1).
    Keys,
    /// A size in octets (RFC 5228, 5.9).
    Limit,
    /// A mailbox (RFC 5228, 4.1).
    Mailbox,
    /// An address (RFC 5228, 4.2).
    Address,
    /// Flags (RFC 5232, section 2).
    Flags,
    /// The variable that is set (RFC 5229, section 4).
    NameToSet,
    /// The variables that are read (RFC 5232, section 4).
    NamesToRead,
    /// The variables that are declared global, without a dot (RFC 6609, 3.4.1).
    NamesToDeclare,
    /// A script (RFC 6609, 3.2).
    ScriptName,
    /// A relation of a value to a key (RFC 5231, section 4).
    Relation,
    /// An argument of a tag of `duplicate` (RFC 7352, section 3). It says by which text a server
    /// would know an earlier message, or for how long.
    Tracking,
    /// The number of days for which a sender isn't answered again (RFC 5230, 4.1).
    Days,
    /// The subject of an answer (RFC 5230, 4.3).
    Subject,
    /// The address that an answer is from (RFC 5230, 4.3).
    Sender,
    /// Further addresses of the user (RFC 5230, 4.5).
    OwnAddresses,
    /// The text by which a server would know an answer that it sent before (RFC 5230, 4.2).
    Handle,
    /// The zone in which a date is shown (RFC 5260, 4.1).
    Zone,
    /// A part of a date (RFC 5260, 4.2).
    DatePart,
    /// Types of contents (RFC 5173, 5.2).
    ContentTypes,
    /// Any other text.
    Text,
}

/// An argument that a command, a test or a tag takes.
#[derive(Clone, Copy)]
pub struct Slot {
    pub form: Form,
    pub role: Role,
    /// The capability that has to be required where the argument is given (RFC 5228, 2.10.5).
    pub needs: Option<Capability>,
}

/// The kinds of tags. A command or a test has at most one tag of each kind.
#[derive(Clone, Copy, PartialEq, Eq)]
pub enum TagKind {
    /// The comparator (RFC 5228, 2.7.3).
    Comparator,
    /// The match types (RFC 5228, 2.7.1).
    MatchType,
    /// The parts of an address (RFC 5228, 2.7.4; RFC 5233, section 4).
    AddressPart,
    /// `:over` and `:under` (RFC 5228, 5.9).
    Bound,
    /// `:flags` (RFC 5232, section 5).
    Flags,
    /// `:personal` and `:global` (RFC 6609, 3.2).
    Location,
    /// `:once` (RFC 6609, 3.2).
    Once,
    /// `:optional` (RFC 6609, 3.2).
    Optional,
    /// The modifiers of precedence 40 (RFC 5229, 4.1).
    Case,
    /// The modifiers of precedence 30 (RFC 5229, 4.1).
    FirstLetter,
    /// The modifier of precedence 20 (RFC 5229, 4.1).
    QuoteWildcard,
    /// The modifier of precedence 10 (RFC 5229, 4.1).
    Length,
    /// `:copy` (RFC 3894, section 3).
    Copy,
    /// `:create` (RFC 5490, 3.2).
    Create,
    /// `:specialuse` (RFC 8579, section 4).
    SpecialUse,
    /// `:handle` (RFC 7352, 3.2; RFC 5230, 4.2).
    Handle,
    /// `:header` and `:uniqueid` (RFC 7352, 3.1).
    UniqueId,
    /// `:seconds` (RFC 7352, 3.3).
    Seconds,
    /// `:last` (RFC 7352, 3.3).
    Last,
    /// `:days` (RFC 5230, 4.1).
    Days,
    /// `:subject` (RFC 5230, 4.3).
    Subject,
    /// `:from` (RFC 5230, 4.3).
    From,
    /// `:addresses` (RFC 5230, 4.5).
    Addresses,
    /// `:mime` (RFC 5230, 4.4).
    Mime,
    /// `:zone` and `:originalzone` (RFC 5260, 4.1).
    Zone,
    /// `:raw`, `:content` and `:text` (RFC 5173, section 5).
    BodyTransform,
}

/// The row of a tag: its identifier, its kind, the argument that it takes and the capability
/// that it needs.
#[derive(Clone, Copy)]
pub struct TagRow {
    /// The tag's identifier without the colon, in lower case.
    pub name: &'static [u8],
    pub kind: TagKind,
    /// The argument that the tag takes itself, directly after it.
    pub takes: Option<Slot>,
    /// The capability that has to be required where the tag is given (RFC 5228, 2.10.5).
    pub needs: Option<Capability>,
}

/// The tests that a command or a test takes (RFC 5228, 2.5 and 2.5.1).
#[derive(Clone, Copy)]
pub enum Inner {
    None,
    /// One, without parentheses.
    One,
    /// A list in parentheses.
    List,
}

/// The row of a command or a test: what it takes and needs (RFC 5228, 2.6).
#[derive(Clone, Copy)]
pub struct Row {
    /// The identifier of the command or the test, in lower case.
    pub name: &'static [u8],
    /// The tags, which may stand in any order.
    pub tags: &'static [Tag],
    /// The kind of which exactly one tag has to be given, if there is such a kind.
    pub one_of: Option<TagKind>,
    /// A positional argument that may stand before the others.
    pub front: Option<Slot>,
    /// The positional arguments in order.
    pub slots: &'static [Slot],
    pub tests: Inner,
    /// Whether the command ends by a block, and not by a semicolon.
    pub has_block: bool,
    /// The capabilities that have to be required for the command or the test (RFC 5228, 2.10.5).
    pub needs: &'static [Capability],
}

/// The row of a command or a test that takes nothing. It has no name yet.
pub(crate) const BARE: Row = Row {
    name: b"",
    tags: &[],
    one_of: None,
    front: None,
    slots: &[],
    tests: Inner::None,
    has_block: false,
    needs: &[],
};

/// An argument that is a list of flags (RFC 5232, section 2).
pub(crate) const FLAGS: Slot = Slot {
    form: Form::List,
    role: Role::Flags,
    needs: None,
};

/// Whether two kinds of tags are the same.
pub fn same_kind(a: TagKind, b: TagKind) -> bool
    ensures { result ≡ same_kind a b }
{
    a == b
}
