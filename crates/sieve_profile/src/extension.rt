//! The extensions that may be asked for, and their names.
ghost use Rattle.std.specs.Prelude.{◌≡◌};
ghost use Rattle.sieve_profile.specs.Extension.{asks_for, extension_name, extension_named, extensions, is_name_of, is_of_pigeonhole};

/// An extension, which a bench knows where it is asked for by its name.
#[derive(Clone, Copy, Debug, PartialEq, Eq)]
pub enum Extension {
    /// `body`: tests of the body of a message (RFC 5173).
    Body,
    /// `charsets`: encoded words and bodies in further charsets are decoded.
    Charsets,
    /// `comparator-i;ascii-numeric`: texts are compared as numbers (RFC 4790, 9.1).
    AsciiNumeric,
    /// `date`: the date of a field, and the current date (RFC 5260).
    Date,
    /// `duplicate`: whether the message came before (RFC 7352).
    Duplicate,
    /// `encoded-character`: characters that strings write by their numbers (RFC 5228, 2.4.2.4).
    EncodedCharacter,
    /// `envelopes`: a message may have addresses of its own.
    Envelopes,
    /// `ereject`: the message is refused with a reason, as early as can be (RFC 5429).
    Ereject,
    /// `lines`: which line of which script entered an action.
    Lines,
    /// `mailbox`: a missing mailbox is made, and a test says which mailboxes exist (RFC 5490).
    Mailbox,
    /// `reject`: the message is refused with a reason (RFC 5429).
    Reject,
    /// `relational`: which of a value and a key is greater, and the number of values (RFC 5231).
    Relational,
    /// `special-use`: a mailbox by its use (RFC 8579).
    SpecialUse,
    /// `subaddress`: the parts of a local part at its first `+` (RFC 5233).
    Subaddress,
    /// `unused`: a capability that isn't known may be required.
    Unused,
    /// `vacation`: an answer to the sender (RFC 5230).
    Vacation,
}

/// All extensions, in the order of their names.
pub const EXTENSIONS: [Extension; 16] = [
    Extension::Body,
    Extension::Charsets,
    Extension::AsciiNumeric,
    Extension::Date,
    Extension::Duplicate,
    Extension::EncodedCharacter,
    Extension::Envelopes,
    Extension::Ereject,
    Extension::Lines,
    Extension::Mailbox,
    Extension::Reject,
    Extension::Relational,
    Extension::SpecialUse,
    Extension::Subaddress,
    Extension::Unused,
    Extension::Vacation,
];

/// Whether octets are the extension's name, octet for octet.
fn is_name_of(name: &[u8], extension: Extension) -> bool
    ensures { result ≡ is_name_of name.now extension }
{
    extension.name() == name
}

/// The name of the set of all extensions.
pub const ALL: &[u8] = b"all";

/// The name of the set of extensions that Pigeonhole 0.5.19 knows by default.
pub const PIGEONHOLE: &[u8] = b"pigeonhole";

/// Whether a name asks for an extension: its own name, or that of a set that it is in.
pub(crate) fn asks_for(name: &[u8], extension: Extension) -> bool
    ensures { result ≡ asks_for name.now extension }
{
    is_name_of(name, extension)
        || name == ALL
        || (extension.is_of_pigeonhole() && name == PIGEONHOLE)
}

impl Extension {
    /// The name by which the extension is asked for.
    pub fn name(self) -> &'static [u8]
        ensures { result.now ≡ extension_name self }
    {
        match self {
            Extension::Body => b"body",
            Extension::Charsets => b"charsets",
            Extension::AsciiNumeric => b"comparator-i;ascii-numeric",
            Extension::Date => b"date",
            Extension::Duplicate => b"duplicate",
            Extension::EncodedCharacter => b"encoded-character",
            Extension::Envelopes => b"envelopes",
            Extension::Ereject => b"ereject",
            Extension::Lines => b"lines",
            Extension::Mailbox => b"mailbox",
            Extension::Reject => b"reject",
            Extension::Relational => b"relational",
            Extension::SpecialUse => b"special-use",
            Extension::Subaddress => b"subaddress",
            Extension::Unused => b"unused",
            Extension::Vacation => b"vacation",
        }
    }

    /// Whether Pigeonhole 0.5.19 knows the extension by default.
    fn is_of_pigeonhole(self) -> bool
        ensures { result ≡ is_of_pigeonhole self }
    {
        match self {
            Extension::Envelopes
            | Extension::Ereject
            | Extension::Lines
            | Extension::SpecialUse
            | Extension::Unused => false,
            Extension::Body
            | Extension::Charsets
            | Extension::AsciiNumeric
            | Extension::Date
            | Extension::Duplicate
            | Extension::EncodedCharacter
            | Extension::Mailbox
            | Extension::Reject
            | Extension::Relational
            | Extension::Subaddress
            | Extension::Vacation => true,
        }
    }

    /// The extension of a name, octet for octet; none for another name.
    pub fn named(name: &[u8]) -> Option<Extension>
        ensures { result ≡ extension_named name.now }
    {
        EXTENSIONS
            .iter()
            .copied()
            .find(|extension| is_name_of(name, *extension))
    }
}
