//! The capabilities that a script can require.
ghost use Rattle.std.specs.Prelude.{◌≡◌};
ghost use Rattle.sieve_table.specs.Capability.{capability_name, capability_named, is_always_there, is_name_of};

/// A capability that a command, a test, a tag or an argument may need (RFC 5228, 2.10.5).
#[derive(Clone, Copy, PartialEq, Eq)]
pub enum Capability {
    /// `fileinto` (RFC 5228, 4.1).
    Fileinto,
    /// `envelope` (RFC 5228, 5.4).
    Envelope,
    /// `variables` (RFC 5229, section 2).
    Variables,
    /// `imap4flags`: flags (RFC 5232, section 1).
    Imap4flags,
    /// `include`: included scripts (RFC 6609, 3.1).
    Include,
    /// `copy`: the tag `:copy` (RFC 3894, section 2).
    Copy,
    /// `subaddress`: the two parts of a local part (RFC 5233, section 3).
    Subaddress,
    /// `mailbox`: mailboxes that are made or asked for (RFC 5490, section 3).
    Mailbox,
    /// `special-use`: mailboxes by their use (RFC 8579, section 5).
    SpecialUse,
    /// `duplicate`: messages that came before (RFC 7352, section 4).
    Duplicate,
    /// `relational`: relations of values, and their number (RFC 5231, section 2).
    Relational,
    /// `encoded-character`: characters by their numbers (RFC 5228, 2.4.2.4).
    EncodedCharacter,
    /// `vacation`: answers to the sender (RFC 5230, section 3).
    Vacation,
    /// `reject`: refusals with a reason (RFC 5429, 2.2).
    Reject,
    /// `ereject`: refusals with a reason, as early as possible (RFC 5429, 2.1).
    Ereject,
    /// `date`: dates of fields, and the current one (RFC 5260, section 3).
    Date,
    /// `body`: the body of a message (RFC 5173, section 3).
    Body,
    /// The comparator `i;octet` (RFC 5228, 2.7.3).
    OctetComparator,
    /// The comparator `i;ascii-casemap` (RFC 5228, 2.7.3).
    CasemapComparator,
    /// The comparator `i;ascii-numeric` (RFC 4790, 9.1).
    NumericComparator,
}

/// All capabilities, in the order of `Capability`.
pub(crate) const CAPABILITIES: [Capability; 20] = [
    Capability::Fileinto,
    Capability::Envelope,
    Capability::Variables,
    Capability::Imap4flags,
    Capability::Include,
    Capability::Copy,
    Capability::Subaddress,
    Capability::Mailbox,
    Capability::SpecialUse,
    Capability::Duplicate,
    Capability::Relational,
    Capability::EncodedCharacter,
    Capability::Vacation,
    Capability::Reject,
    Capability::Ereject,
    Capability::Date,
    Capability::Body,
    Capability::OctetComparator,
    Capability::CasemapComparator,
    Capability::NumericComparator,
];

impl Capability {
    /// The string that names the capability in a `require` (RFC 5228, 3.2).
    fn name(self) -> &'static [u8]
        ensures { result.now ≡ capability_name self }
    {
        match self {
            Capability::Fileinto => b"fileinto",
            Capability::Envelope => b"envelope",
            Capability::Variables => b"variables",
            Capability::Imap4flags => b"imap4flags",
            Capability::Include => b"include",
            Capability::Copy => b"copy",
            Capability::Subaddress => b"subaddress",
            Capability::Mailbox => b"mailbox",
            Capability::SpecialUse => b"special-use",
            Capability::Duplicate => b"duplicate",
            Capability::Relational => b"relational",
            Capability::EncodedCharacter => b"encoded-character",
            Capability::Vacation => b"vacation",
            Capability::Reject => b"reject",
            Capability::Ereject => b"ereject",
            Capability::Date => b"date",
            Capability::Body => b"body",
            Capability::OctetComparator => b"comparator-i;octet",
            Capability::CasemapComparator => b"comparator-i;ascii-casemap",
            Capability::NumericComparator => b"comparator-i;ascii-numeric",
        }
    }

    /// Whether the capability is a comparator that need not be required (RFC 5228, 2.7.3).
    pub(crate) fn is_always_there(self) -> bool
        ensures { result ≡ is_always_there self }
    {
        self == Capability::OctetComparator || self == Capability::CasemapComparator
    }
}

/// Whether a string names the capability, octet for octet.
pub(crate) fn is_name_of(name: &[u8], capability: Capability) -> bool
    ensures { result ≡ is_name_of name.now capability }
{
    capability.name() == name
}

/// The capability that a string names, octet for octet.
pub(crate) fn capability_named(name: &[u8]) -> Option<Capability>
    ensures { result ≡ capability_named name.now }
{
    CAPABILITIES
        .iter()
        .copied()
        .find(|capability| is_name_of(name, *capability))
}
