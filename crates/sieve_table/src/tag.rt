//! The table: a row for each tag.
ghost use Rattle.std.specs.Prelude.{◌≡◌};
ghost use Rattle.sieve_table.specs.Table.{response_tag, bare_tag, is_named, needing_tag, relation_tag, same_tag, slot, tag_named, tag_row, taking_tag, tracking_tag};
ghost use Rattle.sieve_table.specs.view.Row.{tag_row_as};

use crate::capability::Capability;
use crate::row::{Form, Role, Slot, TagKind, TagRow};

/// A tag of the table, whether or not a profile knows it.
#[derive(Clone, Copy, PartialEq, Eq)]
pub enum Tag {
    /// `:comparator`, which takes the string after it (RFC 5228, 2.7.3).
    Comparator,
    /// `:is` (RFC 5228, 2.7.1).
    Is,
    /// `:contains` (RFC 5228, 2.7.1).
    Contains,
    /// `:matches` (RFC 5228, 2.7.1).
    Matches,
    /// `:value`, which takes the string after it (RFC 5231, 4.1).
    Value,
    /// `:count`, which takes the string after it (RFC 5231, 4.2).
    Count,
    /// `:all` (RFC 5228, 2.7.4).
    All,
    /// `:localpart` (RFC 5228, 2.7.4).
    LocalPart,
    /// `:domain` (RFC 5228, 2.7.4).
    Domain,
    /// `:user` (RFC 5233, section 4).
    User,
    /// `:detail` (RFC 5233, section 4).
    Detail,
    /// `:over` (RFC 5228, 5.9).
    Over,
    /// `:under` (RFC 5228, 5.9).
    Under,
    /// `:lower` (RFC 5229, 4.1.3).
    Lower,
    /// `:upper` (RFC 5229, 4.1.3).
    Upper,
    /// `:lowerfirst` (RFC 5229, 4.1.3).
    LowerFirst,
    /// `:upperfirst` (RFC 5229, 4.1.3).
    UpperFirst,
    /// `:quotewildcard` (RFC 5229, 4.1.2).
    QuoteWildcard,
    /// `:length` (RFC 5229, 4.1.1).
    Length,
    /// `:flags`, which takes the list after it (RFC 5232, section 5).
    Flags,
    /// `:personal` (RFC 6609, 3.2).
    Personal,
    /// `:global` (RFC 6609, 3.2).
    Global,
    /// `:once` (RFC 6609, 3.2).
    Once,
    /// `:optional` (RFC 6609, 3.2).
    Optional,
    /// `:copy` (RFC 3894, section 3).
    Copy,
    /// `:create` (RFC 5490, 3.2).
    Create,
    /// `:specialuse`, which takes the string after it (RFC 8579, section 4).
    SpecialUse,
    /// `:handle` of `duplicate`, which takes the string after it (RFC 7352, 3.2).
    Handle,
    /// `:header`, which takes the string after it (RFC 7352, 3.1).
    Header,
    /// `:uniqueid`, which takes the string after it (RFC 7352, 3.1).
    UniqueId,
    /// `:seconds`, which takes the number after it (RFC 7352, 3.3).
    Seconds,
    /// `:last` (RFC 7352, 3.3).
    Last,
    /// `:days`, which takes the number after it (RFC 5230, 4.1).
    Days,
    /// `:subject`, which takes the string after it (RFC 5230, 4.3).
    Subject,
    /// `:from`, which takes the string after it (RFC 5230, 4.3).
    From,
    /// `:addresses`, which takes the list after it (RFC 5230, 4.5).
    Addresses,
    /// `:mime` (RFC 5230, 4.4).
    Mime,
    /// `:handle` of `vacation`, which takes the string after it (RFC 5230, 4.2).
    ResponseHandle,
    /// `:zone`, which takes the string after it (RFC 5260, 4.1).
    Zone,
    /// `:originalzone` (RFC 5260, 4.1).
    OriginalZone,
    /// `:raw` (RFC 5173, 5.1).
    Raw,
    /// `:content`, which takes the list after it (RFC 5173, 5.2).
    Content,
    /// `:text` (RFC 5173, 5.3).
    Text,
}

/// An argument of this form and role that needs no capability.
fn slot(form: Form, role: Role) -> Slot
    ensures { result ≡ slot form role }
{
    Slot {
        form,
        role,
        needs: None,
    }
}

/// The row of a tag that takes no argument and needs no capability.
fn bare_tag(name: &'static [u8], kind: TagKind) -> TagRow
    ensures { tag_row_as result ≡ bare_tag name.entry.now kind }
{
    TagRow {
        name,
        kind,
        takes: None,
        needs: None,
    }
}

/// The row of a tag that takes no argument and needs a capability.
fn needing_tag(name: &'static [u8], kind: TagKind, needs: Capability) -> TagRow
    ensures { tag_row_as result ≡ needing_tag name.entry.now kind needs }
{
    TagRow {
        name,
        kind,
        takes: None,
        needs: Some(needs),
    }
}

/// The row of a tag that takes an argument and needs a capability.
fn taking_tag(name: &'static [u8], kind: TagKind, takes: Slot, needs: Capability) -> TagRow
    ensures { tag_row_as result ≡ taking_tag name.entry.now kind takes needs }
{
    TagRow {
        name,
        kind,
        takes: Some(takes),
        needs: Some(needs),
    }
}

/// The row of a match type that takes a relation (RFC 5231, section 4).
fn relation_tag(name: &'static [u8]) -> TagRow
    ensures { tag_row_as result ≡ relation_tag name.entry.now }
{
    taking_tag(
        name,
        TagKind::MatchType,
        slot(Form::One, Role::Relation),
        Capability::Relational,
    )
}

/// The row of a tag of `duplicate` that takes an argument (RFC 7352, section 3).
fn tracking_tag(name: &'static [u8], kind: TagKind, form: Form) -> TagRow
    ensures { tag_row_as result ≡ tracking_tag name.entry.now kind form }
{
    taking_tag(
        name,
        kind,
        slot(form, Role::Tracking),
        Capability::Duplicate,
    )
}

/// The row of a tag of `vacation` that takes an argument (RFC 5230, section 4).
fn response_tag(name: &'static [u8], kind: TagKind, form: Form, role: Role) -> TagRow
    ensures { tag_row_as result ≡ response_tag name.entry.now kind form role }
{
    taking_tag(name, kind, slot(form, role), Capability::Vacation)
}

impl Tag {
    /// The tag's row: its identifier, its kind, the argument that it takes and the capability
    /// that it needs.
    pub fn row(self) -> TagRow
        ensures { tag_row_as result ≡ tag_row self }
    {
        match self {
            Tag::Comparator => TagRow {
                takes: Some(slot(Form::One, Role::ComparatorName)),
                ..bare_tag(b"comparator", TagKind::Comparator)
            },
            Tag::Is => bare_tag(b"is", TagKind::MatchType),
            Tag::Contains => bare_tag(b"contains", TagKind::MatchType),
            Tag::Matches => bare_tag(b"matches", TagKind::MatchType),
            Tag::Value => relation_tag(b"value"),
            Tag::Count => relation_tag(b"count"),
            Tag::All => bare_tag(b"all", TagKind::AddressPart),
            Tag::LocalPart => bare_tag(b"localpart", TagKind::AddressPart),
            Tag::Domain => bare_tag(b"domain", TagKind::AddressPart),
            Tag::User => needing_tag(b"user", TagKind::AddressPart, Capability::Subaddress),
            Tag::Detail => needing_tag(b"detail", TagKind::AddressPart, Capability::Subaddress),
            Tag::Over => bare_tag(b"over", TagKind::Bound),
            Tag::Under => bare_tag(b"under", TagKind::Bound),
            Tag::Lower => bare_tag(b"lower", TagKind::Case),
            Tag::Upper => bare_tag(b"upper", TagKind::Case),
            Tag::LowerFirst => bare_tag(b"lowerfirst", TagKind::FirstLetter),
            Tag::UpperFirst => bare_tag(b"upperfirst", TagKind::FirstLetter),
            Tag::QuoteWildcard => bare_tag(b"quotewildcard", TagKind::QuoteWildcard),
            Tag::Length => bare_tag(b"length", TagKind::Length),
            Tag::Flags => taking_tag(
                b"flags",
                TagKind::Flags,
                slot(Form::List, Role::Flags),
                Capability::Imap4flags,
            ),
            Tag::Personal => bare_tag(b"personal", TagKind::Location),
            Tag::Global => bare_tag(b"global", TagKind::Location),
            Tag::Once => bare_tag(b"once", TagKind::Once),
            Tag::Optional => bare_tag(b"optional", TagKind::Optional),
            Tag::Copy => needing_tag(b"copy", TagKind::Copy, Capability::Copy),
            Tag::Create => needing_tag(b"create", TagKind::Create, Capability::Mailbox),
            Tag::SpecialUse => taking_tag(
                b"specialuse",
                TagKind::SpecialUse,
                slot(Form::One, Role::Text),
                Capability::SpecialUse,
            ),
            Tag::Handle => tracking_tag(b"handle", TagKind::Handle, Form::One),
            Tag::Header => tracking_tag(b"header", TagKind::UniqueId, Form::One),
            Tag::UniqueId => tracking_tag(b"uniqueid", TagKind::UniqueId, Form::One),
            Tag::Seconds => tracking_tag(b"seconds", TagKind::Seconds, Form::Number),
            Tag::Last => needing_tag(b"last", TagKind::Last, Capability::Duplicate),
            Tag::Days => response_tag(b"days", TagKind::Days, Form::Number, Role::Days),
            Tag::Subject => response_tag(b"subject", TagKind::Subject, Form::One, Role::Subject),
            Tag::From => response_tag(b"from", TagKind::From, Form::One, Role::Sender),
            Tag::Addresses => response_tag(
                b"addresses",
                TagKind::Addresses,
                Form::List,
                Role::OwnAddresses,
            ),
            Tag::Mime => needing_tag(b"mime", TagKind::Mime, Capability::Vacation),
            Tag::ResponseHandle => response_tag(
                b"handle",
                TagKind::Handle,
                Form::One,
                Role::Handle,
            ),
            Tag::Zone => taking_tag(
                b"zone",
                TagKind::Zone,
                slot(Form::One, Role::Zone),
                Capability::Date,
            ),
            Tag::OriginalZone => needing_tag(b"originalzone", TagKind::Zone, Capability::Date),
            Tag::Raw => needing_tag(b"raw", TagKind::BodyTransform, Capability::Body),
            Tag::Content => taking_tag(
                b"content",
                TagKind::BodyTransform,
                slot(Form::List, Role::ContentTypes),
                Capability::Body,
            ),
            Tag::Text => needing_tag(b"text", TagKind::BodyTransform, Capability::Body),
        }
    }
}

/// Whether `written` is this identifier. Identifiers ignore the case of ASCII (RFC 5228, 2.1).
pub(crate) fn is_named(name: &[u8], written: &[u8]) -> bool
    ensures { result ≡ is_named name.now written.now }
{
    name.eq_ignore_ascii_case(written)
}

/// The first of some tags with the identifier `written`, in any case of ASCII (RFC 5228, 2.1). It
/// is written without the colon.
pub fn tag_named(tags: &[Tag], written: &[u8]) -> Option<Tag>
    ensures { result ≡ tag_named tags.now written.now }
{
    tags.iter()
        .copied()
        .find(|tag| is_named(tag.row().name, written))
}

/// Whether two tags are the same. The `:handle` of `duplicate` and that of `vacation` are two tags.
pub fn same_tag(a: Tag, b: Tag) -> bool
    ensures { result ≡ same_tag a b }
{
    a == b
}
