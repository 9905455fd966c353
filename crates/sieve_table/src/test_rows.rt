//! The rows of the table for tests. Each has a function of its own, since a large one is
//! slow to prove.
ghost use Rattle.std.specs.Prelude.{◌≡◌};
ghost use Rattle.sieve_table.specs.Table.{test_row};
ghost use Rattle.sieve_table.specs.declared.table.TestKind.TheVariants as test;
ghost use Rattle.sieve_table.specs.view.Row.{row_as};

use crate::capability::Capability;
use crate::row::{BARE, Form, Inner, Role, Row, Slot, TagKind};
use crate::tag::Tag;

/// The tags that say how values are compared with keys (RFC 5228, 2.7; RFC 5231, section 4).
const COMPARING_TAGS: [Tag; 6] = [
    Tag::Comparator,
    Tag::Is,
    Tag::Contains,
    Tag::Matches,
    Tag::Value,
    Tag::Count,
];

/// The tags that name a part of an address (RFC 5228, 2.7.4; RFC 5233, section 4), and
/// those of `COMPARING_TAGS`.
const ADDRESS_TAGS: [Tag; 11] = [
    Tag::All,
    Tag::LocalPart,
    Tag::Domain,
    Tag::User,
    Tag::Detail,
    Tag::Comparator,
    Tag::Is,
    Tag::Contains,
    Tag::Matches,
    Tag::Value,
    Tag::Count,
];

/// The tags that name a zone (RFC 5260, 4.1), and those of `COMPARING_TAGS`.
const DATE_TAGS: [Tag; 8] = [
    Tag::Zone,
    Tag::OriginalZone,
    Tag::Comparator,
    Tag::Is,
    Tag::Contains,
    Tag::Matches,
    Tag::Value,
    Tag::Count,
];

/// The tags of `DATE_TAGS` without `:originalzone`, since `currentdate` looks at no field
/// (RFC 5260, section 5).
const CLOCK_TAGS: [Tag; 7] = [
    Tag::Zone,
    Tag::Comparator,
    Tag::Is,
    Tag::Contains,
    Tag::Matches,
    Tag::Value,
    Tag::Count,
];

/// The tags that say which part of a body is looked at (RFC 5173, section 5), and
/// those of `COMPARING_TAGS`.
const BODY_TAGS: [Tag; 9] = [
    Tag::Raw,
    Tag::Content,
    Tag::Text,
    Tag::Comparator,
    Tag::Is,
    Tag::Contains,
    Tag::Matches,
    Tag::Value,
    Tag::Count,
];

/// An argument that lists names of header fields.
const FIELD_NAMES: Slot = Slot {
    form: Form::List,
    role: Role::FieldNames,
    needs: None,
};

/// An argument that lists keys.
const KEYS: Slot = Slot {
    form: Form::List,
    role: Role::Keys,
    needs: None,
};

/// `header` (RFC 5228, 5.7).
pub(crate) fn header_row() -> Row
    ensures { row_as result ≡ test_row test.Header }
{
    Row {
        name: b"header",
        tags: &COMPARING_TAGS,
        slots: &[FIELD_NAMES, KEYS],
        ..BARE
    }
}

/// `address` (RFC 5228, 5.1).
pub(crate) fn address_row() -> Row
    ensures { row_as result ≡ test_row test.Address }
{
    Row {
        name: b"address",
        tags: &ADDRESS_TAGS,
        slots: &[
            Slot {
                form: Form::List,
                role: Role::AddressFields,
                needs: None,
            },
            KEYS,
        ],
        ..BARE
    }
}

/// `envelope` (RFC 5228, 5.4).
pub(crate) fn envelope_row() -> Row
    ensures { row_as result ≡ test_row test.Envelope }
{
    Row {
        name: b"envelope",
        tags: &ADDRESS_TAGS,
        slots: &[
            Slot {
                form: Form::List,
                role: Role::EnvelopeParts,
                needs: None,
            },
            KEYS,
        ],
        needs: &[Capability::Envelope],
        ..BARE
    }
}

/// `exists` (RFC 5228, 5.5).
pub(crate) fn exists_row() -> Row
    ensures { row_as result ≡ test_row test.Exists }
{
    Row {
        name: b"exists",
        slots: &[FIELD_NAMES],
        ..BARE
    }
}

/// `size` (RFC 5228, 5.9).
pub(crate) fn size_row() -> Row
    ensures { row_as result ≡ test_row test.Size }
{
    Row {
        name: b"size",
        tags: &[Tag::Over, Tag::Under],
        one_of: Some(TagKind::Bound),
        slots: &[Slot {
            form: Form::Number,
            role: Role::Limit,
            needs: None,
        }],
        ..BARE
    }
}

/// `allof` (RFC 5228, 5.2).
pub(crate) fn all_of_row() -> Row
    ensures { row_as result ≡ test_row test.AllOf }
{
    Row {
        name: b"allof",
        tests: Inner::List,
        ..BARE
    }
}

/// `anyof` (RFC 5228, 5.3).
pub(crate) fn any_of_row() -> Row
    ensures { row_as result ≡ test_row test.AnyOf }
{
    Row {
        name: b"anyof",
        tests: Inner::List,
        ..BARE
    }
}

/// `not` (RFC 5228, 5.8).
pub(crate) fn not_row() -> Row
    ensures { row_as result ≡ test_row test.Not }
{
    Row {
        name: b"not",
        tests: Inner::One,
        ..BARE
    }
}

/// `true` (RFC 5228, 5.10).
pub(crate) fn true_row() -> Row
    ensures { row_as result ≡ test_row test.True }
{
    Row {
        name: b"true",
        ..BARE
    }
}

/// `false` (RFC 5228, 5.6).
pub(crate) fn false_row() -> Row
    ensures { row_as result ≡ test_row test.False }
{
    Row {
        name: b"false",
        ..BARE
    }
}

/// `string` (RFC 5229, section 5).
pub(crate) fn string_row() -> Row
    ensures { row_as result ≡ test_row test.String }
{
    Row {
        name: b"string",
        tags: &COMPARING_TAGS,
        slots: &[
            Slot {
                form: Form::List,
                role: Role::Text,
                needs: None,
            },
            KEYS,
        ],
        needs: &[Capability::Variables],
        ..BARE
    }
}

/// `hasflag` (RFC 5232, section 4).
pub(crate) fn has_flag_row() -> Row
    ensures { row_as result ≡ test_row test.HasFlag }
{
    Row {
        name: b"hasflag",
        tags: &COMPARING_TAGS,
        front: Some(Slot {
            form: Form::List,
            role: Role::NamesToRead,
            needs: Some(Capability::Variables),
        }),
        slots: &[KEYS],
        needs: &[Capability::Imap4flags],
        ..BARE
    }
}

/// `mailboxexists` (RFC 5490, 3.1).
pub(crate) fn mailbox_exists_row() -> Row
    ensures { row_as result ≡ test_row test.MailboxExists }
{
    Row {
        name: b"mailboxexists",
        slots: &[Slot {
            form: Form::List,
            role: Role::Mailbox,
            needs: None,
        }],
        needs: &[Capability::Mailbox],
        ..BARE
    }
}

/// `duplicate` (RFC 7352, section 3).
pub(crate) fn duplicate_row() -> Row
    ensures { row_as result ≡ test_row test.Duplicate }
{
    Row {
        name: b"duplicate",
        tags: &[
            Tag::Handle,
            Tag::Header,
            Tag::UniqueId,
            Tag::Seconds,
            Tag::Last,
        ],
        needs: &[Capability::Duplicate],
        ..BARE
    }
}

/// An argument that names a part of a date (RFC 5260, 4.2).
const DATE_PART: Slot = Slot {
    form: Form::One,
    role: Role::DatePart,
    needs: None,
};

/// `date` (RFC 5260, section 4).
pub(crate) fn date_row() -> Row
    ensures { row_as result ≡ test_row test.Date }
{
    Row {
        name: b"date",
        tags: &DATE_TAGS,
        slots: &[
            Slot {
                form: Form::One,
                role: Role::FieldNames,
                needs: None,
            },
            DATE_PART,
            KEYS,
        ],
        needs: &[Capability::Date],
        ..BARE
    }
}

/// `currentdate` (RFC 5260, section 5).
pub(crate) fn current_date_row() -> Row
    ensures { row_as result ≡ test_row test.CurrentDate }
{
    Row {
        name: b"currentdate",
        tags: &CLOCK_TAGS,
        slots: &[DATE_PART, KEYS],
        needs: &[Capability::Date],
        ..BARE
    }
}

/// `body` (RFC 5173, section 4).
pub(crate) fn body_row() -> Row
    ensures { row_as result ≡ test_row test.Body }
{
    Row {
        name: b"body",
        tags: &BODY_TAGS,
        slots: &[KEYS],
        needs: &[Capability::Body],
        ..BARE
    }
}
