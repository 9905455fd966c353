//! The commands, tests, tags and capabilities that a bench of a profile knows. One that needs an
//! unknown capability is treated as absent.
ghost use Rattle.std.specs.Prelude.{◌≡◌};
ghost use Rattle.sieve_profile.specs.view.Profile.{profile_as};
ghost use Rattle.sieve_table.specs.Known as spec;
ghost use Rattle.std.specs.Option.{option_and_then};
ghost use Rattle.sieve_table.specs.Table.{command_row, test_row};
ghost use Rattle.sieve_table.specs.view.Row.{row_as};

use crate::capability::{CAPABILITIES, Capability, is_name_of};
use crate::row::Row;
use crate::table::{CommandKind, TestKind};
use crate::tag::Tag;
use sieve_profile::{Extension, Profile};

/// The extension name that a profile needs for a capability to be known. A capability without one
/// is always known.
fn extension_of(capability: Capability) -> Option<Extension>
    ensures { result ≡ spec.extension_of capability }
{
    match capability {
        Capability::Subaddress => Some(Extension::Subaddress),
        Capability::Mailbox => Some(Extension::Mailbox),
        Capability::SpecialUse => Some(Extension::SpecialUse),
        Capability::Duplicate => Some(Extension::Duplicate),
        Capability::Relational => Some(Extension::Relational),
        Capability::EncodedCharacter => Some(Extension::EncodedCharacter),
        Capability::Vacation => Some(Extension::Vacation),
        Capability::Reject => Some(Extension::Reject),
        Capability::Ereject => Some(Extension::Ereject),
        Capability::Date => Some(Extension::Date),
        Capability::Body => Some(Extension::Body),
        Capability::NumericComparator => Some(Extension::AsciiNumeric),
        Capability::Fileinto
        | Capability::Envelope
        | Capability::Variables
        | Capability::Imap4flags
        | Capability::Include
        | Capability::Copy
        | Capability::OctetComparator
        | Capability::CasemapComparator => None,
    }
}

/// Whether the profile knows a capability: it has the capability's extension name, or
/// there is none.
pub fn is_known(profile: Profile, capability: Capability) -> bool
    ensures { result ≡ spec.is_known (profile_as profile) capability }
{
    match extension_of(capability) {
        Some(name) => profile.has(name),
        None => true,
    }
}

/// Whether a string names a capability that the profile knows.
fn names_known(profile: Profile, name: &[u8]) -> bool
    ensures { result ≡ spec.names_known (profile_as profile) name.now }
{
    CAPABILITIES.iter().any(|capability| is_name_of(name, *capability)
        && is_known(profile, *capability))
}

/// Whether a string names `encoded-character`, whose use no word of a script shows
/// (RFC 5228, 2.4.2.4).
fn is_shown_by_no_word(name: &[u8]) -> bool
    ensures { result ≡ spec.is_shown_by_no_word name.now }
{
    is_name_of(name, Capability::EncodedCharacter)
}

/// Whether a `require` may name this string (RFC 5228, 3.2). It may name a capability that the
/// profile knows. With `unused` it may name any other string too, but not `encoded-character`.
pub fn may_be_required(profile: Profile, name: &[u8]) -> bool
    ensures { result ≡ spec.may_be_required (profile_as profile) name.now }
{
    names_known(profile, name) || (profile.has(Extension::Unused) && !is_shown_by_no_word(name))
}

/// Whether the profile knows each capability that a row needs.
fn is_known_row(profile: Profile, row: &Row) -> bool
    ensures { result ≡ spec.is_known_row (profile_as profile) (row_as row.now) }
{
    row.needs
        .iter()
        .all(|capability| is_known(profile, *capability))
}

/// Whether the profile knows the capability that a tag needs, if any.
fn is_known_tag(profile: Profile, tag: Tag) -> bool
    ensures { result ≡ spec.is_known_tag (profile_as profile) tag }
{
    match tag.row().needs {
        Some(capability) => is_known(profile, capability),
        None => true,
    }
}

/// The tag, or `None` if it needs a capability that the profile doesn't know.
pub fn known_tag(profile: Profile, tag: Option<Tag>) -> Option<Tag>
    ensures { result ≡ spec.known_tag (profile_as profile) tag }
{
    match tag {
        Some(tag) if is_known_tag(profile, tag) => Some(tag),
        _ => None,
    }
}

/// The command, or `None` if its row needs a capability that the profile doesn't know.
pub fn known_command(profile: Profile, kind: Option<CommandKind>) -> Option<CommandKind>
    ensures { result ≡ option_and_then
        (spec.only_if (λ kind. spec.is_known_row (profile_as profile) (command_row kind))) kind }
{
    match kind {
        Some(kind) if is_known_row(profile, &kind.row()) => Some(kind),
        _ => None,
    }
}

/// The test, or `None` if its row needs a capability that the profile doesn't know.
pub fn known_test(profile: Profile, kind: Option<TestKind>) -> Option<TestKind>
    ensures { result ≡ option_and_then
        (spec.only_if (λ kind. spec.is_known_row (profile_as profile) (test_row kind))) kind }
{
    match kind {
        Some(kind) if is_known_row(profile, &kind.row()) => Some(kind),
        _ => None,
    }
}
