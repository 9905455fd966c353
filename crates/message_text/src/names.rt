//! Fields by their names, which ignore the case of ASCII (RFC 5228, 2.4.2.2).
ghost use Rattle.std.specs.Prelude.{◌≡◌, ◌^◌, ◌-◌, ◌≤◌, ◌<◌, ℕ, IfNone, IfSome, length, map, slice_get, Some, false};
ghost use Rattle.message_text.specs.Fields.{IsNextNamed, field_of, fields_of, is_field_named};
ghost use Rattle.message_text.specs.view.NameHash.{name_hash};
ghost use Rattle.message_text.specs.view.Spans.{AreSpans, IsSpan, group_at};

use crate::fields::{FieldSpan, span_in};
use match_text::{AsciiCasemap, Comparator, is};
use std::marker::Model;

/// The hash of a name of fields. Names that differ in the case of ASCII alone have one hash (RFC
/// 5228, 2.4.2.2).
pub fn name_hash(name: &[u8]) -> u32
    ensures { result ≡ name_hash name.now }
{
    let mut hash: u32 = 0;
    for octet in name {
        hash = hash
            .wrapping_mul(31)
            .wrapping_add(u32::from(AsciiCasemap::fold(*octet)));
    }
    hash
}

/// A name of fields to look for. It is any octets. Those that can't name a field find none.
///
/// A name is prepared once. Its hash then rules out most other names without their octets.
#[derive(Clone, Drop)]
pub struct FieldName<'a> {
    octets: &'a [u8],
    hash: u32,
}

impl<'a> Model for FieldName<'a> {
    ghost use Rattle.std.specs.Prelude.{◌≡◌, List, ℕ};
    ghost use Rattle.message_text.specs.view.NameHash.{name_hash};

    ghost Value = { List ℕ };

    ghost view = { λ n. n.octets.now };

    ghost invariant = { λ n. n.hash ≡ name_hash n.octets.now };
}

impl<'a> FieldName<'a> {
    /// The name of these octets.
    pub fn new(octets: &'a [u8]) -> FieldName<'a>
        ensures { result ≡ octets.now }
    {
        FieldName {
            octets,
            hash: name_hash(octets),
        }
    }

    /// The name of these octets, whose hash is known already, as `name_hash` gives it.
    pub fn with_hash(octets: &'a [u8], hash: u32) -> FieldName<'a>
        requires { hash ≡ name_hash octets.now }
        ensures { result ≡ octets.now }
    {
        FieldName { octets, hash }
    }

    /// The octets of the name.
    pub fn octets(&self) -> &'a [u8]
        ensures { result.now ≡ self.now }
    {
        self.octets
    }
}

/// Whether the field has that name. If the hashes or the lengths differ, so do the names.
pub(crate) fn is_named(octets: &[u8], span: FieldSpan, name: &FieldName<'_>) -> bool
    requires { IsSpan octets.now span }
    ensures { result ≡ is_field_named name.now (field_of (group_at octets.now span)) }
{
    span.name_hash == name.hash
        && is::<AsciiCasemap>(&octets[span.start..span.name_end], name.octets)
}

/// The place of the first field of that name at or after `start`.
pub(crate) fn next_named(
    octets: &[u8],
    spans: &[FieldSpan],
    name: &FieldName<'_>,
    start: usize,
) -> Option<usize>
    requires { AreSpans octets.now spans.now }
    ensures some { IfSome result (IsNextNamed (fields_of octets.now) name.now start) }
    ensures none { IfNone result ((k : ℕ) → start ≤ k → k < length (fields_of octets.now)
        → slice_get (map (is_field_named name.now) (fields_of octets.now)) k ≡ Some false) }
    ensures countable { IfSome result (λ i. i < 2 ^ 64 - 1) }
{
    for i in start..spans.len() {
        if is_named(octets, span_in(octets, spans, i), name) {
            return Some(i);
        }
    }
    None
}
