//! How a test compares a value with keys (RFC 5228, 2.7.1).
ghost use Rattle.std.specs.Prelude.{◌≡◌, ◌<◌, ℕ, List, [], IfOk, IfSome, None, Some, false, is_some, length, map, slice_get, true, if◌then◌else◌};
ghost use Rattle.match_text.specs.Comparator.{ascii_casemap, is_part};
ghost use Rattle.flag_lists.specs.Flags.{flag_keys};
ghost use Rattle.match_text.specs.Order.{order_of};
ghost use Rattle.match_text.specs.Relation.{stands_in};
ghost use Rattle.match_text.specs.Room.{may_match};
ghost use Rattle.match_text.specs.Wildcard.{matched};
ghost use Rattle.sieve_conditions.specs.Matching.{match_of, with_found};
ghost use Rattle.sieve_conditions.specs.Matching.{first_match, pairs_with};
ghost use Rattle.sieve_conditions.specs.view.FieldTests.{found_with, key_found};
ghost use Rattle.sieve_delivery.specs.view.State.{state_of};
ghost use Rattle.sieve_variables.specs.Value.{text_value};

use flag_lists::next_key;
use match_text::laws::keys_need_octets;
use match_text::{
    AsciiCasemap, Captures, Collation, Comparator, KeyKind, Octet, Relation, Room, SearchedValue,
    contains, contains_in, equals, matches, stands,
};
use octets::Octets;
use packed_strings::Strings;
use sieve_delivery::RunState;
use sieve_script::{Comparison, MatchType, literal_in_parts};
use sieve_variables::{Part, Values};
use std::alloc::{AllocError, Global};
use std::marker::Model;

/// The texts that a match gives to `${0}`, `${1}` and so on (RFC 5229, 3.2). Under `:matches` they
/// are the value and the text that each wildcard took. Under the other match types there are none.
#[derive(Drop)]
pub(crate) struct MatchValues {
    texts: Vec<Octets>,
}

impl Model for MatchValues {
    ghost use Rattle.std.specs.Prelude.{ℕ, List};

    ghost Value = { List (List ℕ) };

    ghost view = { λ m. m.texts.items };
}

impl MatchValues {
    /// No match values, for a match that sets nothing.
    fn none(alloc: Global) -> MatchValues
        ensures { result ≡ [] }
    {
        MatchValues {
            texts: Vec::new(alloc),
        }
    }

    /// Copies of the value and of the texts that the wildcards took.
    fn copied(alloc: Global, captures: &Captures<'_>) -> Result<MatchValues, AllocError>
        ensures { IfOk result (λ values. values ≡ captures.now) }
    {
        let mut texts = Vec::new(alloc);
        texts.push(Octets::copied(alloc, captures.get(0))?)?;
        for k in 0..captures.count() {
            texts.push(Octets::copied(alloc, captures.get(k + 1))?)?;
        }
        Ok(MatchValues { texts })
    }
}

/// Keeps the match values that were found, if they set match variables (RFC 5229, 3.2). Returns
/// whether there is a match.
pub(crate) fn set_found(
    match_type: MatchType,
    found: Option<MatchValues>,
    state: &mut RunState,
) -> bool
    ensures truth { result ≡ is_some found }
    ensures kept { state_of state.new ≡ record
        (state_of state.old) { values = with_found match_type found (state_of state.old).values } }
{
    match (match_type, found) {
        (MatchType::Matches, Some(values)) => {
            state.values.set_matched(values.texts);
            true
        }
        (MatchType::Matches, None) => false,
        (MatchType::Is, found) => found.is_some(),
        (MatchType::Contains, found) => found.is_some(),
        (MatchType::Value(_), found) => found.is_some(),
        (MatchType::Count(_), found) => found.is_some(),
    }
}

/// A match that sets nothing, if there is one.
pub(crate) fn plain_match(alloc: Global, is_match: bool) -> Option<MatchValues>
    ensures { result ≡ if is_match then Some [] else None }
{
    if is_match {
        Some(MatchValues::none(alloc))
    } else {
        None
    }
}

/// A match that sets nothing, if the value stands in the relation to the key (RFC 5231, 4).
fn related_match(
    alloc: Global,
    relation: Relation,
    collation: Collation,
    value: &[u8],
    key: &[u8],
) -> Option<MatchValues>
    ensures { result ≡ if stands_in relation (order_of collation value.now key.now) then Some []
        else None }
{
    plain_match(alloc, stands(relation, collation, value, key))
}

/// The value and the texts that the wildcards of a pattern took, if the value matches it.
fn wildcard_match<C: Comparator>(
    alloc: Global,
    value: &[u8],
    pattern: &[u8],
) -> Result<Option<MatchValues>, AllocError>
    ensures { IfOk result (λ found. found ≡ matched C.folded value.now pattern.now) }
{
    match matches::<C>(alloc, value, pattern)? {
        Some(captures) => Ok(Some(MatchValues::copied(alloc, &captures)?)),
        None => Ok(None),
    }
}

/// How a test compares a value with keys, and the keys. They are strings, and each is put together
/// when it is compared.
#[derive(Clone, Copy)]
pub(crate) struct Matcher<'a> {
    pub(crate) comparison: Comparison,
    pub(crate) values: &'a Values,
    pub(crate) keys: &'a Strings<'a>,
    /// Whether the keys are cut at spaces (RFC 5232, 4).
    pub(crate) are_cut: bool,
}

/// Whether a value of so many octets can match the key that a string gives. Parts of the string are
/// looked at only until the value has no room for more.
fn may_match(values: &Values, kind: KeyKind, size: usize, parts: &[Part]) -> bool
    ensures { result ≡ may_match kind size (text_value values.now parts.now) }
{
    let mut room = Room::new(kind, size);
    for part in parts {
        if room.is_exceeded() {
            return false;
        }
        room = room.after(values.part(part));
    }
    room.is_enough()
}

impl Matcher<'_> {
    /// The match values of a value that matches a key.
    pub(crate) fn match_of(
        &self,
        alloc: Global,
        value: &[u8],
        key: &[u8],
    ) -> Result<Option<MatchValues>, AllocError>
        ensures { IfOk result (λ found. found ≡ match_of self.now.comparison value.now key.now) }
    {
        match (self.comparison.match_type, self.comparison.collation) {
            (MatchType::Is, collation) => Ok(plain_match(alloc, equals(collation, value, key))),
            (MatchType::Contains, Collation::Octet) => {
                Ok(plain_match(alloc, contains::<Octet>(value, key)))
            }
            (MatchType::Contains, Collation::Casemap) => {
                let is_match = contains_in::<AsciiCasemap>(alloc, value, key)?;
                Ok(plain_match(alloc, is_match))
            }
            (MatchType::Matches, Collation::Octet) => wildcard_match::<Octet>(alloc, value, key),
            (MatchType::Matches, Collation::Casemap) => {
                wildcard_match::<AsciiCasemap>(alloc, value, key)
            }
            (MatchType::Contains, Collation::Numeric) => Ok(None),
            (MatchType::Matches, Collation::Numeric) => Ok(None),
            (MatchType::Value(relation), collation) => {
                Ok(related_match(alloc, relation, collation, value, key))
            }
            (MatchType::Count(relation), collation) => {
                Ok(related_match(alloc, relation, collation, value, key))
            }
        }
    }

    /// The kind of key, if it limits how many octets a matching value has.
    fn key_kind(&self) -> Option<KeyKind>
        ensures { IfSome result (λ kind. (value key : List ℕ) → may_match kind (length value) key
            ≡ false → match_of self.now.comparison value key ≡ None) }
    {
        keys_need_octets();
        match (self.comparison.match_type, self.comparison.collation) {
            (MatchType::Is, Collation::Octet) => Some(KeyKind::Whole),
            (MatchType::Is, Collation::Casemap) => Some(KeyKind::Whole),
            (MatchType::Is, Collation::Numeric) => None,
            (MatchType::Contains, _) => Some(KeyKind::Part),
            (MatchType::Matches, _) => Some(KeyKind::Pattern),
            (MatchType::Value(_), _) => None,
            (MatchType::Count(_), _) => None,
        }
    }

    /// Whether a value has to be compared with the key that a string gives. A string of a single
    /// part costs nothing to put together.
    fn can_match(&self, value: &[u8], parts: &[Part]) -> bool
        ensures { result ≡ false → match_of self.now.comparison value.now
            (text_value self.now.values.now parts.now) ≡ None }
    {
        if parts.len() < 2 {
            return true;
        }
        match self.key_kind() {
            Some(kind) => may_match(self.values, kind, value.len(), parts),
            None => true,
        }
    }

    /// Whether keys of several parts are looked for by [`SearchedValue::contains`]. They lie in a
    /// buffer, and so can be folded in place.
    fn is_search(&self) -> bool
        ensures { result ≡ true → (value key : List ℕ) → match_of self.now.comparison value key
            ≡ if is_part ascii_casemap value key then Some [] else None }
    {
        match (self.comparison.match_type, self.comparison.collation) {
            (MatchType::Contains, Collation::Casemap) => true,
            (MatchType::Contains, Collation::Octet) => false,
            (MatchType::Contains, Collation::Numeric) => false,
            (MatchType::Is, _) => false,
            (MatchType::Matches, _) => false,
            (MatchType::Value(_), _) => false,
            (MatchType::Count(_), _) => false,
        }
    }

    /// The match values of a value that matches the key of string `i`, which isn't cut. The key is
    /// put together only if the value can match it.
    fn match_whole(
        &self,
        alloc: Global,
        value: &mut SearchedValue<'_>,
        i: usize,
        buffer: &mut Vec<u8>,
    ) -> Result<Option<MatchValues>, AllocError>
        requires { i < length self.now.keys.now }
        ensures found { IfOk result (λ found. slice_get (map (λ key. match_of self.now.comparison
            value.old (text_value self.now.values.now key)) self.now.keys.now) i ≡ Some found) }
        ensures kept { value.new ≡ value.old }
    {
        let parts = self.keys.get(i);
        if !self.can_match(value.octets(), parts) {
            return Ok(None);
        }
        if parts.len() > 1 && self.is_search() {
            self.values.join(parts, buffer)?;
            return Ok(plain_match(alloc, value.contains(alloc, buffer)?));
        }
        let key = self.values.expanded_in(parts, buffer)?;
        self.match_of(alloc, value.octets(), key)
    }

    /// The match values of a value that matches a piece of a key.
    fn match_pieces(
        &self,
        alloc: Global,
        value: &[u8],
        key: &[u8],
    ) -> Result<Option<MatchValues>, AllocError>
        ensures { IfOk result (λ found. found
            ≡ first_match self.now.comparison (pairs_with (flag_keys key.now) value.now)) }
    {
        if key.is_empty() {
            return self.match_of(alloc, value, key);
        }
        let mut left = key;
        while let Some((piece, after)) = next_key(left) {
            if let Some(found) = self.match_of(alloc, value, piece)? {
                return Ok(Some(found));
            }
            left = after;
        }
        Ok(None)
    }

    /// The match values of a value that matches the key of string `i`. If keys are cut, it matches
    /// a piece of that key.
    fn match_at(
        &self,
        alloc: Global,
        value: &mut SearchedValue<'_>,
        i: usize,
        buffer: &mut Vec<u8>,
    ) -> Result<Option<MatchValues>, AllocError>
        requires { i < length self.now.keys.now }
        ensures found { IfOk result (λ found. slice_get
            (map (key_found self.now value.old) self.now.keys.now) i ≡ Some found) }
        ensures kept { value.new ≡ value.old }
    {
        if !self.are_cut {
            return self.match_whole(alloc, value, i, buffer);
        }
        let key = self.values.expanded_in(self.keys.get(i), buffer)?;
        self.match_pieces(alloc, value.octets(), key)
    }

    /// The only key, if there is one that is one literal and isn't cut.
    pub(crate) fn only_literal(&self) -> Option<&[u8]>
        ensures { IfSome result (λ key. (value : List ℕ)
            → found_with self.now value ≡ match_of self.now.comparison value key.now) }
    {
        if self.are_cut || self.keys.len() != 1 {
            return None;
        }
        match literal_in_parts(self.keys.get(0)) {
            Some(key) => Some(key),
            None => None,
        }
    }

    /// The match values that a value gives by the first of several keys that it matches.
    fn first_of_keys(&self, alloc: Global, value: &[u8]) -> Result<Option<MatchValues>, AllocError>
        ensures { IfOk result (λ found. found ≡ found_with self.now value.now) }
    {
        let mut searched = SearchedValue::new(value);
        let mut buffer = Vec::new(alloc);
        for i in 0..self.keys.len() {
            if let Some(found) = self.match_at(alloc, &mut searched, i, &mut buffer)? {
                return Ok(Some(found));
            }
        }
        Ok(None)
    }

    /// The match values that a value gives by the first key that it matches.
    pub(crate) fn first_match(
        &self,
        alloc: Global,
        value: &[u8],
    ) -> Result<Option<MatchValues>, AllocError>
        ensures { IfOk result (λ found. found ≡ found_with self.now value.now) }
    {
        match self.only_literal() {
            Some(key) => {
                let found = self.match_of(alloc, value, key)?;
                Ok(found)
            }
            None => self.first_of_keys(alloc, value),
        }
    }
}
