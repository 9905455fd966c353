//! The modifiers of a value that is set (RFC 5229, 4.1).
ghost use Rattle.std.specs.Prelude.{◌≡◌, ◌++◌, ◌≤◌, decimal, filter, IfOk, length, OnOk, take};
ghost use Rattle.std.specs.List.{flat_map};
ghost use Rattle.sieve_limits.specs.Limits.{value_limit};
ghost use Rattle.sieve_variables.specs.Modifier.{character_count, goes_on, in_case, is_wild, modified, quoted_wildcard, with_case, with_first, with_quotes};

use itoa::Buffer;
use sieve_limits::MAX_VALUE;
use std::alloc::{AllocError, Global};

/// The case that letters get (RFC 5229, 4.1.3).
#[derive(Clone, Copy, PartialEq, Eq)]
pub enum LetterCase {
    /// Small letters.
    Lower,
    /// Capital letters.
    Upper,
}

/// The modifiers that a `set` has, at most one of each precedence.
#[derive(Clone, Copy, PartialEq, Eq)]
pub struct Modifiers {
    /// `:lower` or `:upper`, of precedence 40 (RFC 5229, 4.1.3).
    pub letter_case: Option<LetterCase>,
    /// `:lowerfirst` or `:upperfirst`, of precedence 30 (RFC 5229, 4.1.3).
    pub first_letter: Option<LetterCase>,
    /// `:quotewildcard`, of precedence 20 (RFC 5229, 4.1.2).
    pub quote_wildcard: bool,
    /// `:length`, of precedence 10 (RFC 5229, 4.1.1).
    pub length: bool,
}

impl LetterCase {
    /// An octet in this case. Only letters of ASCII have one (RFC 5229, 4.1.3).
    fn changed(self, octet: u8) -> u8
        ensures { result ≡ in_case self octet }
    {
        match self {
            LetterCase::Lower => octet.to_ascii_lowercase(),
            LetterCase::Upper => octet.to_ascii_uppercase(),
        }
    }
}

/// A copy of a value with its letters in a case, if one is given (RFC 5229, 4.1.3).
fn with_case(alloc: Global, case: Option<LetterCase>, value: &[u8]) -> Result<Vec<u8>, AllocError>
    ensures { IfOk result (λ octets. octets.items ≡ with_case case value.now) }
{
    match case {
        None => Vec::from_slice(alloc, value),
        Some(case) => value
            .iter()
            .map(|octet| case.changed(*octet))
            .collect(alloc),
    }
}

/// The value with its first octet in a case, if one is given (RFC 5229, 4.1.3).
#[tactic(auto, using(crate::proofs::Modified::first_written))]
fn with_first(case: Option<LetterCase>, mut value: Vec<u8>) -> Vec<u8>
    ensures { result.items ≡ with_first case value.items }
{
    if let Some(case) = case
        && !value.is_empty()
    {
        value[0] = case.changed(value[0]);
    }
    value
}

/// Whether `:matches` takes an octet for more than itself.
fn is_wild(octet: u8) -> bool
    ensures { result ≡ is_wild octet }
{
    octet == b'*' || octet == b'?' || octet == b'\\'
}

/// Appends an octet, written so that `:matches` takes it for itself alone.
fn push_quoted(quoted: &mut Vec<u8>, octet: u8) -> Result<(), AllocError>
    ensures { OnOk result (quoted.new.items ≡ quoted.old.items ++ quoted_wildcard octet) }
{
    if is_wild(octet) {
        quoted.push(b'\\')?;
    }
    quoted.push(octet)?;
    Ok(())
}

/// A copy of a value with a `\` before each wild octet of `:matches` (RFC 5229, 4.1.2).
fn quoted(alloc: Global, value: &[u8]) -> Result<Vec<u8>, AllocError>
    ensures { IfOk result (λ octets. octets.items ≡ flat_map quoted_wildcard value.now) }
{
    let mut octets = Vec::new(alloc);
    for octet in value {
        push_quoted(&mut octets, *octet)?;
    }
    Ok(octets)
}

/// Whether an octet has the form 10xxxxxx, with which a character of UTF-8 goes on
/// (RFC 3629, section 3).
fn goes_on(octet: u8) -> bool
    ensures { result ≡ goes_on octet }
{
    128 <= octet && octet < 192
}

/// The number of characters of a value, as text in UTF-8 (RFC 5229, 4.1.1).
#[tactic(auto, using(crate::proofs::Modified::counts))]
fn character_count(value: &[u8]) -> usize
    ensures is { result ≡ character_count value.now }
    ensures within { result ≤ length value.now }
{
    value.iter().filter(|octet| !goes_on(**octet)).count()
}

/// The number of octets of a value that `:matches` takes for more than themselves.
#[tactic(auto, using(crate::proofs::Modified::counts))]
fn wild_count(value: &[u8]) -> usize
    ensures is { result ≡ length (filter is_wild value.now) }
    ensures within { result ≤ length value.now }
{
    value.iter().filter(|octet| is_wild(**octet)).count()
}

/// A number in decimal digits, which are never more octets than a value may have.
#[tactic(auto, using(crate::proofs::Modified::digits_whole))]
fn digits(alloc: Global, number: usize) -> Result<Vec<u8>, AllocError>
    ensures { IfOk result (λ octets. octets.items ≡ take value_limit (decimal number)) }
{
    let mut buffer = Buffer::new();
    let octets = Vec::from_slice(alloc, buffer.format(number).as_bytes())?;
    Ok(octets)
}

/// The first octets of a value, at most `limit` of them.
pub(crate) fn front(value: &[u8], limit: usize) -> &[u8]
    ensures { result.now ≡ take limit value.now }
{
    if value.len() > limit {
        &value[..limit]
    } else {
        value
    }
}

impl Modifiers {
    /// A copy of a value with its letters in the given cases.
    fn cased(self, alloc: Global, value: &[u8]) -> Result<Vec<u8>, AllocError>
        ensures { IfOk result (λ octets. octets.items
            ≡ with_first self.first_letter (with_case self.letter_case value.now)) }
    {
        let octets = with_case(alloc, self.letter_case, value)?;
        Ok(with_first(self.first_letter, octets))
    }

    /// The number of characters of a value after all modifiers but `:length`. No copy is made: the
    /// cases of letters don't change that number, and quoting adds one for each quoted octet.
    #[tactic(auto, using(crate::proofs::Modified::counts))]
    fn character_count(self, value: &[u8]) -> usize
        ensures { result ≡ character_count (with_quotes self.quote_wildcard
            (with_first self.first_letter (with_case self.letter_case value.now))) }
    {
        let count = character_count(value);
        if self.quote_wildcard {
            count + wild_count(value)
        } else {
            count
        }
    }

    /// The value that is set with these modifiers. All that are given are applied, those of higher
    /// precedence first (RFC 5229, 4.1). Then the octets past 4,096 are cut (RFC 5229, section 6).
    /// Only the first 4,096 octets of the value are copied, and none where its characters are
    /// counted. The time is linear in the value. An error is out of memory.
    #[tactic(auto, using(crate::proofs::Modified::wholes))]
    pub fn modified(self, alloc: Global, value: &[u8]) -> Result<Vec<u8>, AllocError>
        ensures { IfOk result (λ octets. octets.items ≡ modified self value.now) }
    {
        if self.length {
            return digits(alloc, self.character_count(value));
        }
        let cased = self.cased(alloc, front(value, MAX_VALUE))?;
        if !self.quote_wildcard {
            return Ok(cased);
        }
        let mut octets = quoted(alloc, &cased)?;
        octets.truncate(MAX_VALUE);
        Ok(octets)
    }
}
