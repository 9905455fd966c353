//! The words of a session's lines that may be quoted. Copying their octets takes memory.
ghost use Rattle.std.specs.Prelude.{◌≡◌, ◌<◌, ℕ, IfOk, Some, None, IfSome, IfNone, is_some, length, [], false, true};
ghost use Rattle.std.specs.List.{list_all};
ghost use Rattle.session_text.specs.SessionLine.{is_bare, after, quoted_value, escaped_value, hex_octets, word_value};
ghost use Rattle.session_text.specs.view.Word.{MatchNext};

use arrayvec::ArrayVec;
use octets::{Octets, hex_octet, is_visible};
use std::alloc::{AllocError, Global};
use std::marker::Model;

/// Whether an octet may stand in a bare word: a visible one of ASCII but the quote and the
/// backslash.
fn is_bare(octet: u8) -> bool
    ensures { result ≡ is_bare octet }
{
    is_visible(octet) && octet != b'"' && octet != b'\\'
}

/// Whether all octets may stand in a bare word.
fn are_bare(octets: &[u8]) -> bool
    ensures { result ≡ list_all is_bare octets.now }
{
    octets.iter().all(|octet| is_bare(*octet))
}

/// The next part of a quoted word, after its first quote.
#[derive(Drop)]
pub(crate) enum Next<'a> {
    /// The end of the word.
    End,
    /// An octet, and the rest after it.
    Octet { octet: u8, rest: &'a [u8] },
    /// No part of a quoted word.
    Wrong,
}

/// The part after a backslash and an `x`.
#[tactic(auto, unfolding(crate::specs::SessionLine::hex_octets))]
fn next_hex(rest: &[u8]) -> Next<'_>
    ensures { MatchNext result ⊥ (λ octet left. (hex_octets rest.now ≡ after octet
        (quoted_value left)) × (length left < length rest.now)) (hex_octets rest.now ≡ None) }
{
    let [high, low, rest @ ..] = rest else {
        return Next::Wrong;
    };
    match hex_octet(*high, *low) {
        Some(octet) => Next::Octet { octet, rest },
        None => Next::Wrong,
    }
}

/// The part after a backslash.
#[tactic(auto, unfolding(crate::specs::SessionLine::escaped_value))]
fn next_escaped(rest: &[u8]) -> Next<'_>
    ensures { MatchNext result ⊥ (λ octet left. (escaped_value rest.now ≡ after octet
        (quoted_value left)) × (length left < length rest.now)) (escaped_value rest.now ≡ None) }
{
    let [octet, rest @ ..] = rest else {
        return Next::Wrong;
    };
    match *octet {
        b'"' | b'\\' => Next::Octet {
            octet: *octet,
            rest,
        },
        b'x' => next_hex(rest),
        _ => Next::Wrong,
    }
}

/// The next part of a quoted word, after its first quote.
#[tactic(auto, unfolding(crate::specs::SessionLine::quoted_value))]
fn next_octet(rest: &[u8]) -> Next<'_>
    ensures { MatchNext result (quoted_value rest.now ≡ Some [])
        (λ octet left. (quoted_value rest.now ≡ after octet (quoted_value left))
        × (length left < length rest.now)) (quoted_value rest.now ≡ None) }
{
    let [octet, rest @ ..] = rest else {
        return Next::Wrong;
    };
    match *octet {
        b'"' => {
            if rest.is_empty() {
                Next::End
            } else {
                Next::Wrong
            }
        }
        b'\\' => next_escaped(rest),
        octet => Next::Octet { octet, rest },
    }
}

/// Whether the octets after a quote make a quoted word.
fn is_quoted(word: &[u8]) -> bool
    ensures { result ≡ is_some (quoted_value word.now) }
{
    let mut rest = word;
    loop {
        match next_octet(rest) {
            Next::End => return true,
            Next::Octet { rest: left, .. } => rest = left,
            Next::Wrong => return false,
        }
    }
}

/// A copy of the octets that a quoted word stands for, after its first quote.
fn copied_quoted(alloc: Global, word: &[u8]) -> Result<Vec<u8>, AllocError>
    requires { is_some (quoted_value word.now) ≡ true }
    ensures { IfOk result (λ octets. quoted_value word.now ≡ Some octets.items) }
{
    let mut octets = Vec::new(alloc);
    let mut rest = word;
    loop {
        match next_octet(rest) {
            Next::End => return Ok(octets),
            Next::Octet { octet, rest: left } => {
                octets.push(octet)?;
                rest = left;
            }
            Next::Wrong => unreachable!(),
        }
    }
}

/// The octets that a quoted word stands for, after its first quote, where they are `N` at most.
fn short_quoted<const N: usize>(word: &[u8]) -> Option<ArrayVec<u8, N>>
    requires { is_some (quoted_value word.now) ≡ true }
    ensures short { IfSome result (λ octets. quoted_value word.now ≡ Some octets.items) }
    ensures long { IfNone result (IfSome (quoted_value word.now) (λ octets. N < length octets)) }
{
    let mut octets = ArrayVec::new();
    let mut rest = word;
    loop {
        match next_octet(rest) {
            Next::End => return Some(octets),
            Next::Octet { octet, rest: left } => {
                if octets.try_push(octet).is_err() {
                    return None;
                }
                rest = left;
            }
            Next::Wrong => unreachable!(),
        }
    }
}

/// A word of a line that may be quoted. Contracts see the octets that it stands for.
#[derive(Drop)]
pub struct SessionWord<'a> {
    written: &'a [u8],
}

impl<'a> Model for SessionWord<'a> {
    ghost use Rattle.std.specs.Prelude.{◌≡◌, ℕ, List, [], is_some, true};
    ghost use Rattle.session_text.specs.SessionLine.{word_value};
    ghost use Rattle.session_text.specs.view.Word.{octets_if_any};

    ghost Value = { List ℕ };

    ghost view = { λ a. octets_if_any (word_value a.written.now) };

    ghost invariant = { λ a. is_some (word_value a.written.now) ≡ true };
}

impl<'a> SessionWord<'a> {
    /// The word that is written so, if it is one.
    #[tactic(auto, unfolding(crate::specs::SessionLine::word_value))]
    pub(crate) fn new(written: &'a [u8]) -> Option<SessionWord<'a>>
        ensures { result ≡ word_value written.now }
    {
        let is_word = match written {
            [] => false,
            [b'"', rest @ ..] => is_quoted(rest),
            bare => are_bare(bare),
        };
        if is_word {
            Some(SessionWord { written })
        } else {
            None
        }
    }

    /// A copy of the octets that the word stands for. An error is out of memory.
    #[tactic(auto, unfolding(crate::specs::SessionLine::word_value))]
    pub fn copied(&self, alloc: Global) -> Result<Octets, AllocError>
        ensures { IfOk result (λ octets. octets ≡ self.now) }
    {
        match self.written {
            [b'"', rest @ ..] => Ok(Octets::from_vec(copied_quoted(alloc, rest)?)),
            bare => Octets::copied(alloc, bare),
        }
    }

    /// The octets that the word stands for, where they are `N` at most.
    #[tactic(auto, unfolding(crate::specs::SessionLine::word_value))]
    pub fn short<const N: usize>(&self) -> Option<ArrayVec<u8, N>>
        ensures short { IfSome result (λ octets. octets.items ≡ self.now) }
        ensures long { IfNone result (N < length self.now) }
    {
        match self.written {
            [b'"', rest @ ..] => short_quoted(rest),
            bare => ArrayVec::try_from(bare).ok(),
        }
    }
}
