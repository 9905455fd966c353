//! Values with their encoded words replaced.
ghost use Rattle.std.specs.Prelude.{◌≡◌, ◌++◌, ◌≤◌, IfOk, IsOk, OnOk, drop, length, map, take, true, false};
ghost use Rattle.std.specs.Cow.{IsBorrowedSlice, IsOwnedSlice, cow_slice_items};
ghost use Rattle.std.specs.List.{list_all};
ghost use Rattle.octets.specs.Octet.{is_blank};
ghost use Rattle.encoded_words.specs.Scan.{decoded_of, has_known, has_word, pieces_of, replaced_of};
ghost use Rattle.encoded_words.specs.Cut.{kept};
ghost use Rattle.text_cut.specs.Cut.{octet};
ghost use Rattle.charsets.specs.view.Text.{octets_of};
ghost use Rattle.sieve_profile.specs.Profile as profiles;
ghost use Rattle.sieve_profile.specs.view.Profile.{profile_as};

use crate::meaning::meaning;
use crate::word::{SIGN_COUNT, word_at};
use memchr::memchr;
use octets::is_blank;
use sieve_profile::Profile;
use std::alloc::{AllocError, Global};
use std::borrow::CowSlice;

/// Whether octets are spaces and tabs alone.
fn are_blank(octets: &[u8]) -> bool
    ensures { result ≡ list_all is_blank octets.now }
{
    octets.iter().all(|octet| is_blank(*octet))
}

/// Adds the octets before a word, and those that it stands for. After another word, spaces and tabs
/// alone before it are dropped.
fn push_word(
    octets: &mut Vec<u8>,
    after_word: bool,
    gap: &[u8],
    meant: &[u8],
) -> Result<(), AllocError>
    ensures { OnOk result
        (octets.new.items ≡ octets.old.items ++ (kept after_word gap.now ++ meant.now)) }
{
    if !(after_word && are_blank(gap)) {
        octets.extend_from_slice(gap)?;
    }
    octets.extend_from_slice(meant)
}

/// The number of octets before the first `=`. No word begins among them.
fn before_sign(value: &[u8]) -> usize
    ensures within { result ≤ length value.now }
    ensures alone { (profile : profiles.Profile) → map octet (take result value.now)
        ++ pieces_of profile (drop result value.now) ≡ pieces_of profile value.now }
    ensures unknown { (profile : profiles.Profile) → has_known profile value.now ≡ false
        → has_known profile (drop result value.now) ≡ false }
{
    memchr(b'=', value).unwrap_or(value.len())
}

/// A value with its encoded words replaced, if it has one that can be decoded.
fn replaced(alloc: Global, profile: Profile, value: &[u8]) -> Result<Option<Vec<u8>>, AllocError>
    ensures is { IfOk result
        (λ found. octets_of found ≡ replaced_of (profile_as profile) value.now) }
    // Where no word of a known charset is written in the value, the error doesn't come.
    ensures unknown { has_known (profile_as profile) value.now ≡ false → IsOk result }
{
    let mut octets = Vec::new(alloc);
    let mut after_word = false;
    // The rest of the value, which isn't yet in `octets`. Its first `plain` octets are known
    // to stand for themselves.
    let mut left = value;
    let mut plain = before_sign(value);
    while plain < left.len() {
        let (gap, rest) = left.split_at(plain);
        let Some(word) = word_at(rest) else {
            plain += 1;
            continue;
        };
        let Some(meant) = meaning(alloc, profile, &word)? else {
            plain += 1;
            continue;
        };
        push_word(&mut octets, after_word, gap, &meant)?;
        let (_, after) = rest.split_at(word.charset.len() + word.text.len() + SIGN_COUNT);
        left = after;
        plain = before_sign(left);
        after_word = true;
    }
    if !after_word {
        return Ok(None);
    }
    octets.extend_from_slice(left)?;
    Ok(Some(octets))
}

/// A value with its encoded words replaced. It is borrowed exactly where no word was replaced.
#[tactic(auto, using(crate::proofs::Steps::unchanged, crate::proofs::Steps::none_replaced, crate::proofs::Steps::some_replaced))]
fn decoded(alloc: Global, profile: Profile, value: &[u8]) -> Result<CowSlice<'_, u8>, AllocError>
    ensures octets { IfOk result
        (λ octets. cow_slice_items octets ≡ decoded_of (profile_as profile) value.now) }
    ensures borrowed { has_word (profile_as profile) value.now ≡ false
        → IfOk result IsBorrowedSlice }
    ensures owned { has_word (profile_as profile) value.now ≡ true → IfOk result IsOwnedSlice }
    ensures unknown { has_known (profile_as profile) value.now ≡ false → IsOk result }
{
    match replaced(alloc, profile, value)? {
        None => Ok(CowSlice::Borrowed(value)),
        Some(octets) => Ok(CowSlice::Owned(octets)),
    }
}

/// The value with its encoded words (RFC 2047, section 2) replaced by the octets that they
/// stand for, in UTF-8.
///
/// From the left, each word that can be decoded is replaced, wherever it stands. Spaces and tabs
/// alone between two such words are dropped (RFC 2047, 6.2). A word stays as it is written if the
/// profile doesn't know its charset. So does one whose text isn't of its encoding or charset.
/// Another word may begin inside such a word. The value is one of unfolded lines.
///
/// The result is borrowed exactly where the value was and no word was replaced. Memory is taken
/// only where a word of a known charset is written in the value.
#[tactic(auto, using(crate::proofs::Steps::unchanged, crate::proofs::Steps::none_replaced, crate::proofs::Steps::some_replaced))]
pub fn decoded_value(
    alloc: Global,
    profile: Profile,
    value: CowSlice<'_, u8>,
) -> Result<CowSlice<'_, u8>, AllocError>
    ensures octets { IfOk result (λ octets. cow_slice_items octets
        ≡ decoded_of (profile_as profile) (cow_slice_items value.entry)) }
    ensures borrowed { has_word (profile_as profile) (cow_slice_items value.entry) ≡ false
        → IsBorrowedSlice value.entry → IfOk result IsBorrowedSlice }
    ensures replaced { has_word (profile_as profile) (cow_slice_items value.entry) ≡ true
        → IfOk result IsOwnedSlice }
    ensures owned { IsOwnedSlice value.entry → IfOk result IsOwnedSlice }
    ensures unknown { has_known (profile_as profile) (cow_slice_items value.entry) ≡ false
        → IsOk result }
{
    match value {
        CowSlice::Borrowed(octets) => decoded(alloc, profile, octets),
        CowSlice::Owned(octets) => {
            let found = replaced(alloc, profile, &octets)?;
            Ok(CowSlice::Owned(found.unwrap_or(octets)))
        }
    }
}
