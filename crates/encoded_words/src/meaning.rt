//! The octets that encoded words stand for (RFC 2047, sections 3 and 4).
ghost use Rattle.std.specs.Prelude.{◌≡◌, IfOk, IsOk, None};
ghost use Rattle.charsets.specs.Charset.{charset_named};
ghost use Rattle.charsets.specs.view.Text.{octets_of};
ghost use Rattle.encoded_words.specs.Meaning.{meaning, octets_in};
ghost use Rattle.encoded_words.specs.view.Word.{word_of};
ghost use Rattle.sieve_profile.specs.view.Profile.{profile_as};

use crate::encoding::{b_octets, q_octets};
use crate::word::{EncodedWord, is_b};
use charsets::{charset_named, in_utf8};
use sieve_profile::Profile;
use std::alloc::{AllocError, Global};

/// The octets of a word's text, by the letter of its encoding.
fn octets_in(alloc: Global, word: &EncodedWord<'_>) -> Result<Option<Vec<u8>>, AllocError>
    ensures { IfOk result (λ octets. octets_of octets ≡ octets_in (word_of word.now)) }
{
    if is_b(word.letter) {
        b_octets(alloc, word.text)
    } else {
        q_octets(alloc, word.text)
    }
}

/// The octets in UTF-8 that a word stands for, if it can be decoded. The charset comes first: where
/// it isn't known, the text isn't read.
#[tactic(auto, unfolding(crate::specs::Meaning::meaning))]
pub(crate) fn meaning(
    alloc: Global,
    profile: Profile,
    word: &EncodedWord<'_>,
) -> Result<Option<Vec<u8>>, AllocError>
    ensures is { IfOk result
        (λ octets. octets_of octets ≡ meaning (profile_as profile) (word_of word.now)) }
    ensures unknown { charset_named (profile_as profile) word.now.charset.now ≡ None → IsOk result }
{
    let Some(charset) = charset_named(profile, word.charset) else {
        return Ok(None);
    };
    match octets_in(alloc, word)? {
        None => Ok(None),
        Some(octets) => in_utf8(alloc, charset, octets),
    }
}
