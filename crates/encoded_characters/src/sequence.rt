//! Encoded characters as they are written (RFC 5228, 2.4.2.4).
ghost use Rattle.std.specs.Prelude.{◌≡◌, ◌+◌, ◌<◌, ◌≤◌, IfSome, length, take};
ghost use Rattle.std.specs.Option.{option_map};
ghost use Rattle.encoded_characters.specs.Scan.{before_brace, after_run, after_word, may_stand, run, sequence_at, word_at};
ghost use Rattle.encoded_characters.specs.Sequence.{is_hex, is_unicode};
ghost use Rattle.encoded_characters.specs.view.Sequence.{sequence_of};

use crate::item::{is_hex_digit, is_inside};
use octets::is_white;

/// A sequence of encoded characters.
#[derive(Clone, Copy)]
pub(crate) struct EncodedSequence<'a> {
    /// The word: `hex` or `unicode`, in any case of letters.
    pub(crate) word: &'a [u8],
    /// The octets between `:` and `}`.
    pub(crate) inside: &'a [u8],
}

/// The number of octets of a sequence outside its word and its inside: those of `${`, `:` and `}`.
pub(crate) const SIGN_COUNT: usize = 4;

/// Whether a word is that of sequences that stand for octets.
pub(crate) fn is_hex(word: &[u8]) -> bool
    ensures { result ≡ is_hex word.now }
{
    b"hex".eq_ignore_ascii_case(word)
}

/// Whether a word is that of sequences that stand for characters.
fn is_unicode(word: &[u8]) -> bool
    ensures { result ≡ is_unicode word.now }
{
    b"unicode".eq_ignore_ascii_case(word)
}

/// Whether an octet may stand between `:` and `}`.
fn may_stand(octet: u8) -> bool
    ensures { result ≡ may_stand octet }
{
    is_hex_digit(octet) || is_white(octet)
}

/// The number of octets at the start that may stand between `:` and `}`.
fn run_len(octets: &[u8]) -> usize
    ensures { result ≡ length (run octets.now) }
{
    octets.iter().take_while(|octet| may_stand(**octet)).count()
}

/// Cuts octets before the first that may not stand between `:` and `}`.
#[tactic(auto, using(crate::proofs::Steps::run_len))]
fn cut_run(octets: &[u8]) -> (&[u8], &[u8])
    ensures run { result.0.now ≡ run octets.now }
    ensures rest { result.1.now ≡ after_run octets.now }
    ensures lengths { length result.0.now + length result.1.now ≡ length octets.now }
{
    octets.split_at(run_len(octets))
}

/// The first `count` octets, or all where there are fewer.
fn front(octets: &[u8], count: usize) -> &[u8]
    ensures { result.now ≡ take count octets.now }
{
    octets.get(..count).unwrap_or(octets)
}

/// The word with which octets begin, if they begin with one.
fn word_at(octets: &[u8]) -> Option<&[u8]>
    ensures is { option_map (λ word. word.now) result ≡ word_at octets.now }
    ensures within { IfSome result (λ word. length word.now ≤ length octets.now) }
{
    let word = front(octets, 3);
    if is_hex(word) {
        return Some(word);
    }
    let word = front(octets, 7);
    if is_unicode(word) { Some(word) } else { None }
}

/// The sequence of a word, the octets up to `}`, and the octets after them. None where the latter
/// don't begin with `}`.
fn before_brace<'a>(word: &'a [u8], inside: &'a [u8], after: &[u8]) -> Option<EncodedSequence<'a>>
    ensures is { option_map sequence_of result ≡ before_brace word.now inside.now after.now }
    ensures word { IfSome result (λ found. found.word.now ≡ word.now) }
    ensures inside { IfSome result (λ found. found.inside.now ≡ inside.now) }
    ensures some { IfSome result (λ _. 0 < length after.now) }
{
    let [b'}', ..] = after else {
        return None;
    };
    if is_inside(is_hex(word), inside) {
        Some(EncodedSequence { word, inside })
    } else {
        None
    }
}

/// The sequence of a word and the octets after it. None where these don't begin with `:`.
fn after_word<'a>(word: &'a [u8], after: &'a [u8]) -> Option<EncodedSequence<'a>>
    ensures is { option_map sequence_of result ≡ after_word word.now after.now }
    ensures word { IfSome result (λ found. found.word.now ≡ word.now) }
    ensures within { IfSome result (λ found. length found.inside.now + 2 ≤ length after.now) }
{
    let [b':', rest @ ..] = after else {
        return None;
    };
    let (inside, further) = cut_run(rest);
    before_brace(word, inside, further)
}

/// The encoded characters with which a text begins.
///
/// Trying each place of a text takes time linear in its length. A try reads ten octets at most.
/// After them it reads those that may stand between `:` and `}`, up to the first that may not. No
/// `$` is among them, so no other try begins there: this try alone reads them. It reads them once.
/// Where a `}` ends them, it reads them twice more, for their digits and for their blanks.
#[tactic(auto, unfolding(crate::specs::Scan::sequence_at))]
pub(crate) fn sequence_at(text: &[u8]) -> Option<EncodedSequence<'_>>
    ensures is { option_map sequence_of result ≡ sequence_at text.now }
    ensures within { IfSome result
        (λ found. length found.word.now + length found.inside.now + 4 ≤ length text.now) }
{
    let [b'$', b'{', rest @ ..] = text else {
        return None;
    };
    let word = word_at(rest)?;
    let (_, after) = rest.split_at(word.len());
    after_word(word, after)
}
