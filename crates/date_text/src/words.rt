//! The words of a field's value, one after another (RFC 5322, 3.2.2 and 4.3).
ghost use Rattle.std.specs.Prelude.{◌≡◌, ◌+◌, ◌<◌, ◌≤◌, ◌^◌, [], ◌∷◌, true, IfSome, MatchOption, length, ⊤};
ghost use Rattle.std.specs.List.{list_all, prefix_len};
ghost use Rattle.date_text.specs.Words.{is_joined, is_letter};
ghost use Rattle.structured_text.specs.declared.state.LexerState.TheVariants.{Outside};
ghost use Rattle.structured_text.specs.Structure.{comments_alone, depth_of, is_closed};
ghost use Rattle.date_text.specs.view.Words.{begins_word, closes, is_of_word, is_word_at, words_from, words_in};

use octets::{is_digit, is_white};
use structured_text::{COMMENTS_ALONE, LexerState};

/// Whether an octet is a letter (RFC 5234, appendix B.1: ALPHA).
fn is_letter(octet: u8) -> bool
    ensures { result ≡ is_letter octet }
{
    octet.is_ascii_alphabetic()
}

/// Whether all octets of a word are letters.
pub(crate) fn are_letters(word: &[u8]) -> bool
    ensures { result ≡ list_all is_letter word.now }
{
    word.iter().all(|octet| is_letter(*octet))
}

/// Whether two octets side by side are of one word: two letters, or two digits.
fn is_joined(first: u8, second: u8) -> bool
    ensures { result ≡ is_joined first second }
{
    (is_letter(first) && is_letter(second)) || (is_digit(first) && is_digit(second))
}

/// The number of octets that are of one word with the octet before them.
fn joined_len(first: u8, rest: &[u8]) -> usize
    ensures { result ≡ prefix_len (is_joined first) rest.now }
{
    rest.iter()
        .take_while(|octet| is_joined(first, **octet))
        .count()
}

/// Whether an octet outside comments is one of a word.
fn is_of_word(octet: u8) -> bool
    ensures { result ≡ is_of_word octet }
{
    !is_white(octet) && octet != b'('
}

/// Whether an octet in this state is one of a word.
fn is_word_at(spot: LexerState, octet: u8) -> bool
    ensures { result ≡ is_word_at spot octet }
{
    spot.is_outside() && is_of_word(octet)
}

/// The state after the first octet of a text, and the rest of the text. None where that octet is
/// one of a word, or there is none.
fn after_blank(spot: LexerState, text: &[u8]) -> Option<(LexerState, &[u8])>
    requires { depth_of spot < 2 ^ 63 }
    ensures words { IfSome result
        (λ found. words_from found.0 found.1.now ≡ words_from spot text.now) }
    ensures closed { IfSome result
        (λ found. is_closed comments_alone found.0 found.1.now ≡ is_closed comments_alone spot text.now) }
    ensures shorter { IfSome result (λ found. (length found.1.now < length text.now)
        × (depth_of found.0 + length found.1.now ≤ depth_of spot + length text.now)) }
    ensures none { is_closed comments_alone spot text.now ≡ true
        → MatchOption result ((spot ≡ Outside) × (begins_word text.now ≡ true)) (λ _. ⊤) }
{
    let [octet, rest @ ..] = text else {
        return None;
    };
    if is_word_at(spot, *octet) {
        return None;
    }
    Some((spot.after(COMMENTS_ALONE, *octet), rest))
}

/// The text after the white space and the comments with which it begins.
fn without_blanks(text: &[u8]) -> &[u8]
    requires { closes text.now ≡ true }
    ensures closed { closes result.now ≡ true }
    ensures words { words_in result.now ≡ words_in text.now }
    ensures begins { begins_word result.now ≡ true }
{
    let mut spot = LexerState::Outside;
    let mut left = text;
    while let Some((after, rest)) = after_blank(spot, left) {
        spot = after;
        left = rest;
    }
    left
}

/// The first word of a text whose comments are closed, and the text after it, if it has words.
pub(crate) fn next_word(text: &[u8]) -> Option<(&[u8], &[u8])>
    requires { closes text.now ≡ true }
    ensures is { MatchOption result (words_in text.now ≡ [])
        (λ found. words_in text.now ≡ found.0.now ∷ words_in found.1.now) }
    ensures closed { IfSome result (λ found. closes found.1.now ≡ true) }
{
    let text = without_blanks(text);
    let [first, rest @ ..] = text else {
        return None;
    };
    Some(text.split_at(1 + joined_len(*first, rest)))
}
