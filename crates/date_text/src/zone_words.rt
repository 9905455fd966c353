//! Zones as they are written (RFC 5322, 3.3 and 4.3).
ghost use Rattle.std.specs.Prelude.{◌≡◌, ◌≤◌, true, IfSome, position};
ghost use Rattle.std.specs.List.{list_any};
ghost use Rattle.std.specs.Option.{option_map};
ghost use Rattle.date_text.specs.Zone.{is_same_name, zone_minutes, zone_named, zone_of_letters, zone_of_sign};
ghost use Rattle.date_text.specs.Zone.{zone_of_two, zone_of_word, zone_of_words};
ghost use Rattle.date_text.specs.view.Moment.{zone_as};
ghost use Rattle.date_text.specs.view.Words.{closes, words_in};

use crate::number::{pair_number, up_to};
use crate::words::{are_letters, next_word};
use crate::zone::Zone;

/// The minutes of four digits: hours, and minutes up to 59.
fn zone_minutes(digits: &[u8]) -> Option<u16>
    ensures is { result ≡ zone_minutes digits.now }
    ensures small { IfSome result (λ n. n ≤ 5999) }
{
    let [a, b, c, d] = digits else {
        return None;
    };
    let hours = pair_number(*a, *b)?;
    let minutes = up_to(59, pair_number(*c, *d))?;
    Some(60 * u16::from(hours) + u16::from(minutes))
}

/// The zone of a sign and four digits.
fn zone_of_sign(sign: u8, digits: &[u8]) -> Option<Zone>
    ensures { option_map zone_as result ≡ zone_of_sign sign digits.now }
{
    match sign {
        b'+' => Some(Zone::east(zone_minutes(digits)?)),
        b'-' => Some(Zone::west(zone_minutes(digits)?)),
        _ => None,
    }
}

/// Whether a word is a name, in any case of letters.
pub(crate) fn is_same_name(word: &[u8], name: &[u8]) -> bool
    ensures { result ≡ is_same_name word.now name.now }
{
    name.eq_ignore_ascii_case(word)
}

/// Whether a word is one of these names, in any case of letters.
pub(crate) fn is_one_of(word: &[u8], names: &[&[u8]]) -> bool
    ensures { result ≡ list_any (λ name. is_same_name word.now name.now) names.now }
{
    names.iter().any(|name| is_same_name(word, name))
}

/// The place of the name that a word is, in any case of letters.
pub(crate) fn place_of(word: &[u8], names: &[&[u8]]) -> Option<usize>
    ensures { result ≡ position (λ name. is_same_name word.now name.now) names.now }
{
    names.iter().position(|name| is_same_name(word, name))
}

/// The zone of letters. Letters without a known meaning give `-0000`.
fn zone_of_letters(word: &[u8]) -> Zone
    ensures { zone_as result ≡ zone_of_letters word.now }
{
    if is_same_name(word, b"UT") || is_same_name(word, b"GMT") {
        Zone::east(0)
    } else if is_same_name(word, b"EST") || is_same_name(word, b"CDT") {
        Zone::west(5 * 60)
    } else if is_same_name(word, b"EDT") {
        Zone::west(4 * 60)
    } else if is_same_name(word, b"CST") || is_same_name(word, b"MDT") {
        Zone::west(6 * 60)
    } else if is_same_name(word, b"MST") || is_same_name(word, b"PDT") {
        Zone::west(7 * 60)
    } else if is_same_name(word, b"PST") {
        Zone::west(8 * 60)
    } else {
        Zone::west(0)
    }
}

/// The zone of one word, if it has letters alone.
fn zone_of_word(word: &[u8]) -> Option<Zone>
    ensures { option_map zone_as result ≡ zone_of_word word.now }
{
    if are_letters(word) {
        Some(zone_of_letters(word))
    } else {
        None
    }
}

/// The zone of two words: a sign, and four digits.
fn zone_of_two(sign: &[u8], digits: &[u8]) -> Option<Zone>
    ensures { option_map zone_as result ≡ zone_of_two sign.now digits.now }
{
    let [sign] = sign else {
        return None;
    };
    zone_of_sign(*sign, digits)
}

/// The zone that the words of a text say: none, letters, or a sign and four digits.
pub(crate) fn zone_in(text: &[u8]) -> Option<Zone>
    requires { closes text.now ≡ true }
    ensures { option_map zone_as result ≡ zone_of_words (words_in text.now) }
{
    let Some((first, rest)) = next_word(text) else {
        return Some(Zone::west(0));
    };
    let Some((second, rest)) = next_word(rest) else {
        return zone_of_word(first);
    };
    match next_word(rest) {
        None => zone_of_two(first, second),
        Some(_) => None,
    }
}

/// The zone of a text that is exactly a sign and four digits: hours, and minutes up to 59.
/// None for another text.
pub fn zone_named(text: &[u8]) -> Option<Zone>
    ensures { option_map zone_as result ≡ zone_named text.now }
{
    let [sign, digits @ ..] = text else {
        return None;
    };
    zone_of_sign(*sign, digits)
}
