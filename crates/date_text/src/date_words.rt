//! The words of a date and a time, by their meaning (RFC 5322, 3.3 and 4.3).
ghost use Rattle.std.specs.Prelude.{◌≡◌, true, IfSome, length};
ghost use Rattle.std.specs.Option.{option_map};
ghost use Rattle.date_text.specs.Reading.{after_second, after_weekday, date_words, is_sign, is_weekday, second_word};
ghost use Rattle.date_text.specs.view.Words.{closes, date_words_as, words_in};

use crate::words::next_word;
use crate::zone_words::is_one_of;

/// The words of a date and a time. The words of `zone` say the zone.
#[derive(Clone, Copy)]
pub(crate) struct DateSlices<'a> {
    pub(crate) day: &'a [u8],
    pub(crate) month: &'a [u8],
    pub(crate) year: &'a [u8],
    pub(crate) hour: &'a [u8],
    pub(crate) minute: &'a [u8],
    pub(crate) second: Option<&'a [u8]>,
    pub(crate) zone: &'a [u8],
}

/// The names of the weekdays, from Monday on.
pub(crate) const WEEKDAY_NAMES: [&[u8]; 7] = [
    b"Mon", b"Tue", b"Wed", b"Thu", b"Fri", b"Sat", b"Sun",
];

/// Whether a word is the name of a weekday.
fn is_weekday(word: &[u8]) -> bool
    ensures { result ≡ is_weekday word.now }
{
    is_one_of(word, &WEEKDAY_NAMES)
}

/// Whether a word is this one octet.
fn is_sign(sign: u8, word: &[u8]) -> bool
    ensures { result ≡ is_sign sign word.now }
{
    match word {
        [octet] => *octet == sign,
        _ => false,
    }
}

/// The text after a weekday and a comma, if it begins with them.
fn after_weekday(text: &[u8]) -> &[u8]
    requires { closes text.now ≡ true }
    ensures words { words_in result.now ≡ after_weekday (words_in text.now) }
    ensures closed { closes result.now ≡ true }
{
    let Some((word, rest)) = next_word(text) else {
        return text;
    };
    let Some((comma, rest)) = next_word(rest) else {
        return text;
    };
    if is_weekday(word) && is_sign(b',', comma) {
        rest
    } else {
        text
    }
}

/// The second with which a text begins, after a `:`, if it does, and the text after it.
fn cut_second(text: &[u8]) -> (Option<&[u8]>, &[u8])
    requires { closes text.now ≡ true }
    ensures second { option_map (λ word. word.now) result.0 ≡ second_word (words_in text.now) }
    ensures words { words_in result.1.now ≡ after_second (words_in text.now) }
    ensures closed { closes result.1.now ≡ true }
{
    let Some((colon, rest)) = next_word(text) else {
        return (None, text);
    };
    let Some((second, rest)) = next_word(rest) else {
        return (None, text);
    };
    if is_sign(b':', colon) {
        (Some(second), rest)
    } else {
        (None, text)
    }
}

/// The words of a date and a time without a weekday.
fn plain_date_words(text: &[u8]) -> Option<DateSlices<'_>>
    requires { closes text.now ≡ true }
    ensures is { option_map date_words_as result ≡ date_words (words_in text.now) }
    ensures closed { IfSome result (λ found. closes found.zone.now ≡ true) }
{
    let (day, rest) = next_word(text)?;
    let (month, rest) = next_word(rest)?;
    let (year, rest) = next_word(rest)?;
    let (hour, rest) = next_word(rest)?;
    let (colon, rest) = next_word(rest)?;
    let (minute, rest) = next_word(rest)?;
    if !is_sign(b':', colon) {
        return None;
    }
    let (second, zone) = cut_second(rest);
    Some(DateSlices {
        day,
        month,
        year,
        hour,
        minute,
        second,
        zone,
    })
}

/// The words of a date and a time, maybe after a weekday, in a text whose comments are closed.
pub(crate) fn date_words(text: &[u8]) -> Option<DateSlices<'_>>
    requires { closes text.now ≡ true }
    ensures is { option_map date_words_as result ≡ date_words (after_weekday (words_in text.now)) }
    ensures closed { IfSome result (λ found. closes found.zone.now ≡ true) }
{
    plain_date_words(after_weekday(text))
}
