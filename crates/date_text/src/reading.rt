//! Dates as they are written (RFC 5322, 3.3 and 4.3).
ghost use Rattle.std.specs.Prelude.{◌≡◌, ◌≤◌, ◌<◌, ◌==◌, pos, true, IfSome, not, unsigned_abs};
ghost use Rattle.std.specs.Int.{IsInRange};
ghost use Rattle.std.specs.List.{after_last, suffix_len};
ghost use Rattle.std.specs.Option.{option_map};
ghost use Rattle.octets.specs.Octet.{octet_of};
ghost use Rattle.date_text.specs.Number.{pair_number};
ghost use Rattle.date_text.specs.Reading.{date_in, date_of_words, day_of_word, minute_of_words, moment_of_words, month_number};
ghost use Rattle.date_text.specs.Reading.{pair_of_word, second_of_word, year_of_pair, year_of_word};
ghost use Rattle.date_text.specs.view.Moment.{date_as, moment_as};
ghost use Rattle.date_text.specs.view.Words.{closes, date_words_as};

use crate::calendar::date_of;
use crate::date_words::{DateSlices, date_words};
use crate::moment::Moment;
use crate::number::{digit_number, four_number, pair_number, up_to};
use crate::zone_words::{place_of, zone_in};
use jiff_core::civil::Date;
use structured_text::{COMMENTS_ALONE, is_closed};

/// The names of the months, from January on.
pub(crate) const MONTH_NAMES: [&[u8]; 12] = [
    b"Jan", b"Feb", b"Mar", b"Apr", b"May", b"Jun", b"Jul", b"Aug", b"Sep", b"Oct", b"Nov", b"Dec",
];

/// The number of a month by its name, from 1.
fn month_number(word: &[u8]) -> Option<u8>
    ensures is { result ≡ month_number word.now }
    ensures small { IfSome result (λ n. IsInRange 1 12 n) }
{
    let place = place_of(word, &MONTH_NAMES)?;
    Some(place as u8 + 1)
}

/// The number of a day: one digit or two.
fn day_of_word(word: &[u8]) -> Option<u8>
    ensures is { result ≡ day_of_word word.now }
    ensures small { IfSome result (λ n. n < 100) }
{
    match word {
        [digit] => digit_number(*digit),
        [high, low] => pair_number(*high, *low),
        _ => None,
    }
}

/// The year of two digits: those up to 49 are from 2000 on, the others from 1900 on.
fn year_of_pair(high: u8, low: u8) -> Option<u16>
    ensures is { result ≡ option_map year_of_pair (pair_number high low) }
    ensures small { IfSome result (λ n. IsInRange 1900 9999 n) }
{
    let number = u16::from(pair_number(high, low)?);
    Some(if number < 50 {
        2000 + number
    } else {
        1900 + number
    })
}

/// The year of four digits, three or two. Four are 1900 or later, and three are added to 1900.
fn year_of_word(word: &[u8]) -> Option<u16>
    ensures is { result ≡ year_of_word word.now }
    ensures small { IfSome result (λ n. IsInRange 1900 9999 n) }
{
    match word {
        [c, d] => year_of_pair(*c, *d),
        [b, c, d] => Some(1900 + four_number(b'0', *b, *c, *d)?),
        [a, b, c, d] => {
            let year = four_number(*a, *b, *c, *d)?;
            if year >= 1900 { Some(year) } else { None }
        }
        _ => None,
    }
}

/// The number of two digits up to a limit.
fn pair_of_word(limit: u8, word: &[u8]) -> Option<u8>
    ensures is { result ≡ pair_of_word limit word.now }
    ensures small { IfSome result (λ n. n ≤ limit) }
{
    match word {
        [high, low] => up_to(limit, pair_number(*high, *low)),
        _ => None,
    }
}

/// The date of words, if the month has that day in that year.
fn date_of_words(words: &DateSlices<'_>) -> Option<Date>
    ensures is { option_map date_as result ≡ date_of_words (date_words_as words.now) }
    ensures year { IfSome result (λ date. date.year ≡ pos (unsigned_abs date.year)) }
{
    let year = year_of_word(words.year)?;
    let month = month_number(words.month)?;
    let day = day_of_word(words.day)?;
    date_of(year, month, day)
}

/// The minute of the day, of an hour up to 23 and a minute up to 59.
fn minute_of_words(words: &DateSlices<'_>) -> Option<u16>
    ensures is { result ≡ minute_of_words (date_words_as words.now) }
    ensures small { IfSome result (λ n. n < 1440) }
{
    let hour = pair_of_word(23, words.hour)?;
    let minute = pair_of_word(59, words.minute)?;
    Some(60 * u16::from(hour) + u16::from(minute))
}

/// The second up to 60; it is 0 where none is written.
fn second_of_word(word: Option<&[u8]>) -> Option<u8>
    ensures is { result ≡ second_of_word (option_map (λ found. found.now) word.entry) }
    ensures small { IfSome result (λ n. n ≤ 60) }
{
    match word {
        None => Some(0),
        Some(word) => pair_of_word(60, word),
    }
}

/// The moment of words, if they are a date, a time and a zone.
fn moment_of_words(words: &DateSlices<'_>) -> Option<Moment>
    requires { closes words.now.zone.now ≡ true }
    ensures { option_map moment_as result ≡ moment_of_words (date_words_as words.now) }
{
    let date = date_of_words(words)?;
    let minute = minute_of_words(words)?;
    let second = second_of_word(words.second)?;
    let zone = zone_in(words.zone)?;
    Some(Moment::at(date.to_unix_epoch_day(), minute, second, zone))
}

fn is_no_semicolon(octet: u8) -> bool
    ensures { result ≡ not (octet == octet_of ";") }
{
    octet != b';'
}

/// The number of octets after the last `;`, or of all octets where there is none.
fn tail_len(value: &[u8]) -> usize
    ensures { result ≡ suffix_len (λ octet. not (octet == octet_of ";")) value.now }
{
    value
        .iter()
        .rev()
        .take_while(|octet| is_no_semicolon(**octet))
        .count()
}

/// The text after the last `;`, or all of it where there is none. A `;` in a comment counts too: a
/// value is cut before its comments are found.
fn after_last_semicolon(value: &[u8]) -> &[u8]
    ensures { result.now ≡ after_last (λ c. c == octet_of ";") value.now }
{
    let (_, text) = value.split_at(value.len() - tail_len(value));
    text
}

/// The date of a field's value: the text after its last `;`, or all of it. That is read as a date
/// and a time, also in the obsolete forms (RFC 5322, 3.3 and 4.3).
///
/// There is a moment exactly where the text is as follows. It may begin with a weekday and a
/// comma, and the weekday need not fit the date. Then come a day, the name of a month and a year.
/// The month must have that day in that year. The year has four digits and is 1900 or later, or it
/// has three digits or two. Then come an hour up to 23, a `:` and a minute up to 59. A `:` and a
/// second up to 60 may follow. A zone may come last. White space and closed comments may stand
/// between any two words.
pub fn date_in(value: &[u8]) -> Option<Moment>
    ensures { option_map moment_as result ≡ date_in value.now }
{
    let text = after_last_semicolon(value);
    if !is_closed(COMMENTS_ALONE, text) {
        return None;
    }
    let words = date_words(text)?;
    moment_of_words(&words)
}
