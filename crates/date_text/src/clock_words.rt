//! Clocks as they are written: the seconds in digits, and the zone.
ghost use Rattle.std.specs.Prelude.{◌≡◌, ◌*◌, ◌+◌, ◌≤◌, IfSome};
ghost use Rattle.std.specs.Option.{option_map};
ghost use Rattle.date_text.specs.Clock.{clock_named, last_second, seconds_named};
ghost use Rattle.date_text.specs.Number.{digit_number, up_to};

use crate::clock::{Clock, LAST_SECOND};
use crate::number::digit_number;
use crate::zone_words::zone_named;

/// The seconds with a digit more. None past the year 9999.
fn with_digit(seconds: u64, octet: u8) -> Option<u64>
    requires { seconds ≤ last_second }
    ensures is { result
        ≡ up_to last_second (option_map (λ d. 10 * seconds + d) (digit_number octet)) }
    ensures small { IfSome result (λ n. n ≤ last_second) }
{
    let digit = digit_number(octet)?;
    let seconds = 10 * seconds + u64::from(digit);
    if seconds <= LAST_SECOND {
        Some(seconds)
    } else {
        None
    }
}

/// The seconds that digits spell. None where there is no digit, and none past the year 9999. Digits
/// after one that leads there aren't read.
fn seconds_named(digits: &[u8]) -> Option<u64>
    ensures is { result ≡ seconds_named digits.now }
{
    if digits.is_empty() {
        return None;
    }
    let mut seconds = 0u64;
    for octet in digits {
        match with_digit(seconds, *octet) {
            Some(more) => seconds = more,
            None => return None,
        }
    }
    Some(seconds)
}

/// The clock of two texts. One has the digits of the seconds since 1970-01-01 00:00 UTC, up to
/// [`LAST_SECOND`]. It has one digit or more, of which any number of zeros may stand first. The
/// other is the zone: a sign and four digits. None where a text is otherwise.
pub fn clock_named(digits: &[u8], zone: &[u8]) -> Option<Clock>
    ensures { result ≡ clock_named digits.now zone.now }
{
    let seconds = seconds_named(digits)?;
    let zone = zone_named(zone)?;
    Clock::new(seconds, zone)
}
