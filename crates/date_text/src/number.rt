//! Numbers with the digits that dates and zones have.
ghost use Rattle.std.specs.Prelude.{◌≡◌, ◌<◌, ◌≤◌, ◌++◌, IfSome, OnOk};
ghost use Rattle.date_text.specs.Number.{digit, digit_number, four_digits, four_number, pair_number, two_digits, up_to};

use octets::is_digit;
use std::alloc::AllocError;

/// The number of a digit; none for another octet.
pub(crate) fn digit_number(octet: u8) -> Option<u8>
    ensures is { result ≡ digit_number octet }
    ensures small { IfSome result (λ n. n < 10) }
{
    if is_digit(octet) {
        Some(octet - b'0')
    } else {
        None
    }
}

/// The number of two digits; none where an octet is no digit.
pub(crate) fn pair_number(high: u8, low: u8) -> Option<u8>
    ensures is { result ≡ pair_number high low }
    ensures small { IfSome result (λ n. n < 100) }
{
    let high = digit_number(high)?;
    let low = digit_number(low)?;
    Some(10 * high + low)
}

/// The number of four digits; none where an octet is no digit.
pub(crate) fn four_number(a: u8, b: u8, c: u8, d: u8) -> Option<u16>
    ensures is { result ≡ four_number a b c d }
    ensures small { IfSome result (λ n. n < 10000) }
{
    let high = pair_number(a, b)?;
    let low = pair_number(c, d)?;
    Some(100 * u16::from(high) + u16::from(low))
}

/// The number, if there is one that isn't above the limit.
pub(crate) fn up_to(limit: u8, number: Option<u8>) -> Option<u8>
    ensures is { result ≡ up_to limit number }
    ensures small { IfSome result (λ n. n ≤ limit) }
{
    let number = number?;
    if number <= limit { Some(number) } else { None }
}

/// The digit of a number under 10.
pub(crate) fn digit(number: u8) -> u8
    requires { number < 10 }
    ensures { result ≡ digit number }
{
    b'0' + number
}

/// Adds a number under 100 as two digits.
pub(crate) fn push_pair(text: &mut Vec<u8>, number: u8) -> Result<(), AllocError>
    requires { number < 100 }
    ensures { OnOk result (text.new.items ≡ text.old.items ++ two_digits number) }
{
    text.extend_from_slice(&[digit(number / 10), digit(number % 10)])?;
    Ok(())
}

/// Adds a number under 10000 as four digits.
pub(crate) fn push_four(text: &mut Vec<u8>, number: u16) -> Result<(), AllocError>
    requires { number < 10000 }
    ensures { OnOk result (text.new.items ≡ text.old.items ++ four_digits number) }
{
    push_pair(text, (number / 100) as u8)?;
    push_pair(text, (number % 100) as u8)?;
    Ok(())
}
