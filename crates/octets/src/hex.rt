//! Digits of base 16 (RFC 4648, section 8; RFC 5234, appendix B.1: HEXDIG).
ghost use Rattle.std.specs.Prelude.{◌≡◌, ◌<◌, IfSome};
ghost use Rattle.octets.specs.Hex.{hex_digit, hex_octet, hex_value};

use crate::class::is_digit;

/// The digit of a number under 16, in lower case.
pub fn hex_digit(n: u8) -> u8
    requires { n < 16 }
    ensures { result ≡ hex_digit n }
{
    if n < 10 { b'0' + n } else { b'a' + (n - 10) }
}

/// The number of a digit, in either case; none for another octet.
fn hex_value(octet: u8) -> Option<u8>
    ensures value { result ≡ hex_value octet }
    ensures small { IfSome result (λ value. value < 16) }
{
    match octet {
        b'A'..=b'F' => Some(octet - b'A' + 10),
        b'a'..=b'f' => Some(octet - b'a' + 10),
        _ if is_digit(octet) => Some(octet - b'0'),
        _ => None,
    }
}

/// The octet of two digits, in either case. None where one of them is no digit.
pub fn hex_octet(high: u8, low: u8) -> Option<u8>
    ensures { result ≡ hex_octet high low }
{
    let high = hex_value(high)?;
    let low = hex_value(low)?;
    Some(16 * high + low)
}
