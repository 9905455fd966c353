//! Texts as the numbers of `i;ascii-numeric` (RFC 4790, 9.1). Numbers are of any size, so they are
//! compared by their digits.
ghost use Rattle.std.specs.Prelude.{◌≡◌};
ghost use Rattle.match_text.specs.Order.{first_digits, number_cmp, number_of};
ghost use Rattle.match_text.specs.view.Digits.{digits_cmp, without_zeros};

use octets::is_digit;
use std::cmp::Ordering;

/// The digits that a text begins with.
fn first_digits(text: &[u8]) -> &[u8]
    ensures { result.now ≡ first_digits text.now }
{
    for (place, octet) in text.iter().enumerate() {
        if !is_digit(*octet) {
            return text.split_at(place).0;
        }
    }
    text
}

/// Digits without the zeros that they begin with.
fn without_zeros(digits: &[u8]) -> &[u8]
    ensures { result.now ≡ without_zeros digits.now }
{
    let mut rest = digits;
    while let [b'0', after @ ..] = rest {
        rest = after;
    }
    rest
}

/// The order of numbers whose digits begin with no zero. The one of more digits is greater. If they
/// have as many, the first digits that differ decide.
fn digits_cmp(a: &[u8], b: &[u8]) -> Ordering
    ensures { result ≡ digits_cmp a.now b.now }
{
    match a.len().cmp(&b.len()) {
        Ordering::Equal => a.cmp(&b),
        order => order,
    }
}

/// The order of the numbers that two texts begin with. A text that begins with no digit is
/// infinite, which is greater than each number (RFC 4790, 9.1.1). The time is linear in the octets
/// of both.
pub(crate) fn number_cmp(a: &[u8], b: &[u8]) -> Ordering
    ensures { result ≡ number_cmp (number_of a.now) (number_of b.now) }
{
    let a = first_digits(a);
    let b = first_digits(b);
    match (a.is_empty(), b.is_empty()) {
        (true, true) => Ordering::Equal,
        (true, false) => Ordering::Greater,
        (false, true) => Ordering::Less,
        (false, false) => digits_cmp(without_zeros(a), without_zeros(b)),
    }
}
