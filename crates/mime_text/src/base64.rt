//! Base64 (RFC 2045, 6.8).
ghost use Rattle.std.specs.Prelude.{◌≡◌, ◌++◌, ◌∷◌, [], ◌<◌, IfOk, IfSome, OnOk, length};
ghost use Rattle.std.specs.List.{All};
ghost use Rattle.mime_text.specs.Base64.{base64_octets, digit_value, digits_of, first_octet, second_octet, third_octet, whole_octets};

use std::alloc::{AllocError, Global};

/// The number of a digit of the alphabet; none for another octet.
fn digit_value(octet: u8) -> Option<u8>
    ensures is { result ≡ digit_value octet }
    ensures bits { IfSome result (λ digit. digit < 64) }
{
    match octet {
        b'A'..=b'Z' => Some(octet - b'A'),
        b'a'..=b'z' => Some(octet - b'a' + 26),
        b'0'..=b'9' => Some(octet - b'0' + 52),
        b'+' => Some(62),
        b'/' => Some(63),
        _ => None,
    }
}

/// The numbers of the digits before the first `=`. Other octets are skipped.
fn digits_of(alloc: Global, text: &[u8]) -> Result<Vec<u8>, AllocError>
    ensures digits { IfOk result (λ digits. digits.items ≡ digits_of text.now) }
    ensures bits { IfOk result (λ digits. All (λ d. d < 64) digits.items) }
{
    text.iter()
        .take_while(|octet| **octet != b'=')
        .filter_map(|octet| digit_value(*octet))
        .collect(alloc)
}

/// The first octet of four digits.
fn first_octet(a: u8, b: u8) -> u8
    requires a_bits { a < 64 }
    requires b_bits { b < 64 }
    ensures { result ≡ first_octet a b }
{
    4 * a + b / 16
}

/// The second octet of four digits.
fn second_octet(b: u8, c: u8) -> u8
    requires c_bits { c < 64 }
    ensures { result ≡ second_octet b c }
{
    16 * (b % 16) + c / 4
}

/// The third octet of four digits.
fn third_octet(c: u8, d: u8) -> u8
    requires d_bits { d < 64 }
    ensures { result ≡ third_octet c d }
{
    64 * (c % 4) + d
}

/// Adds the octets of four digits.
fn push_three(octets: &mut Vec<u8>, a: u8, b: u8, c: u8, d: u8) -> Result<(), AllocError>
    requires a_bits { a < 64 }
    requires b_bits { b < 64 }
    requires c_bits { c < 64 }
    requires d_bits { d < 64 }
    ensures { OnOk result (octets.new.items
        ≡ octets.old.items ++ first_octet a b ∷ second_octet b c ∷ third_octet c d ∷ []) }
{
    let three = [first_octet(a, b), second_octet(b, c), third_octet(c, d)];
    octets.extend_from_slice(&three)
}

/// Adds the whole octets of fewer than four digits.
fn push_last(octets: &mut Vec<u8>, digits: &[u8]) -> Result<(), AllocError>
    requires bits { All (λ d. d < 64) digits.now }
    requires few { length digits.now < 4 }
    ensures { OnOk result (octets.new.items ≡ octets.old.items ++ whole_octets digits.now) }
{
    match digits {
        [a, b, c] => Ok(octets.extend_from_slice(&[first_octet(*a, *b), second_octet(*b, *c)])?),
        [a, b] => Ok(octets.push(first_octet(*a, *b))?),
        _ => Ok(()),
    }
}

/// The octets of digits. Only whole octets are kept.
fn whole_octets(alloc: Global, digits: &[u8]) -> Result<Vec<u8>, AllocError>
    requires { All (λ d. d < 64) digits.now }
    ensures { IfOk result (λ octets. octets.items ≡ whole_octets digits.now) }
{
    let mut octets = Vec::new(alloc);
    let mut rest = digits;
    while let [a, b, c, d, more @ ..] = rest {
        push_three(&mut octets, *a, *b, *c, *d)?;
        rest = more;
    }
    push_last(&mut octets, rest)?;
    Ok(octets)
}

/// Decodes base64 up to the first padding. Octets outside the alphabet are skipped.
pub(crate) fn base64_octets(alloc: Global, text: &[u8]) -> Result<Vec<u8>, AllocError>
    ensures { IfOk result (λ octets. octets.items ≡ base64_octets text.now) }
{
    let digits = digits_of(alloc, text)?;
    whole_octets(alloc, &digits)
}
