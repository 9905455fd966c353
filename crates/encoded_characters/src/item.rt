//! The octets between the `:` and the `}` of encoded characters: runs of hexadecimal
//! digits with blanks between.
ghost use Rattle.std.specs.Prelude.{◌≡◌, ◌<◌, true, not, nat_eq, IfSome, MatchOption, length};
ghost use Rattle.std.specs.List.{list_all, prefix_len};
ghost use Rattle.encoded_characters.specs.Scan.{inside_of};
ghost use Rattle.encoded_characters.specs.Sequence.{are_blanks, is_hex_digit, is_inside, is_item};
ghost use Rattle.encoded_characters.specs.view.Sequence.{item_before, item_of, last_alone};

use octets::{hex_octet, is_blank};

/// A run of digits, with the octets before it.
#[derive(Clone, Copy)]
pub(crate) struct EncodedItem<'a> {
    /// The octets before the digits.
    pub(crate) blanks: &'a [u8],
    /// The digits.
    pub(crate) digits: &'a [u8],
}

/// Whether an octet is a hexadecimal digit, in either case.
pub(crate) fn is_hex_digit(octet: u8) -> bool
    ensures { result ≡ is_hex_digit octet }
{
    hex_octet(b'0', octet).is_some()
}

/// The number of octets before the first digit.
fn gap_len(octets: &[u8]) -> usize
    ensures { result ≡ prefix_len (λ octet. not (is_hex_digit octet)) octets.now }
{
    octets
        .iter()
        .take_while(|octet| !is_hex_digit(**octet))
        .count()
}

/// The number of digits with which octets begin.
fn digit_count(octets: &[u8]) -> usize
    ensures { result ≡ prefix_len is_hex_digit octets.now }
{
    octets
        .iter()
        .take_while(|octet| is_hex_digit(**octet))
        .count()
}

/// The first run of digits with the octets before it, and the octets after it. None where
/// there is no digit.
pub(crate) fn next_item(octets: &[u8]) -> Option<(EncodedItem<'_>, &[u8])>
    ensures is { MatchOption result (inside_of octets.now ≡ last_alone octets.now)
        (λ found. inside_of octets.now ≡ item_before (item_of found.0) (inside_of found.1.now)) }
    ensures some { IfSome result (λ found. 0 < length found.0.digits.now) }
    ensures digits { IfSome result (λ found. list_all is_hex_digit found.0.digits.now ≡ true) }
    ensures shorter { IfSome result (λ found. length found.1.now < length octets.now) }
{
    let (blanks, further) = octets.split_at(gap_len(octets));
    let (digits, rest) = further.split_at(digit_count(further));
    if digits.is_empty() {
        return None;
    }
    Some((EncodedItem { blanks, digits }, rest))
}

/// The octets after the blank with which octets begin, if they begin with one.
#[tactic(auto, unfolding(crate::specs::Sequence::are_blanks))]
fn after_blank(octets: &[u8]) -> Option<&[u8]>
    ensures is { MatchOption result (are_blanks octets.now ≡ nat_eq (length octets.now) 0)
        (λ rest. are_blanks octets.now ≡ are_blanks rest.now) }
    ensures shorter { IfSome result (λ rest. length rest.now < length octets.now) }
{
    match octets {
        [b' ' | b'\t', rest @ ..] => Some(rest),
        [b'\r', b'\n', rest @ ..] => Some(rest),
        _ => None,
    }
}

/// Whether octets are blanks: spaces, tabs, and CRs each with an LF after it.
fn are_blanks(octets: &[u8]) -> bool
    ensures { result ≡ are_blanks octets.now }
{
    let mut left = octets;
    while let Some(rest) = after_blank(left) {
        left = rest;
    }
    left.is_empty()
}

/// Whether octets before digits are blanks, and the digits are no more than two where they
/// stand for an octet.
fn is_item(hex: bool, item: &EncodedItem<'_>) -> bool
    requires some { 0 < length item.now.digits.now }
    requires digits { list_all is_hex_digit item.now.digits.now ≡ true }
    ensures { result ≡ is_item hex (item_of item.now) }
{
    are_blanks(item.blanks) && (!hex || item.digits.len() <= 2)
}

/// Whether the octets between `:` and `}` are those of a sequence.
pub(crate) fn is_inside(hex: bool, inside: &[u8]) -> bool
    ensures { result ≡ is_inside hex (inside_of inside.now) }
{
    let mut any = false;
    let mut left = inside;
    while let Some((item, rest)) = next_item(left) {
        if !is_item(hex, &item) {
            return false;
        }
        any = true;
        left = rest;
    }
    any && are_blanks(left)
}
