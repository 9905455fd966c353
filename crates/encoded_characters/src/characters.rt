//! Texts with their encoded characters replaced.
ghost use Rattle.std.specs.Prelude.{◌≡◌, false, IfOk, IfSome, IsOk};
ghost use Rattle.std.specs.Cow.{IsBorrowedSlice};
ghost use Rattle.encoded_characters.specs.Scan.{characters_replaced, has_sequence};
ghost use Rattle.encoded_characters.specs.view.Sequence.{octets_of, octets_shown};

use crate::sequence::{SIGN_COUNT, sequence_at};
use crate::value::push_sequence;
use std::alloc::{AllocError, Global};
use std::borrow::CowSlice;

/// Whether a text has encoded characters.
fn has_sequence(text: &[u8]) -> bool
    ensures { result ≡ has_sequence text.now }
{
    let mut left = text;
    while !left.is_empty() {
        if sequence_at(left).is_some() {
            return true;
        }
        let (_, after) = left.split_at(1);
        left = after;
    }
    false
}

/// A text with its encoded characters replaced. None where one of them isn't a character.
fn all_replaced(alloc: Global, text: &[u8]) -> Result<Option<Vec<u8>>, AllocError>
    ensures { IfOk result (λ found. octets_of found ≡ characters_replaced text.now) }
{
    let mut octets = Vec::new(alloc);
    let mut left = text;
    while !left.is_empty() {
        match sequence_at(left) {
            None => {
                let (octet, after) = left.split_at(1);
                octets.extend_from_slice(octet)?;
                left = after;
            }
            Some(sequence) => {
                let (_, after) = left.split_at(
                    sequence.word.len() + sequence.inside.len() + SIGN_COUNT,
                );
                if !push_sequence(&mut octets, &sequence)? {
                    return Ok(None);
                }
                left = after;
            }
        }
    }
    Ok(Some(octets))
}

/// The text with its encoded characters (RFC 5228, 2.4.2.4) replaced. `${hex:..}` stands for the
/// octets of these numbers, and `${unicode:..}` for these characters in UTF-8. Any other text stays
/// as it is written. The octets put in aren't looked at again.
///
/// The result is `None` where a number isn't that of a character: from D800 to DFFF, or above
/// 10FFFF. Memory is taken only where the text has encoded characters; else the result is borrowed.
pub fn replaced(alloc: Global, text: &[u8]) -> Result<Option<CowSlice<'_, u8>>, AllocError>
    ensures is { IfOk result (λ found. octets_shown found ≡ characters_replaced text.now) }
    ensures borrowed { has_sequence text.now ≡ false
        → IfOk result (λ found. IfSome found IsBorrowedSlice) }
    ensures none { has_sequence text.now ≡ false → IsOk result }
{
    if !has_sequence(text) {
        return Ok(Some(CowSlice::Borrowed(text)));
    }
    match all_replaced(alloc, text)? {
        None => Ok(None),
        Some(octets) => Ok(Some(CowSlice::Owned(octets))),
    }
}
