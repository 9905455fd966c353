//! The octets that encoded characters stand for.
ghost use Rattle.std.specs.Prelude.{◌≡◌, true, false, IfOk};
ghost use Rattle.encoded_characters.specs.Value.{character_of, octets_of_digits, octets_of_sequence, pair_octet};
ghost use Rattle.encoded_characters.specs.view.Sequence.{grown, if_right, sequence_of};

use crate::item::next_item;
use crate::sequence::{EncodedSequence, is_hex};
use octets::hex_octet;
use std::alloc::AllocError;

/// The octet of one digit or of two.
fn pair_octet(digits: &[u8]) -> Option<u8>
    ensures { result ≡ pair_octet digits.now }
{
    match digits {
        [low] => hex_octet(b'0', *low),
        [high, low] => hex_octet(*high, *low),
        _ => None,
    }
}

/// The greatest number of a character.
const MAX_CHARACTER: u32 = 0x10_FFFF;

/// The character whose number the digits are. A number that is too great stays so with more digits,
/// so the rest isn't read.
fn character(digits: &[u8]) -> Option<char>
    ensures { result ≡ character_of digits.now }
{
    let mut number: u32 = 0;
    for digit in digits {
        let value = hex_octet(b'0', *digit)?;
        number = 16 * number + u32::from(value);
        if number > MAX_CHARACTER {
            return None;
        }
    }
    char::from_u32(number)
}

/// Adds the octet of one digit or of two, and says whether there is one.
fn push_octet(octets: &mut Vec<u8>, digits: &[u8]) -> Result<bool, AllocError>
    ensures { IfOk result (λ pushed. if_right pushed octets.new.items
        ≡ grown octets.old.items (octets_of_digits true digits.now)) }
{
    let Some(octet) = pair_octet(digits) else {
        return Ok(false);
    };
    octets.push(octet)?;
    Ok(true)
}

/// Adds the character whose number the digits are, in UTF-8, and says whether there is one.
fn push_character(octets: &mut Vec<u8>, digits: &[u8]) -> Result<bool, AllocError>
    ensures { IfOk result (λ pushed. if_right pushed octets.new.items
        ≡ grown octets.old.items (octets_of_digits false digits.now)) }
{
    let Some(character) = character(digits) else {
        return Ok(false);
    };
    let mut buffer = [0; 4];
    octets.extend_from_slice(character.encode_utf8(&mut buffer).as_bytes())?;
    Ok(true)
}

/// Adds the octets that digits stand for, and says whether there are any.
fn push_digits(octets: &mut Vec<u8>, hex: bool, digits: &[u8]) -> Result<bool, AllocError>
    ensures { IfOk result (λ pushed. if_right pushed octets.new.items
        ≡ grown octets.old.items (octets_of_digits hex digits.now)) }
{
    if hex {
        push_octet(octets, digits)
    } else {
        push_character(octets, digits)
    }
}

/// Adds the octets that a sequence stands for, and says whether each of its numbers has some.
pub(crate) fn push_sequence(
    octets: &mut Vec<u8>,
    sequence: &EncodedSequence<'_>,
) -> Result<bool, AllocError>
    ensures { IfOk result (λ pushed. if_right pushed octets.new.items
        ≡ grown octets.old.items (octets_of_sequence (sequence_of sequence.now))) }
{
    let hex = is_hex(sequence.word);
    let mut left = sequence.inside;
    while let Some((item, rest)) = next_item(left) {
        if !push_digits(octets, hex, item.digits)? {
            return Ok(false);
        }
        left = rest;
    }
    Ok(true)
}
