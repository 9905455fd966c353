//! Quoted-printable (RFC 2045, 6.7).
ghost use Rattle.std.specs.Prelude.{◌≡◌, ◌++◌, [], ◌∷◌, if◌then◌else◌, ◌<◌, ◌≤◌, IfOk, MatchOption, None, OnOk, Some, drop, length, option_to_list, slice_index};
ghost use Rattle.std.specs.List.{prefix_len};
ghost use Rattle.octets.specs.Hex.{hex_octet};
ghost use Rattle.octets.specs.Octet.{is_blank};
ghost use Rattle.mime_text.specs.QuotedPrintable.{escape_at, is_at_end, octets_of_pieces, pieces_of, quoted_octets, without_padding};

use crate::lines::end_len;
use octets::{hex_octet, is_blank};
use std::alloc::{AllocError, Global};

/// The number of blanks at the start of a text.
fn blank_len(text: &[u8]) -> usize
    ensures { result ≡ prefix_len is_blank text.now }
{
    text.iter().take_while(|octet| is_blank(**octet)).count()
}

/// Whether a text is empty or begins with a line end.
fn is_at_end(text: &[u8]) -> bool
    ensures { result ≡ is_at_end text.now }
{
    text.is_empty() || end_len(text) > 0
}

/// Adds blanks, unless a line end or the end of the text follows them.
fn push_blanks(kept: &mut Vec<u8>, blanks: &[u8], rest: &[u8]) -> Result<(), AllocError>
    ensures { OnOk result
        (kept.new.items ≡ kept.old.items ++ (if is_at_end rest.now then [] else blanks.now)) }
{
    if is_at_end(rest) {
        return Ok(());
    }
    kept.extend_from_slice(blanks)?;
    Ok(())
}

/// Adds the blanks at the start of a text, unless they end a line or the text. Where no blank
/// stands there, adds the first octet. Answers the rest of the text.
fn push_stretch<'t>(kept: &mut Vec<u8>, text: &'t [u8]) -> Result<&'t [u8], AllocError>
    requires { 0 < length text.now }
    ensures kept { IfOk result (λ rest. kept.new.items ++ without_padding rest.now
        ≡ kept.old.items ++ without_padding text.now) }
    ensures shorter { IfOk result (λ rest. length rest.now < length text.now) }
{
    let (blanks, rest) = text.split_at(blank_len(text));
    if blanks.is_empty() {
        kept.push(text[0])?;
        return Ok(&text[1..]);
    }
    push_blanks(kept, blanks, rest)?;
    Ok(rest)
}

/// A text without the blanks at the ends of its lines.
fn without_padding(alloc: Global, text: &[u8]) -> Result<Vec<u8>, AllocError>
    ensures { IfOk result (λ kept. kept.items ≡ without_padding text.now) }
{
    let mut kept = Vec::new(alloc);
    let mut rest = text;
    while !rest.is_empty() {
        rest = push_stretch(&mut kept, rest)?;
    }
    Ok(kept)
}

/// The octet of the escape whose two digits begin a text, and the text after them. None where
/// they aren't hexadecimal digits.
fn escape_at(text: &[u8]) -> Option<(u8, &[u8])>
    ensures { MatchOption result (escape_at text.now ≡ None)
        (λ found. (2 ≤ length text.now) × (found.1.now ≡ drop 2 text.now)
        × (hex_octet (slice_index text.now 0) (slice_index text.now 1) ≡ Some found.0)) }
{
    let [high, low, rest @ ..] = text else {
        return None;
    };
    Some((hex_octet(*high, *low)?, rest))
}

/// The octet that the first piece stands for, if it stands for one, and the text after the piece.
fn next_piece(first: u8, text: &[u8]) -> (Option<u8>, &[u8])
    ensures is { octets_of_pieces (pieces_of (first ∷ text.now))
        ≡ option_to_list result.0 ++ octets_of_pieces (pieces_of result.1.now) }
    ensures within { length result.1.now ≤ length text.now }
{
    if first != b'=' {
        return (Some(first), text);
    }
    let end = end_len(text);
    if end > 0 {
        return (None, &text[end..]);
    }
    match escape_at(text) {
        Some((octet, rest)) => (Some(octet), rest),
        None => (Some(first), text),
    }
}

/// The octets that the pieces of a text stand for.
fn unquoted(alloc: Global, text: &[u8]) -> Result<Vec<u8>, AllocError>
    ensures { IfOk result (λ octets. octets.items ≡ octets_of_pieces (pieces_of text.now)) }
{
    let mut octets = Vec::new(alloc);
    let mut left = text;
    while let [first, rest @ ..] = left {
        let (octet, rest) = next_piece(*first, rest);
        if let Some(octet) = octet {
            octets.push(octet)?;
        }
        left = rest;
    }
    Ok(octets)
}

/// The octets that a content in quoted-printable stands for.
pub(crate) fn quoted_octets(alloc: Global, text: &[u8]) -> Result<Vec<u8>, AllocError>
    ensures { IfOk result (λ octets. octets.items ≡ quoted_octets text.now) }
{
    let kept = without_padding(alloc, text)?;
    unquoted(alloc, &kept)
}
