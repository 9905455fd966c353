//! The pieces of a marked value, and the address in a piece (RFC 5322, 3.4 and 4.4).
ghost use Rattle.std.specs.Prelude.{◌≡◌, IfOk};
ghost use Rattle.std.specs.List.{before_first};
ghost use Rattle.message_text.specs.Addresses as spec;

use crate::marks::{AddressMark, Marked};
use octets::is_white;
use std::alloc::{AllocError, Global};

/// Whether a marked octet is this one and free. A free octet is outside of quoted strings, comments
/// and literals, and no sign of an angle.
pub(crate) fn is_free(octet: u8, marked: Marked) -> bool
    ensures { result ≡ spec.is_free octet marked }
{
    matches!(marked.mark, AddressMark::Plain) && marked.octet == octet
}

/// Whether a marked octet is this one, free and outside of angles too.
fn is_bare(octet: u8, marked: Marked) -> bool
    ensures { result ≡ spec.is_bare octet marked }
{
    is_free(octet, marked) && !marked.in_angle
}

/// Whether a marked octet ends a piece.
pub(crate) fn separates(marked: Marked) -> bool
    ensures { result ≡ spec.separates marked }
{
    is_bare(b',', marked) || is_bare(b';', marked)
}

/// The piece without the name of a group, which the last bare colon ends.
fn without_group(piece: &[Marked]) -> &[Marked]
    ensures { result.now ≡ spec.without_group piece.now }
{
    let mut start = piece.len();
    while start > 0 && !is_bare(b':', piece[start - 1]) {
        start -= 1;
    }
    &piece[start..]
}

fn without_comments(alloc: Global, piece: &[Marked]) -> Result<Vec<Marked>, AllocError>
    ensures { IfOk result (λ kept. kept.items ≡ spec.without_comments piece.now) }
{
    piece
        .iter()
        .copied()
        .filter(|marked| !matches!(marked.mark, AddressMark::Comment))
        .collect(alloc)
}

/// Whether a marked octet is white space outside of quoted strings.
fn is_gap(marked: Marked) -> bool
    ensures { result ≡ spec.is_gap marked }
{
    is_white(marked.octet) && !matches!(marked.mark, AddressMark::Quoted)
}

/// Whether the first octet after white space is a free `@`.
fn begins_route(inside: &[Marked]) -> bool
    ensures { result ≡ spec.begins_route inside.now }
{
    for marked in inside {
        if !is_gap(*marked) {
            return is_free(b'@', *marked);
        }
    }
    false
}

/// The inside of an angle without its source route, which ends with the first free colon.
fn without_route(inside: &[Marked]) -> &[Marked]
    ensures { result.now ≡ spec.without_route inside.now }
{
    if !begins_route(inside) {
        return inside;
    }
    match inside.iter().position(|marked| is_free(b':', *marked)) {
        Some(colon) => &inside[colon + 1..],
        None => inside,
    }
}

/// The inside of the first angle without its source route, or the piece if it has no angle.
fn in_first_angle(piece: &[Marked]) -> &[Marked]
    ensures { result.now ≡ spec.in_first_angle piece.now }
{
    let opens = |marked: &Marked| matches!(marked.mark, AddressMark::AngleOpen);
    let Some(open) = piece.iter().position(opens) else {
        return piece;
    };
    without_route(up_to_close(&piece[open + 1..]))
}

/// The octets before the first sign that closes an angle, or all if there is none.
fn up_to_close(inside: &[Marked]) -> &[Marked]
    ensures { result.now ≡ before_first (λ m. spec.closes_angle m.mark) inside.now }
{
    let closes = |marked: &Marked| matches!(marked.mark, AddressMark::AngleClose);
    match inside.iter().position(closes) {
        Some(close) => &inside[..close],
        None => inside,
    }
}

/// Whether a marked octet is neither white space outside of quoted strings nor a sign of one.
fn stays(marked: Marked) -> bool
    ensures { result ≡ spec.stays marked }
{
    !is_gap(marked) && !matches!(marked.mark, AddressMark::QuoteSign)
}

/// The marked octets of the address in a piece.
pub(crate) fn address_marks(alloc: Global, piece: &[Marked]) -> Result<Vec<Marked>, AllocError>
    ensures { IfOk result (λ kept. kept.items ≡ spec.address_marks piece.now) }
{
    let kept = without_comments(alloc, without_group(piece))?;
    in_first_angle(&kept)
        .iter()
        .copied()
        .filter(|marked| stays(*marked))
        .collect(alloc)
}
