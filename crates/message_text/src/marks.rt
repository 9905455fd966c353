//! The octets of a value, each marked with the construct in which it stands (RFC 5322, 3.2 and
//! 3.4).
ghost use Rattle.std.specs.Prelude.{◌≡◌, ◌≤◌, ◌<◌, ◌+◌, ◌^◌, IfOk};
ghost use Rattle.message_text.specs.Addresses as spec;
ghost use Rattle.structured_text.specs.Structure.{depth_of};

use std::alloc::{AllocError, Global};
use structured_text::{ALL_BRACKETS, LexerState};

/// The role of an octet of an address list, or the construct in which it stands.
#[derive(Clone, Copy)]
pub(crate) enum AddressMark {
    /// An octet outside of quoted strings, comments and literals that stands for itself.
    Plain,
    /// The sign that opens an angle.
    AngleOpen,
    /// The sign that closes it.
    AngleClose,
    /// A quote sign, or a backslash that protects the next octet of a quoted string.
    QuoteSign,
    /// An octet of a quoted string that stands for itself.
    Quoted,
    /// An octet of a comment, its signs included.
    Comment,
    /// An octet of a literal, its brackets included.
    Literal,
}

/// The whole state of the lexer before an octet of a value.
#[derive(Clone, Copy)]
pub(crate) struct Surroundings {
    /// The construct that is open.
    pub(crate) state: LexerState,
    /// Whether an angle is open.
    pub(crate) in_angle: bool,
}

/// An octet with its mark.
#[derive(Clone, Copy)]
pub(crate) struct Marked {
    pub(crate) octet: u8,
    pub(crate) mark: AddressMark,
    /// Whether an angle was open before it.
    pub(crate) in_angle: bool,
}

/// The mark of an octet outside of quoted strings, comments and literals.
fn free_mark(in_angle: bool, octet: u8) -> AddressMark
    ensures { result ≡ spec.free_mark in_angle octet }
{
    match octet {
        b'"' => AddressMark::QuoteSign,
        b'(' => AddressMark::Comment,
        b'[' => AddressMark::Literal,
        b'<' if !in_angle => AddressMark::AngleOpen,
        b'>' if in_angle => AddressMark::AngleClose,
        _ => AddressMark::Plain,
    }
}

/// The mark of an octet in a quoted string. A backslash that ends the value protects nothing.
fn quoted_mark(is_last: bool, octet: u8) -> AddressMark
    ensures { result ≡ spec.quoted_mark is_last octet }
{
    if octet == b'"' || (octet == b'\\' && !is_last) {
        AddressMark::QuoteSign
    } else {
        AddressMark::Quoted
    }
}

/// The mark of an octet in a state.
fn mark_at(spot: Surroundings, is_last: bool, octet: u8) -> AddressMark
    ensures { result ≡ spec.mark_at spot is_last octet }
{
    match spot.state {
        LexerState::Outside => free_mark(spot.in_angle, octet),
        LexerState::InString => quoted_mark(is_last, octet),
        LexerState::EscapedInString => AddressMark::Quoted,
        LexerState::InComment(_) | LexerState::EscapedInComment(_) => AddressMark::Comment,
        LexerState::InLiteral | LexerState::EscapedInLiteral => AddressMark::Literal,
    }
}

/// Whether an angle is open after an octet.
fn angle_after(state: LexerState, in_angle: bool, octet: u8) -> bool
    ensures { result ≡ spec.angle_after state in_angle octet }
{
    match state {
        LexerState::Outside => match octet {
            b'<' => true,
            b'>' => false,
            _ => in_angle,
        },
        LexerState::InComment(_)
        | LexerState::EscapedInComment(_)
        | LexerState::InString
        | LexerState::EscapedInString
        | LexerState::InLiteral
        | LexerState::EscapedInLiteral => in_angle,
    }
}

/// The whole state after an octet.
fn surroundings_after(spot: Surroundings, octet: u8) -> Surroundings
    requires { depth_of spot.state < 2 ^ 63 }
    ensures spot { result ≡ spec.surroundings_after spot octet }
    ensures depth { depth_of result.state ≤ depth_of spot.state + 1 }
{
    Surroundings {
        state: spot.state.after(ALL_BRACKETS, octet),
        in_angle: angle_after(spot.state, spot.in_angle, octet),
    }
}

/// The octets of a value with their marks.
pub(crate) fn marks_of(alloc: Global, value: &[u8]) -> Result<Vec<Marked>, AllocError>
    ensures { IfOk result (λ marked. marked.items ≡ spec.marks_of value.now) }
{
    let mut marked = Vec::new(alloc);
    let mut spot = Surroundings {
        state: LexerState::Outside,
        in_angle: false,
    };
    for (place, octet) in value.iter().enumerate() {
        marked.push(Marked {
            octet: *octet,
            mark: mark_at(spot, place + 1 == value.len(), *octet),
            in_angle: spot.in_angle,
        })?;
        spot = surroundings_after(spot, *octet);
    }
    Ok(marked)
}
