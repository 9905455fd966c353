//! Structured values with their comments and quoted strings told apart (RFC 2045, 5.1;
//! RFC 5322, 3.2.1 to 3.2.4).
ghost use Rattle.std.specs.Prelude.{◌≡◌, ◌+◌, ◌<◌, ◌≤◌, ◌^◌, ◌++◌, ◌∷◌, [], IfOk, OnOk, Some, length, option_to_list};
ghost use Rattle.mime_text.specs.Marks.{marks_at, marks_of};
ghost use Rattle.structured_text.specs.declared.state.LexerState.TheVariants.{InString, Outside};
ghost use Rattle.mime_text.specs.view.Marks.{marks_as};

use std::alloc::{AllocError, Global};
use structured_text::{LexerState, STRINGS_TOO};

/// The mark that an octet of a value leaves.
#[derive(Clone, Copy)]
pub(crate) enum ValueMark {
    /// An octet outside of quoted strings. A comment is one space.
    Plain(u8),
    /// A quote at an end of a quoted string.
    Quote,
    /// An octet that stands in a quoted string.
    Quoted(u8),
}

/// The mark of an octet outside of quoted strings and comments.
fn outer_mark(octet: u8) -> ValueMark
    ensures { marks_at Outside octet ≡ result ∷ [] }
{
    match octet {
        b'"' => ValueMark::Quote,
        b'(' => ValueMark::Plain(b' '),
        _ => ValueMark::Plain(octet),
    }
}

/// The mark of an octet of a quoted string, if it leaves one.
fn quoted_mark(octet: u8) -> Option<ValueMark>
    ensures { option_to_list result ≡ marks_at InString octet }
{
    match octet {
        b'"' => Some(ValueMark::Quote),
        b'\\' => None,
        _ => Some(ValueMark::Quoted(octet)),
    }
}

/// The mark of an octet, if it leaves one.
fn mark_at(spot: LexerState, octet: u8) -> Option<ValueMark>
    ensures { option_to_list result ≡ marks_at spot octet }
{
    match spot {
        LexerState::Outside => Some(outer_mark(octet)),
        LexerState::InString => quoted_mark(octet),
        LexerState::EscapedInString => Some(ValueMark::Quoted(octet)),
        LexerState::InComment(_)
        | LexerState::EscapedInComment(_)
        | LexerState::InLiteral
        | LexerState::EscapedInLiteral => None,
    }
}

/// Adds the mark of an octet, if it leaves one.
fn push_mark(marks: &mut Vec<ValueMark>, spot: LexerState, octet: u8) -> Result<(), AllocError>
    ensures { OnOk result (marks.new.items ≡ marks.old.items ++ marks_at spot octet) }
{
    match mark_at(spot, octet) {
        Some(mark) => Ok(marks.push(mark)?),
        None => Ok(()),
    }
}

/// The marks of a value, or none where a comment or a quoted string isn't closed. A comment is a
/// space, since it may stand between any two words. Comments and quoted strings may have any
/// octets, as in real mail.
pub(crate) fn marks_of(alloc: Global, text: &[u8]) -> Result<Option<Vec<ValueMark>>, AllocError>
    ensures { IfOk result (λ marks. marks_as marks ≡ marks_of text.now) }
{
    let mut marks = Vec::new(alloc);
    let mut spot = LexerState::Outside;
    for octet in text {
        push_mark(&mut marks, spot, *octet)?;
        spot = spot.after(STRINGS_TOO, *octet);
    }
    if spot.is_outside() {
        Ok(Some(marks))
    } else {
        Ok(None)
    }
}
