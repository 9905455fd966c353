//! The value of a field, unfolded to one line (RFC 5322, 2.2.3).
ghost use Rattle.std.specs.Prelude.{◌≡◌, ◌≢◌, ◌≤◌, ◌++◌, IfNone, IfOk, IfSome, IsOkAnd, OnOk, [], true, drop, length, slice_range};
ghost use Rattle.std.specs.Cow.{IsBorrowedSlice, IsOwnedSlice, cow_slice_items};
ghost use Rattle.std.specs.List.{concat, take_while};
ghost use Rattle.std.specs.Str.Lines.{lines};
ghost use Rattle.message_text.specs.Blanks.{trim, trim_start};
ghost use Rattle.message_text.specs.Fields.{field_of, is_continuation};
ghost use Rattle.message_text.specs.view.Positions.{IsLineAt};
ghost use Rattle.message_text.specs.view.Spans.{IsSpan, group_at};

use crate::blanks::{trim, trim_end, trim_start};
use crate::fields::{FieldSpan, continues_at};
use crate::lines::{LineSpan, line_at};
use std::alloc::{AllocError, Global};
use std::borrow::CowSlice;

/// The line at `start`, if it continues the one before.
pub(crate) fn continuation_at(octets: &[u8], start: usize) -> Option<LineSpan>
    requires { start ≤ length octets.now }
    ensures none { IfNone result (take_while is_continuation (lines (drop start octets.now)) ≡ []) }
    ensures line { IfSome result (λ line. IsLineAt octets.now start line.end line.next) }
    ensures continues { IfSome result (λ line.
        is_continuation (slice_range octets.now start line.end) ≡ true) }
{
    if !continues_at(octets, start) {
        return None;
    }
    Some(line_at(octets, start))
}

/// The value of a field. It is borrowed exactly if the field stands on one line.
pub(crate) fn value_at(
    alloc: Global,
    octets: &[u8],
    span: FieldSpan,
) -> Result<CowSlice<'_, u8>, AllocError>
    requires { IsSpan octets.now span }
    ensures octets { IfOk result (λ value. cow_slice_items value
        ≡ (field_of (group_at octets.now span)).value) }
    ensures unfolded { (group_at octets.now span).continuations ≡ []
        → IsOkAnd result IsBorrowedSlice }
    ensures folded { (group_at octets.now span).continuations ≢ [] → IfOk result IsOwnedSlice }
{
    let first = &octets[span.value_start..span.end];
    if span.is_unfolded {
        return Ok(CowSlice::Borrowed(trim(first)));
    }
    let value = unfolded(alloc, octets, first, span.next)?;
    Ok(CowSlice::Owned(value))
}

/// A value that begins with `first` and goes on in the lines from `next` on, without outer spaces
/// and tabs.
pub(crate) fn unfolded(
    alloc: Global,
    octets: &[u8],
    first: &[u8],
    next: usize,
) -> Result<Vec<u8>, AllocError>
    requires { next ≤ length octets.now }
    ensures { IfOk result (λ value. value.items
        ≡ trim (first.now ++ concat (take_while is_continuation (lines (drop next octets.now))))) }
{
    let mut value = Vec::from_slice(alloc, trim_start(first))?;
    let mut start = next;
    while let Some(line) = continuation_at(octets, start) {
        push_trimmed(&mut value, &octets[start..line.end])?;
        start = line.next;
    }
    let len = trim_end(&value).len();
    value.truncate(len);
    Ok(value)
}

/// Adds a line to a value. If the value is empty, spaces and tabs at the start of the line are
/// dropped.
fn push_trimmed(value: &mut Vec<u8>, line: &[u8]) -> Result<(), AllocError>
    requires { trim_start value.old.items ≡ value.old.items }
    ensures { OnOk result (value.new.items ≡ trim_start (value.old.items ++ line.now)) }
{
    if value.is_empty() {
        value.extend_from_slice(trim_start(line))
    } else {
        value.extend_from_slice(line)
    }
}
