//! The places of the header fields of a message (RFC 5322, 2.2).
ghost use Rattle.std.specs.Prelude.{◌≡◌, ◌<◌, ◌++◌, [], IfNone, IfOk, IfSome, IsOk, OnOk, Some, false, true, length, map, option_to_list, slice_get, slice_range, drop};
ghost use Rattle.std.specs.List.{All};
ghost use Rattle.std.specs.Str.Lines.{lines};
ghost use Rattle.message_text.specs.Fields.{begins_field, field_groups, fields_of, is_continuation, is_name};
ghost use Rattle.message_text.specs.view.Heads.{IsHead};
ghost use Rattle.message_text.specs.view.Positions.{IsLineAt};
ghost use Rattle.message_text.specs.view.Spans.{AreSpans, IsSpan, continues, field_here, group_at};

use crate::blanks::trim_end;
use crate::lines::{LineSpan, line_at};
use crate::names::name_hash;
use memchr::memchr;
use octets::{is_blank, is_visible};
use std::alloc::{AllocError, Global};

/// The places of a field among the octets of its message.
#[derive(Clone, Copy)]
pub(crate) struct FieldSpan {
    /// Where its first line begins, with its name.
    pub(crate) start: usize,
    /// Where its name ends.
    pub(crate) name_end: usize,
    /// The place after its colon.
    pub(crate) value_start: usize,
    /// Where its first line ends.
    pub(crate) end: usize,
    /// Where the line after its first one begins.
    pub(crate) next: usize,
    /// Whether no line continues its first one.
    pub(crate) is_unfolded: bool,
    /// The hash of its name.
    pub(crate) name_hash: u32,
}

/// The places of a field's name and colon in its first line.
#[derive(Clone, Copy)]
struct FieldHead {
    name_len: usize,
    colon: usize,
}

/// Whether a line stands at `start` that continues the one before.
pub(crate) fn continues_at(octets: &[u8], start: usize) -> bool
    ensures is { result ≡ continues (lines (drop start octets.now)) }
    ensures within { result ≡ true → start < length octets.now }
{
    match octets.get(start) {
        Some(octet) => is_blank(*octet),
        None => false,
    }
}

/// Whether the line begins with space or tab, so that it continues the line before.
pub(crate) fn is_continuation(line: &[u8]) -> bool
    ensures { result ≡ is_continuation line.now }
{
    match line {
        [first, ..] => is_blank(*first),
        [] => false,
    }
}

/// Whether the text may name a field: one or more printable octets that aren't spaces.
fn is_name(text: &[u8]) -> bool
    ensures { result ≡ is_name text.now }
{
    !text.is_empty() && text.iter().all(|octet| is_visible(*octet))
}

/// The name and the colon of a field's first line, or none if no field begins so.
fn head_of(line: &[u8]) -> Option<FieldHead>
    ensures none { IfNone result (begins_field line.now ≡ false) }
    ensures some { IfSome result (λ head. IsHead line.now head.name_len head.colon) }
{
    let colon = memchr(b':', line)?;
    let name = trim_end(&line[..colon]);
    if !is_name(name) {
        return None;
    }
    Some(FieldHead {
        name_len: name.len(),
        colon,
    })
}

/// The field whose first line stands at `start`, or none if no field begins there.
fn span_of(octets: &[u8], start: usize, line: LineSpan) -> Option<FieldSpan>
    requires { IsLineAt octets.now start line.end line.next }
    ensures groups { map (group_at octets.now) (option_to_list result)
        ≡ field_here (slice_range octets.now start line.end) (lines (drop line.next octets.now)) }
    ensures span { IfSome result (IsSpan octets.now) }
{
    let first = &octets[start..line.end];
    if is_continuation(first) {
        return None;
    }
    let head = head_of(first)?;
    Some(FieldSpan {
        start,
        name_end: start + head.name_len,
        value_start: start + head.colon + 1,
        end: line.end,
        next: line.next,
        is_unfolded: !continues_at(octets, line.next),
        name_hash: name_hash(&octets[start..start + head.name_len]),
    })
}

/// Adds the field whose first line stands at `start`, if a field begins there.
fn push_span(
    spans: &mut Vec<FieldSpan>,
    octets: &[u8],
    start: usize,
    line: LineSpan,
) -> Result<(), AllocError>
    requires { IsLineAt octets.now start line.end line.next }
    ensures groups { OnOk result (map (group_at octets.now) spans.new.items
        ≡ map (group_at octets.now) spans.old.items
        ++ field_here (slice_range octets.now start line.end) (lines (drop line.next octets.now))) }
    ensures each { OnOk result (All (IsSpan octets.now) spans.old.items
        → All (IsSpan octets.now) spans.new.items) }
    ensures no_field { field_here (slice_range octets.now start line.end)
        (lines (drop line.next octets.now)) ≡ [] → IsOk result }
{
    if let Some(span) = span_of(octets, start, line) {
        spans.push(span)?;
    }
    Ok(())
}

/// The places of a message's fields, in order. The body isn't read.
pub(crate) fn spans_of(alloc: Global, octets: &[u8]) -> Result<Vec<FieldSpan>, AllocError>
    ensures spans { IfOk result (λ spans. AreSpans octets.now spans.items) }
    ensures no_field { field_groups octets.now ≡ [] → IsOk result }
{
    let mut spans = Vec::new(alloc);
    let mut start = 0;
    while start < octets.len() {
        let line = line_at(octets, start);
        if line.end == start {
            break;
        }
        push_span(&mut spans, octets, start, line)?;
        start = line.next;
    }
    Ok(spans)
}

/// The places of field `i`.
pub(crate) fn span_in(octets: &[u8], spans: &[FieldSpan], i: usize) -> FieldSpan
    requires all { AreSpans octets.now spans.now }
    requires within { i < length (fields_of octets.now) }
    ensures span { IsSpan octets.now result }
    ensures group { slice_get (field_groups octets.now) i ≡ Some (group_at octets.now result) }
{
    spans[i]
}
