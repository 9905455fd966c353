//! A multipart's content, cut by its delimiters (RFC 2046, 5.1.1).
ghost use Rattle.std.specs.Prelude.{◌≡◌, ◌+◌, ◌-◌, ◌++◌, ◌<◌, ◌≤◌, [], IfOk, List, codes, length, map, take, ℕ};
ghost use Rattle.std.specs.Option.{option_map};
ghost use Rattle.mime_text.specs.Multipart.{content_cut, is_padded, prologue_text};
ghost use Rattle.mime_text.specs.Lines.{without_end};
ghost use Rattle.std.specs.List.{list_all};
ghost use Rattle.octets.specs.Octet.{is_blank};
ghost use Rattle.mime_text.specs.view.Cuts.{ArePieces, IsBoundary, StopsAt, epilogue_at, kind_of, left_after, parts_at};

use crate::lines::{next_line, without_end};
use octets::is_blank;
use std::alloc::{AllocError, Global};

/// The beginnings of the lines that have a boundary.
#[derive(Drop)]
struct Boundary {
    /// The beginning of a delimiter: `--` and the boundary.
    delimiter: Vec<u8>,
    /// The beginning of a closing line: `--`, the boundary and `--`.
    closing: Vec<u8>,
}

/// The kind of a line in a multipart.
#[derive(Clone, Copy)]
enum BoundaryKind {
    /// A line that begins a part.
    Delimiter,
    /// A line that ends the last part.
    Closing,
    /// Any other line.
    Inner,
}

/// A copy of a text with another after it.
fn joined(alloc: Global, front: &[u8], back: &[u8]) -> Result<Vec<u8>, AllocError>
    ensures { IfOk result (λ text. text.items ≡ front.now ++ back.now) }
{
    let mut text = Vec::from_slice(alloc, front)?;
    text.extend_from_slice(back)?;
    Ok(text)
}

/// Whether a line without its end is the text, then only spaces and tabs.
fn is_padded(text: &[u8], line: &[u8]) -> bool
    ensures { result ≡ is_padded text.now line.now }
{
    let line = without_end(line);
    if line.starts_with(text) {
        are_blank(&line[text.len()..])
    } else {
        false
    }
}

/// Whether all are spaces and tabs.
fn are_blank(octets: &[u8]) -> bool
    ensures { result ≡ list_all is_blank octets.now }
{
    octets.iter().all(|octet| is_blank(*octet))
}

impl Boundary {
    /// The beginnings of the lines that have this boundary.
    fn new(alloc: Global, boundary: &[u8]) -> Result<Boundary, AllocError>
        ensures { IfOk result
            (λ made. IsBoundary boundary.now made.delimiter.items made.closing.items) }
    {
        let delimiter = joined(alloc, b"--", boundary)?;
        let closing = joined(alloc, &delimiter, b"--")?;
        Ok(Boundary { delimiter, closing })
    }

    fn kind_of(&self, line: &[u8]) -> BoundaryKind
        ensures { result ≡ kind_of self.now.delimiter.items self.now.closing.items line.now }
    {
        if is_padded(&self.delimiter, line) {
            BoundaryKind::Delimiter
        } else if is_padded(&self.closing, line) {
            BoundaryKind::Closing
        } else {
            BoundaryKind::Inner
        }
    }
}

/// The end of a stretch of lines.
#[derive(Clone, Copy)]
enum PartStop<'t> {
    /// The end of the text.
    End,
    /// A delimiter, and the text after it.
    Delimiter(&'t [u8]),
    /// A closing line, and the text after it.
    Closing(&'t [u8]),
}

/// A stretch of lines up to the next delimiter or closing line, or to the end of the text.
#[derive(Clone, Copy)]
struct Stretch<'t> {
    /// Its text. The line end before a delimiter or a closing line isn't part of it.
    text: &'t [u8],
    /// Its end.
    stop: PartStop<'t>,
}

/// The text before a rest of it, without the end of its last line.
fn text_before<'t>(text: &'t [u8], rest: &[u8]) -> &'t [u8]
    requires { length rest.now ≤ length text.now }
    ensures { result.now ≡ without_end (take (length text.now - length rest.now) text.now) }
{
    without_end(&text[..text.len() - rest.len()])
}

impl Boundary {
    /// The first stretch of a text.
    fn next_stretch<'t>(&self, text: &'t [u8]) -> Stretch<'t>
        ensures text { (boundary : List ℕ)
            → IsBoundary boundary self.now.delimiter.items self.now.closing.items
            → result.text.now ≡ prologue_text (content_cut boundary text.now) }
        ensures stop { (boundary : List ℕ)
            → IsBoundary boundary self.now.delimiter.items self.now.closing.items
            → StopsAt boundary (content_cut boundary text.now) result.stop }
        ensures shorter { left_after result.stop < 1 + length text.now }
    {
        let mut rest = text;
        while let Some((line, after)) = next_line(rest) {
            match self.kind_of(line) {
                BoundaryKind::Delimiter => {
                    return Stretch {
                        text: text_before(text, rest),
                        stop: PartStop::Delimiter(after),
                    };
                }
                BoundaryKind::Closing => {
                    return Stretch {
                        text: text_before(text, rest),
                        stop: PartStop::Closing(after),
                    };
                }
                BoundaryKind::Inner => rest = after,
            }
        }
        Stretch {
            text,
            stop: PartStop::End,
        }
    }
}

/// A content that is cut by a boundary.
#[derive(Drop)]
pub(crate) struct Pieces<'t> {
    /// The text before the first delimiter or closing line.
    pub(crate) prologue: &'t [u8],
    /// The texts of the parts, in order.
    pub(crate) parts: Vec<&'t [u8]>,
    /// The text after the closing line, if one comes.
    pub(crate) epilogue: Option<&'t [u8]>,
}

/// The parts of a content from its first delimiter or closing line on, and the epilogue. A closing
/// line ends the parts, also before the first one.
fn parts_from<'t>(
    alloc: Global,
    boundary: &Boundary,
    first: PartStop<'t>,
) -> Result<(Vec<&'t [u8]>, Option<&'t [u8]>), AllocError>
    ensures { IfOk result (λ found. (name : List ℕ)
        → IsBoundary name boundary.now.delimiter.items boundary.now.closing.items
        → (map (λ part. part.now) found.0.items ≡ parts_at name first.entry)
        × (option_map (λ epilogue. epilogue.now) found.1 ≡ epilogue_at name first.entry)) }
{
    let mut parts = Vec::new(alloc);
    let mut stop = first;
    while let PartStop::Delimiter(rest) = stop {
        let stretch = boundary.next_stretch(rest);
        parts.push(stretch.text)?;
        stop = stretch.stop;
    }
    match stop {
        PartStop::Closing(epilogue) => Ok((parts, Some(epilogue))),
        _ => Ok((parts, None)),
    }
}

/// Cuts a content by a boundary.
pub(crate) fn pieces_of<'t>(
    alloc: Global,
    boundary: &[u8],
    content: &'t [u8],
) -> Result<Pieces<'t>, AllocError>
    ensures { IfOk result (λ pieces. ArePieces (content_cut boundary.now content.now) pieces) }
{
    let boundary = Boundary::new(alloc, boundary)?;
    let stretch = boundary.next_stretch(content);
    let (parts, epilogue) = parts_from(alloc, &boundary, stretch.stop)?;
    Ok(Pieces {
        prologue: stretch.text,
        parts,
        epilogue,
    })
}
