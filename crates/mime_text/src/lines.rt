//! Lines with their ends (RFC 2046, 5.1.1).
ghost use Rattle.std.specs.Prelude.{◌≡◌, ◌<◌, ◌≤◌, ◌++◌, ◌∷◌, [], IfSome, MatchOption, length};
ghost use Rattle.mime_text.specs.Lines.{end_len, ended_lines, is_line_end, without_end};

use memchr::memchr;
use octets::without_return;

/// The first line of a text with its end, and the text after it. None where the text is empty.
pub(crate) fn next_line(text: &[u8]) -> Option<(&[u8], &[u8])>
    ensures lines { MatchOption result (text.now ≡ [])
        (λ cut. ended_lines text.now ≡ cut.0.now ∷ ended_lines cut.1.now) }
    ensures joined { IfSome result (λ cut. text.now ≡ cut.0.now ++ cut.1.now) }
    ensures shorter { IfSome result (λ cut. length cut.1.now < length text.now) }
{
    if text.is_empty() {
        return None;
    }
    match memchr(b'\n', text) {
        Some(feed) => Some(text.split_at(feed + 1)),
        None => Some(text.split_at(text.len())),
    }
}

/// Whether a text is the end of a line.
pub(crate) fn is_line_end(text: &[u8]) -> bool
    ensures { result ≡ is_line_end text.now }
{
    matches!(text, b"\n" | b"\r\n")
}

/// The number of octets of the line end with which a text begins; 0 where it begins with none.
pub(crate) fn end_len(text: &[u8]) -> usize
    ensures is { result ≡ end_len text.now }
    ensures within { result ≤ length text.now }
{
    if text.starts_with(b"\n") {
        1
    } else if text.starts_with(b"\r\n") {
        2
    } else {
        0
    }
}

/// A text without the end of its last line.
pub(crate) fn without_end(text: &[u8]) -> &[u8]
    ensures { result.now ≡ without_end text.now }
{
    match text {
        [front @ .., b'\n'] => without_return(front),
        _ => text,
    }
}
