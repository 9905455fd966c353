//! The lines of a text.
ghost use Rattle.std.specs.Prelude.{◌≡◌, ◌<◌, ◌∷◌, IfSome, MatchOption, [], length};
ghost use Rattle.std.specs.Str.Lines.{lines};
ghost use Rattle.message_text.specs.view.Positions.{IsLineAt};

use memchr::memchr;
use octets::without_return;

/// The places of a line in a text.
#[derive(Clone, Copy)]
pub(crate) struct LineSpan {
    /// Where its octets end: before its line feed and a carriage return directly before that.
    pub(crate) end: usize,
    /// Where the next line begins.
    pub(crate) next: usize,
}

/// The line that begins at `start`.
pub(crate) fn line_at(text: &[u8], start: usize) -> LineSpan
    requires { start < length text.now }
    ensures { IsLineAt text.now start result.end result.next }
{
    let Some(len) = memchr(b'\n', &text[start..]) else {
        return LineSpan {
            end: text.len(),
            next: text.len(),
        };
    };
    let feed = start + len;
    LineSpan {
        end: start + without_return(&text[start..feed]).len(),
        next: feed + 1,
    }
}

/// The first line of a text, and the text after it. The line is without its line feed and a
/// carriage return directly before that. None if the text is empty.
pub fn next_line(text: &[u8]) -> Option<(&[u8], &[u8])>
    ensures lines { MatchOption result (text.now ≡ [])
        (λ cut. lines text.now ≡ cut.0.now ∷ lines cut.1.now) }
    ensures shorter { IfSome result (λ cut. length cut.1.now < length text.now) }
{
    if text.is_empty() {
        return None;
    }
    match memchr(b'\n', text) {
        Some(len) => Some((without_return(&text[..len]), &text[len + 1..])),
        None => Some((text, &text[text.len()..])),
    }
}
