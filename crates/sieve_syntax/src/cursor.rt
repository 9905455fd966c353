//! A place in a text, and the next token from there.

ghost use Rattle.std.specs.Prelude.{◌≡◌, ◌+◌, ◌<◌, ◌≤◌, [], length, drop, MatchOption};
ghost use Rattle.sieve_syntax.specs.view.Cursor.{GoesTo, IsCursor, IsNext};
ghost use Rattle.sieve_syntax.specs.Scan.{token_at};
ghost use Rattle.sieve_syntax.specs.Token.{SpellsFrom, line_feeds};
ghost use Rattle.sieve_syntax.specs.White.{white_at};

use crate::scan::longest_spelling;
use crate::token::{Token, TokenKind};
use crate::white::white_length;

/// A place in a text, and the number of LF before it.
#[derive(Clone, Copy)]
pub(crate) struct Cursor {
    pub(crate) place: usize,
    pub(crate) line_feeds: usize,
}

/// The number of LF among the octets.
pub(crate) fn count_line_feeds(octets: &[u8]) -> usize
    ensures { result ≡ line_feeds octets.now }
{
    octets.iter().filter(|octet| **octet == b'\n').count()
}

/// The cursor `count` octets further on.
#[tactic(auto, using(crate::proofs::Steps::line_feeds_split))]
fn advance(text: &[u8], cursor: Cursor, count: usize) -> Cursor
    requires is { IsCursor text.now cursor }
    requires inside { cursor.place + count ≤ length text.now }
    ensures place { result.place ≡ cursor.place + count }
    ensures is { IsCursor text.now result }
{
    let end = cursor.place + count;
    Cursor {
        place: end,
        line_feeds: cursor.line_feeds + count_line_feeds(&text[cursor.place..end]),
    }
}

/// The cursor after the white space.
fn skip_white(text: &[u8], cursor: Cursor) -> Cursor
    requires { IsCursor text.now cursor }
    ensures is { IsCursor text.now result }
    ensures low { cursor.place ≤ result.place }
    ensures bare { white_at (drop result.place text.now) ≡ None }
    ensures skipped { GoesTo text.now cursor.place result.place }
{
    let mut cursor = cursor;
    while let Some(length) = white_length(&text[cursor.place..]) {
        cursor = advance(text, cursor, length);
    }
    cursor
}

/// The next token and the cursor after it, or `None` if only white space is left.
pub(crate) fn next_token(text: &[u8], cursor: Cursor) -> Option<(Token, Cursor)>
    requires { IsCursor text.now cursor }
    ensures { MatchOption result (SpellsFrom text.now cursor.place [])
        (λ next. IsNext text.now cursor.place next.0 next.1) }
{
    let cursor = skip_white(text, cursor);
    if cursor.place == text.len() {
        return None;
    }
    match longest_spelling(&text[cursor.place..]) {
        Some((kind, length)) => Some(make_token(text, cursor, kind, length)),
        None => {
            let length = text.len() - cursor.place;
            Some(make_token(text, cursor, TokenKind::Bad, length))
        }
    }
}

/// The token of `count` octets at the cursor, and the cursor after it.
#[tactic(auto, unfolding(crate::specs::Scan::token_at))]
fn make_token(text: &[u8], cursor: Cursor, kind: TokenKind, count: usize) -> (Token, Cursor)
    requires is { IsCursor text.now cursor }
    requires some { 0 < count }
    requires inside { cursor.place + count ≤ length text.now }
    ensures token { result.0 ≡ token_at text.now cursor.place kind (cursor.place + count) }
    ensures place { result.1.place ≡ cursor.place + count }
    ensures is { IsCursor text.now result.1 }
{
    let after = advance(text, cursor, count);
    let token = Token {
        kind,
        start: cursor.place,
        end: after.place,
        line: cursor.line_feeds as u64 + 1,
    };
    (token, after)
}
