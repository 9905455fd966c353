//! The tokens of a text (RFC 5228, section 2).

ghost use Rattle.std.specs.Prelude.{◌≡◌, ◌+◌, ◌<◌, ◌^◌, List, length, All, IfOk};
ghost use Rattle.sieve_syntax.specs.Token.{IsInside, Spells, line_at, line_feeds};
ghost use Rattle.sieve_syntax.specs.declared.token.Token.{Token};

use crate::cursor::{Cursor, count_line_feeds, next_token};
use std::alloc::{AllocError, Global};

/// The kind of a token. `Bad` is no token of Sieve. It is the rest of a text from a place where
/// neither white space nor a token begins.
#[derive(Clone, Copy, Debug, PartialEq, Eq)]
pub enum TokenKind {
    /// A letter or `_`, then letters, digits and `_`.
    Identifier,
    /// A colon and an identifier.
    Tag,
    /// Digits, and then `K`, `M` or `G` in either case, or no unit.
    Number,
    /// A string in quotation marks.
    Quoted,
    /// A string of whole lines, from `text:` to a line that is a dot alone.
    MultiLine,
    Semicolon,
    OpenBrace,
    CloseBrace,
    OpenParenthesis,
    CloseParenthesis,
    OpenBracket,
    CloseBracket,
    Comma,
    /// The text from here to its end, where nothing else begins.
    Bad,
}

/// A token: its kind, its start and its end in the text, and the line where it begins. Places are
/// counted in octets from 0 on. A line is one plus the number of LF before it.
#[derive(Clone, Copy, PartialEq, Eq)]
pub struct Token {
    pub kind: TokenKind,
    pub start: usize,
    pub end: usize,
    pub line: u64,
}

/// The line of the end of a text.
#[tactic(auto, using(crate::proofs::Steps::line_feeds_all))]
pub(crate) fn last_line(text: &[u8]) -> u64
    requires { length text.now < 2 ^ 63 }
    ensures { result ≡ line_at text.now (length text.now) }
{
    count_line_feeds(text) as u64 + 1
}

/// The tokens of a text, in their order. At each place the longest spelling is taken. Where
/// neither white space nor a spelling begins, one bad token takes the rest of the text. An error
/// is out of memory.
pub fn tokens(alloc: Global, text: &[u8]) -> Result<Vec<Token>, AllocError>
    // The tokens spell the text.
    ensures spelled { IfOk result (λ found. Spells found.items text.now) }
    // Each token lies in the text.
    ensures inside { IfOk result (λ found. All (IsInside text.now) found.items) }
    // No other list of tokens spells the text.
    ensures only { IfOk result
        (λ found. (others : List Token) → Spells others text.now → others ≡ found.items) }
{
    let mut found = Vec::new(alloc);
    let mut cursor = Cursor {
        place: 0,
        line_feeds: 0,
    };
    while let Some((token, after)) = next_token(text, cursor) {
        found.push(token)?;
        cursor = after;
    }
    Ok(found)
}
