//! The longest spelling of a token that begins a text (RFC 5228, 8.1).

ghost use Rattle.std.specs.Prelude.{◌≡◌, ◌≤◌, length, IfSome};
ghost use Rattle.sieve_syntax.specs.Scan.{longest_at, mark_at, name_at, name_length, number_length, quoted_length, tag_at};

use crate::multi_line::multi_line_length;
use crate::octet::is_unit;
use crate::token::TokenKind;
use octets::{begins_name, is_digit, is_name_octet};

/// How many octets of a name begin the text.
#[tactic(auto, using(crate::proofs::Steps::name_steps))]
fn name_length(rest: &[u8]) -> usize
    ensures value { result ≡ name_length rest.now }
    ensures inside { result ≤ length rest.now }
{
    for (i, octet) in rest.iter().enumerate() {
        if !is_name_octet(*octet) {
            return i;
        }
    }
    rest.len()
}

/// How many octets of a number begin the text, after its first digit.
#[tactic(auto, using(crate::proofs::Steps::number_steps))]
fn number_length(rest: &[u8]) -> usize
    ensures value { result ≡ number_length rest.now }
    ensures inside { result ≤ length rest.now }
{
    for (i, octet) in rest.iter().enumerate() {
        if !is_digit(*octet) {
            return if is_unit(*octet) { i + 1 } else { i };
        }
    }
    rest.len()
}

/// How many octets a quoted string has, after its first quotation mark.
#[tactic(auto, using(crate::proofs::Steps::string_steps))]
fn quoted_length(rest: &[u8]) -> Option<usize>
    ensures value { result ≡ quoted_length rest.now }
    ensures inside { IfSome result (λ n. n ≤ length rest.now) }
{
    let mut protected = false;
    for (i, octet) in rest.iter().enumerate() {
        if protected {
            protected = false;
        } else if *octet == b'\\' {
            protected = true;
        } else if *octet == b'"' {
            return Some(i + 1);
        }
    }
    None
}

/// A multi-line string or an identifier, in a text that begins with a letter or `_`.
#[tactic(auto, unfolding(crate::specs::Scan::name_at))]
fn name_or_text(rest: &[u8]) -> Option<(TokenKind, usize)>
    ensures { result ≡ name_at rest.now }
{
    match rest {
        [] => None,
        [_, tail @ ..] => match multi_line_length(rest) {
            Some(length) => Some((TokenKind::MultiLine, length)),
            None => Some((TokenKind::Identifier, name_length(tail) + 1)),
        },
    }
}

/// A tag, after its colon.
#[tactic(auto, unfolding(crate::specs::Scan::tag_at))]
fn tag(rest: &[u8]) -> Option<(TokenKind, usize)>
    ensures { result ≡ tag_at rest.now }
{
    match rest {
        [first, tail @ ..] if begins_name(*first) => {
            Some((TokenKind::Tag, name_length(tail) + 2))
        }
        _ => None,
    }
}

/// Punctuation, which is one octet.
#[tactic(auto, unfolding(crate::specs::Scan::mark_at))]
fn mark(octet: u8) -> Option<(TokenKind, usize)>
    ensures { result ≡ mark_at octet }
{
    let kind = match octet {
        b';' => TokenKind::Semicolon,
        b',' => TokenKind::Comma,
        b'{' => TokenKind::OpenBrace,
        b'}' => TokenKind::CloseBrace,
        b'(' => TokenKind::OpenParenthesis,
        b')' => TokenKind::CloseParenthesis,
        b'[' => TokenKind::OpenBracket,
        b']' => TokenKind::CloseBracket,
        _ => return None,
    };
    Some((kind, 1))
}

/// The kind and the length of the longest spelling that begins the text.
#[tactic(auto, unfolding(crate::specs::Scan::longest_at))]
pub(crate) fn longest_spelling(rest: &[u8]) -> Option<(TokenKind, usize)>
    ensures { result ≡ longest_at rest.now }
{
    match rest {
        [] => None,
        [first, tail @ ..] => {
            if begins_name(*first) {
                name_or_text(rest)
            } else if is_digit(*first) {
                Some((TokenKind::Number, number_length(tail) + 1))
            } else if *first == b':' {
                tag(tail)
            } else if *first == b'"' {
                match quoted_length(tail) {
                    Some(length) => Some((TokenKind::Quoted, length + 1)),
                    None => None,
                }
            } else {
                mark(*first)
            }
        }
    }
}
