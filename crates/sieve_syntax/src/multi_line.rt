//! The end of a multi-line string (RFC 5228, 8.1).

ghost use Rattle.std.specs.Prelude.{◌≡◌, ◌≤◌, drop, length, IfSome};
ghost use Rattle.sieve_syntax.specs.Line.{lines_of};
ghost use Rattle.sieve_syntax.specs.Scan.{dot_length, multi_line_length, opening_end, opening_length, opening_stop, shifted};
ghost use Rattle.sieve_syntax.specs.Spelling.{spells_text};

use crate::line::{is_dot_line, line_length};
use octets::is_blank;

/// Whether the octets are `text`, in any case.
fn spells_text(t: u8, e: u8, x: u8, u: u8) -> bool
    ensures { result ≡ spells_text t e x u }
{
    matches!(t, b't' | b'T')
        && matches!(e, b'e' | b'E')
        && matches!(x, b'x' | b'X')
        && matches!(u, b't' | b'T')
}

/// The number of octets of the line end, or of the hash comment with its line, that
/// begins the octets.
#[tactic(auto, unfolding(crate::specs::Scan::opening_stop))]
fn opening_stop(rest: &[u8]) -> Option<usize>
    ensures value { result ≡ opening_stop rest.now }
    ensures inside { IfSome result (λ n. n ≤ length rest.now) }
{
    match rest {
        [b'\n', ..] => Some(1),
        [b'\r', b'\n', ..] => Some(2),
        [b'#', ..] => Some(line_length(rest)),
        _ => None,
    }
}

/// The number of octets of the end of a multi-line string's first line, with the spaces and
/// tabs before it.
#[tactic(auto, using(crate::proofs::Steps::opening_steps))]
fn opening_end(rest: &[u8]) -> Option<usize>
    ensures value { result ≡ opening_end rest.now }
    ensures inside { IfSome result (λ n. n ≤ length rest.now) }
{
    for (i, octet) in rest.iter().enumerate() {
        if !is_blank(*octet) {
            return match opening_stop(&rest[i..]) {
                Some(length) => Some(i + length),
                None => None,
            };
        }
    }
    None
}

/// The number of octets of the first line of a multi-line string, if it begins the text. That is
/// `text:`, in any case, and spaces and tabs, and then a line end or a hash comment. No more is
/// read of any other text. So a long line is not read for each word in it.
#[tactic(auto, unfolding(crate::specs::Scan::opening_length))]
fn opening_length(rest: &[u8]) -> Option<usize>
    ensures value { result ≡ opening_length rest.now }
    ensures inside { IfSome result (λ n. n ≤ length rest.now) }
{
    match rest {
        [t, e, x, u, colon, tail @ ..] => {
            if spells_text(*t, *e, *x, *u) && *colon == b':' {
                match opening_end(tail) {
                    Some(length) => Some(length + 5),
                    None => None,
                }
            } else {
                None
            }
        }
        _ => None,
    }
}

/// The end of the first line from this place on that is a dot alone.
#[tactic(auto, using(crate::proofs::Steps::dot_steps))]
fn dot_end(rest: &[u8], start: usize) -> Option<usize>
    requires { start ≤ length rest.now }
    ensures { result ≡ shifted start (dot_length (lines_of (drop start rest.now))) }
{
    let mut place = start;
    while place < rest.len() {
        let end = place + line_length(&rest[place..]);
        if is_dot_line(&rest[place..end]) {
            return Some(end);
        }
        place = end;
    }
    None
}

/// The number of octets of the multi-line string that begins the text.
#[tactic(auto, using(crate::proofs::Opening::multi_line_is))]
pub(crate) fn multi_line_length(rest: &[u8]) -> Option<usize>
    ensures { result ≡ multi_line_length (lines_of rest.now) }
{
    match opening_length(rest) {
        Some(first) => dot_end(rest, first),
        None => None,
    }
}
