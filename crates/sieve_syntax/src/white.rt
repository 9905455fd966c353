//! White space and comments (RFC 5228, 2.2 and 2.3).

ghost use Rattle.std.specs.Prelude.{◌≡◌, ◌<◌, ◌≤◌, length, IfSome};
ghost use Rattle.octets.specs.Octet.{octet_of};
ghost use Rattle.sieve_syntax.specs.White.{begins_with, bracket_comment, comment_length, white_at};

use crate::line::line_length;
use octets::is_white;

/// Whether a slash begins the octets.
fn begins_with_slash(rest: &[u8]) -> bool
    ensures { result ≡ begins_with (octet_of "/") rest.now }
{
    match rest {
        [] => false,
        [first, ..] => *first == b'/',
    }
}

/// How many octets there are up to the end of the first `*/`.
#[tactic(auto, using(crate::proofs::Steps::comment_steps))]
fn comment_length(rest: &[u8]) -> Option<usize>
    ensures { result ≡ comment_length rest.now }
{
    for (i, octet) in rest.iter().enumerate() {
        if *octet == b'*' && begins_with_slash(&rest[i + 1..]) {
            return Some(i + 2);
        }
    }
    None
}

/// How many octets a bracket comment has after its first octet.
#[tactic(auto, using(crate::proofs::Longest::comment_bounds, crate::proofs::Longest::bracket_bounds), unfolding(crate::specs::White::bracket_comment))]
fn bracket_comment(rest: &[u8]) -> Option<usize>
    ensures value { result ≡ bracket_comment rest.now }
    ensures bounds { IfSome result (λ n. (0 < n) × (n ≤ length rest.now)) }
{
    match rest {
        [b'*', tail @ ..] => match comment_length(tail) {
            Some(length) => Some(length + 1),
            None => None,
        },
        _ => None,
    }
}

/// The number of octets of the piece of white space that begins the text (RFC 5228, 2.2 and 2.3).
/// It is one octet of white space, a hash comment with its line, or a bracket comment.
#[tactic(auto, using(crate::proofs::Longest::white_at_bounds), unfolding(crate::specs::White::white_at))]
pub(crate) fn white_length(rest: &[u8]) -> Option<usize>
    ensures value { result ≡ white_at rest.now }
    ensures bounds { IfSome result (λ n. (0 < n) × (n ≤ length rest.now)) }
{
    match rest {
        [] => None,
        [first, tail @ ..] => {
            if is_white(*first) {
                Some(1)
            } else if *first == b'#' {
                Some(line_length(tail) + 1)
            } else if *first == b'/' {
                match bracket_comment(tail) {
                    Some(length) => Some(length + 1),
                    None => None,
                }
            } else {
                None
            }
        }
    }
}
