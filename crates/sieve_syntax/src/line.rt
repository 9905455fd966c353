//! The lines of a text (RFC 5228, 8.1).

ghost use Rattle.std.specs.Prelude.{◌≡◌, length, ◌≤◌, ◌<◌};
ghost use Rattle.sieve_syntax.specs.Line.{is_dot_line, is_line_end, line_length};

/// How many octets the first line has, its LF among them.
#[tactic(auto, using(crate::proofs::Steps::line_steps, crate::proofs::Steps::line_bounds))]
pub(crate) fn line_length(rest: &[u8]) -> usize
    ensures value { result ≡ line_length rest.now }
    ensures inside { result ≤ length rest.now }
    ensures some { 0 < length rest.now → 0 < result }
{
    for (i, octet) in rest.iter().enumerate() {
        if *octet == b'\n' {
            return i + 1;
        }
    }
    rest.len()
}

/// Whether octets are an LF, or a CR and an LF.
#[tactic(auto, unfolding(crate::specs::Line::is_line_end))]
pub(crate) fn is_line_end(octets: &[u8]) -> bool
    ensures { result ≡ is_line_end octets.now }
{
    match octets {
        [last] => *last == b'\n',
        [first, last] => *first == b'\r' && *last == b'\n',
        _ => false,
    }
}

/// Whether the line is a dot alone, with its line end.
#[tactic(auto, unfolding(crate::specs::Line::is_dot_line))]
pub(crate) fn is_dot_line(line: &[u8]) -> bool
    ensures { result ≡ is_dot_line line.now }
{
    match line {
        [] => false,
        [first, tail @ ..] => *first == b'.' && is_line_end(tail),
    }
}
