//! The lines of a session's input.
ghost use Rattle.std.specs.Prelude.{◌≡◌, ◌<◌, ◌≤◌, ◌+◌, ◌++◌, ℕ, List, [], None, Some, length, take, drop, false, ⊤, MatchOption, IfSome, IsTrue, true};
ghost use Rattle.std.specs.Io.KnownBytes.{Keeps, IsAtEnd};
ghost use Rattle.devices.specs.Devices.{HasRisen};
ghost use Rattle.sieve_limits.specs.Limits.{line_limit};
ghost use Rattle.session_text.specs.SessionLine.{cut_line, without_cr};
ghost use Rattle.session_text.specs.view.Input.{unused, fuel, Knows, Reads};

use crate::input::{Filled, Input};
use devices::Source;
use sieve_limits::MAX_LINE;

/// The place of the first LF.
fn find_lf(octets: &[u8]) -> Option<usize>
    ensures { MatchOption result (cut_line octets.now ≡ None) (λ at. (at < length octets.now)
        × (cut_line octets.now ≡ Some (take at octets.now, drop (at + 1) octets.now))
        × ((more : List ℕ)
        → cut_line (take (at + 1) octets.now ++ more) ≡ Some (take at octets.now, more))) }
{
    for (i, octet) in octets.iter().enumerate() {
        if *octet == b'\n' {
            return Some(i);
        }
    }
    None
}

/// The number of octets before a place without a CR at their end.
fn len_without_cr(octets: &[u8], end: usize) -> usize
    requires { end ≤ length octets.now }
    ensures within { result ≤ end }
    ensures line { without_cr (take end octets.now) ≡ take result octets.now }
{
    if end > 0 && octets[end - 1] == b'\r' {
        end - 1
    } else {
        end
    }
}

/// The next line of the input, or why there is none.
#[derive(Drop)]
pub enum Line {
    /// The input is at its end.
    Over,
    /// A line: the first `len` octets that are read and not used yet. It ends, with its CR and LF,
    /// within the first `skip` of them.
    Whole { len: usize, skip: usize },
    /// A line of more than 16,384 octets.
    TooLong,
    /// The input can't be read.
    Failed,
    /// No more reads may be made.
    Spent,
}

impl Line {
    ghost use Rattle.session_text.specs.view.Line.{IsCutOff, IsEnded, IsLine, IsWithinLine, MatchEnd};

    /// The line that ends at the first LF.
    fn before(pending: &[u8], at: usize) -> Line
        requires within { at < length pending.now }
        requires first { cut_line pending.now
            ≡ Some (take at pending.now, drop (at + 1) pending.now) }
        requires alone { (more : List ℕ)
            → cut_line (take (at + 1) pending.now ++ more) ≡ Some (take at pending.now, more) }
        ensures line { (left : List ℕ) → IsLine result pending.now left }
        ensures ended { IsEnded result pending.now }
        ensures within { IsWithinLine result pending.now }
        ensures kind { MatchEnd result ⊥ ⊥ ⊥ }
    {
        let len = len_without_cr(pending, at);
        if len > MAX_LINE {
            Line::TooLong
        } else {
            Line::Whole { len, skip: at + 1 }
        }
    }

    /// The line that the end of the input ends.
    fn last(pending: &[u8]) -> Line
        requires { cut_line pending.now ≡ None }
        ensures line { IsLine result pending.now [] }
        ensures within { IsWithinLine result pending.now }
        ensures kind { MatchEnd result ⊤ ⊥ ⊥ }
    {
        if pending.is_empty() {
            Line::Over
        } else if pending.len() > MAX_LINE {
            Line::TooLong
        } else {
            Line::Whole {
                len: pending.len(),
                skip: pending.len(),
            }
        }
    }

    /// Whether a line without its LF is too long already, whatever follows. A last CR may belong to
    /// its end.
    fn is_too_long(pending: &[u8]) -> bool
        requires { cut_line pending.now ≡ None }
        ensures yes { IsTrue result → (left : List ℕ) → IsLine Line.TooLong pending.now left }
        ensures no { result ≡ false → length pending.now ≤ line_limit + 1 }
        ensures may { result ≡ false → IsCutOff pending.now }
        ensures some { IsTrue result → 0 < length pending.now }
    {
        pending.len() > MAX_LINE + 1 || pending.len() == MAX_LINE + 1 && pending[MAX_LINE] != b'\r'
    }

    /// The next line of the input. It reads as much as is needed to find the line's end, and uses
    /// nothing. An LF ends a line, and so does the end of the input. A CR before the LF is no part
    /// of the line. A line that is too long is reported as soon as that is known, also before its
    /// end is read. Nothing is read where the unused octets have an LF or are too many for a line.
    /// Nothing is read after the end of the input.
    #[tactic(auto, using(crate::proofs::Reading::reading))]
    pub fn next<R: Source>(input: &mut Input, reader: &mut R) -> Line
        requires known { Knows input.old (R.remaining reader.old) }
        ensures known { Knows input.new (R.remaining reader.new) }
        ensures keeps { Keeps (unused input.old (R.remaining reader.old))
            (unused input.new (R.remaining reader.new)) }
        ensures fuel { fuel input.new ≤ fuel input.old }
        ensures line { IfSome (R.remaining reader.new) (IsLine result input.new.pending) }
        ensures ended { input.new.ended ≡ false → IsEnded result input.new.pending }
        ensures within { IsWithinLine result input.new.pending }
        ensures reads { Reads R.remaining R.fault_count R.call_count input.old input.new reader.old
            reader.new }
        ensures still { (IsCutOff input.old.pending → ⊥)
            → (input.new ≡ input.old) × (reader.new ≡ reader.old) }
        ensures past_end { input.old.ended ≡ true
            → (input.new ≡ input.old) × (reader.new ≡ reader.old) }
        ensures end { MatchEnd result (IsAtEnd (R.remaining reader.new)) ((input.new.ended ≡ false)
            × HasRisen (R.fault_count reader.old) (R.fault_count reader.new))
            ((input.new.ended ≡ false) × (input.new.turns ≡ 0)) }
    {
        loop {
            let pending = input.pending();
            if let Some(at) = find_lf(pending) {
                return Line::before(pending, at);
            }
            if Line::is_too_long(pending) {
                return Line::TooLong;
            }
            match input.fill(reader) {
                Filled::More => {}
                Filled::Ended => return Line::last(input.pending()),
                Filled::Failed => return Line::Failed,
                Filled::Spent => return Line::Spent,
            }
        }
    }
}
