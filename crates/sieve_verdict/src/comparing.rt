//! A device that compares a line with the octets that are written to it.
ghost use Rattle.std.specs.Prelude.{◌≡◌, ◌≤◌, drop, length, true, None, Some};
ghost use Rattle.devices.specs.Devices.{next_count};
ghost use Rattle.sieve_verdict.specs.view.Comparing.{begins_with, held, is_apart, is_whole};

use devices::{Faults, Sink};
use std::io;

/// A device that takes the octets of a line, and then the first octet that isn't the line's. It
/// refuses all octets after that one, so the writing ends.
#[derive(Drop)]
pub(crate) struct Comparing<'a> {
    line: &'a [u8],
    /// The number of octets of the line that were written, from the first on.
    taken: usize,
    /// The first octet that was written and isn't the line's.
    other: Option<u8>,
    faults: u64,
    ghost within: { taken ≤ length line.now },
    ghost apart: { is_apart other (drop taken line.now) faults ≡ true },
}

/// Whether a text begins with an octet.
fn begins_with(octet: u8, text: &[u8]) -> bool
    ensures { result ≡ begins_with octet text.now }
{
    match text {
        [first, ..] => *first == octet,
        [] => false,
    }
}

/// The number of faults after one more, or the greatest number if there are that many.
fn count_after(count: u64) -> u64
    ensures { result ≡ next_count count }
{
    count.saturating_add(1)
}

impl<'a> Comparing<'a> {
    /// A device that compares a line with the octets that are written from here on.
    pub(crate) fn new(line: &'a [u8]) -> Comparing<'a>
        ensures held { held result.line.now result.taken result.other ≡ held line.now 0 None }
        ensures faults { result.faults ≡ 0 }
    {
        Comparing {
            line,
            taken: 0,
            other: None,
            faults: 0,
        }
    }

    /// Whether all of the line was written, and nothing else.
    pub(crate) fn is_whole(&self) -> bool
        ensures { result ≡ is_whole self.now.line.now self.now.taken self.now.other }
    {
        match self.other {
            Some(_) => false,
            None => self.taken == self.line.len(),
        }
    }
}

impl Faults for Comparing<'_> {
    ghost fault_count = { λ comparing. comparing.faults };

    fn faults(&self) -> u64 {
        self.faults
    }
}

impl Sink for Comparing<'_> {
    ghost contents = { λ comparing. Some
        (held comparing.line.now comparing.taken comparing.other) };

    fn write_some(&mut self, bytes: &[u8]) -> io::Result<usize> {
        if self.other.is_some() {
            self.faults = count_after(self.faults);
            return Ok(0);
        }
        let octet = bytes[0];
        if begins_with(octet, self.line.split_at(self.taken).1) {
            self.taken += 1;
            return Ok(1);
        }
        self.other = Some(octet);
        Ok(1)
    }
}
