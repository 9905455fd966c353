//! The clock in the words of a command line.
ghost use Rattle.std.specs.Prelude.{◌≡◌, ◌≤◌, IfSome, length, position};
ghost use Rattle.command_line.specs.CommandLine.{IsBadClock, SaysClock, clock_in, clock_of, clock_said, is_sign};

use crate::argument::CommandWord;
use crate::words::{Job, UsageFault};
use date_text::{Clock, clock_named};
use std::alloc::Global;

/// Whether an octet begins a zone.
fn is_sign(octet: u8) -> bool
    ensures { result ≡ is_sign octet }
{
    octet == b'+' || octet == b'-'
}

/// The place where the zone of a word begins.
fn zone_place(word: &[u8]) -> Option<usize>
    ensures is { result ≡ position is_sign word.now }
    ensures within { IfSome result (λ place. place ≤ length word.now) }
{
    word.iter().position(|octet| is_sign(*octet))
}

/// The clock of a word: digits, and maybe a zone.
fn clock_of(word: &[u8]) -> Option<Clock>
    ensures { result ≡ clock_of word.now }
{
    match zone_place(word) {
        Some(place) => {
            let (digits, zone) = word.split_at(place);
            clock_named(digits, zone)
        }
        None => clock_named(word, b"+0000"),
    }
}

/// The fault of a word that names no clock.
fn bad_clock(alloc: Global, word: &str) -> UsageFault
    ensures { IsBadClock word.now result }
{
    match CommandWord::copied(alloc, word) {
        Ok(word) => UsageFault::BadClock { word },
        Err(_) => UsageFault::NoMemory,
    }
}

/// The clock of an option's word, where it is given.
fn clock_in(alloc: Global, word: &Option<CommandWord>) -> Result<Option<Clock>, UsageFault>
    ensures { SaysClock (clock_in word.now) result }
{
    let Some(word) = word else {
        return Ok(None);
    };
    match clock_of(word.as_str().as_bytes()) {
        Some(clock) => Ok(Some(clock)),
        None => Err(bad_clock(alloc, word.as_str())),
    }
}

/// The clock that a job's words say, or the fault of the word that names none.
pub(crate) fn clock_said(alloc: Global, job: &Job) -> Result<Option<Clock>, UsageFault>
    ensures { SaysClock (clock_said job.now) result }
{
    match job {
        Job::Test(words) => clock_in(alloc, &words.clock),
        Job::Session | Job::Dump { .. } => Ok(None),
    }
}
