//! Reads a session's octets in large pieces, and hands them out as lines and counted octets.
ghost use Rattle.std.specs.Prelude.{◌≡◌, false, true, ◌<◌, ◌≤◌, ◌+◌, [], length, take, drop, ◌-◌, slice_range, IfOk, OnErr, MatchResult, vec_len};
ghost use Rattle.std.specs.Io.KnownBytes.{Keeps, Consumes, IsAtEnd};
ghost use Rattle.devices.specs.Devices.{HasRisen, next_count};
ghost use Rattle.session_text.specs.view.Input.{capacity};

use devices::Source;
use std::alloc::{AllocError, Global};
use std::io;
use std::io::ErrorKind;
use std::marker::Model;

/// How many octets are read at a time, at most. A line and its end fit.
const CAPACITY: usize = 65_536;
/// How many times in a row a read is tried: once, and 1,000 times again after an interruption.
const MAX_TRIES: u32 = 1_001;

/// The octets that a session has read and not yet used, and how many reads it may still make. And
/// whether a read has come to the end of the input: none is made after that.
#[derive(Drop)]
pub struct Input {
    buffer: Vec<u8>,
    start: usize,
    end: usize,
    turns: u64,
    ended: bool,
}

impl Model for Input {
    ghost use Rattle.std.specs.Prelude.{◌≡◌, false, ◌≤◌, slice_range, vec_len};
    ghost use Rattle.session_text.specs.view.Input as spec;

    ghost Value = { spec.Input };

    ghost view = { λ a. record { pending = slice_range a.buffer.items a.start a.end; turns = a.turns; ended = a.ended } };

    ghost invariant = { λ a. (a.start ≤ a.end) × (a.end ≤ vec_len a.buffer) × (vec_len a.buffer ≡ spec.capacity) };
}

/// How an attempt to read more went.
#[derive(Drop)]
pub(crate) enum Filled {
    /// There are more octets.
    More,
    /// The input is at its end.
    Ended,
    /// The read failed.
    Failed,
    /// No more reads may be made.
    Spent,
}

/// The places for the octets that are read.
fn places(alloc: Global) -> Result<Vec<u8>, AllocError>
    ensures { IfOk result (λ places. vec_len places ≡ capacity) }
{
    vec![in alloc; 0; CAPACITY]
}

/// Makes one read into the places of a buffer from one on.
fn read_after<R: Source>(buffer: &mut [u8], from: usize, reader: &mut R) -> io::Result<usize>
    requires { from < length buffer.old }
    ensures front { take from buffer.new ≡ take from buffer.old }
    ensures read { MatchResult result (λ count. (from + count ≤ length buffer.new) × Consumes
        (R.remaining reader.old) (R.remaining reader.new) (take count (drop from buffer.new))
        × (count ≡ 0 → IsAtEnd (R.remaining reader.new)))
        (λ _. Keeps (R.remaining reader.old) (R.remaining reader.new)) }
    ensures faults { R.fault_count reader.old ≤ R.fault_count reader.new }
    ensures failed { OnErr result (HasRisen (R.fault_count reader.old) (R.fault_count reader.new)) }
    ensures calls { R.call_count reader.new ≡ next_count (R.call_count reader.old) }
{
    reader.read_some(&mut buffer[from..])
}

/// Moves the octets between two places of a buffer to its front, and makes one read after them.
fn refill<R: Source>(
    buffer: &mut [u8],
    start: usize,
    end: usize,
    reader: &mut R,
) -> io::Result<usize>
    requires ordered { start ≤ end }
    requires within { end ≤ length buffer.old }
    requires room { end - start < length buffer.old }
    ensures front { take (end - start) buffer.new ≡ slice_range buffer.old start end }
    ensures read { MatchResult result (λ count. (end - start + count ≤ length buffer.new)
        × Consumes (R.remaining reader.old) (R.remaining reader.new) (take count
        (drop (end - start) buffer.new)) × (count ≡ 0 → IsAtEnd (R.remaining reader.new)))
        (λ _. Keeps (R.remaining reader.old) (R.remaining reader.new)) }
    ensures faults { R.fault_count reader.old ≤ R.fault_count reader.new }
    ensures failed { OnErr result (HasRisen (R.fault_count reader.old) (R.fault_count reader.new)) }
    ensures calls { R.call_count reader.new ≡ next_count (R.call_count reader.old) }
{
    if start > 0 {
        buffer.copy_within(start..end, 0);
    }
    read_after(buffer, end - start, reader)
}

impl Input {
    ghost use Rattle.session_text.specs.view.Input.{capacity, unused, fuel, CallsMade, Knows, Reads, TurnsGave};
    ghost use Rattle.session_text.specs.view.Filled.{MatchFilled};

    /// Nothing is read yet, and `turns` reads may be made. A buffer of 65,536 octets is allocated,
    /// which never grows. An error is out of memory.
    pub fn new(alloc: Global, turns: u64) -> Result<Input, AllocError>
        ensures { IfOk result
            (λ input. input ≡ record { pending = []; turns = turns; ended = false }) }
    {
        Ok(Input {
            buffer: places(alloc)?,
            start: 0,
            end: 0,
            turns,
            ended: false,
        })
    }

    /// The octets that are read and not used yet.
    pub fn pending(&self) -> &[u8]
        ensures { result.now ≡ self.now.pending }
    {
        &self.buffer[self.start..self.end]
    }

    /// Uses the first `count` octets of those that are read and not used yet.
    pub fn consume(&mut self, count: usize)
        requires { count ≤ length self.old.pending }
        ensures pending { self.new.pending ≡ drop count self.old.pending }
        ensures turns { self.new.turns ≡ self.old.turns }
        ensures ended { self.new.ended ≡ self.old.ended }
    {
        self.start += count;
    }

    /// Makes one read, after the octets that are not used. There must be room for one octet more.
    fn read_once<R: Source>(&mut self, reader: &mut R) -> io::Result<usize>
        requires room { length self.old.pending < capacity }
        requires turn { 0 < self.old.turns }
        ensures keeps { Keeps (unused self.old (R.remaining reader.old))
            (unused self.new (R.remaining reader.new)) }
        ensures turns { self.new.turns + 1 ≡ self.old.turns }
        ensures ended { self.new.ended ≡ self.old.ended }
        ensures within { length self.new.pending ≤ capacity }
        ensures read { MatchResult result (λ count. (length self.new.pending
            ≡ length self.old.pending + count) × (count ≡ 0 → (self.new.pending ≡ self.old.pending)
            × IsAtEnd (R.remaining reader.new))) (λ _. (self.new.pending ≡ self.old.pending)
            × HasRisen (R.fault_count reader.old) (R.fault_count reader.new)) }
        ensures faults { R.fault_count reader.old ≤ R.fault_count reader.new }
        ensures calls { CallsMade self.old.turns self.new.turns (R.call_count reader.old)
            (R.call_count reader.new) }
        ensures gave { MatchResult result
            (λ count. 0 < count → TurnsGave self.old.turns self.new.turns (R.remaining reader.old)
            (R.remaining reader.new) (R.fault_count reader.old) (R.fault_count reader.new))
            (λ _. TurnsGave self.old.turns self.new.turns (R.remaining reader.old)
            (R.remaining reader.new) (R.fault_count reader.old) (R.fault_count reader.new)) }
    {
        let used = self.end - self.start;
        let read = refill(&mut self.buffer, self.start, self.end, reader);
        self.turns -= 1;
        self.start = 0;
        self.end = used;
        match read {
            Ok(count) => {
                self.end += count;
                Ok(count)
            }
            Err(e) => Err(e),
        }
    }

    /// Reads more octets after those that are not used. There must be room for one octet more. A
    /// read that was interrupted is tried again, at most 1,000 times in a row. Each try counts as a
    /// read. Where a read has come to the end, none is made, and nothing changes.
    #[tactic(auto, using(crate::proofs::Reading::reading))]
    pub(crate) fn fill<R: Source>(&mut self, reader: &mut R) -> Filled
        requires room { length self.old.pending < capacity }
        requires known { Knows self.old (R.remaining reader.old) }
        ensures known { Knows self.new (R.remaining reader.new) }
        ensures keeps { Keeps (unused self.old (R.remaining reader.old))
            (unused self.new (R.remaining reader.new)) }
        ensures fuel { fuel self.new ≤ fuel self.old }
        ensures reads { Reads R.remaining R.fault_count R.call_count self.old self.new reader.old
            reader.new }
        ensures past_end { self.old.ended ≡ true
            → (self.new ≡ self.old) × (reader.new ≡ reader.old) }
        ensures filled { MatchFilled result ((fuel self.new < fuel self.old)
            × (0 < length self.new.pending)) ((self.new.pending ≡ self.old.pending)
            × (self.new.ended ≡ true) × IsAtEnd (R.remaining reader.new))
            ((self.new.pending ≡ self.old.pending) × (self.new.ended ≡ false)
            × HasRisen (R.fault_count reader.old) (R.fault_count reader.new)) ((self.new.pending
            ≡ self.old.pending) × (self.new.ended ≡ false) × (self.new.turns ≡ 0)) }
    {
        if self.ended {
            return Filled::Ended;
        }
        for _retry in 0..MAX_TRIES {
            if self.turns == 0 {
                return Filled::Spent;
            }
            match self.read_once(reader) {
                Ok(0) => {
                    self.ended = true;
                    return Filled::Ended;
                }
                Ok(_) => return Filled::More,
                Err(e) => {
                    if e.kind() != ErrorKind::Interrupted {
                        return Filled::Failed;
                    }
                }
            }
        }
        Filled::Failed
    }

    /// Reads more octets if all are used. Where some are left, or a read has come to the end, no
    /// read is made, and nothing changes.
    #[tactic(auto, using(crate::proofs::Reading::reading))]
    pub(crate) fn refresh<R: Source>(&mut self, reader: &mut R) -> Filled
        requires known { Knows self.old (R.remaining reader.old) }
        ensures known { Knows self.new (R.remaining reader.new) }
        ensures keeps { Keeps (unused self.old (R.remaining reader.old))
            (unused self.new (R.remaining reader.new)) }
        ensures fuel { fuel self.new ≤ fuel self.old }
        ensures reads { Reads R.remaining R.fault_count R.call_count self.old self.new reader.old
            reader.new }
        ensures still { 0 < length self.old.pending
            → (self.new ≡ self.old) × (reader.new ≡ reader.old) }
        ensures past_end { self.old.ended ≡ true
            → (self.new ≡ self.old) × (reader.new ≡ reader.old) }
        ensures filled { MatchFilled result (0 < length self.new.pending) ((self.new.pending ≡ [])
            × IsAtEnd (R.remaining reader.new)) ((self.new.pending ≡ []) × (self.new.ended ≡ false)
            × HasRisen (R.fault_count reader.old) (R.fault_count reader.new))
            ((self.new.pending ≡ []) × (self.new.ended ≡ false) × (self.new.turns ≡ 0)) }
    {
        if self.pending().is_empty() {
            self.fill(reader)
        } else {
            Filled::More
        }
    }
}
