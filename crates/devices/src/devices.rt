//! Devices that octets are read from and written to, and that count their faults.
ghost use Rattle.std.specs.Prelude.{◌≡◌, ℕ, List, Option, ◌<◌, length};
ghost use Rattle.std.specs.Io.{ReadsAtMost, WritesAtMost};
ghost use Rattle.std.specs.Io.KnownBytes.{ReadConsumes, WriteAppends};
ghost use Rattle.devices.specs.Devices.{next_count, CountsReadFault, CountsWriteFault};

use std::io;
use std::io::{Read, Write};

/// A device that counts its faults.
pub trait Faults {
    // how many faults there have been
    ghost fault_count: { Self → ℕ };

    /// How many faults there have been. At the greatest `u64` the count stays, and counts as risen.
    fn faults(&self) -> u64
        ensures { result ≡ fault_count self.now };
}

/// A device that octets are read from.
pub trait Source: Faults {
    // how many reads there have been
    ghost call_count: { Self → ℕ };
    // the octets that reads will give from here on, where they are known
    ghost remaining: { Self → Option (List ℕ) };

    /// How many times `read_some` was called. At the greatest `u64` the count stays.
    fn calls(&self) -> u64
        ensures { result ≡ call_count self.now };

    /// Reads some octets into the front of `buf` and answers how many, as std's `read`. An answer
    /// of 0 is the end of the input, and an error is a fault.
    fn read_some(&mut self, buf: &mut [u8]) -> io::Result<usize>
        requires { 0 < length buf.old }
        ensures bound { ReadsAtMost result buf.new }
        ensures bytes { ReadConsumes (remaining self.old) (remaining self.new) result buf.new }
        ensures faults { CountsReadFault (Self.fault_count self.old)
            (Self.fault_count self.new) result }
        ensures calls { call_count self.new ≡ next_count (call_count self.old) };
}

/// A device that octets are written to.
pub trait Sink: Faults {
    // the octets that the device holds, where they are known
    ghost contents: { Self → Option (List ℕ) };

    /// Writes some octets from the front of `bytes` and answers how many, as std's `write`. An
    /// error and an answer of 0 are faults.
    fn write_some(&mut self, bytes: &[u8]) -> io::Result<usize>
        requires { 0 < length bytes.now }
        ensures bound { WritesAtMost result bytes.now }
        ensures bytes { WriteAppends (contents self.old) (contents self.new) result bytes.now }
        ensures faults { CountsWriteFault (Self.fault_count self.old)
            (Self.fault_count self.new) result };
}

/// A reader or a writer of std, with its faults and its reads counted.
#[derive(Drop)]
pub struct Counted<D> {
    inner: D,
    faults: u64,
    calls: u64,
}

/// The count after one more event. At the greatest `u64` it stays.
fn count_after(count: u64) -> u64
    ensures { result ≡ next_count count }
{
    count.saturating_add(1)
}

impl<D> Counted<D> {
    ghost use Rattle.devices.specs.view.Counted.{device_of, faults_of, calls_of};

    /// Counts nothing yet.
    pub fn new(inner: D) -> Counted<D>
        ensures device { device_of result ≡ inner }
        ensures faults { faults_of result ≡ 0 }
        ensures calls { calls_of result ≡ 0 }
    {
        Counted {
            inner,
            faults: 0,
            calls: 0,
        }
    }

    /// The device inside. The counts are lost.
    pub fn into_inner(self) -> D
        ensures { result ≡ device_of self }
    {
        self.inner
    }
}

impl<D> Faults for Counted<D> {
    ghost fault_count = { λ counted. counted.faults };

    fn faults(&self) -> u64 {
        self.faults
    }
}

impl<R: Read> Source for Counted<R> {
    ghost call_count = { λ counted. counted.calls };

    ghost remaining = { λ counted. R.remaining counted.inner };

    fn calls(&self) -> u64 {
        self.calls
    }

    fn read_some(&mut self, buf: &mut [u8]) -> io::Result<usize> {
        self.calls = count_after(self.calls);
        let answer = self.inner.read(buf);
        if answer.is_err() {
            self.faults = count_after(self.faults);
        }
        answer
    }
}

impl<W: Write> Sink for Counted<W> {
    ghost contents = { λ counted. W.contents counted.inner };

    fn write_some(&mut self, bytes: &[u8]) -> io::Result<usize> {
        let answer = self.inner.write(bytes);
        if !matches!(answer, Ok(n) if n > 0) {
            self.faults = count_after(self.faults);
        }
        answer
    }
}
