//! Writers over writers that take little, interrupt or give up, and counts of reads and faults.

use super::{holds, same};
use devices::{Counted, Faults, Source, write_quoted};
use std::io;
use std::io::{ErrorKind, Read, Write};
use std::process::Abort;

/// The answer of a writer without room.
#[derive(Clone, Copy)]
enum Full {
    Zero,
    Broken,
}

/// A writer that takes one octet a call, after some interruptions, while it has room.
#[derive(Drop)]
struct Slow {
    taken: Vec<u8>,
    room: usize,
    full: Full,
    interruptions: u32,
    interrupted: u32,
}

impl Write for Slow {
    fn write(&mut self, buf: &[u8]) -> io::Result<usize> {
        if self.interrupted < self.interruptions {
            self.interrupted += 1;
            return Err(io::Error::from(ErrorKind::Interrupted));
        }
        self.interrupted = 0;
        if self.taken.len() >= self.room {
            return match self.full {
                Full::Zero => Ok(0),
                Full::Broken => Err(io::Error::from(ErrorKind::BrokenPipe)),
            };
        }
        match buf.first() {
            None => Ok(0),
            Some(octet) => {
                self.taken.push(*octet)?;
                Ok(1)
            }
        }
    }

    fn flush(&mut self) -> io::Result<()> {
        Ok(())
    }
}

/// A reader that fails.
#[derive(Drop)]
struct Broken;

impl Read for Broken {
    fn read(&mut self, _buf: &mut [u8]) -> io::Result<usize> {
        Err(io::Error::from(ErrorKind::BrokenPipe))
    }
}

/// The room, the answer without room, and the interruptions before each octet. Then whether
/// printing `abc` between quotes succeeds, the octets taken, and the faults.
type Row<'a> = (usize, Full, u32, bool, &'a [u8], u64);

/// Prints to a writer, and compares whether that succeeds, and the faults.
fn check_printing(
    rt: &impl Abort,
    writer: &mut Counted<Slow>,
    row: &[u8],
    is_ok: bool,
    faults: u64,
) {
    let result = write_quoted(b"abc", writer);
    holds(rt, row, result.is_ok() == is_ok);
    holds(rt, row, writer.faults() == faults);
}

fn check_row(rt: &(impl AllocGlobal + Abort), number: u8, row: &Row<'_>) {
    let (room, full, interruptions, is_ok, text, faults) = *row;
    let mut writer = Counted::new(Slow {
        taken: Vec::new(rt.alloc()),
        room,
        full,
        interruptions,
        interrupted: 0,
    });
    check_printing(rt, &mut writer, &[number], is_ok, faults);
    same(rt, &[number], &writer.into_inner().taken, text);
}

#[test]
fn tries_an_interrupted_write_a_thousand_times(rt: HostRuntime) {
    check_row(&rt, 1, &(9, Full::Zero, 0, true, b"\"abc\"", 0));
    check_row(&rt, 2, &(3, Full::Zero, 0, false, b"\"ab", 1));
    check_row(&rt, 3, &(4, Full::Broken, 0, false, b"\"abc", 1));
    check_row(&rt, 4, &(0, Full::Broken, 0, false, b"", 1));
    check_row(&rt, 5, &(9, Full::Broken, 1_000, true, b"\"abc\"", 5_000));
    check_row(&rt, 6, &(9, Full::Broken, 1_001, false, b"", 1_001));
}

/// Reads twice from a reader that fails, and compares.
fn check_broken(rt: &impl Abort) {
    let mut buf = [0u8; 2];
    let mut reader = Counted::new(Broken);
    let first = reader.read_some(&mut buf).is_err();
    let second = reader.read_some(&mut buf).is_err();
    holds(rt, b"failing reads", first && second);
    holds(
        rt,
        b"their counts",
        reader.calls() == 2 && reader.faults() == 2,
    );
}

/// Reads three octets to their end, two at a time, and compares.
fn check_reads(rt: &impl Abort) {
    let mut buf = [0u8; 2];
    let mut reader = Counted::new(b"abc".as_slice());
    holds(
        rt,
        b"two octets",
        reader.read_some(&mut buf).ok() == Some(2),
    );
    holds(rt, b"the third", reader.read_some(&mut buf).ok() == Some(1));
    holds(rt, b"the end", reader.read_some(&mut buf).ok() == Some(0));
    holds(
        rt,
        b"the counts",
        reader.calls() == 3 && reader.faults() == 0,
    );
    same(rt, b"what is left", reader.into_inner(), b"");
}

#[test]
fn counts_reads_and_faults(rt: HostRuntime) {
    check_reads(&rt);
    check_broken(&rt);
}
