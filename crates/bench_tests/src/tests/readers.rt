//! Sessions over readers that give little, interrupt or never end.

use super::{REPLIES, REPORT, SESSION, TURNS, holds, same};
use session_server::{Bench, Counted, Meter, SessionEnd, Source, session};
use std::alloc::{AllocError, Global};
use std::io;
use std::io::{ErrorKind, Read};
use std::process::Abort;

/// Two reports of a new bench.
const TWO_REPORTS: &[u8] =
    b"main none\nenvelope \"\" \"\" mailbox \"INBOX\"\ntotal 0 messages 0 errors\nmain none\nenvelope \"\" \"\" mailbox \"INBOX\"\ntotal 0 messages 0 errors\n";

/// A reader that gives one octet at a time, and is interrupted so often before each.
#[derive(Drop)]
struct Dripping<'a> {
    octets: &'a [u8],
    interruptions: u32,
    left: u32,
}

impl<'a> Dripping<'a> {
    fn new(octets: &'a [u8], interruptions: u32) -> Dripping<'a> {
        Dripping {
            octets,
            interruptions,
            left: interruptions,
        }
    }
}

impl Read for Dripping<'_> {
    fn read(&mut self, buf: &mut [u8]) -> io::Result<usize> {
        if self.left > 0 {
            self.left -= 1;
            return Err(io::Error::from(ErrorKind::Interrupted));
        }
        self.left = self.interruptions;
        let Some((first, rest)) = self.octets.split_first() else {
            return Ok(0);
        };
        let Some(place) = buf.first_mut() else {
            return Ok(0);
        };
        *place = *first;
        self.octets = rest;
        Ok(1)
    }
}

/// Serves a session on a bench, and compares the text that it writes and its end.
fn check_served<R: Source>(
    rt: &(impl AllocGlobal + Abort),
    bench: &mut Bench,
    reader: &mut R,
    turns: u64,
    text: &[u8],
    wanted: SessionEnd,
) {
    let mut writer = Counted::new(Vec::new(rt.alloc()));
    let end = session(bench, &mut Meter::new(), reader, &mut writer, turns);
    let at = ("so many reads", turns, reader.calls());
    holds(rt, at, end == wanted);
    same(rt, at, &writer.into_inner(), text);
}

/// Serves a session on a new bench, and compares.
fn check_ended<R: Source>(
    rt: &(impl AllocGlobal + Abort),
    reader: &mut R,
    turns: u64,
    text: &[u8],
    wanted: SessionEnd,
) -> Result<(), AllocError> {
    let mut bench = Bench::new(rt.alloc())?;
    check_served(rt, &mut bench, reader, turns, text, wanted);
    Ok(())
}

/// Compares the number of reads with which a session is served.
fn check_calls<R: Source>(rt: &impl Abort, reader: &R, turns: u64) {
    let calls = reader.calls();
    holds(rt, ("so many reads", turns, calls), calls == turns);
}

/// Serves the session in single octets, each after some interruptions, and compares.
fn check_dripping(
    rt: &(impl AllocGlobal + Abort),
    interruptions: u32,
    text: &[u8],
    wanted: SessionEnd,
) -> Result<(), AllocError> {
    let mut reader = Counted::new(Dripping::new(SESSION, interruptions));
    check_ended(rt, &mut reader, TURNS, text, wanted)
}

#[test]
fn the_pieces_of_the_input_do_not_matter(rt: HostRuntime) -> Result<(), AllocError> {
    check_dripping(&rt, 0, REPLIES, SessionEnd::Done)?;
    check_dripping(&rt, 1_000, REPLIES, SessionEnd::Done)?;
    check_dripping(&rt, 1_001, b"", SessionEnd::Read)
}

/// Serves a session with exactly so many reads, and compares.
fn check_turns<R: Source>(
    rt: &(impl AllocGlobal + Abort),
    reader: &mut R,
    turns: u64,
    text: &[u8],
    wanted: SessionEnd,
) -> Result<(), AllocError> {
    check_ended(rt, reader, turns, text, wanted)?;
    check_calls(rt, reader, turns);
    Ok(())
}

/// Serves a report in single octets with exactly so many reads, and compares.
fn check_single(
    rt: &(impl AllocGlobal + Abort),
    turns: u64,
    text: &[u8],
    wanted: SessionEnd,
) -> Result<(), AllocError> {
    let mut reader = Counted::new(Dripping::new(b"report", 0));
    check_turns(rt, &mut reader, turns, text, wanted)
}

/// Serves a report in one piece with exactly so many reads, and compares.
fn check_piece(
    rt: &(impl AllocGlobal + Abort),
    turns: u64,
    text: &[u8],
    wanted: SessionEnd,
) -> Result<(), AllocError> {
    let octets: &[u8] = b"report";
    let mut reader = Counted::new(octets);
    check_turns(rt, &mut reader, turns, text, wanted)
}

#[test]
fn the_end_of_the_input_is_read_once(rt: HostRuntime) -> Result<(), AllocError> {
    check_single(&rt, 7, REPORT, SessionEnd::Done)?;
    check_single(&rt, 6, b"", SessionEnd::TurnLimit)
}

#[test]
fn octets_in_one_piece_take_two_reads(rt: HostRuntime) -> Result<(), AllocError> {
    check_piece(&rt, 2, REPORT, SessionEnd::Done)?;
    check_piece(&rt, 1, b"", SessionEnd::TurnLimit)
}

/// A reader of one line, again and again without end.
#[derive(Drop)]
struct Endless<'a>(&'a [u8]);

impl Read for Endless<'_> {
    fn read(&mut self, buf: &mut [u8]) -> io::Result<usize> {
        let len = self.0.len().min(buf.len());
        buf[..len].copy_from_slice(&self.0[..len]);
        Ok(len)
    }
}

/// Serves one line again and again with so many reads, and compares.
fn check_endless(
    rt: &(impl AllocGlobal + Abort),
    line: &[u8],
    turns: u64,
    text: &[u8],
) -> Result<(), AllocError> {
    let mut reader = Counted::new(Endless(line));
    check_turns(rt, &mut reader, turns, text, SessionEnd::TurnLimit)
}

#[test]
fn reads_are_limited(rt: HostRuntime) -> Result<(), AllocError> {
    check_endless(&rt, b"\n", 5, b"")?;
    check_endless(&rt, b"report\n", 1, REPORT)?;
    check_endless(&rt, b"report\n", 2, TWO_REPORTS)?;
    check_endless(&rt, b"report\n", 0, b"")
}

/// Serves octets one at a time, of which the first `calls` are no line. Compares the number of
/// reads after which that is answered.
fn check_refused_line(
    rt: &(impl AllocGlobal + Abort),
    octets: &[u8],
    calls: u64,
) -> Result<(), AllocError> {
    let mut reader = Counted::new(Dripping::new(octets, 0));
    check_ended(rt, &mut reader, TURNS, b"no syntax\n", SessionEnd::Syntax)?;
    check_calls(rt, &reader, calls);
    Ok(())
}

/// Octets after `count` spaces.
fn after_spaces(alloc: Global, count: usize, octets: &[u8]) -> Result<Vec<u8>, AllocError> {
    let mut line = vec![in alloc; b' '; count]?;
    line.extend_from_slice(octets)?;
    Ok(line)
}

#[test]
fn a_line_that_is_refused_is_read_no_further(rt: HostRuntime) -> Result<(), AllocError> {
    check_refused_line(&rt, b"frob\nreport\n", 5)?;
    check_refused_line(
        &rt,
        &after_spaces(rt.alloc(), 16_385, b"\nreport\n")?,
        16_385,
    )?;
    check_refused_line(
        &rt,
        &after_spaces(rt.alloc(), 16_384, b"\rx\nreport\n")?,
        16_386,
    )
}
