//! Sessions and dumps over writers that fail at some calls and work at all others.

use super::failing_reads::{Failures, LASTING, MAIN_REPORT, MESSAGE_REPORT, SCRIPT_REPORT};
use super::{At, REPLIES, REPORT, SESSION, TURNS, check_report, holds, personal};
use session_server::{
    Bench, Counted, End, Faults, Meter, Profile, SessionEnd, TestEnd, dump_text, session,
};
use std::alloc::Global;
use std::io;
use std::io::{ErrorKind, Write};
use std::process::Abort;
use std::test::Fail;

/// The script that is dumped, and its dump: 34 octets.
const SCRIPT: &[u8] = b"keep;\ndiscard;\n";

const DUMP: &[u8] = b"0: keep internal @1\n1: discard @2\n";

/// A writer that takes at most `piece` octets a call. If it fails without a kind, it takes none.
#[derive(Drop)]
struct Balking {
    taken: Vec<u8>,
    piece: usize,
    failures: Failures,
    kind: Option<ErrorKind>,
    calls: u64,
}

impl Balking {
    fn new(alloc: Global, piece: usize, failures: Failures, kind: Option<ErrorKind>) -> Balking {
        Balking {
            taken: Vec::new(alloc),
            piece,
            failures,
            kind,
            calls: 0,
        }
    }
}

impl Write for Balking {
    fn write(&mut self, buf: &[u8]) -> io::Result<usize> {
        self.calls = self.calls.saturating_add(1);
        if self.failures.strike() {
            return match self.kind {
                Some(kind) => Err(io::Error::from(kind)),
                None => Ok(0),
            };
        }
        let len = buf.len().min(self.piece);
        self.taken.extend_from_slice(&buf[..len])?;
        Ok(len)
    }

    fn flush(&mut self) -> io::Result<()> {
        Ok(())
    }
}

/// The output that is written.
#[derive(Clone, Copy)]
enum Output {
    /// The replies of the session.
    Replies,
    /// The dump of the script.
    Dump,
}

impl Output {
    /// The whole output, the end if it could be written, and the end if it couldn't.
    fn whole(self) -> (&'static [u8], End, End) {
        match self {
            Output::Replies => (
                REPLIES,
                End::Session(SessionEnd::Done),
                End::Session(SessionEnd::Write),
            ),
            Output::Dump => (DUMP, End::Test(TestEnd::Clean), End::Test(TestEnd::Write)),
        }
    }

    /// The report of the bench after so much was written. A command is carried out before it is
    /// answered.
    fn report_after(self, octets: usize) -> &'static [u8] {
        match (self, octets) {
            (Output::Dump, _) => REPORT,
            (Output::Replies, 0..=2) => SCRIPT_REPORT,
            (Output::Replies, 3..=5) => MESSAGE_REPORT,
            (Output::Replies, _) => MAIN_REPORT,
        }
    }

    /// The name of the output in a message.
    fn name(self) -> &'static str {
        match self {
            Output::Replies => "replies",
            Output::Dump => "a dump",
        }
    }

    /// Writes the output, and returns how that ended.
    fn write(self, alloc: Global, bench: &mut Bench, writer: &mut Counted<Balking>) -> End {
        match self {
            Output::Replies => End::Session(session(
                bench,
                &mut Meter::new(),
                &mut Counted::new(SESSION),
                writer,
                TURNS,
            )),
            Output::Dump => End::Test(dumped(alloc, writer)),
        }
    }
}

/// Dumps the script, and returns how that ended.
fn dumped(alloc: Global, writer: &mut Counted<Balking>) -> TestEnd {
    match personal(alloc, b"a") {
        Ok(name) => dump_text(alloc, Profile::new(), &name, SCRIPT, writer),
        Err(_) => TestEnd::NoMemory,
    }
}

/// How writing an output ended, and the counts of calls and faults.
type Written = (End, u64, u64);

/// Compares the octets that a writer took with an output that was written whole or in part.
fn check_taken(
    rt: &(impl AllocGlobal + Abort),
    bench: &mut Bench,
    output: Output,
    taken: &[u8],
    at: At<'_>,
    end: End,
) -> Result<(), Fail> {
    let (whole, done, _) = output.whole();
    holds(rt, at, whole.starts_with(taken));
    holds(rt, at, (taken.len() == whole.len()) == (end == done));
    check_report(rt, bench, output.report_after(taken.len()))
}

/// Writes an output to a writer, and compares how that ends. The whole output is written if the
/// writer didn't fail, and a front of it if it did.
fn check_written_on(
    rt: &(impl AllocGlobal + Abort),
    bench: &mut Bench,
    output: Output,
    balking: Balking,
    (end, calls, faults): Written,
) -> Result<(), Fail> {
    let at = (
        output.name(),
        balking.failures.before,
        balking.failures.times,
    );
    let mut writer = Counted::new(balking);
    holds(rt, at, output.write(rt.alloc(), bench, &mut writer) == end);
    holds(rt, at, writer.faults() == faults);
    let balking = writer.into_inner();
    holds(rt, at, balking.calls == calls);
    check_taken(rt, bench, output, &balking.taken, at, end)
}

/// Writes an output on a new bench to a writer, and compares. The writer takes at most `piece`
/// octets a call, and fails in this way.
fn check_written(
    rt: &(impl AllocGlobal + Abort),
    output: Output,
    piece: usize,
    failures: Failures,
    kind: Option<ErrorKind>,
    wanted: Written,
) -> Result<(), Fail> {
    let mut bench = Bench::new(rt.alloc())?;
    let balking = Balking::new(rt.alloc(), piece, failures, kind);
    check_written_on(rt, &mut bench, output, balking, wanted)
}

/// The number of calls in which an output is written on a bench to a writer.
fn calls_on(alloc: Global, bench: &mut Bench, output: Output, balking: Balking) -> u64 {
    let mut writer = Counted::new(balking);
    let _ = output.write(alloc, bench, &mut writer);
    writer.into_inner().calls
}

/// The number of calls in which an output is written, each of at most `piece` octets.
fn calls_of(alloc: Global, output: Output, piece: usize) -> Result<u64, Fail> {
    let never = Failures {
        before: 0,
        times: 0,
    };
    let mut bench = Bench::new(alloc)?;
    let balking = Balking::new(alloc, piece, never, None);
    Ok(calls_on(alloc, &mut bench, output, balking))
}

/// Writes an output to writers that fail once: at each call in turn, and at the one after the last.
fn check_each_call(
    rt: &(impl AllocGlobal + Abort),
    output: Output,
    piece: usize,
    kind: Option<ErrorKind>,
) -> Result<(), Fail> {
    let (_, done, failed) = output.whole();
    let calls = calls_of(rt.alloc(), output, piece)?;
    for before in 0..calls {
        let failures = Failures { before, times: 1 };
        let wanted = (failed, before + 1, 1);
        check_written(rt, output, piece, failures, kind, wanted)?;
    }
    let after = Failures {
        before: calls,
        times: 1,
    };
    check_written(rt, output, piece, after, kind, (done, calls, 0))
}

/// Compares both outputs over writers that fail once in this way. The writers take one octet a
/// call, or all at once.
fn check_kind(rt: &(impl AllocGlobal + Abort), kind: Option<ErrorKind>) -> Result<(), Fail> {
    check_each_call(rt, Output::Replies, 1, kind)?;
    check_each_call(rt, Output::Replies, usize::MAX, kind)?;
    check_each_call(rt, Output::Dump, 1, kind)?;
    check_each_call(rt, Output::Dump, usize::MAX, kind)
}

/// A write that fails is the last one.
#[test]
fn a_write_that_fails_ends_the_output(rt: HostRuntime) -> Result<(), Fail> {
    check_kind(&rt, Some(ErrorKind::Other))?;
    check_kind(&rt, Some(ErrorKind::WouldBlock))?;
    check_kind(&rt, None)
}

/// Compares replies of which one write fails, for each kind of error but an interruption.
fn check_lasting(rt: &(impl AllocGlobal + Abort)) -> Result<(), Fail> {
    for kind in LASTING {
        check_each_call(rt, Output::Replies, usize::MAX, Some(*kind))?;
    }
    Ok(())
}

/// Only a write that was interrupted is tried again.
#[test]
fn a_write_that_fails_in_any_other_way_is_the_last(rt: HostRuntime) -> Result<(), Fail> {
    check_lasting(&rt)
}

/// An output, the number of octets before the interruptions, and the number of interruptions. Then
/// the wanted results.
type Interrupted = (Output, u64, u64, Written);

/// Writes outputs an octet a call, with interruptions, and compares.
fn check_interrupted(rt: &(impl AllocGlobal + Abort), rows: &[Interrupted]) -> Result<(), Fail> {
    for (output, before, times, wanted) in rows {
        let failures = Failures {
            before: *before,
            times: *times,
        };
        let kind = Some(ErrorKind::Interrupted);
        check_written(rt, *output, 1, failures, kind, *wanted)?;
    }
    Ok(())
}

/// A write that is interrupted is tried again.
#[test]
fn so_many_writes_may_be_interrupted(rt: HostRuntime) -> Result<(), Fail> {
    let (_, replied, unreplied) = Output::Replies.whole();
    let (_, dumped, undumped) = Output::Dump.whole();
    check_interrupted(
        &rt,
        &[
            (Output::Replies, 0, 1_000, (replied, 1_159, 1_000)),
            (Output::Replies, 158, 1_000, (replied, 1_159, 1_000)),
            (Output::Replies, 0, 1_001, (unreplied, 1_001, 1_001)),
            (Output::Replies, 4, 1_001, (unreplied, 1_005, 1_001)),
            (Output::Replies, 158, 1_001, (unreplied, 1_159, 1_001)),
            (Output::Dump, 20, 1_000, (dumped, 1_034, 1_000)),
            (Output::Dump, 0, 1_001, (undumped, 1_001, 1_001)),
            (Output::Dump, 33, 1_001, (undumped, 1_034, 1_001)),
        ],
    )
}
