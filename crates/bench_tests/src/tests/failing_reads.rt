//! Sessions over readers that fail at some calls and work at all others.

use super::{At, REPLIES, REPORT, SESSION, TURNS, check_report, holds, same};
use session_server::{Bench, Counted, Faults, Meter, SessionEnd, Source, session};
use std::io;
use std::io::{ErrorKind, Read};
use std::process::Abort;
use std::test::Fail;

/// The report after the session has put its script.
pub(super) const SCRIPT_REPORT: &[u8] =
    b"main none\nenvelope \"\" \"\" mailbox \"INBOX\"\nscript personal \"main\" ok\ntotal 0 messages 0 errors\n";

/// The report after it has put its message too.
pub(super) const MESSAGE_REPORT: &[u8] =
    b"main none\nenvelope \"\" \"\" mailbox \"INBOX\"\nscript personal \"main\" ok\nmessage \"m1\"\n  implicit \"INBOX\"\ntotal 1 messages 0 errors\n";

/// The report after it has made the script main.
pub(super) const MAIN_REPORT: &[u8] =
    b"main personal \"main\"\nenvelope \"\" \"\" mailbox \"INBOX\"\nscript personal \"main\" ok\nmessage \"m1\"\n  discard\n  read personal \"main\"\ntotal 1 messages 0 errors\n";

/// Each kind of error but an interruption.
pub(super) const LASTING: &[ErrorKind] = &[
    ErrorKind::NotFound,
    ErrorKind::PermissionDenied,
    ErrorKind::ConnectionRefused,
    ErrorKind::ConnectionReset,
    ErrorKind::HostUnreachable,
    ErrorKind::NetworkUnreachable,
    ErrorKind::ConnectionAborted,
    ErrorKind::NotConnected,
    ErrorKind::AddrInUse,
    ErrorKind::AddrNotAvailable,
    ErrorKind::NetworkDown,
    ErrorKind::BrokenPipe,
    ErrorKind::AlreadyExists,
    ErrorKind::WouldBlock,
    ErrorKind::NotADirectory,
    ErrorKind::IsADirectory,
    ErrorKind::DirectoryNotEmpty,
    ErrorKind::ReadOnlyFilesystem,
    ErrorKind::FilesystemLoop,
    ErrorKind::StaleNetworkFileHandle,
    ErrorKind::InvalidInput,
    ErrorKind::InvalidData,
    ErrorKind::TimedOut,
    ErrorKind::WriteZero,
    ErrorKind::StorageFull,
    ErrorKind::NotSeekable,
    ErrorKind::QuotaExceeded,
    ErrorKind::FileTooLarge,
    ErrorKind::ResourceBusy,
    ErrorKind::ExecutableFileBusy,
    ErrorKind::Deadlock,
    ErrorKind::CrossesDevices,
    ErrorKind::TooManyLinks,
    ErrorKind::InvalidFilename,
    ErrorKind::ArgumentListTooLong,
    ErrorKind::Unsupported,
    ErrorKind::UnexpectedEof,
    ErrorKind::OutOfMemory,
    ErrorKind::InProgress,
    ErrorKind::Other,
    ErrorKind::Uncategorized,
];

/// The calls at which a device fails: `times` in a row, after `before` at which it works.
#[derive(Clone, Copy)]
pub(super) struct Failures {
    pub before: u64,
    pub times: u64,
}

impl Failures {
    /// Whether the next call is one of them.
    pub(super) fn strike(&mut self) -> bool {
        if self.before > 0 {
            self.before -= 1;
            return false;
        }
        if self.times > 0 {
            self.times -= 1;
            return true;
        }
        false
    }
}

/// A reader that gives at most `piece` octets a call.
#[derive(Clone, Copy)]
struct Faltering<'a> {
    octets: &'a [u8],
    piece: usize,
    failures: Failures,
    kind: ErrorKind,
}

impl Read for Faltering<'_> {
    fn read(&mut self, buf: &mut [u8]) -> io::Result<usize> {
        if self.failures.strike() {
            return Err(io::Error::from(self.kind));
        }
        let len = self.octets.len().min(self.piece).min(buf.len());
        buf[..len].copy_from_slice(&self.octets[..len]);
        self.octets = &self.octets[len..];
        Ok(len)
    }
}

/// The wanted results of a session: its row in a message, its end, and the text that it writes.
/// Also the report of the bench after it, and the counts of reads and faults.
#[derive(Clone, Copy)]
struct Outcome<'a> {
    at: At<'a>,
    end: SessionEnd,
    text: &'a [u8],
    report: &'a [u8],
    calls: u64,
    faults: u64,
}

/// Serves the input of a reader on a bench, and compares the results.
fn check_read_on(
    rt: &(impl AllocGlobal + Abort),
    bench: &mut Bench,
    reader: &mut Counted<Faltering<'_>>,
    turns: u64,
    wanted: &Outcome<'_>,
) -> Result<(), Fail> {
    let mut writer = Counted::new(Vec::new(rt.alloc()));
    let end = session(bench, &mut Meter::new(), reader, &mut writer, turns);
    let at = wanted.at;
    holds(rt, at, end == wanted.end);
    holds(rt, at, reader.calls() == wanted.calls);
    holds(rt, at, reader.faults() == wanted.faults);
    same(rt, at, &writer.into_inner(), wanted.text);
    check_report(rt, bench, wanted.report)
}

/// Serves the input of a reader on a new bench, and compares the results.
fn check_read(
    rt: &(impl AllocGlobal + Abort),
    input: Faltering<'_>,
    turns: u64,
    wanted: &Outcome<'_>,
) -> Result<(), Fail> {
    let mut bench = Bench::new(rt.alloc())?;
    check_read_on(rt, &mut bench, &mut Counted::new(input), turns, wanted)
}

/// The text that the session writes after it has read so many octets, with more to come. Also the
/// report of the bench then.
fn left_by(octets: u64) -> (&'static [u8], &'static [u8]) {
    match octets {
        0..=31 => (b"", REPORT),
        32..=44 => (b"ok\n", SCRIPT_REPORT),
        45..=63 => (b"ok\nok\n", MESSAGE_REPORT),
        64..=70 => (b"ok\nok\nok\n", MAIN_REPORT),
        _ => (REPLIES, MAIN_REPORT),
    }
}

/// A run of the session, an octet a read. First the number of reads before the failures, of
/// failures, and of reads that may be made. Then the octets that are read, the end, and the counts
/// of reads and faults.
type Run = (u64, u64, u64, u64, SessionEnd, u64, u64);

/// Runs the session over a reader that fails in this way, and compares.
fn check_run(
    rt: &(impl AllocGlobal + Abort),
    (what, kind): (&str, ErrorKind),
    (before, times, turns, octets, end, calls, faults): Run,
) -> Result<(), Fail> {
    let (text, report) = left_by(octets);
    let input = Faltering {
        octets: SESSION,
        piece: 1,
        failures: Failures { before, times },
        kind,
    };
    let wanted = Outcome {
        at: (what, before, turns),
        end,
        text,
        report,
        calls,
        faults,
    };
    check_read(rt, input, turns, &wanted)
}

/// Compares a session of which one read fails in this way, for each read.
fn check_each_read(
    rt: &(impl AllocGlobal + Abort),
    what: &str,
    kind: ErrorKind,
) -> Result<(), Fail> {
    for before in 0..72 {
        let run = (before, 1, TURNS, before, SessionEnd::Read, before + 1, 1);
        check_run(rt, (what, kind), run)?;
    }
    Ok(())
}

/// A read that fails is the last one. Each command that came whole before it is answered.
#[test]
fn a_read_that_fails_ends_the_session(rt: HostRuntime) -> Result<(), Fail> {
    check_each_read(&rt, "a reset", ErrorKind::ConnectionReset)?;
    check_each_read(&rt, "a read that would block", ErrorKind::WouldBlock)?;
    check_each_read(&rt, "an unexpected end", ErrorKind::UnexpectedEof)?;
    // There is no read after that of the end.
    let run = (72, 1, TURNS, 71, SessionEnd::Done, 72, 0);
    check_run(&rt, ("no reset", ErrorKind::ConnectionReset), run)
}

/// Compares sessions of which one read fails, for each kind of error but an interruption. Each
/// fails after one more read.
fn check_lasting(rt: &(impl AllocGlobal + Abort)) -> Result<(), Fail> {
    for (place, kind) in LASTING.iter().enumerate() {
        let before = place as u64;
        let calls = before.saturating_add(1);
        let run = (before, 1, TURNS, before, SessionEnd::Read, calls, 1);
        check_run(rt, ("no interruption", *kind), run)?;
    }
    Ok(())
}

/// Only a read that was interrupted is tried again.
#[test]
fn a_read_that_fails_in_any_other_way_is_the_last(rt: HostRuntime) -> Result<(), Fail> {
    check_lasting(&rt)
}

/// Compares runs of which some reads are interrupted.
fn check_runs(rt: &(impl AllocGlobal + Abort), runs: &[Run]) -> Result<(), Fail> {
    for run in runs {
        check_run(rt, ("interruptions", ErrorKind::Interrupted), *run)?;
    }
    Ok(())
}

/// A read that is tried again counts as one more read, and as a fault.
#[test]
fn reads_run_out_among_interruptions_too(rt: HostRuntime) -> Result<(), Fail> {
    check_runs(
        &rt,
        &[
            (0, 1_000, TURNS, 71, SessionEnd::Done, 1_072, 1_000),
            (23, 1_000, TURNS, 71, SessionEnd::Done, 1_072, 1_000),
            (71, 1_000, TURNS, 71, SessionEnd::Done, 1_072, 1_000),
            (0, 1_001, TURNS, 0, SessionEnd::Read, 1_001, 1_001),
            (23, 1_001, TURNS, 23, SessionEnd::Read, 1_024, 1_001),
            (40, 1_001, TURNS, 40, SessionEnd::Read, 1_041, 1_001),
            (71, 1_001, TURNS, 71, SessionEnd::Read, 1_072, 1_001),
            (0, 0, 0, 0, SessionEnd::TurnLimit, 0, 0),
            (0, 0, 31, 31, SessionEnd::TurnLimit, 31, 0),
            (0, 0, 32, 32, SessionEnd::TurnLimit, 32, 0),
            (0, 0, 63, 63, SessionEnd::TurnLimit, 63, 0),
            (0, 0, 64, 64, SessionEnd::TurnLimit, 64, 0),
            (0, 0, 71, 71, SessionEnd::TurnLimit, 71, 0),
            (0, 0, 72, 71, SessionEnd::Done, 72, 0),
            (0, 1_000, 1_000, 0, SessionEnd::TurnLimit, 1_000, 1_000),
            (0, 1_000, 1_071, 71, SessionEnd::TurnLimit, 1_071, 1_000),
            (0, 1_000, 1_072, 71, SessionEnd::Done, 1_072, 1_000),
            (23, 1_001, 123, 23, SessionEnd::TurnLimit, 123, 100),
            (40, 1_000, 540, 40, SessionEnd::TurnLimit, 540, 500),
        ],
    )
}

/// How a put is cut. First the number of reads that fail after the last octet, and of reads that
/// may be made. Then the end, the text, the number of reads after the last octet, and of faults.
type Cut<'a> = (u64, u64, SessionEnd, &'a [u8], u64, u64);

/// Serves octets of some commands and a put that is cut, and compares.
fn check_cut_by(
    rt: &(impl AllocGlobal + Abort),
    octets: &[u8],
    (times, turns, end, text, last, faults): Cut<'_>,
) -> Result<(), Fail> {
    let before = octets.len() as u64;
    let input = Faltering {
        octets,
        piece: 1,
        failures: Failures { before, times },
        kind: ErrorKind::UnexpectedEof,
    };
    let wanted = Outcome {
        at: ("a put that is cut", before, turns),
        end,
        text,
        report: b"main personal \"a\"\nenvelope \"\" \"\" mailbox \"INBOX\"\nscript personal \"a\" ok\nmessage \"m\"\n  discard\n  read personal \"a\"\ntotal 1 messages 0 errors\n",
        calls: before.saturating_add(last),
        faults,
    };
    check_read(rt, input, turns, &wanted)
}

/// Cuts a put by the end of the input, by too few reads, and by a read that fails.
fn check_cut(rt: &(impl AllocGlobal + Abort), octets: &[u8]) -> Result<(), Fail> {
    let text = b"ok\nok\nok\nno truncated\n";
    let front = b"ok\nok\nok\n";
    let len = octets.len() as u64;
    check_cut_by(rt, octets, (0, TURNS, SessionEnd::Truncated, text, 1, 0))?;
    check_cut_by(rt, octets, (0, len, SessionEnd::TurnLimit, front, 0, 0))?;
    check_cut_by(rt, octets, (1, TURNS, SessionEnd::Read, front, 1, 1))
}

/// Octets that are kept and octets that are passed over, of scripts and of messages.
#[test]
fn a_put_that_is_cut_puts_nothing(rt: HostRuntime) -> Result<(), Fail> {
    check_cut(
        &rt,
        b"script personal a 8\ndiscard;message m 0\nmain personal a\nscript personal a 5\nke",
    )?;
    check_cut(
        &rt,
        b"script personal a 8\ndiscard;message m 0\nmain personal a\nscript personal a 1048577\nke",
    )?;
    check_cut(
        &rt,
        b"script personal a 8\ndiscard;message m 0\nmain personal a\nmessage n 5\nab",
    )?;
    check_cut(
        &rt,
        b"script personal a 8\ndiscard;message m 0\nmain personal a\nmessage n 16777217\nab",
    )
}

/// Serves octets that come at once, of which the read after `before` others fails, and compares.
fn check_at_once<'a>(
    rt: &(impl AllocGlobal + Abort),
    octets: &[u8],
    before: u64,
    text: &'a [u8],
    report: &'a [u8],
) -> Result<(), Fail> {
    let input = Faltering {
        octets,
        piece: usize::MAX,
        failures: Failures { before, times: 1 },
        kind: ErrorKind::ConnectionReset,
    };
    let wanted = Outcome {
        at: ("octets at once", octets.len() as u64, before),
        end: SessionEnd::Read,
        text,
        report,
        calls: before.saturating_add(1),
        faults: 1,
    };
    check_read(rt, input, TURNS, &wanted)
}

/// Octets that come at once. The commands that are whole are answered, and nothing else is.
#[test]
fn a_reader_that_fails_ends_the_session(rt: HostRuntime) -> Result<(), Fail> {
    check_at_once(&rt, b"", 0, b"", REPORT)?;
    check_at_once(
        &rt,
        b"message m 0\nmain personal main",
        1,
        b"ok\n",
        b"main none\nenvelope \"\" \"\" mailbox \"INBOX\"\nmessage \"m\"\n  implicit \"INBOX\"\ntotal 1 messages 0 errors\n",
    )?;
    check_at_once(
        &rt,
        b"no-main\nscript personal main 9\ndisc",
        1,
        b"ok\n",
        REPORT,
    )?;
    check_at_once(&rt, b"frob", 1, b"", REPORT)
}
