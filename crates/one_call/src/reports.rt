//! Benches, their reports and sessions, and further calls of the program.

use crate::benches::{ID, bench_of, make_verdicts, put_empty, tell_report, tell_reported};
use crate::runs::tell_found;
use crate::scripts::tell_end;
use crate::telling::{Host, mark, personal, prepared, tell_refused, tell_verdict};
use bench::{Bench, TestJob, TestScript, test_bench};
use devices::Counted;
use octets::Octets;
use session_server::{
    CommandWord, End, Job, SessionEnd, TestWords, UsageFault, command_of, session, status_of,
};
use sieve_profile::Profile;
use sieve_run::Meter;
use std::alloc::AllocError;
use std::io;

pub(crate) const TEST: &[&str] = &["sievebench", "test", "-fa", "-mBox", "main", "mail"];

pub(crate) const MISTAKE: &[&str] = &["sievebench", "frobnicate"];

/// The number of reads that a session may make.
const TURNS: u64 = 10;

pub(crate) fn make_bench(rt: &impl Host) -> io::Result<()> {
    mark(rt);
    let answer = Bench::new(rt.alloc());
    mark(rt);
    match answer {
        Ok(mut bench) => tell_report(rt, &mut bench, &mut Meter::new()),
        Err(_) => tell_refused(rt),
    }
}

/// Reports on three messages, and then again.
pub(crate) fn report_stale(rt: &impl Host) -> io::Result<()> {
    let mut bench = bench_of(rt)?;
    put_two(rt, &mut bench)?;
    report_twice(rt, &mut bench)
}

fn put_two(rt: &impl Host, bench: &mut Bench) -> io::Result<()> {
    put_empty(rt, bench, b"n")?;
    put_empty(rt, bench, b"o")
}

fn report_twice(rt: &impl Host, bench: &mut Bench) -> io::Result<()> {
    let mut meter = Meter::new();
    report(rt, bench, &mut meter)?;
    tell_report(rt, bench, &mut meter)
}

/// Makes a report, and prints the answer.
fn report(rt: &impl Host, bench: &mut Bench, meter: &mut Meter) -> io::Result<()> {
    let mut writer = Counted::new(io::writer(rt));
    mark(rt);
    let answer = bench.report(meter, &mut writer);
    mark(rt);
    tell_reported(rt, answer, meter)
}

/// Makes a report of a bench whose verdicts are kept.
pub(crate) fn report_kept(rt: &impl Host) -> io::Result<()> {
    let mut bench = bench_of(rt)?;
    let mut meter = Meter::new();
    make_verdicts(&mut bench, &mut meter)?;
    report(rt, &mut bench, &mut meter)
}

pub(crate) fn ask_verdict(rt: &impl Host) -> io::Result<()> {
    let mut bench = bench_of(rt)?;
    make_verdicts(&mut bench, &mut Meter::new())?;
    let id = Octets::copied(rt.alloc(), ID)?;
    mark(rt);
    let answer = bench.verdict(&id);
    mark(rt);
    match answer {
        Some(verdict) => tell_verdict(rt, verdict),
        None => println!(rt; "none"),
    }
}

pub(crate) fn ask_code(rt: &impl Host) -> io::Result<()> {
    let bench = bench_of(rt)?;
    let main = personal(rt, b"main")?;
    mark(rt);
    let answer = bench.code(&main);
    mark(rt);
    tell_found(rt, &answer)
}

pub(crate) fn test(rt: &impl Host) -> io::Result<()> {
    let job = job_of(rt)?;
    let mut meter = Meter::new();
    let mut writer = Counted::new(io::writer(rt));
    mark(rt);
    let end = test_bench(rt.alloc(), &job, &mut meter, &mut writer);
    mark(rt);
    tell_end(rt, end)?;
    println!(rt; "runs {}", meter.runs())
}

/// A job of one script and a mail without octets.
fn job_of(rt: &impl Host) -> Result<TestJob, AllocError> {
    let mut scripts = Vec::new(rt.alloc());
    scripts.push(TestScript {
        name: personal(rt, b"main")?,
        text: Octets::copied(rt.alloc(), b"keep;")?,
    })?;
    Ok(TestJob {
        profile: Profile::new(),
        from: Octets::copied(rt.alloc(), b"a@b.example")?,
        to: Octets::from_vec(Vec::new(rt.alloc())),
        mailbox: Octets::copied(rt.alloc(), b"Box")?,
        mailboxes: Octets::from_vec(Vec::new(rt.alloc())),
        clock: None,
        scripts,
        main: personal(rt, b"main")?,
        id: Octets::copied(rt.alloc(), ID)?,
        message: Octets::from_vec(Vec::new(rt.alloc())),
    })
}

/// Serves a session of two edits. Its end is printed after its replies, and then the state that it
/// left.
pub(crate) fn serve(rt: &impl Host) -> io::Result<()> {
    let mut bench = Bench::new(rt.alloc())?;
    serve_on(rt, &mut bench)
}

fn serve_on(rt: &impl Host, bench: &mut Bench) -> io::Result<()> {
    let mut meter = Meter::new();
    let mut reader = Counted::new(b"mailbox Box\nno-main\n".as_slice());
    let mut writer = Counted::new(io::writer(rt));
    mark(rt);
    let end = session(bench, &mut meter, &mut reader, &mut writer, TURNS);
    mark(rt);
    match end {
        SessionEnd::NoMemory => tell_refused(rt)?,
        _ => println!(rt; "{end:?}")?,
    }
    tell_report(rt, bench, &mut meter)
}

pub(crate) fn read_words(rt: &impl Host, words: &[&str]) -> io::Result<()> {
    mark(rt);
    let answer = command_of(rt.alloc(), words);
    mark(rt);
    match answer {
        Ok(line) => tell_job(rt, &line.job),
        Err(UsageFault::Usage { text, .. }) => rt.print(text.as_str()),
        Err(UsageFault::UnknownName { name }) => println!(rt; "unknown {}", name.as_str()),
        Err(UsageFault::NeedsMailbox) => println!(rt; "needs mailbox"),
        Err(UsageFault::NeedsDate) => println!(rt; "needs date"),
        Err(UsageFault::BadClock { word }) => println!(rt; "no clock {}", word.as_str()),
        Err(UsageFault::NoMemory) => tell_refused(rt),
    }
}

/// Prints the job that words name.
fn tell_job(rt: &impl Print, job: &Job) -> io::Result<()> {
    match job {
        Job::Test(words) => tell_test(rt, words),
        _ => println!(rt; "another job"),
    }
}

/// Prints the words of a test.
fn tell_test(rt: &impl Print, words: &TestWords) -> io::Result<()> {
    println!(rt; "{} {}", words.script.as_str(), words.mail.as_str())?;
    tell_argument(rt, &words.from)?;
    tell_argument(rt, &words.to)?;
    tell_argument(rt, &words.mailbox)
}

/// Prints the value of an option, or `none` if it isn't given.
fn tell_argument(rt: &impl Print, value: &Option<CommandWord>) -> io::Result<()> {
    match value {
        Some(value) => println!(rt; "{}", value.as_str()),
        None => println!(rt; "none"),
    }
}

pub(crate) fn ask_status(rt: &impl Host) -> io::Result<()> {
    mark(rt);
    let status = status_of(End::Session(SessionEnd::NoMemory));
    mark(rt);
    println!(rt; "{status}")
}
