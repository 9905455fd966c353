//! `sievebench`: runs Sieve scripts against sample messages and prints what would happen.
#![tactic(auto)]

mod complaints;
mod dump;
mod files;
mod folder;
mod streams;
mod test_files;
mod test_run;

use complaints::complain;
use devices::Counted;
use dump::run_dump;
use session_server::{
    Bench, CommandLine, End, Job, Meter, Profile, SessionEnd, UsageFault, command_of, session,
    status_of,
};
use std::alloc::Global;
use std::cell::RefCell;
use std::io::{ErrorKind, Read, Write};
use std::process::ExitCode;
use std::rt::{Env, Files};
use std::{env, io};
use streams::{Held, Output, ReplyWriter, Requests};
use test_run::run_test;

/// The number of reads that a session may make.
const SESSION_TURNS: u64 = 1_000_000_000;

/// The status after help was printed, and the status after a mistake in the words.
const HELP_STATUS: u8 = 0;

const USAGE_STATUS: u8 = 2;

fn main(rt: HostRuntime) -> ExitCode {
    ExitCode::from(run(&rt))
}

/// Serves a session. Returns the status of the process.
fn serve(rt: &(impl AllocGlobal + Input + Print + Eprint), profile: Profile) -> u8 {
    let end = run_session(rt, profile);
    if let Some(complaint) = complaint_of(end) {
        complain(rt, complaint);
    }
    status_of(End::Session(end))
}

/// Does the job of the command line, and returns the status of the process.
fn run(rt: &(impl Env + AllocGlobal + Input + Print + Eprint + Files)) -> u8 {
    match asked(rt) {
        Ok(line) => {
            let CommandLine {
                profile,
                clock,
                job,
            } = line;
            match job {
                Job::Session => serve(rt, profile),
                Job::Dump { script } => run_dump(rt, profile, script.as_str()),
                Job::Test(words) => run_test(rt, profile, clock, &words),
            }
        }
        Err(fault) => answer_usage(rt, fault),
    }
}

/// The job that the command line asks for, with its profile and its clock.
fn asked(rt: &(impl Env + AllocGlobal)) -> Result<CommandLine, UsageFault> {
    let words = words_of(rt)?;
    command_of(rt.alloc(), words.as_slice())
}

/// The words of the command line, the program's name first. A word that isn't UTF-8 is a mistake.
fn words_of(rt: &(impl Env + AllocGlobal)) -> Result<Vec<String>, UsageFault> {
    match env::args(rt) {
        Ok(words) => Ok(words.collect(rt.alloc())?),
        Err(e) if e.kind() == ErrorKind::InvalidData => {
            let text = "error: a word of the command line is not UTF-8 text\n";
            Err(UsageFault::Usage {
                help: false,
                text: String::from_str(rt.alloc(), text)?,
            })
        }
        Err(_) => Err(UsageFault::NoMemory),
    }
}

/// Prints help on standard output, and mistakes in the words on standard error. Returns the status
/// of the process.
fn answer_usage(rt: &(impl Print + Eprint), fault: UsageFault) -> u8 {
    match fault {
        UsageFault::Usage { help: true, text } => match rt.print(text.as_str()) {
            Ok(()) => HELP_STATUS,
            Err(_) => {
                complain(rt, "cannot write");
                status_of(End::Session(SessionEnd::Write))
            }
        },
        UsageFault::Usage { help: false, text } => {
            let _ = rt.eprint(text.as_str());
            USAGE_STATUS
        }
        UsageFault::UnknownName { .. }
        | UsageFault::NeedsMailbox
        | UsageFault::NeedsDate
        | UsageFault::BadClock { .. } => {
            let _ = rt.eprint(fault);
            USAGE_STATUS
        }
        UsageFault::NoMemory => {
            complain(rt, "out of memory");
            status_of(End::Session(SessionEnd::NoMemory))
        }
    }
}

/// Runs a session over standard input and output, on a bench of a profile.
fn run_session(rt: &(impl AllocGlobal + Input + Print), profile: Profile) -> SessionEnd {
    run_over(rt.alloc(), profile, rt.reader(), io::writer(rt))
}

/// Runs a session over a reader and a writer, on a bench of a profile.
fn run_over<R: Read + Drop, W: Write + Drop>(
    alloc: Global,
    profile: Profile,
    input: R,
    output: W,
) -> SessionEnd {
    match Bench::with_profile(alloc, profile) {
        Ok(mut bench) => run_on(alloc, &mut bench, input, output),
        Err(_) => SessionEnd::NoMemory,
    }
}

/// Runs a session on a bench, whose replies are held.
fn run_on<R: Read + Drop, W: Write + Drop>(
    alloc: Global,
    bench: &mut Bench,
    input: R,
    output: W,
) -> SessionEnd {
    match Output::held(alloc, output) {
        Ok(held) => run_held(bench, input, &RefCell::new(held)),
        Err(_) => SessionEnd::NoMemory,
    }
}

/// Runs a session on a bench, and writes out the replies that are still held. An output that has
/// failed, even before a read, fails here too.
fn run_held<R: Read + Drop, W: Write + Drop>(
    bench: &mut Bench,
    input: R,
    held: &RefCell<Held<W>>,
) -> SessionEnd {
    let mut reader = Counted::new(Requests::new(input, held));
    let mut writer = Counted::new(ReplyWriter::new(held));
    let end = session(
        bench,
        &mut Meter::new(),
        &mut reader,
        &mut writer,
        SESSION_TURNS,
    );
    match writer.into_inner().flush() {
        Ok(()) => end,
        Err(_) => SessionEnd::Write,
    }
}

/// The complaint on standard error about a session that did not go through.
fn complaint_of(end: SessionEnd) -> Option<&'static str> {
    match end {
        SessionEnd::Read => Some("cannot read standard input"),
        SessionEnd::Write => Some("cannot write"),
        SessionEnd::TurnLimit => Some("too many reads"),
        SessionEnd::NoMemory => Some("out of memory"),
        SessionEnd::Done | SessionEnd::Syntax | SessionEnd::Truncated => None,
    }
}
