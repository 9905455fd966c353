//! Runs a script against a message, both in files.

use crate::complaints::{complain, complain_of};
use crate::files::ReadFault;
use crate::streams::Output;
use crate::test_files::{TestInput, read_test};
use devices::Counted;
use session_server::{
    Clock, End, Meter, Profile, SessionEnd, TestEnd, TestJob, TestWords, status_of, test_bench,
};
use std::alloc::Global;
use std::io;
use std::io::Write;
use std::rt::Files;

/// Reads all that the words name, and then prints the report of a bench of that profile, clock and
/// message. Returns the status of the process.
pub(crate) fn run_test(
    rt: &(impl AllocGlobal + Files + Print + Eprint),
    profile: Profile,
    clock: Option<Clock>,
    words: &TestWords,
) -> u8 {
    match read_test(rt, profile, clock, words) {
        Ok(input) => report_test(rt, &input),
        Err(fault) => answer_fault(rt, &fault),
    }
}

/// Prints on standard error which file could not be read, and returns the status.
fn answer_fault(rt: &(impl AllocGlobal + Eprint), fault: &ReadFault) -> u8 {
    match fault {
        ReadFault::Unreadable(path) => {
            complain_of(rt, "cannot read", path.as_slice());
            status_of(End::Session(SessionEnd::Read))
        }
        ReadFault::NoMemory => {
            complain(rt, "out of memory");
            status_of(End::Test(TestEnd::NoMemory))
        }
    }
}

/// Prints the report, and what went wrong on standard error. Returns the status.
fn report_test(rt: &(impl AllocGlobal + Print + Eprint), input: &TestInput) -> u8 {
    let end = test_over(rt.alloc(), &input.job, io::writer(rt));
    match end {
        TestEnd::TooLarge => complain_of(rt, "too large", input.first_too_large()),
        TestEnd::Full => complain(rt, "too many scripts"),
        TestEnd::Write => complain(rt, "cannot write"),
        TestEnd::NoMemory => complain(rt, "out of memory"),
        TestEnd::Clean | TestEnd::Faulty => {}
    }
    status_of(End::Test(end))
}

/// Writes the report of a job, and writes out the octets that are still held.
fn test_over<W: Write + Drop>(alloc: Global, job: &TestJob, output: W) -> TestEnd {
    let Ok(held) = Output::held(alloc, output) else {
        return TestEnd::NoMemory;
    };
    let mut writer = Counted::new(held);
    let mut meter = Meter::new();
    let end = test_bench(alloc, job, &mut meter, &mut writer);
    match writer.into_inner().flush() {
        Ok(()) => end,
        Err(_) => TestEnd::Write,
    }
}
