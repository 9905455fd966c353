//! The words of the command line, and the status of each end. Further words are in `examples/rows`
//! and `tools/checks`.

use super::holds;
use session_server::{End, SessionEnd, TestEnd, UsageFault, command_of, status_of};
use std::process::Abort;

/// Compares the status of each end.
fn check_statuses(rt: &impl Abort, rows: &[(&str, End, u8)]) {
    for (what, end, status) in rows {
        holds(rt, (*what, *status as u64, 0), status_of(*end) == *status);
    }
}

#[test]
fn each_end_has_its_status(rt: HostRuntime) {
    check_statuses(
        &rt,
        &[
            ("a session done", End::Session(SessionEnd::Done), 0),
            ("no command", End::Session(SessionEnd::Syntax), 2),
            ("a put that is cut", End::Session(SessionEnd::Truncated), 2),
            ("a failing read", End::Session(SessionEnd::Read), 3),
            ("a failing write", End::Session(SessionEnd::Write), 3),
            ("no memory", End::Session(SessionEnd::NoMemory), 4),
            ("too many reads", End::Session(SessionEnd::TurnLimit), 3),
            ("a clean test", End::Test(TestEnd::Clean), 0),
            ("a faulty test", End::Test(TestEnd::Faulty), 1),
            ("too large a test", End::Test(TestEnd::TooLarge), 2),
            ("too many scripts", End::Test(TestEnd::Full), 2),
            ("a test's failing write", End::Test(TestEnd::Write), 3),
            ("no memory for a test", End::Test(TestEnd::NoMemory), 4),
        ],
    );
}

/// Compares the text that is printed if there are no words.
fn check_fault(rt: &impl Abort, fault: &UsageFault) {
    match fault {
        UsageFault::Usage { help: false, text } => {
            assert!(rt; text.contains("Usage: sievebench <COMMAND>"));
        }
        _ => panic!(rt; "another fault"),
    }
}

/// Compares the answer to an empty list of words.
fn check_no_words(rt: &(impl AllocGlobal + Abort), words: &[&str]) {
    match command_of(rt.alloc(), words) {
        Err(fault) => check_fault(rt, &fault),
        Ok(_) => panic!(rt; "a job"),
    }
}

/// There is not even the program's name.
#[test]
fn words_that_are_none_name_no_job(rt: HostRuntime) {
    check_no_words(&rt, &[]);
}
