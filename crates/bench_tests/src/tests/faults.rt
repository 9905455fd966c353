//! The numbers of refusals and ends, and the texts that refusals print.
//!
//! A refusal with fields has no number of its own. Its variants are listed in the order of their
//! numbers.

use super::{holds, same};
use session_server::{EditFault, ReportFault, SessionEnd, TestEnd, UsageFault};
use std::alloc::AllocError;
use std::fmt::Display;
use std::process::Abort;

/// Compares each number.
fn check_numbers(rt: &impl Abort, rows: &[(u8, u8)]) {
    for (number, wanted) in rows {
        let at = ("a number", *number as u64, *wanted as u64);
        holds(rt, at, *number == *wanted);
    }
}

#[test]
fn refusals_and_ends_have_their_numbers(rt: HostRuntime) {
    check_numbers(
        &rt,
        &[
            (EditFault::NoSuchScript as u8, 1),
            (EditFault::NameTaken as u8, 2),
            (EditFault::NoSuchMessage as u8, 3),
            (EditFault::Full as u8, 4),
            (EditFault::TooLarge as u8, 5),
            (EditFault::NoMemory as u8, 6),
            (ReportFault::NoMemory as u8, 1),
            (ReportFault::Write as u8, 2),
            (SessionEnd::Done as u8, 0),
            (SessionEnd::Syntax as u8, 1),
            (SessionEnd::Truncated as u8, 2),
            (SessionEnd::Read as u8, 3),
            (SessionEnd::Write as u8, 4),
            (SessionEnd::NoMemory as u8, 5),
            (SessionEnd::TurnLimit as u8, 6),
            (TestEnd::Clean as u8, 0),
            (TestEnd::Faulty as u8, 1),
            (TestEnd::TooLarge as u8, 2),
            (TestEnd::Full as u8, 3),
            (TestEnd::Write as u8, 4),
            (TestEnd::NoMemory as u8, 5),
        ],
    );
}

/// Prints a refusal, and compares.
fn check_printed(
    rt: &(impl AllocGlobal + Abort),
    fault: impl Display + Drop,
    text: &str,
) -> Result<(), AllocError> {
    let printed = format!(in rt.alloc(); "{fault}")?;
    same(rt, ("a refusal", 0, 0), printed.as_bytes(), text.as_bytes());
    Ok(())
}

#[test]
fn refusals_print_their_texts(rt: HostRuntime) -> Result<(), AllocError> {
    check_printed(&rt, EditFault::NoSuchScript, "no such script")?;
    check_printed(&rt, EditFault::NameTaken, "the name is taken")?;
    check_printed(&rt, EditFault::NoSuchMessage, "no such message")?;
    check_printed(&rt, EditFault::Full, "the bench is full")?;
    check_printed(&rt, EditFault::TooLarge, "too large")?;
    check_printed(&rt, EditFault::NoMemory, "out of memory")?;
    check_printed(&rt, ReportFault::NoMemory, "out of memory")?;
    check_printed(&rt, ReportFault::Write, "the writer failed")?;
    let text = String::from_str(rt.alloc(), "what is wrong\n")?;
    let mistake = UsageFault::Usage { help: false, text };
    check_printed(&rt, mistake, "what is wrong\n")?;
    check_printed(&rt, UsageFault::NoMemory, "out of memory")
}
