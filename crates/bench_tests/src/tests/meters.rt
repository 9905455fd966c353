//! The number of runs that sessions make.

use super::{TURNS, holds};
use session_server::{Bench, Counted, Meter, SessionEnd, session};
use std::alloc::AllocError;
use std::process::Abort;

/// Serves a session on a bench, and compares the number of runs.
fn check_served(rt: &impl Abort, bench: &mut Bench, writer: Vec<u8>, input: &[u8], runs: u64) {
    let mut meter = Meter::new();
    let mut reader = Counted::new(input);
    let end = session(
        bench,
        &mut meter,
        &mut reader,
        &mut Counted::new(writer),
        TURNS,
    );
    let at = ("a session of so many octets", input.len() as u64, runs);
    holds(rt, at, end == SessionEnd::Done && meter.runs() == runs);
}

/// Serves a session on a new bench, and compares the number of runs.
fn check_session_runs(
    rt: &(impl AllocGlobal + Abort),
    input: &[u8],
    runs: u64,
) -> Result<(), AllocError> {
    let mut bench = Bench::new(rt.alloc())?;
    check_served(rt, &mut bench, Vec::new(rt.alloc()), input, runs);
    Ok(())
}

#[test]
fn a_session_counts_the_runs_of_its_reports(rt: HostRuntime) -> Result<(), AllocError> {
    check_session_runs(
        &rt,
        b"script personal main 9\ndiscard;\nmessage m1 0\nmain personal main\nreport\n",
        1,
    )?;
    check_session_runs(
        &rt,
        b"message a 0\nmessage b 0\nreport\nmessage c 0\nreport\n",
        3,
    )?;
    check_session_runs(&rt, b"message a 0\ndrop-message a\nreport\n", 0)?;
    check_session_runs(
        &rt,
        b"script personal main 32\nrequire \"include\"; include \"x\"; message a 0\nmain personal main\nreport\nscript personal x 0\nreport\nscript personal y 0\nreport\nrename personal x personal z\nreport\nrename personal y personal x\nreport\n",
        4,
    )?;
    check_session_runs(
        &rt,
        b"script personal main 41\nrequire \"include\"; include :optional \"x\";message a 0\nmessage b 0\nmain personal main\nreport\nscript personal x 0\nreport\nrename personal main personal other\nreport\n",
        6,
    )?;
    check_session_runs(
        &rt,
        b"script personal main 0\nmessage a 0\nmain personal main\n",
        0,
    )
}
