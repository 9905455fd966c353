//! The bench's public calls: their answers with ample memory, at their limits, and over devices
//! that fail.
//!
//! Tests that need only octets are in `examples/rows`, and `tools/checks` runs them. They are
//! sessions with their replies, and scripts with their verdicts.

mod failing_reads;
mod failing_writes;
mod faults;
mod kept;
mod limits;
mod meters;
mod readers;
mod test_jobs;
mod usage;

use session_server::{Bench, Counted, Location, Meter, Octets, ScriptName};
use std::alloc::{AllocError, Global};
use std::process::Abort;
use std::test::Fail;

/// The turns that a session of a test may take.
const TURNS: u64 = 1_000_000;

/// The session of most of these tests: 71 octets.
const SESSION: &[u8] =
    b"script personal main 9\ndiscard;\nmessage m1 0\nmain personal main\nreport\n";

/// The octets that the session writes: 159 octets.
const REPLIES: &[u8] =
    b"ok\nok\nok\nmain personal \"main\"\nenvelope \"\" \"\" mailbox \"INBOX\"\nscript personal \"main\" ok\nmessage \"m1\"\n  discard\n  read personal \"main\"\ntotal 1 messages 0 errors\n";

/// The report of a new bench.
const REPORT: &[u8] =
    b"main none\nenvelope \"\" \"\" mailbox \"INBOX\"\ntotal 0 messages 0 errors\n";

/// The name of a comparison, and two numbers that tell its row from others.
type At<'a> = (&'a str, u64, u64);

/// Asserts what must hold of a row.
fn holds(rt: &impl Abort, (what, first, second): At<'_>, condition: bool) {
    assert!(rt; condition, "{what} at {first}, {second}");
}

/// Compares the result of a row with the wanted one.
fn same(rt: &impl Abort, (what, first, second): At<'_>, got: &[u8], wanted: &[u8]) {
    assert_eq!(rt; got, wanted, "{what} at {first}, {second}");
}

/// Makes a report, and compares its text.
fn check_report(
    rt: &(impl AllocGlobal + Abort),
    bench: &mut Bench,
    text: &[u8],
) -> Result<(), Fail> {
    let mut writer = Counted::new(Vec::new(rt.alloc()));
    bench.report(&mut Meter::new(), &mut writer)?;
    same(rt, ("a report", 0, 0), &writer.into_inner(), text);
    Ok(())
}

/// A personal script's name.
fn personal(alloc: Global, name: &[u8]) -> Result<ScriptName, AllocError> {
    Ok(ScriptName::new(Location::Personal, Vec::from_slice(alloc, name)?))
}

/// Puts a message of no octets.
fn put_message(alloc: Global, bench: &mut Bench, id: &[u8]) -> Result<(), Fail> {
    let id = Octets::copied(alloc, id)?;
    Ok(bench.put_message(id, Octets::from_vec(Vec::new(alloc)))?)
}

/// The letter n, `count` times.
fn many(alloc: Global, count: usize) -> Result<Octets, AllocError> {
    Ok(Octets::from_vec(vec![in alloc; b'n'; count]?))
}
