//! Prints the code of the script in a file.

use crate::complaints::{complain, complain_of};
use crate::files::{octets_in, script_name};
use crate::streams::Output;
use devices::Counted;
use session_server::{
    End, Location, Profile, ScriptName, SessionEnd, TestEnd, dump_text, status_of,
};
use sieve_limits::MAX_TEXT;
use std::alloc::{AllocError, Global};
use std::io;
use std::io::{ErrorKind, Write};
use std::rt::Files;

/// Prints the code of the script in the file at a path. If the script has a fault, its line of a
/// report is printed instead. The script is personal, under the name of its file. Returns the
/// status of the process.
pub(crate) fn run_dump(
    rt: &(impl AllocGlobal + Files + Print + Eprint),
    profile: Profile,
    path: &str,
) -> u8 {
    let text = match octets_in(rt, path, MAX_TEXT) {
        Ok(text) => text,
        Err(e) if e.kind() == ErrorKind::OutOfMemory => return end_with(
            rt,
            path,
            TestEnd::NoMemory,
        ),
        Err(_) => {
            complain_of(rt, "cannot read", path.as_bytes());
            return status_of(End::Session(SessionEnd::Read));
        }
    };
    let end = dump_over(rt.alloc(), profile, path, &text, io::writer(rt));
    end_with(rt, path, end)
}

/// Prints what went wrong on standard error, and returns the status.
fn end_with(rt: &(impl AllocGlobal + Eprint), path: &str, end: TestEnd) -> u8 {
    match end {
        TestEnd::TooLarge => complain_of(rt, "too large", path.as_bytes()),
        TestEnd::Write => complain(rt, "cannot write"),
        TestEnd::NoMemory => complain(rt, "out of memory"),
        TestEnd::Clean | TestEnd::Faulty | TestEnd::Full => {}
    }
    status_of(End::Test(end))
}

/// Writes the dump of a text.
fn dump_over<W: Write + Drop>(
    alloc: Global,
    profile: Profile,
    path: &str,
    text: &[u8],
    output: W,
) -> TestEnd {
    match named(alloc, path) {
        Ok(name) => dump_on(alloc, profile, &name, text, output),
        Err(_) => TestEnd::NoMemory,
    }
}

/// Writes the dump of a text under a name, and writes out the octets that are still held.
fn dump_on<W: Write + Drop>(
    alloc: Global,
    profile: Profile,
    name: &ScriptName,
    text: &[u8],
    output: W,
) -> TestEnd {
    let Ok(held) = Output::held(alloc, output) else {
        return TestEnd::NoMemory;
    };
    let mut writer = Counted::new(held);
    let end = dump_text(alloc, profile, name, text, &mut writer);
    match writer.into_inner().flush() {
        Ok(()) => end,
        Err(_) => TestEnd::Write,
    }
}

/// The name of the script at a path.
fn named(alloc: Global, path: &str) -> Result<ScriptName, AllocError> {
    let name = Vec::from_slice(alloc, script_name(path).as_bytes())?;
    Ok(ScriptName::new(Location::Personal, name))
}
