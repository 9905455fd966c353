//! Marks on standard error around a call. On standard output, the call's answer and the state that
//! it left.

ghost use Rattle.std.specs.Prelude.{◌≤◌, IfOk, length};

use devices::{Counted, Piece, WriteFault, write_pieces};
use script_names::{Location, ScriptName};
use sieve_verdict::{Verdict, write_action, write_error, write_implicit, write_lookup};
use std::alloc::AllocError;
use std::borrow::CowSlice;
use std::io;
use std::io::ErrorKind;

/// A runtime that calls are made on. It has an allocator, standard output and standard error.
pub(crate) trait Host: AllocGlobal + Print + Eprint {}

impl<R: AllocGlobal + Print + Eprint> Host for R {}

/// A mark before a call or after it. Memory that is asked for between two marks is the call's. A
/// mark is one write, and nothing else is written to standard error.
pub(crate) fn mark(rt: &impl Eprint) {
    let _ = rt.eprint("-\n");
}

/// A value that is made before a call. All values are sound, so they are refused for memory alone.
pub(crate) fn prepared<T, E: Drop>(made: Result<T, E>) -> io::Result<T> {
    match made {
        Ok(value) => Ok(value),
        Err(_) => Err(io::Error::from(ErrorKind::OutOfMemory)),
    }
}

/// The name of a personal script.
pub(crate) fn personal(rt: &impl Host, name: &[u8]) -> Result<ScriptName, AllocError>
    requires { length name.now ≤ 1024 }
    ensures { IfOk result (λ made. length made.name ≤ 1024) }
{
    Ok(ScriptName::new(Location::Personal, Vec::from_slice(rt.alloc(), name)?))
}

/// Prints that memory was refused.
pub(crate) fn tell_refused(rt: &impl Print) -> io::Result<()> {
    println!(rt; "no memory")
}

/// Prints that something is done.
pub(crate) fn tell_done(rt: &impl Print, done: Result<(), AllocError>) -> io::Result<()> {
    match done {
        Ok(()) => println!(rt; "ok"),
        Err(_) => tell_refused(rt),
    }
}

/// The result of a write. A failed write is a broken pipe.
pub(crate) fn written(done: Result<(), WriteFault>) -> io::Result<()> {
    done.map_err(|_| io::Error::from(ErrorKind::BrokenPipe))
}

/// Ends a line that was written.
pub(crate) fn end_line(rt: &impl Print, done: Result<(), WriteFault>) -> io::Result<()> {
    written(done)?;
    println!(rt)
}

/// Prints a line of pieces.
pub(crate) fn tell(rt: &impl Print, pieces: &[Piece<'_>]) -> io::Result<()> {
    end_line(rt, write_pieces(pieces, &mut Counted::new(io::writer(rt))))
}

/// Prints octets, in quotes.
pub(crate) fn tell_octets(rt: &impl Print, octets: &[u8]) -> io::Result<()> {
    tell(rt, &[Piece::Quoted(octets)])
}

/// Prints octets that may be borrowed, or that they were refused.
pub(crate) fn tell_value(
    rt: &impl Print,
    value: Result<CowSlice<'_, u8>, AllocError>,
) -> io::Result<()> {
    match value {
        Ok(octets) => tell_octets(rt, octets.as_slice()),
        Err(_) => tell_refused(rt),
    }
}

/// Prints a verdict as a report does, but for the spaces before its lines.
pub(crate) fn tell_verdict(rt: &impl Print, verdict: &Verdict) -> io::Result<()> {
    let mut writer = Counted::new(io::writer(rt));
    for entry in verdict.entries() {
        end_line(rt, write_action(&entry.action, &mut writer))?;
    }
    if let Some(flags) = verdict.implicit() {
        end_line(rt, write_implicit(b"INBOX", flags, &mut writer))?;
    }
    if let Some(error) = verdict.error() {
        end_line(rt, write_error(error, &mut writer))?;
    }
    for (name, is_present) in verdict.lookups() {
        end_line(rt, write_lookup(name, *is_present, &mut writer))?;
    }
    Ok(())
}
