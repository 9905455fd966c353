//! Prints the code of a script.
ghost use Rattle.std.specs.Prelude.{◌≡◌, ◌≤◌, IfOk, length};
ghost use Rattle.sieve_limits.specs.Limits.{text_limit};
ghost use Rattle.devices.specs.Writers.{Wrote, WroteFront, Writes};
ghost use Rattle.sieve_check.specs.Judgement.{judgement_of};
ghost use Rattle.sieve_code.specs.view.Code.{ops_of};
ghost use Rattle.bench.specs.Dump.{DumpEnds, code_text, dump_end_of, dump_text_of};

use crate::report_lines::write_script;
use crate::test_end::TestEnd;
use devices::{Sink, WriteFault};
use octets::Octets;
use script_names::ScriptName;
use sieve_code::Code;
use sieve_dump::write_operation;
use sieve_limits::{MAX_NAME, MAX_TEXT};
use sieve_profile::Profile;
use sieve_run::{Found, Script};
use std::alloc::{AllocError, Global};

/// Writes the lines of code, one operation a line. Where the writer fails, a front of them is
/// written.
pub fn write_code<W: Sink>(code: &Code, writer: &mut W) -> Result<(), WriteFault>
    ensures { Writes W.contents W.fault_count result writer.old writer.new
        (code_text (ops_of code.now)) }
{
    for i in 0..code.len() {
        write_operation(code, i, writer)?;
    }
    Ok(())
}

/// Writes the code of a script, or its line of a report where it has a fault.
fn write_judged<W: Sink>(
    name: &ScriptName,
    script: &Script,
    writer: &mut W,
) -> Result<(), WriteFault>
    requires { length script.now.text ≤ text_limit }
    ensures { Writes W.contents W.fault_count result writer.old writer.new
        (dump_text_of script.now.profile name.now script.now.text) }
{
    match script.found() {
        Found::Present(code) => write_code(code, writer),
        Found::Invalid => write_script(name, script, writer),
        Found::Missing => unreachable!("the script is there"),
    }
}

/// The end that is due for a script.
fn due_end(script: &Script) -> TestEnd
    ensures { result ≡ dump_end_of (judgement_of script.now.profile script.now.text) }
{
    match script.fault() {
        None => TestEnd::Clean,
        Some(_) => TestEnd::Faulty,
    }
}

/// The script of a text, under a profile.
fn script_of(alloc: Global, profile: Profile, text: &[u8]) -> Result<Script, AllocError>
    requires { length text.now ≤ text_limit }
    ensures { IfOk result (λ script. script ≡ record { profile = profile; text = text.now }) }
{
    Script::new(alloc, profile, Octets::copied(alloc, text)?)
}

/// Writes the code of a script's text under a profile, one operation a line. Where the text has a
/// fault, it writes the script's line of a report.
///
/// `Clean` says that the code was written, and `Faulty` that the line was. `TooLarge`: the text has
/// more than 1,048,576 octets, or the name more than 1,024; nothing was written. `Write`: the
/// writer failed, and a front was written. `NoMemory`: nothing was written. `Full` is never
/// answered.
pub fn dump_text<W: Sink>(
    alloc: Global,
    profile: Profile,
    name: &ScriptName,
    text: &[u8],
    writer: &mut W,
) -> TestEnd
    ensures { DumpEnds result profile name.now text.now
        (Wrote W.contents W.fault_count writer.old writer.new)
        (WroteFront W.contents W.fault_count writer.old writer.new) (writer.new ≡ writer.old) }
{
    if name.name.as_slice().len() > MAX_NAME || text.len() > MAX_TEXT {
        return TestEnd::TooLarge;
    }
    let Ok(script) = script_of(alloc, profile, text) else {
        return TestEnd::NoMemory;
    };
    match write_judged(name, &script, writer) {
        Ok(()) => due_end(&script),
        Err(_) => TestEnd::Write,
    }
}
