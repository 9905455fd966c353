//! Runs of scripts through the library's calls. Runs of further scripts are in `examples/rows`. The
//! expected results were written by hand from RFC 5228.

ghost use Rattle.std.specs.Prelude.{◌≤◌, IfOk, length};

use super::{holds, same};
use sieve_profile::Profile;
use sieve_run::{
    Action, Entry, Envelope, ErrorKind, Location, Message, Meter, Octets, ScriptName, Shelf,
    Verdict, run,
};
use std::alloc::{AllocError, Global};
use std::process::Abort;
use std::test::Fail;

fn named(alloc: Global, location: Location, name: &[u8]) -> Result<ScriptName, AllocError> {
    Ok(ScriptName::new(location, Vec::from_slice(alloc, name)?))
}

/// The name of the main script.
fn main_name(alloc: Global) -> Result<ScriptName, AllocError>
    ensures { IfOk result (λ main. length main.name ≤ 1024) }
{
    Ok(ScriptName::new(Location::Personal, Vec::from_slice(alloc, b"main")?))
}

/// An envelope without addresses.
fn envelope_of(alloc: Global) -> Result<Envelope, AllocError> {
    let mailbox = Octets::copied(alloc, b"INBOX")?;
    Ok(Envelope {
        from: Octets::from_vec(Vec::new(alloc)),
        to: Octets::from_vec(Vec::new(alloc)),
        mailbox,
        mailboxes: Octets::from_vec(Vec::new(alloc)),
        clock: None,
    })
}

/// A message of no octets.
fn empty_message(alloc: Global) -> Result<Message, Fail> {
    Ok(Message::new(alloc, Vec::new(alloc))?)
}

/// The verdict of a main script on a message.
fn verdict_on(
    alloc: Global,
    shelf: &Shelf,
    main: Option<&ScriptName>,
    (envelope, message): (&Envelope, &Message),
    meter: &mut Meter,
) -> Result<Verdict, Fail> {
    Ok(run(alloc, shelf, main, envelope, None, message, meter)?)
}

/// The verdict of a main script on a message of no octets.
fn verdict_of(
    alloc: Global,
    shelf: &Shelf,
    main: Option<&ScriptName>,
    meter: &mut Meter,
) -> Result<Verdict, Fail> {
    let envelope = envelope_of(alloc)?;
    let message = empty_message(alloc)?;
    verdict_on(alloc, shelf, main, (&envelope, &message), meter)
}

/// Checks the actions of the script of `check_acting`.
fn check_actions(rt: &impl Abort, entries: &[Entry]) {
    match entries {
        [
            Entry {
                action: Action::Store {
                    mailbox,
                    flags,
                    filing,
                },
                ..
            },
            Entry {
                action: Action::Redirect { address },
                ..
            },
            Entry {
                action: Action::Discard,
                ..
            },
        ] => {
            same(rt, "the mailbox", mailbox.as_slice(), b"A");
            holds(rt, "the flags", flags.len() == 1);
            holds(
                rt,
                "no further wishes",
                !filing.create && filing.special_use.is_none(),
            );
            same(rt, "the address", address.as_slice(), b"a@b.example");
        }
        _ => panic!(rt; "another list of actions"),
    }
}

/// The number of actions of a run, and whether the implicit keep stands. Then the line and the kind
/// of its error, and whether the last name that it looked up was there.
type Told = (usize, bool, Option<(u64, ErrorKind)>, Option<bool>);

/// The line and the kind of the error of a run.
fn error_of(verdict: &Verdict) -> Option<(u64, ErrorKind)> {
    match verdict.error() {
        Some(error) => Some((error.line, error.kind)),
        None => None,
    }
}

/// Whether the last name that a run looked up was there.
fn last_read(verdict: &Verdict) -> Option<bool> {
    let mut found = None;
    for (_name, present) in verdict.lookups() {
        found = Some(*present);
    }
    found
}

/// Compares the verdict of a run. A run that has actions is that of `check_acting`.
fn check_told(rt: &impl Abort, row: &str, verdict: &Verdict, wanted: Told) {
    holds(rt, row, verdict.entries().len() == wanted.0);
    if wanted.0 > 0 {
        check_actions(rt, verdict.entries());
    }
    holds(rt, row, verdict.implicit().is_some() == wanted.1);
    holds(rt, row, error_of(verdict) == wanted.2);
    holds(rt, row, last_read(verdict) == wanted.3);
}

/// Runs a main script, and compares its verdict.
fn check_run(
    rt: &(impl AllocGlobal + Abort),
    shelf: &Shelf,
    main: Option<&ScriptName>,
    meter: &mut Meter,
    (row, wanted): (&str, Told),
) -> Result<(), Fail> {
    let verdict = verdict_of(rt.alloc(), shelf, main, meter)?;
    check_told(rt, row, &verdict, wanted);
    Ok(())
}

/// Puts a text on a shelf, runs it, and compares its verdict.
fn check_text(
    rt: &(impl AllocGlobal + Abort),
    shelf: &mut Shelf,
    main: &ScriptName,
    text: &[u8],
    wanted: (&str, Told),
) -> Result<(), Fail>
    requires { length main.now.name ≤ 1024 }
{
    shelf.add(main, text)?;
    check_run(rt, shelf, Some(main), &mut Meter::new(), wanted)
}

/// Runs a script with actions, and compares them.
fn check_acting(
    rt: &(impl AllocGlobal + Abort),
    shelf: &mut Shelf,
    main: &ScriptName,
) -> Result<(), Fail>
    requires { length main.now.name ≤ 1024 }
{
    let text =
        b"require [\"fileinto\", \"imap4flags\"];\nfileinto :flags \"a\" \"A\"; redirect \"Jane <a@b.example>\"; discard;";
    let wanted = (3, false, None, Some(true));
    check_text(rt, shelf, main, text, ("three actions", wanted))
}

/// Runs a text of `count` octets, and compares its verdict.
fn check_long(
    rt: &(impl AllocGlobal + Abort),
    shelf: &mut Shelf,
    main: &ScriptName,
    count: usize,
    wanted: (&str, Told),
) -> Result<(), Fail>
    requires { length main.now.name ≤ 1024 }
{
    let text = vec![in rt.alloc(); b' '; count]?;
    check_text(rt, shelf, main, &text, wanted)
}

/// Makes the runs on one shelf. A text of 1,048,576 octets can be run, and no longer text can.
fn check_all(
    rt: &(impl AllocGlobal + Abort),
    shelf: &mut Shelf,
    main: &ScriptName,
) -> Result<(), Fail>
    requires { length main.now.name ≤ 1024 }
{
    let invalid = (0, true, Some((0, ErrorKind::InvalidScript)), Some(true));
    let kept = (0, true, None, Some(true));
    check_long(rt, shelf, main, 1_048_577, ("too large", invalid))?;
    check_long(rt, shelf, main, 1_048_576, ("at the limit", kept))?;
    check_acting(rt, shelf, main)
}

/// Runs texts at the limit and past it, and one with actions. Each takes the place of the one
/// before.
#[test]
fn scripts_are_run(rt: HostRuntime) -> Result<(), Fail> {
    let main = main_name(rt.alloc())?;
    check_all(&rt, &mut Shelf::new(rt.alloc(), Profile::new()), &main)
}

#[test]
fn a_name_equals_its_copy(rt: HostRuntime) -> Result<(), Fail> {
    let name = named(rt.alloc(), Location::Personal, b"a")?;
    let copy = name.copy(rt.alloc())?;
    holds(&rt, "a copy", copy == name);
    Ok(())
}
