//! A caller of the libraries, which `docs/ARCHITECTURE.md` shows. It finds one script's verdict on
//! a mail.

ghost use Rattle.std.specs.Prelude.{◌≡◌, ◌≤◌, [], ◌∷◌, IfOk, None, Some, length};
ghost use Rattle.sieve_limits.specs.Limits.{name_limit};
ghost use Rattle.sieve_run.specs.Library.{library_of};
ghost use Rattle.sieve_run.specs.Run.{verdict_of};
ghost use Rattle.sieve_run.specs.Shelf.{text_on};

use super::holds;
use sieve_profile::Profile;
use sieve_run::{
    Action, Entry, Envelope, Location, Message, Meter, Octets, ScriptName, Shelf, Verdict, run,
};
use std::alloc::{AllocError, Global};
use std::test::Fail;

/// The verdict of a script, without other scripts, on a mail.
pub(crate) fn verdict_on(
    alloc: Global,
    profile: Profile,
    name: &ScriptName,
    text: &[u8],
    envelope: &Envelope,
    mail: &Message,
    meter: &mut Meter,
) -> Result<Verdict, AllocError>
    requires { length name.now.name ≤ name_limit }
    ensures { IfOk result (λ verdict. verdict
        ≡ verdict_of (library_of profile (text_on ((name.now, text.now) ∷ []))) (Some name.now)
        (record { message = mail.now; envelope = envelope.now; own = None; profile = profile })) }
{
    let mut shelf = Shelf::new(alloc, profile);
    shelf.add(name, text)?;
    run(alloc, &shelf, Some(name), envelope, None, mail, meter)
}

/// Whether a script discards the mail of a sender with these octets.
fn discards(alloc: Global, text: &[u8], from: &[u8], octets: Vec<u8>) -> Result<bool, Fail> {
    let name = ScriptName::new(Location::Personal, Vec::new(alloc));
    let envelope = Envelope {
        from: Octets::copied(alloc, from)?,
        to: Octets::copied(alloc, b"ada@example.org")?,
        mailbox: Octets::copied(alloc, b"INBOX")?,
        mailboxes: Octets::from_vec(Vec::new(alloc)),
        clock: None,
    };
    let mail = Message::new(alloc, octets)?;
    let verdict = verdict_on(
        alloc,
        Profile::new(),
        &name,
        text,
        &envelope,
        &mail,
        &mut Meter::new(),
    )?;
    Ok(matches!(
        verdict.entries(),
        [Entry {
            action: Action::Discard,
            ..
        }]
    ))
}

#[test]
fn a_caller_has_the_verdict_of_one_script(rt: HostRuntime) -> Result<(), Fail> {
    let alloc = rt.alloc();
    let text = b"require \"envelope\"; if envelope \"from\" \"bob@example.org\" { discard; }";
    let is_bob = discards(alloc, text, b"bob@example.org", Vec::new(alloc))?;
    let is_eve = discards(alloc, text, b"eve@example.org", Vec::new(alloc))?;
    holds(&rt, "bob", is_bob);
    holds(&rt, "eve", !is_eve);
    Ok(())
}
