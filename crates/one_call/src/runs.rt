//! Runs of scripts on a mail, without a bench.

use crate::entities;
use crate::telling::{Host, mark, personal, prepared, tell_done, tell_refused, tell_verdict};
use sieve_profile::{Extension, Profile};
use sieve_run::{
    Envelope, Found, Library, Message, Meter, Octets, ScriptName, Shelf, Verdict, run,
};
use std::alloc::AllocError;
use std::io;

const MAIL: &[u8] =
    b"From: ann@a.example\nSubject: =?utf-8?q?caf=C3=A9?= at ten\nTo: b@c.example\nX-Folded: one\n two\nX-Long: a value of more octets than either of the keys that are looked for in it, so that it is copied for each of them\n\n";

pub(crate) const TESTS: &[u8] =
    b"require [\"envelope\", \"fileinto\", \"variables\", \"imap4flags\"];
if anyof (header :contains [\"X-Folded\", \"X-Long\"] [\"a key of more octets than are looked for without copies of it and of the value\", \"${1}a key of several parts and of more octets than are looked for without copies\"], header :matches \"Subject\" \"NO*\", hasflag \"a b\", string \"${1}\" \"x\") { discard; }
if allof (exists \"X-Folded\", address :domain :is \"From\" \"a.example\", address :localpart :matches \"To\" \"?\", envelope \"from\" \"s@x.example\", header \"x-folded\" \"one two\", header :matches \"Subject\" \"caf* *\") { fileinto \"${1}, ${2}\"; }
";

pub(crate) const VARIABLES: &[u8] = b"require [\"fileinto\", \"variables\"];
set \"a\" \"first of all\"; set :upper :quotewildcard \"b\" \"${a}*\"; set :length \"c\" \"${b}\"; set \"a\" \"again\";
if string :matches \"${a}-${b}\" \"*-*\" { fileinto \"${1}/${2}/${c}\"; }
redirect \"${a}@b.example\";
";

pub(crate) const FLAGS: &[u8] = b"require [\"fileinto\", \"imap4flags\", \"variables\", \"copy\"];
setflag [\"\\\\Seen a\", \"b\"]; addflag \"c D\"; removeflag \"A\"; addflag \"v\" \"x y\"; removeflag \"v\" \"X\";
if hasflag :contains \"v\" [\"q\", \"Y\"] { fileinto :copy :flags \"${v} z\" \"Box\"; fileinto :copy \"Box\"; }
";

pub(crate) const INCLUDES: &[u8] =
    b"require [\"include\", \"variables\", \"fileinto\"]; global \"box\"; set \"own\" \"kept\";
include \"lib\"; include \"lib\"; include :once \"lib\"; include :optional :global \"gone\"; fileinto \"${box} ${own}\";
";

pub(crate) const LIB: &[u8] = b"require [\"include\", \"variables\"];
set \"global.box\" \"${global.box}Lists\"; set \"own\" \"lost\"; return; stop;
";

const BODY: &[u8] = b"require [\"body\", \"fileinto\"];
if allof (body :contains \"held\", body :content [\"multipart\", \"message\"] :contains \"before\", body :raw :contains \"rfc822\") { fileinto \"Box\"; }
";

pub(crate) const FAILS: &[u8] = b"require \"include\"; discard; include \"lib\";";

pub(crate) const BAD: &[u8] = b"keep;\nredirect \"nobody\";";

/// Puts a text in place of one with a fault. The script that is then there is printed after the
/// answer.
pub(crate) fn add(rt: &impl Host) -> io::Result<()> {
    let mut shelf = Shelf::new(rt.alloc(), Profile::new());
    let main = personal(rt, b"main")?;
    shelf.add(&main, b"kep;")?;
    mark(rt);
    let done = shelf.add(&main, LIB);
    mark(rt);
    tell_done(rt, done)?;
    tell_found(rt, &shelf.find(&main))
}

/// Prints the result of looking up a name.
pub(crate) fn tell_found(rt: &impl Print, found: &Found<'_>) -> io::Result<()> {
    match found {
        Found::Missing => println!(rt; "missing"),
        Found::Invalid => println!(rt; "invalid"),
        Found::Present(code) => println!(rt; "{} operations", code.len()),
    }
}

/// Runs a main script beside another.
pub(crate) fn run_texts(rt: &impl Host, text: &[u8], lib: &[u8]) -> io::Result<()> {
    let mut shelf = Shelf::new(rt.alloc(), Profile::new());
    fill(rt, &mut shelf, text, lib)?;
    run_shelf(rt, &shelf, MAIL)
}

/// Runs a script that looks into a mail.
pub(crate) fn run_body(rt: &impl Host) -> io::Result<()> {
    let mut shelf = Shelf::new(rt.alloc(), Profile::new().with(Extension::Body));
    fill(rt, &mut shelf, BODY, LIB)?;
    run_shelf(rt, &shelf, entities::MAIL)
}

fn fill(rt: &impl Host, shelf: &mut Shelf, text: &[u8], lib: &[u8]) -> Result<(), AllocError> {
    let main = personal(rt, b"main")?;
    shelf.add(&main, text)?;
    let other = personal(rt, b"lib")?;
    shelf.add(&other, lib)
}

fn run_shelf(rt: &impl Host, shelf: &Shelf, octets: &[u8]) -> io::Result<()> {
    let main = personal(rt, b"main")?;
    let envelope = envelope_of(rt)?;
    let octets = Vec::from_slice(rt.alloc(), octets)?;
    let mail = prepared(Message::new(rt.alloc(), octets))?;
    tell_run(rt, shelf, &main, (&envelope, &mail))
}

fn envelope_of(rt: &impl Host) -> Result<Envelope, AllocError> {
    Ok(Envelope {
        from: Octets::copied(rt.alloc(), b"s@x.example")?,
        to: Octets::from_vec(Vec::new(rt.alloc())),
        mailbox: Octets::from_vec(Vec::new(rt.alloc())),
        mailboxes: Octets::from_vec(Vec::new(rt.alloc())),
        clock: None,
    })
}

/// Prints the verdict, and the number of runs.
fn tell_run(
    rt: &impl Host,
    shelf: &Shelf,
    main: &ScriptName,
    (envelope, mail): (&Envelope, &Message),
) -> io::Result<()> {
    let mut meter = Meter::new();
    mark(rt);
    let made = run(
        rt.alloc(),
        shelf,
        Some(main),
        envelope,
        None,
        mail,
        &mut meter,
    );
    mark(rt);
    match made {
        Ok(verdict) => tell_verdict(rt, &verdict)?,
        Err(_) => tell_refused(rt)?,
    }
    println!(rt; "runs {}", meter.runs())
}

pub(crate) fn ask_shelf(rt: &impl Host) -> io::Result<()> {
    let mut shelf = Shelf::new(rt.alloc(), Profile::new());
    let main = personal(rt, b"main")?;
    shelf.add(&main, LIB)?;
    mark(rt);
    let answer = shelf.find(&main);
    mark(rt);
    tell_found(rt, &answer)
}

/// The verdict of a run without a script.
fn verdict_of(rt: &impl Host) -> io::Result<Verdict> {
    let envelope = envelope_of(rt)?;
    let mail = prepared(Message::new(rt.alloc(), Vec::new(rt.alloc())))?;
    let shelf = Shelf::new(rt.alloc(), Profile::new());
    let mut meter = Meter::new();
    Ok(run(rt.alloc(), &shelf, None, &envelope, None, &mail, &mut meter)?)
}

/// Prints the numbers of actions and names. Also prints whether the implicit keep stands, whether
/// there is an error, and whether a text agrees.
pub(crate) fn ask_verdict(rt: &impl Host) -> io::Result<()> {
    let verdict = verdict_of(rt)?;
    mark(rt);
    let (actions, names) = (verdict.entries().len(), verdict.lookups().len());
    let (keeps, fails) = (verdict.implicit().is_some(), verdict.error().is_some());
    let agrees = verdict.agrees(b"Box", b"implicit \"Box\"\n");
    mark(rt);
    println!(rt; "{actions} {names} {keeps} {fails} {agrees}")
}
