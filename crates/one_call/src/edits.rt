//! Edits of a bench.
ghost use Rattle.std.specs.Prelude.{◌≤◌, length};

use crate::benches::{ID, bench_of, make_verdicts, tell_report};
use crate::telling::{Host, mark, personal, tell_refused};
use bench::{Bench, EditFault};
use date_text::clock_named;
use octets::Octets;
use sieve_run::Meter;
use std::io;
use std::io::ErrorKind;

/// The answer of an edit, unless memory was refused before it.
type Edited = io::Result<Result<(), EditFault>>;

const KEEPS: &[u8] =
    b"require \"fileinto\"; if header \"A\" \"b\" { fileinto \"a mailbox of many octets\"; }";

const FAULTY: &[u8] = b"keep;\nkep;";

const MAIL: &[u8] = b"A: b\n\n";

const BOXES: &[u8] = b"Lists\n\nWork\n";

const IMPLICIT: &[u8] = b"implicit \"INBOX\"\n";

/// Makes the edit that a word names, on a bench without a stale verdict.
pub(crate) fn call(rt: &impl Host, word: &str) -> io::Result<()> {
    let mut bench = bench_of(rt)?;
    call_on(rt, word, &mut bench)
}

/// Prints the answer, the report after it, and the number of runs.
fn call_on(rt: &impl Host, word: &str, bench: &mut Bench) -> io::Result<()> {
    let mut meter = Meter::new();
    make_verdicts(bench, &mut meter)?;
    tell_edited(rt, edit(rt, word, bench)?)?;
    tell_report(rt, bench, &mut meter)
}

fn tell_edited(rt: &impl Print, answer: Result<(), EditFault>) -> io::Result<()> {
    match answer {
        Ok(()) => println!(rt; "ok"),
        Err(EditFault::NoMemory) => tell_refused(rt),
        Err(fault) => println!(rt; "{fault}"),
    }
}

fn edit(rt: &impl Host, word: &str, bench: &mut Bench) -> Edited {
    match word {
        "put_script" => put_script(rt, bench, b"main", KEEPS),
        "put_script/new" => put_script(rt, bench, b"other", FAULTY),
        "put_message" => put_message(rt, bench, ID),
        "put_message/new" => put_message(rt, bench, b"new"),
        "rename_script" => rename_script(rt, bench),
        "set_main" => set_main(rt, bench),
        "set_envelope" | "set_message_envelope" => set_addresses(rt, word, bench),
        "set_mailbox" => set_text(rt, word, bench, b"Box"),
        "set_mailboxes" => set_text(rt, word, bench, BOXES),
        "set_expected" => set_text(rt, word, bench, IMPLICIT),
        "remove_script" => remove_script(rt, bench),
        "remove_message"
        | "clear_main"
        | "clear_expected"
        | "clear_message_envelope"
        | "clear_clock" => Ok(clear(rt, word, bench)),
        "set_clock" => set_clock(rt, bench),
        _ => Err(io::Error::from(ErrorKind::InvalidInput)),
    }
}

fn put_script(rt: &impl Host, bench: &mut Bench, name: &[u8], text: &[u8]) -> Edited
    requires { length name.now ≤ 1024 }
{
    let name = personal(rt, name)?;
    let text = Octets::copied(rt.alloc(), text)?;
    mark(rt);
    let answer = bench.put_script(name, text);
    mark(rt);
    Ok(answer)
}

fn put_message(rt: &impl Host, bench: &mut Bench, id: &[u8]) -> Edited {
    let id = Octets::copied(rt.alloc(), id)?;
    let octets = Octets::copied(rt.alloc(), MAIL)?;
    mark(rt);
    let answer = bench.put_message(id, octets);
    mark(rt);
    Ok(answer)
}

fn rename_script(rt: &impl Host, bench: &mut Bench) -> Edited {
    let main = personal(rt, b"main")?;
    let other = personal(rt, b"other")?;
    mark(rt);
    let answer = bench.rename_script(&main, other);
    mark(rt);
    Ok(answer)
}

fn set_main(rt: &impl Host, bench: &mut Bench) -> Edited {
    let other = personal(rt, b"other")?;
    mark(rt);
    let answer = bench.set_main(other);
    mark(rt);
    Ok(answer)
}

/// Sets the envelope of the bench or of its message.
fn set_addresses(rt: &impl Host, word: &str, bench: &mut Bench) -> Edited {
    let from = Octets::copied(rt.alloc(), b"a@b.example")?;
    let to = Octets::copied(rt.alloc(), b"c@d.example")?;
    mark(rt);
    let answer = match word {
        "set_envelope" => bench.set_envelope(from, to),
        _ => bench.set_message_envelope(ID, from, to),
    };
    mark(rt);
    Ok(answer)
}

/// Sets the mailbox, the list of mailboxes, or the expected text of the message.
fn set_text(rt: &impl Host, word: &str, bench: &mut Bench, text: &[u8]) -> Edited {
    let text = Octets::copied(rt.alloc(), text)?;
    mark(rt);
    let answer = match word {
        "set_mailbox" => bench.set_mailbox(text),
        "set_mailboxes" => bench.set_mailboxes(text),
        _ => bench.set_expected(ID, text),
    };
    mark(rt);
    Ok(answer)
}

fn remove_script(rt: &impl Host, bench: &mut Bench) -> Edited {
    let main = personal(rt, b"main")?;
    mark(rt);
    let answer = bench.remove_script(&main);
    mark(rt);
    Ok(answer)
}

/// Makes an edit that removes something and needs no further words.
fn clear(rt: &impl Host, word: &str, bench: &mut Bench) -> Result<(), EditFault> {
    mark(rt);
    let answer = match word {
        "remove_message" => bench.remove_message(ID),
        "clear_main" => {
            bench.clear_main();
            Ok(())
        }
        "clear_expected" => bench.clear_expected(ID),
        "clear_message_envelope" => bench.clear_message_envelope(ID),
        _ => {
            bench.clear_clock();
            Ok(())
        }
    };
    mark(rt);
    answer
}

fn set_clock(rt: &impl Host, bench: &mut Bench) -> Edited {
    let Some(clock) = clock_named(b"1783245600", b"+0200") else {
        return Err(io::Error::from(ErrorKind::InvalidInput));
    };
    mark(rt);
    bench.set_clock(clock);
    mark(rt);
    Ok(Ok(()))
}
