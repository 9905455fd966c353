//! Edits at the limits of names, texts and messages, and past them. Sessions refuse larger ones
//! before they ask for an edit.

use super::{holds, many, personal};
use session_server::{Bench, EditFault};
use std::alloc::AllocError;
use std::process::Abort;

/// Makes edits with a name and an id of so many octets, and compares the answers.
fn check_names(
    rt: &(impl AllocGlobal + Abort),
    bench: &mut Bench,
    count: usize,
    wanted: &Result<(), EditFault>,
) -> Result<(), AllocError> {
    let id = many(rt.alloc(), count)?;
    let main = personal(rt.alloc(), id.as_slice())?;
    let name = personal(rt.alloc(), id.as_slice())?;
    let at = ("a name", count as u64, 0);
    holds(rt, at, bench.set_main(main) == *wanted);
    holds(
        rt,
        at,
        bench.put_script(name, many(rt.alloc(), 0)?) == *wanted,
    );
    holds(
        rt,
        at,
        bench.put_message(id, many(rt.alloc(), 0)?) == *wanted,
    );
    Ok(())
}

/// Makes an edit with a text of so many octets, and compares the answer.
fn check_text(
    rt: &(impl AllocGlobal + Abort),
    bench: &mut Bench,
    count: usize,
    wanted: &Result<(), EditFault>,
) -> Result<(), AllocError> {
    let text = many(rt.alloc(), count)?;
    let main = personal(rt.alloc(), b"main")?;
    let answer = bench.put_script(main, text);
    holds(rt, ("a text", count as u64, 0), answer == *wanted);
    Ok(())
}

/// Makes an edit with a message of so many octets, and compares the answer.
fn check_message(
    rt: &(impl AllocGlobal + Abort),
    bench: &mut Bench,
    count: usize,
    wanted: &Result<(), EditFault>,
) -> Result<(), AllocError> {
    let message = many(rt.alloc(), count)?;
    let mail = many(rt.alloc(), 1)?;
    let answer = bench.put_message(mail, message);
    holds(rt, ("a message", count as u64, 0), answer == *wanted);
    Ok(())
}

/// Sets an expected text of so many octets for a message that is there, and compares the answer.
fn check_expected(
    rt: &(impl AllocGlobal + Abort),
    bench: &mut Bench,
    count: usize,
    wanted: &Result<(), EditFault>,
) -> Result<(), AllocError> {
    let text = many(rt.alloc(), count)?;
    let mail = many(rt.alloc(), 1)?;
    let put = bench.put_message(mail, many(rt.alloc(), 0)?);
    let answer = bench.set_expected(b"n", text);
    let at = ("an expected text", count as u64, 0);
    holds(rt, at, put == Ok(()));
    holds(rt, at, answer == *wanted);
    Ok(())
}

/// Sets expected texts at the limit and past it, on a new bench.
fn check_expected_sizes(rt: &(impl AllocGlobal + Abort)) -> Result<(), AllocError> {
    let mut bench = Bench::new(rt.alloc())?;
    check_expected(rt, &mut bench, 65_536, &Ok(()))?;
    check_expected(rt, &mut bench, 65_537, &Err(EditFault::TooLarge))
}

#[test]
fn expected_texts_have_their_limit(rt: HostRuntime) -> Result<(), AllocError> {
    check_expected_sizes(&rt)
}

/// Makes edits with a name, a text and a message of so many octets, and compares the answers.
fn check_edits(
    rt: &(impl AllocGlobal + Abort),
    bench: &mut Bench,
    (name, text, message): (usize, usize, usize),
    wanted: &Result<(), EditFault>,
) -> Result<(), AllocError> {
    check_names(rt, bench, name, wanted)?;
    check_text(rt, bench, text, wanted)?;
    check_message(rt, bench, message, wanted)
}

/// Makes such edits on a new bench, and compares.
fn check_sizes(
    rt: &(impl AllocGlobal + Abort),
    sizes: (usize, usize, usize),
    wanted: &Result<(), EditFault>,
) -> Result<(), AllocError> {
    let mut bench = Bench::new(rt.alloc())?;
    check_edits(rt, &mut bench, sizes, wanted)
}

#[test]
fn names_texts_and_messages_have_their_limits(rt: HostRuntime) -> Result<(), AllocError> {
    check_sizes(&rt, (1_024, 1_048_576, 16_777_216), &Ok(()))?;
    let large = Err(EditFault::TooLarge);
    check_sizes(&rt, (1_025, 1_048_577, 16_777_217), &large)
}

/// Sets addresses of so many octets for a message that is there. Sets a list of mailboxes of so
/// many octets. Compares the answers.
fn check_settings(
    rt: &(impl AllocGlobal + Abort),
    bench: &mut Bench,
    (address, list): (usize, usize),
    wanted: &Result<(), EditFault>,
) -> Result<(), AllocError> {
    let at = ("settings", address as u64, list as u64);
    let from = many(rt.alloc(), address)?;
    let to = many(rt.alloc(), address)?;
    let mailboxes = many(rt.alloc(), list)?;
    let given = bench.set_message_envelope(b"n", from, to);
    holds(rt, at, given == *wanted);
    holds(rt, at, bench.set_mailboxes(mailboxes) == *wanted);
    Ok(())
}

/// Makes these settings at their limits and past them, on a new bench.
fn check_setting_sizes(rt: &(impl AllocGlobal + Abort)) -> Result<(), AllocError> {
    let mut bench = Bench::new(rt.alloc())?;
    check_message(rt, &mut bench, 0, &Ok(()))?;
    check_settings(rt, &mut bench, (1_024, 1_048_576), &Ok(()))?;
    let large = Err(EditFault::TooLarge);
    check_settings(rt, &mut bench, (1_025, 1_048_577), &large)
}

#[test]
fn addresses_and_lists_of_mailboxes_have_their_limits(rt: HostRuntime) -> Result<(), AllocError> {
    check_setting_sizes(&rt)
}
