//! Results for messages and their fields that aren't printed. They are which values are borrowed,
//! places of fields of a name, hashes of names, and refusals.
use super::{Row, holds, same};
use message_text::{FieldName, Message, MessageFault, name_hash};
use sieve_profile::Profile;
use std::alloc::{AllocError, Global};
use std::borrow::CowSlice;
use std::process::Abort;
use std::test::Fail;

fn read(alloc: Global, octets: &[u8]) -> Result<Message, Fail> {
    Ok(Message::new(alloc, Vec::from_slice(alloc, octets)?)?)
}

/// Whether a value is borrowed: 1 if it is, and else 0.
fn borrowed(value: &CowSlice<'_, u8>) -> u8 {
    match value {
        CowSlice::Borrowed(_) => 1,
        CowSlice::Owned(_) => 0,
    }
}

/// Compares which values of fields are borrowed.
fn check_borrowed(
    rt: &(impl AllocGlobal + Abort),
    message: &Message,
    wanted: &[u8],
) -> Result<(), AllocError> {
    let mut found = Vec::new(rt.alloc());
    for i in 0..message.fields() {
        found.push(borrowed(&message.value(rt.alloc(), i)?))?;
    }
    same(rt, b"fields", &found, wanted);
    Ok(())
}

/// Whether a value is borrowed goes by its field's lines, and not by the octets that are left of
/// it.
#[test]
fn borrows_unfolded_values(rt: HostRuntime) -> Result<(), Fail> {
    let message = read(rt.alloc(), b"A: b\nC: d\n e\nF:\nG:\n \n\n f")?;
    check_borrowed(&rt, &message, &[1, 0, 1, 0])?;
    let one = read(rt.alloc(), b"Subject: one")?;
    check_borrowed(&rt, &one, &[1])?;
    let three = read(rt.alloc(), b"Subject: one\r\n two\r\n\tthree\r\n\r\n")?;
    Ok(check_borrowed(&rt, &three, &[0])?)
}

/// A decoded value is borrowed if its field stands on one line and no word was replaced. A word
/// that stands for no octets is replaced too.
#[test]
fn borrows_values_without_words(rt: HostRuntime) -> Result<(), Fail> {
    let message = read(
        rt.alloc(),
        b"A: b\nB: =?us-ascii?Q?b?=\nC: =?koi8-r?Q?a?=\nD: a\n b\nE: =?us-ascii?Q?a?=\n =?us-ascii?Q?b?=\nF: =?utf-8?Q??=\nG:\n\n",
    )?;
    let mut found = Vec::new(rt.alloc());
    for i in 0..message.fields() {
        found.push(borrowed(&message.decoded(rt.alloc(), Profile::new(), i)?))?;
    }
    same(&rt, b"fields", &found, &[1, 0, 1, 0, 0, 0, 1]);
    Ok(())
}

/// Adds the place of each field of that name.
fn push_places(places: &mut Vec<u8>, message: &Message, name: &[u8]) -> Result<(), AllocError> {
    let name = FieldName::new(name);
    let mut start = 0;
    for _ in 0..message.fields() {
        let Some(place) = message.next_named(&name, start) else {
            break;
        };
        places.push(b'0' + (place % 10) as u8)?;
        start = place.saturating_add(1);
    }
    Ok(())
}

/// Compares the places of the fields of each name.
fn check_places(
    rt: &(impl AllocGlobal + Abort),
    message: &Message,
    rows: &[Row<'_>],
) -> Result<(), AllocError> {
    for (name, wanted) in rows {
        let mut places = Vec::new(rt.alloc());
        push_places(&mut places, message, *name)?;
        same(rt, *name, &places, *wanted);
    }
    Ok(())
}

/// Names ignore the case of ASCII letters alone, and are compared whole. `A@` and `B!` have one
/// hash.
#[test]
fn fields_are_found_by_name(rt: HostRuntime) -> Result<(), Fail> {
    let message = read(
        rt.alloc(),
        b"To: a\nCC: b\nB!: c\nto: d\n e\na@ : f\ncc: g\n[a: h\n{A: i\n\nTo: j\n",
    )?;
    check_places(
        &rt,
        &message,
        &[
            (b"To", b"03"),
            (b"TO", b"03"),
            (b"cC", b"15"),
            (b"A@", b"4"),
            (b"b!", b"2"),
            (b"[A", b"6"),
            (b"{a", b"7"),
            (b"Subject", b""),
            (b"T", b""),
            (b"To ", b""),
            (b"To:", b""),
            (b"", b""),
        ],
    )?;
    let none = read(rt.alloc(), b"")?;
    Ok(check_places(&rt, &none, &[(b"To", b""), (b"", b"")])?)
}

/// A search that begins after all fields finds none.
#[test]
fn no_field_is_after_the_last(rt: HostRuntime) -> Result<(), Fail> {
    let message = read(rt.alloc(), b"To: a\nTo: b\n")?;
    let name = FieldName::new(b"to");
    let places = [
        message.next_named(&name, 0),
        message.next_named(&name, 1),
        message.next_named(&name, 2),
        message.next_named(&name, 18_446_744_073_709_551_615),
    ];
    holds(&rt, b"to", places == [Some(0), Some(1), None, None]);
    Ok(())
}

/// Names that differ in case alone have one hash, by their letters in upper case. A name with its
/// hash finds the same fields.
#[test]
fn a_name_keeps_its_hash(rt: HostRuntime) -> Result<(), Fail> {
    holds(&rt, b"to", name_hash(b"to") == 2_683);
    holds(&rt, b"TO", name_hash(b"TO") == 2_683);
    holds(&rt, b"Subject", name_hash(b"Subject") == 3_145_064_716);
    holds(&rt, b"", name_hash(b"") == 0);
    let message = read(rt.alloc(), b"To: a\nSubject: b\ntO: c\n")?;
    let name = FieldName::with_hash(b"tO", name_hash(b"tO"));
    let places = [message.next_named(&name, 0), message.next_named(&name, 1)];
    holds(&rt, b"tO", places == [Some(0), Some(2)]);
    holds(&rt, b"tO", name.octets() == b"tO".as_slice());
    Ok(())
}

/// The reason why `size` octets were refused, and how many came back.
fn refusal(alloc: Global, size: usize) -> Result<Option<(MessageFault, usize)>, AllocError> {
    match Message::new(alloc, vec![in alloc; b'a'; size]?) {
        Ok(_) => Ok(None),
        Err((fault, bytes)) => Ok(Some((fault, bytes.len()))),
    }
}

#[test]
fn refuses_exactly_past_the_limit(rt: HostRuntime) -> Result<(), AllocError> {
    let none = refusal(rt.alloc(), 16_777_216)?;
    holds(&rt, b"at the limit", none.is_none());
    let past = refusal(rt.alloc(), 16_777_217)?;
    holds(
        &rt,
        b"past it",
        past == Some((MessageFault::TooLarge, 16_777_217)),
    );
    Ok(())
}
