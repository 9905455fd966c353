//! Rows for public calls of the libraries of texts. The wanted results were written by hand from
//! the standards.
//!
//! Results that scripts and mails alone show stand in `examples/rows` and are made in
//! `tools/checks`.

mod comparators;
mod flags;
mod messages;
mod print;
mod rooms;
mod scripts;
mod variables;
mod writers;

use std::alloc::AllocError;
use std::process::Abort;

/// Two texts: octets, and the octets that are wanted of them.
type Row<'a> = (&'a [u8], &'a [u8]);

/// Compares the result of two texts with the wanted one.
fn same_of(rt: &impl Abort, (first, second): Row<'_>, got: &[u8], wanted: &[u8]) {
    assert_eq!(rt;
        got,
        wanted,
        "in \"{}\" \"{}\"",
        first.escape_ascii(),
        second.escape_ascii()
    );
}

/// Compares the result of a row with the wanted one.
fn same(rt: &impl Abort, row: &[u8], got: &[u8], wanted: &[u8]) {
    same_of(rt, (row, b""), got, wanted);
}

/// Asserts a condition that must hold of a row.
fn holds(rt: &impl Abort, row: &[u8], condition: bool) {
    assert!(rt; condition, "in {}", row.escape_ascii());
}

/// Adds octets and an end.
fn push_ended(text: &mut Vec<u8>, octets: &[u8], end: u8) -> Result<(), AllocError> {
    text.extend_from_slice(octets)?;
    text.push(end)?;
    Ok(())
}
