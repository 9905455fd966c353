//! Rows for public calls of the libraries of scripts. The expected results were written by hand
//! from the standards.
//!
//! Tests that need only scripts and mails are in `examples/rows`, and `tools/checks` runs them.

mod caller;
mod faults;
mod judging;
mod runs;

use std::process::Abort;

/// Compares the result of a row with the wanted one.
fn same(rt: &impl Abort, row: &str, got: &[u8], wanted: &[u8]) {
    assert_eq!(rt; got, wanted, "{row}");
}

/// Asserts what must hold of a row.
fn holds(rt: &impl Abort, row: &str, condition: bool) {
    assert!(rt; condition, "{row}");
}
