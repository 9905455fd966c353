//! Texts that are compared, searched and matched.

use crate::telling::{Host, mark, tell_octets, tell_refused};
use encoded_characters::replaced;
use match_text::{
    AsciiCasemap, Captures, Collation, Relation, SearchedValue, contains, contains_in, equals, is,
    matches, relation_named, stands,
};
use std::alloc::AllocError;
use std::io;

const VALUE: &[u8] =
    b"The quick brown fox jumps over the lazy dog, and then over the lazy cat, twice.";

/// A value in which a long key has many places to begin.
const LONG_VALUE: &[u8] =
    b"Once more: the quick brown fox jumps over the lazy dog, and then over the lazy cat, \
    and when it has jumped over both of them it sleeps in the grass beside the two.";

/// A part of both values in letters of the other case. It is too long to be looked for in the
/// second without copies.
pub(crate) const KEY: &[u8] =
    b"QUICK BROWN FOX JUMPS OVER THE LAZY DOG, AND THEN OVER THE LAZY CAT";

/// The longest front of that key that is short enough.
pub(crate) const SHORT_KEY: &[u8] =
    b"QUICK BROWN FOX JUMPS OVER THE LAZY DOG, AND THEN OVER THE LAZY ";

const PATTERN: &[u8] = b"THE * fox JUMP? over*cat, \\t*";

pub(crate) const SEQUENCES: &[u8] = b"${hex:c3 a9}, ${unicode:20ac} and ${hex:4";

pub(crate) const NO_SEQUENCE: &[u8] = b"${hex:400}";

/// Prints whether the value is the key, or contains it.
pub(crate) fn compare(rt: &impl Host, word: &str) -> io::Result<()> {
    mark(rt);
    let answer = match word {
        "is" => is::<AsciiCasemap>(VALUE, KEY),
        _ => contains::<AsciiCasemap>(VALUE, KEY),
    };
    mark(rt);
    println!(rt; "{answer}")
}

/// Prints whether a number is greater than another, and whether it is equal to it.
pub(crate) fn compare_numbers(rt: &impl Host) -> io::Result<()> {
    mark(rt);
    let relation = relation_named(b"GT").unwrap_or(Relation::Ne);
    let greater = stands(relation, Collation::Numeric, b"0100 of them", b"99");
    let equal = equals(Collation::Numeric, b"0100 of them", b"99");
    mark(rt);
    println!(rt; "{greater} {equal}")
}

/// Prints a string with its encoded characters replaced.
pub(crate) fn replace(rt: &impl Host, text: &[u8]) -> io::Result<()> {
    mark(rt);
    let answer = replaced(rt.alloc(), text);
    mark(rt);
    match answer {
        Ok(Some(octets)) => tell_octets(rt, octets.as_slice()),
        Ok(None) => println!(rt; "no character"),
        Err(_) => tell_refused(rt),
    }
}

pub(crate) fn search_in(rt: &impl Host, key: &[u8]) -> io::Result<()> {
    mark(rt);
    let answer = contains_in::<AsciiCasemap>(rt.alloc(), LONG_VALUE, key);
    mark(rt);
    tell_found(rt, answer)
}

fn tell_found(rt: &impl Print, answer: Result<bool, AllocError>) -> io::Result<()> {
    match answer {
        Ok(found) => println!(rt; "{found}"),
        Err(_) => tell_refused(rt),
    }
}

/// Looks for a key, and then for one that needs a copy of the value, if none is made yet.
pub(crate) fn search_twice(rt: &impl Host, key: &[u8]) -> io::Result<()> {
    let mut value = SearchedValue::new(LONG_VALUE);
    let mut first = Vec::from_slice(rt.alloc(), key)?;
    let mut second = Vec::from_slice(rt.alloc(), KEY)?;
    mark(rt);
    let answer = value.contains(rt.alloc(), &mut first);
    mark(rt);
    tell_found(rt, answer)?;
    tell_found(rt, value.contains(rt.alloc(), &mut second))
}

pub(crate) fn match_pattern(rt: &impl Host) -> io::Result<()> {
    mark(rt);
    let answer = matches::<AsciiCasemap>(rt.alloc(), VALUE, PATTERN);
    mark(rt);
    match answer {
        Ok(Some(captures)) => tell_captures(rt, &captures),
        Ok(None) => println!(rt; "no match"),
        Err(_) => tell_refused(rt),
    }
}

/// Prints the whole value, and then the text that each wildcard took.
fn tell_captures(rt: &impl Print, captures: &Captures<'_>) -> io::Result<()> {
    for k in 0..=captures.count() {
        tell_octets(rt, captures.get(k))?;
    }
    Ok(())
}

pub(crate) fn ask_captures(rt: &impl Host) -> io::Result<()> {
    if let Some(captures) = matches::<AsciiCasemap>(rt.alloc(), VALUE, PATTERN)? {
        mark(rt);
        let (count, first) = (captures.count(), captures.get(1));
        mark(rt);
        println!(rt; "{count}")?;
        tell_octets(rt, first)?;
    }
    Ok(())
}
