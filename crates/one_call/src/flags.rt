//! Lists of flags.

use crate::telling::{Host, mark, tell_done, tell_octets, tell_refused};
use flag_lists::{FlagList, flags_of, union, without};
use match_text::Collation;
use std::alloc::AllocError;
use std::io;

/// Three flags, one of them twice, and a word that isn't taken as a flag.
const FIRST: &[u8] = b"\\Seen a $Label A \\Recent";

/// Four flags, two of them among the first three.
pub(crate) const SECOND: &[u8] = b"$label $Work \\SEEN other-flag-of-many-octets";

/// Two flags that are among the first three.
pub(crate) const HELD: &[u8] = b"$label \\SEEN";

pub(crate) fn read(rt: &impl Host) -> io::Result<()> {
    mark(rt);
    let answer = flags_of(rt.alloc(), FIRST);
    mark(rt);
    tell_list(rt, answer)
}

/// Prints a list, or that it was refused.
fn tell_list(rt: &impl Print, made: Result<FlagList, AllocError>) -> io::Result<()> {
    match made {
        Ok(flags) => tell_flags(rt, &flags),
        Err(_) => tell_refused(rt),
    }
}

fn tell_flags(rt: &impl Print, flags: &FlagList) -> io::Result<()> {
    for i in 0..flags.len() {
        tell_octets(rt, flags.get(i))?;
    }
    Ok(())
}

/// Joins two lists, or removes the flags of one from the other.
pub(crate) fn combine(rt: &impl Host, word: &str) -> io::Result<()> {
    let first = flags_of(rt.alloc(), FIRST)?;
    let second = flags_of(rt.alloc(), SECOND)?;
    mark(rt);
    let answer = match word {
        "union" => union(rt.alloc(), &first, &second),
        _ => without(rt.alloc(), &first, &second),
    };
    mark(rt);
    tell_list(rt, answer)
}

/// The list is printed after the answer. If memory was refused, some flags may have been added.
pub(crate) fn add(rt: &impl Host, others: &[u8]) -> io::Result<()> {
    let mut first = flags_of(rt.alloc(), FIRST)?;
    let second = flags_of(rt.alloc(), others)?;
    mark(rt);
    let answer = first.add(rt.alloc(), &second, 0);
    mark(rt);
    tell_done(rt, answer)?;
    tell_flags(rt, &first)
}

/// The list is printed after the answer. If memory was refused, some flags may have been added.
pub(crate) fn add_text(rt: &impl Host, text: &[u8]) -> io::Result<()> {
    let mut first = flags_of(rt.alloc(), FIRST)?;
    mark(rt);
    let answer = first.add_text(rt.alloc(), text);
    mark(rt);
    tell_done(rt, answer)?;
    tell_flags(rt, &first)
}

/// Prints whether a flag is there, and the place of one that is taken out. Then prints the list.
pub(crate) fn ask(rt: &impl Host) -> io::Result<()> {
    let mut flags = flags_of(rt.alloc(), FIRST)?;
    mark(rt);
    let has = flags.has(Collation::Casemap, b"$LABEL");
    let place = flags.take_out(b"A");
    mark(rt);
    println!(rt; "{has} {place:?}")?;
    tell_flags(rt, &flags)
}
