//! Complaints on standard error. If one can't be written either, the status still says it.

use devices::{Counted, write_quoted};
use std::alloc::Global;

/// Prints what went wrong.
pub(crate) fn complain(rt: &impl Eprint, complaint: &str) {
    let _ = eprintln!(rt; "sievebench: {complaint}");
}

/// Prints what is wrong with a file, or with another word of the command line. The word's octets
/// follow, in quotes, if there is memory for it.
pub(crate) fn complain_of(rt: &(impl AllocGlobal + Eprint), complaint: &str, word: &[u8]) {
    match quoted(rt.alloc(), word) {
        Some(word) => {
            let _ = eprintln!(rt; "sievebench: {complaint} {word}");
        }
        None => complain(rt, complaint),
    }
}

/// Octets in quotes, in visible characters of ASCII, if there is memory for it.
fn quoted(alloc: Global, octets: &[u8]) -> Option<String> {
    let mut writer = Counted::new(Vec::new(alloc));
    write_quoted(octets, &mut writer).ok()?;
    String::from_utf8(writer.into_inner()).ok()
}
