//! Rows for public calls of variables whose answers the program doesn't print. These are the
//! references of a text, and the first octets of a string. Results of strings, modifiers and
//! variables stand in `examples/rows` and are made in `tools/checks`. The wanted results were
//! written by hand (RFC 5229, section 3; RFC 6609, 3.4.2).

use super::{holds, same};
use octets::Octets;
use sieve_variables::{Values, parts_of_text, references_in};
use std::alloc::{AllocError, Global};
use std::process::Abort;

/// Compares whether each text has a reference. Then compares whether one is in a namespace, in a
/// foreign namespace, and past the limit.
fn check_references(rt: &impl Abort, rows: &[(&[u8], bool, bool, bool, bool)]) {
    for (text, any, namespaced, foreign, far) in rows {
        let found = references_in(*text);
        holds(
            rt,
            *text,
            found.any == *any && found.namespaced == *namespaced,
        );
        holds(rt, *text, found.foreign == *foreign && found.far == *far);
    }
}

#[test]
fn references_are_found(rt: HostRuntime) {
    check_references(
        &rt,
        &[
            (b"", false, false, false, false),
            (b"${doh!}", false, false, false, false),
            (b"${7.a}${.a}${a.}${a..b}${.}", false, false, false, false),
            (b"${BAD${Company}", true, false, false, false),
            (b"${00099}", true, false, false, false),
            (b"${100}", true, false, false, true),
            (b"${a}${18446744073709551617}", true, false, false, true),
            (b"x${a.7.b_2}${y}", true, true, true, false),
            // A number in a namespace is no match variable.
            (b"${a.100}", true, true, true, false),
            (b"${a.b}${256}", true, true, true, true),
            (b"${Global.x}", true, true, false, false),
        ],
    );
}

/// The values of variables after a match of `value` in which one wildcard took `taken`.
fn values_after(alloc: Global, value: &[u8], taken: &[u8]) -> Result<Values, AllocError> {
    let mut texts = Vec::new(alloc);
    texts.push(Octets::copied(alloc, value)?)?;
    texts.push(Octets::copied(alloc, taken)?)?;
    let mut values = Values::new(alloc);
    values.set_matched(texts);
    Ok(values)
}

/// The first octets that a string stands for.
#[test]
fn strings_have_their_fronts(rt: HostRuntime) -> Result<(), AllocError> {
    let alloc = rt.alloc();
    let values = values_after(alloc, b"abcdef", b"bcd")?;
    let rows: &[(&[u8], usize, &[u8])] = &[
        (b"", 3, b""),
        (b"${0}", 4, b"abcd"),
        (b"${0}", 9, b"abcdef"),
        (b"x${1}${0}z", 5, b"xbcda"),
        (b"x${1}${0}z", 4, b"xbcd"),
        (b"x${1}y", 0, b""),
        (b"x${1}y", 9, b"xbcdy"),
        (b"${9}x${1}", 2, b"xb"),
    ];
    for (string, limit, wanted) in rows {
        let parts = parts_of_text(alloc, *string)?;
        let front = values.expanded_front(alloc, parts.as_slice(), *limit)?;
        same(&rt, *string, front.as_slice(), *wanted);
    }
    Ok(())
}
