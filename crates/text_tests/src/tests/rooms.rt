//! Rows of keys that can match (RFC 5228, 2.7.1).
use super::holds;
use match_text::{KeyKind, Room};
use std::process::Abort;

/// A key in two pieces, and the least number of octets of a value that can match it.
type Piecewise<'a> = (&'a [u8], &'a [u8], usize);

/// Whether a value of so many octets can match a key in pieces.
fn is_enough(kind: KeyKind, size: usize, (front, back, _): Piecewise<'_>) -> bool {
    Room::new(kind, size).after(front).after(back).is_enough()
}

/// Whether a key in pieces needs more octets than a value of so many has.
fn is_exceeded(kind: KeyKind, size: usize, (front, back, _): Piecewise<'_>) -> bool {
    Room::new(kind, size).after(front).after(back).is_exceeded()
}

/// Checks for each key that a value of as many octets as it needs can match. A value of one octet
/// fewer can't.
fn check_keys(rt: &impl Abort, kind: KeyKind, rows: &[Piecewise<'_>]) {
    for row in rows {
        let (_, back, needed) = *row;
        holds(rt, back, is_enough(kind, needed, *row));
        holds(rt, back, !is_exceeded(kind, needed, *row));
        if needed > 0 {
            holds(rt, back, !is_enough(kind, needed - 1, *row));
        }
    }
}

/// A key of `:is` or `:contains` needs each of its octets.
#[test]
fn keys_need_their_octets(rt: HostRuntime) {
    let rows: &[Piecewise<'_>] = &[
        (b"", b"", 0),
        (b"a", b"", 1),
        (b"", b"abc", 3),
        (b"a*", b"?\\", 4),
    ];
    check_keys(&rt, KeyKind::Whole, rows);
    check_keys(&rt, KeyKind::Part, rows);
    for row in rows {
        let (_, back, needed) = *row;
        holds(&rt, back, !is_enough(KeyKind::Whole, needed + 1, *row));
        if needed > 0 {
            holds(&rt, back, is_exceeded(KeyKind::Part, needed - 1, *row));
        }
        holds(&rt, back, is_enough(KeyKind::Part, needed + 1, *row));
    }
}

/// A pattern needs an octet for each octet and `?`, and none for a `*`. This is so too if a `\`
/// ends a piece.
#[test]
fn patterns_need_no_octet_for_a_star(rt: HostRuntime) {
    let rows: &[Piecewise<'_>] = &[
        (b"", b"", 0),
        (b"*", b"**", 0),
        (b"a?", b"*b", 3),
        (b"\\", b"*", 1),
        (b"\\\\", b"*", 1),
        (b"\\\\\\", b"*", 2),
        (b"a", b"\\", 2),
        (b"\\", b"", 1),
        (b"\\", b"\\", 1),
    ];
    check_keys(&rt, KeyKind::Pattern, rows);
    for row in rows {
        let (_, back, needed) = *row;
        holds(&rt, back, is_enough(KeyKind::Pattern, needed + 1, *row));
    }
}
