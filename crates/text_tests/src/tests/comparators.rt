//! A comparator of a caller's own. The answers of the library's own ones are made in
//! `tools/checks`.
use super::same_of;
use match_text::{AsciiCasemap, Comparator, contains, is};

/// i;ascii-casemap with nothing but its fold, so that the search is the trait's own.
struct Plain;

impl Comparator for Plain {
    ghost use Rattle.std.proofs.Common.{rules};
    ghost use Rattle.match_text.specs.Comparator.{ascii_casemap};

    ghost folded = { ascii_casemap };

    fn fold(b: u8) -> u8 {
        AsciiCasemap::fold(b)
    }

    ghost settles = { λ b. Prim.search rules };
}

/// A value, a key, and the wanted answer.
type Row<'a> = (&'a [u8], &'a [u8], bool);

#[test]
fn compares_by_its_fold(rt: HostRuntime) {
    let rows: &[Row<'_>] = &[
        (b"", b"", true),
        (b"Subject", b"Subject", true),
        (b"Subject", b"sUBJECT", true),
        (b"Subject", b"Subjec", false),
        (b"Subjec", b"Subject", false),
        (b"a[b", b"A{B", false),
        (b"\x00\xff\xe4", b"\x00\xff\xc4", false),
    ];
    for (value, key, wanted) in rows {
        let got = is::<Plain>(*value, *key) as u8;
        same_of(&rt, (*value, *key), &[got], &[*wanted as u8]);
    }
}

#[test]
fn searches_by_its_fold(rt: HostRuntime) {
    let rows: &[Row<'_>] = &[
        (b"", b"", true),
        (b"value", b"", true),
        (b"", b"key", false),
        (b"frobnitzm", b"frop", false),
        (b"...zabcz...", b"ZABCZ", true),
        (b"...ZABCZ...", b"zabcz", true),
        (b"at the end", b"end", true),
        (b"at the END", b"end", true),
        (b"aab", b"AB", true),
        (b"a[b", b"{", false),
        (b"en", b"end", false),
        (b"\x00\xe4\x00", b"\xe4\x00", true),
    ];
    for (value, key, wanted) in rows {
        let got = contains::<Plain>(*value, *key) as u8;
        same_of(&rt, (*value, *key), &[got], &[*wanted as u8]);
    }
}
