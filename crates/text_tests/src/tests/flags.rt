//! Pieces of texts as flags (RFC 5232, section 2) and as keys (RFC 5232, section 4). The results of
//! lists of flags are made in `tools/checks`.
use super::{Row, holds, push_ended, same};
use flag_lists::{flag_keys, flag_keys_of_texts, next_flag, next_key};
use std::alloc::AllocError;
use std::borrow::CowSlice;
use std::process::Abort;

/// A text's first flag ends at the first space after it. Pieces before it that aren't flags are
/// passed over.
#[test]
fn a_text_gives_its_first_flag(rt: HostRuntime) {
    let (flag, rest) = next_flag(b" b] x y  z").unwrap_or((b"", b""));
    same(&rt, b"flag", flag, b"x");
    same(&rt, b"rest", rest, b"y  z");
    holds(&rt, b"none", next_flag(b"b] \\Recent ").is_none());
    holds(&rt, b"no last one", next_flag(b" b]").is_none());
    let (last, nothing) = next_flag(b"b] a").unwrap_or((b"", b"b]"));
    same(&rt, b"last", last, b"a");
    same(&rt, b"nothing", nothing, b"");
}

/// Compares keys, with a bar after each.
fn check_keys(
    rt: &(impl AllocGlobal + Abort),
    row: &[u8],
    keys: &[CowSlice<'_, u8>],
    wanted: &[u8],
) -> Result<(), AllocError> {
    let mut told = Vec::new(rt.alloc());
    for key in keys {
        push_ended(&mut told, key.as_slice(), b'|')?;
    }
    same(rt, row, &told, wanted);
    Ok(())
}

/// The pieces of a key that have octets, one after another.
#[test]
fn a_key_gives_its_pieces(rt: HostRuntime) -> Result<(), AllocError> {
    let rows: &[Row<'_>] = &[
        (b"", b""),
        (b"   ", b""),
        (b"a", b"a|"),
        (b" \\Seen  a* ", b"\\Seen|a*|"),
    ];
    for (key, wanted) in rows {
        let mut told = Vec::new(rt.alloc());
        let mut left = *key;
        for _ in *key {
            let Some((piece, rest)) = next_key(left) else {
                break;
            };
            push_ended(&mut told, piece, b'|')?;
            left = rest;
        }
        same(&rt, *key, &told, *wanted);
    }
    Ok(())
}

/// Compares the texts that a key of a test stands for.
fn check_key(rt: &(impl AllocGlobal + Abort), key: &[u8], wanted: &[u8]) -> Result<(), AllocError> {
    check_keys(rt, key, &flag_keys(rt.alloc(), key)?, wanted)
}

/// Keys of a test, and the texts that they stand for.
#[test]
fn keys_are_not_judged(rt: HostRuntime) -> Result<(), AllocError> {
    check_key(&rt, b"", b"|")?;
    check_key(&rt, b" ", b"")?;
    check_key(&rt, b"a  b", b"a|b|")?;
    check_key(&rt, b" \\Recent (* a A a", b"\\Recent|(*|a|A|a|")
}

/// Compares the keys of several texts.
fn check_texts_as_keys<'a>(
    rt: &(impl AllocGlobal + Abort),
    texts: &'a [CowSlice<'a, u8>],
) -> Result<(), AllocError> {
    let keys = flag_keys_of_texts(rt.alloc(), texts)?;
    check_keys(rt, b"several texts", &keys, b"\\Seen|a||A|b|")
}

/// Several texts as keys.
#[test]
fn texts_go_on_in_order(rt: HostRuntime) -> Result<(), AllocError> {
    check_texts_as_keys(
        &rt,
        &[
            CowSlice::Borrowed(b"\\Seen a"),
            CowSlice::Borrowed(b""),
            CowSlice::Borrowed(b"A b"),
        ],
    )
}
