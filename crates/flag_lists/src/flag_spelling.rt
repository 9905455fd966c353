//! Which texts are flags, and how texts are cut (RFC 5232, section 2).
ghost use Rattle.std.specs.Prelude.{◌≡◌, ◌∷◌, ◌<◌, [], IfNone, IfSome, length};
ghost use Rattle.std.specs.List.{list_all};
ghost use Rattle.flag_lists.specs.Flags.{flags_in, is_flag, is_flag_octet, is_keyword, is_special, is_system_flag, pieces};
ghost use Rattle.flag_lists.specs.view.Pieces.{pieces_after};

use match_text::{AsciiCasemap, is};
use memchr::memchr;
use octets::is_visible;

/// Whether an octet may stand in a keyword.
fn is_flag_octet(octet: u8) -> bool
    ensures { result ≡ is_flag_octet octet }
{
    is_visible(octet) && !is_special(octet)
}

/// Whether an octet is one of the visible characters that no atom has: `atom-specials` (RFC 3501,
/// section 9).
fn is_special(octet: u8) -> bool
    ensures { result ≡ is_special octet }
{
    matches!(
        octet,
        b'(' | b')' | b'{' | b'%' | b'*' | b'"' | b'\\' | b']'
    )
}

/// Whether a text is a flag: a system flag or a keyword.
pub(crate) fn is_flag(text: &[u8]) -> bool
    ensures { result ≡ is_flag text.now }
{
    is_system_flag(text) || is_keyword(text)
}

/// Whether a text is a flag with a `\` that a script may set, in any case of letters.
fn is_system_flag(text: &[u8]) -> bool
    ensures { result ≡ is_system_flag text.now }
{
    is::<AsciiCasemap>(text, b"\\Answered")
        || is::<AsciiCasemap>(text, b"\\Flagged")
        || is::<AsciiCasemap>(text, b"\\Deleted")
        || is::<AsciiCasemap>(text, b"\\Seen")
        || is::<AsciiCasemap>(text, b"\\Draft")
}

/// Whether a text is an atom, as a keyword is (RFC 3501, section 9).
pub fn is_keyword(text: &[u8]) -> bool
    ensures { result ≡ is_keyword text.now }
{
    !text.is_empty() && are_flag_octets(text)
}

/// Whether each octet may stand in a keyword.
fn are_flag_octets(text: &[u8]) -> bool
    ensures { result ≡ list_all is_flag_octet text.now }
{
    text.iter().all(|octet| is_flag_octet(*octet))
}

/// The first piece of a text, and the text after the space that ends it, if a space does.
pub(crate) fn next_piece(text: &[u8]) -> (&[u8], Option<&[u8]>)
    ensures pieces { pieces text.now ≡ result.0.now ∷ pieces_after result.1 }
    ensures shorter { IfSome result.1 (λ rest. length rest.now < length text.now) }
    ensures alone { IfNone result.1 (result.0.now ≡ text.now) }
{
    match memchr(b' ', text) {
        Some(space) => (&text[..space], Some(&text[space + 1..])),
        None => (text, None),
    }
}

/// The first flag of a text, and the text after it (RFC 5232, section 2).
pub fn next_flag(text: &[u8]) -> Option<(&[u8], &[u8])>
    ensures some { IfSome result (λ found. flags_in text.now ≡ found.0.now ∷ flags_in found.1.now) }
    ensures shorter { IfSome result (λ found. length found.1.now < length text.now) }
    ensures none { IfNone result (flags_in text.now ≡ []) }
{
    let mut rest = text;
    'pieces: loop {
        let (piece, after) = next_piece(rest);
        match after {
            Some(after) => {
                if is_flag(piece) {
                    return Some((piece, after));
                }
                rest = after;
            }
            None => return last_flag(piece),
        }
    }
}

/// The whole of a text without a space, if it is a flag, and nothing after it.
fn last_flag(piece: &[u8]) -> Option<(&[u8], &[u8])>
    requires { pieces piece.now ≡ piece.now ∷ [] }
    ensures some { IfSome result
        (λ found. flags_in piece.now ≡ found.0.now ∷ flags_in found.1.now) }
    ensures shorter { IfSome result (λ found. length found.1.now < length piece.now) }
    ensures none { IfNone result (flags_in piece.now ≡ []) }
{
    if is_flag(piece) {
        Some((piece, &[]))
    } else {
        None
    }
}
