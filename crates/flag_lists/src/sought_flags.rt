//! Flags to look for (RFC 5232, section 4).
ghost use Rattle.octets.specs.Octet.{is_filled};
ghost use Rattle.std.specs.Prelude.{◌≡◌, ◌++◌, ◌∷◌, ◌<◌, [], IfNone, IfOk, IfSome, OnOk, filter, length};
ghost use Rattle.flag_lists.specs.Flags.{filled_pieces, flag_keys, flag_keys_of_texts, pieces};
ghost use Rattle.octets.specs.view.Texts.{octets_of_each};

use crate::flag_spelling::next_piece;
use std::alloc::{AllocError, Global};
use std::borrow::CowSlice;

/// The texts that a key of a test stands for: its pieces between spaces, whether they are flags or
/// not. An empty piece is left out, so spaces alone stand for no text. The empty key stands for
/// itself (RFC 5232, section 4).
pub fn flag_keys(alloc: Global, key: &[u8]) -> Result<Vec<CowSlice<'_, u8>>, AllocError>
    ensures { IfOk result (λ keys. octets_of_each keys.items ≡ flag_keys key.now) }
{
    let mut keys = Vec::new(alloc);
    push_keys(&mut keys, key)?;
    Ok(keys)
}

/// The texts that each key of a test stands for, in order, as in [`flag_keys`] (RFC 5232, section
/// 4).
#[tactic(auto, unfolding(crate::specs::Flags::flag_keys_of_texts))]
pub fn flag_keys_of_texts<'a>(
    alloc: Global,
    keys: &'a [CowSlice<'a, u8>],
) -> Result<Vec<CowSlice<'a, u8>>, AllocError>
    ensures { IfOk result
        (λ found. octets_of_each found.items ≡ flag_keys_of_texts (octets_of_each keys.now)) }
{
    let mut found = Vec::new(alloc);
    for key in keys {
        push_keys(&mut found, key.as_slice())?;
    }
    Ok(found)
}

/// The first piece of a key of a test that has octets, and the text after it. Called again on that
/// text, it gives the next such piece. A key that isn't empty stands for these pieces (RFC 5232,
/// section 4).
pub fn next_key(key: &[u8]) -> Option<(&[u8], &[u8])>
    ensures some { IfSome result
        (λ found. filled_pieces key.now ≡ found.0.now ∷ filled_pieces found.1.now) }
    ensures shorter { IfSome result (λ found. length found.1.now < length key.now) }
    ensures none { IfNone result (filled_pieces key.now ≡ []) }
{
    let mut rest = key;
    'pieces: loop {
        let (piece, after) = next_piece(rest);
        match after {
            Some(after) => {
                if piece.is_empty() {
                    rest = after;
                } else {
                    return Some((piece, after));
                }
            }
            None => return last_key(piece),
        }
    }
}

/// The whole of a text without a space, if it has octets, and nothing after it.
fn last_key(piece: &[u8]) -> Option<(&[u8], &[u8])>
    requires { pieces piece.now ≡ piece.now ∷ [] }
    ensures some { IfSome result
        (λ found. filled_pieces piece.now ≡ found.0.now ∷ filled_pieces found.1.now) }
    ensures shorter { IfSome result (λ found. length found.1.now < length piece.now) }
    ensures none { IfNone result (filled_pieces piece.now ≡ []) }
{
    if piece.is_empty() {
        None
    } else {
        Some((piece, &[]))
    }
}

/// Adds the texts that a key stands for.
#[tactic(auto, unfolding(crate::specs::Flags::flag_keys))]
fn push_keys<'a>(found: &mut Vec<CowSlice<'a, u8>>, key: &'a [u8]) -> Result<(), AllocError>
    ensures { OnOk result
        (octets_of_each found.new.items ≡ octets_of_each found.old.items ++ flag_keys key.now) }
{
    if key.is_empty() {
        found.push(CowSlice::Borrowed(key))?;
        return Ok(());
    }
    let mut rest = key;
    'pieces: loop {
        let (piece, after) = next_piece(rest);
        push_filled(found, piece)?;
        match after {
            Some(after) => rest = after,
            None => return Ok(()),
        }
    }
}

/// Adds a piece, if it has octets.
fn push_filled<'a>(found: &mut Vec<CowSlice<'a, u8>>, piece: &'a [u8]) -> Result<(), AllocError>
    ensures { OnOk result (octets_of_each found.new.items
        ≡ octets_of_each found.old.items ++ filter is_filled (piece.now ∷ [])) }
{
    if !piece.is_empty() {
        found.push(CowSlice::Borrowed(piece))?;
    }
    Ok(())
}
