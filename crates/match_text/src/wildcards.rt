//! Patterns with wildcards, and the texts that the wildcards take.
ghost use Rattle.std.specs.Prelude.{◌≡◌, ◌↔◌, ◌+◌, ◌≤◌, ◌++◌, ℕ, List, [], ◌∷◌, IfOk, IfSome, IsNone, None, Some, drop, length, slice_get, take, unwrap_or};
ghost use Rattle.std.specs.Option.{option_map};
ghost use Rattle.match_text.specs.Wildcard.{Fits, items_of, matched, wildcard_count};
ghost use Rattle.match_text.specs.view.Segment.{captures_of, questions, texts_of};

use crate::comparators::{Comparator, folded};
use crate::pattern::{Item, folded_items};
use crate::segments::{begins, cut, place_of};
use std::alloc::{AllocError, Global};
use std::marker::Model;

/// The texts that the wildcards of a pattern took of a value (RFC 5229, 3.2).
#[derive(Drop)]
pub struct Captures<'v> {
    // The whole value, and then the text that each wildcard took.
    texts: Vec<&'v [u8]>,
}

impl<'v> Model for Captures<'v> {
    ghost use Rattle.std.specs.Prelude.{ℕ, ◌<◌, List, vec_len};
    ghost use Rattle.match_text.specs.view.Segment.{texts_of};

    ghost Value = { List (List ℕ) };

    ghost view = { λ a. texts_of a.texts.items };

    ghost invariant = { λ a. 0 < vec_len a.texts };
}

impl<'v> Captures<'v> {
    /// How many wildcards the pattern has.
    pub fn count(&self) -> usize
        ensures { result + 1 ≡ length self.now }
    {
        self.texts.len() - 1
    }

    /// The octets that the wildcard of this number took, the first being 1. At 0 it is the whole
    /// value, and past the count no octets.
    pub fn get(&self, k: usize) -> &'v [u8]
        ensures { result.now ≡ unwrap_or (slice_get self.now k) [] }
    {
        match self.texts.get(k) {
            Some(text) => text,
            None => &[],
        }
    }
}

/// Whether the whole value matches the pattern under the comparator, and the texts that the
/// wildcards then take. This is the match type `:matches` (RFC 5228, 2.7.1; RFC 5229, 3.2).
///
/// In a pattern `*` stands for any octets or none, and `?` for one octet. Any other octet stands
/// for those equal to it. A `\` takes its meaning from the octet after it. At the end of the
/// pattern it stands for itself. The first wildcard takes as little as it can, then the second, and
/// so on.
///
/// A match takes memory in the octets of the value and of the pattern. It fails only if it is out
/// of memory. Its time is linear in both, however many stars there are, with one exception. Octets
/// between two stars with a `?` among them are tried at each place. This takes at worst as many
/// steps as the product of their number and the value's.
pub fn matches<'v, C: Comparator>(
    alloc: Global,
    value: &'v [u8],
    pattern: &[u8],
) -> Result<Option<Captures<'v>>, AllocError>
    ensures exact { IfOk result (λ found. found ≡ matched C.folded value.now pattern.now) }
    ensures none { IfOk result (λ found. IsNone found
        ↔ ((lengths : List ℕ) → ¬ Fits C.folded (items_of pattern.now) value.now lengths)) }
    ensures count { IfOk result (λ found. IfSome found
        (λ captures. length captures ≡ wildcard_count (items_of pattern.now) + 1)) }
{
    let items = folded_items::<C>(alloc, pattern)?;
    let text = folded::<C>(alloc, value)?;
    match captured_texts(alloc, &items, &text, value)? {
        Some(texts) => Ok(Some(Captures { texts })),
        None => Ok(None),
    }
}

/// The whole value and the texts that the wildcards take of it. The items and `text` are folded.
fn captured_texts<'v>(
    alloc: Global,
    items: &[Item],
    text: &[u8],
    value: &'v [u8],
) -> Result<Option<Vec<&'v [u8]>>, AllocError>
    requires { length text.now ≡ length value.now }
    ensures { IfOk result (λ found. option_map (λ texts. texts_of texts.items) found
        ≡ option_map (λ texts. value.now ∷ texts) (captures_of items.now text.now value.now)) }
{
    let (segment, mut items_left) = cut(items);
    if !begins(segment, text) {
        return Ok(None);
    }
    let mut texts = Vec::new(alloc);
    texts.push(value)?;
    let (mut text_left, mut value_left) = take_segment(&mut texts, segment, text, value)?;
    while let [_, after_star @ ..] = items_left {
        let (segment, after) = cut(after_star);
        let Some(place) = place_of(alloc, segment, after, text_left)? else {
            return Ok(None);
        };
        let left = take_star(&mut texts, place, segment, text_left, value_left)?;
        text_left = left.0;
        value_left = left.1;
        items_left = after;
    }
    if text_left.is_empty() {
        Ok(Some(texts))
    } else {
        Ok(None)
    }
}

/// Adds the text that a star takes of the value up to a place. Then adds the texts that the `?` of
/// the segment at that place take. The result is the text and the value after the segment.
fn take_star<'t, 'v>(
    texts: &mut Vec<&'v [u8]>,
    place: usize,
    segment: &[Item],
    text: &'t [u8],
    value: &'v [u8],
) -> Result<(&'t [u8], &'v [u8]), AllocError>
    requires within { place + length segment.now ≤ length text.now }
    requires as_long { length text.now ≡ length value.now }
    ensures taken { IfOk result (λ _. texts_of texts.new.items ≡ texts_of texts.old.items
        ++ take place value.now ∷ questions segment.now (drop place value.now)) }
    ensures text { IfOk result
        (λ left. left.0.now ≡ drop (length segment.now) (drop place text.now)) }
    ensures value { IfOk result
        (λ left. left.1.now ≡ drop (length segment.now) (drop place value.now)) }
{
    let (taken, value_left) = value.split_at(place);
    let (_, text_left) = text.split_at(place);
    texts.push(taken)?;
    take_segment(texts, segment, text_left, value_left)
}

/// Adds the texts that the `?` of a segment take of the value, which begins with it. The result is
/// the text and the value after the segment.
fn take_segment<'t, 'v>(
    texts: &mut Vec<&'v [u8]>,
    segment: &[Item],
    text: &'t [u8],
    value: &'v [u8],
) -> Result<(&'t [u8], &'v [u8]), AllocError>
    requires within { length segment.now ≤ length text.now }
    requires as_long { length text.now ≡ length value.now }
    ensures taken { IfOk result (λ _. texts_of texts.new.items
        ≡ texts_of texts.old.items ++ questions segment.now value.now) }
    ensures text { IfOk result (λ left. left.0.now ≡ drop (length segment.now) text.now) }
    ensures value { IfOk result (λ left. left.1.now ≡ drop (length segment.now) value.now) }
{
    let (_, text_left) = text.split_at(segment.len());
    let value_left = push_questions(texts, segment, value)?;
    Ok((text_left, value_left))
}

/// Adds the texts that the `?` of a segment take of the value, which begins with it. The result is
/// the value after the segment.
fn push_questions<'v>(
    texts: &mut Vec<&'v [u8]>,
    segment: &[Item],
    value: &'v [u8],
) -> Result<&'v [u8], AllocError>
    requires { length segment.now ≤ length value.now }
    ensures taken { IfOk result (λ _. texts_of texts.new.items
        ≡ texts_of texts.old.items ++ questions segment.now value.now) }
    ensures after { IfOk result (λ after. after.now ≡ drop (length segment.now) value.now) }
{
    let mut rest = value;
    for item in segment {
        let (octet, after) = rest.split_at(1);
        if let Item::Question = item {
            texts.push(octet)?;
        }
        rest = after;
    }
    Ok(rest)
}
