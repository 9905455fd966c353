//! The items between the stars of a pattern, and where they stand in a text.
ghost use Rattle.std.specs.Prelude.{◌≡◌, IfOk, IfSome};
ghost use Rattle.match_text.specs.view.Segment.{before_star, begins, ends, first_place, from_star, literals, place_of, takes};

use crate::pattern::Item;
use memchr::memmem;
use std::alloc::{AllocError, Global};

/// Cuts items before the first star. It gives the segment before the star, and the rest, which
/// begins with the star or is empty.
pub(crate) fn cut(items: &[Item]) -> (&[Item], &[Item])
    ensures segment { result.0.now ≡ before_star items.now }
    ensures after { result.1.now ≡ from_star items.now }
{
    for (i, item) in items.iter().enumerate() {
        if let Item::Star = item {
            return items.split_at(i);
        }
    }
    items.split_at(items.len())
}

/// Whether an item of a segment takes the octet.
fn takes(item: Item, octet: u8) -> bool
    ensures { result ≡ takes item octet }
{
    match item {
        Item::Star => false,
        Item::Question => true,
        Item::Literal(literal) => octet == literal,
    }
}

/// Whether the text begins with octets that the segment takes.
pub(crate) fn begins(segment: &[Item], text: &[u8]) -> bool
    ensures { result ≡ begins segment.now text.now }
{
    let mut rest = text;
    for item in segment {
        let [octet, after @ ..] = rest else {
            return false;
        };
        if !takes(*item, *octet) {
            return false;
        }
        rest = after;
    }
    true
}

/// The place of a segment after a star: its first place in the text. If no item follows the
/// segment, it is the place at the end of the text.
pub(crate) fn place_of(
    alloc: Global,
    segment: &[Item],
    after: &[Item],
    text: &[u8],
) -> Result<Option<usize>, AllocError>
    ensures { IfOk result (λ place. place ≡ place_of segment.now after.now text.now) }
{
    if after.is_empty() {
        return Ok(end_place(segment, text));
    }
    first_place(alloc, segment, text)
}

/// The first place where the segment stands. Octets alone are looked for in linear time. A segment
/// with a `?` is tried at each place.
fn first_place(alloc: Global, segment: &[Item], text: &[u8]) -> Result<Option<usize>, AllocError>
    ensures { IfOk result (λ place. place ≡ first_place (begins segment.now) text.now) }
{
    match literals(alloc, segment)? {
        Some(octets) => Ok(memmem::find(text, &octets)),
        None => Ok(find_place(segment, text)),
    }
}

/// The place at the end of the text, if the segment stands there.
fn end_place(segment: &[Item], text: &[u8]) -> Option<usize>
    ensures { result ≡ first_place (ends segment.now) text.now }
{
    if segment.len() > text.len() {
        return None;
    }
    let place = text.len() - segment.len();
    if begins(segment, &text[place..]) {
        Some(place)
    } else {
        None
    }
}

/// The first place where the segment stands. Each place is tried.
fn find_place(segment: &[Item], text: &[u8]) -> Option<usize>
    ensures { result ≡ first_place (begins segment.now) text.now }
{
    let mut place = 0;
    let mut rest = text;
    'places: loop {
        if begins(segment, rest) {
            return Some(place);
        }
        let [_, after @ ..] = rest else {
            return None;
        };
        place += 1;
        rest = after;
    }
}

/// The octets of a segment, or none if it has a wildcard.
fn literals(alloc: Global, segment: &[Item]) -> Result<Option<Vec<u8>>, AllocError>
    ensures { IfOk result (λ found. IfSome found (λ octets. segment.now ≡ literals octets.items)) }
{
    let mut octets = Vec::new(alloc);
    for item in segment {
        let Item::Literal(octet) = item else {
            return Ok(None);
        };
        octets.push(*octet)?;
    }
    Ok(Some(octets))
}
