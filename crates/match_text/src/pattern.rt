//! Patterns, read into their items (RFC 5228, 2.7.1).
ghost use Rattle.std.specs.Prelude.{◌≡◌, IfOk, map};
ghost use Rattle.std.specs.Option.{option_map};
ghost use Rattle.match_text.specs.Wildcard.{item_at, items_of};
ghost use Rattle.match_text.specs.view.Segment.{folded_item};

use crate::comparators::Comparator;
use std::alloc::{AllocError, Global};

/// A piece of a pattern (RFC 5228, 2.7.1).
#[derive(Clone, Copy)]
pub(crate) enum Item {
    /// Any octets, or none.
    Star,
    /// One octet, whatever it is.
    Question,
    /// An octet that is equal to this one.
    Literal(u8),
}

/// The items of a pattern, their octets folded.
pub(crate) fn folded_items<C: Comparator>(
    alloc: Global,
    pattern: &[u8],
) -> Result<Vec<Item>, AllocError>
    ensures { IfOk result
        (λ items. items.items ≡ map (folded_item C.folded) (items_of pattern.now)) }
{
    let mut items = Vec::with_capacity(alloc, pattern.len())?;
    let mut is_protected = false;
    for octet in pattern {
        if let Some(item) = item_at::<C>(is_protected, *octet) {
            items.push(item)?;
        }
        is_protected = !is_protected && *octet == b'\\';
    }
    if is_protected {
        items.push(Item::Literal(C::fold(b'\\')))?;
    }
    Ok(items)
}

/// The item that an octet of a pattern is, or none if it only protects the next one.
fn item_at<C: Comparator>(is_protected: bool, octet: u8) -> Option<Item>
    ensures { result ≡ option_map (folded_item C.folded) (item_at is_protected octet) }
{
    if is_protected {
        return Some(Item::Literal(C::fold(octet)));
    }
    match octet {
        b'*' => Some(Item::Star),
        b'?' => Some(Item::Question),
        b'\\' => None,
        _ => Some(Item::Literal(C::fold(octet))),
    }
}
