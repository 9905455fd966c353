//! Flags as the values of a test (RFC 5232, 4).
ghost use Rattle.std.specs.Prelude.{◌≡◌, ◌∷◌, ◌++◌, ℕ, List, IfOk, Some};
ghost use Rattle.std.specs.List.{list_any};
ghost use Rattle.flag_lists.specs.Flags.{flag_keys, flag_list, has_key};
ghost use Rattle.match_text.specs.Order.{are_equal};
ghost use Rattle.sieve_script.specs.Reading.{flag_values};
ghost use Rattle.sieve_conditions.specs.Matching.{first_some, values_of};
ghost use Rattle.sieve_delivery.specs.view.Delivery.{delivery_as};
ghost use Rattle.sieve_conditions.specs.view.FieldTests.{cut_key, found_with, key_texts};
ghost use Rattle.sieve_conditions.specs.view.FlagTests.{best_of};
ghost use Rattle.sieve_delivery.specs.view.State.{state_of};
ghost use Rattle.octets.specs.view.Texts.{octets_of_each};

use crate::matcher::{MatchValues, Matcher, plain_match};
use flag_lists::{FlagList, flags_of, next_key};
use match_text::Collation;
use packed_strings::Strings;
use sieve_delivery::{Delivery, RunState};
use sieve_script::MatchType;
use std::alloc::{AllocError, Global};
use std::borrow::CowSlice;

/// Whether a piece of a key is among flags.
fn has_piece(flags: &FlagList, collation: Collation, key: &[u8]) -> bool
    ensures { result ≡ list_any (has_key (are_equal collation) flags.now) (flag_keys key.now) }
{
    if key.is_empty() {
        return flags.has(collation, key);
    }
    let mut left = key;
    while let Some((piece, after)) = next_key(left) {
        if flags.has(collation, piece) {
            return true;
        }
        left = after;
    }
    false
}

/// Whether a key is among flags, or a piece of it if keys are cut.
fn has_key_of(flags: &FlagList, matcher: &Matcher<'_>, key: &[u8]) -> bool
    ensures { result ≡ list_any (has_key (are_equal matcher.now.comparison.collation) flags.now)
        (cut_key matcher.now.are_cut key.now) }
{
    let collation = matcher.comparison.collation;
    if matcher.are_cut {
        has_piece(flags, collation, key)
    } else {
        flags.has(collation, key)
    }
}

/// Whether some key is among flags.
fn has_some(alloc: Global, flags: &FlagList, matcher: &Matcher<'_>) -> Result<bool, AllocError>
    ensures { IfOk result (λ has. has ≡ list_any
        (has_key (are_equal matcher.now.comparison.collation) flags.now) (key_texts matcher.now)) }
{
    let mut buffer = Vec::new(alloc);
    for i in 0..matcher.keys.len() {
        let key = matcher.keys.text_in(i, matcher.values, &mut buffer)?;
        if has_key_of(flags, matcher, key) {
            return Ok(true);
        }
    }
    Ok(false)
}

/// The match values that the flags give by the keys that were compared so far.
#[derive(Drop)]
struct Best {
    // The match values of the first flag that matched a key.
    found: Option<MatchValues>,
    // The number of flags before that flag, or of all flags if none matched. Later keys count only
    // for these flags.
    before: usize,
}

/// The best after one more key.
fn better(
    alloc: Global,
    flags: &FlagList,
    matcher: &Matcher<'_>,
    key: &[u8],
    so_far: Best,
) -> Result<Best, AllocError>
    ensures { IfOk result (λ next. (rest : List (List ℕ)) → best_of matcher.now.comparison flags.now
        next rest ≡ best_of matcher.now.comparison flags.now so_far (key.now ∷ rest)) }
{
    for i in 0..so_far.before.min(flags.len()) {
        if let Some(values) = matcher.match_of(alloc, flags.get(i), key)? {
            return Ok(Best {
                found: Some(values),
                before: i,
            });
        }
    }
    Ok(so_far)
}

/// The best after the pieces of one more key.
fn better_by_pieces(
    alloc: Global,
    flags: &FlagList,
    matcher: &Matcher<'_>,
    key: &[u8],
    so_far: Best,
) -> Result<Best, AllocError>
    ensures { IfOk result (λ next. (rest : List (List ℕ)) → best_of matcher.now.comparison flags.now
        next rest ≡ best_of matcher.now.comparison flags.now so_far (flag_keys key.now ++ rest)) }
{
    if key.is_empty() {
        return better(alloc, flags, matcher, key, so_far);
    }
    let mut best = so_far;
    let mut left = key;
    while let Some((piece, after)) = next_key(left) {
        best = better(alloc, flags, matcher, piece, best)?;
        left = after;
    }
    Ok(best)
}

/// The best after one more key, or after its pieces if keys are cut.
fn better_by(
    alloc: Global,
    flags: &FlagList,
    matcher: &Matcher<'_>,
    key: &[u8],
    so_far: Best,
) -> Result<Best, AllocError>
    ensures { IfOk result (λ next. (rest : List (List ℕ))
        → best_of matcher.now.comparison flags.now next rest ≡ best_of matcher.now.comparison
        flags.now so_far (cut_key matcher.now.are_cut key.now ++ rest)) }
{
    if matcher.are_cut {
        better_by_pieces(alloc, flags, matcher, key, so_far)
    } else {
        better(alloc, flags, matcher, key, so_far)
    }
}

/// The match values of the first flag that matches some key. Each key is put together once, and
/// compared with the flags before the best so far.
fn find_in_each(
    alloc: Global,
    flags: &FlagList,
    matcher: &Matcher<'_>,
) -> Result<Option<MatchValues>, AllocError>
    ensures { IfOk result (λ found. found ≡ first_some (found_with matcher.now) flags.now) }
{
    let before = flags.len();
    let mut best = Best {
        found: None,
        before,
    };
    let mut buffer = Vec::new(alloc);
    for i in 0..matcher.keys.len() {
        if best.before == 0 {
            return Ok(best.found);
        }
        let key = matcher.keys.text_in(i, matcher.values, &mut buffer)?;
        best = better_by(alloc, flags, matcher, key, best)?;
    }
    Ok(best.found)
}

/// The match values of the first flag that matches some key. Under `:is` each key is looked up
/// among the flags, instead of comparing each flag with each key.
fn find_in_flags(
    alloc: Global,
    flags: &FlagList,
    matcher: &Matcher<'_>,
) -> Result<Option<MatchValues>, AllocError>
    ensures { IfOk result (λ found. found ≡ first_some (found_with matcher.now) flags.now) }
{
    match matcher.comparison.match_type {
        MatchType::Is => Ok(plain_match(alloc, has_some(alloc, flags, matcher)?)),
        _ => find_in_each(alloc, flags, matcher),
    }
}

/// The match values of the first flag of a text that matches some key.
fn find_in_text(
    alloc: Global,
    text: &[u8],
    matcher: &Matcher<'_>,
) -> Result<Option<MatchValues>, AllocError>
    ensures { IfOk result
        (λ found. found ≡ first_some (found_with matcher.now) (flag_list text.now)) }
{
    let flags = flags_of(alloc, text)?;
    find_in_flags(alloc, &flags, matcher)
}

/// The match values of the first flag of some texts that matches some key.
fn find_in_texts(
    alloc: Global,
    texts: &[CowSlice<'_, u8>],
    matcher: &Matcher<'_>,
) -> Result<Option<MatchValues>, AllocError>
    ensures { IfOk result (λ found. found ≡ first_some
        (λ text. first_some (found_with matcher.now) (flag_list text)) (octets_of_each texts.now)) }
{
    for text in texts {
        if let Some(values) = find_in_text(alloc, text.as_slice(), matcher)? {
            return Ok(Some(values));
        }
    }
    Ok(None)
}

/// The match values that the flags of variables give. The variables' values are read first.
fn find_in_variables(
    delivery: &Delivery<'_>,
    state: &RunState,
    variables: &Strings<'_>,
    matcher: &Matcher<'_>,
) -> Result<Option<MatchValues>, AllocError>
    ensures { IfOk result (λ found. found ≡ first_some (found_with matcher.now) (values_of
        (delivery_as delivery.now) (state_of state.now) (flag_values (Some variables.now)))) }
{
    let held = variables.expanded(delivery.alloc, &state.values)?;
    find_in_texts(delivery.alloc, &held, matcher)
}

/// The match values that the flags of variables give, or the internal flags if no variables are
/// named.
pub(crate) fn find_in_held(
    delivery: &Delivery<'_>,
    state: &RunState,
    variables: &Option<Strings<'_>>,
    matcher: &Matcher<'_>,
) -> Result<Option<MatchValues>, AllocError>
    ensures { IfOk result (λ found. found ≡ first_some (found_with matcher.now)
        (values_of (delivery_as delivery.now) (state_of state.now) (flag_values variables.now))) }
{
    match variables {
        Some(variables) => find_in_variables(delivery, state, variables, matcher),
        None => find_in_flags(delivery.alloc, state.actions.flags(), matcher),
    }
}
