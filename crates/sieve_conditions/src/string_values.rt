//! Strings as the values of a test (RFC 5229, 5).
ghost use Rattle.std.specs.Prelude.{◌≡◌, map, IfOk};
ghost use Rattle.sieve_script.specs.Reading.{string_values};
ghost use Rattle.sieve_conditions.specs.Matching.{first_some, values_of};
ghost use Rattle.sieve_delivery.specs.view.Delivery.{delivery_as};
ghost use Rattle.sieve_conditions.specs.view.FieldTests.{found_with};
ghost use Rattle.sieve_delivery.specs.view.State.{state_of};
ghost use Rattle.sieve_variables.specs.Value.{text_value};

use crate::matcher::{MatchValues, Matcher};
use packed_strings::Strings;
use sieve_delivery::{Delivery, RunState};
use sieve_variables::Values;
use std::alloc::{AllocError, Global};

/// The match values of the first string that matches some key.
fn find_in_texts(
    alloc: Global,
    values: &Values,
    texts: &Strings<'_>,
    matcher: &Matcher<'_>,
) -> Result<Option<MatchValues>, AllocError>
    ensures { IfOk result (λ found. found
        ≡ first_some (found_with matcher.now) (map (text_value values.now) texts.now)) }
{
    let mut buffer = Vec::new(alloc);
    for i in 0..texts.len() {
        let text = texts.text_in(i, values, &mut buffer)?;
        if let Some(found) = matcher.first_match(alloc, text)? {
            return Ok(Some(found));
        }
    }
    Ok(None)
}

/// The match values that strings give.
pub(crate) fn find_in_strings(
    delivery: &Delivery<'_>,
    state: &RunState,
    texts: &Strings<'_>,
    matcher: &Matcher<'_>,
) -> Result<Option<MatchValues>, AllocError>
    ensures { IfOk result (λ found. found ≡ first_some (found_with matcher.now)
        (values_of (delivery_as delivery.now) (state_of state.now) (string_values texts.now))) }
{
    find_in_texts(delivery.alloc, &state.values, texts, matcher)
}
