//! Questions of tests about a delivery, and the matches that they find (RFC 5228, 2.7 and 5).
ghost use Rattle.std.specs.Prelude.{◌≡◌, IfOk, decimal, is_some, length, nat_lt};
ghost use Rattle.sieve_script.specs.Reading.{compares, exists_ask};
ghost use Rattle.sieve_conditions.specs.Matching.{after_test, compared_of, counted_of, first_some, match_found, sets_matched, truth_of, values_of, with_found_in};
ghost use Rattle.sieve_delivery.specs.view.Delivery.{delivery_as};
ghost use Rattle.sieve_conditions.specs.view.FieldTests.{cuts_keys, found_with};
ghost use Rattle.packed_strings.specs.view.Refs.{source_ref_as};
ghost use Rattle.sieve_delivery.specs.view.State.{state_of};

use crate::body_values::find_in_body;
use crate::counting::count_in_source;
use crate::date_values::{find_in_clock, find_in_date};
use crate::field_cache::FieldCache;
use crate::field_values::{find_in_named, has_fields};
use crate::flag_values::find_in_held;
use crate::matcher::{MatchValues, Matcher, set_found};
use crate::path_values::find_in_paths;
use crate::string_values::find_in_strings;
use itoa::Buffer;
use packed_strings::{FieldNames, SourceRef, Strings};
use sieve_delivery::{Delivery, RunState};
use sieve_script::{Comparison, MatchType};
use std::alloc::AllocError;

/// The match values of the first value of a source that matches some key.
fn find_in_source(
    delivery: &Delivery<'_>,
    fields: &mut FieldCache<'_>,
    state: &RunState,
    source: &SourceRef<'_>,
    matcher: &Matcher<'_>,
) -> Result<Option<MatchValues>, AllocError>
    requires { fields.old ≡ (delivery_as delivery.now).arrival }
    ensures arrival { fields.new ≡ fields.old }
    ensures found { IfOk result (λ found. found ≡ first_some (found_with matcher.now)
        (values_of (delivery_as delivery.now) (state_of state.now) (source_ref_as source.now))) }
{
    match source {
        SourceRef::Fields { part, names } => {
            find_in_named(delivery, fields, state, *part, names, matcher)
        }
        SourceRef::Envelope { part, names } => {
            find_in_paths(delivery, state, *part, names, matcher)
        }
        SourceRef::String { texts } => { find_in_strings(delivery, state, texts, matcher) }
        SourceRef::Flags { variables } => find_in_held(delivery, state, variables, matcher),
        SourceRef::Date { zone, field, part } => {
            find_in_date(delivery, state, zone, *field, *part, matcher)
        }
        SourceRef::CurrentDate { zone, part } => {
            find_in_clock(delivery, state, zone, *part, matcher)
        }
        SourceRef::Body { transform } => {
            find_in_body(delivery, fields, state, transform, matcher)
        }
    }
}

/// The match values of the number of a source's values, in decimal (RFC 5231, 4.2). It is compared
/// as a text, by the test's comparator.
fn find_by_count(
    delivery: &Delivery<'_>,
    fields: &mut FieldCache<'_>,
    state: &RunState,
    source: &SourceRef<'_>,
    matcher: &Matcher<'_>,
) -> Result<Option<MatchValues>, AllocError>
    requires { fields.old ≡ (delivery_as delivery.now).arrival }
    ensures arrival { fields.new ≡ fields.old }
    ensures found { IfOk result (λ found. found ≡ found_with matcher.now (decimal (length
        (counted_of (delivery_as delivery.now) (state_of state.now) (source_ref_as source.now))))) }
{
    let count = count_in_source(delivery, fields, state, source)?;
    let mut buffer = Buffer::new();
    let digits = buffer.format(count);
    matcher.first_match(delivery.alloc, digits.as_bytes())
}

/// The match values of the first value of a source that matches some key. Under `:count` the number
/// of the values is compared instead.
fn find_keyed(
    delivery: &Delivery<'_>,
    fields: &mut FieldCache<'_>,
    state: &RunState,
    source: &SourceRef<'_>,
    matcher: &Matcher<'_>,
) -> Result<Option<MatchValues>, AllocError>
    requires { fields.old ≡ (delivery_as delivery.now).arrival }
    ensures arrival { fields.new ≡ fields.old }
    ensures found { IfOk result (λ found. found
        ≡ first_some (found_with matcher.now) (compared_of matcher.now.comparison.match_type
        (delivery_as delivery.now) (state_of state.now) (source_ref_as source.now))) }
{
    match matcher.comparison.match_type {
        MatchType::Count(_) => find_by_count(delivery, fields, state, source, matcher),
        MatchType::Is | MatchType::Contains | MatchType::Matches | MatchType::Value(_) => {
            find_in_source(delivery, fields, state, source, matcher)
        }
    }
}

/// Whether the keys of a test are cut at spaces (RFC 5232, 4).
fn cuts_keys(source: &SourceRef<'_>) -> bool
    ensures { result ≡ cuts_keys (source_ref_as source.now) }
{
    match source {
        SourceRef::Flags { .. } => true,
        _ => false,
    }
}

/// The match values that a test finds by comparing values with keys.
fn find_match(
    delivery: &Delivery<'_>,
    fields: &mut FieldCache<'_>,
    state: &RunState,
    source: &SourceRef<'_>,
    comparison: Comparison,
    keys: &Strings<'_>,
) -> Result<Option<MatchValues>, AllocError>
    requires { fields.old ≡ (delivery_as delivery.now).arrival }
    ensures arrival { fields.new ≡ fields.old }
    ensures found { IfOk result (λ found. found ≡ match_found (delivery_as delivery.now)
        (state_of state.now) (source_ref_as source.now) comparison keys.now) }
{
    let matcher = Matcher {
        comparison,
        values: &state.values,
        keys,
        are_cut: cuts_keys(source),
    };
    find_keyed(delivery, fields, state, source, &matcher)
}

/// Whether the match of a test sets match variables. That of a body doesn't (RFC 5173, 6).
fn sets_matched(source: &SourceRef<'_>) -> bool
    ensures { result ≡ sets_matched (source_ref_as source.now) }
{
    match source {
        SourceRef::Body { .. } => false,
        _ => true,
    }
}

/// Keeps the match that was found in a source, if it sets match variables. Returns whether there is
/// a match.
fn set_found_in(
    source: &SourceRef<'_>,
    match_type: MatchType,
    found: Option<MatchValues>,
    state: &mut RunState,
) -> bool
    ensures truth { result ≡ is_some found }
    ensures kept { state_of state.new ≡ record (state_of state.old) {
      values = with_found_in
          (source_ref_as source.now) match_type found (state_of state.old).values;
    } }
{
    if sets_matched(source) {
        set_found(match_type, found, state)
    } else {
        found.is_some()
    }
}

/// Whether some value of a source matches some key. Under `:count` the number of the values is
/// compared with the keys (RFC 5231, 4.2). Sources are fields and the envelope (RFC 5228, 5.1, 5.4
/// and 5.7), and strings (RFC 5229, 5). They are also flags (RFC 5232, 4), dates (RFC 5260, 4 and
/// 5) and the body (RFC 5173, 4). Under `:matches` the first match sets the match variables
/// (RFC 5229, 3.2). That of a body doesn't (RFC 5173, 6). All strings stand for their values when
/// the test begins. The results of reading the message are kept. Fails if memory is refused.
#[tactic(auto, unfolding(crate::specs::Matching::truth_of, crate::specs::Matching::values_after))]
pub fn compare(
    delivery: &Delivery<'_>,
    source: &SourceRef<'_>,
    comparison: Comparison,
    keys: &Strings<'_>,
    fields: &mut FieldCache<'_>,
    state: &mut RunState,
) -> Result<bool, AllocError>
    requires { fields.old ≡ (delivery_as delivery.now).arrival }
    ensures arrival { fields.new ≡ fields.old }
    ensures truth { IfOk result (λ truth. truth ≡ truth_of (delivery_as delivery.now)
        (state_of state.old) (compares (source_ref_as source.now) comparison keys.now)) }
    ensures after { IfOk result
        (λ truth. state_of state.new ≡ after_test (delivery_as delivery.now)
        (compares (source_ref_as source.now) comparison keys.now) (state_of state.old)) }
{
    let found = find_match(delivery, fields, &*state, source, comparison, keys)?;
    Ok(set_found_in(source, comparison.match_type, found, state))
}

/// Whether all named fields are there (RFC 5228, 5.5). Fails if memory is refused.
#[tactic(auto, unfolding(crate::specs::Matching::truth_of))]
pub fn exists(
    delivery: &Delivery<'_>,
    names: &FieldNames<'_>,
    state: &RunState,
) -> Result<bool, AllocError>
    ensures { IfOk result (λ truth. truth
        ≡ truth_of (delivery_as delivery.now) (state_of state.now) (exists_ask names.now)) }
{
    let message = delivery.arrival.message;
    has_fields(delivery.alloc, message, &state.values, names)
}

/// Whether the message has more octets than the limit (RFC 5228, 5.9).
pub fn is_over(delivery: &Delivery<'_>, limit: u64) -> bool
    ensures { result ≡ nat_lt limit (length (delivery_as delivery.now).arrival.message) }
{
    delivery.arrival.message.size() as u64 > limit
}

/// Whether the message has fewer octets than the limit (RFC 5228, 5.9).
pub fn is_under(delivery: &Delivery<'_>, limit: u64) -> bool
    ensures { result ≡ nat_lt (length (delivery_as delivery.now).arrival.message) limit }
{
    (delivery.arrival.message.size() as u64) < limit
}
