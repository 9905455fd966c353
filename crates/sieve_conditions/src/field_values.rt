//! Fields of a message as the source of a test (RFC 5228, 5.1, 5.5 and 5.7).
ghost use Rattle.std.specs.Prelude.{◌≡◌, ◌<◌, length, map, None, Some, is_some, slice_get, IfOk};
ghost use Rattle.std.proofs.Common.{rules};
ghost use Rattle.std.specs.List.{list_all};
ghost use Rattle.std.specs.Option.{option_and_then, option_map};
ghost use Rattle.message_text.specs.Fields.{Field, fields_of};
ghost use Rattle.sieve_conditions.specs.Matching.{first_some, has_field, match_of, values_in, values_of};
ghost use Rattle.sieve_delivery.specs.view.Delivery.{delivery_as};
ghost use Rattle.sieve_conditions.specs.view.FieldTests.{found_after, found_with, part_found};
ghost use Rattle.sieve_script.specs.Reading.{field_values};
ghost use Rattle.sieve_delivery.specs.view.State.{state_of};
ghost use Rattle.sieve_variables.specs.Value.{text_value};

use crate::field_cache::{FieldCache, next_place};
use crate::field_walk::{FieldVisitor, visit_looked_at};
use crate::matcher::{MatchValues, Matcher};
use message_text::{Address, AddressPart, Message};
use packed_strings::FieldNames;
use sieve_delivery::{Delivery, RunState};
use sieve_variables::Values;
use std::alloc::{AllocError, Global};

/// Whether there is a field of each name.
pub(crate) fn has_fields(
    alloc: Global,
    message: &Message,
    values: &Values,
    names: &FieldNames<'_>,
) -> Result<bool, AllocError>
    ensures { IfOk result (λ has. has
        ≡ list_all (has_field (fields_of message.now)) (map (text_value values.now) names.now)) }
{
    let mut buffer = Vec::new(alloc);
    for i in 0..names.len() {
        let name = names.name_in(i, values, &mut buffer)?;
        let Some(_) = next_place(message, &name, 0) else {
            return Ok(false);
        };
    }
    Ok(true)
}

/// The match values of a part that is there and matches a key.
fn find_key_in_part(
    alloc: Global,
    part: Option<&[u8]>,
    matcher: &Matcher<'_>,
    key: &[u8],
) -> Result<Option<MatchValues>, AllocError>
    ensures { IfOk result (λ found. found
        ≡ option_and_then (λ octets. match_of matcher.now.comparison octets key.now)
        (option_map (λ octets. octets.now) part.entry)) }
{
    match part {
        Some(octets) => matcher.match_of(alloc, octets, key),
        None => Ok(None),
    }
}

/// The match values of the first of these addresses whose part matches a key.
fn find_key_in_addresses(
    alloc: Global,
    part: AddressPart,
    addresses: &[Address],
    matcher: &Matcher<'_>,
    key: &[u8],
) -> Result<Option<MatchValues>, AllocError>
    ensures { IfOk result (λ found. found ≡ first_some (part_found
        (λ octets. match_of matcher.now.comparison octets key.now) part) addresses.now) }
{
    for address in addresses {
        if let Some(values) = find_key_in_part(alloc, address.part(part), matcher, key)? {
            return Ok(Some(values));
        }
    }
    Ok(None)
}

/// The match values of the first of these addresses whose part matches some key.
fn find_keys_in_addresses(
    alloc: Global,
    part: AddressPart,
    addresses: &[Address],
    matcher: &Matcher<'_>,
) -> Result<Option<MatchValues>, AllocError>
    ensures { IfOk result
        (λ found. found ≡ first_some (part_found (found_with matcher.now) part) addresses.now) }
{
    for address in addresses {
        if let Some(values) = find_in_part(alloc, address.part(part), matcher)? {
            return Ok(Some(values));
        }
    }
    Ok(None)
}

/// The match values of the first of these addresses whose part matches some key. An only key that
/// is one literal is looked up once.
fn find_in_addresses(
    alloc: Global,
    part: AddressPart,
    addresses: &[Address],
    matcher: &Matcher<'_>,
) -> Result<Option<MatchValues>, AllocError>
    ensures { IfOk result
        (λ found. found ≡ first_some (part_found (found_with matcher.now) part) addresses.now) }
{
    match matcher.only_literal() {
        Some(key) => {
            let found = find_key_in_addresses(alloc, part, addresses, matcher, key)?;
            Ok(found)
        }
        None => find_keys_in_addresses(alloc, part, addresses, matcher),
    }
}

/// The match values of a part that is there and matches some key.
pub(crate) fn find_in_part(
    alloc: Global,
    part: Option<&[u8]>,
    matcher: &Matcher<'_>,
) -> Result<Option<MatchValues>, AllocError>
    ensures { IfOk result (λ found. found
        ≡ option_and_then (found_with matcher.now) (option_map (λ octets. octets.now) part.entry)) }
{
    match part {
        Some(octets) => matcher.first_match(alloc, octets),
        None => Ok(None),
    }
}

/// The match values that the value of field `i` gives, with its encoded words replaced (RFC 5228,
/// 2.7.2).
fn find_in_decoded(
    alloc: Global,
    fields: &mut FieldCache<'_>,
    i: usize,
    matcher: &Matcher<'_>,
) -> Result<Option<MatchValues>, AllocError>
    requires { i < length (fields_of fields.old.message) }
    ensures arrival { fields.new ≡ fields.old }
    ensures found { IfOk result
        (λ found. (field : Field) → slice_get (fields_of fields.old.message) i ≡ Some field → found
        ≡ first_some (found_with matcher.now) (values_in fields.old.profile None field)) }
{
    if let Some(value) = fields.kept_decoded(i) {
        let matched = matcher.first_match(alloc, value)?;
        return Ok(matched);
    }
    let value = fields.take_decoded(alloc, i)?;
    let found = matcher.first_match(alloc, value.as_slice())?;
    fields.cache_decoded(i, value)?;
    Ok(found)
}

/// The match values that that part of the addresses in the value of field `i` gives.
fn find_in_listed(
    alloc: Global,
    fields: &mut FieldCache<'_>,
    i: usize,
    part: AddressPart,
    matcher: &Matcher<'_>,
) -> Result<Option<MatchValues>, AllocError>
    requires { i < length (fields_of fields.old.message) }
    ensures arrival { fields.new ≡ fields.old }
    ensures found { IfOk result
        (λ found. (field : Field) → slice_get (fields_of fields.old.message) i ≡ Some field → found
        ≡ first_some (found_with matcher.now) (values_in fields.old.profile (Some part) field)) }
{
    let listed = fields.take_addresses(alloc, i)?;
    let found = find_in_addresses(alloc, part, &listed, matcher)?;
    fields.cache_addresses(i, listed)?;
    Ok(found)
}

/// The match of the first value that matches some key, among the fields visited so far.
#[derive(Drop)]
struct Finder<'m, 'v> {
    matcher: &'m Matcher<'v>,
    found: Option<MatchValues>,
}

impl<'m, 'v> FieldVisitor for Finder<'m, 'v> {
    const KEEPS_NAMES: bool = true;

    ghost after = { found_after };

    ghost is_done = { λ finder. is_some finder.found };

    ghost rests = { Prim.search rules };

    fn is_done(&self) -> bool {
        self.found.is_some()
    }

    fn visit(
        &mut self,
        alloc: Global,
        fields: &mut FieldCache<'_>,
        part: Option<AddressPart>,
        i: usize,
    ) -> Result<(), AllocError> {
        self.found = match part {
            None => find_in_decoded(alloc, fields, i, self.matcher)?,
            Some(part) => find_in_listed(alloc, fields, i, part, self.matcher)?,
        };
        Ok(())
    }
}

/// The match values that the values of some named fields give, or that part of the addresses in
/// them.
pub(crate) fn find_in_named(
    delivery: &Delivery<'_>,
    fields: &mut FieldCache<'_>,
    state: &RunState,
    part: Option<AddressPart>,
    names: &FieldNames<'_>,
    matcher: &Matcher<'_>,
) -> Result<Option<MatchValues>, AllocError>
    requires { fields.old ≡ (delivery_as delivery.now).arrival }
    ensures arrival { fields.new ≡ fields.old }
    ensures found { IfOk result (λ found. found ≡ first_some (found_with matcher.now)
        (values_of (delivery_as delivery.now) (state_of state.now) (field_values part names.now))) }
{
    let mut finder = Finder {
        matcher,
        found: None,
    };
    visit_looked_at(delivery, fields, state, part, names, &mut finder)?;
    Ok(finder.found)
}
