//! The number of values of a test that counts them (RFC 5231, 4.2).
ghost use Rattle.std.specs.Prelude.{◌≡◌, ◌<◌, ◌≤◌, ◌+◌, ◌^◌, length, false, filter, map, Some, slice_get, IfOk, OnErr};
ghost use Rattle.std.proofs.Common.{rules};
ghost use Rattle.std.specs.List.{flat_map};
ghost use Rattle.std.specs.Option.{option_map};
ghost use Rattle.flag_lists.specs.Flags.{flag_list};
ghost use Rattle.message_text.specs.Fields.{Field, fields_of};
ghost use Rattle.message_text.specs.declared.addressing.AddressPart.TheVariants.{All};
ghost use Rattle.octets.specs.Octet.{is_filled};
ghost use Rattle.sieve_script.specs.Reading.{envelope_values, field_values, flag_values};
ghost use Rattle.sieve_delivery.specs.Delivery.{envelope_of};
ghost use Rattle.sieve_conditions.specs.Matching.{counted_of, envelope_named, parts_of_envelope, values_in, values_of};
ghost use Rattle.sieve_delivery.specs.view.Delivery.{arrival_as, delivery_as};
ghost use Rattle.sieve_conditions.specs.view.FieldTests.{counted_after};
ghost use Rattle.packed_strings.specs.view.Refs.{source_ref_as};
ghost use Rattle.sieve_delivery.specs.view.State.{state_of};
ghost use Rattle.sieve_variables.specs.Value.{text_value};

use crate::body_values::count_body;
use crate::date_values::{count_clock, count_date};
use crate::field_cache::FieldCache;
use crate::field_walk::{FieldVisitor, visit_looked_at};
use crate::path_values::{envelope_text, is_null_path};
use flag_lists::flags_of;
use message_text::AddressPart;
use packed_strings::{FieldNames, SourceRef, Strings};
use sieve_delivery::{Arrival, Delivery, RunState};
use sieve_variables::Values;
use std::alloc::{AllocError, Global};

/// The sum of two numbers. An error is a sum of more than 64 bits. It is answered as out of memory.
pub(crate) fn plus(count: usize, more: usize) -> Result<usize, AllocError>
    ensures ok { IfOk result (λ sum. sum ≡ count + more) }
    ensures err { OnErr result (2 ^ 64 ≤ count + more) }
{
    match count.checked_add(more) {
        Some(sum) => Ok(sum),
        None => Err(AllocError),
    }
}

/// The number of values in the fields that were visited, or of addresses in them. An address counts
/// whatever part of it is looked at.
#[derive(Clone, Copy)]
struct Counter {
    count: usize,
}

/// The number that field `i` counts for. Its value, which isn't read, counts for one. If a part of
/// addresses is looked at, each address in it counts.
fn count_at(
    alloc: Global,
    fields: &mut FieldCache<'_>,
    part: Option<AddressPart>,
    i: usize,
) -> Result<usize, AllocError>
    requires { i < length (fields_of fields.old.message) }
    ensures arrival { fields.new ≡ fields.old }
    ensures count { IfOk result
        (λ count. (field : Field) → slice_get (fields_of fields.old.message) i ≡ Some field
        → count ≡ length (values_in fields.old.profile (option_map (λ one. All) part) field)) }
{
    let Some(_) = part else {
        return Ok(1);
    };
    let listed = fields.take_addresses(alloc, i)?;
    let count = listed.len();
    fields.cache_addresses(i, listed)?;
    Ok(count)
}

impl FieldVisitor for Counter {
    const KEEPS_NAMES: bool = false;

    ghost after = { counted_after };

    ghost is_done = { λ counter. false };

    ghost rests = { Prim.search rules };

    fn is_done(&self) -> bool {
        false
    }

    fn visit(
        &mut self,
        alloc: Global,
        fields: &mut FieldCache<'_>,
        part: Option<AddressPart>,
        i: usize,
    ) -> Result<(), AllocError> {
        let more = count_at(alloc, fields, part, i)?;
        self.count = plus(self.count, more)?;
        Ok(())
    }
}

/// The number of values for a test of some fields, or of addresses in them. An address counts
/// whatever part of it the test names.
fn count_in_named(
    delivery: &Delivery<'_>,
    fields: &mut FieldCache<'_>,
    state: &RunState,
    part: Option<AddressPart>,
    names: &FieldNames<'_>,
) -> Result<usize, AllocError>
    requires { fields.old ≡ (delivery_as delivery.now).arrival }
    ensures arrival { fields.new ≡ fields.old }
    ensures count { IfOk result (λ count. count ≡ length (counted_of (delivery_as delivery.now)
        (state_of state.now) (field_values part names.now))) }
{
    let mut counter = Counter { count: 0 };
    visit_looked_at(delivery, fields, state, part, names, &mut counter)?;
    Ok(counter.count)
}

/// The number of addresses in the envelope's part of this text. There is none in a null path, and
/// one in each other text.
fn addresses_in_path(text: &[u8]) -> usize
    ensures { result ≡ length (filter is_filled (parts_of_envelope All (Some text.now))) }
{
    if is_null_path(text) { 0 } else { 1 }
}

/// The number of addresses in the envelope's part of that name.
fn addresses_by_path_name(arrival: &Arrival<'_>, name: &[u8]) -> usize
    ensures { result ≡ length
        (filter is_filled (envelope_named All (envelope_of (arrival_as arrival.now)) name.now)) }
{
    match envelope_text(arrival, name) {
        Some(text) => addresses_in_path(text),
        None => 0,
    }
}

/// The number of addresses in some parts of the envelope.
fn addresses_by_path_names(
    alloc: Global,
    arrival: &Arrival<'_>,
    values: &Values,
    names: &Strings<'_>,
) -> Result<usize, AllocError>
    ensures { IfOk result (λ count. count ≡ length (filter is_filled (flat_map (envelope_named All
        (envelope_of (arrival_as arrival.now))) (map (text_value values.now) names.now)))) }
{
    let mut buffer = Vec::new(alloc);
    let mut count = 0usize;
    for i in 0..names.len() {
        let name = names.text_in(i, values, &mut buffer)?;
        count = plus(count, addresses_by_path_name(arrival, name))?;
    }
    Ok(count)
}

/// The number of addresses for a test of some parts of the envelope. An address counts whatever
/// part of it the test names.
fn count_paths(
    delivery: &Delivery<'_>,
    state: &RunState,
    names: &Strings<'_>,
) -> Result<usize, AllocError>
    ensures { IfOk result (λ count. count ≡ length (filter is_filled (values_of
        (delivery_as delivery.now) (state_of state.now) (envelope_values All names.now)))) }
{
    addresses_by_path_names(delivery.alloc, delivery.arrival, &state.values, names)
}

/// The number of strings that aren't empty.
fn filled_strings(alloc: Global, values: &Values, texts: &Strings<'_>) -> Result<usize, AllocError>
    ensures { IfOk result
        (λ count. count ≡ length (filter is_filled (map (text_value values.now) texts.now))) }
{
    let mut buffer = Vec::new(alloc);
    let mut count = 0usize;
    for i in 0..texts.len() {
        let text = texts.text_in(i, values, &mut buffer)?;
        if !text.is_empty() {
            count += 1;
        }
    }
    Ok(count)
}

/// The number of flags in a text, each once.
fn flags_in_text(alloc: Global, text: &[u8]) -> Result<usize, AllocError>
    ensures { IfOk result (λ count. count ≡ length (flag_list text.now)) }
{
    let flags = flags_of(alloc, text)?;
    Ok(flags.len())
}

/// The number of flags that variables hold: those of each of them in turn.
fn flags_in_variables(
    alloc: Global,
    values: &Values,
    variables: &Strings<'_>,
) -> Result<usize, AllocError>
    ensures { IfOk result
        (λ count. count ≡ length (flat_map flag_list (map (text_value values.now) variables.now))) }
{
    let mut buffer = Vec::new(alloc);
    let mut count = 0usize;
    for i in 0..variables.len() {
        let text = variables.text_in(i, values, &mut buffer)?;
        count = plus(count, flags_in_text(alloc, text)?)?;
    }
    Ok(count)
}

/// The number of flags that variables hold, or of internal flags if no variables are named.
fn count_flags(
    delivery: &Delivery<'_>,
    state: &RunState,
    variables: &Option<Strings<'_>>,
) -> Result<usize, AllocError>
    ensures { IfOk result (λ count. count ≡ length
        (values_of (delivery_as delivery.now) (state_of state.now) (flag_values variables.now))) }
{
    match variables {
        Some(variables) => flags_in_variables(delivery.alloc, &state.values, variables),
        None => Ok(state.actions.flags().len()),
    }
}

/// The number of values of a source that count.
pub(crate) fn count_in_source(
    delivery: &Delivery<'_>,
    fields: &mut FieldCache<'_>,
    state: &RunState,
    source: &SourceRef<'_>,
) -> Result<usize, AllocError>
    requires { fields.old ≡ (delivery_as delivery.now).arrival }
    ensures arrival { fields.new ≡ fields.old }
    ensures count { IfOk result (λ count. count ≡ length
        (counted_of (delivery_as delivery.now) (state_of state.now) (source_ref_as source.now))) }
{
    match source {
        SourceRef::Fields { part, names } => count_in_named(delivery, fields, state, *part, names),
        SourceRef::Envelope { names, .. } => count_paths(delivery, state, names),
        SourceRef::String { texts } => { filled_strings(delivery.alloc, &state.values, texts) }
        SourceRef::Flags { variables } => count_flags(delivery, state, variables),
        SourceRef::Date { zone, field, part } => count_date(delivery, state, zone, *field, *part),
        SourceRef::CurrentDate { zone, part } => count_clock(delivery, state, zone, *part),
        SourceRef::Body { transform } => count_body(delivery, fields, state, transform),
    }
}
