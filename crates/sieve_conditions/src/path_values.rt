//! An envelope as the source of a test (RFC 5228, 5.4).
ghost use Rattle.std.specs.Prelude.{◌≡◌, None, map, IfOk};
ghost use Rattle.std.specs.Option.{option_copied, option_map};
ghost use Rattle.message_text.specs.Addresses.{is_null_path, part_of_address};
ghost use Rattle.sieve_script.specs.Reading.{envelope_values};
ghost use Rattle.sieve_conditions.specs.Matching.{envelope_text, first_some, values_of};
ghost use Rattle.sieve_delivery.specs.Delivery.{envelope_of, recipient_of, sender_of};
ghost use Rattle.sieve_delivery.specs.view.Delivery.{arrival_as, delivery_as};
ghost use Rattle.sieve_conditions.specs.view.FieldTests.{found_with, path_found, path_name_found};
ghost use Rattle.sieve_delivery.specs.view.State.{state_of};
ghost use Rattle.sieve_variables.specs.Value.{text_value};

use crate::field_values::find_in_part;
use crate::matcher::{MatchValues, Matcher};
use message_text::{AddressPart, addresses};
use packed_strings::Strings;
use sieve_delivery::{Addresses, Arrival, Delivery, Envelope, RunState};
use sieve_variables::Values;
use std::alloc::{AllocError, Global};

/// The sender: the message's own if it has one, or else the envelope's.
fn sender_of<'a>(own: Option<&'a Addresses>, envelope: &'a Envelope) -> &'a [u8]
    ensures { result.now ≡ sender_of (option_copied own.entry) envelope.now }
{
    match own {
        Some(own) => own.from.as_slice(),
        None => envelope.from.as_slice(),
    }
}

/// The recipient: the message's own if it has one, or else the envelope's.
fn recipient_of<'a>(own: Option<&'a Addresses>, envelope: &'a Envelope) -> &'a [u8]
    ensures { result.now ≡ recipient_of (option_copied own.entry) envelope.now }
{
    match own {
        Some(own) => own.to.as_slice(),
        None => envelope.to.as_slice(),
    }
}

/// The address of the envelope's part of that name, or none if there is no such part.
pub(crate) fn envelope_text<'a>(arrival: &'a Arrival<'a>, name: &[u8]) -> Option<&'a [u8]>
    ensures { option_map (λ octets. octets.now) result
        ≡ envelope_text (envelope_of (arrival_as arrival.now)) name.now }
{
    if b"from".eq_ignore_ascii_case(name) {
        Some(sender_of(arrival.own, arrival.envelope))
    } else if b"to".eq_ignore_ascii_case(name) {
        Some(recipient_of(arrival.own, arrival.envelope))
    } else {
        None
    }
}

/// Whether there is no address, or the null path (RFC 5321, 4.5.5).
pub(crate) fn is_null_path(text: &[u8]) -> bool
    ensures { result ≡ is_null_path text.now }
{
    text.is_empty() || b"<>".as_slice() == text
}

/// That part of a text that isn't one address. Only all of it is there.
fn seen_part(part: AddressPart, text: &[u8]) -> Option<&[u8]>
    ensures { option_map (λ octets. octets.now) result
        ≡ part_of_address part (record { all = text.now; local_part = None; domain = None }) }
{
    match part {
        AddressPart::All => Some(text),
        AddressPart::Local | AddressPart::Domain | AddressPart::User | AddressPart::Detail => None,
    }
}

/// The match values that that part of an envelope's address gives.
#[tactic(auto, unfolding(message_text::specs::Addresses::part_of_path))]
fn find_in_path(
    alloc: Global,
    part: AddressPart,
    text: &[u8],
    matcher: &Matcher<'_>,
) -> Result<Option<MatchValues>, AllocError>
    ensures { IfOk result (λ found. found ≡ path_found (found_with matcher.now) part text.now) }
{
    if is_null_path(text) {
        return matcher.first_match(alloc, b"");
    }
    let listed = addresses(alloc, text)?;
    match listed.as_slice() {
        [one] => find_in_part(alloc, one.part(part), matcher),
        _ => find_in_part(alloc, seen_part(part, text), matcher),
    }
}

/// The match values that that part of the address gives in the envelope's part of that name.
fn find_by_path_name(
    alloc: Global,
    arrival: &Arrival<'_>,
    part: AddressPart,
    name: &[u8],
    matcher: &Matcher<'_>,
) -> Result<Option<MatchValues>, AllocError>
    ensures { IfOk result (λ found. found ≡ path_name_found (found_with matcher.now) part
        (envelope_of (arrival_as arrival.now)) name.now) }
{
    match envelope_text(arrival, name) {
        Some(text) => find_in_path(alloc, part, text, matcher),
        None => Ok(None),
    }
}

/// The match values of the first named part of the envelope whose address matches.
fn find_by_path_names(
    alloc: Global,
    arrival: &Arrival<'_>,
    part: AddressPart,
    values: &Values,
    names: &Strings<'_>,
    matcher: &Matcher<'_>,
) -> Result<Option<MatchValues>, AllocError>
    ensures { IfOk result (λ found. found ≡ first_some (path_name_found (found_with matcher.now)
        part (envelope_of (arrival_as arrival.now))) (map (text_value values.now) names.now)) }
{
    let mut buffer = Vec::new(alloc);
    for i in 0..names.len() {
        let name = names.text_in(i, values, &mut buffer)?;
        if let Some(found) = find_by_path_name(alloc, arrival, part, name, matcher)? {
            return Ok(Some(found));
        }
    }
    Ok(None)
}

/// The match values that that part of the addresses in some named parts of the envelope gives.
pub(crate) fn find_in_paths(
    delivery: &Delivery<'_>,
    state: &RunState,
    part: AddressPart,
    names: &Strings<'_>,
    matcher: &Matcher<'_>,
) -> Result<Option<MatchValues>, AllocError>
    ensures { IfOk result (λ found. found ≡ first_some (found_with matcher.now) (values_of
        (delivery_as delivery.now) (state_of state.now) (envelope_values part names.now))) }
{
    find_by_path_names(
        delivery.alloc,
        delivery.arrival,
        part,
        &state.values,
        names,
        matcher,
    )
}
