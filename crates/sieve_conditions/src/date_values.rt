//! Dates as the values of a test (RFC 5260, 4 and 5).
ghost use Rattle.std.specs.Prelude.{◌≡◌, IfOk, length, option_to_list};
ghost use Rattle.std.specs.Option.{option_map};
ghost use Rattle.date_text.specs.Part.{part_named};
ghost use Rattle.date_text.specs.Zone as zones;
ghost use Rattle.date_text.specs.view.Moment.{moment_as, zone_as};
ghost use Rattle.message_text.specs.Fields.{fields_of};
ghost use Rattle.sieve_script.specs.Reading.{clock_values, date_values};
ghost use Rattle.sieve_conditions.specs.Dates as spec;
ghost use Rattle.sieve_conditions.specs.Matching.{counted_of, date_named, first_some, values_of};
ghost use Rattle.sieve_delivery.specs.view.Delivery.{delivery_as};
ghost use Rattle.sieve_conditions.specs.view.FieldTests.{found_with};
ghost use Rattle.packed_strings.specs.view.Refs.{zone_ref_as};
ghost use Rattle.sieve_delivery.specs.view.State.{state_of};
ghost use Rattle.sieve_variables.specs.Value.{text_value};

use crate::field_cache::next_place;
use crate::matcher::{MatchValues, Matcher};
use date_text::{Clock, DatePart, Moment, Zone, date_in, shown, zone_named};
use message_text::{FieldName, Message};
use packed_strings::ZoneRef;
use sieve_delivery::{Delivery, RunState};
use sieve_variables::{Part, Values};
use std::alloc::{AllocError, Global};

/// The date of the first field of that name. Encoded words stay as they are written.
fn date_named(
    alloc: Global,
    message: &Message,
    name: &FieldName<'_>,
) -> Result<Option<Moment>, AllocError>
    ensures { IfOk result
        (λ moment. option_map moment_as moment ≡ date_named (fields_of message.now) name.now) }
{
    match next_place(message, name, 0) {
        Some(i) => {
            let value = message.value(alloc, i)?;
            Ok(date_in(value.as_slice()))
        }
        None => Ok(None),
    }
}

/// The local zone: that of the clock, or UTC if there is no clock.
fn local_zone(clock: &Option<Clock>) -> Zone
    ensures { zone_as result ≡ spec.local_zone_of clock.now }
{
    match clock {
        Some(clock) => clock.zone(),
        None => Zone::UTC,
    }
}

/// The zone that a string names.
fn named_zone(alloc: Global, values: &Values, zone: &[Part]) -> Result<Option<Zone>, AllocError>
    ensures { IfOk result
        (λ found. option_map zone_as found ≡ zones.zone_named (text_value values.now zone.now)) }
{
    let mut buffer = Vec::new(alloc);
    Ok(zone_named(values.expanded_in(zone, &mut buffer)?))
}

/// The zone in which a date is shown that was written in some zone.
fn zone_for(
    alloc: Global,
    values: &Values,
    clock: &Option<Clock>,
    written: Zone,
    zone: &ZoneRef<'_>,
) -> Result<Option<Zone>, AllocError>
    ensures { IfOk result (λ found. option_map zone_as found
        ≡ spec.zone_for values.now clock.now (zone_as written) (zone_ref_as zone.now)) }
{
    match zone {
        ZoneRef::Local => Ok(Some(local_zone(clock))),
        ZoneRef::Original => Ok(Some(written)),
        ZoneRef::Named(zone) => named_zone(alloc, values, *zone),
    }
}

/// The part that a string names.
fn part_in(alloc: Global, values: &Values, part: &[Part]) -> Result<Option<DatePart>, AllocError>
    ensures { IfOk result (λ found. found ≡ part_named (text_value values.now part.now)) }
{
    let mut buffer = Vec::new(alloc);
    Ok(DatePart::named(values.expanded_in(part, &mut buffer)?))
}

/// That part of a moment, in the zone in which it is shown.
fn part_of_moment(
    alloc: Global,
    values: &Values,
    clock: &Option<Clock>,
    zone: &ZoneRef<'_>,
    part: &[Part],
    moment: &Moment,
) -> Result<Option<Vec<u8>>, AllocError>
    ensures { IfOk result (λ text. option_map (λ found. found.items) text ≡ spec.part_of_moment
        values.now clock.now (zone_ref_as zone.now) part.now (moment_as moment.now)) }
{
    let Some(zone) = zone_for(alloc, values, clock, moment.zone, zone)? else {
        return Ok(None);
    };
    let Some(part) = part_in(alloc, values, part)? else {
        return Ok(None);
    };
    shown(alloc, moment, zone, part)
}

/// The value of a `date` test.
fn date_value(
    delivery: &Delivery<'_>,
    state: &RunState,
    zone: &ZoneRef<'_>,
    field: &[Part],
    part: &[Part],
) -> Result<Option<Vec<u8>>, AllocError>
    ensures { IfOk result (λ text. option_to_list (option_map (λ found. found.items) text)
        ≡ values_of (delivery_as delivery.now) (state_of state.now)
        (date_values (zone_ref_as zone.now) field.now part.now)) }
{
    let alloc = delivery.alloc;
    let mut buffer = Vec::new(alloc);
    let name = FieldName::new(state.values.expanded_in(field, &mut buffer)?);
    match date_named(alloc, delivery.arrival.message, &name)? {
        Some(moment) => {
            let clock = &delivery.arrival.envelope.clock;
            part_of_moment(alloc, &state.values, clock, zone, part, &moment)
        }
        None => Ok(None),
    }
}

/// The value of a `currentdate` test.
fn clock_value(
    delivery: &Delivery<'_>,
    state: &RunState,
    zone: &ZoneRef<'_>,
    part: &[Part],
) -> Result<Option<Vec<u8>>, AllocError>
    ensures { IfOk result (λ text. option_to_list (option_map (λ found. found.items) text)
        ≡ values_of (delivery_as delivery.now) (state_of state.now)
        (clock_values (zone_ref_as zone.now) part.now)) }
{
    let clock = &delivery.arrival.envelope.clock;
    match clock {
        Some(shows) => {
            let moment = shows.moment();
            part_of_moment(delivery.alloc, &state.values, clock, zone, part, &moment)
        }
        None => Ok(None),
    }
}

/// The match values of a value that is there and matches some key.
fn find_in_value(
    alloc: Global,
    value: Option<Vec<u8>>,
    matcher: &Matcher<'_>,
) -> Result<Option<MatchValues>, AllocError>
    ensures { IfOk result (λ found. found ≡ first_some (found_with matcher.now)
        (option_to_list (option_map (λ text. text.items) value))) }
{
    match value {
        Some(text) => matcher.first_match(alloc, &text),
        None => Ok(None),
    }
}

/// The match values that that part of the date of a field gives.
pub(crate) fn find_in_date(
    delivery: &Delivery<'_>,
    state: &RunState,
    zone: &ZoneRef<'_>,
    field: &[Part],
    part: &[Part],
    matcher: &Matcher<'_>,
) -> Result<Option<MatchValues>, AllocError>
    ensures { IfOk result
        (λ found. found ≡ first_some (found_with matcher.now) (values_of (delivery_as delivery.now)
        (state_of state.now) (date_values (zone_ref_as zone.now) field.now part.now))) }
{
    let value = date_value(delivery, state, zone, field, part)?;
    find_in_value(delivery.alloc, value, matcher)
}

/// The match values that that part of the current date gives.
pub(crate) fn find_in_clock(
    delivery: &Delivery<'_>,
    state: &RunState,
    zone: &ZoneRef<'_>,
    part: &[Part],
    matcher: &Matcher<'_>,
) -> Result<Option<MatchValues>, AllocError>
    ensures { IfOk result
        (λ found. found ≡ first_some (found_with matcher.now) (values_of (delivery_as delivery.now)
        (state_of state.now) (clock_values (zone_ref_as zone.now) part.now))) }
{
    let value = clock_value(delivery, state, zone, part)?;
    find_in_value(delivery.alloc, value, matcher)
}

/// The number of values: one or none.
fn count_of(value: &Option<Vec<u8>>) -> usize
    ensures { result ≡ length (option_to_list (option_map (λ text. text.items) value.now)) }
{
    match value {
        Some(_) => 1,
        None => 0,
    }
}

/// The number of values that a `date` test has.
pub(crate) fn count_date(
    delivery: &Delivery<'_>,
    state: &RunState,
    zone: &ZoneRef<'_>,
    field: &[Part],
    part: &[Part],
) -> Result<usize, AllocError>
    ensures { IfOk result (λ count. count ≡ length (counted_of (delivery_as delivery.now)
        (state_of state.now) (date_values (zone_ref_as zone.now) field.now part.now))) }
{
    let value = date_value(delivery, state, zone, field, part)?;
    Ok(count_of(&value))
}

/// The number of values that a `currentdate` test has.
pub(crate) fn count_clock(
    delivery: &Delivery<'_>,
    state: &RunState,
    zone: &ZoneRef<'_>,
    part: &[Part],
) -> Result<usize, AllocError>
    ensures { IfOk result (λ count. count ≡ length (counted_of (delivery_as delivery.now)
        (state_of state.now) (clock_values (zone_ref_as zone.now) part.now))) }
{
    let value = clock_value(delivery, state, zone, part)?;
    Ok(count_of(&value))
}
