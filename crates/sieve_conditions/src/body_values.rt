//! The body of a message as the source of a test (RFC 5173, 4 and 5).
ghost use Rattle.std.specs.Prelude.{◌≡◌, [], ◌∷◌, IfOk, length, map, option_to_list};
ghost use Rattle.std.specs.Option.{option_map};
ghost use Rattle.mime_text.specs.Entities as entities;
ghost use Rattle.mime_text.specs.Values.{is_named_by, texts_given, texts_if_named, texts_named, texts_of};
ghost use Rattle.mime_text.specs.view.Entities.{entity_as};
ghost use Rattle.octets.specs.view.Texts.{octets_of_each};
ghost use Rattle.sieve_profile.specs.Profile as profiles;
ghost use Rattle.sieve_profile.specs.view.Profile.{profile_as};
ghost use Rattle.sieve_script.specs.Reading.{body_values};
ghost use Rattle.sieve_conditions.specs.Bodies as spec;
ghost use Rattle.sieve_conditions.specs.Matching.{counted_of, first_some, values_of};
ghost use Rattle.sieve_delivery.specs.view.Delivery.{delivery_as};
ghost use Rattle.sieve_conditions.specs.view.FieldTests.{entity_found, found_with};
ghost use Rattle.packed_strings.specs.view.Refs.{body_ref_as};
ghost use Rattle.sieve_delivery.specs.view.State.{state_of};

use crate::counting::plus;
use crate::field_cache::FieldCache;
use crate::matcher::{MatchValues, Matcher};
use mime_text::{Entity, Given, TransferEncoding, WantedType, body_of};
use packed_strings::BodyRef;
use sieve_delivery::{Delivery, RunState};
use sieve_profile::Profile;
use sieve_variables::Values;
use std::alloc::{AllocError, Global};
use std::borrow::CowSlice;

/// A list of one entry.
fn only<'e>(alloc: Global, entry: &'e [u8]) -> Result<Vec<CowSlice<'e, u8>>, AllocError>
    ensures { IfOk result (λ entries. octets_of_each entries.items ≡ entry.now ∷ []) }
{
    let mut entries = Vec::new(alloc);
    entries.push(CowSlice::Borrowed(entry))?;
    Ok(entries)
}

/// The entries that name the contents that are looked at, or none under `:raw`.
fn entries_of<'b>(
    alloc: Global,
    values: &'b Values,
    transform: &BodyRef<'b>,
) -> Result<Option<Vec<CowSlice<'b, u8>>>, AllocError>
    ensures { IfOk result (λ found. option_map (λ entries. octets_of_each entries.items) found
        ≡ spec.entries_of values.now (body_ref_as transform.now)) }
{
    match transform {
        BodyRef::Raw => Ok(None),
        BodyRef::Content { entries } => Ok(Some(entries.expanded(alloc, values)?)),
        BodyRef::Text => Ok(Some(only(alloc, b"text")?)),
    }
}

/// Whether one of these entries names an entity.
fn is_named_by(entity: &Entity<'_>, entries: &[CowSlice<'_, u8>]) -> bool
    ensures { result ≡ is_named_by (octets_of_each entries.now) (entity_as entity.now) }
{
    for entry in entries {
        if entity.is_wanted(WantedType::of_entry(entry.as_slice())) {
            return true;
        }
    }
    false
}

/// The match values that a prologue gives, or else an epilogue.
fn find_around(
    alloc: Global,
    prologue: &[u8],
    epilogue: Option<&[u8]>,
    matcher: &Matcher<'_>,
) -> Result<Option<MatchValues>, AllocError>
    ensures { IfOk result (λ found. found ≡ first_some (found_with matcher.now)
        (prologue.now ∷ option_to_list (option_map (λ e. e.now) epilogue.entry))) }
{
    if let Some(found) = matcher.first_match(alloc, prologue)? {
        return Ok(Some(found));
    }
    match epilogue {
        Some(epilogue) => matcher.first_match(alloc, epilogue),
        None => Ok(None),
    }
}

/// The match values that the decoded content of an entity gives.
fn find_in_content(
    alloc: Global,
    profile: Profile,
    entity: &Entity<'_>,
    encoding: TransferEncoding,
    content: &[u8],
    matcher: &Matcher<'_>,
) -> Result<Option<MatchValues>, AllocError>
    ensures { IfOk result (λ found. found ≡ first_some (found_with matcher.now) (texts_given
        (profile_as profile) (entity_as entity.now).type (entities.content encoding content.now))) }
{
    let octets = encoding.octets_of(alloc, content)?;
    let text = entity.text(alloc, profile, octets)?;
    matcher.first_match(alloc, text.as_slice())
}

/// The match values that an entity gives.
fn find_in_entity(
    alloc: Global,
    profile: Profile,
    entity: &Entity<'_>,
    matcher: &Matcher<'_>,
) -> Result<Option<MatchValues>, AllocError>
    ensures { IfOk result (λ found. found ≡ first_some (found_with matcher.now)
        (texts_of (profile_as profile) (entity_as entity.now))) }
{
    match entity.given() {
        Given::Around { prologue, epilogue } => find_around(alloc, prologue, epilogue, matcher),
        Given::Header(octets) => matcher.first_match(alloc, octets),
        Given::Content(encoding, content) => {
            find_in_content(alloc, profile, entity, encoding, content, matcher)
        }
    }
}

/// The match values that an entity gives, if one of these entries names it.
fn find_if_named(
    alloc: Global,
    profile: Profile,
    entity: &Entity<'_>,
    entries: &[CowSlice<'_, u8>],
    matcher: &Matcher<'_>,
) -> Result<Option<MatchValues>, AllocError>
    ensures { IfOk result (λ found. found ≡ entity_found (found_with matcher.now)
        (profile_as profile) (octets_of_each entries.now) (entity_as entity.now)) }
{
    if is_named_by(entity, entries) {
        find_in_entity(alloc, profile, entity, matcher)
    } else {
        Ok(None)
    }
}

/// The match values of the first of these entities that is named and matches some key.
fn find_in_each(
    alloc: Global,
    profile: Profile,
    entities: &[Entity<'_>],
    entries: &[CowSlice<'_, u8>],
    matcher: &Matcher<'_>,
) -> Result<Option<MatchValues>, AllocError>
    ensures { IfOk result (λ found. found ≡ first_some (entity_found (found_with matcher.now)
        (profile_as profile) (octets_of_each entries.now)) (map entity_as entities.now)) }
{
    for entity in entities {
        if let Some(found) = find_if_named(alloc, profile, entity, entries, matcher)? {
            return Ok(Some(found));
        }
    }
    Ok(None)
}

/// The match values of the entities that these entries name.
fn find_in_named(
    delivery: &Delivery<'_>,
    fields: &mut FieldCache<'_>,
    entries: &[CowSlice<'_, u8>],
    matcher: &Matcher<'_>,
) -> Result<Option<MatchValues>, AllocError>
    requires { fields.old ≡ (delivery_as delivery.now).arrival }
    ensures arrival { fields.new ≡ fields.old }
    ensures found { IfOk result
        (λ found. found ≡ first_some (found_with matcher.now) (texts_named fields.old.profile
        (octets_of_each entries.now) (entities.entities_of fields.old.message))) }
{
    let entities = fields.take_entities(delivery.alloc)?;
    let profile = delivery.arrival.profile;
    let found = find_in_each(delivery.alloc, profile, &entities, entries, matcher)?;
    fields.cache_entities(entities);
    Ok(found)
}

/// The match values that the whole body gives.
fn find_in_all(
    delivery: &Delivery<'_>,
    matcher: &Matcher<'_>,
) -> Result<Option<MatchValues>, AllocError>
    ensures { IfOk result (λ found. found ≡ first_some (found_with matcher.now)
        (option_to_list (entities.body_of (delivery_as delivery.now).arrival.message))) }
{
    match body_of(delivery.arrival.message.octets()) {
        Some(body) => matcher.first_match(delivery.alloc, body),
        None => Ok(None),
    }
}

/// The match values that a body gives.
pub(crate) fn find_in_body(
    delivery: &Delivery<'_>,
    fields: &mut FieldCache<'_>,
    state: &RunState,
    transform: &BodyRef<'_>,
    matcher: &Matcher<'_>,
) -> Result<Option<MatchValues>, AllocError>
    requires { fields.old ≡ (delivery_as delivery.now).arrival }
    ensures arrival { fields.new ≡ fields.old }
    ensures found { IfOk result (λ found. found ≡ first_some (found_with matcher.now) (values_of
        (delivery_as delivery.now) (state_of state.now) (body_values (body_ref_as transform.now)))) }
{
    match entries_of(delivery.alloc, &state.values, transform)? {
        Some(entries) => find_in_named(delivery, fields, &entries, matcher),
        None => find_in_all(delivery, matcher),
    }
}

/// The number of values that an entity has.
fn count_in_entity(entity: &Entity<'_>) -> usize
    ensures { (profile : profiles.Profile)
        → result ≡ length (texts_of profile (entity_as entity.now)) }
{
    match entity.given() {
        Given::Around { epilogue, .. } => { if epilogue.is_some() { 2 } else { 1 } }
        Given::Header(_) | Given::Content(_, _) => 1,
    }
}

/// The number of values that an entity has, or 0 if none of these entries names it.
fn count_if_named(entity: &Entity<'_>, entries: &[CowSlice<'_, u8>]) -> usize
    ensures { (profile : profiles.Profile) → result
        ≡ length (texts_if_named profile (octets_of_each entries.now) (entity_as entity.now)) }
{
    if is_named_by(entity, entries) {
        count_in_entity(entity)
    } else {
        0
    }
}

/// The number of values of those of these entities that are named. Nothing is decoded.
fn count_in_each(entities: &[Entity<'_>], entries: &[CowSlice<'_, u8>]) -> Result<usize, AllocError>
    ensures { (profile : profiles.Profile) → IfOk result (λ count. count
        ≡ length (texts_named profile (octets_of_each entries.now) (map entity_as entities.now))) }
{
    let mut count = 0usize;
    for entity in entities {
        count = plus(count, count_if_named(entity, entries))?;
    }
    Ok(count)
}

/// The number of values of the entities that these entries name.
fn count_in_named(
    alloc: Global,
    fields: &mut FieldCache<'_>,
    entries: &[CowSlice<'_, u8>],
) -> Result<usize, AllocError>
    ensures arrival { fields.new ≡ fields.old }
    ensures count { IfOk result (λ count. count ≡ length (texts_named fields.old.profile
        (octets_of_each entries.now) (entities.entities_of fields.old.message))) }
{
    let entities = fields.take_entities(alloc)?;
    let count = count_in_each(&entities, entries)?;
    fields.cache_entities(entities);
    Ok(count)
}

/// The number of values of the whole body: one if there is a body.
fn count_in_all(message: &[u8]) -> usize
    ensures { result ≡ length (option_to_list (entities.body_of message.now)) }
{
    match body_of(message) {
        Some(_) => 1,
        None => 0,
    }
}

/// The number of values that a `body` test has.
pub(crate) fn count_body(
    delivery: &Delivery<'_>,
    fields: &mut FieldCache<'_>,
    state: &RunState,
    transform: &BodyRef<'_>,
) -> Result<usize, AllocError>
    requires { fields.old ≡ (delivery_as delivery.now).arrival }
    ensures arrival { fields.new ≡ fields.old }
    ensures count { IfOk result (λ count. count ≡ length (counted_of (delivery_as delivery.now)
        (state_of state.now) (body_values (body_ref_as transform.now)))) }
{
    match entries_of(delivery.alloc, &state.values, transform)? {
        Some(entries) => count_in_named(delivery.alloc, fields, &entries),
        None => Ok(count_in_all(delivery.arrival.message.octets())),
    }
}
