//! The results that a run keeps of reading a message: its fields and its entities.
ghost use Rattle.std.specs.Prelude.{◌≡◌, ◌<◌, ◌≤◌, ◌-◌, ◌^◌, ℕ, [], drop, length, map, slice_get, IfNone, IfOk, IfSome, OnOk, Some, false, true};
ghost use Rattle.std.specs.Cow.{cow_slice_items};
ghost use Rattle.message_text.specs.Fields.{IsNextNamed, decoded_values_of, fields_of, is_field_named};
ghost use Rattle.mime_text.specs.Entities.{entities_of};
ghost use Rattle.mime_text.specs.view.Entities.{entity_as};
ghost use Rattle.sieve_delivery.specs.view.Delivery.{arrival_as};
ghost use Rattle.sieve_conditions.specs.Matching.{fields_named};
ghost use Rattle.sieve_conditions.specs.view.FieldCache.{HasNoMore, IsNamedPlace, IsNextField, address_lists_of};

use match_text::{AsciiCasemap, is};
use message_text::{Address, FieldName, Message, addresses};
use mime_text::{Entity, entities_of};
use sieve_delivery::Arrival;
use std::alloc::{AllocError, Global};
use std::borrow::CowSlice;
use std::marker::Model;

/// The number of places for names.
const NAMES: usize = 32;

/// The place of the first field of some name. Also a place after it such that no other field of the
/// name is between the two.
#[derive(Clone, Copy)]
struct NamedPlace {
    first: usize,
    next: usize,
}

/// The results that a run keeps of reading a message, for its later tests. Contracts see the
/// `Arrival`. The cache has a place for each field up to the last that a test has looked at. It has
/// 32 places for the first fields of names.
#[derive(Drop)]
pub struct FieldCache<'a> {
    arrival: &'a Arrival<'a>,
    // The addresses in the values of fields, each list at its field's place.
    listed: Vec<Option<Vec<Address>>>,
    // Values with their encoded words replaced, each at its field's place.
    decoded: Vec<Option<CowSlice<'a, u8>>>,
    // The entities of the message, once a test has looked at them.
    entities: Option<Vec<Entity<'a>>>,
    // The places of fields by the names that tests have looked for. Names with the same place here
    // take it from one another.
    named: Vec<Option<NamedPlace>>,
}

impl<'a> Model for FieldCache<'a> {
    ghost use Rattle.sieve_delivery.specs.Delivery.{Arrival};
    ghost use Rattle.sieve_delivery.specs.view.Delivery.{arrival_as};
    ghost use Rattle.sieve_conditions.specs.view.FieldCache.{AreDecoded, AreEntities, AreListed, AreNamed};

    ghost Value = { Arrival };

    ghost view = { λ f. arrival_as f.arrival.now };

    ghost invariant = { λ f. let arrival = arrival_as f.arrival.now in AreListed arrival.message f.listed.items × (AreDecoded arrival.profile arrival.message f.decoded.items × (AreEntities arrival.message f.entities × AreNamed arrival.message f.named.items)) };
}

/// Takes the item at a place, if there is one.
fn take<T>(places: &mut Vec<Option<T>>, place: usize) -> Option<T>
    ensures was { IfSome result (λ thing. slice_get places.old.items place ≡ Some (Some thing)) }
    ensures no_more { HasNoMore places.old.items places.new.items }
{
    if place < places.len() {
        places[place].take()
    } else {
        None
    }
}

/// Adds empty places until that place is there.
fn reach<T: Drop>(places: &mut Vec<Option<T>>, place: usize) -> Result<(), AllocError>
    ensures there { OnOk result (place < length places.new.items) }
    ensures no_more { HasNoMore places.old.items places.new.items }
{
    if places.len() <= place {
        places.reserve((place - places.len()).saturating_add(1))?;
    }
    while places.len() <= place {
        places.push(None)?;
    }
    Ok(())
}

/// The place of the entry for a name. Names that differ only in the case of letters have the same
/// place.
fn place_of(name: &[u8]) -> usize
    ensures { result < 32 }
{
    match name.last() {
        Some(octet) => (name.len() % NAMES * 7 + usize::from(*octet)) % NAMES,
        None => 0,
    }
}

/// The place of the first field of that name at or after place `start`, or none.
pub(crate) fn next_place(message: &Message, name: &FieldName<'_>, start: usize) -> Option<usize>
    ensures some { IfSome result (IsNextField message.now name.now start) }
    ensures none { IfNone result
        (fields_named (drop start (fields_of message.now)) name.now ≡ []) }
    ensures countable { IfSome result (λ i. i < 2 ^ 64 - 1) }
{
    message.next_named(name, start)
}

/// The entry that is kept for the first field of a name.
fn named_place(message: &Message, name: &FieldName<'_>, first: usize) -> NamedPlace
    requires first { IsNextNamed (fields_of message.now) name.now 0 first }
    requires countable { first < 2 ^ 64 - 1 }
    ensures { IsNamedPlace message.now result }
{
    match message.next_named(name, first + 1) {
        Some(next) => NamedPlace { first, next },
        None => NamedPlace {
            first,
            next: message.fields(),
        },
    }
}

/// The entry at a place, if one is kept.
fn kept_at(places: &[Option<NamedPlace>], place: usize) -> Option<NamedPlace>
    ensures { IfSome result (λ named. slice_get places.now place ≡ Some (Some named)) }
{
    match places.get(place) {
        Some(named) => *named,
        None => None,
    }
}

impl<'a> FieldCache<'a> {
    /// Makes a cache that has read nothing yet.
    pub fn new(alloc: Global, arrival: &'a Arrival<'a>) -> FieldCache<'a>
        ensures { result ≡ arrival_as arrival.now }
    {
        FieldCache {
            arrival,
            listed: Vec::new(alloc),
            decoded: Vec::new(alloc),
            entities: None,
            named: Vec::new(alloc),
        }
    }

    /// The place of the first field of that name, if it is kept.
    fn kept_first(&self, name: &FieldName<'_>) -> Option<usize>
        ensures some { IfSome result (IsNextField self.now.message name.now 0) }
        ensures countable { IfSome result (λ i. i < 2 ^ 64 - 1) }
    {
        let first = kept_at(&self.named, place_of(name.octets()))?.first;
        if is::<AsciiCasemap>(self.arrival.message.name(first), name.octets()) {
            Some(first)
        } else {
            None
        }
    }

    /// Keeps the place of a field that is the first of its name.
    fn cache_place(&mut self, place: usize, kept: NamedPlace) -> Result<(), AllocError>
        requires { IsNamedPlace self.old.message kept }
        ensures { self.new ≡ self.old }
    {
        reach(&mut self.named, place)?;
        self.named[place] = Some(kept);
        Ok(())
    }

    /// The place of the first field of that name at or after place `start`, or none. If the place
    /// of the first field of a name is kept, it is found without a search. If it isn't and `keeps`
    /// is set, it is kept from then on, unless memory is refused.
    pub(crate) fn next_named(
        &mut self,
        name: &FieldName<'_>,
        start: usize,
        keeps: bool,
    ) -> Option<usize>
        ensures arrival { self.new ≡ self.old }
        ensures some { IfSome result (IsNextField self.old.message name.now start) }
        ensures none { IfNone result
            (fields_named (drop start (fields_of self.old.message)) name.now ≡ []) }
        ensures countable { IfSome result (λ i. i < 2 ^ 64 - 1) }
    {
        let message = self.arrival.message;
        if start > 0 {
            return next_place(message, name, start);
        }
        if let Some(i) = self.kept_first(name) {
            return Some(i);
        }
        let i = next_place(message, name, 0)?;
        if keeps {
            // If memory is refused, nothing is kept.
            let _is_kept = self.cache_place(place_of(name.octets()), named_place(message, name, i));
        }
        Some(i)
    }

    /// A place after field `i`, which has that name. No other field of the name is between the two.
    pub(crate) fn after_named(&self, name: &FieldName<'_>, i: usize) -> usize
        requires named { slice_get (map (is_field_named name.now) (fields_of self.now.message)) i
            ≡ Some true }
        requires countable { i < 2 ^ 64 - 1 }
        ensures more { i < result }
        ensures others { (k : ℕ) → i < k → k < result → slice_get
            (map (is_field_named name.now) (fields_of self.now.message)) k ≡ Some false }
    {
        if let Some(kept) = kept_at(&self.named, place_of(name.octets())) {
            if kept.first == i {
                return kept.next;
            }
        }
        i + 1
    }

    /// The addresses in the value of field `i`. The value is read if they aren't kept.
    /// [`cache_addresses`](FieldCache::cache_addresses) takes them back.
    pub(crate) fn take_addresses(
        &mut self,
        alloc: Global,
        i: usize,
    ) -> Result<Vec<Address>, AllocError>
        requires { i < length (fields_of self.old.message) }
        ensures arrival { self.new ≡ self.old }
        ensures listed { IfOk result
            (λ listed. slice_get (address_lists_of self.old.message) i ≡ Some listed.items) }
    {
        if let Some(listed) = take(&mut self.listed, i) {
            return Ok(listed);
        }
        let value = self.arrival.message.value(alloc, i)?;
        addresses(alloc, value.as_slice())
    }

    /// Keeps the addresses of field `i`.
    pub(crate) fn cache_addresses(
        &mut self,
        i: usize,
        listed: Vec<Address>,
    ) -> Result<(), AllocError>
        requires { slice_get (address_lists_of self.old.message) i ≡ Some listed.items }
        ensures { self.new ≡ self.old }
    {
        reach(&mut self.listed, i)?;
        self.listed[i] = Some(listed);
        Ok(())
    }

    /// The value of field `i` with its encoded words replaced, if it is kept.
    pub(crate) fn kept_decoded(&self, i: usize) -> Option<&[u8]>
        ensures { IfSome result
            (λ value. slice_get (decoded_values_of self.now.profile self.now.message) i
            ≡ Some value.now) }
    {
        match self.decoded.get(i) {
            Some(Some(value)) => Some(value.as_slice()),
            Some(None) => None,
            None => None,
        }
    }

    /// The value of field `i` with its encoded words replaced. It is made if it isn't kept.
    /// [`cache_decoded`](FieldCache::cache_decoded) takes it back.
    pub(crate) fn take_decoded(
        &mut self,
        alloc: Global,
        i: usize,
    ) -> Result<CowSlice<'a, u8>, AllocError>
        requires { i < length (fields_of self.old.message) }
        ensures arrival { self.new ≡ self.old }
        ensures decoded { IfOk result
            (λ value. slice_get (decoded_values_of self.old.profile self.old.message) i
            ≡ Some (cow_slice_items value)) }
    {
        if let Some(value) = take(&mut self.decoded, i) {
            return Ok(value);
        }
        let Arrival {
            message,
            profile,
            ..
        } = *self.arrival;
        message.decoded(alloc, profile, i)
    }

    /// Keeps the value of field `i` with its encoded words replaced.
    pub(crate) fn cache_decoded(
        &mut self,
        i: usize,
        value: CowSlice<'a, u8>,
    ) -> Result<(), AllocError>
        requires { slice_get (decoded_values_of self.old.profile self.old.message) i
            ≡ Some (cow_slice_items value) }
        ensures { self.new ≡ self.old }
    {
        reach(&mut self.decoded, i)?;
        self.decoded[i] = Some(value);
        Ok(())
    }

    /// The entities of the message. They are found if they aren't kept.
    /// [`cache_entities`](FieldCache::cache_entities) takes them back.
    pub(crate) fn take_entities(&mut self, alloc: Global) -> Result<Vec<Entity<'a>>, AllocError>
        ensures arrival { self.new ≡ self.old }
        ensures entities { IfOk result
            (λ entities. map entity_as entities.items ≡ entities_of self.old.message) }
    {
        match self.entities.take() {
            Some(entities) => Ok(entities),
            None => entities_of(alloc, self.arrival.message.octets()),
        }
    }

    /// Keeps the entities of the message.
    pub(crate) fn cache_entities(&mut self, entities: Vec<Entity<'a>>)
        requires { map entity_as entities.items ≡ entities_of self.old.message }
        ensures { self.new ≡ self.old }
    {
        self.entities = Some(entities);
    }
}
