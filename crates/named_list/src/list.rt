//! A list of values by name.
ghost use Rattle.std.specs.Prelude.{◌≡◌, ◌<◌, ◌^◌, ℕ, List, [], IsTrue, OnOk, OnErr, None, is_some, length, nat_eq, slice_get, slice_set};
ghost use Rattle.std.specs.Borrow.{sem};
ghost use Rattle.std.specs.Map.{lookup, remove_entry, values_of};
ghost use Rattle.std.specs.Map.Iter.{ShowsInOrder, deref_pair};
ghost use Rattle.std.specs.Option.{option_copied, option_copied_mut};
ghost use Rattle.indexmap.specs.IndexMap.{get_by, insert_entry, spare};
ghost use lib.Pointwise.{pointwise};
ghost use Rattle.named_list.specs.Named.{IsUnique};
ghost use Rattle.named_list.specs.Slots.{AreFilled, entries_of, is_gap};
ghost use Rattle.named_list.specs.declared.slot.SlotKey.TheVariants.{Gap};

use crate::iter::Iter;
use crate::slot::{SlotKey, SoughtKey, is_name};
use indexmap::IndexMap;
use octets::Octets;
use std::alloc::{AllocError, Global};
use std::marker::Model;

/// Values by name, in the order in which their names were put. Contracts see the list of the names,
/// each with its value.
///
/// A removed value leaves a gap in its slot, where there is room for one. Then no later value
/// moves. The gaps go once they are more than the values.
#[derive(Drop)]
pub struct NamedList<V> {
    slots: IndexMap<SlotKey, Option<V>>,
    gaps: usize,
}

impl<V> Model for NamedList<V> {
    ghost use Rattle.named_list.specs.Named.{Named};
    ghost use Rattle.named_list.specs.Slots.{AreFilled, entries_of};

    ghost Value = { Named V };

    ghost view = { λ a. record { entries = entries_of a.slots.entries } };

    ghost invariant = { λ a. AreFilled a.slots.entries a.gaps };
}

/// Whether there is room for a gap, and no gap has this number.
fn can_leave_gap<V>(slots: &IndexMap<SlotKey, Option<V>>, number: usize) -> bool
    ensures room { IsTrue result → 0 < spare slots.now }
    ensures new { IsTrue result → get_by (is_gap number) slots.now ≡ None }
    ensures small { length slots.now.entries < 2 ^ 63 }
{
    slots.len() < slots.capacity() && !slots.contains_key(SoughtKey::Gap(number))
}

/// Leaves a gap of this number in a slot.
fn leave_gap<V: Drop>(slots: &mut IndexMap<SlotKey, Option<V>>, number: usize, index: usize)
    requires room { 0 < spare slots.old }
    requires new { get_by (is_gap number) slots.old ≡ None }
    requires within { index < length slots.old.entries }
    ensures { slots.new.entries ≡ slice_set slots.old.entries index (Gap number, None) }
{
    // The gap is put last, and then takes the place of the slot that goes.
    match slots.insert(SlotKey::Gap(number), None) {
        Ok(_) => {}
        Err(_) => unreachable!("there is room"),
    }
    slots.swap_remove_index(index);
}

/// Takes out the value of a name, if there is one, from slots with this many gaps. Answers the
/// number of gaps after that.
fn take_out<V: Drop>(slots: &mut IndexMap<SlotKey, Option<V>>, gaps: usize, name: &[u8]) -> usize
    requires { AreFilled slots.old.entries gaps }
    ensures entries { entries_of slots.new.entries
        ≡ remove_entry (pointwise nat_eq name.now) (entries_of slots.old.entries) }
    ensures filled { AreFilled slots.new.entries result }
{
    let Some(index) = slots.get_index_of(SoughtKey::Name(name)) else {
        return gaps;
    };
    if can_leave_gap(slots, gaps) {
        leave_gap(slots, gaps, index);
        return gaps + 1;
    }
    slots.shift_remove(SoughtKey::Name(name));
    gaps
}

/// Removes the gaps, of which there are this many.
fn close_gaps<V: Drop>(slots: &mut IndexMap<SlotKey, Option<V>>, gaps: usize)
    requires { AreFilled slots.old.entries gaps }
    ensures entries { entries_of slots.new.entries ≡ entries_of slots.old.entries }
    ensures filled { AreFilled slots.new.entries 0 }
{
    if gaps > 0 {
        slots.retain(|key, _| is_name(key));
    }
}

impl<V: Drop> NamedList<V> {
    ghost use Rattle.named_list.specs.Lends.{lends_at, lends_named};

    /// A list without values.
    #[tactic(auto, unfolding(crate::specs::Slots::entries_of, crate::specs::Slots::HaveValues, crate::specs::Slots::gaps_of))]
    pub fn new(alloc: Global) -> NamedList<V>
        ensures { result ≡ record { entries = [] } }
    {
        NamedList {
            slots: IndexMap::new(alloc),
            gaps: 0,
        }
    }

    /// How many values there are.
    pub fn len(&self) -> usize
        ensures len { result ≡ length self.now.entries }
        // No two values have one name.
        ensures unique { IsUnique self.now }
    {
        self.slots.len() - self.gaps
    }

    /// The value of a name, where there is one.
    pub fn get(&self, name: &[u8]) -> Option<&V>
        ensures { option_copied result ≡ lookup (pointwise nat_eq name.now) self.now.entries }
    {
        match self.slots.get(SoughtKey::Name(name)) {
            Some(value) => value.as_ref(),
            None => None,
        }
    }

    /// The value of a name to write to, where there is one.
    pub fn get_mut(&mut self, name: &[u8]) -> Option<&mut V>
        ensures* writes_back { sem 𝓛 (lends_named V.row self.entry name.now result) }
        ensures value { option_copied_mut result
            ≡ lookup (pointwise nat_eq name.now) self.old.entries }
        ensures unique { IsUnique self.old }
    {
        let Some(index) = self.slots.get_index_of(SoughtKey::Name(name)) else {
            return None;
        };
        match self.slots.get_index_mut(index) {
            Some(value) => value.as_mut(),
            None => None,
        }
    }

    /// The value at a place to write to, where there is one. The gaps go first. So many calls in a
    /// row take no more time each in a long list than in a short one.
    pub fn get_index_mut(&mut self, index: usize) -> Option<&mut V>
        ensures* writes_back { sem 𝓛 (lends_at V.row self.entry index result) }
        ensures value { option_copied_mut result ≡ slice_get (values_of self.old.entries) index }
        ensures unique { IsUnique self.old }
    {
        close_gaps(&mut self.slots, self.gaps);
        self.gaps = 0;
        match self.slots.get_index_mut(index) {
            Some(value) => value.as_mut(),
            None => None,
        }
    }

    /// Whether a name has a value.
    pub fn contains(&self, name: &[u8]) -> bool
        ensures { result ≡ is_some (lookup (pointwise nat_eq name.now) self.now.entries) }
    {
        self.get(name).is_some()
    }

    /// Puts a value at a name: in the place of the one there, or last. When out of memory, answers
    /// the error and changes nothing.
    pub fn insert(&mut self, name: Octets, value: V) -> Result<(), AllocError>
        ensures ok { OnOk result (self.new.entries
            ≡ insert_entry (pointwise nat_eq) self.old.entries name value) }
        ensures err { OnErr result (self.new ≡ self.old) }
        ensures unique { IsUnique self.new }
    {
        match self.slots.insert(SlotKey::Name(name), Some(value)) {
            Ok(_) => Ok(()),
            Err(_) => Err(AllocError),
        }
    }

    /// Removes the value of a name, if there is one. The others stay in their order. Many calls in
    /// a row take no more time each in a long list than in a short one.
    pub fn remove(&mut self, name: &[u8])
        ensures entries { self.new.entries
            ≡ remove_entry (pointwise nat_eq name.now) self.old.entries }
        ensures unique { IsUnique self.new }
    {
        self.gaps = take_out(&mut self.slots, self.gaps, name);
        if self.gaps > self.len() {
            close_gaps(&mut self.slots, self.gaps);
            self.gaps = 0;
        }
    }

    /// The values in their order, each with its name.
    pub fn iter(&self) -> Iter<'_, V>
        ensures rest { result ≡ self.now.entries }
        ensures fits { length self.now.entries < 2 ^ 63 }
        ensures runs { ShowsInOrder (deref_pair {K = List ℕ} {X = V}) }
    {
        Iter::new(self.slots.iter())
    }
}
