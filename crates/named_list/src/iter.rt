//! The values of a list in their order.
ghost use Rattle.std.specs.Prelude.{◌≡◌, length};
ghost use Rattle.std.specs.Iterator.{at_most};
ghost use Rattle.std.specs.Map.Iter.{TakesFirst, deref_pair};
ghost use Rattle.std.specs.Option.{option_map};
ghost use Rattle.named_list.specs.Slots.{entry_in};

use crate::slot::SlotKey;
use indexmap::map;
use octets::Octets;
use std::marker::Model;

/// The value in a slot with its name, where it has both.
fn entry_in<'a, V>(key: &'a SlotKey, value: &'a Option<V>) -> Option<(&'a Octets, &'a V)>
    ensures { option_map deref_pair result ≡ entry_in key.now value.now }
{
    match (key, value) {
        (SlotKey::Name(name), Some(value)) => Some((name, value)),
        _ => None,
    }
}

/// The values that are left, in their order, each with its name.
#[derive(Drop)]
pub struct Iter<'a, V> {
    slots: map::Iter<'a, SlotKey, Option<V>>,
}

impl<'a, V> Model for Iter<'a, V> {
    ghost use Rattle.std.specs.Prelude.{List, ℕ};
    ghost use Rattle.named_list.specs.Slots.{entries_of};

    ghost Value = { List (List ℕ × V) };

    ghost view = { λ a. entries_of a.slots };
}

impl<'a, V> Iter<'a, V> {
    ghost use Rattle.named_list.specs.Slots.{entries_of};

    /// The values in these slots.
    pub(crate) fn new(slots: map::Iter<'a, SlotKey, Option<V>>) -> Iter<'a, V>
        ensures { result ≡ entries_of slots.entry }
    {
        Iter { slots }
    }
}

impl<'a, V> Iterator for Iter<'a, V> {
    type Item = (&'a Octets, &'a V);

    ghost next_gives = { TakesFirst deref_pair };

    ghost remaining = { λ s. at_most (length s) };

    fn next(&mut self) -> Option<(&'a Octets, &'a V)> {
        while let Some((key, value)) = self.slots.next() {
            if let Some(entry) = entry_in(key, value) {
                return Some(entry);
            }
        }
        None
    }
}
