//! Names with their values.
ghost use Rattle.std.specs.Prelude.{◌≡◌, [], IfErr, IsOk, OnErr, OnOk, is_ok, true};
ghost use Rattle.sieve_variables.specs.Value.{has_room_under, held_under, is_set_under, with_held};

use indexmap::IndexMap;
use octets::Octets;
use sieve_limits::MAX_GLOBALS;
use std::alloc::{AllocError, Global};
use std::marker::Model;

/// Names in lower case with their values, in the order in which they were first set. Contracts see
/// the names, each with its value.
#[derive(Drop)]
pub(crate) struct Variables {
    entries: IndexMap<Vec<u8>, Octets>,
}

impl Model for Variables {
    ghost use Rattle.std.specs.Prelude.{ℕ, List};
    ghost use Rattle.sieve_variables.specs.view.Value.{held_of};

    ghost Value = { List (List ℕ × List ℕ) };

    ghost view = { λ v. held_of v.entries.entries };
}

impl Variables {
    /// No variable is set.
    #[tactic(auto, unfolding(crate::specs::view::Value::held_of))]
    pub(crate) fn new(alloc: Global) -> Variables
        ensures { result ≡ [] }
    {
        Variables {
            entries: IndexMap::new(alloc),
        }
    }

    /// The value under a name: no octets if it isn't set.
    #[tactic(auto, using(crate::proofs::Held::lookup_held))]
    pub(crate) fn get(&self, name: &[u8]) -> &[u8]
        ensures { result.now ≡ held_under name.now self.now }
    {
        match self.entries.get(name) {
            Some(value) => value.as_slice(),
            None => &[],
        }
    }

    /// Whether a name is set, or there is room for one more (RFC 5229, section 6).
    pub(crate) fn has_room(&self, name: &[u8]) -> bool
        ensures { result ≡ has_room_under name.now self.now }
    {
        self.entries.contains_key(name) || self.entries.len() < MAX_GLOBALS
    }

    /// Sets a name that is set already. Otherwise it gives the value back and changes nothing.
    fn assign(&mut self, name: &[u8], value: Octets) -> Result<(), Octets>
        ensures ok { OnOk result (self.new ≡ with_held name.now value self.old) }
        ensures err { OnErr result (self.new ≡ self.old) }
        ensures given_back { IfErr result (λ other. other ≡ value) }
        ensures held { is_ok result ≡ is_set_under name.now self.old }
    {
        match self.entries.get_mut(name) {
            Some(held) => {
                *held = value;
                Ok(())
            }
            None => Err(value),
        }
    }

    /// Sets a name, of which a copy is kept if it isn't set yet. An error is out of memory,
    /// and changes nothing.
    fn insert(&mut self, alloc: Global, name: &[u8], value: Octets) -> Result<(), AllocError>
        ensures ok { OnOk result (self.new ≡ with_held name.now value self.old) }
        ensures err { OnErr result (self.new ≡ self.old) }
    {
        let name = Vec::from_slice(alloc, name)?;
        match self.entries.insert(name, value) {
            Ok(_) => Ok(()),
            Err(_) => Err(AllocError),
        }
    }

    /// Sets a name, and drops its old value. An error is out of memory, and changes nothing. There
    /// is none if the name is set already.
    pub(crate) fn set(
        &mut self,
        alloc: Global,
        name: &[u8],
        value: Octets,
    ) -> Result<(), AllocError>
        ensures ok { OnOk result (self.new ≡ with_held name.now value self.old) }
        ensures err { OnErr result (self.new ≡ self.old) }
        ensures held { is_set_under name.now self.old ≡ true → IsOk result }
    {
        match self.assign(name, value) {
            Ok(()) => Ok(()),
            Err(value) => self.insert(alloc, name, value),
        }
    }
}
