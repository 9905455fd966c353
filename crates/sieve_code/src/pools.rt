//! The strings, questions and commands that operations of code name by their places.
ghost use Rattle.std.specs.Prelude.{◌≡◌, ◌^◌, ◌≤◌, true, IfOk, IfSome, OnErr, Some, slice_get};
ghost use Rattle.std.specs.Option.{option_map};
ghost use Rattle.packed_strings.specs.Joined.{list_in};
ghost use Rattle.sieve_script.specs.Reading as reading;
ghost use Rattle.sieve_code.specs.Pool.{Kept, Pool, ask_at, ask_in, given_list, given_string, leaf_at, leaf_in, no_pool, string_in};
ghost use Rattle.sieve_code.specs.view.Pools.{pool_as};

use crate::operation::{PackedAsk, PackedLeaf};
use packed_strings::{JoinedStrings, NameLists, StringLists};
use sieve_script::{Ask, Leaf};
use sieve_variables::Parts;
use std::alloc::{AllocError, Global};

/// The strings, lists, questions and commands of code, each at its place. A string or a list that a
/// script repeats right after lies there once. So do some questions and commands.
#[derive(Drop)]
pub(crate) struct Pools {
    pub(crate) strings: JoinedStrings,
    pub(crate) lists: StringLists,
    pub(crate) names: NameLists,
    pub(crate) asks: Vec<PackedAsk>,
    pub(crate) leaves: Vec<PackedLeaf>,
}

/// Whether two questions are seen to be the same. Only those of `exists` and `duplicate` are looked
/// at.
fn are_same_asks(one: &PackedAsk, other: &PackedAsk) -> bool
    ensures { result ≡ true → one.now ≡ other.now }
{
    match (one, other) {
        (Ask::Exists { names }, Ask::Exists { names: others }) => names == others,
        (Ask::Duplicate, Ask::Duplicate) => true,
        (_, _) => false,
    }
}

/// Whether two commands are seen to be the same. Only a `keep` without flags, a `discard` and a
/// change of the internal flags are looked at.
fn are_same(one: &PackedLeaf, other: &PackedLeaf) -> bool
    ensures { result ≡ true → one.now ≡ other.now }
{
    match (one, other) {
        (Leaf::Keep { flags: None }, Leaf::Keep { flags: None }) => true,
        (Leaf::Discard, Leaf::Discard) => true,
        (
            Leaf::Flags {
                change,
                variable: None,
                flags,
            },
            Leaf::Flags {
                change: other,
                variable: None,
                flags: others,
            },
        ) => change == other && flags == others,
        (_, _) => false,
    }
}

/// The number of items, as the place of the next item. More than 4,294,967,295 items are answered
/// as out of memory.
pub(crate) fn place_of(len: usize) -> Result<u32, AllocError>
    ensures is { IfOk result (λ place. place ≡ len) }
    ensures err { OnErr result (2 ^ 32 ≤ len) }
{
    match u32::try_from(len) {
        Ok(place) => Ok(place),
        Err(_) => Err(AllocError),
    }
}

impl Pools {
    /// Makes pools that hold nothing.
    pub(crate) fn new(alloc: Global) -> Pools
        ensures { pool_as result ≡ no_pool }
    {
        Pools {
            strings: JoinedStrings::new(alloc),
            lists: StringLists::new(alloc),
            names: NameLists::new(alloc),
            asks: Vec::new(alloc),
            leaves: Vec::new(alloc),
        }
    }

    /// Gives back the memory that is kept for more.
    pub(crate) fn shrink_to_fit(&mut self)
        ensures { pool_as self.new ≡ pool_as self.old }
    {
        self.strings.shrink_to_fit();
        self.lists.shrink_to_fit();
        self.names.shrink_to_fit();
        self.asks.shrink_to_fit();
        self.leaves.shrink_to_fit();
    }

    /// Adds a string, unless it is the same as the last. Returns its place.
    pub(crate) fn add_string(&mut self, string: Parts) -> Result<u32, AllocError>
        ensures { IfOk result (λ place. Kept (pool_as self.old) (pool_as self.new)
            (λ p. string_in p place) string) }
    {
        match self.strings.last_same(string.as_slice()) {
            Some(place) => place_of(place),
            None => {
                let place = place_of(self.strings.len())?;
                self.strings.push(string)?;
                Ok(place)
            }
        }
    }

    /// Adds a string that may be left out. Returns its place.
    pub(crate) fn add_given_string(
        &mut self,
        string: Option<Parts>,
    ) -> Result<Option<u32>, AllocError>
        ensures { IfOk result (λ place. Kept (pool_as self.old) (pool_as self.new)
            (λ p. given_string p place) string) }
    {
        match string {
            Some(string) => {
                let place = self.add_string(string)?;
                Ok(Some(place))
            }
            None => Ok(None),
        }
    }

    /// Adds a list, unless it has the same strings as the last. Returns its place.
    pub(crate) fn add_list(&mut self, texts: Vec<Parts>) -> Result<u32, AllocError>
        ensures { IfOk result (λ place. Kept (pool_as self.old) (pool_as self.new)
            (λ p. list_in p.lists place) texts.items) }
    {
        match self.lists.last_same(texts.as_slice()) {
            Some(place) => place_of(place),
            None => {
                let place = place_of(self.lists.len())?;
                self.lists.push(texts)?;
                Ok(place)
            }
        }
    }

    /// Adds a list that may be left out. Returns its place.
    pub(crate) fn add_given(&mut self, texts: Option<Vec<Parts>>) -> Result<Option<u32>, AllocError>
        ensures { IfOk result (λ place. Kept (pool_as self.old) (pool_as self.new)
            (λ p. given_list p place) (option_map (λ given. given.items) texts)) }
    {
        match texts {
            Some(texts) => {
                let place = self.add_list(texts)?;
                Ok(Some(place))
            }
            None => Ok(None),
        }
    }

    /// Adds names of fields, unless they are the same as the last. Returns the place of their list.
    pub(crate) fn add_names(&mut self, texts: Vec<Parts>) -> Result<u32, AllocError>
        ensures { IfOk result (λ place. Kept (pool_as self.old) (pool_as self.new)
            (λ p. list_in p.names place) texts.items) }
    {
        match self.names.last_same(texts.as_slice()) {
            Some(place) => place_of(place),
            None => {
                let place = place_of(self.names.len())?;
                self.names.push(texts)?;
                Ok(place)
            }
        }
    }

    /// The place of the last question if it is seen to be the same as this one, or none.
    fn repeated_ask(&self, ask: &PackedAsk) -> Option<u32>
        ensures { IfSome result (λ place. slice_get self.now.asks.items place ≡ Some ask.now) }
    {
        let last = self.asks.len().checked_sub(1)?;
        if are_same_asks(&self.asks[last], ask) {
            u32::try_from(last).ok()
        } else {
            None
        }
    }

    /// Adds the question of a test, whose strings are there. Returns its place, which is that of
    /// the last question if both are seen to be the same.
    #[tactic(auto, using(crate::proofs::Keeping::ask_shared))]
    pub(crate) fn push_ask(&mut self, ask: PackedAsk) -> Result<u32, AllocError>
        ensures { IfOk result (λ place. (p : Pool) (x : reading.Ask)
            → Kept p (pool_as self.old) (λ q. ask_in q ask) x
            → Kept p (pool_as self.new) (λ q. ask_at q place) x) }
    {
        if let Some(place) = self.repeated_ask(&ask) {
            return Ok(place);
        }
        let place = place_of(self.asks.len())?;
        self.asks.push(ask)?;
        Ok(place)
    }

    /// The place of the last command if it is seen to be the same as this one, or none.
    fn repeated(&self, leaf: &PackedLeaf) -> Option<u32>
        ensures { IfSome result
            (λ place. slice_get self.now.leaves.items place ≡ Some leaf.now) }
    {
        let last = self.leaves.len().checked_sub(1)?;
        if are_same(&self.leaves[last], leaf) {
            u32::try_from(last).ok()
        } else {
            None
        }
    }

    /// Adds a command that acts, whose strings are there. Returns its place, which is that of the
    /// last command if both are seen to be the same.
    pub(crate) fn push_leaf(&mut self, leaf: PackedLeaf) -> Result<u32, AllocError>
        ensures { IfOk result (λ place. (p : Pool) (x : reading.Leaf)
            → Kept p (pool_as self.old) (λ q. leaf_in q leaf) x
            → Kept p (pool_as self.new) (λ q. leaf_at q place) x) }
    {
        if let Some(place) = self.repeated(&leaf) {
            return Ok(place);
        }
        let place = place_of(self.leaves.len())?;
        self.leaves.push(leaf)?;
        Ok(place)
    }
}
