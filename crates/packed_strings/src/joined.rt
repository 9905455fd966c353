//! The strings of compiled code, one after another.
ghost use Rattle.std.specs.Prelude.{◌≡◌, ◌∷◌, ◌++◌, ◌<◌, ◌≤◌, ◌^◌, [], length, slice_get, slice_index_or, true, IfOk, IfSome, OnErr, OnOk, Some};
ghost use Rattle.packed_strings.specs.Joined.{between, start};
ghost use Rattle.sieve_variables.specs.view.Variable.{variable_ref_as};

use sieve_variables::{Part, PartRef, Parts, VariableRef};
use std::alloc::{AllocError, Global};
use std::marker::Model;

/// The number of items, as the place where they end. An error is more than 4,294,967,295 items. It
/// is answered as out of memory.
pub(crate) fn end_of(len: usize) -> Result<u32, AllocError>
    ensures ok { IfOk result (λ end. end ≡ len) }
    ensures err { OnErr result (2 ^ 32 ≤ len) }
{
    match u32::try_from(len) {
        Ok(end) => Ok(end),
        Err(_) => Err(AllocError),
    }
}

/// The place where item `i` begins. The first begins at the front, and each other where the one
/// before it ends.
fn start(ends: &[u32], i: usize) -> usize
    ensures { result ≡ start ends.now i }
{
    if i == 0 {
        return 0;
    }
    match ends.get(i - 1) {
        Some(end) => *end as usize,
        None => 0,
    }
}

/// The places where item `i` begins and ends. If there is no such item, the end is the front.
pub(crate) fn bounds(ends: &[u32], i: usize) -> (usize, usize)
    ensures { (result.0 ≡ start ends.now i) × (result.1 ≡ slice_index_or ends.now i 0) }
{
    match ends.get(i) {
        Some(end) => (start(ends, i), *end as usize),
        None => (start(ends, i), 0),
    }
}

/// The items from place `from` up to place `to`.
pub(crate) fn between<T>(items: &[T], from: usize, to: usize) -> &[T]
    ensures { result.now ≡ between from to items.now }
{
    let front = &items[..to.min(items.len())];
    &front[from.min(front.len())..]
}

/// Whether two variables have the same name and are both local or both global.
fn are_one_variable(one: VariableRef<'_>, other: VariableRef<'_>) -> bool
    ensures { result ≡ true → variable_ref_as one.entry ≡ variable_ref_as other.entry }
{
    match (one, other) {
        (VariableRef::Local(name), VariableRef::Local(other)) => name == other,
        (VariableRef::Global(name), VariableRef::Global(other)) => name == other,
        (_, _) => false,
    }
}

/// Whether two parts are the same.
fn is_same(one: &Part, other: &Part) -> bool
    ensures { result ≡ true → one.now ≡ other.now }
{
    match (one.as_ref(), other.as_ref()) {
        (PartRef::Literal(octets), PartRef::Literal(others)) => octets == others,
        (PartRef::Variable(variable), PartRef::Variable(other)) => {
            are_one_variable(variable, other)
        }
        (PartRef::Match(index), PartRef::Match(other)) => index == other,
        (_, _) => false,
    }
}

/// Whether two strings have the same parts.
pub(crate) fn are_same(one: &[Part], other: &[Part]) -> bool
    ensures { result ≡ true → one.now ≡ other.now }
{
    if one.len() != other.len() {
        return false;
    }
    for i in 0..one.len() {
        if !is_same(&one[i], &other[i]) {
            return false;
        }
    }
    true
}

/// Adds the parts of a string after others, and the end of the string after the other ends.
fn put_after(parts: &mut Vec<Part>, ends: &mut Vec<u32>, string: Parts) -> Result<(), AllocError>
    ensures { OnOk result ((parts.new.items ≡ parts.old.items ++ string)
        × (ends.new.items ≡ ends.old.items ++ length (parts.old.items ++ string) ∷ [])) }
{
    string.append_to(parts)?;
    ends.push(end_of(parts.len())?)?;
    Ok(())
}

/// Strings one after another: their parts, and where each string ends among them. Contracts see the
/// parts of each.
#[derive(Drop)]
pub struct JoinedStrings {
    parts: Vec<Part>,
    ends: Vec<u32>,
}

impl Model for JoinedStrings {
    ghost use Rattle.std.specs.Prelude.{List, length};
    ghost use Rattle.sieve_variables.specs.Part.{Part};
    ghost use Rattle.packed_strings.specs.Joined.{EndAt, cut};

    ghost Value = { List (List Part) };

    ghost view = { λ j. cut 0 j.ends.items j.parts.items };

    ghost invariant = { λ j. EndAt 0 j.ends.items (length j.parts.items) };
}

impl JoinedStrings {
    /// Makes a value that holds no strings.
    pub fn new(alloc: Global) -> JoinedStrings
        ensures { result ≡ [] }
    {
        JoinedStrings {
            parts: Vec::new(alloc),
            ends: Vec::new(alloc),
        }
    }

    /// The number of strings.
    #[tactic(auto, using(crate::proofs::Joining::cut_length))]
    pub fn len(&self) -> usize
        ensures { result ≡ length self.now }
    {
        self.ends.len()
    }

    /// The place of the last string if it is the same as `string`, or none.
    pub fn last_same(&self, string: &[Part]) -> Option<usize>
        ensures { IfSome result (λ place. slice_get self.now place ≡ Some string.now) }
    {
        let last = self.len().checked_sub(1)?;
        if are_same(self.get(last), string) {
            Some(last)
        } else {
            None
        }
    }

    /// Adds a string. An error is out of memory, or more than 4,294,967,295 parts in all.
    pub fn push(&mut self, string: Parts) -> Result<(), AllocError>
        ensures { OnOk result (self.new ≡ self.old ++ string ∷ []) }
    {
        match put_after(&mut self.parts, &mut self.ends, string) {
            Ok(()) => Ok(()),
            Err(error) => {
                self.ends.clear();
                self.parts.clear();
                Err(error)
            }
        }
    }

    /// Removes all strings.
    pub(crate) fn clear(&mut self)
        ensures { self.new ≡ [] }
    {
        self.ends.clear();
        self.parts.clear();
    }

    /// Gives back the memory that is kept for more strings.
    pub fn shrink_to_fit(&mut self)
        ensures { self.new ≡ self.old }
    {
        self.parts.shrink_to_fit();
        self.ends.shrink_to_fit();
    }

    /// The parts of string `i`, or no parts if there is no such string.
    pub fn get(&self, i: usize) -> &[Part]
        ensures { result.now ≡ slice_index_or self.now i [] }
    {
        let (from, to) = bounds(&self.ends, i);
        between(&self.parts, from, to)
    }

    /// The parts of string `i` of those that lie between two places.
    pub(crate) fn get_between(&self, from: usize, to: usize, i: usize) -> &[Part]
        requires { i < length (between from to self.now) }
        ensures { slice_get (between from to self.now) i ≡ Some result.now }
    {
        self.get(from + i)
    }
}
