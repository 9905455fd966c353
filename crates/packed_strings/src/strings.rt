//! Lists of strings of compiled code.
ghost use Rattle.std.specs.Prelude.{◌≡◌, ◌∷◌, ◌++◌, ◌<◌, ◌+◌, [], drop, length, map, slice_get, slice_index_or, true, IfOk, IfSome, OnOk, Some};
ghost use Rattle.octets.specs.view.Texts.{octets_of_each};
ghost use Rattle.packed_strings.specs.Joined.{Lists, between, lists_plus, lists_with, list_in, no_lists, start};
ghost use Rattle.sieve_variables.specs.Value.{text_value};

use crate::joined::{JoinedStrings, are_same, bounds, end_of};
use sieve_variables::{Part, Parts, Values};
use std::alloc::{AllocError, Global};
use std::borrow::CowSlice;
use std::marker::Model;

/// Adds the strings of a list after others, and the end of the list after the other ends.
fn put_after(
    strings: &mut JoinedStrings,
    ends: &mut Vec<u32>,
    texts: Vec<Parts>,
) -> Result<(), AllocError>
    ensures { OnOk result ((strings.new ≡ strings.old ++ texts.items)
        × (ends.new.items ≡ ends.old.items ++ length (strings.old ++ texts.items) ∷ [])) }
{
    for text in texts {
        strings.push(text)?;
    }
    ends.push(end_of(strings.len())?)?;
    Ok(())
}

/// Whether strings of code and of a script are the same.
fn are_these(strings: &Strings<'_>, texts: &[Parts]) -> bool
    ensures { result ≡ true → strings.now ≡ texts.now }
{
    if strings.len() != texts.len() {
        return false;
    }
    for i in 0..texts.len() {
        if !are_same(strings.get(i), texts[i].as_slice()) {
            return false;
        }
    }
    true
}

/// Lists of strings, one after another: the strings, and where each list ends among them.
#[derive(Drop)]
pub struct StringLists {
    strings: JoinedStrings,
    ends: Vec<u32>,
}

impl Model for StringLists {
    ghost use Rattle.std.specs.Prelude.{length};
    ghost use Rattle.packed_strings.specs.Joined.{EndAt, Lists};

    ghost Value = { Lists };

    ghost view = { λ l. record { strings = l.strings; ends = l.ends.items } };

    ghost invariant = { λ l. EndAt 0 l.ends.items (length l.strings) };
}

impl StringLists {
    /// Makes a value that holds no lists.
    pub fn new(alloc: Global) -> StringLists
        ensures { result ≡ no_lists }
    {
        StringLists {
            strings: JoinedStrings::new(alloc),
            ends: Vec::new(alloc),
        }
    }

    /// The number of lists.
    pub fn len(&self) -> usize
        ensures { result ≡ length self.now.ends }
    {
        self.ends.len()
    }

    /// The place of the last list if it has the same strings as `texts`, or none.
    pub fn last_same(&self, texts: &[Parts]) -> Option<usize>
        ensures { IfSome result (λ place. (more : Lists)
            → list_in (lists_plus self.now more) place ≡ texts.now) }
    {
        let last = self.ends.len().checked_sub(1)?;
        if are_these(&self.list(last), texts) {
            Some(last)
        } else {
            None
        }
    }

    /// Adds a list. An error is out of memory, or more than 4,294,967,295 strings or parts in all.
    pub fn push(&mut self, texts: Vec<Parts>) -> Result<(), AllocError>
        ensures new { OnOk result (self.new ≡ lists_with self.old texts.items) }
        ensures kept { OnOk result ((more : Lists)
            → list_in (lists_plus self.new more) (length self.old.ends) ≡ texts.items) }
    {
        match put_after(&mut self.strings, &mut self.ends, texts) {
            Ok(()) => Ok(()),
            Err(error) => {
                self.ends.clear();
                self.strings.clear();
                Err(error)
            }
        }
    }

    /// Removes all lists.
    pub(crate) fn clear(&mut self)
        ensures { self.new ≡ no_lists }
    {
        self.ends.clear();
        self.strings.clear();
    }

    /// Gives back the memory that is kept for more lists.
    pub fn shrink_to_fit(&mut self)
        ensures { self.new ≡ self.old }
    {
        self.strings.shrink_to_fit();
        self.ends.shrink_to_fit();
    }

    /// Where list `i` begins and ends among the strings.
    pub(crate) fn bounds(&self, i: usize) -> (usize, usize)
        ensures { (result.0 ≡ start self.now.ends i)
            × (result.1 ≡ slice_index_or self.now.ends i 0) }
    {
        bounds(&self.ends, i)
    }

    /// The strings from place `from` up to place `to`.
    pub(crate) fn between(&self, from: usize, to: usize) -> Strings<'_>
        ensures { result ≡ between from to self.now.strings }
    {
        let strings = &self.strings;
        Strings { strings, from, to }
    }

    /// List `i`, or an empty list if there is none.
    pub fn list(&self, i: usize) -> Strings<'_>
        ensures { result ≡ list_in self.now i }
    {
        let (from, to) = bounds(&self.ends, i);
        self.between(from, to)
    }
}

/// A list of strings of compiled code. Contracts see the parts of each.
#[derive(Drop)]
pub struct Strings<'a> {
    strings: &'a JoinedStrings,
    from: usize,
    to: usize,
}

impl<'a> Model for Strings<'a> {
    ghost use Rattle.std.specs.Prelude.{List};
    ghost use Rattle.sieve_variables.specs.Part.{Part};
    ghost use Rattle.packed_strings.specs.Joined.{between};

    ghost Value = { List (List Part) };

    ghost view = { λ s. between s.from s.to s.strings.now };
}

impl<'a> Strings<'a> {
    /// The number of strings.
    pub fn len(&self) -> usize
        ensures { result ≡ length self.now }
    {
        self.to.min(self.strings.len()).saturating_sub(self.from)
    }

    /// The parts of string `i`.
    pub fn get(&self, i: usize) -> &'a [Part]
        requires { i < length self.now }
        ensures { slice_get self.now i ≡ Some result.now }
    {
        self.strings.get_between(self.from, self.to, i)
    }

    /// The octets that string `i` stands for. The contract puts them before the octets of the
    /// strings after it. So a caller can go over the strings in order. A string of one part, or of
    /// none, is borrowed. One of several parts is put into the buffer, in place of what the buffer
    /// held. This takes memory if the buffer has too little room. An error is out of memory.
    pub fn text_in<'b>(
        &self,
        i: usize,
        values: &'b Values,
        buffer: &'b mut Vec<u8>,
    ) -> Result<&'b [u8], AllocError>
    where
        'a: 'b,
        requires { i < length self.now }
        ensures { IfOk result (λ octets. drop i (map (text_value values.now) self.now)
            ≡ octets.now ∷ drop (i + 1) (map (text_value values.now) self.now)) }
    {
        values.expanded_in(self.get(i), buffer)
    }

    /// The octets that each string stands for, in order. An error is out of memory.
    pub fn expanded<'b>(
        &self,
        alloc: Global,
        values: &'b Values,
    ) -> Result<Vec<CowSlice<'b, u8>>, AllocError>
    where
        'a: 'b,
        ensures { IfOk result
            (λ texts. octets_of_each texts.items ≡ map (text_value values.now) self.now) }
    {
        let mut texts = Vec::new(alloc);
        for i in 0..self.len() {
            texts.push(values.expanded_string(alloc, self.get(i))?)?;
        }
        Ok(texts)
    }
}
