//! The names of fields that tests look at, as compiled code keeps them.
ghost use Rattle.std.specs.Prelude.{◌≡◌, ◌<◌, ◌++◌, length, map, slice_get, IfOk, IfSome, OnOk, Some};
ghost use Rattle.packed_strings.specs.Joined.{Lists, lists_plus, lists_with, list_in, no_lists};
ghost use Rattle.packed_strings.specs.view.FieldNames.{kept_hash};
ghost use Rattle.sieve_variables.specs.Value.{text_value};

use crate::joined::between;
use crate::strings::{StringLists, Strings};
use message_text::{FieldName, name_hash};
use sieve_script::literal_in_parts;
use sieve_variables::{Part, Parts, Values};
use std::alloc::{AllocError, Global};
use std::marker::Model;

/// Lists of names of fields, with a hash for each name. The hash of a name that is one literal is
/// computed once, and no run computes it again.
#[derive(Drop)]
pub struct NameLists {
    lists: StringLists,
    hashes: Vec<u32>,
}

impl Model for NameLists {
    ghost use Rattle.std.specs.Prelude.{◌≡◌, map};
    ghost use Rattle.packed_strings.specs.Joined.{Lists};
    ghost use Rattle.packed_strings.specs.view.FieldNames.{kept_hash};

    ghost Value = { Lists };

    ghost view = { λ n. n.lists };

    ghost invariant = { λ n. n.hashes.items ≡ map kept_hash n.lists.strings };
}

/// The number that is kept for a name: its hash if the name is one literal, or else 0.
fn kept_hash(parts: &[Part]) -> u32
    ensures { result ≡ kept_hash parts.now }
{
    match literal_in_parts(parts) {
        Some(octets) => name_hash(octets),
        None => 0,
    }
}

/// Adds the kept number of each name after other numbers, and the list of names after other lists.
fn put_after(
    lists: &mut StringLists,
    hashes: &mut Vec<u32>,
    texts: Vec<Parts>,
) -> Result<(), AllocError>
    ensures lists { OnOk result (lists.new ≡ lists_with lists.old texts.items) }
    ensures kept { OnOk result ((more : Lists)
        → list_in (lists_plus lists.new more) (length lists.old.ends) ≡ texts.items) }
    ensures hashes { OnOk result
        (hashes.new.items ≡ hashes.old.items ++ map kept_hash texts.items) }
{
    for text in &texts {
        hashes.push(kept_hash(text.as_slice()))?;
    }
    lists.push(texts)
}

impl NameLists {
    /// Makes a value that holds no lists.
    pub fn new(alloc: Global) -> NameLists
        ensures { result ≡ no_lists }
    {
        NameLists {
            lists: StringLists::new(alloc),
            hashes: Vec::new(alloc),
        }
    }

    /// The number of lists.
    pub fn len(&self) -> usize
        ensures { result ≡ length self.now.ends }
    {
        self.lists.len()
    }

    /// The place of the last list if it has the same strings as `texts`, or none.
    pub fn last_same(&self, texts: &[Parts]) -> Option<usize>
        ensures { IfSome result (λ place. (more : Lists)
            → list_in (lists_plus self.now more) place ≡ texts.now) }
    {
        self.lists.last_same(texts)
    }

    /// Adds a list. An error is out of memory, or more than 4,294,967,295 strings or parts in all.
    pub fn push(&mut self, texts: Vec<Parts>) -> Result<(), AllocError>
        ensures new { OnOk result (self.new ≡ lists_with self.old texts.items) }
        ensures kept { OnOk result ((more : Lists)
            → list_in (lists_plus self.new more) (length self.old.ends) ≡ texts.items) }
    {
        match put_after(&mut self.lists, &mut self.hashes, texts) {
            Ok(()) => Ok(()),
            Err(error) => {
                self.hashes.clear();
                self.lists.clear();
                Err(error)
            }
        }
    }

    /// Gives back the memory that is kept for more lists.
    pub fn shrink_to_fit(&mut self)
        ensures { self.new ≡ self.old }
    {
        self.lists.shrink_to_fit();
        self.hashes.shrink_to_fit();
    }

    /// List `i`, or an empty list if there is none.
    pub fn list(&self, i: usize) -> FieldNames<'_>
        ensures { result ≡ list_in self.now i }
    {
        let (from, to) = self.lists.bounds(i);
        FieldNames {
            strings: self.lists.between(from, to),
            hashes: between(&self.hashes, from, to),
        }
    }
}

/// The names of fields that a test looks at. Contracts see the parts of each.
#[derive(Drop)]
pub struct FieldNames<'a> {
    strings: Strings<'a>,
    hashes: &'a [u32],
}

impl<'a> Model for FieldNames<'a> {
    ghost use Rattle.std.specs.Prelude.{◌≡◌, List, map};
    ghost use Rattle.packed_strings.specs.view.FieldNames.{kept_hash};
    ghost use Rattle.sieve_variables.specs.Part.{Part};

    ghost Value = { List (List Part) };

    ghost view = { λ n. n.strings };

    ghost invariant = { λ n. n.hashes.now ≡ map kept_hash n.strings };
}

/// The name that a string stands for. Its kept hash is given.
fn prepared_in<'a>(
    parts: &'a [Part],
    hash: u32,
    values: &'a Values,
    buffer: &'a mut Vec<u8>,
) -> Result<FieldName<'a>, AllocError>
    requires { hash ≡ kept_hash parts.now }
    ensures { IfOk result (λ name. name ≡ text_value values.now parts.now) }
{
    if let Some(octets) = literal_in_parts(parts) {
        return Ok(FieldName::with_hash(octets, hash));
    }
    let octets = values.expanded_in(parts, buffer)?;
    Ok(FieldName::new(octets))
}

impl<'a> FieldNames<'a> {
    /// The names as strings, each by its parts.
    pub fn strings(&self) -> &Strings<'a>
        ensures { result.now ≡ self.now }
    {
        &self.strings
    }

    /// The number of names.
    pub fn len(&self) -> usize
        ensures { result ≡ length self.now }
    {
        self.strings.len()
    }

    /// The name that string `i` stands for, for one name after another. A name of one part, or of
    /// none, is borrowed. One of several parts is put into the buffer, in place of what the buffer
    /// held. This takes memory if the buffer has too little room. An error is out of memory.
    pub fn name_in<'b>(
        &self,
        i: usize,
        values: &'b Values,
        buffer: &'b mut Vec<u8>,
    ) -> Result<FieldName<'b>, AllocError>
    where
        'a: 'b,
        requires { i < length self.now }
        ensures { IfOk result
            (λ name. slice_get (map (text_value values.now) self.now) i ≡ Some name) }
    {
        let parts = self.strings.get(i);
        prepared_in(parts, self.hashes[i], values, buffer)
    }
}
