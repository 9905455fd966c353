//! The octets that strings stand for while a script runs (RFC 5229, section 3).
ghost use Rattle.std.specs.Prelude.{◌≡◌, ◌≤◌, ◌^◌, [], length, take, IfOk, IsOk, IsOkAnd, OnErr, OnOk};
ghost use Rattle.std.specs.Cow.{IsBorrowedSlice, cow_slice_items};
ghost use Rattle.sieve_variables.specs.Modifier.{modified};
ghost use Rattle.sieve_variables.specs.Value.{text_value};

use crate::modifier::{Modifiers, front};
use crate::part::Part;
use crate::values::Values;
use sieve_limits::MAX_VALUE;
use std::alloc::{AllocError, Global};
use std::borrow::CowSlice;

impl Values {
    /// The number of octets that the parts of a string stand for. A number of more than 64 bits is
    /// out of memory.
    fn joined_len(&self, parts: &[Part]) -> Result<usize, AllocError>
        ensures ok { IfOk result (λ len. len ≡ length (text_value self.now parts.now)) }
        ensures err { OnErr result (2 ^ 64 ≤ length (text_value self.now parts.now)) }
    {
        let mut len: usize = 0;
        for part in parts {
            match len.checked_add(self.part(part).len()) {
                Some(sum) => len = sum,
                None => return Err(AllocError),
            }
        }
        Ok(len)
    }

    /// Puts the octets that the parts of a string stand for into a buffer, in place of its old
    /// ones. If the buffer has too little room, room for all is asked for at once. An error is out
    /// of memory, and may leave any octets in the buffer.
    pub fn join(&self, parts: &[Part], buffer: &mut Vec<u8>) -> Result<(), AllocError>
        ensures { OnOk result (buffer.new.items ≡ text_value self.now parts.now) }
    {
        let len = self.joined_len(parts)?;
        buffer.clear();
        buffer.reserve_exact(len)?;
        for part in parts {
            buffer.extend_from_slice(self.part(part))?;
        }
        Ok(())
    }

    /// The octets that a string stands for. Those of one part are borrowed. Those of several parts
    /// take memory. An error is out of memory.
    pub fn expanded_string<'a>(
        &'a self,
        alloc: Global,
        parts: &'a [Part],
    ) -> Result<CowSlice<'a, u8>, AllocError>
        ensures octets { IfOk result
            (λ octets. cow_slice_items octets ≡ text_value self.now parts.now) }
        ensures one_part { length parts.now ≡ 1 → IsOkAnd result IsBorrowedSlice }
        ensures no_part { parts.now ≡ [] → IsOk result }
    {
        match parts {
            [] => Ok(CowSlice::Owned(Vec::new(alloc))),
            [part] => Ok(CowSlice::Borrowed(self.part(part))),
            _ => {
                let mut octets = Vec::new(alloc);
                self.join(parts, &mut octets)?;
                Ok(CowSlice::Owned(octets))
            }
        }
    }

    /// The octets that a string stands for, with a buffer for one string after another. The octets
    /// of one part are borrowed. Those of several parts replace the octets of the buffer. That
    /// takes memory if it has too little room. An error is out of memory.
    pub fn expanded_in<'a>(
        &'a self,
        parts: &'a [Part],
        buffer: &'a mut Vec<u8>,
    ) -> Result<&'a [u8], AllocError>
        ensures octets { IfOk result (λ octets. octets.now ≡ text_value self.now parts.now) }
        ensures one_part { length parts.now ≡ 1 → IsOk result }
        ensures no_part { parts.now ≡ [] → IsOk result }
    {
        match parts {
            [] => return Ok(&[]),
            [part] => return Ok(self.part(part)),
            _ => {}
        }
        self.join(parts, buffer)?;
        Ok(buffer.as_slice())
    }

    /// The first octets that the parts of a string stand for, at most `limit` of them.
    fn joined_front(
        &self,
        alloc: Global,
        parts: &[Part],
        limit: usize,
    ) -> Result<Vec<u8>, AllocError>
        ensures { IfOk result
            (λ octets. octets.items ≡ take limit (text_value self.now parts.now)) }
    {
        let mut front_octets = Vec::new(alloc);
        for part in parts {
            let left = limit - front_octets.len();
            front_octets.extend_from_slice(front(self.part(part), left))?;
        }
        Ok(front_octets)
    }

    /// The first octets that a string stands for, at most `limit` of them. Those of one part
    /// are borrowed. Those of several parts are copied, and none past the limit. An error is
    /// out of memory.
    pub fn expanded_front<'a>(
        &'a self,
        alloc: Global,
        parts: &'a [Part],
        limit: usize,
    ) -> Result<CowSlice<'a, u8>, AllocError>
        ensures octets { IfOk result
            (λ octets. cow_slice_items octets ≡ take limit (text_value self.now parts.now)) }
        ensures one_part { length parts.now ≡ 1 → IsOkAnd result IsBorrowedSlice }
        ensures no_part { parts.now ≡ [] → IsOk result }
    {
        match parts {
            [] => Ok(CowSlice::Borrowed(&[])),
            [part] => Ok(CowSlice::Borrowed(front(self.part(part), limit))),
            _ => Ok(CowSlice::Owned(self.joined_front(alloc, parts, limit)?)),
        }
    }

    /// The value that a string sets with these modifiers (RFC 5229, 4.1), as
    /// [`Modifiers::modified`] says. Without `:length` only the first 4,096 octets are put
    /// together, since the others are cut (RFC 5229, section 6). An error is out of memory.
    #[tactic(auto, using(crate::proofs::Fronts::modified_front))]
    pub fn modified_string(
        &self,
        alloc: Global,
        modifiers: Modifiers,
        parts: &[Part],
    ) -> Result<Vec<u8>, AllocError>
        ensures { IfOk result
            (λ octets. octets.items ≡ modified modifiers (text_value self.now parts.now)) }
    {
        if modifiers.length {
            let whole = self.expanded_string(alloc, parts)?;
            return modifiers.modified(alloc, whole.as_slice());
        }
        let text = self.expanded_front(alloc, parts, MAX_VALUE)?;
        modifiers.modified(alloc, text.as_slice())
    }
}
