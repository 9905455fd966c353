//! A message and its header fields (RFC 5322, section 2).
ghost use Rattle.std.specs.Prelude.{◌≡◌, ◌<◌, ◌≤◌, ◌↔◌, ◌^◌, ◌-◌, [], IfErr, IfOk, IsErrAnd, IfNone, IfSome, IsOk, IsOkAnd, Some, false, length, map, slice_get, ℕ};
ghost use Rattle.std.specs.Cow.{IsBorrowedSlice, IsOwnedSlice, cow_slice_items};
ghost use Rattle.sieve_limits.specs.Limits.{message_limit};
ghost use Rattle.message_text.specs.Fields as spec;
ghost use Rattle.sieve_profile.specs.view.Profile.{profile_as};

use crate::fields::{FieldSpan, span_in, spans_of};
use crate::names::{FieldName, next_named};
use crate::values::value_at;
use encoded_words::decoded_value;
use sieve_limits::MAX_MESSAGE;
use sieve_profile::Profile;
use std::alloc::{AllocError, Global};
use std::borrow::CowSlice;
use std::marker::Model;
use thiserror::Error;

/// Why a message was refused.
#[derive(Clone, Copy, Debug, PartialEq, Eq, Error)]
pub enum MessageFault {
    /// The message has more than [`MAX_MESSAGE`] octets.
    #[error("the message is too large")]
    TooLarge = 1,
    /// Out of memory for the places of the message's fields.
    #[error("out of memory")]
    NoMemory = 2,
}

/// A message: any octets, up to [`MAX_MESSAGE`] of them.
///
/// Its header fields stand in the lines before the first empty one (RFC 5322, 2.2). A line ends by
/// a line feed, and a carriage return directly before that belongs to the line end. A line that
/// begins with space or tab continues the one before. A field's name is the octets before the first
/// colon of its first line. It has one or more octets, each of 33 to 126. Spaces and tabs before
/// the colon are dropped. Other lines are skipped, with those that continue them.
#[derive(Drop)]
pub struct Message {
    octets: Vec<u8>,
    fields: Vec<FieldSpan>,
}

impl Model for Message {
    ghost use Rattle.std.specs.Prelude.{List, ℕ};
    ghost use Rattle.message_text.specs.view.Spans.{IsMessage};

    ghost Value = { List ℕ };

    ghost view = { λ m. m.octets.items };

    ghost invariant = { λ m. IsMessage m.octets.items m.fields.items };
}

impl Message {
    /// The message of these octets. A refusal gives them back.
    ///
    /// The refusal is [`TooLarge`](MessageFault::TooLarge) exactly past [`MAX_MESSAGE`]. Up to that
    /// limit, octets without a field are never refused.
    pub fn new(alloc: Global, bytes: Vec<u8>) -> Result<Message, (MessageFault, Vec<u8>)>
        ensures ok { IfOk result (λ message. message ≡ bytes.items) }
        ensures too_large { IsErrAnd result (λ refused. refused.0 ≡ MessageFault.TooLarge)
            ↔ (message_limit < length bytes.items) }
        ensures given_back { IfErr result (λ refused. refused.1.items ≡ bytes.items) }
        ensures no_field { length bytes.items ≤ message_limit → spec.fields_of bytes.items ≡ []
            → IsOk result }
    {
        if bytes.len() > MAX_MESSAGE {
            return Err((MessageFault::TooLarge, bytes));
        }
        match spans_of(alloc, &bytes) {
            Ok(fields) => Ok(Message {
                octets: bytes,
                fields,
            }),
            Err(_) => Err((MessageFault::NoMemory, bytes)),
        }
    }

    /// The number of octets.
    pub fn size(&self) -> usize
        ensures size { result ≡ length self.now }
        ensures limit { result ≤ message_limit }
    {
        self.octets.len()
    }

    /// All of its octets.
    pub fn octets(&self) -> &[u8]
        ensures { result.now ≡ self.now }
    {
        &self.octets
    }

    /// The number of header fields.
    pub fn fields(&self) -> usize
        ensures { result ≡ length (spec.fields_of self.now) }
    {
        self.fields.len()
    }

    /// The name of field `i`, as it is written.
    pub fn name(&self, i: usize) -> &[u8]
        requires { i < length (spec.fields_of self.now) }
        ensures { slice_get (spec.names_of self.now) i ≡ Some result.now }
    {
        let octets = self.octets.as_slice();
        let span = span_in(octets, &self.fields, i);
        &octets[span.start..span.name_end]
    }

    /// The place of the first field of that name at or after `start`, or none if there is none.
    /// Names ignore the case of ASCII (RFC 5228, 2.4.2.2).
    pub fn next_named(&self, name: &FieldName<'_>, start: usize) -> Option<usize>
        ensures some { IfSome result (spec.IsNextNamed (spec.fields_of self.now) name.now start) }
        ensures none { IfNone result ((k : ℕ) → start ≤ k → k < length (spec.fields_of self.now)
            → slice_get (map (spec.is_field_named name.now) (spec.fields_of self.now)) k
            ≡ Some false) }
        // A search can go on after the place.
        ensures countable { IfSome result (λ i. i < 2 ^ 64 - 1) }
    {
        next_named(self.octets.as_slice(), &self.fields, name, start)
    }

    /// The value of field `i`: the text after the colon, without outer spaces and tabs (RFC 5228,
    /// 5.7). Its lines are joined as they are (RFC 5322, 2.2.3).
    ///
    /// If the field stands on one line, this succeeds, and the value is borrowed from the message.
    /// If lines continue the field, the value is a copy.
    pub fn value(&self, alloc: Global, i: usize) -> Result<CowSlice<'_, u8>, AllocError>
        requires { i < length (spec.fields_of self.now) }
        ensures octets { IfOk result (λ value. slice_get (spec.values_of self.now) i
            ≡ Some (cow_slice_items value)) }
        ensures unfolded { spec.IsUnfolded self.now i → IsOkAnd result IsBorrowedSlice }
        ensures folded { spec.IsFolded self.now i → IfOk result IsOwnedSlice }
    {
        let octets = self.octets.as_slice();
        let span = span_in(octets, &self.fields, i);
        value_at(alloc, octets, span)
    }

    /// The value of field `i`, with its encoded words replaced by the UTF-8 that they stand for.
    /// The profile says which charsets are known (RFC 2047, section 2).
    ///
    /// A word is replaced wherever it stands in the unfolded and trimmed value, also inside another
    /// that can't be decoded. Spaces and tabs between two such words are dropped (RFC 2047, 6.2).
    /// The result isn't trimmed again.
    ///
    /// If the field stands on one line and no word was replaced, the result is borrowed from the
    /// message. Otherwise it is a copy. If the field stands on one line, and no word of a known
    /// charset is written in it, this succeeds.
    pub fn decoded(
        &self,
        alloc: Global,
        profile: Profile,
        i: usize,
    ) -> Result<CowSlice<'_, u8>, AllocError>
        requires { i < length (spec.fields_of self.now) }
        ensures octets { IfOk result (λ value. slice_get (spec.decoded_values_of
            (profile_as profile) self.now) i ≡ Some (cow_slice_items value)) }
        ensures unchanged { spec.IsUnfolded self.now i
            → spec.IsUnreplaced (profile_as profile) self.now i → IfOk result IsBorrowedSlice }
        ensures folded { spec.IsFolded self.now i → IfOk result IsOwnedSlice }
        ensures replaced { spec.IsReplaced (profile_as profile) self.now i
            → IfOk result IsOwnedSlice }
        ensures unknown { spec.IsUnfolded self.now i
            → spec.IsUnknown (profile_as profile) self.now i → IsOk result }
    {
        let value = self.value(alloc, i)?;
        decoded_value(alloc, profile, value)
    }
}
