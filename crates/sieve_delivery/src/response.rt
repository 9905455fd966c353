//! Responses (RFC 5230), and rejections (RFC 5429).
ghost use Rattle.std.specs.Prelude.{◌≡◌, ◌∷◌, ◌++◌, ◌<◌, [], IfOk, OnOk, Some, length, map, slice_get};
ghost use Rattle.std.specs.Option.{option_copied, option_map};
ghost use Rattle.sieve_delivery.specs.Sending.{may_be_from, rejects, responds, response_of};
ghost use Rattle.sieve_delivery.specs.view.Delivery.{delivery_as};
ghost use Rattle.sieve_delivery.specs.view.Ending.{ending_by};
ghost use Rattle.packed_strings.specs.view.Refs.{vacation_ref_as};
ghost use Rattle.sieve_delivery.specs.view.State.{state_of};
ghost use Rattle.sieve_variables.specs.Value.{text_value};

use crate::acting::{only_address, perform};
use crate::action::{Action, Deed};
use crate::delivery::Delivery;
use crate::ending::{Ending, fail};
use crate::error::ErrorKind;
use crate::state::RunState;
use message_text::addresses;
use octets::Octets;
use packed_strings::{Strings, VacationRef};
use sieve_script::Rejection;
use sieve_variables::{Part, Values};
use std::alloc::{AllocError, Global};
use std::marker::Model;

/// Texts in order. Contracts see the octets of each.
#[derive(Drop)]
pub struct Texts {
    texts: Vec<Octets>,
}

impl Model for Texts {
    ghost use Rattle.std.specs.Prelude.{List, ℕ};

    ghost Value = { List (List ℕ) };

    ghost view = { λ t. t.texts.items };
}

impl Texts {
    /// Makes a value without texts.
    fn new(alloc: Global) -> Texts
        ensures { result ≡ [] }
    {
        Texts {
            texts: Vec::new(alloc),
        }
    }

    /// Adds a text.
    fn push(&mut self, text: Octets) -> Result<(), AllocError>
        ensures { OnOk result (self.new ≡ self.old ++ text ∷ []) }
    {
        self.texts.push(text)?;
        Ok(())
    }

    /// The number of texts.
    pub fn len(&self) -> usize
        ensures { result ≡ length self.now }
    {
        self.texts.len()
    }

    /// Text `i`.
    pub fn get(&self, i: usize) -> &[u8]
        requires { i < length self.now }
        ensures { slice_get self.now i ≡ Some result.now }
    {
        self.texts[i].as_slice()
    }
}

/// The response that the sender gets (RFC 5230, 4).
#[derive(Drop)]
pub struct Response {
    /// The text of the response.
    pub reason: Octets,
    /// For how many days the sender gets no other response, if it is said (RFC 5230, 4.1).
    pub days: Option<u64>,
    /// The subject, if it is said (RFC 5230, 4.3).
    pub subject: Option<Octets>,
    /// The sender of the response as it is said, if it is said (RFC 5230, 4.3).
    pub from: Option<Octets>,
    /// Further addresses of the user, if they are given (RFC 5230, 4.5). They aren't judged.
    pub addresses: Option<Texts>,
    /// Whether the text is a MIME entity (RFC 5230, 4.4).
    pub mime: bool,
    /// The handle by which a server would know such a response, if it is said (RFC 5230, 4.2).
    pub handle: Option<Octets>,
}

/// The octets that a string stands for, copied.
fn kept_text(alloc: Global, values: &Values, string: &[Part]) -> Result<Octets, AllocError>
    ensures { IfOk result (λ octets. octets ≡ text_value values.now string.now) }
{
    let text = values.expanded_string(alloc, string)?;
    Octets::copied(alloc, text.as_slice())
}

/// The octets that a string stands for, or none if the string is left out.
pub(crate) fn given_text(
    alloc: Global,
    values: &Values,
    string: Option<&[Part]>,
) -> Result<Option<Octets>, AllocError>
    ensures { IfOk result
        (λ text. text ≡ option_map (text_value values.now) (option_copied string.entry)) }
{
    match string {
        Some(string) => Ok(Some(kept_text(alloc, values, string)?)),
        None => Ok(None),
    }
}

/// The octets that each of some strings stands for.
fn kept_texts(alloc: Global, values: &Values, strings: &Strings<'_>) -> Result<Texts, AllocError>
    ensures { IfOk result (λ texts. texts ≡ map (text_value values.now) strings.now) }
{
    let mut texts = Texts::new(alloc);
    for i in 0..strings.len() {
        texts.push(kept_text(alloc, values, strings.get(i))?)?;
    }
    Ok(texts)
}

/// The octets that each of some strings stands for, or none if the strings are left out.
fn given_texts(
    alloc: Global,
    values: &Values,
    strings: &Option<Strings<'_>>,
) -> Result<Option<Texts>, AllocError>
    ensures { IfOk result (λ texts. texts ≡ option_map (map (text_value values.now)) strings.now) }
{
    match strings {
        Some(strings) => Ok(Some(kept_texts(alloc, values, strings)?)),
        None => Ok(None),
    }
}

/// The response of a `vacation`.
fn response_of(
    alloc: Global,
    values: &Values,
    vacation: &VacationRef<'_>,
) -> Result<Response, AllocError>
    ensures { IfOk result
        (λ response. response ≡ response_of values.now (vacation_ref_as vacation.now)) }
{
    Ok(Response {
        reason: kept_text(alloc, values, vacation.reason)?,
        days: vacation.days,
        subject: given_text(alloc, values, vacation.subject)?,
        from: given_text(alloc, values, vacation.from)?,
        addresses: given_texts(alloc, values, &vacation.addresses)?,
        mime: vacation.mime,
        handle: given_text(alloc, values, vacation.handle)?,
    })
}

/// Whether a response may be from the sender that it says. It may be if it says none.
fn may_be_from(alloc: Global, from: &Option<Octets>) -> Result<bool, AllocError>
    ensures { IfOk result (λ may. may ≡ may_be_from from.now) }
{
    match from {
        Some(from) => {
            let found = addresses(alloc, from.as_slice())?;
            Ok(only_address(&found).is_some())
        }
        None => Ok(true),
    }
}

/// Answers the sender (RFC 5230, 4). The implicit keep stays as it is (RFC 5230, 4.7). A `:from`
/// that isn't exactly one address, with a local part and a domain, is an error of the script. So is
/// a second response (RFC 5230, 4.7). So is a response if the message was rejected before, and one
/// action too many (RFC 5228, 2.10.4). Fails if memory is refused.
pub fn respond(
    delivery: &Delivery<'_>,
    vacation: &VacationRef<'_>,
    line: u64,
    state: &mut RunState,
) -> Result<Ending, AllocError>
    ensures { IfOk result (λ ending. ending_by ending (state_of state.new) ≡ responds
        (delivery_as delivery.now) (vacation_ref_as vacation.now) line (state_of state.old)) }
{
    let response = response_of(delivery.alloc, &state.values, vacation)?;
    if !may_be_from(delivery.alloc, &response.from)? {
        return fail(delivery, line, ErrorKind::BadAddress);
    }
    let action = Action::Respond { response };
    let leaves_keep = true;
    perform(
        delivery,
        Deed {
            action,
            leaves_keep,
        },
        line,
        state,
    )
}

/// Rejects the message (RFC 5429, 2), which takes the place of the implicit keep. It is an error of
/// the script beside a store, a redirect, a response or another rejection (RFC 5429, 2.4). So is
/// one action too many (RFC 5228, 2.10.4). Fails if memory is refused.
pub fn reject(
    delivery: &Delivery<'_>,
    how: Rejection,
    reason: &[Part],
    line: u64,
    state: &mut RunState,
) -> Result<Ending, AllocError>
    ensures { IfOk result (λ ending. ending_by ending (state_of state.new)
        ≡ rejects (delivery_as delivery.now) how reason.now line (state_of state.old)) }
{
    let reason = kept_text(delivery.alloc, &state.values, reason)?;
    let action = Action::Reject { how, reason };
    let leaves_keep = false;
    perform(
        delivery,
        Deed {
            action,
            leaves_keep,
        },
        line,
        state,
    )
}
