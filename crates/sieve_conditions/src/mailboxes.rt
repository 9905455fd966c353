//! The mailboxes that are there (RFC 5490, 3.1).
ghost use Rattle.std.specs.Prelude.{◌≡◌, IfOk, map, nat_eq};
ghost use Rattle.std.specs.List.{list_all, list_any};
ghost use lib.Pointwise.{pointwise};
ghost use Rattle.sieve_script.specs.Reading.{mailboxes_ask};
ghost use Rattle.sieve_delivery.specs.Delivery.{mailbox_count, mailbox_names};
ghost use Rattle.sieve_conditions.specs.Matching.{has_mailbox, is_inbox, truth_of};
ghost use Rattle.sieve_delivery.specs.view.Delivery.{delivery_as};
ghost use Rattle.sieve_delivery.specs.view.State.{state_of};
ghost use Rattle.sieve_variables.specs.Value.{text_value};

use message_text::next_line;
use packed_strings::Strings;
use sieve_delivery::{Delivery, Envelope, RunState};
use sieve_variables::Values;
use std::alloc::{AllocError, Global};

/// The number of names of mailboxes in a text, one a line. An empty line is no name.
pub fn mailbox_count(text: &[u8]) -> u64
    ensures { result ≡ mailbox_count text.now }
{
    let mut count = 0u64;
    let mut left = text;
    while let Some((name, rest)) = next_line(left) {
        if !name.is_empty() {
            count += 1;
        }
        left = rest;
    }
    count
}

/// Whether a name is that of the INBOX, which is written in any case (RFC 3501, 5.1).
fn is_inbox(name: &[u8]) -> bool
    ensures { result ≡ is_inbox name.now }
{
    b"INBOX".eq_ignore_ascii_case(name)
}

/// Whether a name is among those in a text.
fn is_listed(name: &[u8], text: &[u8]) -> bool
    ensures { result ≡ list_any (pointwise nat_eq name.now) (mailbox_names text.now) }
{
    let mut left = text;
    while let Some((line, rest)) = next_line(left) {
        if !line.is_empty() && name == line {
            return true;
        }
        left = rest;
    }
    false
}

/// Whether a mailbox of that name is there.
fn has_mailbox(envelope: &Envelope, name: &[u8]) -> bool
    ensures { result ≡ has_mailbox envelope.now name.now }
{
    is_inbox(name)
        || name == envelope.mailbox.as_slice()
        || is_listed(name, envelope.mailboxes.as_slice())
}

/// Whether mailboxes of all these names are there.
fn has_mailboxes(
    alloc: Global,
    envelope: &Envelope,
    values: &Values,
    names: &Strings<'_>,
) -> Result<bool, AllocError>
    ensures { IfOk result
        (λ has. has ≡ list_all (has_mailbox envelope.now) (map (text_value values.now) names.now)) }
{
    let mut buffer = Vec::new(alloc);
    for i in 0..names.len() {
        let name = names.text_in(i, values, &mut buffer)?;
        if !has_mailbox(envelope, name) {
            return Ok(false);
        }
    }
    Ok(true)
}

/// Whether all named mailboxes are there (RFC 5490, 3.1). Fails if memory is refused.
#[tactic(auto, unfolding(crate::specs::Matching::truth_of))]
pub fn mailboxes_exist(
    delivery: &Delivery<'_>,
    names: &Strings<'_>,
    state: &RunState,
) -> Result<bool, AllocError>
    ensures { IfOk result (λ truth. truth
        ≡ truth_of (delivery_as delivery.now) (state_of state.now) (mailboxes_ask names.now)) }
{
    has_mailboxes(
        delivery.alloc,
        delivery.arrival.envelope,
        &state.values,
        names,
    )
}
