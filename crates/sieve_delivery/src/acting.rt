//! Commands that act (RFC 5228, 4).
ghost use Rattle.std.specs.Prelude.{◌≡◌, IfOk};
ghost use Rattle.std.specs.List.{list_all};
ghost use Rattle.std.specs.Option.{option_map};
ghost use Rattle.message_text.specs.Addresses.{addresses_of};
ghost use Rattle.sieve_delivery.specs.Act.{discards, gives, sets};
ghost use Rattle.sieve_delivery.specs.Performing as performing;
ghost use Rattle.sieve_delivery.specs.Performing.{ends_with, performs};
ghost use Rattle.sieve_delivery.specs.Sending.{only_address, sends, whole_address};
ghost use Rattle.sieve_delivery.specs.Storing.{files_into, filing_of, is_mailbox, is_no_control, is_special_use, keeps, may_be_used, store_deed};
ghost use Rattle.sieve_delivery.specs.view.Delivery.{delivery_as};
ghost use Rattle.sieve_delivery.specs.view.Ending.{ending_by};
ghost use Rattle.packed_strings.specs.view.Refs.{settings_ref_as};
ghost use Rattle.sieve_delivery.specs.view.Acting.{mailbox_named};
ghost use Rattle.sieve_delivery.specs.view.Actions.{performed_as};
ghost use Rattle.sieve_delivery.specs.declared.action.Deed as deeds;
ghost use Rattle.sieve_delivery.specs.view.State.{state_of};
ghost use Rattle.sieve_variables.specs.Modifier.{modified};
ghost use Rattle.sieve_variables.specs.Value.{text_value};

use crate::action::{Action, Deed, Filing};
use crate::actions::Performed;
use crate::delivery::Delivery;
use crate::ending::{Ending, fail};
use crate::error::ErrorKind;
use crate::flagging::flags_named;
use crate::response::given_text;
use crate::state::RunState;
use flag_lists::is_keyword;
use message_text::{Address, AddressPart, addresses};
use octets::Octets;
use packed_strings::{SettingsRef, Strings};
use sieve_limits::MAX_MAILBOX;
use sieve_variables::{Modifiers, Part, Values, Variable};
use std::alloc::AllocError;

/// Performs an action. It takes the place of the implicit keep (RFC 5228, 2.10.2). An action that
/// leaves the keep doesn't (RFC 3894, 3; RFC 5230, 4.7).
pub(crate) fn perform(
    delivery: &Delivery<'_>,
    deed: Deed,
    line: u64,
    state: &mut RunState,
) -> Result<Ending, AllocError>
    ensures { IfOk result (λ ending. ending_by ending (state_of state.new)
        ≡ performs (delivery_as delivery.now) line deed (state_of state.old)) }
{
    let added = state.actions.add(delivery, line, deed.action)?;
    end_with(delivery, added, deed.leaves_keep, line, state)
}

/// Ends a command after the action that it performed was accepted or refused.
fn end_with(
    delivery: &Delivery<'_>,
    added: Performed,
    leaves_keep: bool,
    line: u64,
    state: &mut RunState,
) -> Result<Ending, AllocError>
    ensures { (performed : performing.Performed) (deed : deeds.Deed)
        → performed_as added (state_of state.old).entries ≡ performed
        → deed.leaves_keep ≡ leaves_keep → IfOk result (λ ending. ending_by ending (state_of state.new)
        ≡ ends_with (delivery_as delivery.now) line deed performed (state_of state.old)) }
{
    match added {
        Performed::Accepted => {}
        Performed::Refused(kind) => return fail(delivery, line, kind),
    }
    state.cancelled = !leaves_keep || state.cancelled;
    Ok(Ending::GoesOn)
}

/// The filing that a command asks for (RFC 5490, 3.2; RFC 8579, 4).
fn filing_of(
    delivery: &Delivery<'_>,
    values: &Values,
    settings: &SettingsRef<'_>,
) -> Result<Filing, AllocError>
    ensures { IfOk result
        (λ filing. filing ≡ filing_of values.now (settings_ref_as settings.now)) }
{
    Ok(Filing {
        create: settings.create,
        special_use: given_text(delivery.alloc, values, settings.special_use)?,
    })
}

/// Stores into a mailbox. The store has the flags that are named, or else the internal flags
/// (RFC 5232, 5).
fn store(
    delivery: &Delivery<'_>,
    mailbox: Octets,
    filing: Filing,
    settings: &SettingsRef<'_>,
    line: u64,
    state: &mut RunState,
) -> Result<Ending, AllocError>
    requires { filing ≡ filing_of (state_of state.old).values (settings_ref_as settings.now) }
    ensures { IfOk result (λ ending. ending_by ending (state_of state.new)
        ≡ performs (delivery_as delivery.now) line (store_deed
        (state_of state.old) mailbox (settings_ref_as settings.now)) (state_of state.old)) }
{
    let leaves_keep = settings.copy;
    match &settings.flags {
        Some(texts) => {
            let flags = flags_named(delivery, &*state, texts)?;
            let action = Action::Store {
                mailbox,
                flags,
                filing,
            };
            perform(
                delivery,
                Deed {
                    action,
                    leaves_keep,
                },
                line,
                state,
            )
        }
        None => {
            let added = state.actions.store(delivery, line, mailbox, filing)?;
            end_with(delivery, added, leaves_keep, line, state)
        }
    }
}

/// Stores into the mailbox of the delivery (RFC 5228, 4.3). The store has the flags that are named,
/// or else the internal flags (RFC 5232, 5). It is an error of the script if the message was
/// rejected before (RFC 5429, 2.4). One action too many is an error of the script too (RFC 5228,
/// 2.10.4). Fails if memory is refused.
pub fn keep(
    delivery: &Delivery<'_>,
    flags: Option<Strings<'_>>,
    line: u64,
    state: &mut RunState,
) -> Result<Ending, AllocError>
    ensures { IfOk result (λ ending. ending_by ending (state_of state.new)
        ≡ keeps (delivery_as delivery.now) flags.entry line (state_of state.old)) }
{
    let mailbox = Octets::copied(delivery.alloc, delivery.arrival.envelope.mailbox.as_slice())?;
    let settings = SettingsRef {
        flags,
        copy: false,
        create: false,
        special_use: None,
    };
    let filing = Filing {
        create: false,
        special_use: None,
    };
    store(delivery, mailbox, filing, &settings, line, state)
}

/// Discards the message (RFC 5228, 4.4). One action too many is an error of the script (RFC 5228,
/// 2.10.4). Fails if memory is refused.
pub fn discard(
    delivery: &Delivery<'_>,
    line: u64,
    state: &mut RunState,
) -> Result<Ending, AllocError>
    ensures { IfOk result (λ ending. ending_by ending (state_of state.new)
        ≡ discards (delivery_as delivery.now) line (state_of state.old)) }
{
    let action = Action::Discard;
    let leaves_keep = false;
    perform(
        delivery,
        Deed {
            action,
            leaves_keep,
        },
        line,
        state,
    )
}

/// Whether an octet is not a control character of ASCII.
fn is_no_control(octet: u8) -> bool
    ensures { result ≡ is_no_control octet }
{
    octet >= b' ' && octet != 127
}

/// Whether none of these octets is a control character of ASCII.
fn has_no_control(name: &[u8]) -> bool
    ensures { result ≡ list_all is_no_control name.now }
{
    name.iter().all(|octet| is_no_control(*octet))
}

/// Whether a mailbox may have this name.
fn is_mailbox(name: &[u8]) -> bool
    ensures { result ≡ is_mailbox name.now }
{
    !name.is_empty() && name.len() <= MAX_MAILBOX && has_no_control(name)
}

/// The mailbox that a string names, or none if no mailbox may have that name. At most one octet
/// more than the longest name is put together of the string.
fn mailbox_named(
    delivery: &Delivery<'_>,
    values: &Values,
    mailbox: &[Part],
) -> Result<Option<Octets>, AllocError>
    ensures { IfOk result (λ name. name ≡ mailbox_named values.now mailbox.now) }
{
    let name = values.expanded_front(delivery.alloc, mailbox, MAX_MAILBOX + 1)?;
    if is_mailbox(name.as_slice()) {
        Ok(Some(Octets::copied(delivery.alloc, name.as_slice())?))
    } else {
        Ok(None)
    }
}

/// Whether a text is the use of a mailbox (RFC 6154, 6).
fn is_special_use(text: &[u8]) -> bool
    ensures { result ≡ is_special_use text.now }
{
    match text {
        [b'\\', keyword @ ..] => is_keyword(keyword),
        _ => false,
    }
}

/// Whether the use that a store asks for, if any, may be the use of a mailbox.
fn may_be_used(filing: &Filing) -> bool
    ensures { result ≡ may_be_used filing.now.special_use }
{
    match &filing.special_use {
        Some(used) => is_special_use(used.as_slice()),
        None => true,
    }
}

/// Stores into the mailbox of that name (RFC 5228, 4.1). The store has the flags that are named, or
/// else the internal flags (RFC 5232, 5). Under `:copy` the implicit keep stays as it is (RFC 3894,
/// 3). A name that no mailbox may have is an error of the script. So is a use that none may have
/// (RFC 8579, 4). So is a store if the message was rejected before (RFC 5429, 2.4). So is one
/// action too many (RFC 5228, 2.10.4). Fails if memory is refused.
#[tactic(auto, using(crate::proofs::Named::filing))]
pub fn file_into(
    delivery: &Delivery<'_>,
    mailbox: &[Part],
    settings: &SettingsRef<'_>,
    line: u64,
    state: &mut RunState,
) -> Result<Ending, AllocError>
    ensures { IfOk result (λ ending. ending_by ending (state_of state.new)
        ≡ files_into (delivery_as delivery.now) mailbox.now (settings_ref_as settings.now) line
        (state_of state.old)) }
{
    let Some(mailbox) = mailbox_named(delivery, &state.values, mailbox)? else {
        return fail(delivery, line, ErrorKind::BadMailbox);
    };
    let filing = filing_of(delivery, &state.values, settings)?;
    if !may_be_used(&filing) {
        return fail(delivery, line, ErrorKind::BadMailbox);
    }
    store(delivery, mailbox, filing, settings, line, state)
}

/// The whole address, if it has a local part and a domain.
fn whole_address(address: &Address) -> Option<&[u8]>
    ensures { option_map (λ octets. octets.now) result ≡ whole_address address.now }
{
    if address.part(AddressPart::Local).is_some() && address.part(AddressPart::Domain).is_some() {
        address.part(AddressPart::All)
    } else {
        None
    }
}

/// The only address of a list, if it has a local part and a domain. There is none if the list has
/// no address or several.
pub(crate) fn only_address(found: &[Address]) -> Option<&[u8]>
    ensures { option_map (λ octets. octets.now) result ≡ only_address found.now }
{
    match found {
        [one] => whole_address(one),
        _ => None,
    }
}

/// The address that a string gives, if it gives exactly one, with a local part and a domain.
fn address_named(
    delivery: &Delivery<'_>,
    values: &Values,
    address: &[Part],
) -> Result<Option<Octets>, AllocError>
    ensures { IfOk result
        (λ octets. octets ≡ only_address (addresses_of (text_value values.now address.now))) }
{
    let text = values.expanded_string(delivery.alloc, address)?;
    let found = addresses(delivery.alloc, text.as_slice())?;
    match only_address(&found) {
        Some(octets) => Ok(Some(Octets::copied(delivery.alloc, octets)?)),
        None => Ok(None),
    }
}

/// Sends the message on to the address that a string gives (RFC 5228, 4.2). A string that isn't
/// exactly one address, with a local part and a domain, is an error of the script. So is a redirect
/// if the message was rejected before (RFC 5429, 2.4). So is one action too many (RFC 5228,
/// 2.10.4). Under `:copy` the implicit keep stays as it is (RFC 3894, 3). Fails if memory is
/// refused.
#[tactic(auto, using(crate::proofs::Named::sending))]
pub fn redirect(
    delivery: &Delivery<'_>,
    address: &[Part],
    copy: bool,
    line: u64,
    state: &mut RunState,
) -> Result<Ending, AllocError>
    ensures { IfOk result (λ ending. ending_by ending (state_of state.new)
        ≡ sends (delivery_as delivery.now) address.now copy line (state_of state.old)) }
{
    match address_named(delivery, &state.values, address)? {
        Some(address) => {
            let action = Action::Redirect { address };
            let leaves_keep = copy;
            perform(
                delivery,
                Deed {
                    action,
                    leaves_keep,
                },
                line,
                state,
            )
        }
        None => fail(delivery, line, ErrorKind::BadAddress),
    }
}

/// The value that a `set` gives (RFC 5229, 4.1).
fn value_of(
    delivery: &Delivery<'_>,
    values: &Values,
    modifiers: Modifiers,
    value: &[Part],
) -> Result<Octets, AllocError>
    ensures { IfOk result
        (λ octets. octets ≡ modified modifiers (text_value values.now value.now)) }
{
    let octets = values.modified_string(delivery.alloc, modifiers, value)?;
    Ok(Octets::from_vec(octets))
}

/// Gives a variable a value if there is room for it (RFC 5229, 4 and 6). Otherwise the command
/// fails.
pub(crate) fn give(
    delivery: &Delivery<'_>,
    variable: &Variable,
    value: Octets,
    line: u64,
    state: &mut RunState,
) -> Result<Ending, AllocError>
    ensures { IfOk result (λ ending. ending_by ending (state_of state.new)
        ≡ gives (delivery_as delivery.now) line variable.now value (state_of state.old)) }
{
    if !state.values.has_room_for(variable) {
        return fail(delivery, line, ErrorKind::TooManyGlobals);
    }
    state.values.set(delivery.alloc, variable, value)?;
    Ok(Ending::GoesOn)
}

/// Gives a variable the value that a `set` says (RFC 5229, 4). One shared variable too many is an
/// error of the script. Fails if memory is refused.
pub fn set(
    delivery: &Delivery<'_>,
    variable: &Variable,
    modifiers: Modifiers,
    value: &[Part],
    line: u64,
    state: &mut RunState,
) -> Result<Ending, AllocError>
    ensures { IfOk result (λ ending. ending_by ending (state_of state.new) ≡ sets
        (delivery_as delivery.now) variable.now modifiers value.now line (state_of state.old)) }
{
    let octets = value_of(delivery, &state.values, modifiers, value)?;
    give(delivery, variable, octets, line, state)
}
