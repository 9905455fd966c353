//! Entries of the list of a run's actions (RFC 5228, 2.10).
ghost use Rattle.std.specs.Prelude.{◌≡◌, ◌∷◌, ◌++◌, IfOk, OnErr, OnOk, map, []};
ghost use Rattle.std.specs.List.{list_any};
ghost use Rattle.sieve_delivery.specs.Joining.{filing_with, joined_entry, joined_with, same_action};
ghost use Rattle.sieve_delivery.specs.Performing.{entry_at};
ghost use Rattle.sieve_delivery.specs.State.{actions_in};
ghost use Rattle.sieve_delivery.specs.declared.action.Action.TheVariants.{Store};
ghost use Rattle.sieve_delivery.specs.view.Actions.{AreKnown, IsKnown, entered_of, entries_as, joined_in, lowered, lowered_in, stores_into};
ghost use Rattle.sieve_delivery.specs.view.Delivery.{delivery_as};

use crate::action::{Action, Entry, Filing, Origin, same_action};
use crate::delivery::Delivery;
use flag_lists::FlagList;
use octets::Octets;
use std::alloc::{AllocError, Global};

/// Makes an entry of an action, for the command at a line of the script that runs. None of the
/// internal flags is known to be among the action's own.
pub(crate) fn first_entry(
    delivery: &Delivery<'_>,
    line: u64,
    action: Action,
) -> Result<Entry, AllocError>
    ensures entry { IfOk result
        (λ entry. entered_of entry ≡ entry_at (delivery_as delivery.now) line action) }
    ensures known { IfOk result (λ entry. entry.known ≡ 0) }
{
    let script = delivery.script.copy(delivery.alloc)?;
    Ok(Entry {
        action,
        origin: Origin { script, line },
        known: 0,
    })
}

/// Adds an entry. A list begins with room for one, since most runs perform one action and each
/// verdict keeps its list.
pub(crate) fn push_entry(entries: &mut Vec<Entry>, entry: Entry) -> Result<(), AllocError>
    ensures ok { OnOk result (entries.new.items ≡ entries.old.items ++ entry ∷ []) }
    ensures err { OnErr result (entries.new.items ≡ entries.old.items) }
{
    if entries.is_empty() {
        entries.reserve_exact(1)?;
    }
    entries.push(entry)?;
    Ok(())
}

/// The number of known first flags after the flag at a place is taken out. Without a place, all
/// flags are taken out.
fn lowered(place: Option<usize>, known: usize) -> usize
    ensures { result ≡ lowered place known }
{
    match place {
        Some(place) => { if place < known { known - 1 } else { known } }
        None => 0,
    }
}

/// Lowers the known number of an entry in this way.
fn lower(entry: &mut Entry, place: Option<usize>)
    ensures { entry.new ≡ lowered_in place entry.old }
{
    entry.known = lowered(place, entry.known);
}

/// Lowers the known number of each entry in this way.
pub(crate) fn lower_all(entries: &mut Vec<Entry>, place: Option<usize>)
    ensures { entries.new.items ≡ map (lowered_in place) entries.old.items }
{
    for entry in entries.iter_mut() {
        lower(entry, place);
    }
}

/// Whether an action is there already.
pub(crate) fn has_action(action: &Action, entries: &[Entry]) -> bool
    ensures { result ≡ list_any (same_action action.now) (actions_in (entries_as entries.now)) }
{
    for entry in entries {
        if same_action(action, &entry.action) {
            return true;
        }
    }
    false
}

/// Whether an action stores into a mailbox.
fn stores_into(mailbox: &[u8], action: &Action) -> bool
    ensures { result ≡ stores_into mailbox.now action.now }
{
    match action {
        Action::Store { mailbox: other, .. } => mailbox == other.as_slice(),
        _ => false,
    }
}

/// Whether a store into a mailbox is there already.
pub(crate) fn has_store(mailbox: &[u8], entries: &[Entry]) -> bool
    ensures { result ≡ list_any (stores_into mailbox.now) (actions_in (entries_as entries.now)) }
{
    for entry in entries {
        if stores_into(mailbox, &entry.action) {
            return true;
        }
    }
    false
}

/// The filing of a store and that of another store into its mailbox, joined (RFC 5490, 3.2;
/// RFC 8579, 4).
fn filing_with(alloc: Global, brought: &Filing, there: Filing) -> Result<Filing, AllocError>
    ensures { IfOk result (λ filing. filing ≡ filing_with brought.now there) }
{
    let create = there.create || brought.create;
    let special_use = match (there.special_use, &brought.special_use) {
        (Some(first), _) => Some(first),
        (None, Some(other)) => Some(Octets::copied(alloc, other.as_slice())?),
        (None, None) => None,
    };
    Ok(Filing {
        create,
        special_use,
    })
}

/// An action that is there, joined with one that is performed if the two count as one. A store then
/// has the flags of both, and the joined filing.
fn joined_with(alloc: Global, action: &Action, there: Action) -> Result<Action, AllocError>
    ensures { IfOk result (λ joined. joined ≡ joined_with action.now there) }
{
    if !same_action(action, &there) {
        return Ok(there);
    }
    match (action, there) {
        (
            Action::Store { flags, filing, .. },
            Action::Store {
                mailbox,
                flags: held,
                filing: kept,
            },
        ) => {
            let mut joined = held;
            joined.add(alloc, flags, 0)?;
            Ok(Action::Store {
                mailbox,
                flags: joined,
                filing: filing_with(alloc, filing, kept)?,
            })
        }
        (_, other) => Ok(other),
    }
}

/// An entry whose action is joined with one that is performed.
fn joined_in(alloc: Global, action: &Action, there: Entry) -> Result<Entry, AllocError>
    ensures { IfOk result (λ joined. joined ≡ joined_in action.now there) }
{
    let Entry {
        action: held,
        origin,
        known,
    } = there;
    let action = joined_with(alloc, action, held)?;
    Ok(Entry {
        action,
        origin,
        known,
    })
}

/// The entries that are there, each joined with an action that is performed.
pub(crate) fn all_joined(
    alloc: Global,
    action: &Action,
    entries: Vec<Entry>,
) -> Result<Vec<Entry>, AllocError>
    ensures { IfOk result (λ joined. joined.items ≡ map (joined_in action.now) entries.items) }
{
    let mut joined = Vec::with_capacity(alloc, entries.len())?;
    for there in entries {
        joined.push(joined_in(alloc, action, there)?)?;
    }
    Ok(joined)
}

/// An action that is there. If it stores into the mailbox, the internal flags and the filing are
/// joined to it. Also returns how many of the flags are then known to be among its own. The first
/// `known` flags were among its own already.
fn with_flags(
    alloc: Global,
    mailbox: &[u8],
    flags: &FlagList,
    filing: &Filing,
    there: Action,
    known: usize,
) -> Result<(Action, usize), AllocError>
    requires { IsKnown flags.now known there }
    ensures action { IfOk result
        (λ made. made.0 ≡ joined_with (Store mailbox.now flags.now filing.now) there) }
    ensures known { IfOk result (λ made. IsKnown flags.now made.1 made.0) }
{
    if !stores_into(mailbox, &there) {
        return Ok((there, known));
    }
    match there {
        Action::Store {
            mailbox,
            flags: held,
            filing: kept,
        } => {
            let mut joined = held;
            joined.add(alloc, flags, known)?;
            let action = Action::Store {
                mailbox,
                flags: joined,
                filing: filing_with(alloc, filing, kept)?,
            };
            Ok((action, flags.len()))
        }
        Action::Redirect { address } => Ok((Action::Redirect { address }, known)),
        Action::Discard => Ok((Action::Discard, known)),
        Action::Respond { response } => Ok((Action::Respond { response }, known)),
        Action::Reject { how, reason } => Ok((Action::Reject { how, reason }, known)),
    }
}

/// The same for an entry.
fn entry_with_flags(
    alloc: Global,
    mailbox: &[u8],
    flags: &FlagList,
    filing: &Filing,
    there: Entry,
) -> Result<Entry, AllocError>
    requires { IsKnown flags.now there.known there.action }
    ensures entry { IfOk result (λ made. entered_of made
        ≡ joined_entry (Store mailbox.now flags.now filing.now) (entered_of there)) }
    ensures known { IfOk result (λ made. IsKnown flags.now made.known made.action) }
{
    let Entry {
        action: held,
        origin,
        known,
    } = there;
    let (action, known) = with_flags(alloc, mailbox, flags, filing, held, known)?;
    Ok(Entry {
        action,
        origin,
        known,
    })
}

/// The entries that are there. The internal flags and the filing are joined to each store into the
/// mailbox.
pub(crate) fn all_with_flags(
    alloc: Global,
    mailbox: &[u8],
    flags: &FlagList,
    filing: &Filing,
    entries: Vec<Entry>,
) -> Result<Vec<Entry>, AllocError>
    requires { AreKnown flags.now entries.items }
    ensures entries { IfOk result (λ made. entries_as made.items
        ≡ map (joined_entry (Store mailbox.now flags.now filing.now)) (entries_as entries.items)) }
    ensures known { IfOk result (λ made. AreKnown flags.now made.items) }
{
    let mut joined = Vec::with_capacity(alloc, entries.len())?;
    for there in entries {
        let made = entry_with_flags(alloc, mailbox, flags, filing, there)?;
        joined.push(made)?;
    }
    Ok(joined)
}
