//! The actions of a run (RFC 5228, 2.10), and the internal flags that its stores take (RFC 5232,
//! 5).
ghost use Rattle.std.specs.Prelude.{◌≡◌, ◌∷◌, IfOk, OnOk, false, map, []};
ghost use Rattle.std.specs.List.{list_any};
ghost use Rattle.sieve_delivery.specs.Joining.{joined_entry, same_action};
ghost use Rattle.sieve_delivery.specs.Performing.{entry_at, with_entry, with_room};
ghost use Rattle.sieve_delivery.specs.State.{actions_in};
ghost use Rattle.sieve_delivery.specs.declared.action.Action.TheVariants.{Store};
ghost use Rattle.sieve_delivery.specs.declared.actions.Performed.TheVariants.{Refused};
ghost use Rattle.sieve_delivery.specs.declared.error.ErrorKind.{ErrorKind};
ghost use Rattle.sieve_delivery.specs.view.Actions.{entries_as, performed_as};
ghost use Rattle.sieve_delivery.specs.view.Delivery.{delivery_as};
ghost use Rattle.flag_lists.specs.Flags.{flag_union, flags_in, flags_without};

use crate::action::{Action, Entry, Filing};
use crate::conflicts::{conflict_among, has_rejection};
use crate::delivery::Delivery;
use crate::entries::{
    all_joined, all_with_flags, first_entry, has_action, has_store, lower_all, push_entry,
};
use crate::error::ErrorKind;
use flag_lists::laws::flags_are_taken_out_in_turn;
use flag_lists::{FlagList, next_flag};
use octets::Octets;
use sieve_limits::MAX_ACTIONS;
use std::alloc::{AllocError, Global};
use std::marker::Model;
use std::mem;

/// Whether an action that was performed is accepted.
#[derive(Clone, Copy, PartialEq, Eq)]
pub(crate) enum Performed {
    /// It was added to the others, or joined with one that is there.
    Accepted,
    /// It wasn't performed, for this error.
    Refused(ErrorKind),
}

/// The actions of a run in their order, and the internal flags. Contracts see both.
#[derive(Drop)]
pub struct Actions {
    entries: Vec<Entry>,
    flags: FlagList,
}

impl Model for Actions {
    ghost use Rattle.sieve_delivery.specs.view.Actions.{AreKnown, EntriesAndFlags, entries_as};

    ghost Value = { EntriesAndFlags };

    ghost view = { λ a. record { entries = entries_as a.entries.items; flags = a.flags } };

    ghost invariant = { λ a. AreKnown a.flags a.entries.items };
}

impl Actions {
    /// Makes a value without actions and without flags.
    pub fn new(alloc: Global) -> Actions
        ensures { result ≡ record { entries = []; flags = [] } }
    {
        Actions {
            entries: Vec::new(alloc),
            flags: FlagList::new(alloc),
        }
    }

    /// The internal flags.
    pub fn flags(&self) -> &FlagList
        ensures { result.now ≡ self.now.flags }
    {
        &self.flags
    }

    /// The actions and the internal flags, each by itself.
    pub fn into_parts(self) -> (Vec<Entry>, FlagList)
        ensures entries { entries_as result.0.items ≡ self.entries }
        ensures flags { result.1 ≡ self.flags }
    {
        (self.entries, self.flags)
    }

    /// Adds an action that the command at a line performs, or joins it with the one that is there
    /// already. Returns whether the action was accepted.
    pub(crate) fn add(
        &mut self,
        delivery: &Delivery<'_>,
        line: u64,
        action: Action,
    ) -> Result<Performed, AllocError>
        ensures kept { IfOk result (λ added. (kind : ErrorKind) → added ≡ Refused kind
            → self.new.entries ≡ self.old.entries) }
        ensures value { IfOk result (λ added. performed_as added self.new.entries ≡ with_entry
            (entry_at (delivery_as delivery.now) line action) self.old.entries) }
        ensures flags { OnOk result (self.new.flags ≡ self.old.flags) }
    {
        if let Some(kind) = conflict_among(&action, &self.entries) {
            return Ok(Performed::Refused(kind));
        }
        if has_action(&action, &self.entries) {
            self.join(delivery.alloc, &action)?;
            return Ok(Performed::Accepted);
        }
        self.push(delivery, line, action)
    }

    /// Adds an action that isn't there yet, if there is room for it.
    fn push(
        &mut self,
        delivery: &Delivery<'_>,
        line: u64,
        action: Action,
    ) -> Result<Performed, AllocError>
        ensures kept { IfOk result (λ added. (kind : ErrorKind) → added ≡ Refused kind
            → self.new.entries ≡ self.old.entries) }
        ensures value { IfOk result
            (λ added. list_any (same_action action) (actions_in self.old.entries) ≡ false
            → performed_as added self.new.entries
            ≡ with_room (entry_at (delivery_as delivery.now) line action) self.old.entries) }
        ensures flags { OnOk result (self.new.flags ≡ self.old.flags) }
    {
        if self.entries.len() >= MAX_ACTIONS {
            return Ok(Performed::Refused(ErrorKind::TooManyActions));
        }
        let entry = first_entry(delivery, line, action)?;
        push_entry(&mut self.entries, entry)?;
        Ok(Performed::Accepted)
    }

    /// Joins an action that is performed with each action that counts as one with it.
    fn join(&mut self, alloc: Global, action: &Action) -> Result<(), AllocError>
        ensures entries { OnOk result
            (self.new.entries ≡ map (joined_entry action.now) self.old.entries) }
        ensures flags { OnOk result (self.new.flags ≡ self.old.flags) }
    {
        let held = mem::replace(&mut self.entries, Vec::new(alloc));
        self.entries = all_joined(alloc, action, held)?;
        Ok(())
    }

    /// Stores into a mailbox with the internal flags, or joins them to the store that is there
    /// already. Returns whether the store was accepted.
    pub(crate) fn store(
        &mut self,
        delivery: &Delivery<'_>,
        line: u64,
        mailbox: Octets,
        filing: Filing,
    ) -> Result<Performed, AllocError>
        ensures kept { IfOk result (λ added. (kind : ErrorKind) → added ≡ Refused kind
            → self.new.entries ≡ self.old.entries) }
        ensures value { IfOk result
            (λ added. performed_as added self.new.entries ≡ with_entry (entry_at
            (delivery_as delivery.now) line (Store mailbox self.old.flags filing)) self.old.entries) }
        ensures flags { OnOk result (self.new.flags ≡ self.old.flags) }
    {
        if has_rejection(&self.entries) {
            return Ok(Performed::Refused(ErrorKind::ConflictingActions));
        }
        if has_store(mailbox.as_slice(), &self.entries) {
            self.join_flags(delivery.alloc, mailbox.as_slice(), &filing)?;
            return Ok(Performed::Accepted);
        }
        let flags = self.flags.copied(delivery.alloc)?;
        let action = Action::Store {
            mailbox,
            flags,
            filing,
        };
        self.push(delivery, line, action)
    }

    /// Joins the internal flags and a filing to each of the stores into a mailbox.
    fn join_flags(
        &mut self,
        alloc: Global,
        mailbox: &[u8],
        filing: &Filing,
    ) -> Result<(), AllocError>
        ensures entries { OnOk result (self.new.entries
            ≡ map (joined_entry (Store mailbox.now self.old.flags filing.now)) self.old.entries) }
        ensures flags { OnOk result (self.new.flags ≡ self.old.flags) }
    {
        let held = mem::replace(&mut self.entries, Vec::new(alloc));
        self.entries = all_with_flags(alloc, mailbox, &self.flags, filing, held)?;
        Ok(())
    }

    /// Replaces the internal flags (RFC 5232, 3.1).
    pub(crate) fn set_flags(&mut self, named: FlagList)
        ensures { self.new ≡ record self.old { flags = named } }
    {
        lower_all(&mut self.entries, None);
        self.flags = named;
    }

    /// Adds the flags of a text to the internal flags (RFC 5232, 3.2).
    pub(crate) fn add_text(&mut self, alloc: Global, text: &[u8]) -> Result<(), AllocError>
        ensures { OnOk result
            (self.new ≡ record self.old { flags = flag_union self.old.flags (flags_in text.now) }) }
    {
        let held = mem::replace(&mut self.entries, Vec::new(alloc));
        self.flags.add_text(alloc, text)?;
        self.entries = held;
        Ok(())
    }

    /// Removes the flags of a text from the internal flags (RFC 5232, 3.3).
    pub(crate) fn remove_text(&mut self, text: &[u8])
        ensures { self.new
            ≡ record self.old { flags = flags_without self.old.flags (flags_in text.now) } }
    {
        flags_are_taken_out_in_turn();
        let mut rest = text;
        while let Some((flag, after)) = next_flag(rest) {
            self.remove_flag(flag);
            rest = after;
        }
    }

    /// Removes a flag from the internal flags.
    fn remove_flag(&mut self, flag: &[u8])
        ensures { self.new
            ≡ record self.old { flags = flags_without self.old.flags (flag.now ∷ []) } }
    {
        if let Some(place) = self.flags.take_out(flag) {
            lower_all(&mut self.entries, Some(place));
        }
    }
}
