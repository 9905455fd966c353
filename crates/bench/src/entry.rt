//! A message of a bench, with the verdict on it.
ghost use Rattle.std.specs.Prelude.{◌≡◌, IfOk, OnOk, OnErr, None, is_some};
ghost use Rattle.std.specs.Option.{option_copied};
ghost use Rattle.sieve_run.specs.Meter.{next_run};
ghost use Rattle.sieve_run.specs.Run.{is_looked_up};
ghost use Rattle.bench.specs.Report.{is_unlike, verdict_by};
ghost use Rattle.bench.specs.view.Entry.{disagrees, entry_with, forgotten, has_error, refreshed, renewed, runs_at, unread};
ghost use Rattle.bench.specs.view.Site.{site_as};

use crate::setting::MessageSetting;
use crate::site::Site;
use octets::Octets;
use script_names::ScriptName;
use sieve_run::{Addresses, Message, Meter, Verdict, run};
use std::alloc::{AllocError, Global};
use std::marker::Model;

/// A message with the text that its verdict is expected to have, where there is one. It may have
/// addresses of its own. It has the verdict on it, unless it is stale.
#[derive(Drop)]
pub(crate) struct MessageEntry {
    pub(crate) message: Message,
    pub(crate) expected: Option<Octets>,
    pub(crate) addresses: Option<Addresses>,
    pub(crate) kept: Option<Verdict>,
}

/// A message's entry in a place of its own. A list of entries holds a pointer to each, which is
/// little to move.
#[derive(Drop)]
pub(crate) struct EntryBox {
    entry: Box<MessageEntry>,
}

impl Model for EntryBox {
    ghost use Rattle.bench.specs.declared.entry.MessageEntry.{MessageEntry};

    ghost Value = { MessageEntry };

    ghost view = { λ b. b.entry.value };
}

/// Whether a run looked a name up, present or missing.
fn looked_up(verdict: &Verdict, name: &ScriptName) -> bool
    ensures { result ≡ is_looked_up name.now verdict.now.lookups }
{
    verdict.lookups().contains_key(name)
}

/// Whether a text is expected of a verdict, and it has another.
fn is_unlike(verdict: &Verdict, mailbox: &[u8], expected: Option<&Octets>) -> bool
    ensures { result ≡ is_unlike mailbox.now verdict.now (option_copied expected.entry) }
{
    match expected {
        Some(text) => !verdict.agrees(mailbox, text.as_slice()),
        None => false,
    }
}

impl EntryBox {
    /// Puts an entry in a place of its own.
    pub(crate) fn new(alloc: Global, entry: MessageEntry) -> Result<EntryBox, AllocError>
        ensures { IfOk result (λ held. held ≡ entry) }
    {
        Ok(EntryBox {
            entry: Box::new(alloc, entry)?,
        })
    }

    /// The verdict, where it is kept.
    pub(crate) fn kept(&self) -> Option<&Verdict>
        ensures { option_copied result ≡ self.now.kept }
    {
        self.entry.kept.as_ref()
    }

    /// The text that is expected of the verdict, where there is one.
    pub(crate) fn expected(&self) -> Option<&Octets>
        ensures { option_copied result ≡ self.now.expected }
    {
        self.entry.expected.as_ref()
    }

    /// The addresses that the message has of its own, where it has some.
    pub(crate) fn addresses(&self) -> Option<&Addresses>
        ensures { option_copied result ≡ self.now.addresses }
    {
        self.entry.addresses.as_ref()
    }

    /// Marks the message stale.
    pub(crate) fn forget(&mut self)
        ensures { self.new ≡ forgotten self.old }
    {
        self.entry.kept = None;
    }

    /// Puts another message in the place of this one. It keeps the expected text and its own
    /// addresses. It is stale.
    pub(crate) fn renew(&mut self, message: Message)
        ensures { self.new ≡ renewed message self.old }
    {
        self.entry.message = message;
        self.entry.kept = None;
    }

    /// Takes a setting of the message. The message is stale where a run sees the setting.
    pub(crate) fn take(&mut self, setting: MessageSetting)
        ensures { self.new ≡ entry_with setting self.old }
    {
        match setting {
            MessageSetting::Expected(text) => self.entry.expected = text,
            MessageSetting::Addresses(addresses) => {
                self.entry.addresses = addresses;
                self.entry.kept = None;
            }
        }
    }

    /// Marks the message stale if its run looked the name up.
    pub(crate) fn forget_reader(&mut self, name: &ScriptName)
        ensures { self.new ≡ unread name.now self.old }
    {
        if let Some(verdict) = &self.entry.kept {
            if looked_up(verdict, name) {
                self.entry.kept = None;
            }
        }
    }

    /// Runs the main script on the message if it is stale, and keeps the verdict.
    pub(crate) fn refresh(
        &mut self,
        alloc: Global,
        site: &Site<'_>,
        meter: &mut Meter,
    ) -> Result<(), AllocError>
        ensures ok { OnOk result (self.new ≡ refreshed (verdict_by (site_as site.now)) self.old) }
        ensures runs { OnOk result (meter.new ≡ runs_at self.old meter.old) }
        ensures err { OnErr result (self.new ≡ self.old) }
        ensures stale { OnErr result (self.old.kept ≡ None) }
        ensures ran { OnErr result (meter.new ≡ next_run meter.old) }
    {
        if self.entry.kept.is_none() {
            let verdict = run(
                alloc,
                site.scripts,
                site.main,
                site.envelope,
                self.entry.addresses.as_ref(),
                &self.entry.message,
                meter,
            )?;
            self.entry.kept = Some(verdict);
        }
        Ok(())
    }

    /// Whether the verdict that is kept has an error.
    pub(crate) fn has_error(&self) -> bool
        ensures { result ≡ has_error self.now.kept }
    {
        match &self.entry.kept {
            Some(verdict) => verdict.error().is_some(),
            None => false,
        }
    }

    /// Whether a text is expected of the message's verdict.
    pub(crate) fn is_expecting(&self) -> bool
        ensures { result ≡ is_some self.now.expected }
    {
        self.entry.expected.is_some()
    }

    /// Whether the verdict that is kept is not as it is expected to be.
    pub(crate) fn disagrees(&self, mailbox: &[u8]) -> bool
        ensures { result ≡ disagrees mailbox.now self.now.expected self.now.kept }
    {
        match &self.entry.kept {
            Some(verdict) => is_unlike(verdict, mailbox, self.entry.expected.as_ref()),
            None => false,
        }
    }
}
