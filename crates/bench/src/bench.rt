//! The bench: its edits, its report and the verdicts that it keeps.
ghost use Rattle.octets.specs.Octet.{is_among};
ghost use Rattle.std.specs.Prelude.{◌≡◌, ⊤, [], IfOk, OnOk, IfErr, length};
ghost use Rattle.std.specs.Map as map;
ghost use Rattle.std.specs.Option.{option_copied};
ghost use Rattle.bench.specs.Bench.{RefusedAmong, Tries, TriesInPlace, verdict_at};
ghost use Rattle.bench.specs.Edits.{AreDistinctIds};
ghost use Rattle.bench.specs.Stale.{ids_where};
ghost use Rattle.devices.specs.Writers.{Wrote, WroteFront};
ghost use Rattle.sieve_profile.specs.Profile.{empty_profile};
ghost use Rattle.sieve_run.specs.Library.{found_at, library_of};
ghost use Rattle.sieve_run.specs.Meter.{runs_after};
ghost use Rattle.sieve_run.specs.view.Found.{FoundAs};
ghost use Rattle.bench.specs.Report.{report_text};
ghost use Rattle.bench.specs.Test.{is_clean};
ghost use Rattle.bench.specs.view.ReportFault.{MatchReportFault};
ghost use Rattle.bench.specs.Content.{new_content, text_at};
ghost use Rattle.bench.specs.Content as edit;

use crate::entry::EntryBox;
use crate::fault::{EditFault, ReportFault};
use crate::marking::forget_readers;
use crate::message::message_of;
use crate::messages::put;
use crate::refusal::{
    refuse_absent, refuse_message, refuse_remove_script, refuse_rename, refuse_script,
};
use crate::report::{is_clean, run_stale, write_report};
use crate::scripts::Scripts;
use crate::site::Site;
use devices::Sink;
use named_list::NamedList;
use octets::Octets;
use script_names::ScriptName;
use sieve_profile::Profile;
use sieve_run::{Envelope, Found, Meter, Verdict, find};
use std::alloc::{AllocError, Global};
use std::marker::Model;

/// Scripts beside sample messages, with the main script's name and the envelope. It keeps the
/// verdicts that reports found and that no edit has touched since. A message without such a verdict
/// is stale: the next report runs it. Contracts see the bench's content as plain data, and which
/// messages are stale.
#[derive(Drop)]
pub struct Bench {
    pub(crate) alloc: Global,
    pub(crate) main: Option<ScriptName>,
    pub(crate) envelope: Envelope,
    scripts: Scripts,
    pub(crate) messages: NamedList<EntryBox>,
}

impl Model for Bench {
    ghost use Rattle.std.specs.Prelude.{nat_eq};
    ghost use Rattle.std.specs.List.{IsDistinct};
    ghost use Rattle.std.specs.Map.{keys_of};
    ghost use lib.Pointwise.{pointwise};
    ghost use Rattle.bench.specs.Bench.{BenchState};
    ghost use Rattle.bench.specs.Content.{Content};
    ghost use Rattle.bench.specs.Report.{verdict_by};
    ghost use Rattle.bench.specs.view.Entry.{KeepsDue, messages_of, stale_of};
    ghost use Rattle.bench.specs.view.Site.{site_by};

    ghost Value = { BenchState };

    ghost view = { λ b. record { content = record { profile = b.scripts.profile; main = b.main; envelope = b.envelope; scripts = b.scripts.scripts; messages = messages_of b.messages.entries }; stale = stale_of b.messages.entries } };

    ghost invariant = { λ b. KeepsDue (verdict_by (site_by b.main b.envelope b.scripts)) b.messages.entries × IsDistinct (pointwise nat_eq) (keys_of b.messages.entries) };
}

impl Bench {
    /// The allocator of all that the bench holds.
    pub fn allocator(&self) -> Global {
        self.alloc
    }

    /// The profile that the bench was made with.
    pub fn profile(&self) -> Profile
        ensures { result ≡ self.now.content.profile }
    {
        self.scripts.profile()
    }

    /// A bench of the empty profile with no scripts, no messages, no main script and no clock. Its
    /// envelope is empty, its mailbox is `INBOX`, and there are no other mailboxes.
    pub fn new(alloc: Global) -> Result<Bench, AllocError>
        ensures content { IfOk result (λ bench. bench.content ≡ new_content empty_profile) }
        ensures stale { IfOk result (λ bench. bench.stale ≡ []) }
    {
        Bench::with_profile(alloc, Profile::new())
    }

    /// A bench of a profile with no scripts, no messages, no main script and no clock. Its envelope
    /// is empty, its mailbox is `INBOX`, and there are no other mailboxes. It keeps its profile.
    #[tactic(auto, unfolding(crate::specs::view::Entry::messages_of))]
    pub fn with_profile(alloc: Global, profile: Profile) -> Result<Bench, AllocError>
        ensures content { IfOk result (λ bench. bench.content ≡ new_content profile) }
        ensures stale { IfOk result (λ bench. bench.stale ≡ []) }
    {
        let envelope = Envelope {
            from: Octets::from_vec(Vec::new(alloc)),
            to: Octets::from_vec(Vec::new(alloc)),
            mailbox: Octets::copied(alloc, b"INBOX")?,
            mailboxes: Octets::from_vec(Vec::new(alloc)),
            clock: None,
        };
        Ok(Bench {
            alloc,
            main: None,
            envelope,
            scripts: Scripts::new(alloc, profile),
            messages: NamedList::new(alloc),
        })
    }

    /// Puts a script's text at a name, in place of the one there. A text with a fault is kept, and
    /// reported.
    pub fn put_script(&mut self, name: ScriptName, text: Octets) -> Result<(), EditFault>
        ensures { Tries (edit.put_script name text) result self.old self.new }
    {
        refuse_script(&self.scripts, &name, text.as_slice())?;
        self.scripts
            .put(self.alloc, &mut self.messages, name, text)?;
        Ok(())
    }

    /// Puts a message's octets at an id. A new id goes last: nothing is expected of its verdict,
    /// and it has no addresses of its own. A present one keeps its place, the text that is
    /// expected, and its own addresses.
    #[tactic(auto, using(crate::proofs::Entries::entries))]
    pub fn put_message(&mut self, id: Octets, bytes: Octets) -> Result<(), EditFault>
        ensures { Tries (edit.put_message id bytes) result self.old self.new }
    {
        refuse_message(&self.messages, &id, bytes.as_slice())?;
        let message = message_of(self.alloc, bytes)?;
        put(self.alloc, &mut self.messages, id, message)?;
        Ok(())
    }

    /// Renames a script to a name that no script has. The main script's name stays as it is.
    pub fn rename_script(&mut self, from: &ScriptName, to: ScriptName) -> Result<(), EditFault>
        ensures { Tries (edit.rename_script from.now to) result self.old self.new }
    {
        refuse_rename(&self.scripts, from, &to)?;
        self.scripts
            .rename(self.alloc, &mut self.messages, from, to)?;
        forget_readers(&mut self.messages, from);
        Ok(())
    }

    /// Removes a script.
    pub fn remove_script(&mut self, name: &ScriptName) -> Result<(), EditFault>
        ensures { TriesInPlace (edit.remove_script name.now) result self.old self.new }
    {
        refuse_remove_script(&self.scripts, name)?;
        self.scripts.remove(name);
        forget_readers(&mut self.messages, name);
        Ok(())
    }

    /// Removes a message, the text that is expected of it, and its own addresses. The others stay
    /// in their order.
    #[tactic(auto, using(crate::proofs::Entries::entries))]
    pub fn remove_message(&mut self, id: &[u8]) -> Result<(), EditFault>
        ensures { TriesInPlace (edit.remove_message id.now) result self.old self.new }
    {
        refuse_absent(&self.messages, id)?;
        self.messages.remove(id);
        Ok(())
    }

    /// The verdict on the message of an id, as a report found it. There is none exactly where there
    /// is no such message or it is stale.
    pub fn verdict(&self, id: &Octets) -> Option<&Verdict>
        ensures due { option_copied result ≡ verdict_at self.now id.now }
        // No two messages have one id.
        ensures ids { AreDistinctIds (map.keys_of self.now.content.messages) }
        // The stale messages are some of those that are there, in the list's order. So each is
        // listed once.
        ensures listed { self.now.stale
            ≡ ids_where (λ message. is_among message.0 self.now.stale) self.now.content.messages }
    {
        match self.messages.get(id.as_slice()) {
            Some(entry) => entry.kept(),
            None => None,
        }
    }

    /// Runs the main script on each stale message, in the list's order, and writes the report. A
    /// report that is out of memory writes nothing, and the verdicts that were made are kept. One
    /// whose writer fails has written a front of the report, and all verdicts are kept. The
    /// scripts, the messages and the settings stay as they are. It is never out of memory where no
    /// message is stale.
    pub fn report<W: Sink>(&mut self, meter: &mut Meter, writer: &mut W) -> Result<(), ReportFault>
        ensures ok { OnOk result
            (Wrote W.contents W.fault_count writer.old writer.new (report_text self.old.content)) }
        // Nothing is written when out of memory, and a front of the report where the writer fails.
        ensures err { IfErr result (λ fault. MatchReportFault fault (writer.new ≡ writer.old)
            (WroteFront W.contents W.fault_count writer.old writer.new
            (report_text self.old.content))) }
        ensures content { self.new.content ≡ self.old.content }
        // Each stale message was run once, and none is stale. When out of memory, the first ones
        // were run.
        ensures stale { OnOk result (self.new.stale ≡ []) }
        ensures runs { OnOk result (meter.new ≡ runs_after (length self.old.stale) meter.old) }
        ensures at_fault { IfErr result (λ fault. MatchReportFault fault
            (RefusedAmong self.old.stale self.new.stale meter.old meter.new)
            ((self.new.stale ≡ []) × (meter.new ≡ runs_after (length self.old.stale) meter.old))) }
        ensures no_memory { self.old.stale ≡ []
            → IfErr result (λ fault. MatchReportFault fault ⊥ ⊤) }
    {
        let site = Site {
            main: self.main.as_ref(),
            envelope: &self.envelope,
            scripts: &self.scripts,
        };
        if run_stale(self.alloc, &site, &mut self.messages, meter).is_err() {
            return Err(ReportFault::NoMemory);
        }
        match write_report(&site, &self.messages, writer) {
            Ok(()) => Ok(()),
            Err(_) => Err(ReportFault::Write),
        }
    }

    /// Whether no script has a fault and no message an error.
    pub(crate) fn is_clean(&self) -> bool
        requires { self.now.stale ≡ [] }
        ensures { result ≡ is_clean self.now.content }
    {
        let site = Site {
            main: self.main.as_ref(),
            envelope: &self.envelope,
            scripts: &self.scripts,
        };
        is_clean(&site, &self.messages)
    }

    /// The code of a script, as an `include` (RFC 6609, section 3.2) of that name finds it. A name
    /// of more than 1,024 octets has none.
    pub fn code(&self, name: &ScriptName) -> Found<'_>
        ensures { FoundAs result (found_at
            (library_of self.now.content.profile (text_at self.now.content.scripts)) name.now) }
    {
        find(&self.scripts, name)
    }
}
