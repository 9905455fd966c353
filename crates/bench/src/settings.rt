//! Edits of settings.
ghost use Rattle.std.specs.Prelude.{None, Some};
ghost use Rattle.bench.specs.Bench.{Makes, TriesInPlace};
ghost use Rattle.bench.specs.Content as edit;
ghost use Rattle.bench.specs.declared.setting.MessageSetting.TheVariants as own;
ghost use Rattle.bench.specs.declared.setting.Setting.TheVariants as common;

use crate::bench::Bench;
use crate::fault::EditFault;
use crate::marking::forget_all;
use crate::messages::give;
use crate::refusal::{refuse_for_one, refuse_setting};
use crate::setting::{MessageSetting, Setting};
use date_text::Clock;
use octets::Octets;
use script_names::ScriptName;
use sieve_run::Addresses;

impl Bench {
    /// Makes a setting that all messages are judged with. Makes all of them stale.
    pub fn set(&mut self, setting: Setting) -> Result<(), EditFault>
        ensures { TriesInPlace (edit.set_for_all setting) result self.old self.new }
    {
        refuse_setting(&setting)?;
        setting.apply(&mut self.main, &mut self.envelope);
        forget_all(&mut self.messages);
        Ok(())
    }

    /// Makes a setting that a message has beside its octets. Where a run sees it, that message is
    /// stale, and no other.
    #[tactic(auto, using(crate::proofs::Entries::entries))]
    pub fn set_for(&mut self, id: &[u8], setting: MessageSetting) -> Result<(), EditFault>
        ensures { TriesInPlace (edit.set_for_one id.now setting) result self.old self.new }
    {
        refuse_for_one(&self.messages, id, &setting)?;
        give(&mut self.messages, id, setting);
        Ok(())
    }

    /// Makes a script main, whether or not it is there.
    pub fn set_main(&mut self, name: ScriptName) -> Result<(), EditFault>
        ensures { TriesInPlace
            (edit.set_for_all (common.Main (Some name))) result self.old self.new }
    {
        self.set(Setting::Main(Some(name)))
    }

    /// Leaves no script main.
    pub fn clear_main(&mut self)
        ensures { Makes (edit.set_for_all (common.Main None)) self.old self.new }
    {
        let _made = self.set(Setting::Main(None));
    }

    /// Sets the addresses of the sender and of the recipient.
    pub fn set_envelope(&mut self, from: Octets, to: Octets) -> Result<(), EditFault>
        ensures { TriesInPlace (edit.set_for_all
            (common.Addresses (record { from = from; to = to }))) result self.old self.new }
    {
        self.set(Setting::Addresses(Addresses { from, to }))
    }

    /// Sets the mailbox that mail is kept in.
    pub fn set_mailbox(&mut self, mailbox: Octets) -> Result<(), EditFault>
        ensures { TriesInPlace
            (edit.set_for_all (common.Mailbox mailbox)) result self.old self.new }
    {
        self.set(Setting::Mailbox(mailbox))
    }

    /// Sets the list of mailboxes that `mailboxexists` asks (RFC 5490, section 3.1), as
    /// [`Setting::Mailboxes`] has it.
    pub fn set_mailboxes(&mut self, text: Octets) -> Result<(), EditFault>
        ensures { TriesInPlace (edit.set_for_all (common.Mailboxes text)) result self.old self.new }
    {
        self.set(Setting::Mailboxes(text))
    }

    /// Sets the clock (RFC 5260, sections 4.1 and 5), as [`Setting::Clock`] has it.
    pub fn set_clock(&mut self, clock: Clock)
        ensures { Makes (edit.set_for_all (common.Clock (Some clock))) self.old self.new }
    {
        let _made = self.set(Setting::Clock(Some(clock)));
    }

    /// Leaves no clock, also where there was none. No `currentdate` finds a date then (RFC 5260,
    /// section 5).
    pub fn clear_clock(&mut self)
        ensures { Makes (edit.set_for_all (common.Clock None)) self.old self.new }
    {
        let _made = self.set(Setting::Clock(None));
    }

    /// Expects a text of a message's verdict, in place of the one that was expected. Each report
    /// says whether the verdict's lines are those of the text, as `Verdict::agrees` does. Makes no
    /// message stale.
    pub fn set_expected(&mut self, id: &[u8], text: Octets) -> Result<(), EditFault>
        ensures { TriesInPlace
            (edit.set_for_one id.now (own.Expected (Some text))) result self.old self.new }
    {
        self.set_for(id, MessageSetting::Expected(Some(text)))
    }

    /// Expects no text of a message's verdict any more, also where none was expected. Makes no
    /// message stale.
    pub fn clear_expected(&mut self, id: &[u8]) -> Result<(), EditFault>
        ensures { TriesInPlace
            (edit.set_for_one id.now (own.Expected None)) result self.old self.new }
    {
        self.set_for(id, MessageSetting::Expected(None))
    }

    /// Gives a message addresses of its own, each of 1,024 octets at most. It is judged by these in
    /// place of the bench's. Makes that message stale, and no other.
    pub fn set_message_envelope(
        &mut self,
        id: &[u8],
        from: Octets,
        to: Octets,
    ) -> Result<(), EditFault>
        ensures { TriesInPlace (edit.set_for_one id.now
            (own.Addresses (Some (record { from = from; to = to })))) result self.old self.new }
    {
        let addresses = Addresses { from, to };
        self.set_for(id, MessageSetting::Addresses(Some(addresses)))
    }

    /// Leaves a message no addresses of its own, also where it had none. It is judged by the
    /// bench's. Makes that message stale, and no other.
    pub fn clear_message_envelope(&mut self, id: &[u8]) -> Result<(), EditFault>
        ensures { TriesInPlace
            (edit.set_for_one id.now (own.Addresses None)) result self.old self.new }
    {
        self.set_for(id, MessageSetting::Addresses(None))
    }
}
