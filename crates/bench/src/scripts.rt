//! The scripts of a bench.
ghost use Rattle.std.specs.Prelude.{◌≡◌, ◌≤◌, [], IfOk, length, true};
ghost use Rattle.std.specs.BTreeMap.{is_at};
ghost use Rattle.std.specs.List.{list_all};
ghost use Rattle.std.specs.Map.{lookup};
ghost use Rattle.sieve_limits.specs.Limits.{text_limit};
ghost use Rattle.sieve_check.specs.Judgement.{judgement_of};
ghost use Rattle.script_names.specs.Name.{name_cmp};
ghost use Rattle.bench.specs.Test.{is_sound};

use crate::entry::EntryBox;
use crate::marking::forget_readers;
use named_list::NamedList;
use octets::Octets;
use script_names::ScriptName;
use sieve_profile::Profile;
use sieve_run::{Found, Library, Script};
use std::alloc::{AllocError, Global};
use std::collections::BTreeMap;
use std::marker::Model;

/// The scripts of a bench, in the order of their names, all of one profile. Contracts see the
/// profile and the names, each with its text.
#[derive(Drop)]
pub(crate) struct Scripts {
    profile: Profile,
    by_name: BTreeMap<ScriptName, Script>,
}

impl Model for Scripts {
    ghost use Rattle.bench.specs.view.Scripts.{AreOf, ScriptsState, texts_of};

    ghost Value = { ScriptsState };

    ghost view = { λ a. record { profile = a.profile; scripts = texts_of a.by_name.entries } };

    ghost invariant = { λ a. AreOf a.profile a.by_name.entries };
}

/// Whether a script has no fault.
fn is_sound(script: &Script) -> bool
    ensures { result ≡ is_sound (judgement_of script.now.profile script.now.text) }
{
    script.fault().is_none()
}

/// Whether none of these scripts has a fault.
fn are_all_sound(scripts: &BTreeMap<ScriptName, Script>) -> bool
    ensures { result
        ≡ list_all (λ e. is_sound (judgement_of e.1.profile e.1.text)) scripts.now.entries }
{
    scripts.iter().all(|(_, script)| is_sound(script))
}

impl Scripts {
    ghost use Rattle.std.specs.Prelude.{OnOk, OnErr, is_some};
    ghost use Rattle.bench.specs.Content.{text_at, with_script, without_script, with_renamed};
    ghost use Rattle.bench.specs.view.Scripts.{AreOf, script_at, texts_of};
    ghost use Rattle.bench.specs.view.Site.{ForgetsReaders};

    /// No scripts, of a profile.
    pub(crate) fn new(alloc: Global, profile: Profile) -> Scripts
        ensures { result ≡ record { profile = profile; scripts = [] } }
    {
        Scripts {
            profile,
            by_name: BTreeMap::new(alloc),
        }
    }

    /// The profile of all scripts.
    pub(crate) fn profile(&self) -> Profile
        ensures { result ≡ self.now.profile }
    {
        self.profile
    }

    /// The number of scripts.
    pub(crate) fn len(&self) -> usize
        ensures { result ≡ length self.now.scripts }
    {
        self.by_name.len()
    }

    /// The scripts in the order of their names.
    pub(crate) fn by_name(&self) -> &BTreeMap<ScriptName, Script>
        ensures texts { texts_of result.now.entries ≡ self.now.scripts }
        ensures profile { AreOf self.now.profile result.now.entries }
    {
        &self.by_name
    }

    /// Whether there is a script of that name.
    pub(crate) fn contains(&self, name: &ScriptName) -> bool
        ensures { result ≡ is_some (text_at self.now.scripts name.now) }
    {
        self.by_name.contains_key(name)
    }

    /// Whether no script has a fault.
    pub(crate) fn are_sound(&self) -> bool
        ensures { result
            ≡ list_all (λ e. is_sound (judgement_of self.now.profile e.1)) self.now.scripts }
    {
        are_all_sound(&self.by_name)
    }

    /// Keeps a script of the profile at a name, in place of the one there. Marks the messages stale
    /// whose runs looked the name up. An error changes nothing.
    fn keep(
        &mut self,
        messages: &mut NamedList<EntryBox>,
        name: ScriptName,
        script: Script,
    ) -> Result<(), AllocError>
        requires { script.profile ≡ self.old.profile }
        ensures ok { OnOk result (self.new
            ≡ record self.old { scripts = with_script name script.text self.old.scripts }) }
        ensures forgotten { OnOk result
            (ForgetsReaders name messages.old.entries messages.new.entries) }
        ensures err { OnErr result (self.new ≡ self.old) }
        ensures unmarked { OnErr result (messages.new.entries ≡ messages.old.entries) }
    {
        let entry = self.by_name.entry(name)?;
        forget_readers(messages, entry.key());
        entry.insert_entry(script).into_mut();
        Ok(())
    }

    /// A copy of the script of a name.
    fn copied(&self, alloc: Global, name: &ScriptName) -> Result<Option<Script>, AllocError>
        ensures { IfOk result (λ script. script ≡ script_at self.now name.now) }
    {
        match self.by_name.get(name) {
            None => Ok(None),
            Some(script) => Ok(Some(script.copy(alloc)?)),
        }
    }

    /// Puts a text at a name, in place of the one there. Marks the messages stale whose runs looked
    /// the name up. An error changes nothing.
    pub(crate) fn put(
        &mut self,
        alloc: Global,
        messages: &mut NamedList<EntryBox>,
        name: ScriptName,
        text: Octets,
    ) -> Result<(), AllocError>
        requires { length text ≤ text_limit }
        ensures ok { OnOk result (self.new
            ≡ record self.old { scripts = with_script name text self.old.scripts }) }
        ensures forgotten { OnOk result
            (ForgetsReaders name messages.old.entries messages.new.entries) }
        ensures err { OnErr result (self.new ≡ self.old) }
        ensures unmarked { OnErr result (messages.new.entries ≡ messages.old.entries) }
    {
        let script = Script::new(alloc, self.profile, text)?;
        self.keep(messages, name, script)
    }

    /// Puts the text at one name at another, and then removes the first name. Marks the messages
    /// stale whose runs looked the other up. An error changes nothing.
    pub(crate) fn rename(
        &mut self,
        alloc: Global,
        messages: &mut NamedList<EntryBox>,
        from: &ScriptName,
        to: ScriptName,
    ) -> Result<(), AllocError>
        requires { is_some (text_at self.old.scripts from.now) ≡ true }
        ensures ok { OnOk result (self.new ≡ record self.old {
          scripts = with_renamed from.now
              (text_at self.old.scripts from.now) to self.old.scripts;
        }) }
        ensures forgotten { OnOk result
            (ForgetsReaders to messages.old.entries messages.new.entries) }
        ensures err { OnErr result (self.new ≡ self.old) }
        ensures unmarked { OnErr result (messages.new.entries ≡ messages.old.entries) }
    {
        let Some(script) = self.copied(alloc, from)? else {
            unreachable!("the script is there");
        };
        self.keep(messages, to, script)?;
        self.remove(from);
        Ok(())
    }

    /// Removes the script of a name, if there is one.
    pub(crate) fn remove(&mut self, name: &ScriptName)
        ensures { self.new
            ≡ record self.old { scripts = without_script name.now self.old.scripts } }
    {
        let removed = self.by_name.remove(name);
        drop(removed);
    }
}

impl Library for Scripts {
    ghost use Rattle.bench.specs.Content.{text_at};

    ghost profile = { λ scripts. scripts.profile };

    ghost texts = { λ scripts. text_at scripts.scripts };

    fn profile(&self) -> Profile {
        self.profile
    }

    fn find(&self, name: &ScriptName) -> Found<'_> {
        match self.by_name.get(name) {
            None => Found::Missing,
            Some(script) => script.found(),
        }
    }
}
