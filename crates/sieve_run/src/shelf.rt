//! A plain library: scripts by their names.
ghost use Rattle.std.specs.Prelude.{◌≡◌, ◌<◌, ◌≤◌, IfOk, Some, length};
ghost use Rattle.sieve_limits.specs.Limits.{name_limit};
ghost use Rattle.sieve_profile.specs.view.Profile.{profile_as};
ghost use Rattle.sieve_profile.specs.Profile as profiles;
ghost use Rattle.sieve_run.specs.Library.{lookup_of};
ghost use Rattle.sieve_run.specs.view.Entry.{IsEntry, entry_text};
ghost use Rattle.sieve_run.specs.view.Found.{FoundAs};

use crate::library::{Found, Library};
use crate::script::Script;
use indexmap::IndexMap;
use octets::Octets;
use script_names::ScriptName;
use sieve_limits::MAX_TEXT;
use sieve_profile::Profile;
use std::alloc::{AllocError, Global};
use std::marker::Model;

/// An entry of a shelf.
#[derive(Drop)]
enum Shelved {
    Script(Script),
    /// A text that is too long for a script.
    TooLong(Octets),
}

impl Shelved {
    /// Makes an entry of a text of any length. The text is read and checked if it isn't too long
    /// for a script.
    fn new(alloc: Global, profile: Profile, text: &[u8]) -> Result<Shelved, AllocError>
        ensures entry { IfOk result (λ entry. IsEntry (profile_as profile) entry) }
        ensures text { IfOk result (λ entry. entry_text entry ≡ text.now) }
    {
        let octets = Octets::copied(alloc, text)?;
        if text.len() > MAX_TEXT {
            Ok(Shelved::TooLong(octets))
        } else {
            Ok(Shelved::Script(Script::new(alloc, profile, octets)?))
        }
    }

    /// The answer of a library that has this entry.
    fn found(&self) -> Found<'_>
        ensures { (profile : profiles.Profile) → IsEntry profile self.now
            → FoundAs result (lookup_of profile (Some (entry_text self.now))) }
    {
        match self {
            Shelved::Script(script) => script.found(),
            Shelved::TooLong(_) => Found::Invalid,
        }
    }
}

/// Scripts by their names, all under one profile. Contracts see the profile and the names, each
/// with its text.
#[derive(Drop)]
pub struct Shelf {
    alloc: Global,
    profile: Profile,
    scripts: IndexMap<ScriptName, Shelved>,
}

impl Model for Shelf {
    ghost use Rattle.sieve_profile.specs.view.Profile.{profile_as};
    ghost use Rattle.sieve_run.specs.Shelf.{ShelfState};
    ghost use Rattle.sieve_run.specs.view.Entry.{AreEntries, texts_of};

    ghost Value = { ShelfState };

    ghost view = { λ a. record { profile = profile_as a.profile; scripts = texts_of a.scripts.entries } };

    ghost invariant = { λ a. AreEntries (profile_as a.profile) a.scripts.entries };
}

impl Shelf {
    ghost use Rattle.std.specs.Prelude.{[], OnErr, OnOk};
    ghost use Rattle.sieve_run.specs.Shelf.{with_text};

    /// Makes a shelf without scripts, under a profile.
    pub fn new(alloc: Global, profile: Profile) -> Shelf
        ensures { result ≡ record { profile = profile_as profile; scripts = [] } }
    {
        Shelf {
            alloc,
            profile,
            scripts: IndexMap::new(alloc),
        }
    }

    /// Keeps an entry at a name, in place of the entry there. Returns the entry that was there. An
    /// error changes nothing.
    fn replace(&mut self, name: ScriptName, entry: Shelved) -> Result<Option<Shelved>, AllocError>
        requires { IsEntry self.old.profile entry }
        ensures ok { OnOk result (self.new
            ≡ record self.old { scripts = with_text name (entry_text entry) self.old.scripts }) }
        ensures err { OnErr result (self.new ≡ self.old) }
    {
        Ok(self.scripts.insert(name, entry)?)
    }

    /// Puts a text of any length at a name of at most 1,024 octets, in place of the text there. An
    /// error is out of memory, and changes nothing.
    pub fn add(&mut self, name: &ScriptName, text: &[u8]) -> Result<(), AllocError>
        requires { length name.now.name ≤ name_limit }
        ensures ok { OnOk result (self.new
            ≡ record self.old { scripts = with_text name.now text.now self.old.scripts }) }
        ensures err { OnErr result (self.new ≡ self.old) }
    {
        let entry = Shelved::new(self.alloc, self.profile, text)?;
        let name = name.copy(self.alloc)?;
        self.replace(name, entry)?;
        Ok(())
    }
}

impl Library for Shelf {
    ghost use Rattle.sieve_run.specs.Shelf.{text_on};

    ghost profile = { λ shelf. shelf.profile };

    ghost texts = { λ shelf. text_on shelf.scripts };

    fn profile(&self) -> Profile {
        self.profile
    }

    fn find(&self, name: &ScriptName) -> Found<'_> {
        match self.scripts.get(name) {
            None => Found::Missing,
            Some(entry) => entry.found(),
        }
    }
}
