//! Where a run finds scripts.
ghost use Rattle.sieve_profile.specs.view.Profile.{profile_as};
ghost use Rattle.sieve_run.specs.Library.{lookup_of};
ghost use Rattle.sieve_run.specs.view.Found.{FoundAs};

use script_names::ScriptName;
use sieve_code::Code;
use sieve_profile::Profile;

/// The answer of a library for a name.
#[derive(Drop)]
pub enum Found<'a> {
    /// No script.
    Missing,
    /// A script with a fault, or a text past the limit of 1,048,576 octets.
    Invalid,
    /// The code of a script without a fault.
    Present(&'a Code),
}

/// Where a run finds scripts by their names. The texts and the profile decide what is found.
pub trait Library {
    ghost use Rattle.std.specs.Prelude.{◌≡◌, ℕ, List, Option};
    ghost use Rattle.script_names.specs.declared.name.ScriptName.{ScriptName};
    ghost use Rattle.sieve_profile.specs.Profile as profiles;

    /// The extensions that are known beside those that always are.
    ghost profile: { Self → profiles.Profile };

    /// The text at each name.
    ghost texts: { Self → ScriptName → Option (List ℕ) };

    /// The profile under which scripts are read, checked and run.
    fn profile(&self) -> Profile
        ensures { profile_as result ≡ profile self.now };

    /// The script at a name: its code, that it is invalid, or that there is none.
    fn find(&self, name: &ScriptName) -> Found<'_>
        ensures { FoundAs result (lookup_of (profile self.now) (texts self.now name.now)) };
}
