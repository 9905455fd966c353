//! Sets of extensions.
ghost use Rattle.std.specs.Prelude.{◌≡◌};
ghost use Rattle.std.specs.List.{list_any};
ghost use Rattle.std.specs.Option.{option_map};
ghost use Rattle.sieve_profile.specs.Profile.{empty_profile, has, with_each, with_extension, with_named};
ghost use Rattle.sieve_profile.specs.Extension.{asked_by, asks_for, extensions};
ghost use Rattle.sieve_profile.specs.view.Profile.{profile_as};

use crate::extension::{EXTENSIONS, Extension, asks_for};

/// The set of the extensions that a bench knows.
#[derive(Clone, Copy)]
pub struct Profile {
    /// Whether each extension was asked for, in their order.
    asked: [bool; EXTENSIONS.len()],
}

/// Whether a name asks for an extension.
fn is_asking(name: &[u8]) -> bool
    ensures { result ≡ list_any (asks_for name.now) extensions }
{
    EXTENSIONS
        .iter()
        .any(|extension| asks_for(name, *extension))
}

impl Profile {
    /// The empty profile.
    pub fn new() -> Profile
        ensures { profile_as result ≡ empty_profile }
    {
        Profile {
            asked: [false; EXTENSIONS.len()],
        }
    }

    /// Whether an extension is in it.
    pub fn has(self, extension: Extension) -> bool
        ensures { result ≡ has (profile_as self) extension }
    {
        self.asked[extension as usize]
    }

    /// The profile with an extension, which may be in it already.
    pub fn with(self, extension: Extension) -> Profile
        ensures { profile_as result ≡ with_extension (profile_as self) extension }
    {
        let mut profile = self;
        profile.asked[extension as usize] = true;
        profile
    }

    /// The profile with the extension, or the set of extensions, that a name asks for. None where
    /// it asks for none.
    pub fn with_named(self, name: &[u8]) -> Option<Profile>
        ensures { option_map profile_as result ≡ with_named (profile_as self) name.now }
    {
        if is_asking(name) {
            Some(self.with_each(name))
        } else {
            None
        }
    }

    /// The profile with each extension that a name asks for.
    fn with_each(self, name: &[u8]) -> Profile
        ensures { profile_as result ≡ with_each (profile_as self) (asked_by name.now) }
    {
        let mut profile = self;
        for extension in EXTENSIONS {
            if asks_for(name, extension) {
                profile = profile.with(extension);
            }
        }
        profile
    }
}
