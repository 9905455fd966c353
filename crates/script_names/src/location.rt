//! The place where a script is kept.
ghost use Rattle.std.specs.Prelude.{◌≡◌};
ghost use Rattle.script_names.specs.Name.{location_word};

/// The locations of scripts: those of one user, and those of the whole site (RFC 6609, 3.2).
#[derive(Clone, Copy, PartialEq, Eq, PartialOrd, Ord, Hash)]
pub enum Location {
    /// The scripts of one user.
    Personal,
    /// The scripts of the whole site.
    Global,
}

impl Location {
    /// The word of the location, without the colon of its tag (RFC 6609, 3.2).
    pub fn word(self) -> &'static [u8]
        ensures { result.now ≡ location_word self }
    {
        match self {
            Location::Personal => b"personal",
            Location::Global => b"global",
        }
    }
}
