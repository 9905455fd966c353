//! The names of scripts.
ghost use Rattle.std.specs.Prelude.{◌≡◌, IfOk};

use crate::location::Location;
use octets::Octets;
use std::alloc::{AllocError, Global};

/// The name of a script: the location that it is kept in, and its octets there. Personal names come
/// first. Names of one location are in the order of their octets.
#[derive(Drop, PartialEq, Eq, PartialOrd, Ord, Hash)]
pub struct ScriptName {
    /// The location that the script is kept in.
    pub location: Location,
    /// The octets of the name, of any values.
    pub name: Octets,
}

impl ScriptName {
    /// The name of these octets in a location (RFC 6609, 3.2).
    pub fn new(location: Location, name: Vec<u8>) -> ScriptName
        ensures { result ≡ record { location = location; name = name.items } }
    {
        ScriptName {
            location,
            name: Octets::from_vec(name),
        }
    }

    /// A copy of the name. Answers the error when out of memory.
    pub fn copy(&self, alloc: Global) -> Result<ScriptName, AllocError>
        ensures { IfOk result (λ copy. copy ≡ self.now) }
    {
        Ok(ScriptName {
            location: self.location,
            name: Octets::copied(alloc, self.name.as_slice())?,
        })
    }
}
