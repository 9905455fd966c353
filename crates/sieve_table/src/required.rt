//! The capabilities that a script requires.
ghost use Rattle.std.specs.Prelude.{◌≡◌, ◌||◌};
ghost use Rattle.sieve_table.specs.Capability.{same_capability};
ghost use Rattle.sieve_table.specs.Required as spec;
ghost use Rattle.sieve_table.specs.view.Required.{required_as};

use crate::capability::{CAPABILITIES, Capability, capability_named};

/// The set of capabilities that a script requires. Commands, tests, tags and arguments may need one
/// (RFC 5228, 2.10.5).
#[derive(Clone, Copy)]
pub struct Required {
    /// Whether each capability is named, in the order of `Capability`.
    named: [bool; CAPABILITIES.len()],
}

impl Required {
    /// The empty set: no `require` names a capability.
    pub fn nothing() -> Required
        ensures { required_as result ≡ spec.nothing_required }
    {
        Required {
            named: [false; CAPABILITIES.len()],
        }
    }

    /// Whether a `require` names the capability.
    fn is_named(self, capability: Capability) -> bool
        ensures { result ≡ required_as self capability }
    {
        self.named[capability as usize]
    }

    /// Whether a capability is required, or is a comparator that need not be (RFC 5228, 2.7.3).
    pub fn has(self, capability: Capability) -> bool
        ensures { result ≡ spec.is_required (required_as self) capability }
    {
        self.is_named(capability) || capability.is_always_there()
    }

    /// The set with one more capability.
    fn with(self, capability: Capability) -> Required
        ensures { required_as result
            ≡ (λ other. required_as self other || same_capability capability other) }
    {
        let mut required = self;
        required.named[capability as usize] = true;
        required
    }

    /// The set with the capability that a string of a `require` names (RFC 5228, 3.2). If the
    /// string names none, the set is the same.
    pub fn with_name(self, name: &[u8]) -> Required
        ensures { required_as result ≡ spec.requiring (required_as self) name.now }
    {
        match capability_named(name) {
            Some(capability) => self.with(capability),
            None => self,
        }
    }
}
