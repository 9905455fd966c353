//! The keys by which the slots of a list are found.
ghost use Rattle.std.specs.Prelude.{◌≡◌};
ghost use Rattle.named_list.specs.Slots.{is_name, is_sought};
ghost use Rattle.std.proofs.Common.{rules};
ghost use Rattle.std.specs.Cmp.Rules.{comparing, hashing};

use indexmap::Equivalent;
use octets::Octets;

/// The key of a slot: the name of its value, or the number of a gap, where a value was.
#[derive(PartialEq, Eq, Hash, Drop)]
pub(crate) enum SlotKey {
    Name(Octets),
    Gap(usize),
}

/// A key to look a slot up by, of octets that need not be copied.
#[derive(Clone, Copy, PartialEq, Eq, Hash)]
pub(crate) enum SoughtKey<'a> {
    Name(&'a [u8]),
    Gap(usize),
}

impl Equivalent<SlotKey> for SoughtKey<'_> {
    ghost equivalent = { is_sought };

    ghost respects_hash = { Prim.search (hashing, rules) };

    ghost respects_eq = { Prim.search (comparing, rules) };

    fn equivalent(&self, key: &SlotKey) -> bool {
        match (self, key) {
            (SoughtKey::Name(octets), SlotKey::Name(name)) => *octets == name.as_slice(),
            (SoughtKey::Gap(sought), SlotKey::Gap(number)) => sought == number,
            _ => false,
        }
    }
}

/// Whether a slot's key is a name.
pub(crate) fn is_name(key: &SlotKey) -> bool
    ensures { result ≡ is_name key.now }
{
    match key {
        SlotKey::Name(_) => true,
        SlotKey::Gap(_) => false,
    }
}
