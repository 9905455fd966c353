//! Flags, equal and hashed in any case of letters (RFC 5232, section 2).
ghost use Rattle.std.specs.Prelude.{◌≡◌, IfOk, fold};
ghost use Rattle.match_text.specs.Comparator.{ascii_casemap, same};
ghost use Rattle.flag_lists.specs.view.Hashing.{flag_hash, same_alike, same_equiv, same_per};
ghost use Rattle.std.specs.Cmp.{on_equiv, partial_equiv_from_equiv};

use indexmap::Equivalent;
use match_text::{AsciiCasemap, Comparator, is};
use octets::Octets;
use std::alloc::{AllocError, Global};
use std::hash::{Hash, Hasher};
use std::marker::Model;

/// A flag as it is spelled. Two are equal if they are under `i;ascii-casemap`.
#[derive(Drop)]
pub(crate) struct Flag {
    spelling: Octets,
}

impl Model for Flag {
    ghost use Rattle.std.specs.Prelude.{List, ℕ};

    ghost Value = { List ℕ };

    ghost view = { λ f. f.spelling };
}

impl Flag {
    /// A flag with a copy of a spelling.
    pub(crate) fn copied(alloc: Global, spelling: &[u8]) -> Result<Flag, AllocError>
        ensures { IfOk result (λ flag. flag ≡ spelling.now) }
    {
        Ok(Flag {
            spelling: Octets::copied(alloc, spelling)?,
        })
    }

    /// The octets of the spelling.
    pub(crate) fn as_slice(&self) -> &[u8]
        ensures { result.now ≡ self.now }
    {
        self.spelling.as_slice()
    }
}

impl PartialEq for Flag {
    ghost eq = { same ascii_casemap };

    ghost laws = { same_per };

    fn eq(&self, other: &Flag) -> bool {
        is::<AsciiCasemap>(self.as_slice(), other.as_slice())
    }
}

impl Eq for Flag {
    ghost laws = { same_equiv };
}

impl Hash for Flag {
    ghost hash_input = { flag_hash };

    ghost respects_eq = { same_alike.fed };

    fn hash<H: Hasher>(&self, state: &mut H) {
        write_folded(self.as_slice(), state);
    }
}

/// A spelling to look for, which need not be copied.
#[derive(Clone, Copy)]
pub(crate) struct SoughtFlag<'a> {
    pub(crate) spelling: &'a [u8],
}

impl PartialEq for SoughtFlag<'_> {
    ghost eq = { λ a b. same ascii_casemap a.spelling.now b.spelling.now };

    ghost laws = { partial_equiv_from_equiv (on_equiv (λ sought. sought.spelling.now) same_equiv) };

    fn eq(&self, other: &Self) -> bool {
        is::<AsciiCasemap>(self.spelling, other.spelling)
    }
}

impl Eq for SoughtFlag<'_> {
    ghost laws = { on_equiv (λ sought. sought.spelling.now) same_equiv };
}

impl Hash for SoughtFlag<'_> {
    ghost hash_input = { λ sought. flag_hash sought.spelling.now };

    ghost respects_eq = { λ a b alike. same_alike.fed a.spelling.now b.spelling.now alike };

    fn hash<H: Hasher>(&self, state: &mut H) {
        write_folded(self.spelling, state);
    }
}

impl Equivalent<Flag> for SoughtFlag<'_> {
    ghost equivalent = { λ sought flag. same ascii_casemap sought.spelling.now flag };

    ghost respects_hash = { λ sought flag alike. same_alike.fed sought.spelling.now flag alike };

    ghost respects_eq = { λ sought x y. same_equiv.congr sought.spelling.now x y };

    fn equivalent(&self, flag: &Flag) -> bool {
        is::<AsciiCasemap>(self.spelling, flag.as_slice())
    }
}

/// Feeds a hasher the number of the octets, and then the octets in upper case.
fn write_folded<H: Hasher>(octets: &[u8], state: &mut H)
    ensures { state.new ≡ fold H.write state.old (flag_hash octets.now) }
{
    state.write_usize(octets.len());
    for octet in octets {
        state.write_u8(AsciiCasemap::fold(*octet));
    }
}
