//! Comparators, and how they compare two texts (RFC 4790, section 9).
ghost use Rattle.std.specs.Prelude.{◌≡◌, ◌==◌, ◌↔◌, ◌≤◌, ℕ, IfOk, IsOk, IsTrue, length, map, true};
ghost use Rattle.std.proofs.Common.{rules};
ghost use Rattle.memchr.specs.Find.{IsFirstByte};
ghost use Rattle.match_text.specs.Comparator.{IsPart, Same, ascii_casemap, collation_named, is_part, octet, same};
ghost use Rattle.match_text.specs.view.Search.{is_in_place};

use memchr::{memchr2, memmem};
use std::alloc::{AllocError, Global};
use std::marker::Model;

/// A comparator that folds octets, which says which octets are equal (RFC 4790, section 9).
///
/// Two octets are equal if [`fold`](Comparator::fold) takes them to the same octet. A comparator
/// needs no more than its fold. It may have a faster way to compare or to search.
pub trait Comparator {
    /// The fold, as contracts see it.
    ghost folded: { ℕ → ℕ };

    /// The octet that stands for all octets equal to `b`.
    fn fold(b: u8) -> u8
        ensures { result ≡ folded b };

    /// Whether the texts have equal lengths and equal octets.
    fn is(value: &[u8], key: &[u8]) -> bool
        ensures { IsTrue result ↔ Same folded value.now key.now }
    {
        if value.len() != key.len() {
            return false;
        }
        for (a, b) in value.iter().zip(key) {
            if Self::fold(*a) != Self::fold(*b) {
                return false;
            }
        }
        true
    }

    /// Whether some slice of `value` is the same as `key`.
    ///
    /// This default tries each place in turn.
    fn contains(value: &[u8], key: &[u8]) -> bool
        ensures { IsTrue result ↔ IsPart folded value.now key.now }
    {
        if value.len() < key.len() {
            return false;
        }
        for start in 0..value.len() - key.len() + 1 {
            if Self::is(&value[start..start + key.len()], key) {
                return true;
            }
        }
        false
    }

    /// The law of folding: to fold a folded octet again leaves it as it is.
    ghost settles: { (b : ℕ) → folded (folded b) ≡ folded b };
}

/// The comparator `i;octet` (RFC 4790, 9.3). Each octet is equal to itself alone.
#[derive(Clone, Copy)]
pub struct Octet;

impl Comparator for Octet {
    ghost folded = { octet };

    fn fold(octet: u8) -> u8 {
        octet
    }

    fn is(value: &[u8], key: &[u8]) -> bool {
        value == key
    }

    fn contains(value: &[u8], key: &[u8]) -> bool {
        memmem::find(value, key).is_some()
    }

    ghost settles = { λ b. Prim.search rules };
}

/// The comparator `i;ascii-casemap` (RFC 4790, 9.2). A to Z are equal to a to z.
#[derive(Clone, Copy)]
pub struct AsciiCasemap;

impl Comparator for AsciiCasemap {
    ghost folded = { ascii_casemap };

    fn fold(b: u8) -> u8 {
        match b {
            b'a'..=b'z' => b - (b'a' - b'A'),
            _ => b,
        }
    }

    fn contains(value: &[u8], key: &[u8]) -> bool {
        if key.is_empty() {
            return true;
        }
        let mut from = 0;
        while let Some(ahead) = find_letter(&value[from..], key[0]) {
            let start = from + ahead;
            if value.len() - start < key.len() {
                return false;
            }
            if Self::is(&value[start..start + key.len()], key) {
                return true;
            }
            from = start + 1;
        }
        false
    }

    ghost settles = { λ b. Prim.search rules };
}

/// The first place of `value` whose octet is equal to `b` under `i;ascii-casemap`. At most two
/// octets are equal to it.
fn find_letter(value: &[u8], b: u8) -> Option<usize>
    ensures { IsFirstByte (λ x. ascii_casemap x == ascii_casemap b) value.now result }
{
    memchr2(b.to_ascii_uppercase(), b.to_ascii_lowercase(), value)
}

/// The name of a comparator, if it is known only when the program runs (RFC 4790, section 9).
#[derive(Clone, Copy, Debug, PartialEq, Eq)]
pub enum Collation {
    /// `i;octet`, which is [`Octet`].
    Octet,
    /// `i;ascii-casemap`, which is [`AsciiCasemap`].
    Casemap,
    /// `i;ascii-numeric`, which compares numbers and has no fold (RFC 4790, 9.1).
    Numeric,
}

/// The comparator of that name, octet for octet (RFC 4790, section 9).
pub fn collation_named(name: &[u8]) -> Option<Collation>
    ensures { result ≡ collation_named name.now }
{
    if b"i;octet".as_slice() == name {
        Some(Collation::Octet)
    } else if b"i;ascii-casemap".as_slice() == name {
        Some(Collation::Casemap)
    } else if b"i;ascii-numeric".as_slice() == name {
        Some(Collation::Numeric)
    } else {
        None
    }
}

/// Whether `value` is `key` under the comparator: the match type `:is` (RFC 5228, 2.7.1).
pub fn is<C: Comparator>(value: &[u8], key: &[u8]) -> bool
    ensures same { IsTrue result ↔ Same C.folded value.now key.now }
    ensures exact { result ≡ same C.folded value.now key.now }
{
    C::is(value, key)
}

/// Whether some slice of `value` is `key` under the comparator: the match type `:contains` (RFC
/// 5228, 2.7.1).
pub fn contains<C: Comparator>(value: &[u8], key: &[u8]) -> bool
    ensures part { IsTrue result ↔ IsPart C.folded value.now key.now }
    ensures exact { result ≡ is_part C.folded value.now key.now }
{
    C::contains(value, key)
}

/// The length of the longest key that is looked for without copies, wherever it may begin.
const SHORT: usize = 64;

/// Whether the key is looked for without copies. It is if it is short, or if it can begin only
/// where the value does.
fn is_in_place(value: &[u8], key: &[u8]) -> bool
    ensures { result ≡ is_in_place (length value.now) (length key.now) }
{
    key.len() <= SHORT || value.len() <= key.len()
}

/// Folds octets in place.
fn fold_all<C: Comparator>(octets: &mut Vec<u8>)
    ensures { octets.new.items ≡ map C.folded octets.old.items }
{
    for octet in octets.iter_mut() {
        *octet = C::fold(*octet);
    }
}

/// The folds of the octets.
pub(crate) fn folded<C: Comparator>(alloc: Global, octets: &[u8]) -> Result<Vec<u8>, AllocError>
    ensures { IfOk result (λ copy. copy.items ≡ map C.folded octets.now) }
{
    let mut copy = Vec::from_slice(alloc, octets)?;
    fold_all::<C>(&mut copy);
    Ok(copy)
}

/// As [`contains`], in time linear in the octets of `value` and `key`. For a key of at most 64
/// octets it succeeds, and for one that isn't shorter than the value. Any other is looked for in
/// folded copies, for which memory may be refused.
#[tactic(auto, using(crate::proofs::Folding::folded_part))]
pub fn contains_in<C: Comparator>(
    alloc: Global,
    value: &[u8],
    key: &[u8],
) -> Result<bool, AllocError>
    ensures exact { IfOk result (λ found. found ≡ is_part C.folded value.now key.now) }
    ensures in_place { is_in_place (length value.now) (length key.now) ≡ true → IsOk result }
{
    if is_in_place(value, key) {
        return Ok(contains::<C>(value, key));
    }
    let value = folded::<C>(alloc, value)?;
    let key = folded::<C>(alloc, key)?;
    Ok(contains::<Octet>(&value, &key))
}

/// A value in which keys are looked for, one after another, under `i;ascii-casemap`. It is folded
/// once, for the first key that needs it.
#[derive(Drop)]
pub struct SearchedValue<'a> {
    octets: &'a [u8],
    folded: Option<Vec<u8>>,
}

impl<'a> Model for SearchedValue<'a> {
    ghost use Rattle.std.specs.Prelude.{◌≡◌, IfSome, List, map, ℕ};
    ghost use Rattle.match_text.specs.Comparator.{ascii_casemap};

    ghost Value = { List ℕ };

    ghost view = { λ s. s.octets.now };

    ghost invariant = { λ s. IfSome s.folded (λ copy. copy.items ≡ map ascii_casemap s.octets.now) };
}

impl<'a> SearchedValue<'a> {
    /// The value of these octets, in which nothing was looked for yet.
    pub fn new(octets: &'a [u8]) -> SearchedValue<'a>
        ensures { result ≡ octets.now }
    {
        SearchedValue {
            octets,
            folded: None,
        }
    }

    /// The octets of the value.
    pub fn octets(&self) -> &'a [u8]
        ensures { result.now ≡ self.now }
    {
        self.octets
    }

    /// The folds of the octets. If they were made before, they are taken out.
    fn take_folded(&mut self, alloc: Global) -> Result<Vec<u8>, AllocError>
        ensures folds { IfOk result (λ copy. copy.items ≡ map ascii_casemap self.old) }
        ensures kept { self.new ≡ self.old }
    {
        match self.folded.take() {
            Some(copy) => Ok(copy),
            None => folded::<AsciiCasemap>(alloc, self.octets),
        }
    }

    /// Whether some slice of the value is `key`, as [`contains_in`] answers. The key may be folded
    /// in place, so it needs no copy. The first key that is folded takes memory for a copy of the
    /// value.
    #[tactic(auto, using(crate::proofs::Folding::folded_part, crate::proofs::Folding::folded_twice))]
    pub fn contains(&mut self, alloc: Global, key: &mut Vec<u8>) -> Result<bool, AllocError>
        ensures exact { IfOk result
            (λ found. found ≡ is_part ascii_casemap self.old key.old.items) }
        ensures kept { self.new ≡ self.old }
        ensures key { map ascii_casemap key.new.items ≡ map ascii_casemap key.old.items }
        ensures in_place { is_in_place (length self.old) (length key.old.items) ≡ true
            → IsOk result }
    {
        if is_in_place(self.octets, key) {
            return Ok(contains::<AsciiCasemap>(self.octets, key));
        }
        fold_all::<AsciiCasemap>(key);
        let value = self.take_folded(alloc)?;
        let found = contains::<Octet>(&value, key);
        self.folded = Some(value);
        Ok(found)
    }
}
