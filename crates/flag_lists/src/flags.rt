//! Lists of flags (RFC 5232, sections 2 and 3).
ghost use Rattle.std.specs.Prelude.{◌≡◌, ◌<◌, ◌≤◌, ◌↔◌, [], ◌∷◌, IfNone, IfOk, IfSome, IsOk, IsTrue, OnErr, OnOk, Some, SomeIndex, length, remove, slice_get, take, true};
ghost use Rattle.std.specs.List.{All};
ghost use Rattle.match_text.specs.Comparator.{ascii_casemap, octet, same};
ghost use Rattle.flag_lists.specs.Flags.{AreDistinct, has_flag, has_key, flag_list, flag_text, flag_union, flags_in};
ghost use Rattle.flag_lists.specs.Flags.{flags_of_texts, flags_without};
ghost use Rattle.match_text.specs.Order.{are_equal};
ghost use Rattle.octets.specs.view.Texts.{octets_of_each};

use crate::flag::{Flag, SoughtFlag};
use crate::flag_spelling::next_flag;
use indexmap::IndexSet;
use match_text::{Collation, Octet, equals, is};
use std::alloc::{AllocError, Global};
use std::borrow::CowSlice;
use std::marker::Model;

/// Flags in the order in which they came. No two are equal under `i;ascii-casemap`. Contracts see
/// their spellings.
#[derive(Drop)]
pub struct FlagList {
    flags: IndexSet<Flag>,
}

impl Model for FlagList {
    ghost use Rattle.std.specs.Prelude.{List, ℕ};
    ghost use Rattle.flag_lists.specs.Flags.{AreDistinct};

    ghost Value = { List (List ℕ) };

    ghost view = { λ l. l.flags.keys };

    ghost invariant = { λ l. AreDistinct l.flags.keys };
}

impl FlagList {
    /// A list of no flags.
    pub fn new(alloc: Global) -> FlagList
        ensures { result ≡ [] }
    {
        FlagList {
            flags: IndexSet::new(alloc),
        }
    }

    /// How many flags there are.
    pub fn len(&self) -> usize
        ensures length { result ≡ length self.now }
        ensures distinct { AreDistinct self.now }
    {
        self.flags.len()
    }

    /// Whether there are no flags.
    pub fn is_empty(&self) -> bool
        ensures { IsTrue result ↔ (self.now ≡ []) }
    {
        self.len() == 0
    }

    /// The flag at a place, as it is spelled. The first place is 0.
    pub fn get(&self, i: usize) -> &[u8]
        requires { i < length self.now }
        ensures { slice_get self.now i ≡ Some result.now }
    {
        self.flags.as_slice()[i].as_slice()
    }

    /// Whether a flag of the list is equal to a key under a comparator. Under `i;ascii-numeric`
    /// each flag is compared in turn.
    pub fn has(&self, collation: Collation, key: &[u8]) -> bool
        ensures { result ≡ has_key (are_equal collation) self.now key.now }
    {
        match collation {
            Collation::Octet => self.has_spelling(key),
            Collation::Casemap => self.has_in_any_case(key),
            Collation::Numeric => has_number(self.flags.as_slice(), key),
        }
    }

    /// Whether a flag of the list is spelled so, octet for octet.
    fn has_spelling(&self, key: &[u8]) -> bool
        ensures { result ≡ has_key (same octet) self.now key.now }
    {
        match self.flags.get(SoughtFlag { spelling: key }) {
            Some(flag) => is::<Octet>(flag.as_slice(), key),
            None => false,
        }
    }

    /// Whether a flag of the list is spelled so in any case of letters.
    fn has_in_any_case(&self, key: &[u8]) -> bool
        ensures { result ≡ has_key (same ascii_casemap) self.now key.now }
    {
        self.flags.contains(SoughtFlag { spelling: key })
    }

    /// Adds the flags of another list that aren't there yet (RFC 5232, 3.2). The first `known`
    /// flags of that list must be there; they aren't looked at. If memory is refused, those before
    /// some place have been added. If all are there, it succeeds.
    pub fn add(&mut self, alloc: Global, flags: &FlagList, known: usize) -> Result<(), AllocError>
        requires within { known ≤ length flags.now }
        requires known { All (λ flag. has_flag self.old flag ≡ true) (take known flags.now) }
        ensures union { OnOk result (self.new ≡ flag_union self.old flags.now) }
        ensures there { OnOk result (All (λ flag. has_flag self.new flag ≡ true) flags.now) }
        ensures err { OnErr result (SomeIndex flags.now
            (λ i. (known ≤ i) × (self.new ≡ flag_union self.old (take i flags.now)))) }
        ensures held { All (λ flag. has_flag self.old flag ≡ true) flags.now → IsOk result }
    {
        let known = self.first_missing(flags, known);
        let added = insert_each(alloc, &mut self.flags, &flags.flags.as_slice()[known..]);
        // The contract of `len` says that no two of them are the same.
        let _count = self.flags.len();
        added
    }

    /// The place of the first flag of another list that isn't there, or the length of that list.
    /// The first `known` flags of that list are there and aren't looked at.
    fn first_missing(&self, flags: &FlagList, known: usize) -> usize
        requires within { known ≤ length flags.now }
        requires known { All (λ flag. has_flag self.now flag ≡ true) (take known flags.now) }
        ensures after { known ≤ result }
        ensures within { result ≤ length flags.now }
        ensures there { All (λ flag. has_flag self.now flag ≡ true) (take result flags.now) }
        ensures all { All (λ flag. has_flag self.now flag ≡ true) flags.now
            → result ≡ length flags.now }
    {
        for place in known..flags.len() {
            let sought = SoughtFlag {
                spelling: flags.get(place),
            };
            if !self.flags.contains(sought) {
                return place;
            }
        }
        flags.len()
    }

    /// Adds the flags of a text that aren't there yet (RFC 5232, sections 2 and 3.2). If memory is
    /// refused, those before some place have been added. If all are there, it succeeds.
    pub fn add_text(&mut self, alloc: Global, text: &[u8]) -> Result<(), AllocError>
        ensures union { OnOk result (self.new ≡ flag_union self.old (flags_in text.now)) }
        ensures err { OnErr result (SomeIndex (flags_in text.now)
            (λ i. self.new ≡ flag_union self.old (take i (flags_in text.now)))) }
        ensures held { All (λ flag. has_flag self.old flag ≡ true) (flags_in text.now)
            → IsOk result }
    {
        let added = insert_text(alloc, &mut self.flags, text);
        // The contract of `len` says that no two of them are the same.
        let _count = self.flags.len();
        added
    }

    /// Takes a flag out, in whatever case it is spelled, and gives the place where it stood (RFC
    /// 5232, 3.3). The others stay in their order.
    pub fn take_out(&mut self, flag: &[u8]) -> Option<usize>
        ensures without { self.new ≡ flags_without self.old (flag.now ∷ []) }
        ensures some { IfSome result (λ i. (i < length self.old) × (self.new ≡ remove self.old i)) }
        ensures none { IfNone result (self.new ≡ self.old) }
    {
        let place = self.flags.get_index_of(SoughtFlag { spelling: flag })?;
        self.flags.shift_remove_index(place);
        Some(place)
    }

    /// A copy of the list.
    #[tactic(auto, using(crate::proofs::FlagLists::union_copies))]
    pub fn copied(&self, alloc: Global) -> Result<FlagList, AllocError>
        ensures { IfOk result (λ copy. copy ≡ self.now) }
    {
        let mut flags = IndexSet::new(alloc);
        insert_each(alloc, &mut flags, self.flags.as_slice())?;
        Ok(list_of(flags))
    }
}

/// Whether a flag is equal to a key under `i;ascii-numeric`.
fn has_number(flags: &[Flag], key: &[u8]) -> bool
    ensures { result ≡ has_key (are_equal Collation.Numeric) flags.now key.now }
{
    flags
        .iter()
        .any(|flag| equals(Collation::Numeric, flag.as_slice(), key))
}

/// The list of a set's flags.
fn list_of(flags: IndexSet<Flag>) -> FlagList
    ensures { result ≡ flags.keys }
{
    // The contract of `len` says that no two of them are the same.
    let _count = flags.len();
    FlagList { flags }
}

/// Adds a flag at the end, if it isn't there yet.
fn insert(alloc: Global, flags: &mut IndexSet<Flag>, flag: &[u8]) -> Result<(), AllocError>
    ensures ok { OnOk result (flags.new.keys ≡ flag_union flags.old.keys (flag.now ∷ [])) }
    ensures err { OnErr result (flags.new.keys ≡ flags.old.keys) }
{
    match flags.insert(Flag::copied(alloc, flag)?) {
        Ok(_) => Ok(()),
        Err(_) => Err(AllocError),
    }
}

/// Adds each of some flags that isn't there yet.
fn insert_each(alloc: Global, flags: &mut IndexSet<Flag>, list: &[Flag]) -> Result<(), AllocError>
    ensures ok { OnOk result (flags.new.keys ≡ flag_union flags.old.keys list.now) }
    ensures err { OnErr result
        (SomeIndex list.now (λ i. flags.new.keys ≡ flag_union flags.old.keys (take i list.now))) }
    ensures none { list.now ≡ [] → IsOk result }
{
    for flag in list {
        insert(alloc, flags, flag.as_slice())?;
    }
    Ok(())
}

/// Adds a flag at the end, if it isn't there yet. One that is there isn't copied.
fn insert_missing(alloc: Global, flags: &mut IndexSet<Flag>, flag: &[u8]) -> Result<(), AllocError>
    ensures ok { OnOk result (flags.new.keys ≡ flag_union flags.old.keys (flag.now ∷ [])) }
    ensures err { OnErr result (flags.new.keys ≡ flags.old.keys) }
    ensures there { has_flag flags.old.keys flag.now ≡ true → IsOk result }
{
    if flags.contains(SoughtFlag { spelling: flag }) {
        return Ok(());
    }
    insert(alloc, flags, flag)
}

/// Adds each flag of a text that isn't there yet.
fn insert_text(alloc: Global, flags: &mut IndexSet<Flag>, text: &[u8]) -> Result<(), AllocError>
    ensures ok { OnOk result (flags.new.keys ≡ flag_union flags.old.keys (flags_in text.now)) }
    ensures err { OnErr result (SomeIndex (flags_in text.now)
        (λ i. flags.new.keys ≡ flag_union flags.old.keys (take i (flags_in text.now)))) }
    ensures there { All (λ flag. has_flag flags.old.keys flag ≡ true) (flags_in text.now)
        → IsOk result }
{
    let mut rest = text;
    while let Some((flag, after)) = next_flag(rest) {
        insert_missing(alloc, flags, flag)?;
        rest = after;
    }
    Ok(())
}

/// The flags of a text: its pieces between spaces that are flags. Each is listed once, where it
/// stands first (RFC 5232, section 2).
#[tactic(auto, using(crate::proofs::FlagLists::union_from_none), unfolding(crate::specs::Flags::flag_list))]
pub fn flags_of(alloc: Global, text: &[u8]) -> Result<FlagList, AllocError>
    ensures { IfOk result (λ list. list ≡ flag_list text.now) }
{
    let mut flags = IndexSet::new(alloc);
    insert_text(alloc, &mut flags, text)?;
    Ok(list_of(flags))
}

/// The flags of several texts, in order and each once (RFC 5232, section 2).
#[tactic(auto, using(crate::proofs::FlagLists::union_from_none), unfolding(crate::specs::Flags::flags_of_texts))]
pub fn flags_of_texts(alloc: Global, texts: &[CowSlice<'_, u8>]) -> Result<FlagList, AllocError>
    ensures { IfOk result (λ list. list ≡ flags_of_texts (octets_of_each texts.now)) }
{
    let mut flags = IndexSet::new(alloc);
    for text in texts {
        insert_text(alloc, &mut flags, text.as_slice())?;
    }
    Ok(list_of(flags))
}

/// The flags of `a`, and after them those of `b` that aren't there yet (RFC 5232, 3.2).
#[tactic(auto, using(crate::proofs::FlagLists::union_copies))]
pub fn union(alloc: Global, a: &FlagList, b: &FlagList) -> Result<FlagList, AllocError>
    ensures { IfOk result (λ list. list ≡ flag_union a.now b.now) }
{
    let mut flags = IndexSet::new(alloc);
    insert_each(alloc, &mut flags, a.flags.as_slice())?;
    insert_each(alloc, &mut flags, b.flags.as_slice())?;
    Ok(list_of(flags))
}

/// The flags of `a` that aren't in `b` (RFC 5232, 3.3).
pub fn without(alloc: Global, a: &FlagList, b: &FlagList) -> Result<FlagList, AllocError>
    ensures { IfOk result (λ list. list ≡ flags_without a.now b.now) }
{
    let mut flags = IndexSet::new(alloc);
    for flag in a.flags.as_slice() {
        insert_other(alloc, &mut flags, flag, &b.flags)?;
    }
    Ok(list_of(flags))
}

/// Adds a flag, if it is neither there nor among the others.
fn insert_other(
    alloc: Global,
    flags: &mut IndexSet<Flag>,
    flag: &Flag,
    others: &IndexSet<Flag>,
) -> Result<(), AllocError>
    ensures { OnOk result (flags.new.keys
        ≡ flag_union flags.old.keys (flags_without (flag.now ∷ []) others.now.keys)) }
{
    if others.contains(flag) {
        Ok(())
    } else {
        insert(alloc, flags, flag.as_slice())
    }
}

/// The flags as a variable holds them, with one space between two (RFC 5232, section 2). If there
/// is no flag, it succeeds.
#[tactic(auto, unfolding(crate::specs::Flags::flag_text))]
pub fn flag_text(alloc: Global, list: &FlagList) -> Result<Vec<u8>, AllocError>
    ensures exact { IfOk result (λ text. text.items ≡ flag_text list.now) }
    ensures no_flag { list.now ≡ [] → IsOk result }
{
    let mut text = Vec::new(alloc);
    if let [first, rest @ ..] = list.flags.as_slice() {
        text.extend_from_slice(first.as_slice())?;
        for flag in rest {
            text.push(b' ')?;
            text.extend_from_slice(flag.as_slice())?;
        }
    }
    Ok(text)
}
