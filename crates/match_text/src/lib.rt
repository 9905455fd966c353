//! How Sieve compares texts: comparators, equality, search and patterns.
//!
//! Texts are octet strings. A [`Comparator`] says which octets are equal (RFC 4790, section 9).
//! [`is`], [`contains`] and [`matches`] are the match types at a comparator (RFC 5228, 2.7.1).
//! [`equals`] and [`stands`] compare whole texts by a comparator's name. [`stands`] goes by a
//! [`Relation`] in the comparator's order (RFC 5231, section 4).
#![tactic(auto)]

mod comparators;
pub mod laws;
mod number;
mod order;
mod pattern;
mod relation;
mod room;
mod segments;
mod wildcards;

pub use crate::comparators::{
    AsciiCasemap, Collation, Comparator, Octet, SearchedValue, collation_named, contains,
    contains_in, is,
};
pub use crate::order::{equals, stands};
pub use crate::relation::{Relation, relation_named};
pub use crate::room::{KeyKind, Room};
pub use crate::wildcards::{Captures, matches};
