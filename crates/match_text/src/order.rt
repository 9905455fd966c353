//! How each comparator compares two whole texts, if it is known only when the program runs.
ghost use Rattle.std.specs.Prelude.{◌≡◌, map};
ghost use Rattle.std.specs.Cmp.Lexicographic.{slice_cmp};
ghost use Rattle.std.specs.Ordering.{nat_cmp};
ghost use Rattle.match_text.specs.Order.{are_equal, order_of};
ghost use Rattle.match_text.specs.Relation.{stands_in};

use crate::comparators::{AsciiCasemap, Collation, Comparator, Octet, is};
use crate::number::number_cmp;
use crate::relation::Relation;
use std::cmp::Ordering;

/// The order of two texts by their folded octets. The first that differ decide, and a front of a
/// text comes before that text.
fn folded_cmp<C: Comparator>(a: &[u8], b: &[u8]) -> Ordering
    ensures { result ≡ slice_cmp nat_cmp (map C.folded a.now) (map C.folded b.now) }
{
    let mut left = b;
    for x in a {
        let [y, after @ ..] = left else {
            return Ordering::Greater;
        };
        match C::fold(*x).cmp(&C::fold(*y)) {
            Ordering::Equal => left = after,
            order => return order,
        }
    }
    if left.is_empty() {
        Ordering::Equal
    } else {
        Ordering::Less
    }
}

/// The order of two texts under a comparator (RFC 4790, section 9).
fn order_of(collation: Collation, a: &[u8], b: &[u8]) -> Ordering
    ensures { result ≡ order_of collation a.now b.now }
{
    match collation {
        Collation::Octet => a.cmp(&b),
        Collation::Casemap => folded_cmp::<AsciiCasemap>(a, b),
        Collation::Numeric => number_cmp(a, b),
    }
}

/// Whether `value` is `key` under a comparator: the match type `:is` (RFC 5228, 2.7.1).
pub fn equals(collation: Collation, value: &[u8], key: &[u8]) -> bool
    ensures { result ≡ are_equal collation value.now key.now }
{
    match collation {
        Collation::Octet => is::<Octet>(value, key),
        Collation::Casemap => is::<AsciiCasemap>(value, key),
        Collation::Numeric => number_cmp(value, key).is_eq(),
    }
}

/// Whether `value` stands to `key` as the relation says, in a comparator's order. This is the match
/// type `:value` (RFC 5231, section 4). The time is linear in the octets of both.
pub fn stands(relation: Relation, collation: Collation, value: &[u8], key: &[u8]) -> bool
    ensures { result ≡ stands_in relation (order_of collation value.now key.now) }
{
    relation.holds(order_of(collation, value, key))
}
