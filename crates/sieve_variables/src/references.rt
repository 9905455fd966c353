//! References to variables in strings (RFC 5229, section 3), and strings as their parts.
ghost use Rattle.std.specs.Prelude.{◌≡◌, ◌++◌, ◌+◌, ◌<◌, ◌≤◌, [], ◌∷◌, false, IfOk, OnOk, IfSome, MatchOption, length};
ghost use Rattle.std.specs.List.{list_all};
ghost use Rattle.std.specs.Option.{option_map};
ghost use Rattle.sieve_variables.specs.Part.{part_of_words};
ghost use Rattle.sieve_variables.specs.Reference.{is_legal, is_name, reference};
ghost use Rattle.sieve_variables.specs.Scan as spec;
ghost use Rattle.sieve_variables.specs.view.Part.{added, literal_part};

use crate::name::{index_of, is_identifier, is_name, is_number, is_shared};
use crate::part::Part;
use crate::parts::Parts;
use crate::variable::Variable;
use octets::{SmallOctets, is_name_octet};
use sieve_limits::MAX_MATCH;
use std::alloc::{AllocError, Global};

/// The kinds of references that a text has (RFC 5229, section 3).
#[derive(Clone, Copy, Debug, PartialEq, Eq)]
pub struct References {
    /// Whether the text has a reference.
    pub any: bool,
    /// Whether one of them has a namespace.
    pub namespaced: bool,
    /// Whether one of them has a namespace and isn't to a variable that scripts share
    /// (RFC 6609, 3.4.2).
    pub foreign: bool,
    /// Whether one of them is to a match variable whose number is past the limit
    /// (RFC 5229, section 6).
    pub far: bool,
}

/// The number of octets of a reference that aren't between its braces: `${` and `}`.
const SIGN_COUNT: usize = 3;

/// The parts of a text (RFC 5229, section 3). An error is out of memory.
pub fn parts_of_text(alloc: Global, text: &[u8]) -> Result<Parts, AllocError>
    ensures { IfOk result (λ parts. parts ≡ spec.parts_of_text text.now) }
{
    let mut parts = Parts::none();
    // The octets that aren't in the parts yet, and how many of them are known to
    // stand for themselves.
    let mut left = text;
    let mut plain = 0;
    while plain < left.len() {
        let (octets, rest) = left.split_at(plain);
        match inside_at(rest) {
            None => plain += 1,
            Some(inside) => {
                let (written, after) = left.split_at(plain + SIGN_COUNT + inside.len());
                push_reference(alloc, &mut parts, inside, octets, written)?;
                left = after;
                plain = 0;
            }
        }
    }
    push_literal(alloc, &mut parts, left)?;
    Ok(parts)
}

/// The kinds of references that a text has. Without any, its parts are one literal, or none if
/// it is empty.
pub fn references_in(text: &[u8]) -> References
    ensures any { result.any ≡ spec.has_reference text.now }
    ensures plain { result.any ≡ false → spec.parts_of_text text.now ≡ literal_part text.now }
    ensures namespaced { result.namespaced ≡ spec.has_namespace text.now }
    ensures foreign { result.foreign ≡ spec.has_foreign_namespace text.now }
    ensures far { result.far ≡ spec.has_far_index text.now }
{
    let mut any = false;
    let mut namespaced = false;
    let mut foreign = false;
    let mut far = false;
    let mut rest = text;
    while !rest.is_empty() {
        match inside_at(rest) {
            None => {
                let (_, after) = rest.split_at(1);
                rest = after;
            }
            Some(inside) => {
                any = true;
                namespaced |= is_namespaced(inside);
                foreign |= is_foreign(inside);
                far |= is_far(inside);
                let (_, after) = rest.split_at(SIGN_COUNT + inside.len());
                rest = after;
            }
        }
    }
    References {
        any,
        namespaced,
        foreign,
        far,
    }
}

/// The octets between the braces of the reference with which the text begins, if it does.
#[tactic(auto, unfolding(crate::specs::Scan::inside_at))]
fn inside_at(text: &[u8]) -> Option<&[u8]>
    ensures is { option_map (λ inside. inside.now) result ≡ spec.inside_at text.now }
    ensures within { IfSome result (λ inside. length inside.now + 3 ≤ length text.now) }
{
    let [b'$', b'{', rest @ ..] = text else {
        return None;
    };
    let inside = before_brace(rest)?;
    if is_legal(inside) { Some(inside) } else { None }
}

/// The octets before the first `}`, if only octets of names and dots are there.
#[tactic(auto, unfolding(crate::specs::Scan::before_brace))]
fn before_brace(text: &[u8]) -> Option<&[u8]>
    ensures is { option_map (λ inside. inside.now) result ≡ spec.before_brace text.now }
    ensures within { IfSome result (λ inside. length inside.now < length text.now) }
{
    for (i, octet) in text.iter().enumerate() {
        if *octet == b'}' {
            return Some(&text[..i]);
        }
        if !is_inside(*octet) {
            return None;
        }
    }
    None
}

fn is_dot(octet: u8) -> bool
    ensures { result ≡ spec.is_dot octet }
{
    octet == b'.'
}

fn is_inside(octet: u8) -> bool
    ensures { result ≡ spec.is_inside octet }
{
    is_name_octet(octet) || is_dot(octet)
}

/// Cuts at the first dot: the first word, and the octets after the dot.
fn cut(inside: &[u8]) -> Option<(&[u8], &[u8])>
    ensures words { MatchOption result (spec.words_of inside.now ≡ inside.now ∷ [])
        (λ cut. spec.words_of inside.now ≡ cut.0.now ∷ spec.words_of cut.1.now) }
    ensures shorter { IfSome result (λ cut. length cut.1.now < length inside.now) }
{
    for (i, octet) in inside.iter().enumerate() {
        if is_dot(*octet) {
            return Some((&inside[..i], &inside[i + 1..]));
        }
    }
    None
}

/// Whether the octets between braces are the words of a reference, with dots between them.
#[tactic(auto, using(crate::proofs::Words::legal_cut))]
fn is_legal(inside: &[u8]) -> bool
    ensures { result ≡ is_legal (spec.words_of inside.now) }
{
    let Some((namespace, words)) = cut(inside) else {
        return is_name(inside);
    };
    if !is_identifier(namespace) {
        return false;
    }
    are_names(words)
}

/// Whether the words between dots are names.
#[tactic(auto, using(crate::proofs::Words::names_cut))]
fn are_names(inside: &[u8]) -> bool
    ensures { result ≡ list_all is_name (spec.words_of inside.now) }
{
    let mut left = inside;
    while let Some((word, words)) = cut(left) {
        if !is_name(word) {
            return false;
        }
        left = words;
    }
    is_name(left)
}

/// Whether the words of a reference are more than one.
fn is_namespaced(inside: &[u8]) -> bool
    ensures { result ≡ spec.is_namespaced (reference (spec.words_of inside.now)) }
{
    inside.contains(&b'.')
}

/// Whether a reference has a namespace and isn't to a variable that scripts share
/// (RFC 6609, 3.4.2).
fn is_foreign(inside: &[u8]) -> bool
    ensures { result ≡ spec.is_foreign (reference (spec.words_of inside.now)) }
{
    match cut(inside) {
        None => false,
        Some((namespace, name)) => !is_shared(namespace, name),
    }
}

/// Whether a reference is to a match variable whose number is past the limit (RFC 5229, section 6).
fn is_far(inside: &[u8]) -> bool
    ensures { result ≡ spec.is_far (reference (spec.words_of inside.now)) }
{
    if is_namespaced(inside) {
        return false;
    }
    if !is_number(inside) {
        return false;
    }
    index_of(inside) > MAX_MATCH
}

/// Adds the octets as a literal, if there are any.
fn push_literal(alloc: Global, parts: &mut Parts, octets: &[u8]) -> Result<(), AllocError>
    ensures { OnOk result (parts.new ≡ parts.old ++ literal_part octets.now) }
{
    if !octets.is_empty() {
        let octets = SmallOctets::from_slice(alloc, octets)?;
        parts.push(alloc, Part::literal(alloc, octets)?)?;
    }
    Ok(())
}

/// The part that a reference of one word makes.
fn part_of_word(alloc: Global, word: &[u8]) -> Result<Part, AllocError>
    ensures { IfOk result (λ part. part ≡ part_of_words (word.now ∷ [])) }
{
    if is_identifier(word) {
        Ok(Part::variable(Variable::local(alloc, word)?))
    } else {
        Ok(Part::matched(index_of(word)))
    }
}

/// The part that a reference makes. One with a namespace must be to a variable that scripts share.
fn part_inside(alloc: Global, inside: &[u8]) -> Result<Part, AllocError>
    requires { spec.is_foreign (reference (spec.words_of inside.now)) ≡ false }
    ensures { IfOk result (λ part. part ≡ part_of_words (spec.words_of inside.now)) }
{
    match cut(inside) {
        None => part_of_word(alloc, inside),
        Some((_, name)) => Ok(Part::variable(Variable::shared(alloc, name)?)),
    }
}

/// Adds a reference and the octets before it, which stand for themselves. `written` is both.
fn push_reference(
    alloc: Global,
    parts: &mut Parts,
    inside: &[u8],
    octets: &[u8],
    written: &[u8],
) -> Result<(), AllocError>
    ensures { OnOk result (parts.new ≡ parts.old ++ added inside.now octets.now written.now) }
{
    if is_foreign(inside) {
        return push_literal(alloc, parts, written);
    }
    push_literal(alloc, parts, octets)?;
    parts.push(alloc, part_inside(alloc, inside)?)?;
    Ok(())
}
