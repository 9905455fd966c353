//! The values that the arguments of a command or a test give, with defaults where none is given.
ghost use Rattle.std.specs.Prelude.{◌≡◌, map};
ghost use Rattle.std.specs.Option.{option_map};
ghost use Rattle.sieve_script.specs.Given as spec;
ghost use Rattle.sieve_script.specs.view.Tags.{tags_as};
ghost use Rattle.sieve_script.specs.view.CutArgument.{cut_as};

use crate::cut_argument::CutArgument;
use crate::reading::MatchType;
use crate::tags::Tags;
use match_text::{Collation, Relation, collation_named, relation_named};
use message_text::AddressPart;
use sieve_table::{Tag, TagKind};
use sieve_variables::{Literal, Part, PartRef, Parts, Variable};
use std::alloc::Global;

/// The strings of an argument; none where it is missing, or no list of strings.
pub(crate) fn texts_in(alloc: Global, argument: Option<CutArgument>) -> Vec<Parts>
    ensures { result.items ≡ spec.texts_in (option_map cut_as argument) }
{
    match argument {
        Some(CutArgument::Strings(items)) => items,
        Some(CutArgument::Number(_)) => Vec::new(alloc),
        Some(CutArgument::Tag) => Vec::new(alloc),
        None => Vec::new(alloc),
    }
}

/// The strings of an argument that may be left out; `None` where it is left out.
pub(crate) fn given_texts(alloc: Global, argument: Option<CutArgument>) -> Option<Vec<Parts>>
    ensures { option_map (λ texts. texts.items) result
        ≡ spec.given_texts (option_map cut_as argument) }
{
    match argument {
        Some(argument) => Some(texts_in(alloc, Some(argument))),
        None => None,
    }
}

/// The first of some strings; no parts where there are none.
fn first_text(texts: Vec<Parts>) -> Parts
    ensures { result ≡ spec.first_text texts.items }
{
    match texts.into_iter().next() {
        Some(text) => text,
        None => Parts::none(),
    }
}

/// The first string of an argument; no parts where it has none.
pub(crate) fn text_in(argument: Option<CutArgument>) -> Parts
    ensures { result ≡ spec.text_in (option_map cut_as argument) }
{
    match argument {
        Some(CutArgument::Strings(items)) => first_text(items),
        Some(CutArgument::Number(_)) => Parts::none(),
        Some(CutArgument::Tag) => Parts::none(),
        None => Parts::none(),
    }
}

/// The first string of an argument that may be left out; `None` where it is left out.
pub(crate) fn given_text(argument: Option<CutArgument>) -> Option<Parts>
    ensures { result ≡ spec.given_text (option_map cut_as argument) }
{
    match argument {
        Some(argument) => Some(text_in(Some(argument))),
        None => None,
    }
}

/// The variable that parts name, where they are one variable. Other parts name the variable without
/// a name, which no script has.
fn variable_in_parts(parts: Parts) -> Variable
    ensures { result ≡ spec.variable_in_parts parts }
{
    match parts.into_one() {
        Some(part) => part.into_variable(),
        None => Part::nothing().into_variable(),
    }
}

/// The variable that an argument names (RFC 5229, section 4).
pub(crate) fn variable_in(argument: Option<CutArgument>) -> Variable
    ensures { result ≡ spec.variable_in (option_map cut_as argument) }
{
    variable_in_parts(text_in(argument))
}

/// The variable that an argument names; `None` where the argument is left out.
pub(crate) fn given_variable(argument: Option<CutArgument>) -> Option<Variable>
    ensures { result ≡ spec.given_variable (option_map cut_as argument) }
{
    match argument {
        Some(argument) => Some(variable_in(Some(argument))),
        None => None,
    }
}

/// The octets of parts that are one literal; `None` for other parts.
pub fn literal_in_parts(parts: &[Part]) -> Option<&[u8]>
    ensures { option_map (λ octets. octets.now) result ≡ spec.literal_in_parts parts.now }
{
    match parts {
        [part] => match part.as_ref() {
            PartRef::Literal(octets) => Some(octets),
            PartRef::Variable(_) => None,
            PartRef::Match(_) => None,
        },
        _ => None,
    }
}

/// The octets of an argument whose first string is one literal; none for others.
pub(crate) fn literal_in(argument: Option<&CutArgument>) -> &[u8]
    ensures { result.now ≡ spec.literal_in (option_map (λ a. cut_as a.now) argument.entry) }
{
    match argument {
        Some(CutArgument::Strings(items)) => match items.first() {
            Some(text) => match literal_in_parts(text.as_slice()) {
                Some(octets) => octets,
                None => b"",
            },
            None => b"",
        },
        Some(CutArgument::Number(_)) => b"",
        Some(CutArgument::Tag) => b"",
        None => b"",
    }
}

/// The octets of parts that are one literal; none for other parts.
fn into_literal(parts: Parts) -> Literal
    ensures { result ≡ spec.literal_or_nothing (spec.literal_in_parts parts) }
{
    match parts.into_one() {
        Some(part) => part.into_literal(),
        None => Part::nothing().into_literal(),
    }
}

/// The octets of an argument whose first string is one literal, by value; none for others.
pub(crate) fn name_in(argument: Option<CutArgument>) -> Literal
    ensures { result ≡ spec.literal_in (option_map cut_as argument) }
{
    into_literal(text_in(argument))
}

/// The number of an argument; 0 where it has none, or one past `u64::MAX`.
pub(crate) fn number_in(argument: Option<&CutArgument>) -> u64
    ensures { result ≡ spec.number_in (option_map (λ a. cut_as a.now) argument.entry) }
{
    match argument {
        Some(CutArgument::Number(Some(value))) => *value,
        Some(CutArgument::Number(None)) => 0,
        Some(CutArgument::Strings(_)) => 0,
        Some(CutArgument::Tag) => 0,
        None => 0,
    }
}

/// The number of an argument that may be left out; `None` where it is left out.
pub(crate) fn given_number(argument: Option<&CutArgument>) -> Option<u64>
    ensures { result ≡ spec.given_number (option_map (λ a. cut_as a.now) argument.entry) }
{
    match argument {
        Some(argument) => Some(number_in(Some(argument))),
        None => None,
    }
}

/// The comparator that an argument names; `i;ascii-casemap` where it names none.
pub(crate) fn collation_by(argument: Option<&CutArgument>) -> Collation
    ensures { result ≡ spec.collation_by (option_map (λ a. cut_as a.now) argument.entry) }
{
    match collation_named(literal_in(argument)) {
        Some(collation) => collation,
        None => Collation::Casemap,
    }
}

/// The relation that an argument names; that of equality where it names none.
fn relation_by(argument: Option<&CutArgument>) -> Relation
    ensures { result ≡ spec.relation_by (option_map (λ a. cut_as a.now) argument.entry) }
{
    match relation_named(literal_in(argument)) {
        Some(relation) => relation,
        None => Relation::Eq,
    }
}

/// The match type that a tag names; `:is` for any other tag, or none. `:value` and
/// `:count` take the relation.
fn match_type_by(tag: Option<Tag>, relation: Option<&CutArgument>) -> MatchType
    ensures { result ≡ spec.match_type_by tag
        (spec.relation_by (option_map (λ a. cut_as a.now) relation.entry)) }
{
    match tag {
        Some(Tag::Contains) => MatchType::Contains,
        Some(Tag::Matches) => MatchType::Matches,
        Some(Tag::Value) => MatchType::Value(relation_by(relation)),
        Some(Tag::Count) => MatchType::Count(relation_by(relation)),
        _ => MatchType::Is,
    }
}

/// The match type of a test, with the relation that is given.
#[tactic(auto, unfolding(crate::specs::Given::match_type_of))]
pub(crate) fn match_type_of(tags: Tags, relation: Option<&CutArgument>) -> MatchType
    ensures { result ≡ spec.match_type_of (tags_as tags)
        (spec.relation_by (option_map (λ a. cut_as a.now) relation.entry)) }
{
    match_type_by(tags.of(TagKind::MatchType), relation)
}

/// The part of an address that a tag names; all of it for any other tag, or none.
fn address_part_by(tag: Option<Tag>) -> AddressPart
    ensures { result ≡ spec.address_part_by tag }
{
    match tag {
        Some(Tag::LocalPart) => AddressPart::Local,
        Some(Tag::Domain) => AddressPart::Domain,
        Some(Tag::User) => AddressPart::User,
        Some(Tag::Detail) => AddressPart::Detail,
        _ => AddressPart::All,
    }
}

/// The part of an address that a test names.
#[tactic(auto, unfolding(crate::specs::Given::address_part_of))]
pub(crate) fn address_part_of(tags: Tags) -> AddressPart
    ensures { result ≡ spec.address_part_of (tags_as tags) }
{
    address_part_by(tags.of(TagKind::AddressPart))
}
