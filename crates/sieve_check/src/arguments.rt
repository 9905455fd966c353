//! The breaches in the use of a row and in its arguments. Something needed isn't required, tags or
//! arguments don't fit, a name is unknown, or a number is too large.
ghost use Rattle.std.specs.Prelude.{◌≡◌, ◌&&◌, false, find, is_none, map, IfOk};
ghost use Rattle.sieve_syntax.specs.view.Tree.{argument_of, tests_of, text_of};
ghost use Rattle.sieve_check.specs.Breach.{breaches_at, has_unknown_namespace, is_bad_date_part, is_bad_name, is_known, is_no_declaration, names_namespace, text_breaks, use_lacks};
ghost use Rattle.sieve_check.specs.Context.{takes_references};
ghost use Rattle.sieve_check.specs.Element.{argument_elements, labelled_elements, text_elements, the_number, the_text};
ghost use Rattle.sieve_table.specs.Role.{has_role, names_variable};
ghost use Rattle.sieve_script.specs.Shape.{known_labels};
ghost use Rattle.sieve_check.specs.view.Context.{context_as};
ghost use Rattle.sieve_table.specs.view.Required.{required_as};
ghost use Rattle.sieve_check.specs.view.Finds.{Finds, FindsIn};
ghost use Rattle.sieve_table.specs.view.Row.{row_as};
ghost use Rattle.sieve_check.specs.view.Use.{row_found};
ghost use Rattle.match_text.specs.Relation.{relation_named};
ghost use Rattle.sieve_table.specs.declared.row.Role.TheVariants.{NameToSet, NamesToDeclare, Relation};
ghost use Rattle.sieve_table.specs.declared.rule.Rule.TheVariants.{BadEnvelopePart, NotAddressHeader, UnfitComparator, UnknownComparator};
ghost use Rattle.sieve_variables.specs.Name.{is_global_name, is_identifier};

use crate::collating::{arguments_lack, known_collation, lacks_substrings};
use crate::context::{Context, takes_references};
use crate::said::said;
use crate::usage::{has_bad_arguments, has_bad_tag, lacks_required};
use crate::validator::CheckFault;
use date_text::DatePart;
use match_text::relation_named;
use sieve_script::{Label, RowLabels, after_first, first_role, known_labels};
use sieve_syntax::{Argument, Tests, Text};
use sieve_table::{
    Capability, Required, Role, Row, Rule, has_role, is_address_field, is_envelope_part,
    may_be_required, names_variable,
};
use sieve_variables::{is_global_name, is_identifier, references_in};
use std::alloc::{AllocError, Global};

/// Whether a string is known before the script runs: no reference in it stands for a value.
fn is_known(required: Required, role: Option<Role>, octets: &[u8]) -> bool
    ensures { result ≡ is_known (required_as required) role octets.now }
{
    !(takes_references(required, role) && references_in(octets).any)
}

/// Whether a string names no variable that may be set (RFC 5229, section 4). Such a variable is one
/// of the script, or one that scripts share.
fn is_bad_name(octets: &[u8]) -> bool
    ensures { result ≡ is_bad_name octets.now }
{
    !is_identifier(octets) && !is_global_name(octets)
}

/// Whether a string is to be declared, but is no identifier (RFC 6609, section 3.4.1).
fn is_no_declaration(role: Option<Role>, octets: &[u8]) -> bool
    ensures { result ≡ is_no_declaration role octets.now }
{
    has_role(Role::NamesToDeclare, role) && !is_identifier(octets)
}

/// Whether a string has a reference in an unknown namespace (RFC 6609, section 3.4.2). The
/// namespace `global` is known where `include` is required.
fn has_unknown_namespace(required: Required, octets: &[u8]) -> bool
    ensures { result ≡ has_unknown_namespace (required_as required) octets.now }
{
    let references = references_in(octets);
    if required.has(Capability::Include) {
        references.foreign
    } else {
        references.namespaced
    }
}

/// Whether a string names or refers to a variable in an unknown namespace (RFC 5229,
/// sections 3 and 4).
fn names_namespace(required: Required, role: Option<Role>, octets: &[u8]) -> bool
    ensures { result ≡ names_namespace (required_as required) role octets.now }
{
    (names_variable(role) && (is_global_name(octets) && !required.has(Capability::Include)))
        || (takes_references(required, role) && has_unknown_namespace(required, octets))
}

/// Whether a string is to name a comparator, and names none that is known
/// (RFC 5228, section 2.7.3).
fn is_unknown(context: Context<'_>, role: Option<Role>, octets: &[u8]) -> bool
    ensures { result ≡ text_breaks (context_as context.entry) role octets.now UnknownComparator }
{
    has_role(Role::ComparatorName, role) && known_collation(context.spot.profile, octets).is_none()
}

/// Whether a string is to name a part of an envelope, and names none (RFC 5228, section 5.4). A
/// string that isn't known before the script runs breaks no rule here.
fn is_bad_envelope_part(context: Context<'_>, role: Option<Role>, octets: &[u8]) -> bool
    ensures { result ≡ text_breaks (context_as context.entry) role octets.now BadEnvelopePart }
{
    let required = context.spot.required;
    has_role(Role::EnvelopeParts, role)
        && (!is_envelope_part(octets) && is_known(required, role, octets))
}

/// Whether a string is to name a field that holds addresses, and names none (RFC 5228,
/// section 5.1). A string that isn't known before the script runs breaks no rule here.
fn is_no_address_field(context: Context<'_>, role: Option<Role>, octets: &[u8]) -> bool
    ensures { result ≡ text_breaks (context_as context.entry) role octets.now NotAddressHeader }
{
    let required = context.spot.required;
    has_role(Role::AddressFields, role)
        && (!is_address_field(octets) && is_known(required, role, octets))
}

/// Whether a string is to name a part of a date, and names none (RFC 5260, section 4.2). A string
/// that isn't known before the script runs breaks no rule here.
fn is_bad_date_part(required: Required, role: Option<Role>, octets: &[u8]) -> bool
    ensures { result ≡ is_bad_date_part (required_as required) role octets.now }
{
    has_role(Role::DatePart, role)
        && (DatePart::named(octets).is_none() && is_known(required, role, octets))
}

/// Whether a string is to name a relation, and names none (RFC 5231, section 4).
fn is_bad_relation(role: Option<Role>, octets: &[u8]) -> bool
    ensures { result ≡ (has_role Relation role && is_none (relation_named octets.now)) }
{
    has_role(Role::Relation, role) && relation_named(octets).is_none()
}

/// Whether a string names a comparator without substrings in a test that finds parts of values
/// (RFC 4790, section 9.1).
fn is_unfit(context: Context<'_>, role: Option<Role>, octets: &[u8]) -> bool
    ensures { result ≡ text_breaks (context_as context.entry) role octets.now UnfitComparator }
{
    has_role(Role::ComparatorName, role)
        && (context.spot.finds_parts
            && lacks_substrings(known_collation(context.spot.profile, octets)))
}

/// Whether a string in its role breaks a rule. The octets are those that it says.
fn text_breaks(
    alloc: Global,
    context: Context<'_>,
    role: Option<Role>,
    octets: &[u8],
    rule: Rule,
) -> Result<bool, AllocError>
    ensures { IfOk result
        (λ broken. broken ≡ text_breaks (context_as context.entry) role octets.now rule) }
{
    let required = context.spot.required;
    let broken = match rule {
        Rule::UnknownCapability => {
            has_role(Role::Capabilities, role)
                && (context.spot.leads && !may_be_required(context.spot.profile, octets))
        }
        Rule::UnknownComparator => is_unknown(context, role, octets),
        Rule::BadVariableName => {
            (names_variable(role) && is_bad_name(octets)) || is_no_declaration(role, octets)
        }
        Rule::GlobalAfterSet => {
            has_role(Role::NamesToDeclare, role) && context.scope.is_assigned(octets)
        }
        Rule::BadNamespace => names_namespace(required, role, octets),
        Rule::MatchIndex => takes_references(required, role) && references_in(octets).far,
        Rule::BadEnvelopePart => is_bad_envelope_part(context, role, octets),
        Rule::NotAddressHeader => is_no_address_field(context, role, octets),
        Rule::TooManyVariables => {
            has_role(Role::NameToSet, role) && context.scope.is_full_for(alloc, octets)?
        }
        Rule::BadRelation => is_bad_relation(role, octets),
        Rule::UnfitComparator => is_unfit(context, role, octets),
        Rule::BadDatePart => is_bad_date_part(required, role, octets),
        Rule::RequirePlace
        | Rule::UnknownCommand
        | Rule::NotRequired
        | Rule::ElsePlace
        | Rule::BadTag
        | Rule::BadArguments
        | Rule::NumberTooLarge
        | Rule::BadCharacter => false,
    };
    Ok(broken)
}

/// The rules that a string can break by the octets that it says, in the order of their numbers.
const TEXT_RULES: [Rule; 12] = [
    Rule::UnknownCapability,
    Rule::UnknownComparator,
    Rule::BadVariableName,
    Rule::GlobalAfterSet,
    Rule::BadNamespace,
    Rule::MatchIndex,
    Rule::BadEnvelopePart,
    Rule::NotAddressHeader,
    Rule::TooManyVariables,
    Rule::BadRelation,
    Rule::UnfitComparator,
    Rule::BadDatePart,
];

/// The first of some rules that a string in its role breaks, by the octets that it says.
fn first_broken(
    alloc: Global,
    rules: &[Rule],
    context: Context<'_>,
    role: Option<Role>,
    octets: &[u8],
) -> Result<Option<Rule>, AllocError>
    ensures { IfOk result
        (λ first. first ≡ find (text_breaks (context_as context.entry) role octets.now) rules.now) }
{
    for rule in rules {
        if text_breaks(alloc, context, role, octets, *rule)? {
            return Ok(Some(*rule));
        }
    }
    Ok(None)
}

/// Checks a string in its role, if it has one. The breach is `BadCharacter`, or the first of
/// `TEXT_RULES` that it breaks.
#[tactic(auto, using(crate::proofs::Searches::text_rule_steps))]
fn check_text(
    alloc: Global,
    context: Context<'_>,
    role: Option<Role>,
    text: &Text,
) -> Result<(), CheckFault>
    ensures { Finds
        (breaches_at (the_text (context_as context.entry) role (text_of text.now))) result }
{
    let line = text.line as u64;
    let Some(said) = said(alloc, context.spot.required, role, text.octets())? else {
        // a string that says nothing breaks no other rule
        let rule = Rule::BadCharacter;
        return Err(CheckFault::Breach { line, rule });
    };
    match first_broken(alloc, &TEXT_RULES, context, role, said.as_slice())? {
        Some(rule) => Err(CheckFault::Breach { line, rule }),
        None => Ok(()),
    }
}

/// Checks strings in their role.
#[tactic(auto, using(crate::proofs::Searches::text_steps))]
fn check_texts(
    alloc: Global,
    context: Context<'_>,
    role: Option<Role>,
    texts: &[Text],
) -> Result<(), CheckFault>
    ensures { FindsIn
        (text_elements (context_as context.entry) role (map text_of texts.now)) result }
{
    for text in texts {
        check_text(alloc, context, role, text)?;
    }
    Ok(())
}

/// Checks that a number is within 64 bits (RFC 5228, section 2.4.1). The breach is
/// `NumberTooLarge`.
#[tactic(auto, unfolding(crate::specs::Breach::breaches_at))]
fn check_number(value: Option<u64>, line: u64) -> Result<(), CheckFault>
    ensures { Finds (breaches_at (the_number value line)) result }
{
    match value {
        Some(_) => Ok(()),
        None => Err(CheckFault::Breach {
            line,
            rule: Rule::NumberTooLarge,
        }),
    }
}

/// Checks an argument in its role.
#[tactic(auto, using(crate::proofs::Searches::element_steps))]
fn check_argument(
    alloc: Global,
    context: Context<'_>,
    role: Option<Role>,
    argument: &Argument,
) -> Result<(), CheckFault>
    ensures { FindsIn
        (argument_elements (context_as context.entry) role (argument_of argument.now)) result }
{
    match argument {
        Argument::Strings { items, .. } => check_texts(alloc, context, role, items),
        Argument::Number { value, line } => check_number(*value, *line as u64),
        Argument::Tag { .. } => Ok(()),
    }
}

/// Checks arguments by their labels.
#[tactic(auto, using(crate::proofs::Searches::argument_steps))]
pub(crate) fn check_arguments(
    alloc: Global,
    context: Context<'_>,
    labels: &[Label],
    args: &[Argument],
) -> Result<(), CheckFault>
    ensures { FindsIn (labelled_elements (context_as context.entry) labels.now
        (map argument_of args.now)) result }
{
    let mut labels_left = labels;
    for argument in args {
        check_argument(alloc, context, first_role(labels_left), argument)?;
        labels_left = after_first(labels_left);
    }
    Ok(())
}

/// Whether a use of a row needs a capability that isn't required (RFC 5228, section 2.10.5). The
/// row itself may need it, an argument, or a comparator that is named.
fn use_lacks(
    alloc: Global,
    context: Context<'_>,
    row: &Row,
    labels: &[Label],
    args: &[Argument],
) -> Result<bool, AllocError>
    requires { labels.now
        ≡ known_labels (context_as context).profile (row_as row.now) (map argument_of args.now) }
    ensures { IfOk result (λ lacks. lacks ≡ use_lacks (context_as context.entry).profile
        (context_as context.entry).required (row_as row.now) (map argument_of args.now)) }
{
    let required = context.spot.required;
    if lacks_required(required, row, labels) {
        return Ok(true);
    }
    arguments_lack(alloc, context.spot.profile, required, labels, args)
}

/// A use of a row: a command or a test, whose inner tests and block are checked elsewhere.
#[derive(Clone, Copy)]
pub(crate) struct Use<'a> {
    pub(crate) line: u64,
    pub(crate) row: &'a Row,
    pub(crate) args: &'a [Argument],
    pub(crate) tests: &'a Tests,
    pub(crate) ends_by_block: bool,
    /// Whether it is an `elsif` or `else` without an `if` or `elsif` right before it
    /// (RFC 5228, section 3.1).
    pub(crate) stands_alone: bool,
}

/// Checks a use of a row and its arguments, but not the tests and the block in it. Returns the
/// labels of the arguments. Whether a `require` may stand there isn't checked here.
#[tactic(auto, using(crate::proofs::Uses::use_steps))]
pub(crate) fn check_use(
    alloc: Global,
    context: Context<'_>,
    used: Use<'_>,
) -> Result<Vec<Label>, CheckFault>
    ensures labels { IfOk result (λ labels. labels.items ≡ known_labels
        (context_as context.entry).profile (row_as used.entry.row.now)
        (map argument_of used.entry.args.now)) }
    ensures found { Finds (row_found used.entry.stands_alone (context_as context.entry)
        used.entry.line (row_as used.entry.row.now) (map argument_of used.entry.args.now)
        (tests_of used.entry.tests.now) used.entry.ends_by_block) result }
{
    let Use {
        line,
        row,
        args,
        tests,
        ends_by_block,
        stands_alone,
    } = used;
    let RowLabels { labels, filled } = known_labels(alloc, context.spot.profile, row, args)?;
    if use_lacks(alloc, context, row, &labels, args)? {
        let rule = Rule::NotRequired;
        return Err(CheckFault::Breach { line, rule });
    }
    if stands_alone {
        let rule = Rule::ElsePlace;
        return Err(CheckFault::Breach { line, rule });
    }
    if has_bad_tag(&labels) {
        let rule = Rule::BadTag;
        return Err(CheckFault::Breach { line, rule });
    }
    if has_bad_arguments(filled, row, &labels, tests, ends_by_block) {
        let rule = Rule::BadArguments;
        return Err(CheckFault::Breach { line, rule });
    }
    check_arguments(alloc, context.among(&labels), &labels, args)?;
    Ok(labels)
}
