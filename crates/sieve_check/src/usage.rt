//! Whether a command or a test is used as its row says (RFC 5228, sections 2.5, 2.6, 2.8 and 2.9).
ghost use Rattle.std.specs.Prelude.{◌≡◌};
ghost use Rattle.std.specs.List.{list_any};
ghost use Rattle.sieve_syntax.specs.view.Tree.{tests_of};
ghost use Rattle.sieve_script.specs.Given.{is_of_kind};
ghost use Rattle.sieve_script.specs.Positional.{is_positional_label};
ghost use Rattle.sieve_check.specs.Use as spec;
ghost use Rattle.sieve_table.specs.view.Required.{required_as};
ghost use Rattle.sieve_table.specs.view.Row.{row_as};

use sieve_script::Label;
use sieve_syntax::Tests;
use sieve_table::{Capability, Inner, Required, Row, TagKind, same_kind};

/// Whether a capability has to be required and isn't.
fn is_lacking(required: Required, capability: Capability) -> bool
    ensures { result ≡ spec.is_lacking (required_as required) capability }
{
    !required.has(capability)
}

/// The capability that has to be required for an argument, if there is one.
fn needed_by(label: Label) -> Option<Capability>
    ensures { result ≡ spec.needed_by label }
{
    match label {
        Label::Tagged(tag) => tag.row().needs,
        Label::Own(slot) => slot.needs,
        Label::InSlot(slot) => slot.needs,
        Label::OtherTag => None,
        Label::Unfit => None,
    }
}

/// Whether an argument needs a capability that isn't required.
fn lacks_needed(required: Required, label: Label) -> bool
    ensures { result ≡ spec.lacks_needed (required_as required) (spec.needed_by label) }
{
    match needed_by(label) {
        Some(capability) => is_lacking(required, capability),
        None => false,
    }
}

/// Whether one of these capabilities has to be required and isn't.
fn has_lacking(required: Required, needs: &[Capability]) -> bool
    ensures { result ≡ list_any (spec.is_lacking (required_as required)) needs.now }
{
    needs
        .iter()
        .any(|capability| is_lacking(required, *capability))
}

/// Whether some argument needs a capability that isn't required.
fn has_needy(required: Required, labels: &[Label]) -> bool
    ensures { result ≡ list_any
        (λ label. spec.lacks_needed (required_as required) (spec.needed_by label)) labels.now }
{
    labels.iter().any(|label| lacks_needed(required, *label))
}

/// Whether a row or an argument needs a capability that isn't required (RFC 5228, section 2.10.5).
pub(crate) fn lacks_required(required: Required, row: &Row, labels: &[Label]) -> bool
    ensures { result ≡ spec.lacks_required (required_as required) (row_as row.now) labels.now }
{
    has_lacking(required, row.needs) || has_needy(required, labels)
}

/// Whether an argument is a tag that isn't taken.
fn is_other_tag(label: Label) -> bool
    ensures { result ≡ spec.is_other_tag label }
{
    match label {
        Label::OtherTag => true,
        Label::Tagged(_) | Label::Own(_) | Label::InSlot(_) | Label::Unfit => false,
    }
}

/// Whether an argument is a tag.
fn is_tag(label: Label) -> bool
    ensures { result ≡ spec.is_tag label }
{
    match label {
        Label::Tagged(_) | Label::OtherTag => true,
        Label::Own(_) | Label::InSlot(_) | Label::Unfit => false,
    }
}

/// Whether an argument is a positional one.
fn is_positional(label: Label) -> bool
    ensures { result ≡ is_positional_label label }
{
    match label {
        Label::InSlot(_) | Label::Unfit => true,
        Label::Tagged(_) | Label::OtherTag | Label::Own(_) => false,
    }
}

/// Whether a tag is among the arguments.
fn has_some_tag(labels: &[Label]) -> bool
    ensures { result ≡ list_any spec.is_tag labels.now }
{
    labels.iter().any(|label| is_tag(*label))
}

/// Whether a tag that isn't taken is among the arguments.
fn has_other_tag(labels: &[Label]) -> bool
    ensures { result ≡ list_any spec.is_other_tag labels.now }
{
    labels.iter().any(|label| is_other_tag(*label))
}

/// Whether a tag stands after a positional argument.
fn has_late_tag(labels: &[Label]) -> bool
    ensures { result ≡ spec.has_late_tag labels.now }
{
    let mut left = labels;
    while let [first, rest @ ..] = left {
        if is_positional(*first) {
            return has_some_tag(rest);
        }
        left = rest;
    }
    false
}

/// Whether an argument is a tag of that kind.
fn is_of_kind(kind: TagKind, label: Label) -> bool
    ensures { result ≡ is_of_kind kind label }
{
    match label {
        Label::Tagged(tag) => same_kind(kind, tag.row().kind),
        Label::OtherTag | Label::Own(_) | Label::InSlot(_) | Label::Unfit => false,
    }
}

/// Whether a tag of that kind is among the arguments.
fn has_kind(kind: TagKind, labels: &[Label]) -> bool
    ensures { result ≡ list_any (is_of_kind kind) labels.now }
{
    labels.iter().any(|label| is_of_kind(kind, *label))
}

/// Whether a tag of the kind of the first stands after it.
fn is_repeated(first: Label, after: &[Label]) -> bool
    ensures { result ≡ spec.is_repeated first after.now }
{
    match first {
        Label::Tagged(tag) => has_kind(tag.row().kind, after),
        Label::OtherTag | Label::Own(_) | Label::InSlot(_) | Label::Unfit => false,
    }
}

/// Whether two tags are of one kind.
fn has_repeated(labels: &[Label]) -> bool
    ensures { result ≡ spec.has_repeated labels.now }
{
    let mut left = labels;
    while let [first, rest @ ..] = left {
        if is_repeated(*first, rest) {
            return true;
        }
        left = rest;
    }
    false
}

/// Whether there is a tag that isn't taken, two of one kind, or one after a positional argument.
pub(crate) fn has_bad_tag(labels: &[Label]) -> bool
    ensures { result ≡ spec.has_bad_tag labels.now }
{
    has_other_tag(labels) || has_repeated(labels) || has_late_tag(labels)
}

/// Whether an argument is a tag that takes an argument itself.
fn awaits(label: Label) -> bool
    ensures { result ≡ spec.awaits label }
{
    match label {
        Label::Tagged(tag) => tag.row().takes.is_some(),
        Label::OtherTag | Label::Own(_) | Label::InSlot(_) | Label::Unfit => false,
    }
}

/// Whether the argument that a tag takes itself comes first.
fn begins_own(labels: &[Label]) -> bool
    ensures { result ≡ spec.begins_own labels.now }
{
    match labels {
        [Label::Own(_), ..] => true,
        _ => false,
    }
}

/// Whether a tag lacks the argument that it takes itself.
fn lacks_own(labels: &[Label]) -> bool
    ensures { result ≡ spec.lacks_own labels.now }
{
    let mut left = labels;
    while let [first, rest @ ..] = left {
        if awaits(*first) && !begins_own(rest) {
            return true;
        }
        left = rest;
    }
    false
}

/// Whether the row needs a tag of a kind, and none is there.
fn lacks_kind(kind: Option<TagKind>, labels: &[Label]) -> bool
    ensures { result ≡ spec.lacks_kind kind labels.now }
{
    match kind {
        Some(kind) => !has_kind(kind, labels),
        None => false,
    }
}

/// Whether the tests are as a row takes them: none, one, or a list.
fn tests_fit(inner: Inner, tests: &Tests) -> bool
    ensures { result ≡ spec.tests_fit inner (tests_of tests.now) }
{
    match (inner, tests) {
        (Inner::None, Tests::None) => true,
        (Inner::One, Tests::One(_)) => true,
        (Inner::List, Tests::List(_)) => true,
        _ => false,
    }
}

/// Whether arguments of these labels, tests or the end aren't as the row says. It is so too where a
/// tag lacks its own argument, or a tag of a needed kind is missing. `filled` says whether the
/// positional arguments are there and no others.
pub(crate) fn has_bad_arguments(
    filled: bool,
    row: &Row,
    labels: &[Label],
    tests: &Tests,
    ends_by_block: bool,
) -> bool
    ensures { result
        ≡ spec.are_bad filled (row_as row.now) labels.now (tests_of tests.now) ends_by_block }
{
    if !filled || !tests_fit(row.tests, tests) || row.has_block != ends_by_block {
        return true;
    }
    lacks_own(labels) || lacks_kind(row.one_of, labels)
}
