//! The shapes of the arguments of a text's tree, and the labels that they have by these.
ghost use Rattle.std.specs.Prelude.{◌≡◌, IfOk, map};
ghost use Rattle.sieve_syntax.specs.view.Tree.{argument_of};
ghost use Rattle.sieve_profile.specs.view.Profile.{profile_as};
ghost use Rattle.sieve_script.specs.Label.{expecting, fills, row_is_filled, labels_from, slots_of};
ghost use Rattle.sieve_script.specs.Shape.{known_labels, known_shape, known_shapes, shape_of, texts_shape};
ghost use Rattle.sieve_script.specs.view.Expected.{expected_as};
ghost use Rattle.sieve_table.specs.view.Row.{row_as};

use crate::label::{Expected, Label, Shape, is_unfit};
use sieve_profile::Profile;
use sieve_syntax::Argument;
use sieve_table::{Row, Tag, known_tag, tag_named};
use std::alloc::{AllocError, Global};

/// The shape of strings: one string without brackets, or a list.
fn texts_shape(count: usize, bracketed: bool) -> Shape
    ensures { result ≡ texts_shape count bracketed }
{
    if count == 1 && !bracketed {
        Shape::Text
    } else {
        Shape::Texts
    }
}

/// The shape of an argument, where these tags are taken.
fn written_shape(tags: &[Tag], argument: &Argument) -> Shape
    ensures { result ≡ shape_of tags.now (argument_of argument.now) }
{
    match argument {
        Argument::Strings { items, bracketed } => texts_shape(items.len(), *bracketed),
        Argument::Number { .. } => Shape::Number,
        Argument::Tag { name, .. } => Shape::Tag(tag_named(tags, name)),
    }
}

/// The shape of an argument, where these tags are taken as far as a bench of a profile knows them.
fn shape_of(profile: Profile, tags: &[Tag], argument: &Argument) -> Shape
    ensures { result
        ≡ known_shape (profile_as profile) (shape_of tags.now (argument_of argument.now)) }
{
    let shape = written_shape(tags, argument);
    match shape {
        Shape::Tag(tag) => Shape::Tag(known_tag(profile, tag)),
        _ => shape,
    }
}

/// The labels of a row's arguments.
#[derive(Drop)]
pub struct RowLabels {
    /// The label of each argument, in order.
    pub labels: Vec<Label>,
    /// Whether the positional arguments are there and no others (RFC 5228, section 2.6.1).
    pub filled: bool,
}

/// The labels of arguments where these tags are taken, and whether the positional ones are exactly
/// those that are expected.
fn labels_from(
    alloc: Global,
    start: Expected<'_>,
    profile: Profile,
    tags: &[Tag],
    args: &[Argument],
) -> Result<RowLabels, AllocError>
    ensures labels { IfOk result
        (λ found. found.labels.items ≡ labels_from (expected_as start.entry)
        (known_shapes (profile_as profile) tags.now (map argument_of args.now))) }
    ensures filled { IfOk result (λ found. found.filled ≡ fills (expected_as start.entry)
        (known_shapes (profile_as profile) tags.now (map argument_of args.now))) }
{
    let mut labels = Vec::new(alloc);
    let mut fit = true;
    let mut expected = start;
    for argument in args {
        let shape = shape_of(profile, tags, argument);
        let label = expected.label(shape);
        fit = fit && !is_unfit(label);
        labels.push(label)?;
        expected = expected.after(shape);
    }
    let filled = fit && expected.next_slot().is_none();
    Ok(RowLabels { labels, filled })
}

/// Whether the positional arguments are exactly those that are expected.
fn fills(start: Expected<'_>, profile: Profile, tags: &[Tag], args: &[Argument]) -> bool
    ensures { result ≡ fills (expected_as start.entry)
        (known_shapes (profile_as profile) tags.now (map argument_of args.now)) }
{
    let mut expected = start;
    for argument in args {
        let shape = shape_of(profile, tags, argument);
        if is_unfit(expected.label(shape)) {
            return false;
        }
        expected = expected.after(shape);
    }
    expected.next_slot().is_none()
}

/// The arguments that are expected of a row, at the first of them (RFC 5228, section 2.6). The
/// positional one in front is expected only where the arguments then fill the row exactly.
fn row_expected<'a>(row: &Row, profile: Profile, args: &[Argument]) -> Expected<'a>
    ensures { expected_as result ≡ expecting (slots_of (row_as row.now)
        (known_shapes (profile_as profile) row.now.tags.now (map argument_of args.now))) }
{
    if row.front.is_some() {
        let longer = Expected::new(row.front, row.slots);
        if fills(longer, profile, row.tags, args) {
            return longer;
        }
    }
    Expected::new(None, row.slots)
}

/// The labels of a row's arguments, to a bench of a profile (RFC 5228, section 2.6). An error means
/// that memory ran out.
pub fn known_labels(
    alloc: Global,
    profile: Profile,
    row: &Row,
    args: &[Argument],
) -> Result<RowLabels, AllocError>
    ensures labels { IfOk result (λ found. found.labels.items
        ≡ known_labels (profile_as profile) (row_as row.now) (map argument_of args.now)) }
    ensures filled { IfOk result (λ found. found.filled ≡ row_is_filled (row_as row.now)
        (known_shapes (profile_as profile) row.now.tags.now (map argument_of args.now))) }
{
    let expected = row_expected(row, profile, args);
    labels_from(alloc, expected, profile, row.tags, args)
}
