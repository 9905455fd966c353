//! Strings are cut into parts, once they are judged (RFC 5229, section 3).
ghost use Rattle.std.specs.Prelude.{◌≡◌, [], ◌∷◌, map, IfOk};
ghost use Rattle.sieve_syntax.specs.view.Tree.{argument_of, text_of};
ghost use Rattle.sieve_check.specs.Cut as spec;
ghost use Rattle.sieve_check.specs.view.Context.{context_as};
ghost use Rattle.sieve_script.specs.view.CutArgument.{cut_as};
ghost use Rattle.sieve_variables.specs.Part.{literal, scoped_part, variable_part};
ghost use Rattle.sieve_variables.specs.Scan.{parts_of_text};
ghost use Rattle.sieve_variables.specs.Variable.{scoped, variable_named};

use crate::context::{Context, takes_references};
use crate::said::say_arguments;
use octets::SmallOctets;
use sieve_script::{CutArgument, Label, after_first, first_role};
use sieve_syntax::{Argument, Text};
use sieve_table::{Role, names_variable};
use sieve_variables::{Names, Part, Parts, Variable, parts_of_text, references_in, scoped_parts};
use std::alloc::{AllocError, Global};

/// The parts of a string of which nothing stands for a value: one literal.
fn literal_parts(alloc: Global, octets: &[u8]) -> Result<Parts, AllocError>
    ensures { IfOk result (λ parts. parts ≡ literal octets.now ∷ []) }
{
    let octets = SmallOctets::from_slice(alloc, octets)?;
    Ok(Parts::one(Part::literal(alloc, octets)?))
}

/// The parts of a string that names a variable: that variable, shared by scripts
/// where it is declared.
fn variable_parts(alloc: Global, declared: &Names, name: &[u8]) -> Result<Parts, AllocError>
    ensures { IfOk result
        (λ parts. parts ≡ variable_part (scoped declared.now (variable_named name.now)) ∷ []) }
{
    let variable = Variable::named(alloc, name)?.scoped(declared);
    Ok(Parts::one(Part::variable(variable)))
}

/// The parts of a string in which references stand for values: its octets and its references.
fn reference_parts(alloc: Global, declared: &Names, octets: &[u8]) -> Result<Parts, AllocError>
    ensures { IfOk result
        (λ parts. parts ≡ map (scoped_part declared.now) (parts_of_text octets.now)) }
{
    if references_in(octets).any {
        let parts = parts_of_text(alloc, octets)?;
        return scoped_parts(alloc, parts, declared);
    }
    if octets.is_empty() {
        Ok(Parts::none())
    } else {
        literal_parts(alloc, octets)
    }
}

/// The parts of a string in its role.
fn parts_in(
    alloc: Global,
    context: Context<'_>,
    role: Option<Role>,
    octets: &[u8],
) -> Result<Parts, AllocError>
    ensures { IfOk result
        (λ parts. parts ≡ spec.parts_in (context_as context.entry) role octets.now) }
{
    let declared = context.scope.declared();
    if names_variable(role) {
        return variable_parts(alloc, declared, octets);
    }
    if takes_references(context.spot.required, role) {
        reference_parts(alloc, declared, octets)
    } else {
        literal_parts(alloc, octets)
    }
}

/// The parts of each of some strings.
fn cut_texts(
    alloc: Global,
    context: Context<'_>,
    role: Option<Role>,
    texts: &[Text],
) -> Result<Vec<Parts>, AllocError>
    ensures { IfOk result (λ cut. cut.items ≡ map
        (λ t. spec.parts_in (context_as context.entry) role t.string) (map text_of texts.now)) }
{
    let mut cut = Vec::with_capacity(alloc, texts.len())?;
    for text in texts {
        cut.push(parts_in(alloc, context, role, text.octets())?)?;
    }
    Ok(cut)
}

/// An argument with its strings cut.
fn cut_argument(
    alloc: Global,
    context: Context<'_>,
    role: Option<Role>,
    argument: &Argument,
) -> Result<CutArgument, AllocError>
    ensures { IfOk result (λ cut. cut_as cut
        ≡ spec.cut_argument (context_as context.entry) role (argument_of argument.now)) }
{
    match argument {
        Argument::Strings { items, .. } => {
            let cut = cut_texts(alloc, context, role, items)?;
            Ok(CutArgument::Strings(cut))
        }
        Argument::Number { value, .. } => Ok(CutArgument::Number(*value)),
        Argument::Tag { .. } => Ok(CutArgument::Tag),
    }
}

/// Arguments with their strings cut, each by its label.
pub(crate) fn cut_arguments(
    alloc: Global,
    context: Context<'_>,
    labels: &[Label],
    args: &[Argument],
) -> Result<Vec<CutArgument>, AllocError>
    ensures { IfOk result (λ cut. map cut_as cut.items ≡ spec.cut_labelled
        (context_as context.entry) labels.now (map argument_of args.now)) }
{
    let mut cut = Vec::with_capacity(alloc, args.len())?;
    let mut labels_left = labels;
    for argument in args {
        cut.push(cut_argument(alloc, context, first_role(labels_left), argument)?)?;
        labels_left = after_first(labels_left);
    }
    Ok(cut)
}

/// Arguments with their strings cut, by the octets that these say, each by its label.
pub(crate) fn say_and_cut(
    alloc: Global,
    context: Context<'_>,
    labels: &[Label],
    args: Vec<Argument>,
) -> Result<Vec<CutArgument>, AllocError>
    ensures { IfOk result (λ cut. map cut_as cut.items ≡ spec.cut_said
        (context_as context.entry) labels.now (map argument_of args.items)) }
{
    let mut args = args;
    say_arguments(alloc, context.spot.required, labels, &mut args)?;
    cut_arguments(alloc, context, labels, &args)
}
