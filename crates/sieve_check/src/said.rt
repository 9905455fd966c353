//! The octets that strings say. Where `encoded-character` is required, the sequences in a string
//! stand for characters (RFC 5228, section 2.4.2.4).
ghost use Rattle.std.specs.Prelude.{◌≡◌, map, IfOk, OnOk};
ghost use Rattle.encoded_characters.specs.view.Sequence.{octets_shown};
ghost use Rattle.sieve_check.specs.Said as spec;
ghost use Rattle.sieve_syntax.specs.view.Tree.{argument_of, text_of};
ghost use Rattle.sieve_table.specs.view.Required.{required_as};

use encoded_characters::replaced;
use octets::SmallOctets;
use sieve_script::{Label, after_first, first_role};
use sieve_syntax::{Argument, Text};
use sieve_table::{Capability, Required, Role, has_role};
use std::alloc::{AllocError, Global};
use std::borrow::CowSlice;
use std::mem;

/// Whether the sequences in a string stand for characters, by its role, if it has one. Those in the
/// strings of `require` don't, by this project's choice.
fn takes_sequences(required: Required, role: Option<Role>) -> bool
    ensures { result ≡ spec.takes_sequences (required_as required) role }
{
    match role {
        Some(role) => {
            required.has(Capability::EncodedCharacter) && !has_role(Role::Capabilities, Some(role))
        }
        None => false,
    }
}

/// The octets that a string says; `None` where one of its sequences stands for no character.
pub(crate) fn said(
    alloc: Global,
    required: Required,
    role: Option<Role>,
    octets: &[u8],
) -> Result<Option<CowSlice<'_, u8>>, AllocError>
    ensures { IfOk result
        (λ found. octets_shown found ≡ spec.said (required_as required) role octets.now) }
{
    if takes_sequences(required, role) {
        replaced(alloc, octets)
    } else {
        Ok(Some(CowSlice::Borrowed(octets)))
    }
}

/// A string with the octets that it says. One that says nothing stays as it is written.
fn said_string(
    alloc: Global,
    required: Required,
    role: Option<Role>,
    string: SmallOctets,
) -> Result<SmallOctets, AllocError>
    ensures { IfOk result (λ said. said.items
        ≡ spec.said_or string.items (spec.said (required_as required) role string.items)) }
{
    if !takes_sequences(required, role) {
        return Ok(string);
    }
    match replaced(alloc, string.as_slice())? {
        Some(said) => SmallOctets::from_slice(alloc, said.as_slice()),
        None => Ok(string),
    }
}

/// Replaces a string by the octets that it says. One that says nothing stays as it is written.
fn say_text(
    alloc: Global,
    required: Required,
    role: Option<Role>,
    text: &mut Text,
) -> Result<(), AllocError>
    ensures { OnOk result
        (text_of text.new ≡ spec.said_text (required_as required) role (text_of text.old)) }
{
    let string = mem::replace(&mut text.string, SmallOctets::new(alloc));
    text.string = said_string(alloc, required, role, string)?;
    Ok(())
}

/// Replaces strings by the octets that they say.
fn say_texts(
    alloc: Global,
    required: Required,
    role: Option<Role>,
    texts: &mut Vec<Text>,
) -> Result<(), AllocError>
    ensures { OnOk result (map text_of texts.new.items
        ≡ map (spec.said_text (required_as required) role) (map text_of texts.old.items)) }
{
    for i in 0..texts.len() {
        say_text(alloc, required, role, &mut texts[i])?;
    }
    Ok(())
}

/// Replaces the strings of an argument by the octets that they say.
fn say_argument(
    alloc: Global,
    required: Required,
    role: Option<Role>,
    argument: &mut Argument,
) -> Result<(), AllocError>
    ensures { OnOk result (argument_of argument.new
        ≡ spec.said_argument (required_as required) role (argument_of argument.old)) }
{
    match argument {
        Argument::Strings { items, .. } => say_texts(alloc, required, role, items),
        Argument::Number { .. } => Ok(()),
        Argument::Tag { .. } => Ok(()),
    }
}

/// Replaces the strings of arguments by the octets that they say, each by its label.
pub(crate) fn say_arguments(
    alloc: Global,
    required: Required,
    labels: &[Label],
    args: &mut Vec<Argument>,
) -> Result<(), AllocError>
    ensures { OnOk result (map argument_of args.new.items
        ≡ spec.said_arguments (required_as required) labels.now (map argument_of args.old.items)) }
{
    let mut labels_left = labels;
    for i in 0..args.len() {
        say_argument(alloc, required, first_role(labels_left), &mut args[i])?;
        labels_left = after_first(labels_left);
    }
    Ok(())
}
