//! How a command is read, by its arguments and their labels (RFC 5228, sections 3 and 4).
//! Extensions add `set` (RFC 5229, section 4), flags (RFC 5232, sections 3 and 5) and `:copy`
//! (RFC 3894, section 3). They add `include` and `return` (RFC 6609, section 3), `:create`
//! (RFC 5490, section 3.2) and `:specialuse` (RFC 8579, section 4). They add `vacation` (RFC 5230,
//! section 4), `reject` and `ereject` (RFC 5429, section 2).
ghost use Rattle.std.specs.Prelude.{◌≡◌, false, IfOk, map};
ghost use Rattle.std.specs.Option.{option_map};
ghost use Rattle.sieve_script.specs.CommandReading as spec;
ghost use Rattle.sieve_script.specs.Given.{in_role};
ghost use Rattle.sieve_script.specs.view.Reading.{command_reading_as, leaf_as, settings_as};
ghost use Rattle.sieve_script.specs.view.Tags.{tags_as};
ghost use Rattle.sieve_script.specs.view.CutArgument.{cut_as};
ghost use Rattle.sieve_table.specs.Role.{same_role};
ghost use Rattle.sieve_table.specs.declared.row.Role.TheVariants as role;

use crate::by_label::{into_argument, into_arguments, into_three};
use crate::cut_argument::CutArgument;
use crate::given::{
    given_text, given_texts, given_variable, name_in, text_in, texts_in, variable_in,
};
use crate::label::Label;
use crate::reading::{CommandReading, FlagChange, Leaf, ReadLeaf, Rejection, Settings};
use crate::tags::Tags;
use crate::vacation::vacation_leaf;
use script_names::Location;
use sieve_table::{CommandKind, Role, Tag, TagKind};
use sieve_variables::{LetterCase, Modifiers};
use std::alloc::{AllocError, Global};

/// Reads a `keep` (RFC 5228, section 4.3; RFC 5232, section 5).
fn keep_leaf(alloc: Global, labels: &[Label], args: Vec<CutArgument>) -> ReadLeaf
    ensures { leaf_as result
        ≡ spec.keep_by labels.now (map cut_as args.items) }
{
    let flags = into_argument(labels, Role::Flags, args);
    let flags = given_texts(alloc, flags);
    Leaf::Keep { flags }
}

/// Reads a `fileinto` (RFC 5228, section 4.1).
fn fileinto_leaf(alloc: Global, labels: &[Label], args: Vec<CutArgument>) -> ReadLeaf
    ensures { leaf_as result
        ≡ spec.fileinto_by labels.now (map cut_as args.items) }
{
    let tags = Tags::among(labels);
    let (mailbox, flags, special_use) = into_three(
        labels,
        Role::Mailbox,
        Role::Flags,
        Role::Text,
        args,
    );
    let mailbox = text_in(mailbox);
    let settings = Settings {
        flags: given_texts(alloc, flags),
        copy: tags.has(TagKind::Copy),
        create: tags.has(TagKind::Create),
        special_use: given_text(special_use),
    };
    Leaf::Fileinto { mailbox, settings }
}

/// Reads a `redirect` (RFC 5228, section 4.2; RFC 3894, section 3).
fn redirect_leaf(labels: &[Label], args: Vec<CutArgument>) -> ReadLeaf
    ensures { leaf_as result
        ≡ spec.redirect_by labels.now (map cut_as args.items) }
{
    let copy = Tags::among(labels).has(TagKind::Copy);
    let address = text_in(into_argument(labels, Role::Address, args));
    Leaf::Redirect { address, copy }
}

/// The case of letters that a tag asks for; `None` for any other tag, or none.
fn case_by(tag: Option<Tag>) -> Option<LetterCase>
    ensures { result ≡ spec.case_by tag }
{
    match tag {
        Some(Tag::Lower) => Some(LetterCase::Lower),
        Some(Tag::Upper) => Some(LetterCase::Upper),
        Some(Tag::LowerFirst) => Some(LetterCase::Lower),
        Some(Tag::UpperFirst) => Some(LetterCase::Upper),
        _ => None,
    }
}

/// The modifiers of a `set`.
#[tactic(auto, unfolding(crate::specs::CommandReading::modifiers_of))]
fn modifiers_of(tags: Tags) -> Modifiers
    ensures { result ≡ spec.modifiers_of (tags_as tags) }
{
    Modifiers {
        letter_case: case_by(tags.of(TagKind::Case)),
        first_letter: case_by(tags.of(TagKind::FirstLetter)),
        quote_wildcard: tags.has(TagKind::QuoteWildcard),
        length: tags.has(TagKind::Length),
    }
}

/// Reads a `set` (RFC 5229, section 4).
fn set_leaf(labels: &[Label], args: Vec<CutArgument>) -> ReadLeaf
    ensures { leaf_as result
        ≡ spec.set_by labels.now (map cut_as args.items) }
{
    let modifiers = modifiers_of(Tags::among(labels));
    let (name, value) = into_arguments(labels, Role::NameToSet, Role::Text, args);
    let variable = variable_in(name);
    let value = text_in(value);
    Leaf::Set {
        variable,
        modifiers,
        value,
    }
}

/// Reads a command that changes flags (RFC 5232, section 3).
fn flags_leaf(
    alloc: Global,
    change: FlagChange,
    labels: &[Label],
    args: Vec<CutArgument>,
) -> ReadLeaf
    ensures { leaf_as result
        ≡ spec.flags_by change labels.now (map cut_as args.items) }
{
    let (name, flags) = into_arguments(labels, Role::NameToSet, Role::Flags, args);
    let variable = given_variable(name);
    let flags = texts_in(alloc, flags);
    Leaf::Flags {
        change,
        variable,
        flags,
    }
}

/// The location that a tag names; the personal one for any other tag, or none.
fn location_by(tag: Option<Tag>) -> Location
    ensures { result ≡ spec.location_by tag }
{
    match tag {
        Some(Tag::Global) => Location::Global,
        _ => Location::Personal,
    }
}

/// The location of a script that is included.
#[tactic(auto, unfolding(crate::specs::CommandReading::location_of))]
fn location_of(tags: Tags) -> Location
    ensures { result ≡ spec.location_of (tags_as tags) }
{
    location_by(tags.of(TagKind::Location))
}

/// Reads an `include` (RFC 6609, section 3.2).
fn include_leaf(labels: &[Label], args: Vec<CutArgument>) -> ReadLeaf
    ensures { leaf_as result
        ≡ spec.include_by labels.now (map cut_as args.items) }
{
    let tags = Tags::among(labels);
    let name = name_in(into_argument(labels, Role::ScriptName, args));
    Leaf::Include {
        location: location_of(tags),
        once: tags.has(TagKind::Once),
        optional: tags.has(TagKind::Optional),
        name,
    }
}

/// Reads a command that rejects the message (RFC 5429, section 2).
fn reject_leaf(how: Rejection, labels: &[Label], args: Vec<CutArgument>) -> ReadLeaf
    ensures { leaf_as result
        ≡ spec.reject_by how labels.now (map cut_as args.items) }
{
    let reason = text_in(into_argument(labels, Role::Text, args));
    Leaf::Reject { how, reason }
}

/// Reads a command of a kind by its arguments and their labels, without its test and its
/// block. The reading keeps the strings of the arguments. An error means that memory ran out;
/// only a `vacation` takes any.
pub fn read_command(
    alloc: Global,
    kind: CommandKind,
    labels: &[Label],
    args: Vec<CutArgument>,
) -> Result<CommandReading, AllocError>
    ensures { IfOk result (λ reading. command_reading_as reading
        ≡ spec.command_reading_by kind labels.now (map cut_as args.items)) }
{
    let leaf = match kind {
        CommandKind::Require => return Ok(CommandReading::Nothing),
        CommandKind::If => return Ok(CommandReading::If),
        CommandKind::Elsif => return Ok(CommandReading::Elsif),
        CommandKind::Else => return Ok(CommandReading::Else),
        CommandKind::Keep => keep_leaf(alloc, labels, args),
        CommandKind::Fileinto => fileinto_leaf(alloc, labels, args),
        CommandKind::Redirect => redirect_leaf(labels, args),
        CommandKind::Discard => Leaf::Discard,
        CommandKind::Stop => return Ok(CommandReading::Stop),
        CommandKind::Set => set_leaf(labels, args),
        CommandKind::SetFlag => flags_leaf(alloc, FlagChange::Set, labels, args),
        CommandKind::AddFlag => flags_leaf(alloc, FlagChange::Add, labels, args),
        CommandKind::RemoveFlag => flags_leaf(alloc, FlagChange::Remove, labels, args),
        CommandKind::Include => include_leaf(labels, args),
        CommandKind::Return => return Ok(CommandReading::Return),
        CommandKind::Global => return Ok(CommandReading::Nothing),
        CommandKind::Vacation => vacation_leaf(alloc, labels, args)?,
        CommandKind::Reject => reject_leaf(Rejection::Reject, labels, args),
        CommandKind::Ereject => reject_leaf(Rejection::Ereject, labels, args),
    };
    Ok(CommandReading::Act(leaf))
}
