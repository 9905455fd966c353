//! The context of a command: the text before it, as far as rules ask.
ghost use Rattle.std.specs.Prelude.{◌≡◌, ◌&&◌, Some, map};
ghost use Rattle.std.specs.List.{list_any};
ghost use Rattle.sieve_syntax.specs.view.Tree.{argument_of, text_of};
ghost use Rattle.sieve_check.specs.Context as spec;
ghost use Rattle.sieve_check.specs.Scope.{no_names};
ghost use Rattle.sieve_profile.specs.view.Profile.{profile_as};
ghost use Rattle.sieve_script.specs.Shape.{known_labels};
ghost use Rattle.sieve_check.specs.Element.{among, finds_parts};
ghost use Rattle.sieve_check.specs.view.Context.{at_spot, context_as};
ghost use Rattle.sieve_table.specs.view.Required.{required_as};
ghost use Rattle.sieve_check.specs.view.Scope.{ScopeState};
ghost use Rattle.sieve_table.specs.Table.{command_row};

use crate::scope::Scope;
use sieve_profile::Profile;
use sieve_script::Label;
use sieve_syntax::{Argument, Text};
use sieve_table::{Capability, CommandKind, Required, Role, Tag, is_expanded, same_tag};

/// The required capabilities, with those that strings name.
fn requiring_texts(required: Required, texts: &[Text]) -> Required
    ensures { required_as result
        ≡ spec.requiring_texts (required_as required) (map text_of texts.now) }
{
    let mut required = required;
    for text in texts {
        required = required.with_name(text.octets());
    }
    required
}

/// The required capabilities, with those that the strings of an argument name.
fn requiring_argument(required: Required, argument: &Argument) -> Required
    ensures { required_as result
        ≡ spec.requiring_argument (required_as required) (argument_of argument.now) }
{
    match argument {
        Argument::Strings { items, .. } => requiring_texts(required, items),
        Argument::Number { .. } => required,
        Argument::Tag { .. } => required,
    }
}

/// The required capabilities, with those that the strings of arguments name.
fn requiring_arguments(required: Required, args: &[Argument]) -> Required
    ensures { required_as result
        ≡ spec.requiring_arguments (required_as required) (map argument_of args.now) }
{
    let mut required = required;
    for argument in args {
        required = requiring_argument(required, argument);
    }
    required
}

/// Whether references in a string stand for values, by its role, if it has one
/// (RFC 5229, section 3).
pub(crate) fn takes_references(required: Required, role: Option<Role>) -> bool
    ensures { result ≡ spec.takes_references (required_as required) role }
{
    match role {
        Some(role) => is_expanded(role) && required.has(Capability::Variables),
        None => false,
    }
}

/// The context of a command, without the names of variables.
#[derive(Clone, Copy)]
pub(crate) struct Spot {
    /// The extensions that are known beyond those that always are.
    pub(crate) profile: Profile,
    /// Whether only `require` commands stand before it in the script (RFC 5228, section 3.2).
    pub(crate) leads: bool,
    /// Whether an `if` or `elsif` stands directly before it in its block (RFC 5228, section 3.1).
    pub(crate) follows_if: bool,
    /// The capabilities named by the `require` commands at the top that stand before it
    /// (RFC 5228, section 3.2).
    pub(crate) required: Required,
    /// Whether it is a string of a test that finds parts of values (RFC 5228, section 2.7.1).
    pub(crate) finds_parts: bool,
}

/// The context of a command.
#[derive(Clone, Copy)]
pub(crate) struct Context<'a> {
    pub(crate) spot: Spot,
    /// The names of variables in the text before it.
    pub(crate) scope: &'a Scope,
}

impl<'a> Context<'a> {
    /// The context of the strings among arguments of these labels.
    pub(crate) fn among(self, labels: &[Label]) -> Context<'a>
        ensures { context_as result ≡ among (context_as self.entry) labels.now }
    {
        Context {
            spot: Spot {
                finds_parts: find_parts(labels),
                ..self.spot
            },
            scope: self.scope,
        }
    }
}

/// Whether an argument is a tag by which parts of values are found (RFC 5228, section 2.7.1).
fn finds_parts(label: Label) -> bool
    ensures { result ≡ finds_parts label }
{
    match label {
        Label::Tagged(tag) => same_tag(tag, Tag::Contains) || same_tag(tag, Tag::Matches),
        Label::OtherTag | Label::Own(_) | Label::InSlot(_) | Label::Unfit => false,
    }
}

/// Whether some argument is a tag by which parts of values are found.
fn find_parts(labels: &[Label]) -> bool
    ensures { result ≡ list_any finds_parts labels.now }
{
    labels.iter().any(|label| finds_parts(*label))
}

/// Whether a command is `require`.
pub(crate) fn is_require(kind: CommandKind) -> bool
    ensures { result ≡ spec.is_require kind }
{
    kind == CommandKind::Require
}

/// Whether a command is an `elsif` or `else`.
pub(crate) fn continues_if(kind: CommandKind) -> bool
    ensures { result ≡ spec.continues_if kind }
{
    kind == CommandKind::Elsif || kind == CommandKind::Else
}

/// Whether an `elsif` or `else` may follow a command.
fn allows_else(kind: CommandKind) -> bool
    ensures { result ≡ spec.allows_else kind }
{
    kind == CommandKind::If || kind == CommandKind::Elsif
}

/// Whether only `require` commands stand before the next command. `leads` says so of this one.
fn leads_after(leads: bool, kind: CommandKind) -> bool
    ensures { result ≡ (leads && spec.is_require kind) }
{
    leads && is_require(kind)
}

impl Spot {
    /// The spot at the start of a script.
    pub(crate) fn script_start(profile: Profile) -> Spot
        ensures { at_spot result no_names ≡ spec.script_start (profile_as profile) }
    {
        Spot {
            profile,
            leads: true,
            follows_if: false,
            required: Required::nothing(),
            finds_parts: false,
        }
    }

    /// The spot at the start of a block that stands here.
    pub(crate) fn inside(self) -> Spot
        ensures { (scope : ScopeState) → at_spot result scope ≡ spec.inside (at_spot self scope) }
    {
        Spot {
            leads: false,
            follows_if: false,
            ..self
        }
    }

    /// The required capabilities after a command of this kind with these arguments.
    fn required_after(self, kind: CommandKind, args: &[Argument]) -> Required
        ensures { (scope : ScopeState) → required_as result
            ≡ spec.required_after (at_spot self scope) kind (map argument_of args.now) }
    {
        if self.leads && is_require(kind) {
            requiring_arguments(self.required, args)
        } else {
            self.required
        }
    }

    /// The spot after a command of this kind with these arguments, and before its block.
    pub(crate) fn after_kind(self, kind: CommandKind, args: &[Argument]) -> Spot
        ensures { (scope : ScopeState) → at_spot result (spec.naming_said
            (required_as self.required) scope (known_labels (profile_as self.profile)
            (command_row kind) (map argument_of args.now)) (map argument_of args.now))
            ≡ spec.after_kind (at_spot self scope) (Some kind) (map argument_of args.now) }
    {
        Spot {
            profile: self.profile,
            leads: leads_after(self.leads, kind),
            follows_if: allows_else(kind),
            required: self.required_after(kind, args),
            finds_parts: self.finds_parts,
        }
    }
}
