//! The arguments of a checked command or test, found by the roles that their labels give.
ghost use Rattle.std.specs.Prelude.{◌≡◌, Some, false, map};
ghost use Rattle.std.specs.Option.{option_map};
ghost use Rattle.sieve_script.specs.Given.{first_or, in_role};
ghost use Rattle.sieve_table.specs.Role.{same_role};
ghost use Rattle.sieve_script.specs.view.CutArgument.{cut_as};

use crate::cut_argument::CutArgument;
use crate::label::{Label, after_first, first_role};
use sieve_table::{Role, has_role};

/// The first argument in a role; `None` where no argument has it.
pub(crate) fn argument_in<'a>(
    labels: &[Label],
    wanted: Role,
    args: &'a [CutArgument],
) -> Option<&'a CutArgument>
    ensures { option_map (λ a. cut_as a.now) result
        ≡ in_role wanted labels.now (map cut_as args.now) }
{
    let mut labels_left = labels;
    for argument in args {
        if has_role(wanted, first_role(labels_left)) {
            return Some(argument);
        }
        labels_left = after_first(labels_left);
    }
    None
}

/// The first argument in a role, by value; `None` where no argument has it.
pub(crate) fn into_argument(
    labels: &[Label],
    wanted: Role,
    args: Vec<CutArgument>,
) -> Option<CutArgument>
    ensures { option_map cut_as result
        ≡ in_role wanted labels.now (map cut_as args.items) }
{
    let mut labels_left = labels;
    for argument in args {
        if has_role(wanted, first_role(labels_left)) {
            return Some(argument);
        }
        labels_left = after_first(labels_left);
    }
    None
}

/// The first argument where there is one, or else the other.
pub(crate) fn first_or(first: Option<CutArgument>, other: CutArgument) -> Option<CutArgument>
    ensures { option_map cut_as result
        ≡ first_or (option_map cut_as first) (Some (cut_as other)) }
{
    match first {
        Some(first) => Some(first),
        None => Some(other),
    }
}

/// The first argument in each of two roles, by value. The roles must differ.
pub(crate) fn into_arguments(
    labels: &[Label],
    wanted: Role,
    other: Role,
    args: Vec<CutArgument>,
) -> (Option<CutArgument>, Option<CutArgument>)
    requires { same_role other wanted ≡ false }
    ensures wanted { option_map cut_as result.0
        ≡ in_role wanted labels.now (map cut_as args.items) }
    ensures other { option_map cut_as result.1
        ≡ in_role other labels.now (map cut_as args.items) }
{
    let (in_wanted, in_other, _) = into_three(labels, wanted, other, other, args);
    (in_wanted, in_other)
}

/// The first argument in each of three roles, by value. `wanted` and `other` must differ. `third`
/// may be one of these, and then has no argument.
pub(crate) fn into_three(
    labels: &[Label],
    wanted: Role,
    other: Role,
    third: Role,
    args: Vec<CutArgument>,
) -> (
    Option<CutArgument>,
    Option<CutArgument>,
    Option<CutArgument>,
)
    requires { same_role other wanted ≡ false }
    ensures wanted { option_map cut_as result.0
        ≡ in_role wanted labels.now (map cut_as args.items) }
    ensures other { option_map cut_as result.1
        ≡ in_role other labels.now (map cut_as args.items) }
    ensures third { same_role third wanted ≡ false → same_role third other ≡ false
        → option_map cut_as result.2
        ≡ in_role third labels.now (map cut_as args.items) }
{
    let mut labels_left = labels;
    let mut in_wanted = None;
    let mut in_other = None;
    let mut in_third = None;
    for argument in args {
        let role = first_role(labels_left);
        labels_left = after_first(labels_left);
        if has_role(wanted, role) {
            in_wanted = first_or(in_wanted, argument);
        } else if has_role(other, role) {
            in_other = first_or(in_other, argument);
        } else if has_role(third, role) {
            in_third = first_or(in_third, argument);
        }
    }
    (in_wanted, in_other, in_third)
}
