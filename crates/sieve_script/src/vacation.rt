//! How a `vacation` is read (RFC 5230, section 4).
ghost use Rattle.std.specs.Prelude.{◌≡◌, IfOk, map};
ghost use Rattle.std.specs.Option.{option_map};
ghost use Rattle.sieve_script.specs.CommandReading.{vacation_by};
ghost use Rattle.sieve_script.specs.Given.{in_role};
ghost use Rattle.sieve_script.specs.view.Reading.{leaf_as};
ghost use Rattle.sieve_script.specs.view.CutArgument.{cut_as};
ghost use Rattle.sieve_table.specs.declared.row.Role.TheVariants as role;

use crate::by_label::{argument_in, first_or};
use crate::cut_argument::CutArgument;
use crate::given::{given_number, given_text, given_texts, text_in};
use crate::label::{Label, after_first, first_role};
use crate::reading::{Leaf, ReadLeaf, Vacation};
use crate::tags::Tags;
use sieve_table::{Role, TagKind, has_role};
use std::alloc::{AllocError, Global};

/// The arguments of a `vacation` that have strings, each the first in its role.
struct VacationStrings {
    reason: Option<CutArgument>,
    subject: Option<CutArgument>,
    from: Option<CutArgument>,
    addresses: Option<CutArgument>,
    handle: Option<CutArgument>,
}

/// The first argument in each of these roles, by value.
fn into_strings(labels: &[Label], args: Vec<CutArgument>) -> VacationStrings
    ensures reason { option_map cut_as result.reason
        ≡ in_role role.Text labels.now (map cut_as args.items) }
    ensures subject { option_map cut_as result.subject
        ≡ in_role role.Subject labels.now (map cut_as args.items) }
    ensures from { option_map cut_as result.from
        ≡ in_role role.Sender labels.now (map cut_as args.items) }
    ensures addresses { option_map cut_as result.addresses
        ≡ in_role role.OwnAddresses labels.now (map cut_as args.items) }
    ensures handle { option_map cut_as result.handle
        ≡ in_role role.Handle labels.now (map cut_as args.items) }
{
    let mut labels_left = labels;
    let mut reason = None;
    let mut subject = None;
    let mut from = None;
    let mut addresses = None;
    let mut handle = None;
    for argument in args {
        let role = first_role(labels_left);
        labels_left = after_first(labels_left);
        if has_role(Role::Text, role) {
            reason = first_or(reason, argument);
        } else if has_role(Role::Subject, role) {
            subject = first_or(subject, argument);
        } else if has_role(Role::Sender, role) {
            from = first_or(from, argument);
        } else if has_role(Role::OwnAddresses, role) {
            addresses = first_or(addresses, argument);
        } else if has_role(Role::Handle, role) {
            handle = first_or(handle, argument);
        }
    }
    VacationStrings {
        reason,
        subject,
        from,
        addresses,
        handle,
    }
}

/// Reads a `vacation`. An error means that memory ran out.
pub(crate) fn vacation_leaf(
    alloc: Global,
    labels: &[Label],
    args: Vec<CutArgument>,
) -> Result<ReadLeaf, AllocError>
    ensures { IfOk result
        (λ leaf. leaf_as leaf ≡ vacation_by labels.now (map cut_as args.items)) }
{
    let mime = Tags::among(labels).has(TagKind::Mime);
    let days = given_number(argument_in(labels, Role::Days, &args));
    let VacationStrings {
        reason,
        subject,
        from,
        addresses,
        handle,
    } = into_strings(labels, args);
    let vacation = Vacation {
        reason: text_in(reason),
        days,
        subject: given_text(subject),
        from: given_text(from),
        addresses: given_texts(alloc, addresses),
        mime,
        handle: given_text(handle),
    };
    let vacation = Box::new(alloc, vacation)?;
    Ok(Leaf::Vacation { vacation })
}
