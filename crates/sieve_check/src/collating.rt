//! Which comparators a script may name (RFC 5228, section 2.7.3; RFC 4790, section 9.1).
ghost use Rattle.std.specs.Prelude.{◌≡◌, map, IfOk};
ghost use Rattle.std.specs.List.{list_any};
ghost use Rattle.sieve_check.specs.Collating as spec;
ghost use Rattle.sieve_profile.specs.view.Profile.{profile_as};
ghost use Rattle.sieve_syntax.specs.view.Tree.{argument_of, text_of};
ghost use Rattle.sieve_table.specs.view.Required.{required_as};

use crate::said::said;
use match_text::{Collation, collation_named};
use sieve_profile::Profile;
use sieve_script::{Label, after_first, first_role};
use sieve_syntax::{Argument, Text};
use sieve_table::{Capability, Required, Role, has_role, is_known};
use std::alloc::{AllocError, Global};

/// The capability that a comparator needs.
fn needed_for(collation: Collation) -> Capability
    ensures { result ≡ spec.needed_for collation }
{
    match collation {
        Collation::Octet => Capability::OctetComparator,
        Collation::Casemap => Capability::CasemapComparator,
        Collation::Numeric => Capability::NumericComparator,
    }
}

/// The comparator of a name, where a bench of the profile knows it.
pub(crate) fn known_collation(profile: Profile, name: &[u8]) -> Option<Collation>
    ensures { result ≡ spec.known_collation (profile_as profile) name.now }
{
    match collation_named(name) {
        Some(collation) if is_known(profile, needed_for(collation)) => Some(collation),
        _ => None,
    }
}

/// Whether a comparator has no substrings (RFC 4790, section 9.1).
pub(crate) fn lacks_substrings(collation: Option<Collation>) -> bool
    ensures { result ≡ spec.lacks_substrings collation }
{
    match collation {
        Some(Collation::Numeric) => true,
        Some(Collation::Octet) | Some(Collation::Casemap) | None => false,
    }
}

/// Whether a comparator has to be required, and isn't.
fn collation_lacks(required: Required, collation: Option<Collation>) -> bool
    ensures { result ≡ spec.collation_lacks (required_as required) collation }
{
    match collation {
        Some(collation) => !required.has(needed_for(collation)),
        None => false,
    }
}

/// Whether a string names a comparator that has to be required, and isn't, by the
/// octets that it says.
fn text_lacks(
    alloc: Global,
    profile: Profile,
    required: Required,
    role: Option<Role>,
    text: &Text,
) -> Result<bool, AllocError>
    ensures { IfOk result (λ lacks. lacks
        ≡ spec.text_lacks (profile_as profile) (required_as required) role (text_of text.now)) }
{
    match said(alloc, required, role, text.octets())? {
        Some(name) => {
            let collation = known_collation(profile, name.as_slice());
            Ok(collation_lacks(required, collation))
        }
        None => Ok(false),
    }
}

/// Whether some string names a comparator that has to be required, and isn't.
fn texts_lack(
    alloc: Global,
    profile: Profile,
    required: Required,
    role: Option<Role>,
    texts: &[Text],
) -> Result<bool, AllocError>
    ensures { IfOk result (λ lack. lack ≡ list_any (spec.text_lacks (profile_as profile)
        (required_as required) role) (map text_of texts.now)) }
{
    for text in texts {
        if text_lacks(alloc, profile, required, role, text)? {
            return Ok(true);
        }
    }
    Ok(false)
}

/// Whether a string of an argument in its role names a comparator that has to
/// be required, and isn't.
fn argument_lacks(
    alloc: Global,
    profile: Profile,
    required: Required,
    role: Option<Role>,
    argument: &Argument,
) -> Result<bool, AllocError>
    ensures { IfOk result (λ lacks. lacks ≡ spec.argument_lacks (profile_as profile)
        (required_as required) role (argument_of argument.now)) }
{
    match argument {
        Argument::Strings { items, .. } => {
            if has_role(Role::ComparatorName, role) {
                texts_lack(alloc, profile, required, role, items)
            } else {
                Ok(false)
            }
        }
        Argument::Number { .. } => Ok(false),
        Argument::Tag { .. } => Ok(false),
    }
}

/// Whether some argument, each by its label, names a comparator that has to be required, and isn't.
pub(crate) fn arguments_lack(
    alloc: Global,
    profile: Profile,
    required: Required,
    labels: &[Label],
    args: &[Argument],
) -> Result<bool, AllocError>
    ensures { IfOk result (λ lack. lack ≡ spec.arguments_lack (profile_as profile)
        (required_as required) labels.now (map argument_of args.now)) }
{
    let mut labels_left = labels;
    for argument in args {
        if argument_lacks(alloc, profile, required, first_role(labels_left), argument)? {
            return Ok(true);
        }
        labels_left = after_first(labels_left);
    }
    Ok(false)
}
