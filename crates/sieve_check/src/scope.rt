//! The names of variables in a script's text up to a place (RFC 5229, section 4;
//! RFC 6609, section 3.4.1).
ghost use Rattle.octets.specs.Octet.{is_among};
ghost use Rattle.std.specs.Prelude.{◌≡◌, map, IfOk, OnOk};
ghost use Rattle.sieve_syntax.specs.view.Tree.{argument_of, text_of};
ghost use Rattle.sieve_variables.specs.Name.{folded_name};
ghost use Rattle.sieve_variables.specs.Variable.{with_name};
ghost use Rattle.sieve_check.specs.Breach.{is_past_locals};
ghost use Rattle.sieve_check.specs.Scope as spec;

use octets::Octets;
use sieve_limits::MAX_LOCALS;
use sieve_script::{Label, after_first, first_role};
use sieve_syntax::{Argument, Text};
use sieve_table::{Role, has_role};
use sieve_variables::{Names, folded, is_identifier};
use std::alloc::{AllocError, Global};
use std::marker::Model;

/// The names of variables in the text up to a place. `assigned` are those that are set, each once,
/// as they were first written. `declared` are those that are declared to be shared, in lower case.
/// Contracts see the names.
#[derive(Drop)]
pub(crate) struct Scope {
    assigned: Vec<Octets>,
    declared: Names,
}

impl Model for Scope {
    ghost use Rattle.sieve_check.specs.view.Scope.{ScopeState};

    ghost Value = { ScopeState };

    ghost view = { λ s. record { assigned = s.assigned.items; declared = s.declared } };
}

/// Whether a name is declared, in any case of its letters.
fn is_declared(alloc: Global, name: &[u8], declared: &Names) -> Result<bool, AllocError>
    ensures { IfOk result (λ is. is ≡ is_among (folded_name name.now) declared.now) }
{
    let name = folded(alloc, name)?;
    Ok(declared.has(name.as_slice()))
}

/// Declares a name, in lower case.
fn declare(alloc: Global, declared: &mut Names, name: &[u8]) -> Result<(), AllocError>
    ensures { OnOk result (declared.new ≡ with_name (folded_name name.now) declared.old) }
{
    let name = folded(alloc, name)?;
    declared.add(alloc, name.as_slice())
}

/// Declares the name in each string.
fn declare_texts(alloc: Global, declared: &mut Names, texts: &[Text]) -> Result<(), AllocError>
    ensures { OnOk result
        (declared.new ≡ spec.declaring_texts declared.old (map text_of texts.now)) }
{
    for text in texts {
        declare(alloc, &mut *declared, text.octets())?;
    }
    Ok(())
}

/// Declares the names in an argument, where its role is to declare them.
fn declare_argument(
    alloc: Global,
    declared: &mut Names,
    role: Option<Role>,
    argument: &Argument,
) -> Result<(), AllocError>
    ensures { OnOk result
        (declared.new ≡ spec.declaring_argument declared.old role (argument_of argument.now)) }
{
    match argument {
        Argument::Strings { items, .. } => {
            if has_role(Role::NamesToDeclare, role) {
                declare_texts(alloc, declared, items)
            } else {
                Ok(())
            }
        }
        Argument::Number { .. } => Ok(()),
        Argument::Tag { .. } => Ok(()),
    }
}

/// Declares the names in arguments, each by its label.
fn declare_arguments(
    alloc: Global,
    declared: &mut Names,
    labels: &[Label],
    args: &[Argument],
) -> Result<(), AllocError>
    ensures { OnOk result (declared.new
        ≡ spec.declaring_arguments declared.old labels.now (map argument_of args.now)) }
{
    let mut labels_left = labels;
    for argument in args {
        declare_argument(alloc, &mut *declared, first_role(labels_left), argument)?;
        labels_left = after_first(labels_left);
    }
    Ok(())
}

impl Scope {
    /// A scope without names.
    pub(crate) fn new(alloc: Global) -> Scope
        ensures { result ≡ spec.no_names }
    {
        Scope {
            assigned: Vec::new(alloc),
            declared: Names::new(alloc),
        }
    }

    /// Whether the script sets a variable of its own under a name. The case
    /// of letters doesn't matter.
    pub(crate) fn is_assigned(&self, name: &[u8]) -> bool
        ensures { result ≡ spec.is_assigned name.now self.now }
    {
        self.assigned
            .iter()
            .any(|other| name.eq_ignore_ascii_case(other.as_slice()))
    }

    /// Whether a name is that of a variable of the script that isn't set yet.
    fn lacks(&self, alloc: Global, name: &[u8]) -> Result<bool, AllocError>
        ensures { IfOk result (λ lacks. lacks ≡ spec.is_new_local name.now self.now) }
    {
        if !is_identifier(name) || self.is_assigned(name) {
            return Ok(false);
        }
        let declared = is_declared(alloc, name, &self.declared)?;
        Ok(!declared)
    }

    /// Whether a name is that of one variable of the script too many (RFC 5229, section 6).
    pub(crate) fn is_full_for(&self, alloc: Global, name: &[u8]) -> Result<bool, AllocError>
        ensures { IfOk result (λ full. full ≡ is_past_locals name.now self.now) }
    {
        if self.assigned.len() < MAX_LOCALS {
            Ok(false)
        } else {
            self.lacks(alloc, name)
        }
    }

    /// Adds a name that is to be set, where it is that of a new variable of the script.
    #[tactic(auto, unfolding(crate::specs::Scope::assigning))]
    fn assign(&mut self, alloc: Global, name: &[u8]) -> Result<(), AllocError>
        ensures { OnOk result (self.new ≡ spec.assigning self.old name.now) }
    {
        if self.lacks(alloc, name)? {
            let copy = Octets::copied(alloc, name)?;
            self.assigned.push(copy)?;
        }
        Ok(())
    }

    /// Adds the name in each string, as `assign` does.
    fn assign_texts(&mut self, alloc: Global, texts: &[Text]) -> Result<(), AllocError>
        ensures { OnOk result (self.new ≡ spec.assigning_texts self.old (map text_of texts.now)) }
    {
        for text in texts {
            self.assign(alloc, text.octets())?;
        }
        Ok(())
    }

    /// Adds the names in an argument, where its role is to set them.
    fn assign_argument(
        &mut self,
        alloc: Global,
        role: Option<Role>,
        argument: &Argument,
    ) -> Result<(), AllocError>
        ensures { OnOk result
            (self.new ≡ spec.assigning_argument self.old role (argument_of argument.now)) }
    {
        match argument {
            Argument::Strings { items, .. } => {
                if has_role(Role::NameToSet, role) {
                    self.assign_texts(alloc, items)
                } else {
                    Ok(())
                }
            }
            Argument::Number { .. } => Ok(()),
            Argument::Tag { .. } => Ok(()),
        }
    }

    /// Adds the names that arguments set, each by its label.
    fn assign_arguments(
        &mut self,
        alloc: Global,
        labels: &[Label],
        args: &[Argument],
    ) -> Result<(), AllocError>
        ensures { OnOk result
            (self.new ≡ spec.assigning_arguments self.old labels.now (map argument_of args.now)) }
    {
        let mut labels_left = labels;
        for argument in args {
            self.assign_argument(alloc, first_role(labels_left), argument)?;
            labels_left = after_first(labels_left);
        }
        Ok(())
    }

    /// The names that are declared, in lower case.
    pub(crate) fn declared(&self) -> &Names
        ensures { result.now ≡ self.now.declared }
    {
        &self.declared
    }

    /// Adds the names that arguments set, and declares those that they declare, each by its label.
    pub(crate) fn name_arguments(
        &mut self,
        alloc: Global,
        labels: &[Label],
        args: &[Argument],
    ) -> Result<(), AllocError>
        ensures { OnOk result
            (self.new ≡ spec.naming_arguments self.old labels.now (map argument_of args.now)) }
    {
        self.assign_arguments(alloc, labels, args)?;
        declare_arguments(alloc, &mut self.declared, labels, args)
    }
}
