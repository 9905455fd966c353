//! Variables by their names (RFC 5229, section 3; RFC 6609, 3.4).
ghost use Rattle.octets.specs.Octet.{is_among};
ghost use Rattle.std.specs.Prelude.{◌≡◌, [], IfOk, IsOk, OnErr, OnOk, true};
ghost use Rattle.sieve_variables.specs.Name.{folded_name};
ghost use Rattle.sieve_variables.specs.Variable.{global_variable, local_variable, scoped, variable_named, with_name};
ghost use Rattle.sieve_variables.specs.view.Variable.{variable_ref_as};

use crate::labelled::Labelled;
use crate::name::{folded, global_name};
use indexmap::IndexSet;
use std::alloc::{AllocError, Global};
use std::marker::Model;
use std::mem::size_of;

/// Whether a variable is the script's own, or one that scripts share.
#[derive(Clone, Copy)]
pub(crate) enum VariableScope {
    /// A variable of the script (RFC 5229, section 3).
    Local,
    /// A variable that scripts share (RFC 6609, 3.4).
    Global,
}

/// A variable, by its name in lower case.
#[derive(Drop)]
pub struct Variable {
    pub(crate) name: Labelled<VariableScope>,
}

/// A variable takes two words.
const _: () = prove!(size_of::<Variable>() == 16);

/// A borrowed variable, by its name in lower case.
#[derive(Clone, Copy)]
pub enum VariableRef<'a> {
    /// A variable of the script (RFC 5229, section 3).
    Local(&'a [u8]),
    /// A variable that scripts share (RFC 6609, 3.4).
    Global(&'a [u8]),
}

impl Model for Variable {
    ghost use Rattle.sieve_variables.specs.Variable.{Variable};
    ghost use Rattle.sieve_variables.specs.view.Variable.{variable_of};

    ghost Value = { Variable };

    ghost view = { λ v. variable_of v.name.label v.name.octets };
}

impl Variable {
    /// The variable of the script with this name, in any case of ASCII.
    pub(crate) fn local(alloc: Global, name: &[u8]) -> Result<Variable, AllocError>
        ensures { IfOk result (λ variable. variable ≡ local_variable (folded_name name.now)) }
    {
        Ok(Variable {
            name: Labelled::kept(alloc, VariableScope::Local, folded(alloc, name)?)?,
        })
    }

    /// The shared variable with this name, in any case of ASCII.
    pub(crate) fn shared(alloc: Global, name: &[u8]) -> Result<Variable, AllocError>
        ensures { IfOk result (λ variable. variable ≡ global_variable (folded_name name.now)) }
    {
        Ok(Variable {
            name: Labelled::kept(alloc, VariableScope::Global, folded(alloc, name)?)?,
        })
    }

    /// The variable that a command or a test names. After `global.`, in any case of ASCII, an
    /// identifier names one that scripts share (RFC 6609, 3.4.2). An error is out of memory.
    pub fn named(alloc: Global, name: &[u8]) -> Result<Variable, AllocError>
        ensures { IfOk result (λ variable. variable ≡ variable_named name.now) }
    {
        match global_name(name) {
            Some(rest) => Variable::shared(alloc, rest),
            None => Variable::local(alloc, name),
        }
    }

    /// The variable, borrowed.
    pub fn as_ref(&self) -> VariableRef<'_>
        ensures { variable_ref_as result ≡ self.now }
    {
        let name = self.name.octets();
        match self.name.label() {
            VariableScope::Local => VariableRef::Local(name),
            VariableScope::Global => VariableRef::Global(name),
        }
    }

    /// The variable after names, in lower case, were declared global (RFC 6609, 3.4.1). A variable
    /// of the script with such a name becomes the shared one.
    pub fn scoped(self, declared: &Names) -> Variable
        ensures { result ≡ scoped declared.now self }
    {
        if declared.has(self.name.octets()) {
            Variable {
                name: self.name.with_label(VariableScope::Global),
            }
        } else {
            self
        }
    }
}

/// Names in lower case, each once, in the order in which they came. A hash finds them, so that no
/// number of them makes that slow. Contracts see the names.
#[derive(Drop)]
pub struct Names {
    names: IndexSet<Vec<u8>>,
}

impl Model for Names {
    ghost use Rattle.std.specs.Prelude.{ℕ, List};
    ghost use Rattle.sieve_variables.specs.view.Names.{names_of};

    ghost Value = { List (List ℕ) };

    ghost view = { λ n. names_of n.names.keys };
}

impl Names {
    /// The set without names.
    #[tactic(auto, unfolding(crate::specs::view::Names::names_of))]
    pub fn new(alloc: Global) -> Names
        ensures { result ≡ [] }
    {
        Names {
            names: IndexSet::new(alloc),
        }
    }

    /// Whether a name in lower case is among these.
    pub fn has(&self, name: &[u8]) -> bool
        ensures { result ≡ is_among name.now self.now }
    {
        self.names.contains(name)
    }

    /// Adds a name in lower case. An error is out of memory, and changes nothing. There is none if
    /// the name is there already.
    pub fn add(&mut self, alloc: Global, name: &[u8]) -> Result<(), AllocError>
        ensures ok { OnOk result (self.new ≡ with_name name.now self.old) }
        ensures err { OnErr result (self.new ≡ self.old) }
        ensures there { is_among name.now self.old ≡ true → IsOk result }
    {
        if self.has(name) {
            return Ok(());
        }
        let name = Vec::from_slice(alloc, name)?;
        match self.names.insert(name) {
            Ok(_) => Ok(()),
            Err(_) => Err(AllocError),
        }
    }
}
