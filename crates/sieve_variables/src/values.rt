//! The values of variables while a script runs (RFC 5229, section 3).
ghost use Rattle.std.specs.Prelude.{◌≡◌, IsOk, OnErr, OnOk, slice_get, true};
ghost use Rattle.sieve_variables.specs.Value as spec;
ghost use Rattle.sieve_variables.specs.view.Variable.{variable_ref_as};

use crate::part::{Part, PartRef};
use crate::variable::{Variable, VariableRef};
use crate::variables::Variables;
use octets::Octets;
use std::alloc::{AllocError, Global};
use std::marker::Model;
use std::mem;

/// The variables while a script runs: its own, those that scripts share, and the texts of its last
/// match. Contracts see the names with their values, and the texts of the match.
#[derive(Drop)]
pub struct Values {
    locals: Variables,
    globals: Variables,
    matched: Vec<Octets>,
}

impl Model for Values {
    ghost use Rattle.sieve_variables.specs.view.Value.{ValuesState};

    ghost Value = { ValuesState };

    ghost view = { λ v. record { locals = v.locals; globals = v.globals; matched = v.matched.items } };
}

/// The variables of a script and the texts of its last match, set aside while an
/// included script runs.
#[derive(Drop)]
pub struct Own {
    locals: Variables,
    matched: Vec<Octets>,
}

impl Model for Own {
    ghost use Rattle.sieve_variables.specs.view.Value.{OwnState};

    ghost Value = { OwnState };

    ghost view = { λ o. record { locals = o.locals; matched = o.matched.items } };
}

impl Values {
    /// The values at the start of a run: no variable is set, and nothing has matched.
    pub fn new(alloc: Global) -> Values
        ensures { result ≡ spec.no_values }
    {
        Values {
            locals: Variables::new(alloc),
            globals: Variables::new(alloc),
            matched: Vec::new(alloc),
        }
    }

    /// Begins an included script, which shares the global variables and has nothing of its own
    /// (RFC 6609, 3.4). The result is what the including script has of its own.
    pub fn begin(&mut self, alloc: Global) -> Own
        ensures begun { self.new ≡ spec.begun_values self.old }
        ensures own { result ≡ spec.own_of self.old }
    {
        Own {
            locals: mem::replace(&mut self.locals, Variables::new(alloc)),
            matched: mem::replace(&mut self.matched, Vec::new(alloc)),
        }
    }

    /// Goes on with a script that has these variables and texts of its own. The variables that
    /// scripts share stay.
    pub fn resume(&mut self, own: Own)
        ensures { self.new ≡ spec.with_own own self.old }
    {
        self.locals = own.locals;
        self.matched = own.matched;
    }

    /// Whether a variable can be set. One of the script always can, since these are counted before
    /// it runs. One that scripts share can if it is set already, or if fewer than 128 are
    /// (RFC 5229, section 6).
    pub fn has_room_for(&self, variable: &Variable) -> bool
        ensures { result ≡ spec.has_room_for variable.now self.now }
    {
        match variable.as_ref() {
            VariableRef::Local(_) => true,
            VariableRef::Global(name) => self.globals.has_room(name),
        }
    }

    /// Sets a variable, and drops its old value (RFC 5229, section 4). An error is out of memory,
    /// and changes nothing. There is none if the variable is set already.
    pub fn set(
        &mut self,
        alloc: Global,
        variable: &Variable,
        value: Octets,
    ) -> Result<(), AllocError>
        ensures ok { OnOk result (self.new ≡ spec.with_variable variable.now value self.old) }
        ensures err { OnErr result (self.new ≡ self.old) }
        ensures held { spec.is_set variable.now self.old ≡ true → IsOk result }
    {
        match variable.as_ref() {
            VariableRef::Local(name) => self.locals.set(alloc, name, value),
            VariableRef::Global(name) => self.globals.set(alloc, name, value),
        }
    }

    /// Keeps the texts of a match: the whole value, and the text of each wildcard (RFC 5229, 3.2).
    pub fn set_matched(&mut self, texts: Vec<Octets>)
        ensures { self.new ≡ spec.with_matched texts.items self.old }
    {
        self.matched = texts;
    }

    /// The value of a variable: no octets if it isn't set (RFC 5229, section 3).
    pub fn variable(&self, variable: &Variable) -> &[u8]
        ensures { result.now ≡ spec.variable_value self.now variable.now }
    {
        self.variable_text(variable.as_ref())
    }

    /// The value of a borrowed variable: no octets if it isn't set.
    fn variable_text(&self, variable: VariableRef<'_>) -> &[u8]
        ensures { result.now ≡ spec.variable_value self.now (variable_ref_as variable.entry) }
    {
        match variable {
            VariableRef::Local(name) => self.locals.get(name),
            VariableRef::Global(name) => self.globals.get(name),
        }
    }

    /// The text of the last match at a number: no octets if there is none.
    fn matched_text(&self, index: usize) -> &[u8]
        ensures { result.now ≡ spec.or_empty (slice_get self.now.matched index) }
    {
        match self.matched.get(index) {
            Some(text) => text.as_slice(),
            None => &[],
        }
    }

    /// The octets that a part stands for.
    pub fn part<'a>(&'a self, part: &'a Part) -> &'a [u8]
        ensures { result.now ≡ spec.part_value self.now part.now }
    {
        match part.as_ref() {
            PartRef::Literal(octets) => octets,
            PartRef::Variable(variable) => self.variable_text(variable),
            PartRef::Match(index) => self.matched_text(usize::from(index)),
        }
    }
}
