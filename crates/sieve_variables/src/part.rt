//! The parts of strings (RFC 5229, section 3).
ghost use Rattle.std.specs.Prelude.{◌≡◌, ◌≤◌, [], IfOk, IsOk, length};
ghost use Rattle.sieve_variables.specs.Part.{literal, match_part, scoped_part, variable_part};
ghost use Rattle.sieve_variables.specs.view.Part.{part_ref_as, plain_octets, variable_in};

use crate::labelled::Labelled;
use crate::variable::{Names, Variable, VariableRef, VariableScope};
use octets::SmallOctets;
use std::alloc::{AllocError, Global};
use std::marker::Model;
use std::mem::size_of;

/// The kind of a part.
#[derive(Clone, Copy)]
pub(crate) enum PartKind {
    /// Octets that stand for themselves.
    Literal,
    /// The value of a variable of the script, by its name.
    Local,
    /// The value of a variable that scripts share, by its name.
    Global,
    /// A text of the last match, by its number.
    Match(u8),
}

/// A part of a string: octets, a variable, or a match variable (RFC 5229, section 3).
#[derive(Drop)]
pub struct Part {
    octets: Labelled<PartKind>,
}

/// A part takes two words. A text can have two for each five octets, as `x${a}`.
const _: () = prove!(size_of::<Part>() == 16);

/// A borrowed part of a string.
#[derive(Clone, Copy)]
pub enum PartRef<'a> {
    /// Octets that stand for themselves.
    Literal(&'a [u8]),
    /// The value of a variable (RFC 5229, section 3).
    Variable(VariableRef<'a>),
    /// A text of the last match, by its number (RFC 5229, 3.2). The whole value has 0, and each
    /// wildcard has a number from 1 on. A checked script has none past 99.
    Match(u8),
}

/// Octets that stand for themselves. Contracts see them.
#[derive(Drop)]
pub struct Literal {
    octets: Labelled<()>,
}

impl Model for Literal {
    ghost use Rattle.std.specs.Prelude.{ℕ, List};

    ghost Value = { List ℕ };

    ghost view = { λ l. l.octets.octets };
}

impl Literal {
    /// The octets of the literal.
    pub fn as_slice(&self) -> &[u8]
        ensures { result.now ≡ self.now }
    {
        self.octets.octets()
    }
}

impl Model for Part {
    ghost use Rattle.sieve_variables.specs.Part.{Part};
    ghost use Rattle.sieve_variables.specs.view.Part.{part_of};

    ghost Value = { Part };

    ghost view = { λ p. part_of p.octets.label p.octets.octets };
}

impl Part {
    /// A part of octets that stand for themselves. More than twelve take memory. An error is
    /// out of memory.
    pub fn literal(alloc: Global, octets: SmallOctets) -> Result<Part, AllocError>
        ensures ok { IfOk result (λ part. part ≡ literal octets.items) }
        ensures few { length octets.items ≤ 12 → IsOk result }
    {
        Ok(Part {
            octets: Labelled::kept(alloc, PartKind::Literal, octets)?,
        })
    }

    /// A part that stands for no octets.
    pub fn nothing() -> Part
        ensures { result ≡ literal [] }
    {
        Part {
            octets: Labelled::none(PartKind::Literal),
        }
    }

    /// A part that stands for the value of a variable.
    pub fn variable(variable: Variable) -> Part
        ensures { result ≡ variable_part variable }
    {
        let kind = match variable.name.label() {
            VariableScope::Local => PartKind::Local,
            VariableScope::Global => PartKind::Global,
        };
        Part {
            octets: variable.name.with_label(kind),
        }
    }

    /// A part that stands for a text of the last match, by its number (RFC 5229, 3.2).
    pub fn matched(index: u8) -> Part
        ensures { result ≡ match_part index }
    {
        Part {
            octets: Labelled::none(PartKind::Match(index)),
        }
    }

    /// The part, borrowed.
    pub fn as_ref(&self) -> PartRef<'_>
        ensures { part_ref_as result ≡ self.now }
    {
        let octets = self.octets.octets();
        match self.octets.label() {
            PartKind::Literal => PartRef::Literal(octets),
            PartKind::Local => PartRef::Variable(VariableRef::Local(octets)),
            PartKind::Global => PartRef::Variable(VariableRef::Global(octets)),
            PartKind::Match(index) => PartRef::Match(index),
        }
    }

    /// The octets of a part that stands for itself. For any other part there are none.
    pub fn plain_octets(&self) -> &[u8]
        ensures { result.now ≡ plain_octets self.now }
    {
        match self.as_ref() {
            PartRef::Literal(octets) => octets,
            PartRef::Variable(_) => &[],
            PartRef::Match(_) => &[],
        }
    }

    /// The octets of a part that stands for itself. For any other part there are none.
    pub fn into_literal(self) -> Literal
        ensures { result ≡ plain_octets self }
    {
        let octets = match self.octets.label() {
            PartKind::Literal => self.octets.with_label(()),
            PartKind::Local => Labelled::none(()),
            PartKind::Global => Labelled::none(()),
            PartKind::Match(_) => Labelled::none(()),
        };
        Literal { octets }
    }

    /// The variable whose value the part is. For any other part it is the one without a name, which
    /// no script has.
    pub fn into_variable(self) -> Variable
        ensures { result ≡ variable_in self }
    {
        let name = match self.octets.label() {
            PartKind::Local => self.octets.with_label(VariableScope::Local),
            PartKind::Global => self.octets.with_label(VariableScope::Global),
            PartKind::Literal => Labelled::none(VariableScope::Local),
            PartKind::Match(_) => Labelled::none(VariableScope::Local),
        };
        Variable { name }
    }

    /// The part after names, in lower case, were declared global (RFC 6609, 3.4.1).
    pub(crate) fn scoped(self, declared: &Names) -> Part
        ensures { result ≡ scoped_part declared.now self }
    {
        match self.octets.label() {
            PartKind::Local => {
                if declared.has(self.octets.octets()) {
                    Part {
                        octets: self.octets.with_label(PartKind::Global),
                    }
                } else {
                    self
                }
            }
            PartKind::Global => self,
            PartKind::Literal => self,
            PartKind::Match(_) => self,
        }
    }
}
