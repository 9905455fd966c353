//! Strings as their parts in order (RFC 5229, section 3).
ghost use Rattle.std.specs.Prelude.{◌≡◌, ◌∷◌, ◌++◌, [], map, IfOk, OnErr, OnOk};
ghost use Rattle.sieve_variables.specs.Part.{scoped_part};
ghost use Rattle.sieve_variables.specs.view.Parts.{one_part, parts_of};

use crate::part::Part;
use crate::variable::Names;
use std::alloc::{AllocError, Global};
use std::marker::Model;
use std::mem::size_of;
use std::{mem, slice};

/// The place of parts.
#[derive(Drop)]
enum Run {
    /// There are none.
    None,
    /// In the value itself.
    One(Part),
    /// In a box.
    Several(Box<Vec<Part>>),
}

/// The parts of a string. One, as nearly all strings have, lies in the value itself.
#[derive(Drop)]
pub struct Parts {
    run: Run,
}

/// A string takes three words where it has one part or none.
const _: () = prove!(size_of::<Parts>() == 24);

impl Model for Parts {
    ghost use Rattle.std.specs.Prelude.{List};
    ghost use Rattle.sieve_variables.specs.Part.{Part};
    ghost use Rattle.sieve_variables.specs.view.Parts.{parts_of};

    ghost Value = { List Part };

    ghost view = { λ p. parts_of p.run };
}

impl Parts {
    /// The parts of the empty string: none.
    pub fn none() -> Parts
        ensures { result ≡ [] }
    {
        Parts { run: Run::None }
    }

    /// The parts of a string of one part.
    pub fn one(part: Part) -> Parts
        ensures { result ≡ part ∷ [] }
    {
        Parts {
            run: Run::One(part),
        }
    }

    /// The parts in order.
    pub fn as_slice(&self) -> &[Part]
        ensures { result.now ≡ self.now }
    {
        match &self.run {
            Run::None => &[],
            Run::One(part) => slice::from_ref(part),
            Run::Several(parts) => parts.as_slice(),
        }
    }

    /// The part, if there is one alone.
    pub fn into_one(self) -> Option<Part>
        ensures { result ≡ one_part self }
    {
        let run = self.run;
        match run {
            Run::None => None,
            Run::One(part) => Some(part),
            Run::Several(parts) => one_of(Box::into_inner(parts)),
        }
    }

    /// Moves the parts to the end of a list. That takes memory if the list has too little room. An
    /// error is out of memory.
    pub fn append_to(self, parts: &mut Vec<Part>) -> Result<(), AllocError>
        ensures { OnOk result (parts.new.items ≡ parts.old.items ++ self) }
    {
        let run = self.run;
        match run {
            Run::None => Ok(()),
            Run::One(part) => {
                parts.push(part)?;
                Ok(())
            }
            Run::Several(more) => {
                let mut more = Box::into_inner(more);
                parts.append(&mut more)
            }
        }
    }

    /// Adds a part. More than one take memory. An error is out of memory, and leaves no parts.
    pub(crate) fn push(&mut self, alloc: Global, part: Part) -> Result<(), AllocError>
        ensures ok { OnOk result (self.new ≡ self.old ++ part ∷ []) }
        ensures err { OnErr result (self.new ≡ []) }
    {
        let run = mem::replace(&mut self.run, Run::None);
        self.run = with_part(alloc, run, part)?;
        Ok(())
    }
}

/// The parts and one more.
fn with_part(alloc: Global, run: Run, part: Part) -> Result<Run, AllocError>
    ensures { IfOk result (λ more. parts_of more ≡ parts_of run ++ part ∷ []) }
{
    match run {
        Run::None => Ok(Run::One(part)),
        Run::One(first) => {
            let mut parts = Vec::with_capacity(alloc, 2)?;
            parts.push(first)?;
            parts.push(part)?;
            Ok(Run::Several(Box::new(alloc, parts)?))
        }
        Run::Several(mut parts) => {
            parts.push(part)?;
            Ok(Run::Several(parts))
        }
    }
}

/// The part of a list, if it has one alone.
fn one_of(parts: Vec<Part>) -> Option<Part>
    ensures { result ≡ one_part parts.items }
{
    let mut parts = parts.into_iter();
    match (parts.next(), parts.next()) {
        (Some(part), None) => Some(part),
        _ => None,
    }
}

/// The parts of a list after names, in lower case, were declared global (RFC 6609, 3.4.1).
fn scoped_list(alloc: Global, parts: Vec<Part>, declared: &Names) -> Result<Vec<Part>, AllocError>
    ensures { IfOk result (λ scoped. scoped.items ≡ map (scoped_part declared.now) parts.items) }
{
    let mut scoped = Vec::with_capacity(alloc, parts.len())?;
    for part in parts {
        scoped.push(part.scoped(declared))?;
    }
    Ok(scoped)
}

/// The parts of a string after names, in lower case, were declared global (RFC 6609, 3.4.1). An
/// error is out of memory.
pub fn scoped_parts(alloc: Global, parts: Parts, declared: &Names) -> Result<Parts, AllocError>
    ensures { IfOk result (λ scoped. scoped ≡ map (scoped_part declared.now) parts) }
{
    let run = parts.run;
    let run = match run {
        Run::None => Run::None,
        Run::One(part) => Run::One(part.scoped(declared)),
        Run::Several(parts) => {
            let scoped = scoped_list(alloc, Box::into_inner(parts), declared)?;
            Run::Several(Box::new(alloc, scoped)?)
        }
    };
    Ok(Parts { run })
}
