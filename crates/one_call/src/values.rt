//! Variables: strings as their parts, and the octets that these stand for.

use crate::telling::{Host, mark, tell, tell_done, tell_octets, tell_refused};
use devices::Piece;
use octets::Octets;
use sieve_variables::{Part, PartRef, Values, Variable, VariableRef, parts_of_text};
use std::io;

/// A name of more octets than a variable holds in itself.
const NAME: &[u8] = b"A_Name_Of_More_Octets_Than_Sixteen";

/// Octets, that variable, a shared one and a match variable.
const TEXT: &[u8] = b"to be put beside ${A_Name_Of_More_Octets_Than_Sixteen}, ${global.b}${1}";

pub(crate) fn cut(rt: &impl Host) -> io::Result<()> {
    mark(rt);
    let answer = parts_of_text(rt.alloc(), TEXT);
    mark(rt);
    match answer {
        Ok(parts) => tell_parts(rt, parts.as_slice()),
        Err(_) => tell_refused(rt),
    }
}

fn tell_parts(rt: &impl Print, parts: &[Part]) -> io::Result<()> {
    for part in parts {
        tell_part(rt, part)?;
    }
    Ok(())
}

fn tell_part(rt: &impl Print, part: &Part) -> io::Result<()> {
    match part.as_ref() {
        PartRef::Literal(octets) => tell_octets(rt, octets),
        PartRef::Variable(VariableRef::Local(name)) => tell_name(rt, b"local ", name),
        PartRef::Variable(VariableRef::Global(name)) => tell_name(rt, b"global ", name),
        PartRef::Match(index) => println!(rt; "match {index}"),
    }
}

fn tell_name(rt: &impl Print, place: &[u8], name: &[u8]) -> io::Result<()> {
    tell(rt, &[Piece::Raw(place), Piece::Raw(name)])
}

/// The value of the variable is printed after the answer.
pub(crate) fn set(rt: &impl Host) -> io::Result<()> {
    let mut values = Values::new(rt.alloc());
    let variable = Variable::named(rt.alloc(), NAME)?;
    let value = Octets::copied(rt.alloc(), b"its value")?;
    mark(rt);
    let answer = values.set(rt.alloc(), &variable, value);
    mark(rt);
    tell_done(rt, answer)?;
    tell_octets(rt, values.variable(&variable))
}

/// The values after the variable is set.
fn values_of(rt: &impl Host) -> io::Result<Values> {
    let mut values = Values::new(rt.alloc());
    let variable = Variable::named(rt.alloc(), NAME)?;
    let value = Octets::copied(rt.alloc(), b"its value")?;
    values.set(rt.alloc(), &variable, value)?;
    Ok(values)
}

pub(crate) fn expand(rt: &impl Host) -> io::Result<()> {
    let values = values_of(rt)?;
    let string = parts_of_text(rt.alloc(), TEXT)?;
    mark(rt);
    let answer = values.expanded_string(rt.alloc(), string.as_slice());
    mark(rt);
    match answer {
        Ok(octets) => tell_octets(rt, octets.as_slice()),
        Err(_) => tell_refused(rt),
    }
}

/// Puts the octets that a string stands for into a buffer.
pub(crate) fn join(rt: &impl Host) -> io::Result<()> {
    let values = values_of(rt)?;
    let string = parts_of_text(rt.alloc(), TEXT)?;
    let mut buffer = Vec::from_slice(rt.alloc(), b"before")?;
    mark(rt);
    let answer = values.join(string.as_slice(), &mut buffer);
    mark(rt);
    match answer {
        Ok(()) => tell_octets(rt, &buffer),
        Err(_) => tell_refused(rt),
    }
}

/// Prints whether the variable can be set, and its value.
pub(crate) fn ask(rt: &impl Host) -> io::Result<()> {
    let values = values_of(rt)?;
    let variable = Variable::named(rt.alloc(), NAME)?;
    mark(rt);
    let (has_room, value) = (values.has_room_for(&variable), values.variable(&variable));
    mark(rt);
    println!(rt; "{has_room}")?;
    tell_octets(rt, value)
}
