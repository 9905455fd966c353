//! The parts, strings and numbers of a dump.
ghost use Rattle.std.specs.Prelude.{◌≡◌, ◌++◌, codes, decimal, drop};
ghost use Rattle.std.specs.List.{flat_map};
ghost use Rattle.devices.specs.Writers.{Writes};
ghost use Rattle.sieve_dump.specs.Strings.{further_list, list_text, name_of, part_text, scope_word, separated, string_text};
ghost use Rattle.sieve_variables.specs.view.Variable.{variable_ref_as};
ghost use Rattle.sieve_dump.specs.view.Marked.{marked_part, marked_string};

use devices::{Piece, Sink, WriteFault, write_out, write_pieces};
use packed_strings::Strings;
use sieve_variables::{Part, PartRef, VariableRef};

/// The word that says whether a variable is local or global, with a bracket after it.
pub(crate) fn scope_word(variable: VariableRef<'_>) -> &'static [u8]
    ensures { result.now ≡ scope_word (variable_ref_as variable.entry) }
{
    match variable {
        VariableRef::Local(_) => b"local(",
        VariableRef::Global(_) => b"global(",
    }
}

/// The name of a variable.
pub(crate) fn name_of(variable: VariableRef<'_>) -> &[u8]
    ensures { result.now ≡ name_of (variable_ref_as variable.entry) }
{
    match variable {
        VariableRef::Local(name) => name,
        VariableRef::Global(name) => name,
    }
}

/// Writes these octets and then a part of a string.
fn write_part<'x, W: Sink>(
    front: &'x [u8],
    part: &'x Part,
    writer: &mut W,
) -> Result<(), WriteFault>
    ensures { Writes W.contents W.fault_count result writer.old writer.new
        (front.now ++ part_text part.now) }
{
    match part.as_ref() {
        PartRef::Literal(octets) => write_pieces(
            &[Piece::Raw(front), Piece::Quoted(octets)],
            writer,
        ),
        PartRef::Variable(variable) => write_pieces(
            &[
                Piece::Raw(front),
                Piece::Raw(scope_word(variable)),
                Piece::Raw(name_of(variable)),
                Piece::Raw(b")"),
            ],
            writer,
        ),
        PartRef::Match(index) => write_pieces(
            &[
                Piece::Raw(front),
                Piece::Raw(b"match("),
                Piece::Number(u64::from(index)),
                Piece::Raw(b")"),
            ],
            writer,
        ),
    }
}

/// Writes parts after another part, each after a `+`.
#[tactic(auto, using(devices::proofs::Writing::writing_items), unfolding(crate::specs::view::Marked::marked_part))]
fn write_marked_parts<W: Sink>(parts: &[Part], writer: &mut W) -> Result<(), WriteFault>
    ensures { Writes W.contents W.fault_count result writer.old writer.new
        (flat_map marked_part parts.now) }
{
    for part in parts {
        write_part(b"+", part, writer)?;
    }
    Ok(())
}

/// Writes these octets and then a string.
pub(crate) fn write_string<W: Sink>(
    front: &[u8],
    parts: &[Part],
    writer: &mut W,
) -> Result<(), WriteFault>
    ensures { Writes W.contents W.fault_count result writer.old writer.new
        (front.now ++ string_text parts.now) }
{
    match parts {
        [] => write_pieces(&[Piece::Raw(front), Piece::Raw(b"\"\"")], writer),
        [part, others @ ..] => {
            write_part(front, part, writer)?;
            write_marked_parts(others, writer)
        }
    }
}

/// Writes the strings after the first, each after a comma.
fn write_marked_strings<W: Sink>(strings: &Strings<'_>, writer: &mut W) -> Result<(), WriteFault>
    ensures { Writes W.contents W.fault_count result writer.old writer.new
        (flat_map marked_string (drop 1 strings.now)) }
{
    for i in 1..strings.len() {
        write_string(b", ", strings.get(i), writer)?;
    }
    Ok(())
}

/// Writes these octets and then strings with commas between them.
#[tactic(auto, using(devices::proofs::Writing::writing))]
fn write_strings<W: Sink>(
    front: &[u8],
    strings: &Strings<'_>,
    writer: &mut W,
) -> Result<(), WriteFault>
    ensures { Writes W.contents W.fault_count result writer.old writer.new
        (front.now ++ separated (codes ", ") string_text strings.now) }
{
    if strings.len() == 0 {
        return write_out(front, writer);
    }
    write_string(front, strings.get(0), writer)?;
    write_marked_strings(strings, writer)
}

/// Writes these octets and then strings in brackets.
#[tactic(auto, using(devices::proofs::Writing::writing))]
pub(crate) fn write_list<W: Sink>(
    front: &[u8],
    strings: &Strings<'_>,
    writer: &mut W,
) -> Result<(), WriteFault>
    ensures { Writes W.contents W.fault_count result writer.old writer.new
        (front.now ++ list_text strings.now) }
{
    write_out(front, writer)?;
    write_strings(b"[", strings, writer)?;
    write_out(b"]", writer)
}

/// Writes strings in brackets after a space.
#[tactic(auto, unfolding(crate::specs::Strings::further_list))]
pub(crate) fn write_further_list<W: Sink>(
    strings: &Strings<'_>,
    writer: &mut W,
) -> Result<(), WriteFault>
    ensures { Writes W.contents W.fault_count result writer.old writer.new
        (further_list strings.now) }
{
    write_list(b" ", strings, writer)
}

/// Writes a word and a number.
pub(crate) fn write_number<W: Sink>(
    word: &[u8],
    number: u64,
    writer: &mut W,
) -> Result<(), WriteFault>
    ensures { Writes W.contents W.fault_count result writer.old writer.new
        (word.now ++ decimal number) }
{
    write_pieces(&[Piece::Raw(word), Piece::Number(number)], writer)
}
