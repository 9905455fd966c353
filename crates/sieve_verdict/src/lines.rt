//! The lines of a verdict. They say what becomes of a message, and which names were looked up.
ghost use Rattle.devices.specs.Writers.{Writes};
ghost use Rattle.std.specs.Prelude.{◌++◌, codes};
ghost use Rattle.sieve_verdict.specs.Lines.{action_line, create_word, error_line, filing_words, given_words, implicit_line, mailbox_line, origin_line, lookup_line, spaced_word, spaced_words, worded_text};

use crate::response_lines::{write_reject, write_response};
use devices::{Piece, Sink, WriteFault, write_out, write_pieces};
use flag_lists::FlagList;
use octets::Octets;
use script_names::ScriptName;
use sieve_delivery::{Action, Filing, Origin, RunError};

/// Writes a text after a space.
pub(crate) fn write_spaced<W: Sink>(text: &[u8], writer: &mut W) -> Result<(), WriteFault>
    ensures { Writes W.contents W.fault_count result writer.old writer.new (spaced_word text.now) }
{
    write_pieces(&[Piece::Raw(b" "), Piece::Quoted(text)], writer)
}

/// Writes flags, each after a space.
#[tactic(auto, using(devices::proofs::Writing::writing_items))]
fn write_flags<W: Sink>(flags: &FlagList, writer: &mut W) -> Result<(), WriteFault>
    ensures { Writes W.contents W.fault_count result writer.old writer.new
        (spaced_words flags.now) }
{
    for i in 0..flags.len() {
        write_spaced(flags.get(i), writer)?;
    }
    Ok(())
}

/// Writes a word and a text.
#[tactic(auto, unfolding(crate::specs::Lines::worded_text))]
pub(crate) fn write_worded<W: Sink>(
    word: &[u8],
    text: &[u8],
    writer: &mut W,
) -> Result<(), WriteFault>
    ensures { Writes W.contents W.fault_count result writer.old writer.new
        (worded_text word.now text.now) }
{
    write_pieces(&[Piece::Raw(word), Piece::Quoted(text)], writer)
}

/// Writes the line of a word and a mailbox with flags.
#[tactic(auto, using(devices::proofs::Writing::writing), unfolding(crate::specs::Lines::mailbox_line))]
fn write_mailbox_line<W: Sink>(
    word: &[u8],
    mailbox: &[u8],
    flags: &FlagList,
    writer: &mut W,
) -> Result<(), WriteFault>
    ensures { Writes W.contents W.fault_count result writer.old writer.new
        (mailbox_line word.now mailbox.now flags.now) }
{
    write_worded(word, mailbox, writer)?;
    write_flags(flags, writer)
}

/// Writes the settings of a store beside its mailbox and its flags.
#[tactic(auto, using(devices::proofs::Writing::writing), unfolding(crate::specs::Lines::filing_words))]
fn write_filing<W: Sink>(filing: &Filing, writer: &mut W) -> Result<(), WriteFault>
    ensures { Writes W.contents W.fault_count result writer.old writer.new
        (filing_words filing.now) }
{
    write_create(filing.create, writer)?;
    write_given(b" special-use ", &filing.special_use, writer)
}

/// Writes that a store asks for its mailbox to be made, if it does.
fn write_create<W: Sink>(create: bool, writer: &mut W) -> Result<(), WriteFault>
    ensures { Writes W.contents W.fault_count result writer.old writer.new (create_word create) }
{
    let word: &[u8] = if create { b" create" } else { b"" };
    write_out(word, writer)
}

/// Writes a word and a text, if the text is given.
pub(crate) fn write_given<W: Sink>(
    word: &[u8],
    text: &Option<Octets>,
    writer: &mut W,
) -> Result<(), WriteFault>
    ensures { Writes W.contents W.fault_count result writer.old writer.new
        (given_words word.now text.now) }
{
    match text {
        Some(text) => write_pieces(&[Piece::Raw(word), Piece::Quoted(text.as_slice())], writer),
        None => write_out(b"", writer),
    }
}

/// Writes the line of a store.
#[tactic(auto, using(devices::proofs::Writing::writing))]
fn write_store<W: Sink>(
    mailbox: &[u8],
    flags: &FlagList,
    filing: &Filing,
    writer: &mut W,
) -> Result<(), WriteFault>
    ensures { Writes W.contents W.fault_count result writer.old writer.new
        (mailbox_line (codes "store ") mailbox.now flags.now ++ filing_words filing.now) }
{
    write_mailbox_line(b"store ", mailbox, flags, writer)?;
    write_filing(filing, writer)
}

/// Writes the line of an action, without the spaces before it and the line end after it in a
/// report. An error comes from the writer alone.
#[tactic(auto, unfolding(crate::specs::Lines::action_line))]
pub fn write_action<W: Sink>(action: &Action, writer: &mut W) -> Result<(), WriteFault>
    ensures { Writes W.contents W.fault_count result writer.old writer.new
        (action_line action.now) }
{
    match action {
        Action::Store {
            mailbox,
            flags,
            filing,
        } => write_store(mailbox.as_slice(), flags, filing, writer),
        Action::Redirect { address } => write_pieces(
            &[Piece::Raw(b"redirect "), Piece::Quoted(address.as_slice())],
            writer,
        ),
        Action::Discard => write_out(b"discard", writer),
        Action::Respond { response } => write_response(response, writer),
        Action::Reject { how, reason } => write_reject(*how, reason.as_slice(), writer),
    }
}

/// Writes the line of the implicit keep with its flags. The spaces before it and the line end after
/// it in a report aren't written. An error comes from the writer alone.
#[tactic(auto, unfolding(crate::specs::Lines::implicit_line))]
pub fn write_implicit<W: Sink>(
    mailbox: &[u8],
    flags: &FlagList,
    writer: &mut W,
) -> Result<(), WriteFault>
    ensures { Writes W.contents W.fault_count result writer.old writer.new
        (implicit_line mailbox.now flags.now) }
{
    write_mailbox_line(b"implicit ", mailbox, flags, writer)
}

/// Writes the line of an error, without the spaces before it and the line end after it in a report.
/// An error comes from the writer alone.
#[tactic(auto, unfolding(crate::specs::Lines::error_line))]
pub fn write_error<W: Sink>(error: &RunError, writer: &mut W) -> Result<(), WriteFault>
    ensures { Writes W.contents W.fault_count result writer.old writer.new (error_line error.now) }
{
    write_pieces(
        &[
            Piece::Raw(b"error "),
            Piece::Name(&error.script),
            Piece::Raw(b" line "),
            Piece::Number(error.line),
            Piece::Raw(b" "),
            Piece::Raw(error.kind.word()),
        ],
        writer,
    )
}

/// Writes the line of the command that entered an action. The spaces before it and the line end
/// after it in a report aren't written. An error comes from the writer alone.
#[tactic(auto, unfolding(crate::specs::Lines::origin_line))]
pub fn write_origin<W: Sink>(origin: &Origin, writer: &mut W) -> Result<(), WriteFault>
    ensures { Writes W.contents W.fault_count result writer.old writer.new
        (origin_line origin.now) }
{
    write_pieces(
        &[
            Piece::Raw(b"at "),
            Piece::Name(&origin.script),
            Piece::Raw(b" line "),
            Piece::Number(origin.line),
        ],
        writer,
    )
}

/// Writes the line of a looked-up name. The spaces before it and the line end after it in a report
/// aren't written. An error comes from the writer alone.
#[tactic(auto, unfolding(crate::specs::Lines::lookup_line))]
pub fn write_lookup<W: Sink>(
    name: &ScriptName,
    is_present: bool,
    writer: &mut W,
) -> Result<(), WriteFault>
    ensures { Writes W.contents W.fault_count result writer.old writer.new
        (lookup_line (name.now, is_present)) }
{
    let end: &[u8] = if is_present { b"" } else { b" missing" };
    write_pieces(
        &[Piece::Raw(b"read "), Piece::Name(name), Piece::Raw(end)],
        writer,
    )
}
