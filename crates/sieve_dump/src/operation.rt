//! The line of an operation.
ghost use Rattle.std.specs.Prelude.{◌++◌, ◌<◌, codes, decimal, length};
ghost use Rattle.devices.specs.Writers.{Writes};
ghost use Rattle.sieve_dump.specs.Asks.{ask_text};
ghost use Rattle.sieve_dump.specs.Commands.{leaf_text};
ghost use Rattle.sieve_dump.specs.Dump.{at_line, line_at, line_text, operation_text};
ghost use Rattle.sieve_code.specs.Pool.{ask_in, leaf_at, leaf_in};
ghost use Rattle.sieve_code.specs.view.Code.{jump_place_of, op_of, ops_of, pool_of};

use crate::asks::write_compares;
use crate::commands::{
    write_fileinto, write_flags, write_include, write_line_number, write_redirect, write_set,
    write_worded_flags,
};
use crate::responses::{write_reject, write_vacation};
use crate::strings::{write_list, write_number};
use devices::{Piece, Sink, WriteFault, write_out, write_pieces};
use sieve_code::{Code, PackedAsk, PackedLeaf, PackedOperation};
use sieve_script::{Ask, Leaf};

/// Writes the question of a test.
#[tactic(auto, unfolding(crate::specs::Asks::ask_text))]
fn write_ask<W: Sink>(code: &Code, ask: &PackedAsk, writer: &mut W) -> Result<(), WriteFault>
    ensures { Writes W.contents W.fault_count result writer.old writer.new
        (ask_text (ask_in (pool_of code.now) ask.now)) }
{
    match ask {
        Ask::Compares {
            source,
            comparison,
            keys,
        } => write_compares(
            &code.source(*source),
            *comparison,
            &code.list(*keys),
            writer,
        ),
        Ask::Exists { names } => write_list(b"exists ", code.names(*names).strings(), writer),
        Ask::Over { limit } => write_number(b"size over ", *limit, writer),
        Ask::Under { limit } => write_number(b"size under ", *limit, writer),
        Ask::MailboxExists { names } => write_list(b"mailboxexists ", &code.list(*names), writer),
        Ask::Duplicate => write_out(b"duplicate", writer),
    }
}

/// Writes a command that acts.
#[tactic(auto, unfolding(crate::specs::Commands::leaf_text))]
fn write_leaf<W: Sink>(code: &Code, leaf: &PackedLeaf, writer: &mut W) -> Result<(), WriteFault>
    ensures { Writes W.contents W.fault_count result writer.old writer.new
        (leaf_text (leaf_in (pool_of code.now) leaf.now)) }
{
    match leaf {
        Leaf::Keep { flags } => write_worded_flags(b"keep", &code.given_list(*flags), writer),
        Leaf::Fileinto { mailbox, settings } => {
            write_fileinto(code.string(*mailbox), &code.settings(*settings), writer)
        }
        Leaf::Redirect { address, copy } => write_redirect(code.string(*address), *copy, writer),
        Leaf::Discard => write_out(b"discard", writer),
        Leaf::Set {
            variable,
            modifiers,
            value,
        } => write_set(variable, *modifiers, code.string(*value), writer),
        Leaf::Flags {
            change,
            variable,
            flags,
        } => write_flags(*change, variable.as_ref(), &code.list(*flags), writer),
        Leaf::Include {
            location,
            once,
            optional,
            name,
        } => write_include(*location, *once, *optional, name.as_slice(), writer),
        Leaf::Vacation { vacation } => write_vacation(&code.vacation(**vacation), writer),
        Leaf::Reject { how, reason } => write_reject(*how, code.string(*reason), writer),
    }
}

/// Writes the command at a place. Past the last place it is a `discard`.
fn write_leaf_at<W: Sink>(code: &Code, place: u32, writer: &mut W) -> Result<(), WriteFault>
    ensures { Writes W.contents W.fault_count result writer.old writer.new
        (leaf_text (leaf_at (pool_of code.now) place)) }
{
    match code.leaf(place) {
        Some(leaf) => write_leaf(code, leaf, writer),
        None => write_out(b"discard", writer),
    }
}

/// Writes the command at a place, and its line.
#[tactic(auto, using(devices::proofs::Writing::writing))]
fn write_act<W: Sink>(code: &Code, place: u32, line: u32, writer: &mut W) -> Result<(), WriteFault>
    ensures { Writes W.contents W.fault_count result writer.old writer.new
        (leaf_text (leaf_at (pool_of code.now) place) ++ at_line line) }
{
    write_leaf_at(code, place, writer)?;
    write_line_number(line, writer)
}

/// Writes a jump with this word.
fn write_jump<W: Sink>(
    word: &[u8],
    code: &Code,
    left: u32,
    writer: &mut W,
) -> Result<(), WriteFault>
    ensures { Writes W.contents W.fault_count result writer.old writer.new
        (word.now ++ decimal (jump_place_of code.now left)) }
{
    write_number(word, code.jump_place(left) as u64, writer)
}

/// Writes an operation.
#[tactic(auto, unfolding(crate::specs::Dump::operation_text))]
fn write_op<W: Sink>(code: &Code, op: PackedOperation, writer: &mut W) -> Result<(), WriteFault>
    ensures { Writes W.contents W.fault_count result writer.old writer.new
        (operation_text (op_of code.now op)) }
{
    match op {
        PackedOperation::True => write_out(b"true", writer),
        PackedOperation::False => write_out(b"false", writer),
        PackedOperation::Not => write_out(b"not", writer),
        PackedOperation::Test(place) => write_ask(code, &code.ask(place), writer),
        PackedOperation::Jump(left) => write_jump(b"jump ", code, left, writer),
        PackedOperation::JumpIfFalse(left) => write_jump(b"jump-if-false ", code, left, writer),
        PackedOperation::JumpIfTrue(left) => write_jump(b"jump-if-true ", code, left, writer),
        PackedOperation::Act { leaf, line } => write_act(code, leaf, line, writer),
        PackedOperation::Stop => write_out(b"stop", writer),
        PackedOperation::Return => write_out(b"return", writer),
    }
}

/// Writes a place, and a colon after it.
fn write_place<W: Sink>(place: usize, writer: &mut W) -> Result<(), WriteFault>
    ensures { Writes W.contents W.fault_count result writer.old writer.new
        (decimal place ++ codes ": ") }
{
    write_pieces(&[Piece::Number(place as u64), Piece::Raw(b": ")], writer)
}

/// Writes the line of an operation.
#[tactic(auto, using(devices::proofs::Writing::writing), unfolding(crate::specs::Dump::line_text))]
fn write_line<W: Sink>(
    place: usize,
    code: &Code,
    op: PackedOperation,
    writer: &mut W,
) -> Result<(), WriteFault>
    ensures { Writes W.contents W.fault_count result writer.old writer.new
        (line_text place (op_of code.now op)) }
{
    write_place(place, writer)?;
    write_op(code, op, writer)?;
    write_out(b"\n", writer)
}

/// Writes the line of the operation at a place of code: the place, `: `, the operation, LF. If the
/// writer fails, a front of the line is written.
pub fn write_operation<W: Sink>(code: &Code, place: usize, writer: &mut W) -> Result<(), WriteFault>
    requires { place < length (ops_of code.now) }
    ensures { Writes W.contents W.fault_count result writer.old writer.new
        (line_at (ops_of code.now) place) }
{
    write_line(place, code, code.op(place), writer)
}
