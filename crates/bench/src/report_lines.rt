//! The lines of a report, one by one.
ghost use Rattle.std.specs.Prelude.{◌++◌, codes};
ghost use Rattle.std.specs.Option.{option_copied};
ghost use Rattle.devices.specs.Writers.{Writes};
ghost use Rattle.bench.specs.Report.{addresses_line, addresses_text, main_line, envelope_line, mailboxes_line, script_line, indent, indented, message_line, expectation_line, expectation_text, total_line};
ghost use Rattle.bench.specs.view.Lines.{action_text, error_text, implicit_text, lookup_text, told_text};
ghost use Rattle.sieve_delivery.specs.view.Actions.{entered_of};
ghost use Rattle.sieve_verdict.specs.Lines.{error_line, implicit_line, origin_line};

use devices::{Piece, Sink, WriteFault, write_out, write_pieces};
use octets::Octets;
use script_names::ScriptName;
use sieve_profile::{Extension, Profile};
use sieve_run::{
    Action, Addresses, Entry, Envelope, FlagList, Origin, RunError, Script, mailbox_count,
};
use sieve_verdict::{
    Verdict, write_action, write_error, write_implicit, write_lookup, write_origin,
};

/// Writes the line of the main script.
#[tactic(auto, unfolding(crate::specs::Report::main_line))]
pub(crate) fn write_main<W: Sink>(
    main: Option<&ScriptName>,
    writer: &mut W,
) -> Result<(), WriteFault>
    ensures { Writes W.contents W.fault_count result writer.old writer.new
        (main_line (option_copied main.entry)) }
{
    match main {
        None => write_pieces(&[Piece::Raw(b"main none\n")], writer),
        Some(name) => write_pieces(
            &[Piece::Raw(b"main "), Piece::Name(name), Piece::Raw(b"\n")],
            writer,
        ),
    }
}

/// Writes the line of the envelope.
pub(crate) fn write_envelope<W: Sink>(envelope: &Envelope, writer: &mut W) -> Result<(), WriteFault>
    ensures { Writes W.contents W.fault_count result writer.old writer.new
        (envelope_line envelope.now) }
{
    write_pieces(
        &[
            Piece::Raw(b"envelope "),
            Piece::Quoted(envelope.from.as_slice()),
            Piece::Raw(b" "),
            Piece::Quoted(envelope.to.as_slice()),
            Piece::Raw(b" mailbox "),
            Piece::Quoted(envelope.mailbox.as_slice()),
            Piece::Raw(b"\n"),
        ],
        writer,
    )
}

/// Writes how many names the list of mailboxes has, where a profile has `mailbox`.
pub(crate) fn write_mailboxes<W: Sink>(
    profile: Profile,
    mailboxes: &[u8],
    writer: &mut W,
) -> Result<(), WriteFault>
    ensures { Writes W.contents W.fault_count result writer.old writer.new
        (mailboxes_line profile mailboxes.now) }
{
    if profile.has(Extension::Mailbox) {
        write_pieces(
            &[
                Piece::Raw(b"mailboxes "),
                Piece::Number(mailbox_count(mailboxes)),
                Piece::Raw(b"\n"),
            ],
            writer,
        )
    } else {
        write_out(b"", writer)
    }
}

/// Writes the line of a script.
pub(crate) fn write_script<W: Sink>(
    name: &ScriptName,
    script: &Script,
    writer: &mut W,
) -> Result<(), WriteFault>
    ensures { Writes W.contents W.fault_count result writer.old writer.new
        (script_line script.now.profile (name.now, script.now.text)) }
{
    match script.fault() {
        None => write_pieces(
            &[
                Piece::Raw(b"script "),
                Piece::Name(name),
                Piece::Raw(b" ok\n"),
            ],
            writer,
        ),
        Some((line, kind)) => write_pieces(
            &[
                Piece::Raw(b"script "),
                Piece::Name(name),
                Piece::Raw(b" line "),
                Piece::Number(line),
                Piece::Raw(b" "),
                Piece::Raw(kind.word()),
                Piece::Raw(b"\n"),
            ],
            writer,
        ),
    }
}

/// Writes the first line of a message.
#[tactic(auto, unfolding(crate::specs::Report::message_line))]
pub(crate) fn write_message<W: Sink>(id: &Octets, writer: &mut W) -> Result<(), WriteFault>
    ensures { Writes W.contents W.fault_count result writer.old writer.new (message_line id.now) }
{
    write_pieces(
        &[
            Piece::Raw(b"message "),
            Piece::Quoted(id.as_slice()),
            Piece::Raw(b"\n"),
        ],
        writer,
    )
}

/// Writes the line of the addresses that a message has of its own.
fn write_own_addresses<W: Sink>(addresses: &Addresses, writer: &mut W) -> Result<(), WriteFault>
    ensures { Writes W.contents W.fault_count result writer.old writer.new
        (indented (addresses_line addresses.now)) }
{
    write_pieces(
        &[
            Piece::Raw(b"  envelope "),
            Piece::Quoted(addresses.from.as_slice()),
            Piece::Raw(b" "),
            Piece::Quoted(addresses.to.as_slice()),
            Piece::Raw(b"\n"),
        ],
        writer,
    )
}

/// Writes the line of the addresses that a message has of its own, where it has some.
pub(crate) fn write_addresses<W: Sink>(
    addresses: Option<&Addresses>,
    writer: &mut W,
) -> Result<(), WriteFault>
    ensures { Writes W.contents W.fault_count result writer.old writer.new
        (addresses_text (option_copied addresses.entry)) }
{
    match addresses {
        Some(addresses) => write_own_addresses(addresses, writer),
        None => write_out(b"", writer),
    }
}

/// Writes the blanks before each line of a message but its first.
#[tactic(auto, unfolding(crate::specs::Report::indent))]
fn write_indent<W: Sink>(writer: &mut W) -> Result<(), WriteFault>
    ensures { Writes W.contents W.fault_count result writer.old writer.new indent }
{
    write_out(b"  ", writer)
}

/// Writes the line of an action.
#[tactic(auto, using(crate::proofs::Writing::lines))]
fn write_action_line<W: Sink>(action: &Action, writer: &mut W) -> Result<(), WriteFault>
    ensures { Writes W.contents W.fault_count result writer.old writer.new
        (action_text action.now) }
{
    write_indent(writer)?;
    write_action(action, writer)?;
    write_out(b"\n", writer)
}

/// Writes the line of where an action comes from.
#[tactic(auto, using(crate::proofs::Writing::lines))]
fn write_origin_line<W: Sink>(origin: &Origin, writer: &mut W) -> Result<(), WriteFault>
    ensures { Writes W.contents W.fault_count result writer.old writer.new
        (indented (origin_line origin.now)) }
{
    write_indent(writer)?;
    write_origin(origin, writer)?;
    write_out(b"\n", writer)
}

/// Writes the line of an action, and that of where it comes from if that is printed.
#[tactic(auto, using(devices::proofs::Writing::writing))]
pub(crate) fn write_told_entry<W: Sink>(
    traced: bool,
    entry: &Entry,
    writer: &mut W,
) -> Result<(), WriteFault>
    ensures { Writes W.contents W.fault_count result writer.old writer.new
        (told_text traced (entered_of entry.now)) }
{
    if !traced {
        return write_action_line(&entry.action, writer);
    }
    write_action_line(&entry.action, writer)?;
    write_origin_line(&entry.origin, writer)
}

/// Writes the line of the implicit keep with its flags.
#[tactic(auto, using(crate::proofs::Writing::lines))]
fn write_kept_line<W: Sink>(
    mailbox: &[u8],
    flags: &FlagList,
    writer: &mut W,
) -> Result<(), WriteFault>
    ensures { Writes W.contents W.fault_count result writer.old writer.new
        (indented (implicit_line mailbox.now flags.now)) }
{
    write_indent(writer)?;
    write_implicit(mailbox, flags, writer)?;
    write_out(b"\n", writer)
}

/// Writes the line of the implicit keep, where there is one.
pub(crate) fn write_implicit_line<W: Sink>(
    envelope: &Envelope,
    verdict: &Verdict,
    writer: &mut W,
) -> Result<(), WriteFault>
    ensures { Writes W.contents W.fault_count result writer.old writer.new
        (implicit_text envelope.now.mailbox verdict.now.implicit) }
{
    match verdict.implicit() {
        Some(flags) => write_kept_line(envelope.mailbox.as_slice(), flags, writer),
        None => write_out(b"", writer),
    }
}

/// Writes the line of an error.
#[tactic(auto, using(crate::proofs::Writing::lines))]
fn write_failed_line<W: Sink>(error: &RunError, writer: &mut W) -> Result<(), WriteFault>
    ensures { Writes W.contents W.fault_count result writer.old writer.new
        (indented (error_line error.now)) }
{
    write_indent(writer)?;
    write_error(error, writer)?;
    write_out(b"\n", writer)
}

/// Writes the line of the error, where there is one.
pub(crate) fn write_error_line<W: Sink>(verdict: &Verdict, writer: &mut W) -> Result<(), WriteFault>
    ensures { Writes W.contents W.fault_count result writer.old writer.new
        (error_text verdict.now.error) }
{
    match verdict.error() {
        Some(error) => write_failed_line(error, writer),
        None => write_out(b"", writer),
    }
}

/// Writes the line of a looked-up name.
#[tactic(auto, using(crate::proofs::Writing::lines))]
pub(crate) fn write_read_line<W: Sink>(
    name: &ScriptName,
    is_present: bool,
    writer: &mut W,
) -> Result<(), WriteFault>
    ensures { Writes W.contents W.fault_count result writer.old writer.new
        (lookup_text (name.now, is_present)) }
{
    write_indent(writer)?;
    write_lookup(name, is_present, writer)?;
    write_out(b"\n", writer)
}

/// Writes whether a verdict is as it is expected to be.
#[tactic(auto, unfolding(crate::specs::Report::indent))]
fn write_agreement<W: Sink>(agrees: bool, writer: &mut W) -> Result<(), WriteFault>
    ensures { Writes W.contents W.fault_count result writer.old writer.new
        (indented (expectation_line agrees)) }
{
    if agrees {
        write_out(b"  expected\n", writer)
    } else {
        write_out(b"  unexpected\n", writer)
    }
}

/// Writes whether a verdict is as it is expected to be, where a text is expected.
pub(crate) fn write_expectation<W: Sink>(
    envelope: &Envelope,
    verdict: &Verdict,
    expected: Option<&Octets>,
    writer: &mut W,
) -> Result<(), WriteFault>
    ensures { Writes W.contents W.fault_count result writer.old writer.new
        (expectation_text envelope.now.mailbox verdict.now (option_copied expected.entry)) }
{
    match expected {
        Some(text) => {
            write_agreement(
                verdict.agrees(envelope.mailbox.as_slice(), text.as_slice()),
                writer,
            )
        }
        None => write_out(b"", writer),
    }
}

/// Writes the last line: how many messages there are and how many have an error. It also has how
/// many are not as expected, if that is printed.
pub(crate) fn write_total<W: Sink>(
    messages: u64,
    errors: u64,
    unexpected: Option<u64>,
    writer: &mut W,
) -> Result<(), WriteFault>
    ensures { Writes W.contents W.fault_count result writer.old writer.new
        (total_line messages errors unexpected) }
{
    match unexpected {
        None => write_pieces(
            &[
                Piece::Raw(b"total "),
                Piece::Number(messages),
                Piece::Raw(b" messages "),
                Piece::Number(errors),
                Piece::Raw(b" errors\n"),
            ],
            writer,
        ),
        Some(count) => write_pieces(
            &[
                Piece::Raw(b"total "),
                Piece::Number(messages),
                Piece::Raw(b" messages "),
                Piece::Number(errors),
                Piece::Raw(b" errors "),
                Piece::Number(count),
                Piece::Raw(b" unexpected\n"),
            ],
            writer,
        ),
    }
}
