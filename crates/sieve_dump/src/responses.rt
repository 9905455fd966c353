//! Commands of a dump that answer the sender or reject the message.
ghost use Rattle.std.specs.Prelude.{◌++◌};
ghost use Rattle.devices.specs.Writers.{Writes};
ghost use Rattle.sieve_dump.specs.Commands as spec;
ghost use Rattle.packed_strings.specs.view.Refs.{vacation_ref_as};

use crate::commands::{given_word, write_given_string, write_worded};
use crate::strings::{write_list, write_number};
use devices::{Sink, WriteFault, write_out};
use packed_strings::{Strings, VacationRef};
use sieve_script::Rejection;
use sieve_variables::Part;

/// Writes for how many days a sender gets no other response, if that is said.
#[tactic(auto, unfolding(crate::specs::Commands::days_words))]
fn write_days<W: Sink>(days: Option<u64>, writer: &mut W) -> Result<(), WriteFault>
    ensures { Writes W.contents W.fault_count result writer.old writer.new (spec.days_words days) }
{
    match days {
        Some(days) => write_number(b" days ", days, writer),
        None => write_out(b"", writer),
    }
}

/// Writes further addresses of the user, if they are given.
#[tactic(auto, unfolding(crate::specs::Commands::addresses_words))]
fn write_addresses<W: Sink>(
    addresses: &Option<Strings<'_>>,
    writer: &mut W,
) -> Result<(), WriteFault>
    ensures { Writes W.contents W.fault_count result writer.old writer.new
        (spec.addresses_words addresses.now) }
{
    match addresses {
        Some(addresses) => write_list(b" addresses ", addresses, writer),
        None => write_out(b"", writer),
    }
}

/// Writes that a response is a MIME entity, if it is one.
#[tactic(auto, unfolding(crate::specs::Commands::mime_word))]
fn write_mime<W: Sink>(mime: bool, writer: &mut W) -> Result<(), WriteFault>
    ensures { Writes W.contents W.fault_count result writer.old writer.new (spec.mime_word mime) }
{
    write_out(given_word(mime, b" mime"), writer)
}

/// Writes how often a sender gets a response, its subject and its sender, each if it is given.
#[tactic(auto, using(devices::proofs::Writing::writing), unfolding(crate::specs::Commands::sending_words))]
fn write_sending<W: Sink>(vacation: &VacationRef<'_>, writer: &mut W) -> Result<(), WriteFault>
    ensures { Writes W.contents W.fault_count result writer.old writer.new
        (spec.sending_words (vacation_ref_as vacation.now)) }
{
    write_days(vacation.days, writer)?;
    write_given_string(b" subject ", vacation.subject, writer)?;
    write_given_string(b" from ", vacation.from, writer)
}

/// Writes the further addresses, the mark of a MIME entity and the handle, each if it is given.
#[tactic(auto, using(devices::proofs::Writing::writing, devices::proofs::Writing::middle_failed), unfolding(crate::specs::Commands::further_words))]
fn write_further<W: Sink>(vacation: &VacationRef<'_>, writer: &mut W) -> Result<(), WriteFault>
    ensures { Writes W.contents W.fault_count result writer.old writer.new
        (spec.further_words (vacation_ref_as vacation.now)) }
{
    write_addresses(&vacation.addresses, writer)?;
    write_mime(vacation.mime, writer)?;
    write_given_string(b" handle ", vacation.handle, writer)
}

/// Writes a command's word and then the arguments of a `vacation` beside its text.
#[tactic(auto, using(devices::proofs::Writing::writing, devices::proofs::Writing::middle_failed), unfolding(crate::specs::Commands::vacation_words))]
fn write_vacation_words<W: Sink>(
    word: &[u8],
    vacation: &VacationRef<'_>,
    writer: &mut W,
) -> Result<(), WriteFault>
    ensures { Writes W.contents W.fault_count result writer.old writer.new
        (spec.vacation_words word.now (vacation_ref_as vacation.now)) }
{
    write_out(word, writer)?;
    write_sending(vacation, writer)?;
    write_further(vacation, writer)
}

/// Writes a `vacation`.
#[tactic(auto, using(devices::proofs::Writing::writing), unfolding(crate::specs::Commands::vacation_text))]
pub(crate) fn write_vacation<W: Sink>(
    vacation: &VacationRef<'_>,
    writer: &mut W,
) -> Result<(), WriteFault>
    ensures { Writes W.contents W.fault_count result writer.old writer.new
        (spec.vacation_text (vacation_ref_as vacation.now)) }
{
    write_vacation_words(b"vacation", vacation, writer)?;
    write_worded(b" ", vacation.reason, writer)
}

/// Writes a command that rejects the message.
#[tactic(auto, using(devices::proofs::Writing::writing), unfolding(crate::specs::Commands::reject_text))]
pub(crate) fn write_reject<W: Sink>(
    how: Rejection,
    reason: &[Part],
    writer: &mut W,
) -> Result<(), WriteFault>
    ensures { Writes W.contents W.fault_count result writer.old writer.new
        (spec.reject_text how reason.now) }
{
    write_out(how.word(), writer)?;
    write_worded(b" ", reason, writer)
}
