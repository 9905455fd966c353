//! The lines of responses (RFC 5230, 4) and rejections (RFC 5429, 2).
ghost use Rattle.devices.specs.Writers.{Writes};
ghost use Rattle.std.specs.Prelude.{◌++◌};
ghost use Rattle.sieve_script.specs.Reading.{rejection_word};
ghost use Rattle.sieve_verdict.specs.Lines.{addresses_words, days_words, further_words, mime_word, response_line, sending_words, spaced_word, spaced_words, worded_texts};

use crate::lines::{write_given, write_spaced, write_worded};
use devices::{Piece, Sink, WriteFault, write_out, write_pieces};
use sieve_delivery::{Response, Texts};
use sieve_script::Rejection;

/// Writes for how many days a sender gets no other response, if that is said.
fn write_days<W: Sink>(days: Option<u64>, writer: &mut W) -> Result<(), WriteFault>
    ensures { Writes W.contents W.fault_count result writer.old writer.new (days_words days) }
{
    match days {
        Some(days) => write_pieces(&[Piece::Raw(b" days "), Piece::Number(days)], writer),
        None => write_out(b"", writer),
    }
}

/// Writes texts, each after a space.
#[tactic(auto, using(devices::proofs::Writing::writing_items))]
fn write_texts<W: Sink>(texts: &Texts, writer: &mut W) -> Result<(), WriteFault>
    ensures { Writes W.contents W.fault_count result writer.old writer.new
        (spaced_words texts.now) }
{
    for i in 0..texts.len() {
        write_spaced(texts.get(i), writer)?;
    }
    Ok(())
}

/// Writes a word and texts, each after a space.
#[tactic(auto, using(devices::proofs::Writing::writing), unfolding(crate::specs::Lines::worded_texts))]
fn write_worded_texts<W: Sink>(word: &[u8], texts: &Texts, writer: &mut W) -> Result<(), WriteFault>
    ensures { Writes W.contents W.fault_count result writer.old writer.new
        (worded_texts word.now texts.now) }
{
    write_out(word, writer)?;
    write_texts(texts, writer)
}

/// Writes further addresses of the user, if they are given.
fn write_addresses<W: Sink>(addresses: &Option<Texts>, writer: &mut W) -> Result<(), WriteFault>
    ensures { Writes W.contents W.fault_count result writer.old writer.new
        (addresses_words addresses.now) }
{
    match addresses {
        Some(addresses) => write_worded_texts(b" addresses", addresses, writer),
        None => write_out(b"", writer),
    }
}

/// Writes that a response is a MIME entity, if it is one.
fn write_mime<W: Sink>(mime: bool, writer: &mut W) -> Result<(), WriteFault>
    ensures { Writes W.contents W.fault_count result writer.old writer.new (mime_word mime) }
{
    let word: &[u8] = if mime { b" mime" } else { b"" };
    write_out(word, writer)
}

/// Writes how often a sender gets a response, its subject and its sender, each if it is given.
#[tactic(auto, using(devices::proofs::Writing::writing), unfolding(crate::specs::Lines::sending_words))]
fn write_sending<W: Sink>(response: &Response, writer: &mut W) -> Result<(), WriteFault>
    ensures { Writes W.contents W.fault_count result writer.old writer.new
        (sending_words response.now) }
{
    write_days(response.days, writer)?;
    write_given(b" subject ", &response.subject, writer)?;
    write_given(b" from ", &response.from, writer)
}

/// Writes the further addresses, the mark of a MIME entity and the handle, each if it is given.
#[tactic(auto, using(devices::proofs::Writing::writing, devices::proofs::Writing::middle_failed), unfolding(crate::specs::Lines::further_words))]
fn write_further<W: Sink>(response: &Response, writer: &mut W) -> Result<(), WriteFault>
    ensures { Writes W.contents W.fault_count result writer.old writer.new
        (further_words response.now) }
{
    write_addresses(&response.addresses, writer)?;
    write_mime(response.mime, writer)?;
    write_given(b" handle ", &response.handle, writer)
}

/// Writes the line of a response.
#[tactic(auto, using(devices::proofs::Writing::writing, devices::proofs::Writing::middle_failed), unfolding(crate::specs::Lines::response_line))]
pub(crate) fn write_response<W: Sink>(response: &Response, writer: &mut W) -> Result<(), WriteFault>
    ensures { Writes W.contents W.fault_count result writer.old writer.new
        (response_line response.now) }
{
    write_worded(b"vacation ", response.reason.as_slice(), writer)?;
    write_sending(response, writer)?;
    write_further(response, writer)
}

/// Writes the line of a rejection.
#[tactic(auto, using(devices::proofs::Writing::writing))]
pub(crate) fn write_reject<W: Sink>(
    how: Rejection,
    reason: &[u8],
    writer: &mut W,
) -> Result<(), WriteFault>
    ensures { Writes W.contents W.fault_count result writer.old writer.new
        (rejection_word how ++ spaced_word reason.now) }
{
    write_out(how.word(), writer)?;
    write_spaced(reason, writer)
}
