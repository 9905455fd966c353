//! The line of a report that says what time it is.
ghost use Rattle.devices.specs.Writers.{Writes};
ghost use Rattle.bench.specs.Report.{clock_line, clock_text};

use date_text::Clock;
use devices::{Piece, Sink, WriteFault, write_out, write_pieces};
use sieve_profile::{Extension, Profile};

/// Writes the line of a clock: its seconds, and its zone.
#[tactic(auto, unfolding(crate::specs::Report::clock_text))]
fn write_clock<W: Sink>(clock: &Option<Clock>, writer: &mut W) -> Result<(), WriteFault>
    ensures { Writes W.contents W.fault_count result writer.old writer.new (clock_text clock.now) }
{
    match clock {
        None => write_pieces(&[Piece::Raw(b"clock none\n")], writer),
        Some(clock) => {
            let zone = clock.zone().text();
            write_pieces(
                &[
                    Piece::Raw(b"clock "),
                    Piece::Number(clock.seconds()),
                    Piece::Raw(b" "),
                    Piece::Raw(&zone),
                    Piece::Raw(b"\n"),
                ],
                writer,
            )
        }
    }
}

/// Writes the line of the clock, where a profile has `date`.
pub(crate) fn write_clock_line<W: Sink>(
    profile: Profile,
    clock: &Option<Clock>,
    writer: &mut W,
) -> Result<(), WriteFault>
    ensures { Writes W.contents W.fault_count result writer.old writer.new
        (clock_line profile clock.now) }
{
    if profile.has(Extension::Date) {
        write_clock(clock, writer)
    } else {
        write_out(b"", writer)
    }
}
