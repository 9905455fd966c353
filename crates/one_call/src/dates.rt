//! Dates and clocks: a part of one, as it is shown in a zone.

use crate::telling::{Host, mark, tell, tell_refused};
use date_text::{DatePart, Moment, Zone, clock_named, date_in, shown, zone_named};
use devices::Piece;
use std::io;
use std::io::ErrorKind;

/// A field's value, a zone, and a part.
pub(crate) const DATE: [&[u8]; 3] = [
    b"by mx.example; 5 Jul 26 (about noon) 10:00 GMT",
    b"+0200",
    b"std11",
];

/// The seconds of a clock, its zone, and a part.
pub(crate) const CLOCK: [&[u8]; 3] = [b"1783245600", b"+0200", b"iso8601"];

/// Makes the call that a word names, on three further words.
pub(crate) fn call(rt: &impl Host, word: &str, given: [&[u8]; 3]) -> io::Result<()> {
    match word {
        "date" => show_date(rt, given),
        "clock" => show_clock(rt, given),
        _ => Err(io::Error::from(ErrorKind::InvalidInput)),
    }
}

/// Prints a part of the date of a field's value, in a zone or in its own, or `none`.
pub(crate) fn show_date(rt: &impl Host, [value, zone, part]: [&[u8]; 3]) -> io::Result<()> {
    match date_in(value) {
        Some(moment) if zone == b"own".as_slice() => show(rt, &moment, Some(moment.zone), part),
        Some(moment) => show(rt, &moment, zone_named(zone), part),
        None => println!(rt; "none"),
    }
}

/// Prints a part of the moment that a clock shows, in its zone, or `none`.
pub(crate) fn show_clock(rt: &impl Host, [digits, zone, part]: [&[u8]; 3]) -> io::Result<()> {
    match clock_named(digits, zone) {
        Some(clock) => show(rt, &clock.moment(), zone_named(zone), part),
        None => println!(rt; "none"),
    }
}

/// Prints a part of a moment in a zone. Prints `none` if there is no such zone, part or date.
fn show(rt: &impl Host, moment: &Moment, zone: Option<Zone>, part: &[u8]) -> io::Result<()> {
    let (Some(zone), Some(part)) = (zone, DatePart::named(part)) else {
        return println!(rt; "none");
    };
    mark(rt);
    let text = shown(rt.alloc(), moment, zone, part);
    mark(rt);
    match text {
        Ok(Some(text)) => tell(rt, &[Piece::Raw(text.as_slice())]),
        Ok(None) => println!(rt; "none"),
        Err(_) => tell_refused(rt),
    }
}
