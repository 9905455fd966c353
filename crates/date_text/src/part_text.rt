//! The parts of a date as they are shown (RFC 5260, 4.2).
ghost use Rattle.std.specs.Prelude.{◌≡◌, ◌++◌, ◌<◌, ◌≤◌, ◌+◌, codes, IfOk, OnOk};
ghost use Rattle.std.specs.Int.{IsInRange};
ghost use Rattle.std.specs.Option.{option_map};
ghost use Rattle.date_text.specs.Shown.{date_text, day_text, month_name, part_text, shown, time_text, weekday_name};
ghost use Rattle.date_text.specs.declared.part.DatePart.TheVariants.{Iso8601, Julian, Std11};
ghost use Rattle.date_text.specs.view.LocalTime.{local_as};
ghost use Rattle.date_text.specs.view.Moment.{moment_as, zone_as};

use crate::date_words::WEEKDAY_NAMES;
use crate::local_time::LocalTime;
use crate::moment::Moment;
use crate::number::{digit, push_four, push_pair};
use crate::part::DatePart;
use crate::reading::MONTH_NAMES;
use crate::zone::Zone;
use itoa::Buffer;
use std::alloc::{AllocError, Global};

/// The name of a weekday, from 0 for Sunday.
fn weekday_name(weekday: u8) -> &'static [u8]
    requires { weekday < 7 }
    ensures { result.now ≡ weekday_name weekday }
{
    WEEKDAY_NAMES[usize::from((weekday + 6) % 7)]
}

/// The name of a month, from 1.
fn month_name(month: u8) -> &'static [u8]
    requires { IsInRange 1 12 month }
    ensures { result.now ≡ month_name month }
{
    MONTH_NAMES[usize::from(month - 1)]
}

/// Adds the date: 2026-07-05.
fn push_date(text: &mut Vec<u8>, time: &LocalTime) -> Result<(), AllocError>
    ensures { OnOk result (text.new.items ≡ text.old.items ++ date_text (local_as time.now).date) }
{
    push_four(text, time.year)?;
    text.push(b'-')?;
    push_pair(text, time.month)?;
    text.push(b'-')?;
    push_pair(text, time.day)?;
    Ok(())
}

/// Adds the time of day: 12:00:00.
fn push_time(text: &mut Vec<u8>, time: &LocalTime) -> Result<(), AllocError>
    ensures { OnOk result
        (text.new.items ≡ text.old.items ++ time_text time.now.minute time.now.second) }
{
    push_pair(text, (time.minute / 60) as u8)?;
    text.push(b':')?;
    push_pair(text, (time.minute % 60) as u8)?;
    text.push(b':')?;
    push_pair(text, time.second)?;
    Ok(())
}

/// Adds the weekday and the date: Sun, 05 Jul 2026.
fn push_day(text: &mut Vec<u8>, time: &LocalTime) -> Result<(), AllocError>
    ensures { OnOk result
        (text.new.items ≡ text.old.items ++ day_text time.now.weekday (local_as time.now).date) }
{
    text.extend_from_slice(weekday_name(time.weekday))?;
    text.extend_from_slice(b", ")?;
    push_pair(text, time.day)?;
    text.push(b' ')?;
    text.extend_from_slice(month_name(time.month))?;
    text.push(b' ')?;
    push_four(text, time.year)?;
    Ok(())
}

/// Adds the modified Julian day.
fn push_julian(text: &mut Vec<u8>, time: &LocalTime) -> Result<(), AllocError>
    ensures { OnOk result
        (text.new.items ≡ text.old.items ++ part_text Julian (local_as time.now)) }
{
    let mut buffer = Buffer::new();
    text.extend_from_slice(buffer.format(time.number + 40587).as_bytes())?;
    Ok(())
}

/// Adds date, time and zone: 2026-07-05T12:00:00+02:00.
fn push_iso8601(text: &mut Vec<u8>, time: &LocalTime) -> Result<(), AllocError>
    ensures { OnOk result
        (text.new.items ≡ text.old.items ++ part_text Iso8601 (local_as time.now)) }
{
    push_date(text, time)?;
    text.push(b'T')?;
    push_time(text, time)?;
    time.zone.push_with_colon_to(text)?;
    Ok(())
}

/// Adds weekday, date, time and zone: Sun, 05 Jul 2026 12:00:00 +0200.
fn push_std11(text: &mut Vec<u8>, time: &LocalTime) -> Result<(), AllocError>
    ensures { OnOk result (text.new.items ≡ text.old.items ++ part_text Std11 (local_as time.now)) }
{
    push_day(text, time)?;
    text.push(b' ')?;
    push_time(text, time)?;
    text.push(b' ')?;
    time.zone.push_to(text)?;
    Ok(())
}

fn push_part(text: &mut Vec<u8>, part: DatePart, time: &LocalTime) -> Result<(), AllocError>
    ensures { OnOk result (text.new.items ≡ text.old.items ++ part_text part (local_as time.now)) }
{
    match part {
        DatePart::Year => push_four(text, time.year),
        DatePart::Month => push_pair(text, time.month),
        DatePart::Day => push_pair(text, time.day),
        DatePart::Date => push_date(text, time),
        DatePart::Julian => push_julian(text, time),
        DatePart::Hour => push_pair(text, (time.minute / 60) as u8),
        DatePart::Minute => push_pair(text, (time.minute % 60) as u8),
        DatePart::Second => push_pair(text, time.second),
        DatePart::Time => push_time(text, time),
        DatePart::Iso8601 => push_iso8601(text, time),
        DatePart::Std11 => push_std11(text, time),
        DatePart::Zone => time.zone.push_to(text),
        DatePart::Weekday => {
            text.push(digit(time.weekday))?;
            Ok(())
        }
    }
}

/// The text of a part of the moment in that zone (RFC 5260, 4.2). None where the date there lies
/// before the year 0 or after 9999.
pub fn shown(
    alloc: Global,
    moment: &Moment,
    zone: Zone,
    part: DatePart,
) -> Result<Option<Vec<u8>>, AllocError>
    ensures { IfOk result (λ text. option_map (λ found. found.items) text
        ≡ shown (moment_as moment.now) (zone_as zone) part) }
{
    let Some(time) = LocalTime::new(moment, zone) else {
        return Ok(None);
    };
    let mut text = Vec::new(alloc);
    push_part(&mut text, part, &time)?;
    Ok(Some(text))
}
