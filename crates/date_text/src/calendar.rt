//! Dates of the calendar by their parts and by their day numbers.
ghost use Rattle.std.specs.Prelude.{◌≡◌, ◌<◌, ◌≤◌, pos, false, true, IfSome, MatchOption, unsigned_abs};
ghost use Rattle.std.specs.Int.{IsInRange, int_div_euclid, int_rem_euclid};
ghost use Rattle.std.specs.Option.{option_map};
ghost use Rattle.jiff_core.specs.Calendar.{IsWithin};
ghost use Rattle.jiff_core.specs.Date.{epoch_day};
ghost use Rattle.date_text.specs.Calendar.{date_at, date_of, is_in_years, weekday_at};
ghost use Rattle.date_text.specs.view.Moment.{date_as};

use jiff_core::civil::Date;

/// The date, if the month has that day in that year.
pub(crate) fn date_of(year: u16, month: u8, day: u8) -> Option<Date>
    requires year { IsInRange 1900 9999 year }
    requires month { IsInRange 1 12 month }
    requires day { day < 100 }
    ensures is { option_map date_as result ≡ date_of year month day }
    ensures year { IfSome result (λ date. date.year ≡ pos year) }
{
    match Date::new(year as i16, month as i8, day as i8) {
        Ok(date) => Some(date),
        Err(_) => None,
    }
}

/// The date of a day number, if it lies in the years 0 to 9999.
pub(crate) fn date_at(day: i64) -> Option<Date>
    ensures in_years { MatchOption result (is_in_years day ≡ false) (λ _. is_in_years day ≡ true) }
    ensures day { IfSome result (λ date. epoch_day date ≡ day) }
    ensures date { IfSome result (λ date. date_as date ≡ date_at day) }
    ensures year { IfSome result (λ date. date.year ≡ pos (unsigned_abs date.year)) }
{
    match Date::from_unix_epoch_day(day) {
        Ok(date) => if date.year < 0 { None } else { Some(date) },
        Err(_) => None,
    }
}

/// The weekday of a date, from 0 for Sunday.
pub(crate) fn weekday_of(date: Date) -> u8
    ensures is { result ≡ weekday_at (epoch_day date) }
    ensures small { result < 7 }
{
    (date.weekday().index() + 1) % 7
}

/// The day of minutes since 1970-01-01 00:00.
pub(crate) fn day_of_minutes(minutes: i64) -> i64
    ensures { result ≡ int_div_euclid minutes (pos 1440) }
{
    minutes.div_euclid(1440)
}

/// The minute of the day of minutes since 1970-01-01 00:00.
pub(crate) fn minute_of_minutes(minutes: i64) -> u16
    ensures is { result ≡ unsigned_abs (int_rem_euclid minutes (pos 1440)) }
    ensures small { result < 1440 }
{
    minutes.rem_euclid(1440).unsigned_abs() as u16
}
