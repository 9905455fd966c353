//! Moments as the clocks of a zone have them.
ghost use Rattle.std.specs.Prelude.{◌≡◌, ◌<◌, ◌≤◌, false, true, IfSome, MatchOption};
ghost use Rattle.std.specs.Int.{IsInRange};
ghost use Rattle.jiff_core.specs.Calendar.{IsEpochDay};
ghost use Rattle.date_text.specs.Calendar.{is_in_years};
ghost use Rattle.date_text.specs.Moment.{day_in};

use crate::calendar::{date_at, day_of_minutes, minute_of_minutes, weekday_of};
use crate::moment::Moment;
use crate::zone::Zone;

/// A time on a zone's clocks: date, weekday, day number, minute of the day, second, and that zone.
#[derive(Clone, Copy)]
pub(crate) struct LocalTime {
    pub(crate) year: u16,
    pub(crate) month: u8,
    pub(crate) day: u8,
    /// From 0 for Sunday.
    pub(crate) weekday: u8,
    /// The days since 1970-01-01.
    pub(crate) number: i32,
    pub(crate) minute: u16,
    pub(crate) second: u8,
    pub(crate) zone: Zone,
    ghost year_in: { year ≤ 9999 },
    ghost month_in: { IsInRange 1 12 month },
    ghost day_in: { day ≤ 31 },
    ghost weekday_in: { weekday < 7 },
    ghost number_in: { IsEpochDay number },
    ghost minute_in: { minute < 1440 },
    ghost second_in: { second ≤ 60 },
}

impl LocalTime {
    ghost use Rattle.date_text.specs.Shown.{local};
    ghost use Rattle.date_text.specs.view.LocalTime.{local_as};
    ghost use Rattle.date_text.specs.view.Moment.{moment_as, zone_as};

    /// A moment in a zone. None where its date there lies before the year 0 or after 9999.
    pub(crate) fn new(moment: &Moment, zone: Zone) -> Option<LocalTime>
        ensures none { MatchOption result
            (is_in_years (day_in (moment_as moment.now) (zone_as zone)) ≡ false)
            (λ _. is_in_years (day_in (moment_as moment.now) (zone_as zone)) ≡ true) }
        ensures is { IfSome result
            (λ time. local_as time ≡ local (moment_as moment.now) (zone_as zone)) }
    {
        let minutes = moment.minutes_in(&zone);
        let Some(date) = date_at(day_of_minutes(minutes)) else {
            return None;
        };
        Some(LocalTime {
            year: date.year.unsigned_abs(),
            month: date.month,
            day: date.day,
            weekday: weekday_of(date),
            number: date.to_unix_epoch_day(),
            minute: minute_of_minutes(minutes),
            second: moment.second,
            zone,
        })
    }
}
