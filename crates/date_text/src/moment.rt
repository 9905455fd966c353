//! Moments.
ghost use Rattle.std.specs.Prelude.{◌≡◌, ◌≤◌, ◌<◌, pos, ◌+ℤ◌, ◌-ℤ◌, ◌*ℤ◌};
ghost use Rattle.jiff_core.specs.Calendar.{IsEpochDay, IsWithin};
ghost use Rattle.date_text.specs.Moment.{minutes_in, moment_at};
ghost use Rattle.date_text.specs.Zone.{shift_of};

use crate::zone::Zone;

/// A moment, and the zone in which it was written.
#[derive(Clone, Copy, Debug)]
pub struct Moment {
    /// The minutes since 1970-01-01 00:00 UTC.
    pub minutes: i64,
    /// The second of the minute: 60 where a leap second is put in.
    pub second: u8,
    /// The zone in which it was written.
    pub zone: Zone,
    pub ghost minutes_in: { IsWithin 10_000_000_000 minutes },
    pub ghost second_in: { second ≤ 60 },
}

impl Moment {
    ghost use Rattle.date_text.specs.view.Moment.{moment_as, zone_as};

    /// The minutes since 1970-01-01 00:00 UTC of a day and a minute of the day, as a zone has them.
    fn minutes_at(day: i32, minute: u16, zone: &Zone) -> i64
        requires day { IsEpochDay day }
        requires minute { minute < 1440 }
        ensures is { result ≡ day *ℤ pos 1440 +ℤ pos minute -ℤ shift_of (zone_as zone.now) }
        ensures within { IsWithin 10_000_000_000 result }
    {
        i64::from(day) * 1440 + i64::from(minute) - zone.shift()
    }

    /// The minutes since 1970-01-01 00:00, as the clocks of a zone have them.
    pub(crate) fn minutes_in(&self, zone: &Zone) -> i64
        ensures { result ≡ minutes_in (moment_as self.now) (zone_as zone.now) }
    {
        self.minutes + zone.shift()
    }

    /// The moment of a day, by its number from 1970-01-01, and a minute and second, in a zone.
    pub(crate) fn at(day: i32, minute: u16, second: u8, zone: Zone) -> Moment
        requires day { IsEpochDay day }
        requires minute { minute < 1440 }
        requires second { second ≤ 60 }
        ensures { moment_as result ≡ moment_at day minute second (zone_as zone) }
    {
        Moment {
            minutes: Moment::minutes_at(day, minute, &zone),
            second,
            zone,
        }
    }
}
