//! Clocks: the time and the zone of the current date.
ghost use Rattle.std.specs.Prelude.{◌≡◌};
ghost use Rattle.date_text.specs.Clock.{clock_at, moment_of};
ghost use Rattle.date_text.specs.view.Moment.{moment_as, zone_as};

use crate::moment::Moment;
use crate::zone::Zone;
use std::marker::Model;

/// The last second of the year 9999, since 1970-01-01 00:00 UTC.
pub const LAST_SECOND: u64 = 253_402_300_799;

/// A time and the zone of the clock that shows it. Contracts see both.
#[derive(Drop)]
pub struct Clock {
    seconds: u64,
    zone: Zone,
}

impl Model for Clock {
    ghost use Rattle.std.specs.Prelude.{◌≤◌};
    ghost use Rattle.date_text.specs.Clock.{Clock, last_second};
    ghost use Rattle.date_text.specs.view.Moment.{zone_as};

    ghost Value = { Clock };

    ghost view = { λ c. record { seconds = c.seconds; zone = zone_as c.zone } };

    ghost invariant = { λ c. c.seconds ≤ last_second };
}

impl Clock {
    /// A clock in a zone, by the seconds since 1970-01-01 00:00 UTC. None past the year 9999.
    pub fn new(seconds: u64, zone: Zone) -> Option<Clock>
        ensures { result ≡ clock_at seconds (zone_as zone) }
    {
        if seconds <= LAST_SECOND {
            Some(Clock { seconds, zone })
        } else {
            None
        }
    }

    /// A clock that shows the same.
    pub fn copied(&self) -> Clock
        ensures { result ≡ self.now }
    {
        Clock {
            seconds: self.seconds,
            zone: self.zone,
        }
    }

    /// The seconds since 1970-01-01 00:00 UTC.
    pub fn seconds(&self) -> u64
        ensures { result ≡ self.now.seconds }
    {
        self.seconds
    }

    /// The clock's zone.
    pub fn zone(&self) -> Zone
        ensures { zone_as result ≡ self.now.zone }
    {
        self.zone
    }

    /// The moment that the clock shows.
    pub fn moment(&self) -> Moment
        ensures { moment_as result ≡ moment_of self.now }
    {
        Moment {
            minutes: (self.seconds / 60) as i64,
            second: (self.seconds % 60) as u8,
            zone: self.zone,
        }
    }
}
