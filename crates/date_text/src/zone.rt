//! Zones (RFC 5322, 3.3 and 4.3).
ghost use Rattle.std.specs.Prelude.{◌≡◌, ◌≤◌, ◌++◌, OnOk};
ghost use Rattle.jiff_core.specs.Calendar.{IsWithin};
ghost use Rattle.date_text.specs.Zone.{east, shift_of, west, zone_sign, zone_text, zone_text_with_colon};

use crate::number::{digit, push_pair};
use std::alloc::AllocError;

/// A zone: the minutes that its clocks add to the time of UTC, or take from it to the west. West
/// with 0 minutes is `-0000`, which says nothing of the zone.
#[derive(Clone, Copy, Debug)]
pub struct Zone {
    /// Whether it lies to the west.
    pub west: bool,
    /// The minutes, up to 5,999.
    pub minutes: u16,
    pub ghost minutes_in: { minutes ≤ 5999 },
}

impl Zone {
    ghost use Rattle.date_text.specs.view.Moment.{zone_as};

    /// The zone of UTC: `+0000`.
    pub const UTC: Zone = Zone {
        west: false,
        minutes: 0,
    };

    /// A zone to the east.
    pub(crate) fn east(minutes: u16) -> Zone
        requires { minutes ≤ 5999 }
        ensures { zone_as result ≡ east minutes }
    {
        Zone {
            west: false,
            minutes,
        }
    }

    /// A zone to the west.
    pub(crate) fn west(minutes: u16) -> Zone
        requires { minutes ≤ 5999 }
        ensures { zone_as result ≡ west minutes }
    {
        Zone {
            west: true,
            minutes,
        }
    }

    /// The minutes to add to the time of UTC.
    pub(crate) fn shift(&self) -> i64
        ensures is { result ≡ shift_of (zone_as self.now) }
        ensures small { IsWithin 5999 result }
    {
        let minutes = i64::from(self.minutes);
        if self.west { -minutes } else { minutes }
    }

    /// `-` to the west, and else `+`.
    fn sign(&self) -> u8
        ensures { result ≡ zone_sign (zone_as self.now) }
    {
        if self.west { b'-' } else { b'+' }
    }

    /// The zone as a sign and four digits: hours and minutes.
    pub fn text(&self) -> [u8; 5]
        ensures { result ≡ zone_text (zone_as self.now) }
    {
        let hours = (self.minutes / 60) as u8;
        let minutes = (self.minutes % 60) as u8;
        [
            self.sign(),
            digit(hours / 10),
            digit(hours % 10),
            digit(minutes / 10),
            digit(minutes % 10),
        ]
    }

    /// Adds the zone to a text as a sign and four digits.
    pub(crate) fn push_to(&self, text: &mut Vec<u8>) -> Result<(), AllocError>
        ensures { OnOk result (text.new.items ≡ text.old.items ++ zone_text (zone_as self.now)) }
    {
        text.extend_from_slice(&self.text())?;
        Ok(())
    }

    /// Adds the zone to a text, with a `:` after the hours (RFC 3339, 5.6: time-numoffset).
    pub(crate) fn push_with_colon_to(&self, text: &mut Vec<u8>) -> Result<(), AllocError>
        ensures { OnOk result
            (text.new.items ≡ text.old.items ++ zone_text_with_colon (zone_as self.now)) }
    {
        text.push(self.sign())?;
        push_pair(text, (self.minutes / 60) as u8)?;
        text.push(b':')?;
        push_pair(text, (self.minutes % 60) as u8)?;
        Ok(())
    }
}
