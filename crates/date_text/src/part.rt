//! The parts of a date by their names (RFC 5260, 4.2).
ghost use Rattle.std.specs.Prelude.{◌≡◌};
ghost use Rattle.std.specs.Str.{str_eq_ignore_ascii_case};
ghost use Rattle.date_text.specs.Part.{part_name, part_named};

/// A part of a date (RFC 5260, 4.2).
#[derive(Clone, Copy, Debug, PartialEq, Eq)]
pub enum DatePart {
    /// `year`: four digits.
    Year,
    /// `month`: two digits.
    Month,
    /// `day`: two digits.
    Day,
    /// `date`: year, month and day, as `2026-07-05`.
    Date,
    /// `julian`: the modified Julian day.
    Julian,
    /// `hour`: two digits.
    Hour,
    /// `minute`: two digits.
    Minute,
    /// `second`: two digits.
    Second,
    /// `time`: hour, minute and second, as `12:00:00`.
    Time,
    /// `iso8601`: date, time and zone by RFC 3339, as `2026-07-05T12:00:00+02:00`.
    Iso8601,
    /// `std11`: weekday, date, time and zone by RFC 5322, as `Sun, 05 Jul 2026 12:00:00 +0200`.
    Std11,
    /// `zone`: a sign and four digits, as `+0200`.
    Zone,
    /// `weekday`: a digit, from 0 for Sunday.
    Weekday,
}

/// All parts, in the order of the enum.
pub const DATE_PARTS: [DatePart; 13] = [
    DatePart::Year,
    DatePart::Month,
    DatePart::Day,
    DatePart::Date,
    DatePart::Julian,
    DatePart::Hour,
    DatePart::Minute,
    DatePart::Second,
    DatePart::Time,
    DatePart::Iso8601,
    DatePart::Std11,
    DatePart::Zone,
    DatePart::Weekday,
];

/// Whether a text is the part's name, in any case of letters.
fn is_name_of(name: &[u8], part: DatePart) -> bool
    ensures { result ≡ str_eq_ignore_ascii_case (part_name part) name.now }
{
    part.name().eq_ignore_ascii_case(name)
}

impl DatePart {
    /// The name of the part, in lower case.
    pub fn name(self) -> &'static [u8]
        ensures { result.now ≡ part_name self }
    {
        match self {
            DatePart::Year => b"year",
            DatePart::Month => b"month",
            DatePart::Day => b"day",
            DatePart::Date => b"date",
            DatePart::Julian => b"julian",
            DatePart::Hour => b"hour",
            DatePart::Minute => b"minute",
            DatePart::Second => b"second",
            DatePart::Time => b"time",
            DatePart::Iso8601 => b"iso8601",
            DatePart::Std11 => b"std11",
            DatePart::Zone => b"zone",
            DatePart::Weekday => b"weekday",
        }
    }

    /// The part of a name, in any case of letters; none for another text.
    pub fn named(name: &[u8]) -> Option<DatePart>
        ensures { result ≡ part_named name.now }
    {
        DATE_PARTS
            .iter()
            .copied()
            .find(|part| is_name_of(name, *part))
    }
}
