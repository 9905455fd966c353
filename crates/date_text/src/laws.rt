//! Laws over the definitions. Each of these functions does nothing: its contract is the law.
ghost use Rattle.std.specs.Prelude.{◌≡◌, ℕ, ◌+◌, ◌%◌, ◌<◌, ◌≤◌, ◌∷◌, ℤ, pos, ◌+ℤ◌, ◌*ℤ◌, true, false, List, [], Some, codes, is_some};
ghost use Rattle.date_text.specs.Calendar.{CivilDate, IsInCalendar, date_at, day_number, is_in_years, next_date, weekday_at};
ghost use Rattle.date_text.specs.Moment.{Moment, day_in, minute_in, minutes_in, moment_at};
ghost use Rattle.date_text.specs.Part.{part_name, part_named};
ghost use Rattle.date_text.specs.Reading.{date_in};
ghost use Rattle.date_text.specs.Shown.{shown};
ghost use Rattle.std.specs.List.{list_any};
ghost use Rattle.std.specs.Str.{str_eq_ignore_ascii_case};
ghost use Rattle.date_text.specs.Words.{DateWord};
ghost use Rattle.date_text.specs.Zone.{Zone, is_same_name, west, zone_named, zone_of_letters, zone_text};
ghost use Rattle.date_text.specs.declared.part.DatePart.{DatePart};
ghost use Rattle.date_text.specs.declared.part.DatePart.TheVariants.{Std11};

/// From 0000-01-01 to 9999-12-31 each date has a day number, and each day number is that of one
/// date. The next date has the next day number. The day number of 1970-01-01 is 0.
pub fn days_and_dates_go_into_each_other()
    ensures within { (date : CivilDate) → IsInCalendar date → is_in_years (day_number date) ≡ true }
    ensures back { (date : CivilDate) → IsInCalendar date → date_at (day_number date) ≡ date }
    ensures one { (a b : CivilDate) → IsInCalendar a → IsInCalendar b → day_number a ≡ day_number b
        → a ≡ b }
    ensures next { (date : CivilDate) → IsInCalendar date
        → day_number (next_date date) ≡ day_number date +ℤ pos 1 }
    ensures each { (day : ℤ) → is_in_years day ≡ true
        → IsInCalendar (date_at day) × (day_number (date_at day) ≡ day) }
    ensures first { day_number (record { year = 1970; month = 1; day = 1 }) ≡ pos 0 }
{}

/// The next day has the next weekday, a week on it is the same one, and 1970-01-01 was a Thursday.
pub fn weekdays_go_round()
    ensures next { (day : ℤ) → weekday_at (day +ℤ pos 1) ≡ (weekday_at day + 1) % 7 }
    ensures week { (day : ℤ) → weekday_at (day +ℤ pos 7) ≡ weekday_at day }
    ensures first { weekday_at (pos 0) ≡ 4 }
{}

/// A zone's clocks show the minutes of a moment, shifted by those of the zone. The day and the
/// minute that they show, read in that zone, are the moment again. A day and a minute of a zone,
/// made a moment, are shown again by its clocks.
pub fn a_zone_and_back_changes_nothing()
    ensures shifted { (moment : Moment) (zone : Zone) → (day_in moment zone *ℤ pos 1440 +ℤ pos
        (minute_in moment zone) ≡ minutes_in moment zone) × (minute_in moment zone < 1440) }
    ensures back { (moment : Moment) (zone : Zone)
        → moment_at (day_in moment zone) (minute_in moment zone) moment.second zone
        ≡ record { minutes = moment.minutes; second = moment.second; zone = zone } }
    ensures forth { (day : ℤ) (minute second : ℕ) (zone : Zone) → minute < 1440
        → (day_in (moment_at day minute second zone) zone ≡ day)
        × (minute_in (moment_at day minute second zone) zone ≡ minute) }
{}

/// Each zone is named by its text.
#[tactic(auto, using(crate::proofs::LineLemmas::zone_is_named))]
pub fn zones_are_named_by_their_texts()
    ensures { (zone : Zone) → zone.minutes ≤ 5999 → zone_named (zone_text zone) ≡ Some zone }
{}

/// Each part is found by its name, so no two have one name.
#[tactic(auto, using(crate::proofs::PartLemmas::part_found))]
pub fn parts_are_found()
    ensures { (part : DatePart) → part_named (part_name part) ≡ Some part }
{}

/// The `std11` text of a moment is read as that moment, with its second and that zone. The moment's
/// year in the zone must be 1900 or later.
pub fn what_is_shown_is_read()
    ensures { (moment : Moment) (zone : Zone) (text : List ℕ) → moment.second ≤ 60
        → zone.minutes ≤ 5999 → 1900 ≤ (date_at (day_in moment zone)).year
        → shown moment zone Std11 ≡ Some text → date_in text
        ≡ Some (record { minutes = moment.minutes; second = moment.second; zone = zone }) }
{}

/// Letters say a zone exactly if they are one of these names, in any case (RFC 5322, 4.3). All
/// others say as much as `-0000`: nothing.
#[tactic(auto, using(crate::proofs::ZoneNames::zone_unknown, crate::proofs::ZoneNames::zone_known))]
pub fn zones_are_known_by_their_names()
    ensures others { (word : DateWord) → list_any (is_same_name word) (codes "UT" ∷ codes "GMT" ∷ codes "EST" ∷ codes "CDT"
        ∷ codes "EDT" ∷ codes "CST" ∷ codes "MDT" ∷ codes "MST" ∷ codes "PDT" ∷ codes "PST" ∷ []) ≡ false
        → zone_of_letters word ≡ west 0 }
    ensures these { (word : DateWord) → list_any (is_same_name word) (codes "UT" ∷ codes "GMT" ∷ codes "EST" ∷ codes "CDT"
        ∷ codes "EDT" ∷ codes "CST" ∷ codes "MDT" ∷ codes "MST" ∷ codes "PDT" ∷ codes "PST" ∷ []) ≡ true
        → ¬ (zone_of_letters word ≡ west 0) }
{}

/// A part of a date is known exactly by one of these names, in any case (RFC 5260, 4.2).
#[tactic(auto, using(crate::proofs::PartNames::parts_known))]
pub fn parts_are_known_by_their_names()
    ensures { (name : List ℕ) → is_some (part_named name) ≡ list_any
        (λ known. str_eq_ignore_ascii_case known name) (codes "year" ∷ codes "month" ∷ codes "day" ∷ codes "date" ∷ codes "julian"
        ∷ codes "hour" ∷ codes "minute" ∷ codes "second" ∷ codes "time" ∷ codes "iso8601"
        ∷ codes "std11" ∷ codes "zone" ∷ codes "weekday" ∷ []) }
{}
