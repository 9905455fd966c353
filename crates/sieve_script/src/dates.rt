//! How tests of dates are read (RFC 5260, sections 4 and 5).
ghost use Rattle.std.specs.Prelude.{◌≡◌, map};
ghost use Rattle.std.specs.Option.{option_map};
ghost use Rattle.sieve_script.specs.Given.{in_role};
ghost use Rattle.sieve_script.specs.TestReading as spec;
ghost use Rattle.sieve_script.specs.view.Reading.{ask_as, date_zone_as};
ghost use Rattle.sieve_script.specs.view.Tags.{tags_as};
ghost use Rattle.sieve_script.specs.view.CutArgument.{cut_as};
ghost use Rattle.sieve_table.specs.declared.row.Role.TheVariants as role;

use crate::by_label::first_or;
use crate::cut_argument::CutArgument;
use crate::given::{given_text, text_in, texts_in};
use crate::label::{Label, after_first, first_role};
use crate::reading::{Ask, DateZone, ReadAsk, ValueSource};
use crate::tags::Tags;
use crate::test_reading::comparison_of;
use sieve_table::{Role, Tag, TagKind, has_role};
use sieve_variables::Parts;
use std::alloc::Global;

/// The arguments of a test of dates that have strings, each the first in its role.
#[derive(Drop)]
struct DateStrings {
    zone: Option<CutArgument>,
    field: Option<CutArgument>,
    part: Option<CutArgument>,
    keys: Option<CutArgument>,
}

/// The first argument in each of these roles, by value.
fn into_strings(labels: &[Label], args: Vec<CutArgument>) -> DateStrings
    ensures zone { option_map cut_as result.zone
        ≡ in_role role.Zone labels.now (map cut_as args.items) }
    ensures field { option_map cut_as result.field
        ≡ in_role role.FieldNames labels.now (map cut_as args.items) }
    ensures part { option_map cut_as result.part
        ≡ in_role role.DatePart labels.now (map cut_as args.items) }
    ensures keys { option_map cut_as result.keys
        ≡ in_role role.Keys labels.now (map cut_as args.items) }
{
    let mut labels_left = labels;
    let mut zone = None;
    let mut field = None;
    let mut part = None;
    let mut keys = None;
    for argument in args {
        let role = first_role(labels_left);
        labels_left = after_first(labels_left);
        if has_role(Role::Zone, role) {
            zone = first_or(zone, argument);
        } else if has_role(Role::FieldNames, role) {
            field = first_or(field, argument);
        } else if has_role(Role::DatePart, role) {
            part = first_or(part, argument);
        } else if has_role(Role::Keys, role) {
            keys = first_or(keys, argument);
        }
    }
    DateStrings {
        zone,
        field,
        part,
        keys,
    }
}

/// The zone in which a date is shown, by a tag and the zone that `:zone` names.
fn zone_by(tag: Option<Tag>, named: Option<Parts>) -> DateZone<Parts>
    ensures { date_zone_as result ≡ spec.zone_by tag named }
{
    match (tag, named) {
        (Some(Tag::OriginalZone), _) => DateZone::Original,
        (_, Some(zone)) => DateZone::Named(zone),
        (_, None) => DateZone::Local,
    }
}

/// The zone in which a date is shown.
#[tactic(auto, unfolding(crate::specs::TestReading::zone_of))]
fn zone_of(tags: Tags, named: Option<Parts>) -> DateZone<Parts>
    ensures { date_zone_as result ≡ spec.zone_of (tags_as tags) named }
{
    zone_by(tags.of(TagKind::Zone), named)
}

/// Reads a `date` test (RFC 5260, section 4).
pub(crate) fn date_ask(alloc: Global, labels: &[Label], args: Vec<CutArgument>) -> ReadAsk
    ensures { ask_as result ≡ (let given = map cut_as args.items
        in spec.compares_by (spec.date_source labels.now given) labels.now given) }
{
    let tags = Tags::among(labels);
    let comparison = comparison_of(tags, labels, &args);
    let DateStrings {
        zone,
        field,
        part,
        keys,
    } = into_strings(labels, args);
    Ask::Compares {
        source: ValueSource::Date {
            zone: zone_of(tags, given_text(zone)),
            field: text_in(field),
            part: text_in(part),
        },
        comparison,
        keys: texts_in(alloc, keys),
    }
}

/// Reads a `currentdate` test (RFC 5260, section 5).
pub(crate) fn current_date_ask(alloc: Global, labels: &[Label], args: Vec<CutArgument>) -> ReadAsk
    ensures { ask_as result ≡ (let given = map cut_as args.items
        in spec.compares_by (spec.clock_source labels.now given) labels.now given) }
{
    let tags = Tags::among(labels);
    let comparison = comparison_of(tags, labels, &args);
    let DateStrings {
        zone,
        part,
        keys,
        ..
    } = into_strings(labels, args);
    Ask::Compares {
        source: ValueSource::CurrentDate {
            zone: zone_of(tags, given_text(zone)),
            part: text_in(part),
        },
        comparison,
        keys: texts_in(alloc, keys),
    }
}
