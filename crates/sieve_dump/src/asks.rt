//! The tests of a dump.
ghost use Rattle.std.specs.Prelude.{◌≡◌, ◌++◌, codes};
ghost use Rattle.match_text.specs.Relation.{relation_word};
ghost use Rattle.devices.specs.Writers.{Writes};
ghost use Rattle.sieve_dump.specs.Asks.{address_part_word, address_words, collation_word, comparing_words, date_words, internal_list, match_word, source_text, transform_words, zone_words};
ghost use Rattle.sieve_dump.specs.Strings.{further_list, further_string};
ghost use Rattle.packed_strings.specs.view.Refs.{body_ref_as, source_ref_as, zone_ref_as};

use crate::strings::{write_further_list, write_string};
use devices::{Piece, Sink, WriteFault, write_out, write_pieces};
use match_text::{Collation, Relation};
use message_text::AddressPart;
use packed_strings::{BodyRef, SourceRef, Strings, ZoneRef};
use sieve_script::{Comparison, MatchType};
use sieve_variables::Part;

/// The word of a match type that compares values, by its relation (RFC 5231, 4.1).
fn value_word(relation: Relation) -> &'static [u8]
    ensures { result.now ≡ codes "value-" ++ relation_word relation }
{
    match relation {
        Relation::Gt => b"value-gt",
        Relation::Ge => b"value-ge",
        Relation::Lt => b"value-lt",
        Relation::Le => b"value-le",
        Relation::Eq => b"value-eq",
        Relation::Ne => b"value-ne",
    }
}

/// The word of a match type that compares the number of values, by its relation (RFC 5231, 4.2).
fn count_word(relation: Relation) -> &'static [u8]
    ensures { result.now ≡ codes "count-" ++ relation_word relation }
{
    match relation {
        Relation::Gt => b"count-gt",
        Relation::Ge => b"count-ge",
        Relation::Lt => b"count-lt",
        Relation::Le => b"count-le",
        Relation::Eq => b"count-eq",
        Relation::Ne => b"count-ne",
    }
}

/// The word of a match type.
fn match_word(match_type: MatchType) -> &'static [u8]
    ensures { result.now ≡ match_word match_type }
{
    match match_type {
        MatchType::Is => b"is",
        MatchType::Contains => b"contains",
        MatchType::Matches => b"matches",
        MatchType::Value(relation) => value_word(relation),
        MatchType::Count(relation) => count_word(relation),
    }
}

/// The word of a comparator.
fn collation_word(collation: Collation) -> &'static [u8]
    ensures { result.now ≡ collation_word collation }
{
    match collation {
        Collation::Octet => b"octet",
        Collation::Casemap => b"casemap",
        Collation::Numeric => b"numeric",
    }
}

/// The word of a part of an address.
fn address_part_word(part: AddressPart) -> &'static [u8]
    ensures { result.now ≡ address_part_word part }
{
    match part {
        AddressPart::All => b"all",
        AddressPart::Local => b"localpart",
        AddressPart::Domain => b"domain",
        AddressPart::User => b"user",
        AddressPart::Detail => b"detail",
    }
}

/// Writes the words of a test that compares values with keys.
#[tactic(auto, unfolding(crate::specs::Asks::comparing_words))]
fn write_comparing<W: Sink>(
    test: &[u8],
    comparison: Comparison,
    writer: &mut W,
) -> Result<(), WriteFault>
    ensures { Writes W.contents W.fault_count result writer.old writer.new
        (comparing_words test.now comparison) }
{
    write_pieces(
        &[
            Piece::Raw(test),
            Piece::Raw(b" "),
            Piece::Raw(match_word(comparison.match_type)),
            Piece::Raw(b" "),
            Piece::Raw(collation_word(comparison.collation)),
        ],
        writer,
    )
}

/// Writes the words of a test that compares a part of addresses.
#[tactic(auto, using(devices::proofs::Writing::writing), unfolding(crate::specs::Asks::address_words))]
fn write_address_words<W: Sink>(
    test: &[u8],
    comparison: Comparison,
    part: AddressPart,
    writer: &mut W,
) -> Result<(), WriteFault>
    ensures { Writes W.contents W.fault_count result writer.old writer.new
        (address_words test.now comparison part) }
{
    write_comparing(test, comparison, writer)?;
    write_pieces(
        &[Piece::Raw(b" "), Piece::Raw(address_part_word(part))],
        writer,
    )
}

/// Writes the variables whose flags a test looks at, or `internal` for the internal flags.
#[tactic(auto, unfolding(crate::specs::Asks::internal_list))]
fn write_internal_list<W: Sink>(
    variables: &Option<Strings<'_>>,
    writer: &mut W,
) -> Result<(), WriteFault>
    ensures { Writes W.contents W.fault_count result writer.old writer.new
        (internal_list variables.now) }
{
    match variables {
        Some(variables) => write_further_list(variables, writer),
        None => write_out(b" internal", writer),
    }
}

/// Writes a test of this name that compares values, with its names of fields or its texts.
#[tactic(auto, using(devices::proofs::Writing::writing))]
fn write_values<W: Sink>(
    test: &[u8],
    comparison: Comparison,
    values: &Strings<'_>,
    writer: &mut W,
) -> Result<(), WriteFault>
    ensures { Writes W.contents W.fault_count result writer.old writer.new
        (comparing_words test.now comparison ++ further_list values.now) }
{
    write_comparing(test, comparison, writer)?;
    write_further_list(values, writer)
}

/// Writes a test of this name that compares a part of addresses, with its names.
#[tactic(auto, using(devices::proofs::Writing::writing))]
fn write_address<W: Sink>(
    test: &[u8],
    comparison: Comparison,
    part: AddressPart,
    names: &Strings<'_>,
    writer: &mut W,
) -> Result<(), WriteFault>
    ensures { Writes W.contents W.fault_count result writer.old writer.new
        (address_words test.now comparison part ++ further_list names.now) }
{
    write_address_words(test, comparison, part, writer)?;
    write_further_list(names, writer)
}

/// Writes a `hasflag` with the variables whose flags it looks at.
#[tactic(auto, using(devices::proofs::Writing::writing))]
fn write_hasflag<W: Sink>(
    comparison: Comparison,
    variables: &Option<Strings<'_>>,
    writer: &mut W,
) -> Result<(), WriteFault>
    ensures { Writes W.contents W.fault_count result writer.old writer.new
        (comparing_words (codes "hasflag") comparison ++ internal_list variables.now) }
{
    write_comparing(b"hasflag", comparison, writer)?;
    write_internal_list(variables, writer)
}

/// Writes a string after a space.
#[tactic(auto, unfolding(crate::specs::Strings::further_string))]
fn write_further_string<W: Sink>(string: &[Part], writer: &mut W) -> Result<(), WriteFault>
    ensures { Writes W.contents W.fault_count result writer.old writer.new
        (further_string string.now) }
{
    write_string(b" ", string, writer)
}

/// Writes the zone in which a date is shown.
#[tactic(auto, unfolding(crate::specs::Asks::zone_words))]
fn write_zone<W: Sink>(zone: &ZoneRef<'_>, writer: &mut W) -> Result<(), WriteFault>
    ensures { Writes W.contents W.fault_count result writer.old writer.new
        (zone_words (zone_ref_as zone.now)) }
{
    match zone {
        ZoneRef::Local => write_out(b" local", writer),
        ZoneRef::Original => write_out(b" original", writer),
        ZoneRef::Named(zone) => write_string(b" zone ", *zone, writer),
    }
}

/// Writes the words of a test that compares a part of a date, up to the zone.
#[tactic(auto, using(devices::proofs::Writing::writing), unfolding(crate::specs::Asks::date_words))]
fn write_date_words<W: Sink>(
    test: &[u8],
    comparison: Comparison,
    zone: &ZoneRef<'_>,
    writer: &mut W,
) -> Result<(), WriteFault>
    ensures { Writes W.contents W.fault_count result writer.old writer.new
        (date_words test.now comparison (zone_ref_as zone.now)) }
{
    write_comparing(test, comparison, writer)?;
    write_zone(zone, writer)
}

/// Writes the name of a field, and the part of its date.
#[tactic(auto, using(devices::proofs::Writing::writing))]
fn write_field_part<W: Sink>(
    field: &[Part],
    part: &[Part],
    writer: &mut W,
) -> Result<(), WriteFault>
    ensures { Writes W.contents W.fault_count result writer.old writer.new
        (further_string field.now ++ further_string part.now) }
{
    write_further_string(field, writer)?;
    write_further_string(part, writer)
}

/// Writes a `date` with its field and its part.
#[tactic(auto, using(devices::proofs::Writing::writing))]
fn write_date<W: Sink>(
    comparison: Comparison,
    zone: &ZoneRef<'_>,
    field: &[Part],
    part: &[Part],
    writer: &mut W,
) -> Result<(), WriteFault>
    ensures { Writes W.contents W.fault_count result writer.old writer.new
        (date_words (codes "date") comparison
        (zone_ref_as zone.now) ++ (further_string field.now ++ further_string part.now)) }
{
    write_date_words(b"date", comparison, zone, writer)?;
    write_field_part(field, part, writer)
}

/// Writes a `currentdate` with its part.
#[tactic(auto, using(devices::proofs::Writing::writing))]
fn write_current_date<W: Sink>(
    comparison: Comparison,
    zone: &ZoneRef<'_>,
    part: &[Part],
    writer: &mut W,
) -> Result<(), WriteFault>
    ensures { Writes W.contents W.fault_count result writer.old writer.new (date_words
        (codes "currentdate") comparison (zone_ref_as zone.now) ++ further_string part.now) }
{
    write_date_words(b"currentdate", comparison, zone, writer)?;
    write_further_string(part, writer)
}

/// Writes a word and a list.
#[tactic(auto, using(devices::proofs::Writing::writing))]
fn write_word_and_list<W: Sink>(
    word: &[u8],
    list: &Strings<'_>,
    writer: &mut W,
) -> Result<(), WriteFault>
    ensures { Writes W.contents W.fault_count result writer.old writer.new
        (word.now ++ further_list list.now) }
{
    write_out(word, writer)?;
    write_further_list(list, writer)
}

/// Writes the part of a body that a test looks at.
#[tactic(auto, unfolding(crate::specs::Asks::transform_words))]
fn write_transform<W: Sink>(transform: &BodyRef<'_>, writer: &mut W) -> Result<(), WriteFault>
    ensures { Writes W.contents W.fault_count result writer.old writer.new
        (transform_words (body_ref_as transform.now)) }
{
    match transform {
        BodyRef::Raw => write_out(b" raw", writer),
        BodyRef::Content { entries } => write_word_and_list(b" content", entries, writer),
        BodyRef::Text => write_out(b" text", writer),
    }
}

/// Writes a `body` with the part of the body that it looks at.
#[tactic(auto, using(devices::proofs::Writing::writing))]
fn write_body<W: Sink>(
    comparison: Comparison,
    transform: &BodyRef<'_>,
    writer: &mut W,
) -> Result<(), WriteFault>
    ensures { Writes W.contents W.fault_count result writer.old writer.new
        (comparing_words (codes "body") comparison ++ transform_words (body_ref_as transform.now)) }
{
    write_comparing(b"body", comparison, writer)?;
    write_transform(transform, writer)
}

/// Writes how a test compares, and the source of its values.
#[tactic(auto, unfolding(crate::specs::Asks::source_text))]
fn write_source<W: Sink>(
    source: &SourceRef<'_>,
    comparison: Comparison,
    writer: &mut W,
) -> Result<(), WriteFault>
    ensures { Writes W.contents W.fault_count result writer.old writer.new
        (source_text (source_ref_as source.now) comparison) }
{
    match source {
        SourceRef::Fields { part: None, names } => {
            write_values(b"header", comparison, names.strings(), writer)
        }
        SourceRef::Fields {
            part: Some(part),
            names,
        } => write_address(b"address", comparison, *part, names.strings(), writer),
        SourceRef::Envelope { part, names } => {
            write_address(b"envelope", comparison, *part, names, writer)
        }
        SourceRef::String { texts } => { write_values(b"string", comparison, texts, writer) }
        SourceRef::Flags { variables } => write_hasflag(comparison, variables, writer),
        SourceRef::Date { zone, field, part } => {
            write_date(comparison, zone, *field, *part, writer)
        }
        SourceRef::CurrentDate { zone, part } => write_current_date(
            comparison, zone, *part, writer,
        ),
        SourceRef::Body { transform } => write_body(comparison, transform, writer),
    }
}

/// Writes a test that compares values with keys.
#[tactic(auto, using(devices::proofs::Writing::writing))]
pub(crate) fn write_compares<W: Sink>(
    source: &SourceRef<'_>,
    comparison: Comparison,
    keys: &Strings<'_>,
    writer: &mut W,
) -> Result<(), WriteFault>
    ensures { Writes W.contents W.fault_count result writer.old writer.new
        (source_text (source_ref_as source.now) comparison ++ further_list keys.now) }
{
    write_source(source, comparison, writer)?;
    write_further_list(keys, writer)
}
