//! How a test is read, by its arguments and their labels (RFC 5228, section 5). Extensions add
//! `string` (RFC 5229, section 5), `hasflag` (RFC 5232, section 4) and `mailboxexists` (RFC 5490,
//! section 3.1). They add `duplicate` (RFC 7352, section 3) and `body` (RFC 5173, section 4). They
//! add `date` and `currentdate` (RFC 5260, sections 4 and 5).
ghost use Rattle.std.specs.Prelude.{◌≡◌, map};
ghost use Rattle.std.specs.Option.{option_map};
ghost use Rattle.sieve_script.specs.Given.{tags_of};
ghost use Rattle.sieve_script.specs.TestReading as spec;
ghost use Rattle.sieve_script.specs.view.Reading.{ask_as, list_as, source_as, test_reading_as, transform_as};
ghost use Rattle.sieve_script.specs.view.Tags.{tags_as};
ghost use Rattle.sieve_script.specs.view.CutArgument.{cut_as};

use crate::by_label::{argument_in, into_argument, into_arguments};
use crate::cut_argument::CutArgument;
use crate::dates::{current_date_ask, date_ask};
use crate::given::{
    address_part_of, collation_by, given_texts, match_type_of, number_in, texts_in,
};
use crate::label::Label;
use crate::reading::{Ask, BodyTransform, Comparison, ReadAsk, TestReading, ValueSource};
use crate::tags::Tags;
use sieve_table::{Role, Tag, TagKind, TestKind};
use sieve_variables::Parts;
use std::alloc::Global;

/// How a test compares (RFC 5228, section 2.7; RFC 5231, section 4).
pub(crate) fn comparison_of(tags: Tags, labels: &[Label], args: &[CutArgument]) -> Comparison
    requires { tags_as tags ≡ tags_of labels.now }
    ensures { result ≡ spec.comparison_by labels.now (map cut_as args.now) }
{
    Comparison {
        match_type: match_type_of(tags, argument_in(labels, Role::Relation, args)),
        collation: collation_by(argument_in(labels, Role::ComparatorName, args)),
    }
}

/// Reads a `header` test (RFC 5228, section 5.7).
fn header_ask(alloc: Global, labels: &[Label], args: Vec<CutArgument>) -> ReadAsk
    ensures { ask_as result ≡ (let given = map cut_as args.items
        in spec.compares_by (spec.header_source labels.now given) labels.now given) }
{
    let comparison = comparison_of(Tags::among(labels), labels, &args);
    let (names, keys) = into_arguments(labels, Role::FieldNames, Role::Keys, args);
    Ask::Compares {
        source: ValueSource::Fields {
            part: None,
            names: texts_in(alloc, names),
        },
        comparison,
        keys: texts_in(alloc, keys),
    }
}

/// Reads an `address` test (RFC 5228, section 5.1).
fn address_ask(alloc: Global, labels: &[Label], args: Vec<CutArgument>) -> ReadAsk
    ensures { ask_as result ≡ (let given = map cut_as args.items
        in spec.compares_by (spec.address_source labels.now given) labels.now given) }
{
    let tags = Tags::among(labels);
    let comparison = comparison_of(tags, labels, &args);
    let (names, keys) = into_arguments(labels, Role::AddressFields, Role::Keys, args);
    Ask::Compares {
        source: ValueSource::Fields {
            part: Some(address_part_of(tags)),
            names: texts_in(alloc, names),
        },
        comparison,
        keys: texts_in(alloc, keys),
    }
}

/// Reads an `envelope` test (RFC 5228, section 5.4).
fn envelope_ask(alloc: Global, labels: &[Label], args: Vec<CutArgument>) -> ReadAsk
    ensures { ask_as result ≡ (let given = map cut_as args.items
        in spec.compares_by (spec.envelope_source labels.now given) labels.now given) }
{
    let tags = Tags::among(labels);
    let comparison = comparison_of(tags, labels, &args);
    let (names, keys) = into_arguments(labels, Role::EnvelopeParts, Role::Keys, args);
    Ask::Compares {
        source: ValueSource::Envelope {
            part: address_part_of(tags),
            names: texts_in(alloc, names),
        },
        comparison,
        keys: texts_in(alloc, keys),
    }
}

/// Reads a `string` test (RFC 5229, section 5).
fn string_ask(alloc: Global, labels: &[Label], args: Vec<CutArgument>) -> ReadAsk
    ensures { ask_as result ≡ (let given = map cut_as args.items
        in spec.compares_by (spec.string_source labels.now given) labels.now given) }
{
    let comparison = comparison_of(Tags::among(labels), labels, &args);
    let (texts, keys) = into_arguments(labels, Role::Text, Role::Keys, args);
    Ask::Compares {
        source: ValueSource::String {
            texts: texts_in(alloc, texts),
        },
        comparison,
        keys: texts_in(alloc, keys),
    }
}

/// Reads a `hasflag` test (RFC 5232, section 4).
fn flag_ask(alloc: Global, labels: &[Label], args: Vec<CutArgument>) -> ReadAsk
    ensures { ask_as result ≡ (let given = map cut_as args.items
        in spec.compares_by (spec.flag_source labels.now given) labels.now given) }
{
    let comparison = comparison_of(Tags::among(labels), labels, &args);
    let (variables, keys) = into_arguments(labels, Role::NamesToRead, Role::Keys, args);
    Ask::Compares {
        source: ValueSource::Flags {
            variables: given_texts(alloc, variables),
        },
        comparison,
        keys: texts_in(alloc, keys),
    }
}

/// The part of a body that a test looks at, by a tag and the entries that `:content` takes.
fn transform_by(tag: Option<Tag>, named: Option<Vec<Parts>>) -> BodyTransform<Vec<Parts>>
    ensures { transform_as result
        ≡ spec.transform_by tag (option_map list_as named) }
{
    match (tag, named) {
        (Some(Tag::Raw), _) => BodyTransform::Raw,
        (_, Some(entries)) => BodyTransform::Content { entries },
        (_, None) => BodyTransform::Text,
    }
}

/// The part of a body that a test looks at.
#[tactic(auto, unfolding(crate::specs::TestReading::transform_of))]
fn transform_of(tags: Tags, named: Option<Vec<Parts>>) -> BodyTransform<Vec<Parts>>
    ensures { transform_as result
        ≡ spec.transform_of (tags_as tags) (option_map list_as named) }
{
    transform_by(tags.of(TagKind::BodyTransform), named)
}

/// Reads a `body` test (RFC 5173, section 4).
fn body_ask(alloc: Global, labels: &[Label], args: Vec<CutArgument>) -> ReadAsk
    ensures { ask_as result ≡ (let given = map cut_as args.items
        in spec.compares_by (spec.body_source labels.now given) labels.now given) }
{
    let tags = Tags::among(labels);
    let comparison = comparison_of(tags, labels, &args);
    let (entries, keys) = into_arguments(labels, Role::ContentTypes, Role::Keys, args);
    Ask::Compares {
        source: ValueSource::Body {
            transform: transform_of(tags, given_texts(alloc, entries)),
        },
        comparison,
        keys: texts_in(alloc, keys),
    }
}

/// Reads an `exists` test (RFC 5228, section 5.5).
fn exists_ask(alloc: Global, labels: &[Label], args: Vec<CutArgument>) -> ReadAsk
    ensures { ask_as result
        ≡ spec.exists_by labels.now (map cut_as args.items) }
{
    let names = texts_in(alloc, into_argument(labels, Role::FieldNames, args));
    Ask::Exists { names }
}

/// The question about the message's size, by a tag: fewer octets under `:under`, and else more.
fn bound_by(tag: Option<Tag>, limit: u64) -> ReadAsk
    ensures { ask_as result ≡ spec.bound_by tag limit }
{
    match tag {
        Some(Tag::Under) => Ask::Under { limit },
        _ => Ask::Over { limit },
    }
}

/// The question about the message's size.
#[tactic(auto, unfolding(crate::specs::TestReading::bound_ask))]
fn bound_ask(tags: Tags, limit: u64) -> ReadAsk
    ensures { ask_as result ≡ spec.bound_ask (tags_as tags) limit }
{
    bound_by(tags.of(TagKind::Bound), limit)
}

/// Reads a `size` test (RFC 5228, section 5.9).
fn size_ask(labels: &[Label], args: Vec<CutArgument>) -> ReadAsk
    ensures { ask_as result
        ≡ spec.size_by labels.now (map cut_as args.items) }
{
    let limit = number_in(argument_in(labels, Role::Limit, &args));
    bound_ask(Tags::among(labels), limit)
}

/// Reads a `mailboxexists` test (RFC 5490, section 3.1).
fn mailboxes_ask(alloc: Global, labels: &[Label], args: Vec<CutArgument>) -> ReadAsk
    ensures { ask_as result
        ≡ spec.mailboxes_by labels.now (map cut_as args.items) }
{
    let names = texts_in(alloc, into_argument(labels, Role::Mailbox, args));
    Ask::MailboxExists { names }
}

/// Reads a test of a kind by its arguments and their labels, without the tests in it. The reading
/// keeps the strings of the arguments.
pub fn read_test(
    alloc: Global,
    kind: TestKind,
    labels: &[Label],
    args: Vec<CutArgument>,
) -> TestReading
    ensures { test_reading_as result
        ≡ spec.test_reading_by kind labels.now (map cut_as args.items) }
{
    let ask = match kind {
        TestKind::Header => header_ask(alloc, labels, args),
        TestKind::Address => address_ask(alloc, labels, args),
        TestKind::Envelope => envelope_ask(alloc, labels, args),
        TestKind::Exists => exists_ask(alloc, labels, args),
        TestKind::Size => size_ask(labels, args),
        TestKind::AllOf => return TestReading::AllOf,
        TestKind::AnyOf => return TestReading::AnyOf,
        TestKind::Not => return TestReading::Not,
        TestKind::True => return TestReading::Always,
        TestKind::False => return TestReading::Never,
        TestKind::String => string_ask(alloc, labels, args),
        TestKind::HasFlag => flag_ask(alloc, labels, args),
        TestKind::MailboxExists => mailboxes_ask(alloc, labels, args),
        TestKind::Duplicate => Ask::Duplicate,
        TestKind::Date => date_ask(alloc, labels, args),
        TestKind::CurrentDate => current_date_ask(alloc, labels, args),
        TestKind::Body => body_ask(alloc, labels, args),
    };
    TestReading::Asks(ask)
}
