//! The words, each with its call.

use crate::telling::Host;
use crate::{dates, edits, entities, flags, mails, reports, runs, scripts, texts, values};
use std::io;

const WORDS: &str =
    "is stands contains contains_in contains_in/short SearchedValue::contains SearchedValue::contains/short matches Captures replaced replaced/plain \
    flags_of union without FlagList::add FlagList::add/held \
    FlagList::add_text FlagList::add_text/held FlagList \
    Message::new Message::new/bare Message::value Message::decoded decoded_value decoded_value/unknown addresses \
    entities_of TransferEncoding::octets_of Entity::text Entity \
    Message Message::value/unfolded Message::decoded/plain Address date clock \
    tokens parse parse/faulty check judge judge/faulty compile dump_text Checked Code write_quoted \
    parts_of_text Values::set Values::expanded_string Values::join Values \
    Shelf::add run/tests run/body run/variables run/flags run/includes run/error Shelf Verdict \
    put_script put_script/new put_message put_message/new rename_script \
    set_main set_envelope set_mailbox set_mailboxes set_message_envelope set_expected \
    remove_script remove_message clear_main clear_expected clear_message_envelope set_clock clear_clock \
    Bench::new report test_bench session command_of command_of/mistake \
    report/kept verdict code status_of";

/// Prints each word.
pub(crate) fn tell(rt: &impl Print) -> io::Result<()> {
    for word in WORDS.split_whitespace() {
        println!(rt; "{word}")?;
    }
    Ok(())
}

/// Makes the call that a word names. A word that isn't one of these names an edit of a bench.
pub(crate) fn call(rt: &impl Host, word: &str) -> io::Result<()> {
    call_texts(rt, word)
        .or_else(|| call_scripts(rt, word))
        .or_else(|| call_reports(rt, word))
        .unwrap_or_else(|| edits::call(rt, word))
}

/// Texts, flags and mails.
fn call_texts(rt: &impl Host, word: &str) -> Option<io::Result<()>> {
    Some(match word {
        "is" | "contains" => texts::compare(rt, word),
        "stands" => texts::compare_numbers(rt),
        "contains_in" => texts::search_in(rt, texts::KEY),
        "contains_in/short" => texts::search_in(rt, texts::SHORT_KEY),
        "SearchedValue::contains" => texts::search_twice(rt, texts::KEY),
        "SearchedValue::contains/short" => texts::search_twice(rt, texts::SHORT_KEY),
        "matches" => texts::match_pattern(rt),
        "Captures" => texts::ask_captures(rt),
        "replaced" => texts::replace(rt, texts::SEQUENCES),
        "replaced/plain" => texts::replace(rt, texts::NO_SEQUENCE),
        "flags_of" => flags::read(rt),
        "union" | "without" => flags::combine(rt, word),
        "FlagList::add" => flags::add(rt, flags::SECOND),
        "FlagList::add/held" => flags::add(rt, flags::HELD),
        "FlagList::add_text" => flags::add_text(rt, flags::SECOND),
        "FlagList::add_text/held" => flags::add_text(rt, flags::HELD),
        "FlagList" => flags::ask(rt),
        "Message::new" => mails::read(rt, mails::MAIL),
        "Message::new/bare" => mails::read(rt, mails::BARE),
        "Message::value" => mails::ask_value(rt, mails::TO),
        "Message::decoded" => mails::ask_decoded(rt, mails::SUBJECT),
        "decoded_value" => mails::decode(rt, mails::WORD),
        "decoded_value/unknown" => mails::decode(rt, mails::UNKNOWN),
        "addresses" => mails::read_addresses(rt, mails::ADDRESSES),
        "Message" => mails::ask(rt),
        "Message::value/unfolded" => mails::ask_value(rt, mails::PLAIN),
        "Message::decoded/plain" => mails::ask_decoded(rt, mails::PLAIN),
        "Address" => mails::ask_address(rt),
        "entities_of" => entities::read(rt),
        "TransferEncoding::octets_of" => entities::undo(rt),
        "Entity::text" => entities::read_text(rt),
        "Entity" => entities::ask(rt),
        "date" => dates::show_date(rt, dates::DATE),
        "clock" => dates::show_clock(rt, dates::CLOCK),
        _ => return None,
    })
}

/// Scripts and runs.
fn call_scripts(rt: &impl Host, word: &str) -> Option<io::Result<()>> {
    Some(match word {
        "tokens" => scripts::cut(rt, scripts::TOKENS),
        "parse" => scripts::read(rt, scripts::TEXT),
        "parse/faulty" => scripts::read(rt, scripts::NO_SCRIPT),
        "check" => scripts::check_script(rt),
        "judge" => scripts::judge_text(rt, scripts::TEXT),
        "judge/faulty" => scripts::judge_text(rt, scripts::BREACH),
        "compile" => scripts::compile_script(rt),
        "dump_text" => scripts::dump(rt),
        "Checked" => scripts::ask_checked(rt),
        "Code" => scripts::ask_code(rt),
        "write_quoted" => scripts::quote(rt, scripts::QUOTED),
        "parts_of_text" => values::cut(rt),
        "Values::set" => values::set(rt),
        "Values::expanded_string" => values::expand(rt),
        "Values::join" => values::join(rt),
        "Values" => values::ask(rt),
        "Shelf::add" => runs::add(rt),
        "run/tests" => runs::run_texts(rt, runs::TESTS, runs::LIB),
        "run/body" => runs::run_body(rt),
        "run/variables" => runs::run_texts(rt, runs::VARIABLES, runs::LIB),
        "run/flags" => runs::run_texts(rt, runs::FLAGS, runs::LIB),
        "run/includes" => runs::run_texts(rt, runs::INCLUDES, runs::LIB),
        "run/error" => runs::run_texts(rt, runs::FAILS, runs::BAD),
        "Shelf" => runs::ask_shelf(rt),
        "Verdict" => runs::ask_verdict(rt),
        _ => return None,
    })
}

/// Reports, sessions, and the words of a command line.
fn call_reports(rt: &impl Host, word: &str) -> Option<io::Result<()>> {
    Some(match word {
        "Bench::new" => reports::make_bench(rt),
        "report" => reports::report_stale(rt),
        "test_bench" => reports::test(rt),
        "session" => reports::serve(rt),
        "command_of" => reports::read_words(rt, reports::TEST),
        "command_of/mistake" => reports::read_words(rt, reports::MISTAKE),
        "report/kept" => reports::report_kept(rt),
        "verdict" => reports::ask_verdict(rt),
        "code" => reports::ask_code(rt),
        "status_of" => reports::ask_status(rt),
        _ => return None,
    })
}
