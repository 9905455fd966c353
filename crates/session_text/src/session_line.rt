//! The commands of a session's lines by their words, whichever extensions the profile has.
ghost use Rattle.std.specs.Prelude.{◌≡◌, ◌<◌, None, Some, IsTrue, ◌↔◌, []};
ghost use Rattle.std.specs.List.{list_all};
ghost use Rattle.std.specs.Option.{option_map};
ghost use Rattle.octets.specs.Octet.{is_printable};
ghost use Rattle.session_text.specs.SessionLine as spec;
ghost use Rattle.session_text.specs.view.Command.{command_as};

use crate::cutting::next_word;
use crate::extension_lines::{last_clock, message_envelope_command};
use crate::line_kind::LineKind;
use crate::word::SessionWord;
use date_text::Clock;
use octets::{is_digit, is_printable};
use script_names::Location;

/// The command of a line. Its words are those of the line, and no copies.
#[derive(Drop)]
pub enum SessionCommand<'a> {
    /// The line has no words.
    Nothing,
    /// To put a script, whose text is the next `count` octets.
    Script {
        location: Location,
        name: SessionWord<'a>,
        count: u64,
    },
    /// To put a message, which is the next `count` octets.
    Message {
        id: SessionWord<'a>,
        count: u64,
    },
    /// To make a script main.
    Main {
        location: Location,
        name: SessionWord<'a>,
    },
    /// To leave no script main.
    NoMain,
    /// To rename a script.
    Rename {
        location: Location,
        name: SessionWord<'a>,
        new_location: Location,
        new_name: SessionWord<'a>,
    },
    /// To remove a script.
    DropScript {
        location: Location,
        name: SessionWord<'a>,
    },
    /// To remove a message.
    DropMessage {
        id: SessionWord<'a>,
    },
    /// To set the envelope's addresses.
    Envelope {
        from: SessionWord<'a>,
        to: SessionWord<'a>,
    },
    /// To set the mailbox.
    Mailbox {
        mailbox: SessionWord<'a>,
    },
    /// To report.
    Report,
    /// To print the code of a script.
    Dump {
        location: Location,
        name: SessionWord<'a>,
    },
    /// To expect a text of a message's verdict, which is the next `count` octets.
    Expect {
        id: SessionWord<'a>,
        count: u64,
    },
    /// To expect no text of a message's verdict.
    NoExpect {
        id: SessionWord<'a>,
    },
    /// To set the list of mailboxes, which is the next `count` octets (RFC 5490, section 3.1).
    /// Needs `mailbox`.
    Mailboxes {
        count: u64,
    },
    /// To give a message addresses of its own. Needs `envelopes`.
    MessageEnvelope {
        id: SessionWord<'a>,
        from: SessionWord<'a>,
        to: SessionWord<'a>,
    },
    /// To take a message's own addresses from it. Needs `envelopes`.
    NoMessageEnvelope {
        id: SessionWord<'a>,
    },
    /// To set the clock (RFC 5260, sections 4.1 and 5). Needs `date`.
    Clock {
        clock: Clock,
    },
    /// To leave no clock. Needs `date`.
    NoClock,
}

/// Whether a word is this text.
#[tactic(auto, unfolding(crate::specs::SessionLine::is_text))]
fn is_text(word: &[u8], text: &[u8]) -> bool
    ensures { result ≡ spec.is_text text.now word.now }
{
    word == text
}

/// The location of a word, `personal` or `global`.
fn location_of(word: &[u8]) -> Option<Location>
    ensures { result ≡ spec.location_of word.now }
{
    if is_text(word, Location::Personal.word()) {
        Some(Location::Personal)
    } else if is_text(word, Location::Global.word()) {
        Some(Location::Global)
    } else {
        None
    }
}

/// The value of a count: one to nine digits.
fn count_of(word: &[u8]) -> Option<u64>
    ensures { result ≡ spec.count_of word.now }
{
    if word.is_empty() || word.len() > 9 {
        return None;
    }
    let mut value = 0u64;
    for octet in word {
        if !is_digit(*octet) {
            return None;
        }
        value = value * 10 + u64::from(*octet - b'0');
    }
    Some(value)
}

/// Whether nothing but spaces is left.
pub(crate) fn is_over(line: &[u8]) -> bool
    ensures { IsTrue result ↔ (spec.line_words line.now ≡ []) }
{
    next_word(line).is_none()
}

/// The value of a count that is the last word.
pub(crate) fn last_count(line: &[u8]) -> Option<u64>
    ensures { result ≡ spec.last_count (spec.line_words line.now) }
{
    let (count, line) = next_word(line)?;
    if is_over(line) { count_of(count) } else { None }
}

/// The script of a location and a name.
fn named<'a>(location: &[u8], name: &'a [u8]) -> Option<(Location, SessionWord<'a>)>
    ensures { result ≡ spec.named location.now name.now }
{
    let location = location_of(location)?;
    let name = SessionWord::new(name)?;
    Some((location, name))
}

/// A location and a name that are the last words.
fn last_name(line: &[u8]) -> Option<(Location, SessionWord<'_>)>
    ensures { result ≡ spec.last_name (spec.line_words line.now) }
{
    let (location, line) = next_word(line)?;
    let (name, line) = next_word(line)?;
    if is_over(line) {
        named(location, name)
    } else {
        None
    }
}

/// The value of the last word.
pub(crate) fn last_value(line: &[u8]) -> Option<SessionWord<'_>>
    ensures { result ≡ spec.last_value (spec.line_words line.now) }
{
    let (word, line) = next_word(line)?;
    if is_over(line) {
        SessionWord::new(word)
    } else {
        None
    }
}

/// The command of `script PLACE NAME N`, after its first word.
fn script_command(line: &[u8]) -> Option<SessionCommand<'_>>
    ensures { option_map command_as result ≡ spec.script_command (spec.line_words line.now) }
{
    let (location, line) = next_word(line)?;
    let (name, line) = next_word(line)?;
    let (location, name) = named(location, name)?;
    let count = last_count(line)?;
    Some(SessionCommand::Script {
        location,
        name,
        count,
    })
}

/// The command of `message ID N`, after its first word.
fn message_command(line: &[u8]) -> Option<SessionCommand<'_>>
    ensures { option_map command_as result ≡ spec.message_command (spec.line_words line.now) }
{
    let (id, line) = next_word(line)?;
    let id = SessionWord::new(id)?;
    let count = last_count(line)?;
    Some(SessionCommand::Message { id, count })
}

/// The command of `expect ID N`, after its first word.
fn expect_command(line: &[u8]) -> Option<SessionCommand<'_>>
    ensures { option_map command_as result ≡ spec.expect_command (spec.line_words line.now) }
{
    let (id, line) = next_word(line)?;
    let id = SessionWord::new(id)?;
    let count = last_count(line)?;
    Some(SessionCommand::Expect { id, count })
}

/// The command of `rename PLACE NAME PLACE NAME`, after its first word.
fn rename_command(line: &[u8]) -> Option<SessionCommand<'_>>
    ensures { option_map command_as result ≡ spec.rename_command (spec.line_words line.now) }
{
    let (location, line) = next_word(line)?;
    let (name, line) = next_word(line)?;
    let (location, name) = named(location, name)?;
    let (new_location, new_name) = last_name(line)?;
    Some(SessionCommand::Rename {
        location,
        name,
        new_location,
        new_name,
    })
}

/// The command of `envelope FROM TO`, after its first word.
fn envelope_command(line: &[u8]) -> Option<SessionCommand<'_>>
    ensures { option_map command_as result ≡ spec.envelope_command (spec.line_words line.now) }
{
    let (from, line) = next_word(line)?;
    let from = SessionWord::new(from)?;
    let to = last_value(line)?;
    Some(SessionCommand::Envelope { from, to })
}

/// The command of `main PLACE NAME`, after its first word.
fn main_command(line: &[u8]) -> Option<SessionCommand<'_>>
    ensures { option_map command_as result ≡ spec.main_command (spec.line_words line.now) }
{
    let (location, name) = last_name(line)?;
    Some(SessionCommand::Main { location, name })
}

/// The command of `drop-script PLACE NAME`, after its first word.
fn drop_script_command(line: &[u8]) -> Option<SessionCommand<'_>>
    ensures { option_map command_as result ≡ spec.drop_script_command (spec.line_words line.now) }
{
    let (location, name) = last_name(line)?;
    Some(SessionCommand::DropScript { location, name })
}

/// The command of `dump PLACE NAME`, after its first word.
fn dump_command(line: &[u8]) -> Option<SessionCommand<'_>>
    ensures { option_map command_as result ≡ spec.dump_command (spec.line_words line.now) }
{
    let (location, name) = last_name(line)?;
    Some(SessionCommand::Dump { location, name })
}

/// A command whose line has no further words.
fn alone<'a>(command: SessionCommand<'a>, line: &[u8]) -> Option<SessionCommand<'a>>
    ensures { option_map command_as result
        ≡ spec.alone (command_as command.entry) (spec.line_words line.now) }
{
    if is_over(line) { Some(command) } else { None }
}

/// The command of a kind of line and the words after the first.
fn command_of_kind(kind: LineKind, line: &[u8]) -> Option<SessionCommand<'_>>
    ensures { option_map command_as result
        ≡ spec.command_of_kind kind (spec.line_words line.now) }
{
    match kind {
        LineKind::Script => script_command(line),
        LineKind::Message => message_command(line),
        LineKind::Main => main_command(line),
        LineKind::NoMain => alone(SessionCommand::NoMain, line),
        LineKind::Rename => rename_command(line),
        LineKind::DropScript => drop_script_command(line),
        LineKind::DropMessage => Some(SessionCommand::DropMessage {
            id: last_value(line)?,
        }),
        LineKind::Envelope => envelope_command(line),
        LineKind::Mailbox => Some(SessionCommand::Mailbox {
            mailbox: last_value(line)?,
        }),
        LineKind::Report => alone(SessionCommand::Report, line),
        LineKind::Dump => dump_command(line),
        LineKind::Expect => expect_command(line),
        LineKind::NoExpect => Some(SessionCommand::NoExpect {
            id: last_value(line)?,
        }),
        LineKind::Mailboxes => Some(SessionCommand::Mailboxes {
            count: last_count(line)?,
        }),
        LineKind::MessageEnvelope => message_envelope_command(line),
        LineKind::NoMessageEnvelope => Some(SessionCommand::NoMessageEnvelope {
            id: last_value(line)?,
        }),
        LineKind::Clock => Some(SessionCommand::Clock {
            clock: last_clock(line)?,
        }),
        LineKind::NoClock => alone(SessionCommand::NoClock, line),
    }
}

/// The command of a first word and the words after it.
fn command_by<'a>(word: &[u8], line: &'a [u8]) -> Option<SessionCommand<'a>>
    ensures { option_map command_as result ≡ spec.command_by word.now (spec.line_words line.now) }
{
    let kind = LineKind::of(word)?;
    command_of_kind(kind, line)
}

/// The command of a line by its words, whichever extensions the profile has.
#[tactic(auto, unfolding(crate::specs::SessionLine::command_in))]
pub(crate) fn command_in(line: &[u8]) -> Option<SessionCommand<'_>>
    ensures { option_map command_as result ≡ spec.command_in line.now }
{
    if !is_plain(line) {
        return None;
    }
    match next_word(line) {
        None => Some(SessionCommand::Nothing),
        Some((word, line)) => command_by(word, line),
    }
}

/// Whether a line has visible octets of ASCII and spaces alone.
fn is_plain(line: &[u8]) -> bool
    ensures { result ≡ list_all is_printable line.now }
{
    line.iter().all(|octet| is_printable(*octet))
}
