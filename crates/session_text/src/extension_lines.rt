//! The lines of a session that need an extension of the profile.
ghost use Rattle.std.specs.Prelude.{◌≡◌};
ghost use Rattle.std.specs.Option.{option_map};
ghost use Rattle.session_text.specs.SessionLine as spec;
ghost use Rattle.session_text.specs.view.Command.{command_as};

use crate::cutting::next_word;
use crate::session_line::{SessionCommand, is_over, last_value};
use crate::word::SessionWord;
use date_text::{Clock, clock_named};

/// The command of `message-envelope ID FROM TO`, after its first word.
pub(crate) fn message_envelope_command(line: &[u8]) -> Option<SessionCommand<'_>>
    ensures { option_map command_as result
        ≡ spec.message_envelope_command (spec.line_words line.now) }
{
    let (id, line) = next_word(line)?;
    let (from, line) = next_word(line)?;
    let id = SessionWord::new(id)?;
    let from = SessionWord::new(from)?;
    let to = last_value(line)?;
    Some(SessionCommand::MessageEnvelope { id, from, to })
}

/// A clock that is the last two words.
pub(crate) fn last_clock(line: &[u8]) -> Option<Clock>
    ensures { result ≡ spec.last_clock (spec.line_words line.now) }
{
    let (seconds, line) = next_word(line)?;
    let (zone, line) = next_word(line)?;
    if is_over(line) {
        clock_named(seconds, zone)
    } else {
        None
    }
}
