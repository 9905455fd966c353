//! The known lines of a session under a profile.
ghost use Rattle.std.specs.Prelude.{◌≡◌};
ghost use Rattle.std.specs.Option.{option_map};
ghost use Rattle.sieve_profile.specs.view.Profile.{profile_as};
ghost use Rattle.session_text.specs.SessionLine as spec;
ghost use Rattle.session_text.specs.view.Command.{command_as};

use crate::session_line::{SessionCommand, command_in};
use sieve_profile::{Extension, Profile};

/// The extension that a command needs. Without one the command is always known.
fn extension_of(command: &SessionCommand<'_>) -> Option<Extension>
    ensures { result ≡ spec.extension_of (command_as command.now) }
{
    match command {
        SessionCommand::Mailboxes { .. } => Some(Extension::Mailbox),
        SessionCommand::MessageEnvelope { .. } | SessionCommand::NoMessageEnvelope { .. } => Some(
            Extension::Envelopes,
        ),
        SessionCommand::Clock { .. } | SessionCommand::NoClock => Some(Extension::Date),
        _ => None,
    }
}

/// Whether a command is known under a profile.
fn is_there(profile: Profile, command: &SessionCommand<'_>) -> bool
    ensures { result ≡ spec.is_there (profile_as profile) (command_as command.now) }
{
    match extension_of(command) {
        Some(name) => profile.has(name),
        None => true,
    }
}

/// The command of a line, without its LF and the CR before it. `None` where the line has:
///
/// - an octet that is neither a visible one of ASCII nor a space.
/// - a first word that is unknown or needs an extension that the profile lacks.
/// - a word that is ill quoted, too few words or too many.
/// - a place that is neither `personal` nor `global`.
/// - a count that isn't one to nine digits.
/// - a clock that isn't bare digits up to 253402300799 and a bare zone.
#[tactic(auto, unfolding(crate::specs::SessionLine::command_of_line))]
pub fn command_of_line(profile: Profile, line: &[u8]) -> Option<SessionCommand<'_>>
    ensures { option_map command_as result ≡ spec.command_of_line (profile_as profile) line.now }
{
    let command = command_in(line)?;
    if is_there(profile, &command) {
        Some(command)
    } else {
        None
    }
}
