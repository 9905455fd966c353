//! Whether a text says what becomes of a message. The text is read from its front, and none of it
//! is copied.
ghost use Rattle.std.specs.Prelude.{◌≡◌, ℕ, List, ◌∷◌, ◌++◌, [], map, nat_eq};
ghost use lib.Pointwise.{pointwise};
ghost use Rattle.std.specs.Option.{option_copied};
ghost use Rattle.devices.specs.Writers.{Writes};
ghost use Rattle.sieve_delivery.specs.State.{actions_in};
ghost use Rattle.sieve_delivery.specs.view.Actions.{entries_as};
ghost use Rattle.sieve_verdict.specs.Lines as spec;
ghost use Rattle.sieve_verdict.specs.view.Left.{left_says};
ghost use Rattle.sieve_verdict.specs.view.Wanted.{wanted_line};

use crate::comparing::Comparing;
use crate::lines::{write_action, write_error, write_implicit};
use devices::{Sink, WriteFault};
use flag_lists::FlagList;
use message_text::next_line;
use sieve_delivery::{Action, Entry, RunError};

/// A line that a text is to have.
#[derive(Clone, Copy)]
enum WantedLine<'a> {
    /// That of an action.
    Action(&'a Action),
    /// That of the implicit keep, by its mailbox and its flags.
    Implicit(&'a [u8], &'a FlagList),
    /// That of an error.
    Error(&'a RunError),
}

/// Writes the wanted line.
fn write_wanted<W: Sink>(wanted: &WantedLine<'_>, writer: &mut W) -> Result<(), WriteFault>
    ensures { Writes W.contents W.fault_count result writer.old writer.new
        (wanted_line wanted.now) }
{
    match wanted {
        WantedLine::Action(action) => write_action(action, writer),
        WantedLine::Implicit(mailbox, flags) => write_implicit(mailbox, flags, writer),
        WantedLine::Error(error) => write_error(error, writer),
    }
}

/// Whether a line is the wanted one.
fn is_wanted(line: &[u8], wanted: &WantedLine<'_>) -> bool
    ensures { result ≡ pointwise nat_eq line.now (wanted_line wanted.now) }
{
    let mut written = Comparing::new(line);
    // If the write fails, the line is another one. The device knows that too.
    let _ = write_wanted(wanted, &mut written);
    written.is_whole()
}

/// The text after its first line if that line is the wanted one, or none.
#[tactic(auto, using(crate::proofs::Left::saying))]
fn after_line<'a>(text: &'a [u8], wanted: &WantedLine<'_>) -> Option<&'a [u8]>
    ensures { (others : List (List ℕ)) → left_says (option_copied result) others
        ≡ spec.says text.now (wanted_line wanted.now ∷ others) }
{
    let (line, left) = next_line(text)?;
    if is_wanted(line, wanted) {
        Some(left)
    } else {
        None
    }
}

/// The text after the lines of the actions if it begins with these lines, or none.
#[tactic(auto, using(crate::proofs::Left::saying))]
fn after_actions<'a>(text: &'a [u8], entries: &[Entry]) -> Option<&'a [u8]>
    ensures { (wanted : List (List ℕ)) → left_says (option_copied result) wanted ≡ spec.says
        text.now (map spec.action_line (actions_in (entries_as entries.now)) ++ wanted) }
{
    let mut left = text;
    for entry in entries {
        left = after_line(left, &WantedLine::Action(&entry.action))?;
    }
    Some(left)
}

/// The text after the line of the implicit keep if it begins with that line, or none. Without an
/// implicit keep it is the whole text.
fn after_kept<'a>(text: &'a [u8], mailbox: &[u8], kept: Option<&FlagList>) -> Option<&'a [u8]>
    ensures { (wanted : List (List ℕ)) → left_says (option_copied result) wanted ≡ spec.says
        text.now (spec.implicit_lines mailbox.now (option_copied kept.entry) ++ wanted) }
{
    match kept {
        Some(flags) => after_line(text, &WantedLine::Implicit(mailbox, flags)),
        None => Some(text),
    }
}

/// The text after the line of the error if it begins with that line, or none. Without an error it
/// is the whole text.
fn after_failed<'a>(text: &'a [u8], failed: Option<&RunError>) -> Option<&'a [u8]>
    ensures { (wanted : List (List ℕ)) → left_says (option_copied result) wanted
        ≡ spec.says text.now (spec.error_lines (option_copied failed.entry) ++ wanted) }
{
    match failed {
        Some(error) => after_line(text, &WantedLine::Error(error)),
        None => Some(text),
    }
}

/// Whether a text has no line.
fn is_over(text: &[u8]) -> bool
    ensures { result ≡ spec.says text.now [] }
{
    next_line(text).is_none()
}

/// Whether a text has the lines of a verdict and no others.
#[tactic(auto, using(crate::proofs::Left::saying))]
pub(crate) fn says(
    text: &[u8],
    mailbox: &[u8],
    entries: &[Entry],
    kept: Option<&FlagList>,
    failed: Option<&RunError>,
) -> bool
    ensures { result ≡ spec.says text.now (map spec.action_line (actions_in (entries_as
        entries.now)) ++ (spec.implicit_lines mailbox.now (option_copied kept.entry)
        ++ spec.error_lines (option_copied failed.entry))) }
{
    let Some(left) = after_actions(text, entries) else {
        return false;
    };
    let Some(left) = after_kept(left, mailbox, kept) else {
        return false;
    };
    match after_failed(left, failed) {
        Some(left) => is_over(left),
        None => false,
    }
}
