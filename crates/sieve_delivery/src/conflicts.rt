//! Conflicts between actions (RFC 5429, 2.4; RFC 5230, 4.7).
ghost use Rattle.std.specs.Prelude.{◌≡◌};
ghost use Rattle.std.specs.List.{list_any};
ghost use Rattle.sieve_delivery.specs.Conflicts.{conflict_among, conflict_of, goes_with_rejections, is_rejection, is_response};
ghost use Rattle.sieve_delivery.specs.State.{actions_in};
ghost use Rattle.sieve_delivery.specs.view.Actions.{entries_as};

use crate::action::{Action, Entry};
use crate::error::ErrorKind;

/// Whether an action answers the sender.
fn is_response(action: &Action) -> bool
    ensures { result ≡ is_response action.now }
{
    matches!(action, Action::Respond { .. })
}

/// Whether an action rejects the message.
fn is_rejection(action: &Action) -> bool
    ensures { result ≡ is_rejection action.now }
{
    matches!(action, Action::Reject { .. })
}

/// Whether an action goes with one that rejects the message (RFC 5429, 2.4).
fn goes_with_rejections(action: &Action) -> bool
    ensures { result ≡ goes_with_rejections action.now }
{
    matches!(action, Action::Discard)
}

/// The error of two actions that conflict, or none.
fn conflict_of(performed: &Action, there: &Action) -> Option<ErrorKind>
    ensures { result ≡ conflict_of performed.now there.now }
{
    if is_response(performed) && is_response(there) {
        return Some(ErrorKind::SecondVacation);
    }
    if is_rejection(performed) && !goes_with_rejections(there)
        || is_rejection(there) && !goes_with_rejections(performed)
    {
        return Some(ErrorKind::ConflictingActions);
    }
    None
}

/// The error of an action that is performed where others are there. It is that of the first that
/// conflicts with it.
pub(crate) fn conflict_among(performed: &Action, entries: &[Entry]) -> Option<ErrorKind>
    ensures { result
        ≡ conflict_among performed.now (actions_in (entries_as entries.now)) }
{
    for there in entries {
        if let Some(kind) = conflict_of(performed, &there.action) {
            return Some(kind);
        }
    }
    None
}

/// Whether one of some actions rejects the message.
pub(crate) fn has_rejection(entries: &[Entry]) -> bool
    ensures { result ≡ list_any is_rejection (actions_in (entries_as entries.now)) }
{
    for entry in entries {
        if is_rejection(&entry.action) {
            return true;
        }
    }
    false
}
