//! Actions (RFC 5228, 2.10).
ghost use Rattle.std.specs.Prelude.{◌≡◌};
ghost use Rattle.sieve_delivery.specs.Joining.{same_action};

use crate::response::Response;
use flag_lists::FlagList;
use octets::Octets;
use script_names::ScriptName;
use sieve_script::Rejection;

/// An action on a message (RFC 5228, 2.10).
#[derive(Drop)]
pub enum Action {
    /// The message is stored into a mailbox (RFC 5228, 4.1 and 4.3), with flags (RFC 5232, 5).
    Store {
        mailbox: Octets,
        flags: FlagList,
        filing: Filing,
    },
    /// The message is sent on to an address (RFC 5228, 4.2).
    Redirect {
        address: Octets,
    },
    /// The message is discarded (RFC 5228, 4.4).
    Discard,
    /// The sender is answered (RFC 5230).
    Respond {
        response: Response,
    },
    /// The message is rejected (RFC 5429).
    Reject {
        how: Rejection,
        reason: Octets,
    },
}

/// The filing that a store asks for: its settings beside its mailbox and its flags.
#[derive(Drop)]
pub struct Filing {
    /// Whether the mailbox is made if it isn't there (RFC 5490, 3.2).
    pub create: bool,
    /// The use of the mailbox to store into, if there is one of that use (RFC 8579, 4).
    pub special_use: Option<Octets>,
}

/// The command that entered an action.
#[derive(Drop)]
pub struct Origin {
    /// The script that the command is in.
    pub script: ScriptName,
    /// The line on which it begins, from 1 on.
    pub line: u64,
}

/// An action of a run, with its command.
#[derive(Drop)]
pub struct Entry {
    /// The action.
    pub action: Action,
    /// The command that entered it first.
    pub origin: Origin,
    /// The number of internal flags, from the first on, that are known to be among the action's
    /// own. A store that is joined again takes only the flags after them.
    pub(crate) known: usize,
}

/// An action that a command performs, and its effect on the implicit keep.
#[derive(Drop)]
pub struct Deed {
    pub action: Action,
    /// Whether the action leaves the implicit keep as it is (RFC 3894, 3; RFC 5230, 4.7).
    pub leaves_keep: bool,
}

/// Whether two actions count as one.
pub(crate) fn same_action(action: &Action, other: &Action) -> bool
    ensures { result ≡ same_action action.now other.now }
{
    match (action, other) {
        (Action::Store { mailbox: a, .. }, Action::Store { mailbox: b, .. }) => {
            a.as_slice() == b.as_slice()
        }
        (Action::Redirect { address: a }, Action::Redirect { address: b }) => {
            a.as_slice() == b.as_slice()
        }
        (Action::Discard, Action::Discard) => true,
        (Action::Respond { .. }, Action::Respond { .. }) => true,
        (Action::Reject { .. }, Action::Reject { .. }) => true,
        _ => false,
    }
}
