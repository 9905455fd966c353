//! The state of a run (RFC 5228, 2.10; RFC 5229; RFC 5232, 2; RFC 6609).

use crate::actions::Actions;
use indexmap::IndexMap;
use script_names::ScriptName;
use sieve_variables::Values;

/// The state of a run. It is of no further use after a call that may change it fails.
#[derive(Drop)]
pub struct RunState {
    /// The actions in order (RFC 5228, 2.10), each with the command that entered it first. Also the
    /// internal flags (RFC 5232, 2).
    pub actions: Actions,
    /// Whether an action took the place of the implicit keep (RFC 5228, 2.10.2).
    pub cancelled: bool,
    /// The names looked up so far, and whether each was there.
    pub lookups: IndexMap<ScriptName, bool>,
    /// The scripts that were entered, in order, the main script first (RFC 6609, 3.2).
    pub entered: Vec<ScriptName>,
    /// The variables of the script that runs (RFC 5229, 3), and those that scripts share (RFC 6609,
    /// 3.4).
    pub values: Values,
}
