//! The verdict on a message.
ghost use Rattle.std.specs.Prelude.{◌≡◌, ◌<◌, ◌≤◌, ◌↔◌, IsTrue, length};
ghost use Rattle.sieve_limits.specs.Limits.{action_limit};
ghost use Rattle.std.specs.Option.{option_copied};
ghost use Rattle.std.specs.Str.Lines.{lines};
ghost use Rattle.sieve_delivery.specs.view.Actions.{entries_as};
ghost use Rattle.sieve_verdict.specs.Lines.{agrees, verdict_lines};

use crate::agreement::says;
use flag_lists::FlagList;
use indexmap::IndexMap;
use script_names::ScriptName;
use sieve_delivery::{Entry, RunError};
use std::marker::Model;

/// The verdict on a message, and the names of the scripts that it looked up.
#[derive(Drop)]
pub struct Verdict {
    entries: Vec<Entry>,
    implicit: Option<FlagList>,
    error: Option<RunError>,
    lookups: IndexMap<ScriptName, bool>,
}

impl Model for Verdict {
    ghost use Rattle.std.specs.Prelude.{◌≤◌, length};
    ghost use Rattle.sieve_delivery.specs.view.Actions.{entries_as};
    ghost use Rattle.sieve_limits.specs.Limits.{action_limit};
    ghost use Rattle.sieve_verdict.specs.Verdict.{Verdict};

    ghost Value = { Verdict };

    ghost view = { λ a. record { entries = entries_as a.entries.items; implicit = a.implicit; error = a.error; lookups = a.lookups.entries } };

    ghost invariant = { λ a. length a.entries.items ≤ action_limit };
}

impl Verdict {
    /// The verdict that has these actions, this implicit keep, this error and these lookups.
    pub fn new(
        entries: Vec<Entry>,
        implicit: Option<FlagList>,
        error: Option<RunError>,
        lookups: IndexMap<ScriptName, bool>,
    ) -> Verdict
        requires { length entries.items ≤ action_limit }
        ensures { result ≡ record {
          entries = entries_as entries.items;
          implicit = implicit;
          error = error;
          lookups = lookups.entries;
        } }
    {
        Verdict {
            entries,
            implicit,
            error,
            lookups,
        }
    }

    /// The actions in order, 32 at most (RFC 5228, 2.10.4), each with the command that entered it
    /// first.
    pub fn entries(&self) -> &[Entry]
        ensures entries { entries_as result.now ≡ self.now.entries }
        ensures limit { length result.now ≤ action_limit }
    {
        self.entries.as_slice()
    }

    /// The flags of the implicit keep (RFC 5228, 2.10.2; RFC 5232, 5), or none if there is no
    /// implicit keep.
    pub fn implicit(&self) -> Option<&FlagList>
        ensures { option_copied result ≡ self.now.implicit }
    {
        self.implicit.as_ref()
    }

    /// The error that ended the run, if there was one.
    pub fn error(&self) -> Option<&RunError>
        ensures { option_copied result ≡ self.now.error }
    {
        self.error.as_ref()
    }

    /// The names that were looked up, in the order of their first lookups, and whether each was
    /// there.
    pub fn lookups(&self) -> &IndexMap<ScriptName, bool>
        ensures { result.now.entries ≡ self.now.lookups }
    {
        &self.lookups
    }

    /// Whether a text says what becomes of the message if `keep` stores into `mailbox`. It does if
    /// it isn't empty and its lines are those of the verdict. The text has neither the spaces
    /// before these lines in a report nor the names that were looked up. A line of the text ends at
    /// an LF. A CR directly before the LF is no part of the line. The end of the text ends its last
    /// line. The time is linear in the text and in the first line of the verdict that the text
    /// doesn't have.
    pub fn agrees(&self, mailbox: &[u8], text: &[u8]) -> bool
        ensures value { result ≡ agrees mailbox.now self.now text.now }
        ensures lines { IsTrue result
            ↔ ((0 < length text.now) × (lines text.now ≡ verdict_lines mailbox.now self.now)) }
    {
        let has_lines = says(text, mailbox, self.entries(), self.implicit(), self.error());
        !text.is_empty() && has_lines
    }
}
