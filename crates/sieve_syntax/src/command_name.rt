//! The names of commands in a tree.
ghost use Rattle.std.specs.Prelude.{◌≡◌, ◌≤◌, IfOk, IsOk, length};
ghost use Rattle.sieve_table.specs.Table.{command_named};

use octets::SmallOctets;
use sieve_table::{CommandKind, command_named};
use sieve_variables::Labelled;
use std::alloc::{AllocError, Global};
use std::marker::Model;

/// The identifier of a command as it is written, and the command that it names, if any. It is
/// looked up where the tree is made, and nowhere else. Contracts see the octets.
#[derive(Drop)]
pub struct CommandName {
    word: Labelled<Option<CommandKind>>,
}

impl Model for CommandName {
    ghost use Rattle.std.specs.Prelude.{◌≡◌, ℕ, List};
    ghost use Rattle.sieve_table.specs.Table.{command_named};

    ghost Value = { List ℕ };

    ghost view = { λ n. n.word.octets };

    ghost invariant = { λ n. n.word.label ≡ command_named n.word.octets };
}

impl CommandName {
    /// The name with these octets. More than twelve take memory, but no command's name is so long.
    /// An error is out of memory.
    pub(crate) fn new(alloc: Global, octets: SmallOctets) -> Result<CommandName, AllocError>
        ensures ok { IfOk result (λ name. name ≡ octets.items) }
        ensures few { length octets.items ≤ 12 → IsOk result }
    {
        let kind = command_named(&octets);
        Ok(CommandName {
            word: Labelled::kept(alloc, kind, octets)?,
        })
    }

    /// The octets of the identifier as it is written. Case doesn't matter to Sieve (RFC 5228, 2.1).
    pub fn as_slice(&self) -> &[u8]
        ensures { result.now ≡ self.now }
    {
        self.word.octets()
    }

    /// The command that is named, or `None` if there is none of that name.
    pub fn kind(&self) -> Option<CommandKind>
        ensures { result ≡ command_named self.now }
    {
        self.word.label()
    }
}
