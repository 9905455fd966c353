//! The values of a command line.
ghost use Rattle.std.specs.Prelude.{◌≡◌, IfOk};

use std::alloc::{AllocError, Global};
use std::fmt;
use std::marker::Model;

/// A value that the command line gives. Contracts see its octets.
#[derive(Debug, Drop)]
pub struct CommandWord {
    text: String,
}

impl Model for CommandWord {
    ghost use Rattle.std.specs.Prelude.{ℕ, List, string_bytes};

    ghost Value = { List ℕ };

    ghost view = { λ a. string_bytes a.text };
}

impl CommandWord {
    /// A copy of a text. An error is out of memory.
    pub fn copied(alloc: Global, text: &str) -> Result<CommandWord, AllocError>
        ensures { IfOk result (λ argument. argument ≡ text.now) }
    {
        Ok(CommandWord {
            text: String::from_str(alloc, text)?,
        })
    }

    /// The value as text.
    pub fn as_str(&self) -> &str
        ensures { result.now ≡ self.now }
    {
        self.text.as_str()
    }
}

impl fmt::Display for CommandWord {
    fn fmt<W: fmt::Write>(&self, f: &mut fmt::Formatter<W>) -> fmt::Result {
        f.write_str(self.as_str())
    }
}
