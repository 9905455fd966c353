//! The script of a text.
use crate::tree::Command;

/// A whole script of a text: its commands in the order of the text. Only the parser makes one.
#[derive(Drop)]
pub struct ParsedScript {
    pub(crate) commands: Vec<Command>,
}

impl ParsedScript {
    ghost use Rattle.std.specs.Prelude.{◌≡◌};

    /// The commands, in the order of the text.
    pub fn commands(&self) -> &[Command]
        ensures { result.now ≡ self.now.commands.items }
    {
        self.commands.as_slice()
    }

    /// The commands, in the order of the text. They are moved out of the script.
    pub fn into_commands(self) -> Vec<Command>
        ensures { result.items ≡ self.commands.items }
    {
        self.commands
    }
}
