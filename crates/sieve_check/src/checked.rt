//! Checked scripts.
ghost use Rattle.std.specs.Prelude.{◌≡◌};
ghost use Rattle.sieve_check.specs.Faultless.{IsFaultless};
ghost use Rattle.sieve_script.specs.view.Script.{commands_as};

use sieve_script::Statement;

/// A script that breaks no rule: its abstract script. Only the validator makes one.
#[derive(Drop)]
pub struct Checked {
    pub(crate) statements: Vec<Statement>,
    pub ghost faultless: { ∥ IsFaultless (commands_as statements.items) ∥₁ },
}

impl Checked {
    ghost use Rattle.sieve_check.specs.view.Checked.{commands_of};

    /// The script's commands, the last first, with each string cut into parts.
    pub fn statements(&self) -> &[Statement]
        ensures { commands_as result.now ≡ commands_of self.now }
    {
        self.statements.as_slice()
    }

    /// The script's commands, the last first, by value.
    pub fn into_statements(self) -> Vec<Statement>
        ensures { commands_as result.items ≡ commands_of self }
    {
        let Checked { statements, .. } = self;
        statements
    }
}
