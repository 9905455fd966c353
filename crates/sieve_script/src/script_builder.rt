//! The abstract script of commands that are read one after another (RFC 5228, sections 3 and 4).
ghost use Rattle.std.specs.Prelude.{◌≡◌, Some, IfOk};
ghost use Rattle.sieve_script.specs.Script.{Branches, Commands, Chain, chain_with_command, chooses, no_branches, no_commands, test_branch};
ghost use Rattle.sieve_script.specs.view.Reading.{command_reading_as};
ghost use Rattle.sieve_script.specs.view.Script.{branches_before, commands_as, condition_as, else_as, script_before, statement_as, statements_before};

use crate::reading::CommandReading;
use crate::script::{Branch, Statement};
use std::alloc::{AllocError, Global};

/// Commands that are read one after another, in order.
#[derive(Drop)]
pub struct ScriptBuilder {
    /// The statements that are finished, in order.
    done: Vec<Statement>,
    /// The branches of an open `if` after them, in order. The next command may add one.
    open: Option<Vec<Branch>>,
}

/// The statement of an `if`, by its branches in order and its `else`. It keeps
/// the last branch first.
fn from_end(branches: Vec<Branch>, otherwise: Option<Vec<Statement>>) -> Statement
    ensures { (rest : Commands) → statement_as result rest
        ≡ chooses (branches_before branches.items (else_as otherwise)) rest }
{
    let mut branches = branches;
    branches.reverse();
    Statement::Choose {
        branches,
        otherwise,
    }
}

/// Statements with one more at their end.
fn pushed(statements: Vec<Statement>, statement: Statement) -> Result<Vec<Statement>, AllocError>
    ensures { IfOk result (λ new. (rest : Commands) → statements_before new.items rest
        ≡ statements_before statements.items (statement_as statement rest)) }
{
    let mut statements = statements;
    statements.push(statement)?;
    Ok(statements)
}

/// Branches with one more at their end.
fn with_branch(branches: Vec<Branch>, branch: Branch) -> Result<Vec<Branch>, AllocError>
    ensures { IfOk result (λ new. (others : Branches) → branches_before new.items others
        ≡ branches_before branches.items (test_branch (condition_as branch.condition)
        (commands_as branch.block.items) others)) }
{
    let mut branches = branches;
    branches.push(branch)?;
    Ok(branches)
}

impl ScriptBuilder {
    /// No commands, with room for `count` statements. An error means that memory ran out.
    pub fn with_capacity(alloc: Global, count: usize) -> Result<ScriptBuilder, AllocError>
        ensures { IfOk result (λ new. (chain : Chain) → script_before new chain ≡ chain.rest) }
    {
        let done = Vec::with_capacity(alloc, count)?;
        Ok(ScriptBuilder { done, open: None })
    }

    /// The statements in order. Where an `if` is open, it is closed, with this block as its `else`
    /// if there is one.
    fn closed(self, otherwise: Option<Vec<Statement>>) -> Result<Vec<Statement>, AllocError>
        ensures { IfOk result (λ done. (rest : Commands) → statements_before done.items rest
            ≡ script_before self (record { otherwise = else_as otherwise; rest = rest })) }
    {
        let ScriptBuilder { done, open } = self;
        match open {
            None => Ok(done),
            Some(branches) => pushed(done, from_end(branches, otherwise)),
        }
    }

    /// The same commands where an open `if` is closed, with this block as its `else`
    /// if there is one.
    fn ended(self, otherwise: Option<Vec<Statement>>) -> Result<ScriptBuilder, AllocError>
        ensures { IfOk result (λ new. (chain : Chain) → script_before new chain
            ≡ script_before self (record { otherwise = else_as otherwise; rest = chain.rest })) }
    {
        let done = self.closed(otherwise)?;
        Ok(ScriptBuilder { done, open: None })
    }

    /// Closes an open `if`, and adds a statement.
    fn put(self, statement: Statement) -> Result<ScriptBuilder, AllocError>
        ensures { IfOk result (λ new. (chain : Chain) → script_before new chain
            ≡ script_before self
            (record { otherwise = no_branches; rest = statement_as statement chain.rest })) }
    {
        let done = self.closed(None)?;
        let done = pushed(done, statement)?;
        Ok(ScriptBuilder { done, open: None })
    }

    /// Closes an open `if`, and opens another with this branch.
    fn begun(self, alloc: Global, branch: Branch) -> Result<ScriptBuilder, AllocError>
        ensures { IfOk result (λ new. (chain : Chain) → script_before new chain
            ≡ script_before self (record {
              otherwise = no_branches;
              rest =
                  chooses (test_branch (condition_as branch.condition)
                  (commands_as branch.block.items) chain.otherwise) chain.rest;
            })) }
    {
        let done = self.closed(None)?;
        // Most have no other branch.
        let branches = with_branch(Vec::with_capacity(alloc, 1)?, branch)?;
        Ok(ScriptBuilder {
            done,
            open: Some(branches),
        })
    }

    /// Adds a branch with a test to an open `if`. Where none is open the branch vanishes, which is
    /// so in no script without a breach.
    fn gone_on(self, branch: Branch) -> Result<ScriptBuilder, AllocError>
        ensures { IfOk result (λ new. (chain : Chain) → script_before new chain
            ≡ script_before self (record {
              otherwise =
                  test_branch (condition_as branch.condition)
                  (commands_as branch.block.items) chain.otherwise;
              rest = chain.rest;
            })) }
    {
        let ScriptBuilder { done, open } = self;
        match open {
            None => Ok(ScriptBuilder { done, open: None }),
            Some(branches) => {
                let branches = with_branch(branches, branch)?;
                Ok(ScriptBuilder {
                    done,
                    open: Some(branches),
                })
            }
        }
    }

    /// Adds a command, by its reading, its line, and a branch of its condition and its block. An
    /// error means that memory ran out.
    pub fn with_command(
        self,
        alloc: Global,
        reading: CommandReading,
        line: u32,
        branch: Branch,
    ) -> Result<ScriptBuilder, AllocError>
        ensures { IfOk result (λ new. (chain : Chain) → script_before new chain
            ≡ script_before self (chain_with_command (Some (command_reading_as reading)) line
            (condition_as branch.condition) (commands_as branch.block.items) chain)) }
    {
        match reading {
            CommandReading::If => self.begun(alloc, branch),
            CommandReading::Elsif => self.gone_on(branch),
            CommandReading::Else => self.ended(Some(branch.block)),
            CommandReading::Act(leaf) => self.put(Statement::Act { leaf, line }),
            CommandReading::Stop => self.put(Statement::Stop),
            CommandReading::Return => self.put(Statement::Return),
            CommandReading::Nothing => self.ended(None),
        }
    }

    /// The abstract script of these commands, the last first. An error means that memory ran out.
    pub fn finished(self) -> Result<Vec<Statement>, AllocError>
        ensures { IfOk result (λ statements. commands_as statements.items ≡ script_before self
            (record { otherwise = no_branches; rest = no_commands })) }
    {
        let mut statements = self.closed(None)?;
        statements.reverse();
        Ok(statements)
    }
}
