//! The operations of commands (RFC 5228, 3 and 4).
ghost use Rattle.std.specs.Prelude.{◌≡◌, ◌∷◌, if◌then◌else◌, List, length, OnOk};
ghost use Rattle.sieve_script.specs.Script.{Branches, no_commands};
ghost use Rattle.sieve_script.specs.view.Script.{branches_as, commands_as, condition_as, statement_as};
ghost use Rattle.sieve_code.specs.Choice.{branches_before, commands_before};
ghost use Rattle.sieve_code.specs.Operation.{Operation, jump_op};
ghost use Rattle.sieve_code.specs.view.Branches.{branch_before, has_branch};

use crate::condition_code::put_condition;
use crate::operation::PackedOperation;
use crate::tail::Tail;
use sieve_script::{Branch, Statement};
use std::alloc::AllocError;

/// Puts a jump past the branches before a tail, if a branch follows there. `after` is the number of
/// operations after the branches.
fn put_past(follows: bool, after: u32, tail: &mut Tail) -> Result<(), AllocError>
    ensures { OnOk result (tail.new ≡ (if follows then jump_op after ∷ tail.old else tail.old)) }
{
    if follows {
        tail.put(PackedOperation::Jump(after))
    } else {
        Ok(())
    }
}

/// Puts commands before a tail.
#[cycle(command_code)]
pub(crate) fn put_commands(commands: Vec<Statement>, tail: &mut Tail) -> Result<(), AllocError>
    ensures { OnOk result (tail.new ≡ commands_before (commands_as commands.items) tail.old) }
{
    for statement in commands {
        put_command(statement, tail)?;
    }
    Ok(())
}

/// Puts a command before a tail.
#[cycle(command_code)]
fn put_command(statement: Statement, tail: &mut Tail) -> Result<(), AllocError>
    ensures { OnOk result
        (tail.new ≡ commands_before (statement_as statement no_commands) tail.old) }
{
    match statement {
        Statement::Stop => tail.put(PackedOperation::Stop),
        Statement::Return => tail.put(PackedOperation::Return),
        Statement::Act { leaf, line } => tail.put_act(leaf, line),
        Statement::Choose {
            branches,
            otherwise,
        } => {
            let after = tail.target()?;
            match otherwise {
                Some(commands) => {
                    put_commands(commands, tail)?;
                    put_branches(branches, true, after, tail)
                }
                None => put_branches(branches, false, after, tail),
            }
        }
    }
}

/// Puts branches with tests before a tail. `otherwise` says whether an `else` is there, and `after`
/// is the number of operations after the branches.
#[cycle(command_code)]
fn put_branches(
    branches: Vec<Branch>,
    otherwise: bool,
    after: u32,
    tail: &mut Tail,
) -> Result<(), AllocError>
    ensures { (others : Branches) (rest : List Operation) → otherwise ≡ has_branch others
        → after ≡ length rest → tail.old ≡ branches_before others rest → OnOk result
        (tail.new ≡ branches_before (branches_as branches.items others) rest) }
{
    let mut follows = otherwise;
    for branch in branches {
        put_branch(branch, follows, after, tail)?;
        follows = true;
    }
    Ok(())
}

/// Puts a branch with a test before a tail. `follows` says whether another branch follows, and
/// `after` is the number of operations after the branches.
#[cycle(command_code)]
fn put_branch(branch: Branch, follows: bool, after: u32, tail: &mut Tail) -> Result<(), AllocError>
    ensures { OnOk result (tail.new ≡ branch_before (condition_as branch.condition)
        (commands_as branch.block.items) follows after tail.old) }
{
    let Branch { condition, block } = branch;
    let next = tail.target()?;
    put_past(follows, after, tail)?;
    put_commands(block, tail)?;
    tail.put(PackedOperation::JumpIfFalse(next))?;
    put_condition(condition, tail)
}
