//! The operations of conditions (RFC 5228, 5).
ghost use Rattle.std.specs.Prelude.{◌≡◌, ◌∷◌, if◌then◌else◌, true, OnOk};
ghost use Rattle.sieve_script.specs.view.Script.{condition_as, conditions_as};
ghost use Rattle.sieve_code.specs.Choice.{condition_before, joined_before};
ghost use Rattle.sieve_code.specs.Operation.{jump_if_op, set_op};
ghost use Rattle.sieve_code.specs.view.Operation.{is_plain, plain_as};

use crate::operation::PackedOperation;
use crate::tail::Tail;
use sieve_script::Condition;
use std::alloc::AllocError;

/// The operation that sets the register to a truth.
fn constant(truth: bool) -> PackedOperation
    ensures op { plain_as result ≡ set_op truth }
    ensures plain { is_plain result ≡ true }
{
    if truth {
        PackedOperation::True
    } else {
        PackedOperation::False
    }
}

/// The operation that jumps if the register has this truth.
fn jump_if(truth: bool, target: u32) -> PackedOperation
    ensures op { plain_as result ≡ jump_if_op truth target }
    ensures plain { is_plain result ≡ true }
{
    if truth {
        PackedOperation::JumpIfTrue(target)
    } else {
        PackedOperation::JumpIfFalse(target)
    }
}

/// Puts a jump before a tail, if other conditions follow there.
fn put_joint(follows: bool, truth: bool, end: u32, tail: &mut Tail) -> Result<(), AllocError>
    ensures { OnOk result
        (tail.new ≡ (if follows then jump_if_op truth end ∷ tail.old else tail.old)) }
{
    if follows {
        tail.put(jump_if(truth, end))
    } else {
        Ok(())
    }
}

/// Puts a condition before a tail.
#[cycle(condition_code)]
pub(crate) fn put_condition(condition: Condition, tail: &mut Tail) -> Result<(), AllocError>
    ensures { OnOk result (tail.new ≡ condition_before (condition_as condition) tail.old) }
{
    match condition {
        Condition::Always => tail.put(PackedOperation::True),
        Condition::Never => tail.put(PackedOperation::False),
        Condition::Asks(ask) => tail.put_ask(ask),
        Condition::Not(inner) => {
            tail.put(PackedOperation::Not)?;
            put_condition(Box::into_inner(inner), tail)
        }
        Condition::All(list) => put_joined(false, list, tail),
        Condition::Any(list) => put_joined(true, list, tail),
    }
}

/// Puts joined conditions before a tail. After each but the last there is a jump past the last one.
/// It is taken if the condition has this truth. Without conditions the register is set to the other
/// truth.
#[cycle(condition_code)]
fn put_joined(truth: bool, list: Vec<Condition>, tail: &mut Tail) -> Result<(), AllocError>
    ensures { OnOk result
        (tail.new ≡ joined_before truth (conditions_as list.items) tail.old) }
{
    if list.is_empty() {
        return tail.put(constant(!truth));
    }
    let end = tail.target()?;
    let mut follows = false;
    for condition in list {
        put_joint(follows, truth, end, tail)?;
        put_condition(condition, tail)?;
        follows = true;
    }
    Ok(())
}
