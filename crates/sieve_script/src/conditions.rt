//! The conditions of tests (RFC 5228, section 5).
ghost use Rattle.std.specs.Prelude.{◌≡◌, Some, IfOk};
ghost use Rattle.sieve_script.specs.Script as spec;
ghost use Rattle.sieve_script.specs.Script.{Conditions, no_conditions, one_condition};
ghost use Rattle.sieve_script.specs.view.Reading.{test_reading_as};
ghost use Rattle.sieve_script.specs.view.Script.{condition_as, conditions_as, conditions_before};

use crate::reading::TestReading;
use crate::script::Condition;
use std::alloc::{AllocError, Global};

/// The first of some conditions; one that never holds where there are none.
pub fn first_condition(conditions: Vec<Condition>) -> Condition
    ensures { condition_as result
        ≡ spec.first_condition (conditions_before conditions.items no_conditions) }
{
    match conditions.into_iter().next() {
        Some(first) => first,
        None => Condition::Never,
    }
}

/// Conditions in order with one more at their end. An error means that memory ran out.
pub fn with_condition(
    conditions: Vec<Condition>,
    condition: Condition,
) -> Result<Vec<Condition>, AllocError>
    ensures { IfOk result (λ new. (others : Conditions) → conditions_before new.items others
        ≡ conditions_before conditions.items (one_condition (condition_as condition) others)) }
{
    let mut conditions = conditions;
    conditions.push(condition)?;
    Ok(conditions)
}

/// Conditions in order, turned around: the last stands first, as a condition keeps them.
fn from_end(conditions: Vec<Condition>) -> Vec<Condition>
    ensures { conditions_as result.items ≡ conditions_before conditions.items no_conditions }
{
    let mut conditions = conditions;
    conditions.reverse();
    conditions
}

/// The condition of a test, by its reading and the conditions of the tests in it, in order. An
/// error means that memory ran out; only a `not` takes any.
pub fn joined(
    alloc: Global,
    reading: TestReading,
    inner: Vec<Condition>,
) -> Result<Condition, AllocError>
    ensures { IfOk result (λ read. condition_as read ≡ spec.joined
        (Some (test_reading_as reading)) (conditions_before inner.items no_conditions)) }
{
    match reading {
        TestReading::Always => Ok(Condition::Always),
        TestReading::Never => Ok(Condition::Never),
        TestReading::Asks(ask) => Ok(Condition::Asks(ask)),
        TestReading::AllOf => Ok(Condition::All(from_end(inner))),
        TestReading::AnyOf => Ok(Condition::Any(from_end(inner))),
        TestReading::Not => {
            let first = Box::new(alloc, first_condition(inner))?;
            Ok(Condition::Not(first))
        }
    }
}
