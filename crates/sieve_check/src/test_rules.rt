//! The breaches in tests, and the readings of tests without a breach.
ghost use Rattle.std.specs.Prelude.{◌≡◌, Some, map, IfOk};
ghost use Rattle.sieve_syntax.specs.Tree.{tests};
ghost use Rattle.sieve_syntax.specs.view.Tree as seen;
ghost use Rattle.sieve_syntax.specs.declared.tree.Test.{out-Test};
ghost use Rattle.sieve_check.specs.Element.{test_elements, test_list_elements, tests_elements};
ghost use Rattle.sieve_check.specs.Script.{condition_of, conditions, conditions_in, test_kind_reading};
ghost use Rattle.sieve_check.specs.view.Context.{context_as};
ghost use Rattle.sieve_check.specs.view.Finds.{FindsIn};
ghost use Rattle.sieve_check.specs.view.Head.{test_head};
ghost use Rattle.sieve_script.specs.Script.{no_conditions};
ghost use Rattle.sieve_script.specs.Shape.{known_labels};
ghost use Rattle.sieve_script.specs.view.Reading.{test_reading_as};
ghost use Rattle.sieve_script.specs.view.Script.{condition_as, conditions_before};
ghost use Rattle.sieve_profile.specs.view.Profile.{profile_as};
ghost use Rattle.sieve_table.specs.Known as spec;
ghost use Rattle.sieve_table.specs.Table.{test_row};

use crate::arguments::{Use, check_use};
use crate::context::Context;
use crate::cutting::say_and_cut;
use crate::validator::CheckFault;
use sieve_profile::Profile;
use sieve_script::{Condition, Label, TestReading, joined, read_test, with_condition};
use sieve_syntax::{Argument, Test, Tests};
use sieve_table::{Rule, TestKind, known_test};
use std::alloc::{AllocError, Global};

/// The kind of a test, where it is known.
fn kind_of(profile: Profile, test: &Test) -> Option<TestKind>
    ensures { result ≡ spec.known_test (profile_as profile) (out-Test test.now).name }
{
    known_test(profile, test.name.kind())
}

/// The kind of a test, and the labels of its arguments.
#[derive(Drop)]
struct TestHead {
    kind: TestKind,
    labels: Vec<Label>,
}

/// Checks a test, but not the tests in it. One of an unknown name breaks `UnknownCommand`.
fn check_test_head(alloc: Global, context: Context<'_>, test: &Test) -> Result<TestHead, CheckFault>
    ensures found { FindsIn (test_head (context_as context.entry) test.now) result }
    ensures kind { IfOk result (λ head. spec.known_test (context_as context.entry).profile
        (out-Test test.now).name ≡ Some head.kind) }
    ensures labels { IfOk result
        (λ head. head.labels.items ≡ known_labels (context_as context.entry).profile
        (test_row head.kind) (map seen.argument_of (out-Test test.now).args.items)) }
{
    let line = test.line as u64;
    match kind_of(context.spot.profile, test) {
        None => Err(CheckFault::Breach {
            line,
            rule: Rule::UnknownCommand,
        }),
        Some(kind) => {
            let row = kind.row();
            let used = Use {
                line,
                row: &row,
                args: &test.args,
                tests: &test.tests,
                ends_by_block: false,
                stands_alone: false,
            };
            let labels = check_use(alloc, context, used)?;
            Ok(TestHead { kind, labels })
        }
    }
}

/// Reads a test of a kind, with its strings cut by the octets that they say.
fn cut_and_read(
    alloc: Global,
    context: Context<'_>,
    head: TestHead,
    args: Vec<Argument>,
) -> Result<TestReading, AllocError>
    requires { head.labels.items ≡ known_labels (context_as context).profile
        (test_row head.kind) (map seen.argument_of args.items) }
    ensures { IfOk result (λ reading. test_reading_as reading ≡ test_kind_reading
        (context_as context.entry) head.kind (map seen.argument_of args.items)) }
{
    let TestHead { kind, labels } = head;
    let cut = say_and_cut(alloc, context, &labels, args)?;
    Ok(read_test(alloc, kind, &labels, cut))
}

/// Checks a test and the tests in it. Returns its condition.
#[cycle(check_tests)]
#[tactic(auto, using(crate::proofs::Walk::test_steps))]
fn check_test(alloc: Global, context: Context<'_>, test: Test) -> Result<Condition, CheckFault>
    ensures found { FindsIn
        (test_elements (context_as context.entry) (seen.test_of test)) result }
    ensures read { IfOk result (λ read. condition_as read
        ≡ condition_of (context_as context.entry) (seen.test_of test)) }
{
    let head = check_test_head(alloc, context, &test)?;
    let Test { args, tests, .. } = test;
    let reading = cut_and_read(alloc, context, head, args)?;
    let inner = check_tests(alloc, context, tests)?;
    Ok(joined(alloc, reading, inner)?)
}

/// Checks the tests after arguments. Returns their conditions in order.
#[cycle(check_tests)]
#[tactic(auto, unfolding(crate::specs::Element::tests_elements))]
pub(crate) fn check_tests(
    alloc: Global,
    context: Context<'_>,
    tests: Tests,
) -> Result<Vec<Condition>, CheckFault>
    ensures found { FindsIn
        (tests_elements (context_as context.entry) (seen.tests_of tests)) result }
    ensures read { IfOk result (λ read. conditions_before read.items no_conditions
        ≡ conditions_in (context_as context.entry) (seen.tests_of tests)) }
{
    match tests {
        Tests::None => Ok(Vec::new(alloc)),
        Tests::One(test) => {
            let condition = check_test(alloc, context, Box::into_inner(test))?;
            let none = Vec::with_capacity(alloc, 1)?;
            Ok(with_condition(none, condition)?)
        }
        Tests::List(list) => check_test_list(alloc, context, Box::into_inner(list)),
    }
}

/// Checks a list of tests. Returns their conditions in order.
#[cycle(check_tests)]
fn check_test_list(
    alloc: Global,
    context: Context<'_>,
    list: Vec<Test>,
) -> Result<Vec<Condition>, CheckFault>
    ensures found { FindsIn (test_list_elements (context_as context.entry)
        (tests (map seen.test_of list.items))) result }
    ensures read { IfOk result (λ read. conditions_before read.items no_conditions
        ≡ conditions (context_as context.entry) (tests (map seen.test_of list.items))) }
{
    let mut conditions = Vec::with_capacity(alloc, list.len())?;
    for test in list {
        let condition = check_test(alloc, context, test)?;
        conditions = with_condition(conditions, condition)?;
    }
    Ok(conditions)
}
