//! Checked scripts, and a breach. The faults of texts are in `examples/rows`. The expected results
//! were written by hand from RFC 5228.

use super::{holds, same};
use sieve_check::{CheckFault, Checked, Rule, check};
use sieve_profile::Profile;
use sieve_script::{
    Ask, Branch, Comparison, Condition, Leaf, MatchType, PartRef, Parts, Statement, ValueSource,
};
use sieve_syntax::{ParsedScript, parse};
use std::alloc::Global;
use std::process::Abort;
use std::test::Fail;

/// Whether it is the first command of `keep;\nif NOT size :over 2K {\nStop; }`.
fn is_keep(statement: &Statement) -> bool {
    match statement {
        Statement::Act {
            leaf: Leaf::Keep { flags },
            line,
        } => flags.is_none() && *line == 1,
        _ => false,
    }
}

/// Whether a condition is that of `NOT size :over 2K`.
fn is_not_over(condition: Condition) -> bool {
    match condition {
        Condition::Not(inner) => match Box::into_inner(inner) {
            Condition::Asks(Ask::Over { limit }) => limit == 2048,
            _ => false,
        },
        _ => false,
    }
}

/// Whether statements are those of `Stop;`.
fn are_stop(statements: Vec<Statement>) -> bool {
    matches!(statements.as_slice(), [Statement::Stop])
}

/// Checks the second command, an `if`.
fn check_choice(rt: &impl Abort, branches: Vec<Branch>) {
    let mut branches = branches.into_iter();
    match (branches.next(), branches.next()) {
        (Some(Branch { condition, block }), None) => {
            holds(rt, "the condition", is_not_over(condition));
            holds(rt, "the block", are_stop(block));
        }
        _ => panic!(rt; "not one branch"),
    }
}

/// Checks the commands of the script. The last command is first.
fn check_both(rt: &impl Abort, checked: Checked) {
    let mut statements = checked.into_statements().into_iter();
    match (statements.next(), statements.next(), statements.next()) {
        (
            Some(
                Statement::Choose {
                    branches,
                    otherwise: None,
                },
            ),
            Some(keep),
            None,
        ) => {
            holds(rt, "a keep", is_keep(&keep));
            check_choice(rt, branches);
        }
        _ => panic!(rt; "another script"),
    }
}

/// The script of a text that breaks no rule.
fn checked_text(alloc: Global, text: &[u8]) -> Result<Checked, Fail> {
    Ok(check(alloc, Profile::new(), parse(alloc, text)?)?)
}

#[test]
fn a_sound_text_has_its_script(rt: HostRuntime) -> Result<(), Fail> {
    let checked = checked_text(rt.alloc(), b"keep;\nif NOT size :over 2K {\nStop; }")?;
    holds(&rt, "how many commands", checked.statements().len() == 2);
    check_both(&rt, checked);
    Ok(())
}

/// The number of branches with tests that a statement has, and whether it has an `else`.
fn branches_of(statement: &Statement) -> (usize, bool) {
    match statement {
        Statement::Choose {
            branches,
            otherwise,
        } => (branches.len(), otherwise.is_some()),
        _ => (0, false),
    }
}

#[test]
fn branches_belong_to_their_if(rt: HostRuntime) -> Result<(), Fail> {
    let rows: &[(&[u8], &[(usize, bool)])] = &[
        (b"if true {} else {}", &[(1, true)]),
        (b"if true {}", &[(1, false)]),
        (b"if true {} if true {}", &[(1, false), (1, false)]),
        (
            b"if true {} elsif true {} elsif false {} else {} keep;",
            &[(0, false), (3, true)],
        ),
    ];
    for (text, expected) in rows {
        let checked = checked_text(rt.alloc(), *text)?;
        let mut alike = checked.statements().len() == expected.len();
        for (statement, row) in checked.statements().iter().zip(expected.iter()) {
            alike = alike && branches_of(statement) == *row;
        }
        holds(&rt, "the branches", alike);
    }
    Ok(())
}

fn check_text(rt: &impl Abort, text: &Parts, octets: &[u8]) {
    match text.as_slice() {
        [part] => match part.as_ref() {
            PartRef::Literal(literal) => same(rt, "a literal", literal, octets),
            _ => panic!(rt; "another part"),
        },
        _ => panic!(rt; "another string"),
    }
}

/// Checks the strings of the test.
fn check_strings(rt: &impl Abort, names: &[Parts], keys: &[Parts]) {
    match (names, keys) {
        ([name], [first, second]) => {
            check_text(rt, name, b"a");
            check_text(rt, first, b"b");
            check_text(rt, second, b"c");
        }
        _ => panic!(rt; "other strings"),
    }
}

/// Checks the condition of `if header :comparator "i;octet" "a"\n["b", "c"] {}`.
fn check_header(rt: &impl Abort, condition: Condition) {
    match condition {
        Condition::Asks(
            Ask::Compares {
                source,
                comparison: Comparison {
                    match_type: MatchType::Is,
                    collation: match_text::Collation::Octet,
                },
                keys,
            },
        ) => check_source(rt, source, keys),
        _ => panic!(rt; "another test"),
    }
}

/// Checks the names of fields and the keys of the test.
fn check_source<S: Drop>(
    rt: &impl Abort,
    source: ValueSource<Vec<Parts>, Vec<Parts>, S>,
    keys: Vec<Parts>,
) {
    match source {
        ValueSource::Fields { part: None, names } => check_strings(
            rt,
            names.as_slice(),
            keys.as_slice(),
        ),
        _ => panic!(rt; "another source"),
    }
}

fn check_choice_of_header(rt: &impl Abort, checked: Checked) {
    let mut statements = checked.into_statements().into_iter();
    match (statements.next(), statements.next()) {
        (Some(Statement::Choose { branches, .. }), None) => check_one_test(rt, branches),
        _ => panic!(rt; "another script"),
    }
}

fn check_one_test(rt: &impl Abort, branches: Vec<Branch>) {
    match branches.into_iter().next() {
        Some(branch) => check_header(rt, branch.condition),
        None => panic!(rt; "no branch"),
    }
}

#[test]
fn a_header_test_has_its_strings(rt: HostRuntime) -> Result<(), Fail> {
    let checked = checked_text(
        rt.alloc(),
        b"if header :comparator \"i;octet\" \"a\"\n[\"b\", \"c\"] {}",
    )?;
    check_choice_of_header(&rt, checked);
    Ok(())
}

/// Compares the rule that a script breaks first, and its line.
fn check_breach(rt: &(impl AllocGlobal + Abort), script: ParsedScript, line: u64, rule: Rule) {
    match check(rt.alloc(), Profile::new(), script) {
        Err(fault) => holds(rt, "a breach", fault == CheckFault::Breach { line, rule }),
        Ok(_) => panic!(rt; "no breach"),
    }
}

#[test]
fn a_breach_has_its_line_and_rule(rt: HostRuntime) -> Result<(), Fail> {
    let script = parse(rt.alloc(), b"keep;\nstop {}\nkep;")?;
    check_breach(&rt, script, 2, Rule::BadArguments);
    same(&rt, "its word", Rule::BadArguments.word(), b"bad-arguments");
    Ok(())
}
