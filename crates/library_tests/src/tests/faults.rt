//! The numbers of refusals, rules and errors, and the texts that refusals print.
//!
//! A refusal with fields has no number of its own. Its variants are listed in the order of their
//! numbers.

use super::same;
use devices::WriteFault;
use message_text::MessageFault;
use sieve_check::{CheckFault, JudgeFault, Rule};
use sieve_run::ErrorKind;
use sieve_syntax::SyntaxFault;
use std::alloc::AllocError;
use std::fmt::Display;
use std::process::Abort;

/// Compares rules with their numbers and words.
fn check_rules(rt: &impl Abort, rows: &[(Rule, u8, &[u8])]) {
    for (rule, number, word) in rows {
        same(rt, "the word of a rule", rule.word(), *word);
        same(rt, "its number", &[rule.number()], &[*number]);
    }
}

#[test]
fn rules_have_their_numbers_and_words(rt: HostRuntime) {
    check_rules(
        &rt,
        &[
            (Rule::RequirePlace, 1, b"require-place"),
            (Rule::UnknownCapability, 2, b"unknown-capability"),
            (Rule::UnknownCommand, 3, b"unknown-command"),
            (Rule::NotRequired, 4, b"not-required"),
            (Rule::ElsePlace, 5, b"else-place"),
            (Rule::BadTag, 6, b"bad-tag"),
            (Rule::BadArguments, 7, b"bad-arguments"),
            (Rule::UnknownComparator, 8, b"unknown-comparator"),
        ],
    );
}

#[test]
fn later_rules_have_their_numbers_and_words(rt: HostRuntime) {
    check_rules(
        &rt,
        &[
            (Rule::BadVariableName, 9, b"bad-variable-name"),
            (Rule::GlobalAfterSet, 10, b"global-after-set"),
            (Rule::BadNamespace, 11, b"bad-namespace"),
            (Rule::MatchIndex, 12, b"match-index"),
            (Rule::NumberTooLarge, 13, b"number-too-large"),
            (Rule::BadEnvelopePart, 14, b"bad-envelope-part"),
            (Rule::NotAddressHeader, 15, b"not-address-header"),
            (Rule::TooManyVariables, 16, b"too-many-variables"),
            (Rule::BadCharacter, 17, b"bad-character"),
            (Rule::BadRelation, 18, b"bad-relation"),
            (Rule::UnfitComparator, 19, b"unfit-comparator"),
            (Rule::BadDatePart, 20, b"bad-date-part"),
        ],
    );
}

/// Compares errors with their numbers and words.
fn check_errors(rt: &impl Abort, rows: &[(ErrorKind, u8, &[u8])]) {
    for (kind, number, word) in rows {
        same(rt, "the word of an error", kind.word(), *word);
        same(rt, "its number", &[*kind as u8], &[*number]);
    }
}

#[test]
fn errors_have_their_numbers_and_words(rt: HostRuntime) {
    check_errors(
        &rt,
        &[
            (ErrorKind::MissingScript, 1, b"missing-script"),
            (ErrorKind::InvalidScript, 2, b"invalid-script"),
            (ErrorKind::RecursiveInclude, 3, b"recursive-include"),
            (ErrorKind::IncludeDepth, 4, b"include-depth"),
            (ErrorKind::IncludeCount, 5, b"include-count"),
            (ErrorKind::BadAddress, 6, b"bad-address"),
            (ErrorKind::TooManyActions, 7, b"too-many-actions"),
            (ErrorKind::TooManyGlobals, 8, b"too-many-globals"),
            (ErrorKind::BadMailbox, 9, b"bad-mailbox"),
            (ErrorKind::SecondVacation, 10, b"second-vacation"),
            (ErrorKind::ConflictingActions, 11, b"conflicting-actions"),
        ],
    );
}

#[test]
fn refusals_have_their_numbers(rt: HostRuntime) {
    let message = [MessageFault::TooLarge as u8, MessageFault::NoMemory as u8];
    same(&rt, "of a message", &message, &[1, 2]);
    let judge = [JudgeFault::TooLarge as u8, JudgeFault::NoMemory as u8];
    same(&rt, "of a judgement", &judge, &[1, 2]);
}

/// Prints a refusal, and compares.
fn check_printed(
    rt: &(impl AllocGlobal + Abort),
    fault: impl Display + Drop,
    text: &str,
) -> Result<(), AllocError> {
    let printed = format!(in rt.alloc(); "{fault}")?;
    same(rt, "a refusal", printed.as_bytes(), text.as_bytes());
    Ok(())
}

#[test]
fn refusals_print_their_texts(rt: HostRuntime) -> Result<(), AllocError> {
    check_printed(&rt, WriteFault, "the writer failed")?;
    check_printed(&rt, MessageFault::TooLarge, "the message is too large")?;
    check_printed(&rt, MessageFault::NoMemory, "out of memory")?;
    check_printed(&rt, SyntaxFault::Syntax { line: 7 }, "line 7: not a script")?;
    check_printed(&rt, SyntaxFault::TooLarge, "the text is too large")?;
    check_printed(&rt, SyntaxFault::NoMemory, "out of memory")?;
    check_printed(&rt, JudgeFault::TooLarge, "the text is too large")?;
    check_printed(&rt, JudgeFault::NoMemory, "out of memory")?;
    let breach = CheckFault::Breach {
        line: 18_446_744_073_709_551_615,
        rule: Rule::BadTag,
    };
    check_printed(&rt, breach, "line 18446744073709551615: a rule is broken")?;
    check_printed(&rt, CheckFault::NoMemory, "out of memory")
}
