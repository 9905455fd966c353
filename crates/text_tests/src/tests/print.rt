//! Trees as text.

use super::same;
use sieve_syntax::{Argument, Command, Test, Tests, Text, parse};
use std::alloc::{AllocError, Global};
use std::process::Abort;

/// Prints octets as text, and those that aren't printable in hexadecimal.
fn print_octets(out: &mut String, octets: &[u8]) -> Result<(), AllocError> {
    for octet in octets {
        if (b' '..=b'~').contains(octet) {
            out.push(char::from(*octet))?;
        } else {
            out.push_str("\\x")?;
            out.push(hexadecimal(*octet / 16))?;
            out.push(hexadecimal(*octet % 16))?;
        }
    }
    Ok(())
}

fn hexadecimal(digit: u8) -> char {
    match digit {
        0..=9 => char::from(digit + b'0'),
        10..=15 => char::from(digit - 10 + b'a'),
        _ => '?',
    }
}

fn print_number(out: &mut String, alloc: Global, number: u64) -> Result<(), AllocError> {
    let digits = format!(in alloc; "{number}")?;
    out.push_str(&digits)
}

fn print_text(out: &mut String, alloc: Global, text: &Text) -> Result<(), AllocError> {
    out.push_str("\"")?;
    print_octets(out, text.octets())?;
    out.push_str("\"")?;
    print_number(out, alloc, text.line as u64)
}

fn print_texts(out: &mut String, alloc: Global, texts: &[Text]) -> Result<(), AllocError> {
    for text in texts {
        print_text(out, alloc, text)?;
    }
    Ok(())
}

fn print_value(out: &mut String, alloc: Global, value: Option<u64>) -> Result<(), AllocError> {
    match value {
        Some(number) => print_number(out, alloc, number),
        None => out.push_str("none"),
    }
}

/// An argument, as `"text"LINE`, `["text"LINE "text"LINE]`, `#VALUE@LINE` or `:NAME@LINE`.
fn print_argument(out: &mut String, alloc: Global, argument: &Argument) -> Result<(), AllocError> {
    out.push_str(" ")?;
    match argument {
        Argument::Strings { items, bracketed } => {
            out.push_str(if *bracketed { "[" } else { "" })?;
            print_texts(out, alloc, items)?;
            out.push_str(if *bracketed { "]" } else { "" })
        }
        Argument::Number { value, line } => {
            out.push_str("#")?;
            print_value(out, alloc, *value)?;
            out.push_str("@")?;
            print_number(out, alloc, *line as u64)
        }
        Argument::Tag { name, line } => {
            out.push_str(":")?;
            print_octets(out, name)?;
            out.push_str("@")?;
            print_number(out, alloc, *line as u64)
        }
    }
}

fn print_head(
    out: &mut String,
    alloc: Global,
    name: &[u8],
    line: u64,
    args: &[Argument],
) -> Result<(), AllocError> {
    print_octets(out, name)?;
    out.push_str("@")?;
    print_number(out, alloc, line)?;
    for argument in args {
        print_argument(out, alloc, argument)?;
    }
    Ok(())
}

/// A test, as `NAME@LINE ARGUMENTS TESTS`.
#[cycle(print)]
fn print_test(out: &mut String, alloc: Global, test: &Test) -> Result<(), AllocError> {
    print_head(
        out,
        alloc,
        test.name.as_slice(),
        test.line as u64,
        &test.args,
    )?;
    print_tests(out, alloc, &test.tests)
}

/// Tests: one alone, or a list in parentheses.
#[cycle(print)]
fn print_tests(out: &mut String, alloc: Global, tests: &Tests) -> Result<(), AllocError> {
    match tests {
        Tests::None => Ok(()),
        Tests::One(test) => {
            out.push_str(" ")?;
            print_test(out, alloc, test)
        }
        Tests::List(list) => {
            out.push_str(" (")?;
            for test in list.iter() {
                print_test(out, alloc, test)?;
                out.push_str(",")?;
            }
            out.push_str(")")
        }
    }
}

/// A command, as `NAME@LINE ARGUMENTS TESTS;` or with a block in braces.
#[cycle(commands)]
fn print_command(out: &mut String, alloc: Global, command: &Command) -> Result<(), AllocError> {
    print_head(
        out,
        alloc,
        command.name.as_slice(),
        command.line as u64,
        &command.args,
    )?;
    print_tests(out, alloc, &command.tests)?;
    match &command.block {
        None => out.push_str(";"),
        Some(commands) => print_block(out, alloc, commands),
    }
}

#[cycle(commands)]
fn print_block(out: &mut String, alloc: Global, commands: &Vec<Command>) -> Result<(), AllocError> {
    out.push_str("{")?;
    for inner in commands {
        print_command(out, alloc, inner)?;
    }
    out.push_str("}")
}

fn print_commands(out: &mut String, alloc: Global, commands: &[Command]) -> Result<(), AllocError> {
    for command in commands {
        print_command(out, alloc, command)?;
    }
    Ok(())
}

/// Prints the tree of a text, or its fault.
fn print_tree(out: &mut String, alloc: Global, text: &[u8]) -> Result<(), AllocError> {
    match parse(alloc, text) {
        Ok(script) => print_commands(out, alloc, script.commands()),
        Err(_) => out.push_str("a fault"),
    }
}

/// Parses each text, and compares its tree.
pub(super) fn check_trees(
    rt: &(impl AllocGlobal + Abort),
    rows: &[(&[u8], &str)],
) -> Result<(), AllocError> {
    for (text, wanted) in rows {
        let mut out = String::new(rt.alloc());
        print_tree(&mut out, rt.alloc(), *text)?;
        same(rt, *text, out.as_bytes(), wanted.as_bytes());
    }
    Ok(())
}
