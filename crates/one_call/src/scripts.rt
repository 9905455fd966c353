//! Scripts: their tokens, their trees, and their code.

use crate::telling::{Host, end_line, mark, personal, prepared, tell, tell_refused, written};
use bench::{TestEnd, dump_text, write_code};
use devices::{Counted, Piece, write_quoted};
use sieve_check::{CheckFault, Checked, JudgeFault, Judged, check, judge};
use sieve_code::{Code, compile};
use sieve_profile::Profile;
use sieve_syntax::{Command, ParsedScript, SyntaxFault, Tests, Token, parse, tokens};
use std::io;

/// Octets that stand for themselves between quotes, and others.
pub(crate) const QUOTED: &[u8] = b"a \"\\\x00\xff";

/// A token of each kind, the last of which is no token of Sieve.
pub(crate) const TOKENS: &[u8] = b"if x(\n[\"a\", text:\n.\n]) { keep :t 2K; } #\n'";

/// Names, strings and lists that are short and long, tests in tests, and blocks in blocks.
pub(crate) const TEXT: &[u8] =
    b"require [\"fileinto\", \"variables\", \"include\", \"imap4flags\", \"copy\"];
global [\"shared_by_all_of_them\", \"b\"];
if anyof (not header :contains [\"Subject\", \"X-A-Long-Field-Name\"] \"sale\", allof (size :over 2K, exists \"To\")) {
    set :upper \"name\" \"to ${1} and ${shared_by_all_of_them}\";
    if true { fileinto :copy :flags [\"\\\\Seen\", \"a\"] \"Lists/${name}\"; }
} elsif address :domain :matches \"From\" \"*.example\" {
    redirect text:
a@b.example
.
;
} else {
    include :once \"lib\";
}
addflag \"name\" [\"a\", \"b\"];
";

pub(crate) const BREACH: &[u8] = b"require \"variables\";\nset \"a\" \"${b}\";\nkep;";

pub(crate) const NO_SCRIPT: &[u8] = b"if true {\n keep }";

pub(crate) fn cut(rt: &impl Host, text: &[u8]) -> io::Result<()> {
    mark(rt);
    let answer = tokens(rt.alloc(), text);
    mark(rt);
    match answer {
        Ok(found) => tell_tokens(rt, &found),
        Err(_) => tell_refused(rt),
    }
}

fn tell_tokens(rt: &impl Print, found: &[Token]) -> io::Result<()> {
    for token in found {
        let Token {
            kind,
            start,
            end,
            line,
        } = token;
        println!(rt; "{kind:?} {start} {end} {line}")?;
    }
    Ok(())
}

pub(crate) fn read(rt: &impl Host, text: &[u8]) -> io::Result<()> {
    mark(rt);
    let answer = parse(rt.alloc(), text);
    mark(rt);
    match answer {
        Ok(script) => tell_script(rt, &script),
        Err(SyntaxFault::NoMemory) => tell_refused(rt),
        Err(fault) => println!(rt; "{fault}"),
    }
}

/// Prints each command, and each command of its block.
fn tell_script(rt: &impl Print, script: &ParsedScript) -> io::Result<()> {
    for command in script.commands() {
        tell_command(rt, command)?;
        if let Some(block) = &command.block {
            for inner in block {
                tell_command(rt, inner)?;
            }
        }
    }
    Ok(())
}

/// Prints a command's line and name, and the numbers of its arguments and tests.
fn tell_command(rt: &impl Print, command: &Command) -> io::Result<()> {
    let tests = match &command.tests {
        Tests::None => 0,
        Tests::One(_) => 1,
        Tests::List(tests) => tests.len(),
    };
    tell(
        rt,
        &[
            Piece::Number(command.line as u64),
            Piece::Raw(b" "),
            Piece::Raw(command.name.as_slice()),
            Piece::Raw(b" "),
            Piece::Number(command.args.len() as u64),
            Piece::Raw(b" "),
            Piece::Number(tests as u64),
        ],
    )
}

pub(crate) fn check_script(rt: &impl Host) -> io::Result<()> {
    let script = prepared(parse(rt.alloc(), TEXT))?;
    mark(rt);
    let answer = check(rt.alloc(), Profile::new(), script);
    mark(rt);
    match answer {
        Ok(checked) => println!(rt; "{}", checked.statements().len()),
        Err(CheckFault::NoMemory) => tell_refused(rt),
        Err(fault) => println!(rt; "{fault}"),
    }
}

/// Prints the number of statements of the text's script, or its fault.
pub(crate) fn judge_text(rt: &impl Host, text: &[u8]) -> io::Result<()> {
    mark(rt);
    let answer = judge(rt.alloc(), Profile::new(), text);
    mark(rt);
    match answer {
        Ok(Judged::Sound(checked)) => println!(rt; "{}", checked.statements().len()),
        Ok(Judged::Faulty { line, kind }) => tell(
            rt,
            &[
                Piece::Number(line),
                Piece::Raw(b" "),
                Piece::Raw(kind.word()),
            ],
        ),
        Err(JudgeFault::NoMemory) => tell_refused(rt),
        Err(JudgeFault::TooLarge) => println!(rt; "too large"),
    }
}

fn checked_of(rt: &impl Host) -> io::Result<Checked> {
    let script = prepared(parse(rt.alloc(), TEXT))?;
    prepared(check(rt.alloc(), Profile::new(), script))
}

pub(crate) fn compile_script(rt: &impl Host) -> io::Result<()> {
    let checked = checked_of(rt)?;
    mark(rt);
    let answer = compile(rt.alloc(), checked);
    mark(rt);
    match answer {
        Ok(code) => tell_code(rt, &code),
        Err(_) => tell_refused(rt),
    }
}

fn tell_code(rt: &impl Print, code: &Code) -> io::Result<()> {
    written(write_code(code, &mut Counted::new(io::writer(rt))))
}

pub(crate) fn dump(rt: &impl Host) -> io::Result<()> {
    let name = personal(rt, b"main")?;
    let mut writer = Counted::new(io::writer(rt));
    mark(rt);
    let end = dump_text(rt.alloc(), Profile::new(), &name, TEXT, &mut writer);
    mark(rt);
    tell_end(rt, end)
}

/// Prints how a test or a dump ended.
pub(crate) fn tell_end(rt: &impl Print, end: TestEnd) -> io::Result<()> {
    match end {
        TestEnd::NoMemory => tell_refused(rt),
        _ => println!(rt; "{end:?}"),
    }
}

pub(crate) fn ask_checked(rt: &impl Host) -> io::Result<()> {
    let checked = checked_of(rt)?;
    mark(rt);
    let count = checked.statements().len();
    mark(rt);
    println!(rt; "{count}")
}

fn code_of(rt: &impl Host) -> io::Result<Code> {
    Ok(compile(rt.alloc(), checked_of(rt)?)?)
}

/// Prints the lines of all operations, which are written in the call, and the number of operations.
pub(crate) fn ask_code(rt: &impl Host) -> io::Result<()> {
    let code = code_of(rt)?;
    mark(rt);
    let told = tell_code(rt, &code);
    let count = code.len();
    mark(rt);
    told?;
    println!(rt; "{count}")
}

pub(crate) fn quote(rt: &impl Host, octets: &[u8]) -> io::Result<()> {
    let mut writer = Counted::new(io::writer(rt));
    mark(rt);
    let done = write_quoted(octets, &mut writer);
    mark(rt);
    end_line(rt, done)
}
