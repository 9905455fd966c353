//! Makes one call of the libraries, on a fixed input, and prints its answer and the state that it
//! left.
//!
//! The first word names the call: a function or a method. After a `/` it also names the input, if
//! several words name that call. Or the word names a type, for calls on it that need no memory.
//! Without a word all words are printed. `tools/check` refuses each request for memory in turn.
//! After `date` a field's value, a zone, which may be its `own`, and a part may follow. After
//! `clock` its seconds, its zone and a part may follow. After some words a text may follow, as
//! pairs of hexadecimal digits. These take the place of the fixed input.
#![tactic(auto)]

mod benches;
mod dates;
mod edits;
mod entities;
mod flags;
mod given;
mod mails;
mod reports;
mod runs;
mod scripts;
mod telling;
mod texts;
mod values;
mod words;

use std::io::ErrorKind;
use std::process::ExitCode;
use std::rt::Env;
use std::{env, io};
use telling::Host;

fn main(rt: HostRuntime) -> ExitCode {
    match run(&rt) {
        Ok(()) => ExitCode::from(0),
        Err(_) => ExitCode::from(1),
    }
}

/// Makes the call. Prints a line if memory is refused before it.
fn run(rt: &(impl Env + Host)) -> io::Result<()> {
    match call_named(rt) {
        Err(e) if e.kind() == ErrorKind::OutOfMemory => println!(rt; "prepare: no memory"),
        told => told,
    }
}

/// Makes the call that the first word names.
fn call_named(rt: &(impl Env + Host)) -> io::Result<()> {
    let given: Vec<String> = env::args(rt)?.collect(rt.alloc())?;
    match given.as_slice() {
        [_, word, first, second, third] => {
            let given = [first.as_bytes(), second.as_bytes(), third.as_bytes()];
            dates::call(rt, word.as_str(), given)
        }
        [_, word, text] => given::call(rt, word.as_str(), text.as_bytes()),
        [_, word] => words::call(rt, word.as_str()),
        _ => words::tell(rt),
    }
}
