//! The program's command line, as `clap` sees it.

ghost use Rattle.std.specs.Prelude.{◌≡◌, IfOk, codes, false};
ghost use Rattle.clap.specs.Words.{app_of, new_app, shape_of, with_subcommand};
ghost use Rattle.clap.specs.Walk.{rule_of};
ghost use Rattle.clap.specs.declared.builder.command.Command.TheViews.{out-Command};
ghost use Rattle.command_line.specs.CommandLine as spec;

use crate::help;
use clap::{Arg, ArgAction, Command};
use std::alloc::{AllocError, Global};

/// The version that `--version` answers.
const VERSION: &str = "0.2.0";

/// A path that must be there, under the name `id`.
fn path_argument<'a>(alloc: Global, id: &'a str, value: &'a str, help: &'a str) -> Arg<'a>
    ensures rule { rule_of result ≡ spec.path_rule id.entry.now }
    ensures local { result.global ≡ false }
{
    Arg::new(alloc, id)
        .value_name(value)
        .help(help)
        .required(true)
}

/// An option with one value, under the name `id`, that a letter names.
fn letter_option<'a>(
    alloc: Global,
    id: &'a str,
    letter: char,
    value: &'a str,
    help: &'a str,
) -> Arg<'a>
    ensures rule { rule_of result ≡ spec.letter_rule id.entry.now letter }
    ensures local { result.global ≡ false }
{
    Arg::new(alloc, id)
        .short(letter)
        .value_name(value)
        .help(help)
}

/// An option with one value that its name names.
fn name_option<'a>(alloc: Global, name: &'a str, value: &'a str, help: &'a str) -> Arg<'a>
    ensures rule { rule_of result ≡ spec.name_rule name.entry.now }
    ensures local { result.global ≡ false }
{
    Arg::new(alloc, name)
        .long(name)
        .value_name(value)
        .help(help)
}

/// An option with one value that may be given any number of times, and that its name names.
fn names_option<'a>(alloc: Global, name: &'a str, value: &'a str, help: &'a str) -> Arg<'a>
    ensures rule { rule_of result ≡ spec.names_rule name.entry.now }
    ensures local { result.global ≡ false }
{
    Arg::new(alloc, name)
        .long(name)
        .action(ArgAction::Append)
        .value_name(value)
        .help(help)
}

/// The command with the option for a bench's extensions, whose help lists their names.
fn with_profile<'a>(
    alloc: Global,
    command: Command<'a>,
    names: &'a str,
) -> Result<Command<'a>, AllocError>
    ensures { IfOk result (spec.HasMore command.entry spec.profile_rules) }
{
    command.arg(names_option(alloc, "with", "NAME", names))
}

/// The subcommand `session` before it has an argument.
fn bare_session_command<'a>(alloc: Global) -> Command<'a>
    ensures shape { app_of result ≡ new_app (codes "session") }
    ensures local { (out-Command result).has_globals ≡ false }
{
    Command::new(alloc, "session")
        .about("Reads a session from standard input and writes its replies to standard output")
        .after_help(help::of_session())
}

/// The subcommand `session`.
fn session_command<'a>(alloc: Global, names: &'a str) -> Result<Command<'a>, AllocError>
    ensures shape { IfOk result (λ command. shape_of command ≡ spec.session_shape) }
    ensures local { IfOk result (λ command. (out-Command command).has_globals ≡ false) }
{
    with_profile(alloc, bare_session_command(alloc), names)
}

/// The subcommand `dump` before it has an argument.
fn bare_dump_command<'a>(alloc: Global) -> Command<'a>
    ensures shape { app_of result ≡ new_app (codes "dump") }
    ensures local { (out-Command result).has_globals ≡ false }
{
    Command::new(alloc, "dump")
        .about("Prints the code that a script is compiled to, or the line of its first fault")
        .after_help(help::of_dump())
}

/// The subcommand `dump`.
fn dump_command<'a>(alloc: Global, names: &'a str) -> Result<Command<'a>, AllocError>
    ensures shape { IfOk result (λ command. shape_of command ≡ spec.dump_shape) }
    ensures local { IfOk result (λ command. (out-Command command).has_globals ≡ false) }
{
    let script = path_argument(alloc, "script", "SCRIPT", "The file that the script is in");
    with_profile(alloc, bare_dump_command(alloc), names)?.arg(script)
}

/// The subcommand `test` before it has an argument.
fn bare_test_command<'a>(alloc: Global) -> Command<'a>
    ensures shape { app_of result ≡ new_app (codes "test") }
    ensures local { (out-Command result).has_globals ≡ false }
{
    Command::new(alloc, "test")
        .about("Runs a script against a message in a file, and prints the report")
        .after_help(help::of_test())
}

/// The command with the options for the envelope.
fn with_envelope<'a>(alloc: Global, command: Command<'a>) -> Result<Command<'a>, AllocError>
    ensures { IfOk result (spec.HasMore command.entry spec.envelope_rules) }
{
    let from = "The sender's address in the envelope; empty where it is not given";
    let to = "The recipient's address in the envelope; empty where it is not given";
    command
        .arg(letter_option(alloc, "from", 'f', "ADDRESS", from))?
        .arg(name_option(alloc, "to", "ADDRESS", to))
}

/// The command with the options for the mailbox that mail is kept in and for the list of mailboxes.
fn with_mailbox<'a>(alloc: Global, command: Command<'a>) -> Result<Command<'a>, AllocError>
    ensures { IfOk result (spec.HasMore command.entry spec.mailbox_rules) }
{
    let mailbox = "The mailbox that mail is kept in; INBOX where it is not given";
    let mailboxes = "A list of the mailboxes that there are, a name a line; needs --with mailbox";
    command
        .arg(letter_option(alloc, "mailbox", 'm', "BOX", mailbox))?
        .arg(name_option(alloc, "mailboxes", "FILE", mailboxes))
}

/// The command with the option for the clock.
fn with_clock<'a>(alloc: Global, command: Command<'a>) -> Result<Command<'a>, AllocError>
    ensures { IfOk result (spec.HasMore command.entry spec.clock_rules) }
{
    let clock =
        "The current time: seconds since 1970 and a zone, as 1783245600+0200; needs --with date";
    command.arg(name_option(alloc, "clock", "TIME", clock))
}

/// The command with the options for folders of scripts.
fn with_folders<'a>(alloc: Global, command: Command<'a>) -> Result<Command<'a>, AllocError>
    ensures { IfOk result (spec.HasMore command.entry spec.folder_rules) }
{
    let personal = "A folder of personal scripts, for include and include :personal";
    let global = "A folder of global scripts, for include :global";
    command
        .arg(name_option(alloc, "personal", "DIR", personal))?
        .arg(name_option(alloc, "global", "DIR", global))
}

/// The command with the paths of the script and the message.
fn with_files<'a>(alloc: Global, command: Command<'a>) -> Result<Command<'a>, AllocError>
    ensures { IfOk result (spec.HasMore command.entry spec.file_rules) }
{
    let script = "The file that the main script is in";
    let mail = "The file that the message is in";
    command
        .arg(path_argument(alloc, "script", "SCRIPT", script))?
        .arg(path_argument(alloc, "mail", "MAIL", mail))
}

/// The subcommand `test`.
fn test_command<'a>(alloc: Global, names: &'a str) -> Result<Command<'a>, AllocError>
    ensures shape { IfOk result (λ command. shape_of command ≡ spec.test_shape) }
    ensures local { IfOk result (λ command. (out-Command command).has_globals ≡ false) }
{
    let command = with_envelope(alloc, bare_test_command(alloc))?;
    let command = with_mailbox(alloc, command)?;
    let command = with_clock(alloc, command)?;
    let command = with_folders(alloc, command)?;
    let command = with_profile(alloc, command, names)?;
    with_files(alloc, command)
}

/// The program before its settings.
fn bare_top_command<'a>(alloc: Global) -> Command<'a>
    ensures { app_of result ≡ new_app (codes "sievebench") }
{
    Command::new(alloc, "sievebench")
        .about("Runs Sieve scripts against sample messages and prints what would happen")
        .after_help(help::of_program())
}

/// The program, which requires a subcommand. Its usage has this name, whatever its file is called.
fn top_command<'a>(alloc: Global) -> Result<Command<'a>, AllocError>
    ensures { IfOk result (λ command. app_of command ≡ spec.top_app) }
{
    bare_top_command(alloc)
        .version(VERSION)
        .subcommand_required(true)
        .arg_required_else_help(true)
        .bin_name("sievebench")
}

/// The program with `session`.
fn with_session<'a>(alloc: Global, names: &'a str) -> Result<Command<'a>, AllocError>
    ensures { IfOk result
        (λ command. app_of command ≡ with_subcommand spec.top_app spec.session_shape) }
{
    top_command(alloc)?.subcommand(session_command(alloc, names)?)
}

/// The program with `session` and `dump`.
fn with_dump<'a>(alloc: Global, names: &'a str) -> Result<Command<'a>, AllocError>
    ensures { IfOk result (λ command. app_of command
        ≡ with_subcommand (with_subcommand spec.top_app spec.session_shape) spec.dump_shape) }
{
    with_session(alloc, names)?.subcommand(dump_command(alloc, names)?)
}

/// The program and its subcommands, whose help on `--with` is `names`.
pub(crate) fn program<'a>(alloc: Global, names: &'a str) -> Result<Command<'a>, AllocError>
    ensures { IfOk result (λ command. app_of command ≡ spec.the_app) }
{
    with_dump(alloc, names)?.subcommand(test_command(alloc, names)?)
}
