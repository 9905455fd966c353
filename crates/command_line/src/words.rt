//! The words of a command line: the profile, the clock and the job.
ghost use Rattle.std.specs.Prelude.{◌≡◌, ◌↔◌, IfOk, IfErr, IsOk, Ok, Option, Some, false, true, map, IsSome, IsOkUnless};
ghost use Rattle.clap.specs.Words.{fault_of, first_of, kind_of, rows_of, subcommand_rows_of};
ghost use Rattle.clap.specs.Matches.{found_of};
ghost use Rattle.command_line.specs.CommandLine.{allows, clock_said, the_app, is_lacking, job_named, job_of, name_needed, named_job, profile_met, said_profile, test_words, value_in, IsFaultFor, IsRefusalFor, NamesUnknown, SaysOf};
ghost use Rattle.date_text.specs.Clock as clocks;
ghost use Rattle.command_line.specs.Profiles.{Says};
ghost use Rattle.sieve_profile.specs.Profile.{Profile};
ghost use Rattle.sieve_profile.specs.view.Profile.{profile_as};

use crate::argument::CommandWord;
use crate::clock::clock_said;
use crate::commands::program;
use crate::profile::{ProfileNames, names_help, profile_in};
use clap::error::ErrorKind;
use clap::{ArgMatches, Error};
use date_text::Clock;
use sieve_profile::{Extension, Profile};
use std::alloc::{AllocError, Global};
use std::convert::AsStr;

/// A command line: the profile, the clock and the job that its words name.
#[derive(Drop)]
pub struct CommandLine {
    /// The extensions that are known beyond those that always are.
    pub profile: Profile,
    /// The time and its zone, where a test's words give them (RFC 5260, sections 4.1 and 5).
    pub clock: Option<Clock>,
    /// The job of the program.
    pub job: Job,
}

/// The job of the program.
#[derive(Drop)]
pub enum Job {
    /// To read a session from standard input and write its replies to standard output.
    Session,
    /// To print the code of the script in a file.
    Dump {
        /// The file's path.
        script: CommandWord,
    },
    /// To print the report of a script and a message in files.
    Test(TestWords),
}

/// The words of a test.
#[derive(Drop)]
pub struct TestWords {
    /// The sender's address in the envelope (RFC 5228, 5.4).
    pub from: Option<CommandWord>,
    /// The recipient's address in the envelope.
    pub to: Option<CommandWord>,
    /// The mailbox that mail is kept in.
    pub mailbox: Option<CommandWord>,
    /// The path of the list of mailboxes, with a name on each line (RFC 5490, 3.1). Needs
    /// `mailbox`.
    pub mailboxes: Option<CommandWord>,
    /// The time: the seconds since 1970-01-01 00:00 UTC in digits, and maybe a zone as `+0200` (RFC
    /// 5260, section 5). Needs `date`.
    pub clock: Option<CommandWord>,
    /// The path of a folder of personal scripts (RFC 6609, 3.2).
    pub personal: Option<CommandWord>,
    /// The path of a folder of global scripts.
    pub global: Option<CommandWord>,
    /// The path of the main script.
    pub script: CommandWord,
    /// The path of the message.
    pub mail: CommandWord,
}

/// Why a command line names no job.
#[derive(Debug, Drop, thiserror::Error)]
pub enum UsageFault {
    /// A mistake in the words, or, where `help` is true, a request for help. The text is for the
    /// user: help goes to standard output, and else the text goes to standard error.
    #[error("{text}")]
    Usage { help: bool, text: String },
    /// Out of memory.
    #[error("out of memory")]
    NoMemory,
    /// A name in the words of `--with` is none of the known names.
    #[error("error: invalid value '{name}' for '--with <NAME>'\n  [possible values: {}]\n\nFor more information, try '--help'.\n", ProfileNames)]
    UnknownName { name: CommandWord },
    /// A list of mailboxes is given, and `mailbox` isn't among the names of `--with`.
    #[error("error: '--mailboxes <FILE>' needs '--with mailbox'\n\nFor more information, try '--help'.\n")]
    NeedsMailbox,
    /// A clock is given, and `date` isn't among the names of `--with`.
    #[error("error: '--clock <TIME>' needs '--with date'\n\nFor more information, try '--help'.\n")]
    NeedsDate,
    /// The word of `--clock` isn't digits up to 253402300799 with a zone or without one.
    #[error("error: invalid value '{word}' for '--clock <TIME>'\n\nFor more information, try '--help'.\n")]
    BadClock { word: CommandWord },
}

impl From<AllocError> for UsageFault {
    ghost use Rattle.command_line.specs.declared.words.UsageFault.TheVariants.{NoMemory};

    ghost from_gives = { λ _ e. e ≡ NoMemory };

    fn from(_error: AllocError) -> UsageFault {
        UsageFault::NoMemory
    }
}

/// The fault for an error of `clap`, for the user.
fn usage_fault(alloc: Global, error: &Error) -> UsageFault
    ensures memory { kind_of error.now ≡ ErrorKind.OutOfMemory → result ≡ UsageFault.NoMemory }
    ensures usage { IsFaultFor (kind_of error.now) result }
{
    if error.kind() == ErrorKind::OutOfMemory {
        return UsageFault::NoMemory;
    }
    match format!(in alloc; "{error}") {
        Ok(text) => UsageFault::Usage {
            help: !error.use_stderr(),
            text,
        },
        Err(_) => UsageFault::NoMemory,
    }
}

/// The value of an argument that a subcommand requires.
fn required_in(alloc: Global, matches: &ArgMatches<'_>, id: &str) -> Result<CommandWord, AllocError>
    ensures { IfOk result (λ value. value ≡ value_in (rows_of (found_of matches.now)) id.now) }
{
    CommandWord::copied(alloc, matches.get_str(id).unwrap_or(""))
}

/// The value of an option, where it is given.
fn option_in(
    alloc: Global,
    matches: &ArgMatches<'_>,
    id: &str,
) -> Result<Option<CommandWord>, AllocError>
    ensures { IfOk result (λ value. value ≡ first_of id.now (rows_of (found_of matches.now))) }
{
    match matches.get_str(id) {
        Some(text) => Ok(Some(CommandWord::copied(alloc, text)?)),
        None => Ok(None),
    }
}

/// The words of `test` with these matches.
fn test_words(alloc: Global, matches: &ArgMatches<'_>) -> Result<TestWords, AllocError>
    ensures { IfOk result (λ words. words ≡ test_words (rows_of (found_of matches.now))) }
{
    Ok(TestWords {
        from: option_in(alloc, matches, "from")?,
        to: option_in(alloc, matches, "to")?,
        mailbox: option_in(alloc, matches, "mailbox")?,
        mailboxes: option_in(alloc, matches, "mailboxes")?,
        clock: option_in(alloc, matches, "clock")?,
        personal: option_in(alloc, matches, "personal")?,
        global: option_in(alloc, matches, "global")?,
        script: required_in(alloc, matches, "script")?,
        mail: required_in(alloc, matches, "mail")?,
    })
}

/// The job of a subcommand of that name with these matches.
fn job_named(alloc: Global, name: &str, matches: &ArgMatches<'_>) -> Result<Option<Job>, AllocError>
    ensures { IfOk result (λ job. job ≡ job_named name.now (rows_of (found_of matches.now))) }
{
    match name {
        "session" => Ok(Some(Job::Session)),
        "dump" => Ok(Some(Job::Dump {
            script: required_in(alloc, matches, "script")?,
        })),
        "test" => Ok(Some(Job::Test(test_words(alloc, matches)?))),
        _ => Ok(None),
    }
}

/// The job of the subcommand that was met.
fn job_in(alloc: Global, matches: &ArgMatches<'_>) -> Result<Option<Job>, AllocError>
    ensures { IfOk result (λ job. job ≡ job_of (subcommand_rows_of matches.now)) }
{
    match matches.subcommand() {
        Some((name, words)) => job_named(alloc, name, words),
        None => Ok(None),
    }
}

/// Whether a job needs a name.
fn name_needed(job: &Job, name: Extension) -> bool
    ensures { result ≡ name_needed job.now name }
{
    match job {
        Job::Test(words) => match name {
            Extension::Mailbox => words.mailboxes.is_some(),
            Extension::Date => words.clock.is_some(),
            _ => false,
        },
        Job::Session | Job::Dump { .. } => false,
    }
}

/// Whether a profile lacks a name that a job needs.
fn is_lacking(profile: Profile, job: &Job, name: Extension) -> bool
    ensures { result ≡ is_lacking (profile_as profile) job.now name }
{
    name_needed(job, name) && !profile.has(name)
}

/// The command line of a job and a profile which has each name that the job needs.
fn with_clock(alloc: Global, profile: Profile, job: Job) -> Result<CommandLine, UsageFault>
    requires { allows (profile_as profile) job ≡ true }
    ensures job { IfOk result (λ line. line.job ≡ job) }
    ensures profile { SaysOf (Ok (profile_as profile)) job result }
{
    match clock_said(alloc, &job) {
        Ok(clock) => Ok(CommandLine {
            profile,
            clock,
            job,
        }),
        Err(fault) => Err(fault),
    }
}

/// The command line of a job and a profile, which must have each name that the job needs.
fn where_allowed(alloc: Global, profile: Profile, job: Job) -> Result<CommandLine, UsageFault>
    ensures job { IfOk result (λ line. line.job ≡ job) }
    ensures profile { SaysOf (Ok (profile_as profile)) job result }
{
    if is_lacking(profile, &job, Extension::Mailbox) {
        Err(UsageFault::NeedsMailbox)
    } else if is_lacking(profile, &job, Extension::Date) {
        Err(UsageFault::NeedsDate)
    } else {
        with_clock(alloc, profile, job)
    }
}

/// The command line of a job and the profile of the subcommand that was met.
fn with_profile(
    alloc: Global,
    matches: &ArgMatches<'_>,
    job: Job,
) -> Result<CommandLine, UsageFault>
    ensures job { IfOk result (λ line. line.job ≡ job) }
    ensures profile { SaysOf (profile_met (subcommand_rows_of matches.now)) job result }
{
    match profile_met(matches) {
        Ok(profile) => where_allowed(alloc, profile, job),
        Err(name) => Err(unknown_name(alloc, name)),
    }
}

/// The fault of an unknown name.
fn unknown_name(alloc: Global, name: &str) -> UsageFault
    ensures { NamesUnknown name.now result }
{
    match CommandWord::copied(alloc, name) {
        Ok(name) => UsageFault::UnknownName { name },
        Err(_) => UsageFault::NoMemory,
    }
}

/// The profile of the subcommand that was met.
fn profile_met<'a>(matches: &'a ArgMatches<'_>) -> Result<Profile, &'a str>
    ensures { Says (profile_met (subcommand_rows_of matches.now)) result }
{
    match matches.subcommand() {
        Some((_name, words)) => profile_in(words),
        None => Ok(Profile::new()),
    }
}

/// The command line of some words. The first word is the program's name, as in `std::env::args`. An
/// error is the first of these:
///
/// - `Usage`: a mistake in the words, or a request for help.
/// - `UnknownName`: the first unknown name of a `--with`.
/// - `NeedsMailbox`: a list of mailboxes without the name `mailbox`.
/// - `NeedsDate`: a clock without the name `date`.
/// - `BadClock`: the word of a clock that isn't one.
///
/// Or it is `NoMemory` when out of memory.
pub fn command_of<'a, S: AsStr>(alloc: Global, words: &'a [S]) -> Result<CommandLine, UsageFault>
    // The job is the one that the words name.
    ensures ok { IfOk result (λ line. named_job (map S.text words.entry.now) ≡ Some line.job) }
    // The profile is the one that they say.
    ensures profile { IfOk result
        (λ line. said_profile (map S.text words.entry.now) ≡ Ok (profile_as line.profile)) }
    // It has each name that the job needs.
    ensures allowed { IfOk result (λ line. allows (profile_as line.profile) line.job ≡ true) }
    // The clock is the one that the job says.
    ensures clock { IfOk result (λ line. clock_said line.job ≡ Ok line.clock) }
    // The words name a job without a bad clock, and a profile which has each name that the job
    // needs. Then they are refused only when out of memory.
    ensures named { (asked : Job) (profile : Profile) (clock : Option clocks.Clock)
        → named_job (map S.text words.entry.now) ≡ Some asked
        → said_profile (map S.text words.entry.now) ≡ Ok profile → allows profile asked ≡ true
        → clock_said asked ≡ Ok clock → IsOkUnless result UsageFault.NoMemory }
    // Any other refusal is for a mistake in the words, or is the help that they ask for. Or it is
    // for an unknown name, a lacking name, or a clock's word that isn't one.
    ensures refused { IfErr result (IsRefusalFor (fault_of the_app (map S.text words.entry.now))
        (said_profile (map S.text words.entry.now)) (named_job (map S.text words.entry.now))) }
{
    let names = names_help(alloc)?;
    let matches = match program(alloc, names.as_str())?.try_get_matches_from(&*words) {
        Ok(matches) => matches,
        Err(error) => return Err(usage_fault(alloc, &error)),
    };
    match job_in(alloc, &matches)? {
        Some(job) => with_profile(alloc, &matches, job),
        None => unreachable!("a subcommand is required"),
    }
}
