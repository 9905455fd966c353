//! The profile in the words of a command line.
ghost use Rattle.std.specs.Prelude.{map};
ghost use Rattle.clap.specs.Words.{rows_of};
ghost use Rattle.clap.specs.Matches.{found_of};
ghost use Rattle.command_line.specs.Profiles.{Says, names_in, parts_of, profile_in, with_names};
ghost use Rattle.sieve_profile.specs.Profile.{empty_profile};
ghost use Rattle.sieve_profile.specs.view.Profile.{profile_as};

use clap::ArgMatches;
use sieve_profile::{ALL, EXTENSIONS, Extension, PIGEONHOLE, Profile};
use std::alloc::{AllocError, Global};
use std::fmt;

/// The known names, as they are listed where a word is none of them.
pub(crate) struct ProfileNames;

impl fmt::Display for ProfileNames {
    fn fmt<W: fmt::Write>(&self, f: &mut fmt::Formatter<W>) -> fmt::Result {
        for extension in EXTENSIONS.iter().copied() {
            let name = text_of(extension.name());
            write!(f, "{name}, ")?;
        }
        let all = text_of(ALL);
        let pigeonhole = text_of(PIGEONHOLE);
        write!(f, "{all}, {pigeonhole}")
    }
}

/// A name as text.
fn text_of(name: &'static [u8]) -> &'static str {
    std::str::from_utf8(name).unwrap_or("")
}

/// The use of an extension, in a few words for help.
fn brings(extension: Extension) -> &'static str {
    match extension {
        Extension::Body => "the test body, of what a message is made of (RFC 5173)",
        Extension::Charsets => "encoded words of further charsets are decoded",
        Extension::AsciiNumeric => "the comparator i;ascii-numeric (RFC 4790)",
        Extension::Date => "dates of fields, and the current date (RFC 5260)",
        Extension::Duplicate => "the test duplicate, which is false (RFC 7352)",
        Extension::EncodedCharacter => "${hex:..} and ${unicode:..} in strings (RFC 5228)",
        Extension::Envelopes => "a message may have an envelope of its own",
        Extension::Ereject => "the command ereject (RFC 5429)",
        Extension::Lines => "a report says which line entered each action",
        Extension::Mailbox => "fileinto :create, and the test mailboxexists (RFC 5490)",
        Extension::Reject => "the command reject (RFC 5429)",
        Extension::Relational => "the match types :value and :count (RFC 5231)",
        Extension::SpecialUse => "fileinto :specialuse (RFC 8579)",
        Extension::Subaddress => "the address parts :user and :detail (RFC 5233)",
        Extension::Unused => "a capability that is not known may be required where it is not used",
        Extension::Vacation => "the command vacation (RFC 5230)",
    }
}

/// Adds the line of a name.
fn push_name(
    alloc: Global,
    text: &mut String,
    name: &'static [u8],
    few_words: &str,
) -> Result<(), AllocError> {
    let name = text_of(name);
    text.push_str(format!(in alloc; "\n  {name:<26}  {few_words}")?.as_str())
}

/// Help on the option `--with`: a line for each name.
pub(crate) fn names_help(alloc: Global) -> Result<String, AllocError> {
    let mut text = String::from_str(
        alloc,
        "What a bench knows beyond what it always does (commas between several):",
    )?;
    for extension in EXTENSIONS.iter().copied() {
        push_name(alloc, &mut text, extension.name(), brings(extension))?;
    }
    push_name(alloc, &mut text, ALL, "all of these")?;
    push_name(
        alloc,
        &mut text,
        PIGEONHOLE,
        "those that Pigeonhole 0.5.19 knows by default",
    )?;
    Ok(text)
}

/// A profile with the extensions that a word's names ask for, or the first name that asks for none.
fn with_word<'a>(before: Profile, word: &'a str) -> Result<Profile, &'a str>
    ensures { Says (with_names (profile_as before) (parts_of word.now)) result }
{
    let mut profile = before;
    for name in word.split(',') {
        match profile.with_named(name.as_bytes()) {
            Some(more) => profile = more,
            None => return Err(name),
        }
    }
    Ok(profile)
}

/// The profile that the words of all `--with` name, or the first name that asks for no extension.
fn profile_by<'a>(words: &[&'a str]) -> Result<Profile, &'a str>
    ensures { Says (with_names empty_profile (names_in (map (λ word. word.now) words.now))) result }
{
    let mut profile = Profile::new();
    for word in words {
        match with_word(profile, word) {
            Ok(more) => profile = more,
            Err(name) => return Err(name),
        }
    }
    Ok(profile)
}

/// The profile that a subcommand's matches name, or the first name that asks for no extension.
pub(crate) fn profile_in<'a>(matches: &ArgMatches<'a>) -> Result<Profile, &'a str>
    ensures { Says (profile_in (rows_of (found_of matches.now))) result }
{
    match matches.get_strs("with") {
        Some(words) => profile_by(words),
        None => Ok(Profile::new()),
    }
}
