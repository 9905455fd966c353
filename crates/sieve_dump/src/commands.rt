//! The commands of a dump.
ghost use Rattle.std.specs.Prelude.{◌≡◌, ◌++◌, codes};
ghost use Rattle.std.specs.Option.{option_copied};
ghost use Rattle.devices.specs.Writers.{Writes};
ghost use Rattle.sieve_dump.specs.Commands as spec;
ghost use Rattle.sieve_dump.specs.Strings as strings;
ghost use Rattle.sieve_dump.specs.Dump.{at_line};
ghost use Rattle.packed_strings.specs.view.Refs.{settings_ref_as};

use crate::strings::{name_of, scope_word, write_list, write_number, write_string};
use devices::{Piece, Sink, WriteFault, write_out, write_pieces};
use packed_strings::{SettingsRef, Strings};
use script_names::Location;
use sieve_script::FlagChange;
use sieve_variables::{LetterCase, Modifiers, Part, Variable};

/// Writes a command's word and then a string.
#[tactic(auto, unfolding(crate::specs::Strings::worded_text))]
pub(crate) fn write_worded<W: Sink>(
    word: &[u8],
    string: &[Part],
    writer: &mut W,
) -> Result<(), WriteFault>
    ensures { Writes W.contents W.fault_count result writer.old writer.new
        (strings.worded_text word.now string.now) }
{
    write_string(word, string, writer)
}

/// Writes the flags of a store: those that are named, or `internal` for the internal ones.
#[tactic(auto, unfolding(crate::specs::Commands::stored_flags))]
fn write_stored_flags<W: Sink>(
    flags: &Option<Strings<'_>>,
    writer: &mut W,
) -> Result<(), WriteFault>
    ensures { Writes W.contents W.fault_count result writer.old writer.new
        (spec.stored_flags flags.now) }
{
    match flags {
        Some(flags) => write_list(b" flags ", flags, writer),
        None => write_out(b" internal", writer),
    }
}

/// A word if it is given, or no octets.
pub(crate) fn given_word<'a>(is_given: bool, word: &'a [u8]) -> &'a [u8]
    ensures { result.now ≡ strings.given_word is_given word.now }
{
    if is_given { word } else { b"" }
}

/// Writes that an action is a copy, if it is one.
#[tactic(auto, unfolding(crate::specs::Commands::copy_word))]
fn write_copy<W: Sink>(copy: bool, writer: &mut W) -> Result<(), WriteFault>
    ensures { Writes W.contents W.fault_count result writer.old writer.new (spec.copy_word copy) }
{
    write_out(given_word(copy, b" copy"), writer)
}

/// Writes `create` for a command that makes its mailbox if there is none.
#[tactic(auto, unfolding(crate::specs::Commands::create_word))]
fn write_create<W: Sink>(settings: &SettingsRef<'_>, writer: &mut W) -> Result<(), WriteFault>
    ensures { Writes W.contents W.fault_count result writer.old writer.new
        (spec.create_word (settings_ref_as settings.now).create) }
{
    write_out(given_word(settings.create, b" create"), writer)
}

/// Writes a word and a string, if the string is given.
#[tactic(auto, unfolding(crate::specs::Strings::given_string_text))]
pub(crate) fn write_given_string<W: Sink>(
    word: &[u8],
    string: Option<&[Part]>,
    writer: &mut W,
) -> Result<(), WriteFault>
    ensures { Writes W.contents W.fault_count result writer.old writer.new
        (strings.given_string_text word.now (option_copied string.entry)) }
{
    match string {
        Some(string) => write_string(word, string, writer),
        None => write_out(b"", writer),
    }
}

/// Writes the settings of the mailbox that a command stores into.
#[tactic(auto, using(devices::proofs::Writing::writing), unfolding(crate::specs::Commands::filing_words))]
fn write_filing_words<W: Sink>(settings: &SettingsRef<'_>, writer: &mut W) -> Result<(), WriteFault>
    ensures { Writes W.contents W.fault_count result writer.old writer.new
        (spec.filing_words (settings_ref_as settings.now)) }
{
    write_create(settings, writer)?;
    write_given_string(b" special-use ", settings.special_use, writer)
}

/// Writes the settings of a store beside its flags.
#[tactic(auto, using(devices::proofs::Writing::writing), unfolding(crate::specs::Commands::store_words))]
fn write_store_words<W: Sink>(settings: &SettingsRef<'_>, writer: &mut W) -> Result<(), WriteFault>
    ensures { Writes W.contents W.fault_count result writer.old writer.new
        (spec.store_words (settings_ref_as settings.now)) }
{
    write_filing_words(settings, writer)?;
    write_copy(settings.copy, writer)
}

/// Writes the settings of a `fileinto` beside its mailbox.
#[tactic(auto, using(devices::proofs::Writing::writing), unfolding(crate::specs::Commands::stored_text))]
fn write_stored<W: Sink>(settings: &SettingsRef<'_>, writer: &mut W) -> Result<(), WriteFault>
    ensures { Writes W.contents W.fault_count result writer.old writer.new
        (spec.stored_text (settings_ref_as settings.now)) }
{
    write_stored_flags(&settings.flags, writer)?;
    write_store_words(settings, writer)
}

/// Writes a command's word and then the flags of its store.
#[tactic(auto, using(devices::proofs::Writing::writing), unfolding(crate::specs::Commands::worded_flags))]
pub(crate) fn write_worded_flags<W: Sink>(
    word: &[u8],
    flags: &Option<Strings<'_>>,
    writer: &mut W,
) -> Result<(), WriteFault>
    ensures { Writes W.contents W.fault_count result writer.old writer.new
        (spec.worded_flags word.now flags.now) }
{
    write_out(word, writer)?;
    write_stored_flags(flags, writer)
}

/// Writes a `redirect`.
#[tactic(auto, using(devices::proofs::Writing::writing))]
pub(crate) fn write_redirect<W: Sink>(
    address: &[Part],
    copy: bool,
    writer: &mut W,
) -> Result<(), WriteFault>
    ensures { Writes W.contents W.fault_count result writer.old writer.new
        (strings.worded_text (codes "redirect ") address.now ++ spec.copy_word copy) }
{
    write_worded(b"redirect ", address, writer)?;
    write_copy(copy, writer)
}

/// Writes a `fileinto`.
#[tactic(auto, using(devices::proofs::Writing::writing))]
pub(crate) fn write_fileinto<W: Sink>(
    mailbox: &[Part],
    settings: &SettingsRef<'_>,
    writer: &mut W,
) -> Result<(), WriteFault>
    ensures { Writes W.contents W.fault_count result writer.old writer.new (strings.worded_text
        (codes "fileinto ") mailbox.now ++ spec.stored_text (settings_ref_as settings.now)) }
{
    write_worded(b"fileinto ", mailbox, writer)?;
    write_stored(settings, writer)
}

/// The word of a modifier of letters.
fn case_word(case: Option<LetterCase>) -> &'static [u8]
    ensures { result.now ≡ spec.case_word case }
{
    match case {
        None => b"",
        Some(LetterCase::Lower) => b" lower",
        Some(LetterCase::Upper) => b" upper",
    }
}

/// The word of a modifier of the first letter.
fn first_word(case: Option<LetterCase>) -> &'static [u8]
    ensures { result.now ≡ spec.first_word case }
{
    match case {
        None => b"",
        Some(LetterCase::Lower) => b" lowerfirst",
        Some(LetterCase::Upper) => b" upperfirst",
    }
}

/// Writes a word and then a variable.
#[tactic(auto, unfolding(crate::specs::Commands::worded_variable))]
fn write_variable<'x, W: Sink>(
    word: &'x [u8],
    variable: &'x Variable,
    writer: &mut W,
) -> Result<(), WriteFault>
    ensures { Writes W.contents W.fault_count result writer.old writer.new
        (spec.worded_variable word.now variable.now) }
{
    let variable = variable.as_ref();
    write_pieces(
        &[
            Piece::Raw(word),
            Piece::Raw(scope_word(variable)),
            Piece::Raw(name_of(variable)),
            Piece::Raw(b")"),
        ],
        writer,
    )
}

/// Writes the modifiers of a `set`.
fn write_modifiers<W: Sink>(modifiers: Modifiers, writer: &mut W) -> Result<(), WriteFault>
    ensures { Writes W.contents W.fault_count result writer.old writer.new
        (spec.modifier_words modifiers) }
{
    write_pieces(
        &[
            Piece::Raw(case_word(modifiers.letter_case)),
            Piece::Raw(first_word(modifiers.first_letter)),
            Piece::Raw(given_word(modifiers.quote_wildcard, b" quotewildcard")),
            Piece::Raw(given_word(modifiers.length, b" length")),
            Piece::Raw(b" "),
        ],
        writer,
    )
}

/// Writes a `set` without its value.
#[tactic(auto, using(devices::proofs::Writing::writing), unfolding(crate::specs::Commands::set_words))]
fn write_set_words<W: Sink>(
    variable: &Variable,
    modifiers: Modifiers,
    writer: &mut W,
) -> Result<(), WriteFault>
    ensures { Writes W.contents W.fault_count result writer.old writer.new
        (spec.set_words variable.now modifiers) }
{
    write_variable(b"set ", variable, writer)?;
    write_modifiers(modifiers, writer)
}

/// Writes a `set`.
#[tactic(auto, using(devices::proofs::Writing::writing), unfolding(crate::specs::Strings::worded_text))]
pub(crate) fn write_set<W: Sink>(
    variable: &Variable,
    modifiers: Modifiers,
    value: &[Part],
    writer: &mut W,
) -> Result<(), WriteFault>
    ensures { Writes W.contents W.fault_count result writer.old writer.new
        (strings.worded_text (spec.set_words variable.now modifiers) value.now) }
{
    write_set_words(variable, modifiers, writer)?;
    write_string(b"", value, writer)
}

/// The word of a command that changes flags.
fn change_word(change: FlagChange) -> &'static [u8]
    ensures { result.now ≡ spec.change_word change }
{
    match change {
        FlagChange::Set => b"setflag",
        FlagChange::Add => b"addflag",
        FlagChange::Remove => b"removeflag",
    }
}

/// Writes the word of a command that changes flags, and the variable or `internal`.
#[tactic(auto, unfolding(crate::specs::Commands::changing_words))]
fn write_changing_words<W: Sink>(
    change: FlagChange,
    variable: Option<&Variable>,
    writer: &mut W,
) -> Result<(), WriteFault>
    ensures { Writes W.contents W.fault_count result writer.old writer.new
        (spec.changing_words change (option_copied variable.entry)) }
{
    let word = change_word(change);
    match variable {
        Some(variable) => {
            let variable = variable.as_ref();
            write_pieces(
                &[
                    Piece::Raw(word),
                    Piece::Raw(b" "),
                    Piece::Raw(scope_word(variable)),
                    Piece::Raw(name_of(variable)),
                    Piece::Raw(b") "),
                ],
                writer,
            )
        }
        None => write_pieces(&[Piece::Raw(word), Piece::Raw(b" internal ")], writer),
    }
}

/// Writes a command that changes flags.
#[tactic(auto, using(devices::proofs::Writing::writing))]
pub(crate) fn write_flags<W: Sink>(
    change: FlagChange,
    variable: Option<&Variable>,
    flags: &Strings<'_>,
    writer: &mut W,
) -> Result<(), WriteFault>
    ensures { Writes W.contents W.fault_count result writer.old writer.new
        (spec.changing_words change (option_copied variable.entry) ++ strings.list_text flags.now) }
{
    write_changing_words(change, variable, writer)?;
    write_list(b"", flags, writer)
}

/// Writes an `include`.
#[tactic(auto, unfolding(crate::specs::Commands::include_words))]
pub(crate) fn write_include<W: Sink>(
    location: Location,
    once: bool,
    optional: bool,
    name: &[u8],
    writer: &mut W,
) -> Result<(), WriteFault>
    ensures { Writes W.contents W.fault_count result writer.old writer.new
        (spec.include_words location once optional name.now) }
{
    write_pieces(
        &[
            Piece::Raw(b"include "),
            Piece::Raw(location.word()),
            Piece::Raw(given_word(once, b" once")),
            Piece::Raw(given_word(optional, b" optional")),
            Piece::Raw(b" "),
            Piece::Quoted(name),
        ],
        writer,
    )
}

/// Writes the line of a command.
pub(crate) fn write_line_number<W: Sink>(line: u32, writer: &mut W) -> Result<(), WriteFault>
    ensures { Writes W.contents W.fault_count result writer.old writer.new (at_line line) }
{
    write_number(b" @", u64::from(line), writer)
}
