//! The runs and the lines of a report (docs/FORMATS.md).
ghost use Rattle.std.specs.Prelude.{◌≡◌, [], ◌∷◌, OnOk, OnErr, count_by, is_some, length};
ghost use Rattle.std.specs.List.{flat_map, list_any};
ghost use Rattle.named_list.specs.Named.{IsUnique};
ghost use Rattle.devices.specs.Writers.{Writes};
ghost use Rattle.bench.specs.Bench.{RefusedAmong};
ghost use Rattle.bench.specs.Report.{script_line, verdict_by, message_lines, error_count, profile_lines, unexpected_count, site_lines, total_line, report_with};
ghost use Rattle.bench.specs.view.Lines.{lookup_text, told_text, verdict_texts};
ghost use Rattle.bench.specs.view.Site.{site_as};
ghost use Rattle.sieve_run.specs.Meter.{runs_after};
ghost use Rattle.bench.specs.Test.{is_clean_with};
ghost use Rattle.bench.specs.view.Entry.{KeepsDue, disagrees, judged_of, messages_of, stale_of};

use crate::clock_line::write_clock_line;
use crate::entry::EntryBox;
use crate::profile_line::write_profile;
use crate::report_lines::{
    write_addresses, write_envelope, write_error_line, write_expectation, write_implicit_line,
    write_mailboxes, write_main, write_message, write_read_line, write_script, write_told_entry,
    write_total,
};
use crate::scripts::Scripts;
use crate::site::Site;
use devices::{Sink, WriteFault};
use named_list::NamedList;
use octets::Octets;
use sieve_profile::Profile;
use sieve_run::{Envelope, Meter, Verdict};
use std::alloc::{AllocError, Global};

/// Runs the main script on the stale messages, in their order.
pub(crate) fn run_stale(
    alloc: Global,
    site: &Site<'_>,
    messages: &mut NamedList<EntryBox>,
    meter: &mut Meter,
) -> Result<(), AllocError>
    requires { KeepsDue (verdict_by (site_as site.now)) messages.old.entries }
    ensures messages { messages_of messages.new.entries ≡ messages_of messages.old.entries }
    ensures due { KeepsDue (verdict_by (site_as site.now)) messages.new.entries }
    ensures unique { IsUnique messages.new }
    ensures stale { OnOk result (stale_of messages.new.entries ≡ []) }
    ensures runs { OnOk result
        (meter.new ≡ runs_after (length (stale_of messages.old.entries)) meter.old) }
    ensures refused { OnErr result (RefusedAmong (stale_of messages.old.entries)
        (stale_of messages.new.entries) meter.old meter.new) }
{
    let count = messages.len();
    for index in 0..count {
        if let Some(entry) = messages.get_index_mut(index) {
            entry.refresh(alloc, site, meter)?;
        }
    }
    Ok(())
}

/// Writes the lines of the actions, and of where each comes from if that is printed.
#[tactic(auto, using(crate::proofs::Writing::writing))]
fn write_told_actions<W: Sink>(
    traced: bool,
    verdict: &Verdict,
    writer: &mut W,
) -> Result<(), WriteFault>
    ensures { Writes W.contents W.fault_count result writer.old writer.new
        (flat_map (told_text traced) verdict.now.entries) }
{
    let entries = verdict.entries();
    for entry in entries {
        write_told_entry(traced, entry, writer)?;
    }
    Ok(())
}

/// Writes the lines of the looked-up names.
#[tactic(auto, using(crate::proofs::Writing::writing))]
fn write_lookups<W: Sink>(verdict: &Verdict, writer: &mut W) -> Result<(), WriteFault>
    ensures { Writes W.contents W.fault_count result writer.old writer.new
        (flat_map lookup_text verdict.now.lookups) }
{
    let lookups = verdict.lookups();
    for (name, is_present) in lookups {
        write_read_line(name, *is_present, writer)?;
    }
    Ok(())
}

/// Writes the lines of scripts.
#[tactic(auto, using(crate::proofs::Writing::writing))]
fn write_scripts<W: Sink>(scripts: &Scripts, writer: &mut W) -> Result<(), WriteFault>
    ensures { Writes W.contents W.fault_count result writer.old writer.new
        (flat_map (script_line scripts.now.profile) scripts.now.scripts) }
{
    for (name, script) in scripts.by_name() {
        write_script(name, script, writer)?;
    }
    Ok(())
}

/// Writes the lines of a verdict.
fn write_verdict<W: Sink>(
    traced: bool,
    envelope: &Envelope,
    verdict: &Verdict,
    writer: &mut W,
) -> Result<(), WriteFault>
    ensures { Writes W.contents W.fault_count result writer.old writer.new
        (verdict_texts traced envelope.now.mailbox verdict.now) }
{
    write_told_actions(traced, verdict, writer)?;
    write_implicit_line(envelope, verdict, writer)?;
    write_error_line(verdict, writer)?;
    write_lookups(verdict, writer)
}

/// Writes the lines of a message, where its verdict is kept.
fn write_entry<W: Sink>(
    site: &Site<'_>,
    id: &Octets,
    entry: &EntryBox,
    writer: &mut W,
) -> Result<(), WriteFault>
    ensures { Writes W.contents W.fault_count result writer.old writer.new
        (flat_map (message_lines (site_as site.now)) (judged_of ((id.now, entry.now) ∷ []))) }
{
    match entry.kept() {
        Some(verdict) => write_judged(site, id, entry, verdict, writer),
        None => Ok(()),
    }
}

/// Writes the lines of a message with the verdict on it, and whether the verdict is as expected.
fn write_judged<W: Sink>(
    site: &Site<'_>,
    id: &Octets,
    entry: &EntryBox,
    verdict: &Verdict,
    writer: &mut W,
) -> Result<(), WriteFault>
    ensures { Writes W.contents W.fault_count result writer.old writer.new
        (message_lines (site_as site.now) (record {
          id = id.now;
          addresses = entry.now.addresses;
          verdict = verdict.now;
          expected = entry.now.expected;
        })) }
{
    write_message(id, writer)?;
    write_addresses(entry.addresses(), writer)?;
    write_verdict(site.is_traced(), site.envelope, verdict, writer)?;
    write_expectation(site.envelope, verdict, entry.expected(), writer)
}

/// Writes the lines of all messages whose verdicts are kept.
#[tactic(auto, using(crate::proofs::Writing::writing))]
fn write_kept<W: Sink>(
    site: &Site<'_>,
    messages: &NamedList<EntryBox>,
    writer: &mut W,
) -> Result<(), WriteFault>
    ensures { Writes W.contents W.fault_count result writer.old writer.new
        (flat_map (message_lines (site_as site.now)) (judged_of messages.now.entries)) }
{
    for (id, entry) in messages.iter() {
        write_entry(site, id, entry, writer)?;
    }
    Ok(())
}

/// The number of kept verdicts that have an error.
fn error_count(messages: &NamedList<EntryBox>) -> usize
    ensures { result ≡ error_count (judged_of messages.now.entries) }
{
    messages
        .iter()
        .filter(|(_, entry)| entry.has_error())
        .count()
}

/// Whether a text is expected of some message's verdict.
fn are_expecting(messages: &NamedList<EntryBox>) -> bool
    ensures { result ≡ list_any (λ e. is_some e.1.expected) messages.now.entries }
{
    messages.iter().any(|(_, entry)| entry.is_expecting())
}

/// The number of kept verdicts that are not as they are expected to be.
fn unlike_count(mailbox: &[u8], messages: &NamedList<EntryBox>) -> usize
    ensures { result
        ≡ count_by (λ e. disagrees mailbox.now e.1.expected e.1.kept) messages.now.entries }
{
    messages
        .iter()
        .filter(|(_, entry)| entry.disagrees(mailbox))
        .count()
}

/// The number of verdicts that are not as expected, where a text is expected of some.
fn unexpected_count(mailbox: &[u8], messages: &NamedList<EntryBox>) -> Option<u64>
    requires { stale_of messages.now.entries ≡ [] }
    ensures { result ≡ unexpected_count mailbox.now (judged_of messages.now.entries) }
{
    if are_expecting(messages) {
        Some(unlike_count(mailbox, messages) as u64)
    } else {
        None
    }
}

/// Whether no script has a fault, and no verdict that is kept an error.
pub(crate) fn is_clean(site: &Site<'_>, messages: &NamedList<EntryBox>) -> bool
    ensures { result ≡ is_clean_with (site_as site.now) (judged_of messages.now.entries) }
{
    site.scripts.are_sound() && error_count(messages) == 0
}

/// Writes the lines that depend on a profile's extensions.
fn write_profile_lines<W: Sink>(
    profile: Profile,
    envelope: &Envelope,
    writer: &mut W,
) -> Result<(), WriteFault>
    ensures { Writes W.contents W.fault_count result writer.old writer.new
        (profile_lines profile envelope.now) }
{
    write_profile(profile, writer)?;
    write_clock_line(profile, &envelope.clock, writer)?;
    write_mailboxes(profile, envelope.mailboxes.as_slice(), writer)
}

/// Writes the lines before the messages.
fn write_site<W: Sink>(site: &Site<'_>, writer: &mut W) -> Result<(), WriteFault>
    ensures { Writes W.contents W.fault_count result writer.old writer.new
        (site_lines (site_as site.now)) }
{
    write_main(site.main, writer)?;
    write_envelope(site.envelope, writer)?;
    write_profile_lines(site.scripts.profile(), site.envelope, writer)?;
    write_scripts(site.scripts, writer)
}

/// Writes a report with the verdicts that are kept.
pub(crate) fn write_report<W: Sink>(
    site: &Site<'_>,
    messages: &NamedList<EntryBox>,
    writer: &mut W,
) -> Result<(), WriteFault>
    requires { stale_of messages.now.entries ≡ [] }
    ensures { Writes W.contents W.fault_count result writer.old writer.new
        (report_with (site_as site.now) (judged_of messages.now.entries)) }
{
    write_site(site, writer)?;
    write_kept(site, messages, writer)?;
    write_totals(site.envelope, messages, writer)
}

/// Writes the last line.
fn write_totals<W: Sink>(
    envelope: &Envelope,
    messages: &NamedList<EntryBox>,
    writer: &mut W,
) -> Result<(), WriteFault>
    requires { stale_of messages.now.entries ≡ [] }
    ensures { Writes W.contents W.fault_count result writer.old writer.new (total_line
        (length (judged_of messages.now.entries)) (error_count (judged_of messages.now.entries))
        (unexpected_count envelope.now.mailbox (judged_of messages.now.entries))) }
{
    let unexpected = unexpected_count(envelope.mailbox.as_slice(), messages);
    write_total(
        messages.len() as u64,
        error_count(messages) as u64,
        unexpected,
        writer,
    )
}
