//! Tests a message by a bench that is made for it.
ghost use Rattle.std.specs.Prelude.{◌≡◌, [], ◌∷◌, ◌++◌, IfErr, IfOk, Ok, OnOk, Some, length, map};
ghost use Rattle.devices.specs.Writers.{Wrote, WroteFront};
ghost use Rattle.sieve_run.specs.Meter.{next_run};
ghost use Rattle.bench.specs.Content.{after, put_message, set_for_all};
ghost use Rattle.bench.specs.Edits.{envelope_edits};
ghost use Rattle.bench.specs.Test.{TestEnds, TestRuns, after_all, edits_of, envelope_of, made_by, put_of};
ghost use Rattle.bench.specs.declared.setting.Setting.TheVariants as common;
ghost use Rattle.bench.specs.view.Refused.{Refused};
ghost use Rattle.bench.specs.view.Tested.{ReportEnds};

use crate::bench::Bench;
use crate::fault::{EditFault, ReportFault};
use crate::setting::Setting;
use crate::test_end::TestEnd;
use crate::test_job::{TestJob, TestScript};
use date_text::Clock;
use devices::Sink;
use octets::Octets;
use sieve_run::{Addresses, Meter};
use std::alloc::Global;

/// Makes the settings of a job: the addresses, then the mailbox, then the list of mailboxes, then
/// the clock.
fn set_delivery(bench: &mut Bench, job: &TestJob) -> Result<(), EditFault>
    ensures ok { OnOk result (after_all bench.old.content (envelope_edits (envelope_of job.now))
        ≡ Ok bench.new.content) }
    ensures err { IfErr result (λ fault. Refused fault
        (after_all bench.old.content (envelope_edits (envelope_of job.now)))) }
{
    let alloc = bench.allocator();
    let from = Octets::copied(alloc, job.from.as_slice())?;
    let to = Octets::copied(alloc, job.to.as_slice())?;
    bench.set(Setting::Addresses(Addresses { from, to }))?;
    let mailbox = Octets::copied(alloc, job.mailbox.as_slice())?;
    bench.set(Setting::Mailbox(mailbox))?;
    let mailboxes = Octets::copied(alloc, job.mailboxes.as_slice())?;
    bench.set(Setting::Mailboxes(mailboxes))?;
    bench.set(Setting::Clock(copied_clock(&job.clock)))
}

/// A copy of the clock, where there is one.
fn copied_clock(clock: &Option<Clock>) -> Option<Clock>
    ensures { result ≡ clock.now }
{
    match clock {
        Some(clock) => Some(clock.copied()),
        None => None,
    }
}

/// Puts a copy of a script of a job.
fn put_copied(bench: &mut Bench, script: &TestScript) -> Result<(), EditFault>
    ensures ok { OnOk result (after bench.old.content (put_of script.now) ≡ Ok bench.new.content) }
    ensures err { IfErr result
        (λ fault. Refused fault (after bench.old.content (put_of script.now))) }
{
    let alloc = bench.allocator();
    let name = script.name.copy(alloc)?;
    let text = Octets::copied(alloc, script.text.as_slice())?;
    bench.put_script(name, text)
}

/// Puts the scripts of a job, in their order.
fn put_scripts(bench: &mut Bench, scripts: &[TestScript]) -> Result<(), EditFault>
    ensures ok { OnOk result
        (after_all bench.old.content (map put_of scripts.now) ≡ Ok bench.new.content) }
    ensures err { IfErr result
        (λ fault. Refused fault (after_all bench.old.content (map put_of scripts.now))) }
{
    for script in scripts {
        put_copied(bench, script)?;
    }
    Ok(())
}

/// Names the script of a job that is run, then puts its message.
fn put_sample(bench: &mut Bench, job: &TestJob) -> Result<(), EditFault>
    ensures ok { OnOk result (after_all bench.old.content
        (set_for_all (common.Main (Some job.now.main))
        ∷ put_message job.now.id job.now.message ∷ []) ≡ Ok bench.new.content) }
    ensures err { IfErr result (λ fault. Refused fault (after_all bench.old.content
        (set_for_all (common.Main (Some job.now.main))
        ∷ put_message job.now.id job.now.message ∷ []))) }
    ensures stale { bench.old.content.messages ≡ []
        → OnOk result (bench.new.stale ≡ job.now.id ∷ []) }
{
    let alloc = bench.allocator();
    let main = job.main.copy(alloc)?;
    bench.set(Setting::Main(Some(main)))?;
    let id = Octets::copied(alloc, job.id.as_slice())?;
    let message = Octets::copied(alloc, job.message.as_slice())?;
    bench.put_message(id, message)
}

/// Makes the edits of a job on a bench.
fn make_edits(bench: &mut Bench, job: &TestJob) -> Result<(), EditFault>
    ensures ok { OnOk result
        (after_all bench.old.content (edits_of job.now) ≡ Ok bench.new.content) }
    ensures err { IfErr result
        (λ fault. Refused fault (after_all bench.old.content (edits_of job.now))) }
    ensures stale { bench.old.content.messages ≡ []
        → OnOk result (bench.new.stale ≡ job.now.id ∷ []) }
{
    set_delivery(bench, job)?;
    put_scripts(bench, &job.scripts)?;
    put_sample(bench, job)
}

/// A new bench of a job's profile with the edits of the job.
#[tactic(auto, unfolding(crate::specs::Test::made_by))]
fn bench_of(alloc: Global, job: &TestJob) -> Result<Bench, EditFault>
    ensures ok { IfOk result (λ bench. made_by job.now ≡ Ok bench.content) }
    ensures err { IfErr result (λ fault. Refused fault (made_by job.now)) }
    ensures stale { IfOk result (λ bench. bench.stale ≡ job.now.id ∷ []) }
{
    let mut bench = Bench::with_profile(alloc, job.profile)?;
    make_edits(&mut bench, job)?;
    Ok(bench)
}

/// Writes the report of a bench, and says how that ends.
fn report_end<W: Sink>(bench: &mut Bench, meter: &mut Meter, writer: &mut W) -> TestEnd
    requires { length bench.old.stale ≡ 1 }
    ensures ends { ReportEnds result bench.old.content
        (Wrote W.contents W.fault_count writer.old writer.new)
        (WroteFront W.contents W.fault_count writer.old writer.new) (writer.new ≡ writer.old) }
    ensures runs { meter.new ≡ next_run meter.old }
{
    match bench.report(meter, writer) {
        Ok(()) if bench.is_clean() => TestEnd::Clean,
        Ok(()) => TestEnd::Faulty,
        Err(ReportFault::Write) => TestEnd::Write,
        Err(ReportFault::NoMemory) => TestEnd::NoMemory,
    }
}

/// Makes the edits of a job on a new bench of its profile, and writes the report of that bench. The
/// edits are in the order envelope, mailbox, list of mailboxes, clock, scripts, main script,
/// message.
///
/// `Clean` says that the report was written, that no script has a fault, and that the message has
/// no error. `Faulty` says that it was written and that a script has a fault or the message an
/// error. `TooLarge` and `Full` are the refusal of the first edit that is refused; nothing was
/// written. `Write`: the writer failed, and a front of the report was written. `NoMemory`: the
/// bench, an edit or the report was out of memory; nothing was written. The meter counts one run
/// for a report, also for one that was out of memory.
pub fn test_bench<W: Sink>(
    alloc: Global,
    job: &TestJob,
    meter: &mut Meter,
    writer: &mut W,
) -> TestEnd
    ensures ends { TestEnds result job.now (Wrote W.contents W.fault_count writer.old writer.new)
        (WroteFront W.contents W.fault_count writer.old writer.new) (writer.new ≡ writer.old) }
    ensures runs { TestRuns result job.now meter.old meter.new }
{
    match bench_of(alloc, job) {
        Ok(mut bench) => report_end(&mut bench, meter, writer),
        Err(EditFault::TooLarge) => TestEnd::TooLarge,
        Err(EditFault::Full) => TestEnd::Full,
        Err(EditFault::NoMemory) => TestEnd::NoMemory,
        Err(EditFault::NoSuchScript | EditFault::NameTaken | EditFault::NoSuchMessage) => {
            unreachable!("a job removes and renames nothing")
        }
    }
}
