//! Reports that run the messages that edits have touched, and the verdicts that are kept.

use super::{TURNS, holds, put_message, same};
use session_server::{
    Action, Bench, Counted, Entry, Extension, Meter, Octets, Profile, ReportFault, SessionEnd,
    session,
};
use std::io;
use std::io::{ErrorKind, Write};
use std::process::Abort;
use std::test::Fail;

/// Edits as a session's octets, the number of runs of the report after them, and its text.
type Step<'a> = (&'a [u8], u64, &'a [u8]);

/// Two messages, and a main script. For the first message it includes another script, if that is
/// there.
const TWO_MESSAGES: &[u8] =
    b"script personal main 71\nrequire \"include\"; if header \"Subject\" \"one\" { include :optional \"x\"; }message m1 14\nSubject: one\n\nmessage m2 14\nSubject: two\n\nmain personal main\n";

/// Makes edits.
fn edit(rt: &(impl AllocGlobal + Abort), bench: &mut Bench, edits: &[u8]) {
    let mut reader = Counted::new(edits);
    let mut writer = Counted::new(Vec::new(rt.alloc()));
    let end = session(bench, &mut Meter::new(), &mut reader, &mut writer, TURNS);
    let at = ("edits of so many octets", edits.len() as u64, 0);
    holds(rt, at, end == SessionEnd::Done);
}

/// Makes edits and then a report, and compares its text and its number of runs.
fn check_step(
    rt: &(impl AllocGlobal + Abort),
    bench: &mut Bench,
    meter: &mut Meter,
    (edits, runs, text): Step<'_>,
) -> Result<(), Fail> {
    edit(rt, bench, edits);
    let before = meter.runs();
    let mut writer = Counted::new(Vec::new(rt.alloc()));
    bench.report(meter, &mut writer)?;
    let at = (
        "a report after edits of so many octets",
        edits.len() as u64,
        runs,
    );
    same(rt, at, &writer.into_inner(), text);
    holds(rt, at, meter.runs().checked_sub(before) == Some(runs));
    Ok(())
}

/// Makes steps in turn.
fn check_steps(
    rt: &(impl AllocGlobal + Abort),
    bench: &mut Bench,
    steps: &[Step<'_>],
) -> Result<(), Fail> {
    let mut meter = Meter::new();
    for step in steps {
        check_step(rt, bench, &mut meter, *step)?;
    }
    Ok(())
}

#[test]
fn a_script_that_is_put_or_renamed_reruns_what_looked_it_up(rt: HostRuntime) -> Result<(), Fail> {
    let mut bench = Bench::new(rt.alloc())?;
    check_steps(
        &rt,
        &mut bench,
        &[
            (
                TWO_MESSAGES,
                2,
                b"main personal \"main\"\nenvelope \"\" \"\" mailbox \"INBOX\"\nscript personal \"main\" ok\nmessage \"m1\"\n  implicit \"INBOX\"\n  read personal \"main\"\n  read personal \"x\" missing\nmessage \"m2\"\n  implicit \"INBOX\"\n  read personal \"main\"\ntotal 2 messages 0 errors\n",
            ),
            (
                b"script personal x 8\ndiscard;",
                1,
                b"main personal \"main\"\nenvelope \"\" \"\" mailbox \"INBOX\"\nscript personal \"main\" ok\nscript personal \"x\" ok\nmessage \"m1\"\n  discard\n  read personal \"main\"\n  read personal \"x\"\nmessage \"m2\"\n  implicit \"INBOX\"\n  read personal \"main\"\ntotal 2 messages 0 errors\n",
            ),
            (
                b"rename personal main personal old\n",
                2,
                b"main personal \"main\"\nenvelope \"\" \"\" mailbox \"INBOX\"\nscript personal \"old\" ok\nscript personal \"x\" ok\nmessage \"m1\"\n  implicit \"INBOX\"\n  error personal \"main\" line 0 missing-script\n  read personal \"main\" missing\nmessage \"m2\"\n  implicit \"INBOX\"\n  error personal \"main\" line 0 missing-script\n  read personal \"main\" missing\ntotal 2 messages 2 errors\n",
            ),
            (
                b"rename personal old personal main\n",
                2,
                b"main personal \"main\"\nenvelope \"\" \"\" mailbox \"INBOX\"\nscript personal \"main\" ok\nscript personal \"x\" ok\nmessage \"m1\"\n  discard\n  read personal \"main\"\n  read personal \"x\"\nmessage \"m2\"\n  implicit \"INBOX\"\n  read personal \"main\"\ntotal 2 messages 0 errors\n",
            ),
        ],
    )
}

/// Puts and settings in turn, on a bench whose verdicts are kept.
fn check_puts(rt: &(impl AllocGlobal + Abort), bench: &mut Bench) -> Result<(), Fail> {
    check_steps(
        rt,
        bench,
        &[
            (
                b"",
                0,
                b"main personal \"main\"\nenvelope \"\" \"\" mailbox \"INBOX\"\nscript personal \"main\" ok\nscript personal \"x\" ok\nmessage \"m1\"\n  discard\n  read personal \"main\"\n  read personal \"x\"\nmessage \"m2\"\n  implicit \"INBOX\"\n  read personal \"main\"\ntotal 2 messages 0 errors\n",
            ),
            (
                b"script personal y 0\n",
                0,
                b"main personal \"main\"\nenvelope \"\" \"\" mailbox \"INBOX\"\nscript personal \"main\" ok\nscript personal \"x\" ok\nscript personal \"y\" ok\nmessage \"m1\"\n  discard\n  read personal \"main\"\n  read personal \"x\"\nmessage \"m2\"\n  implicit \"INBOX\"\n  read personal \"main\"\ntotal 2 messages 0 errors\n",
            ),
            (
                b"script personal x 8\ndiscard;",
                1,
                b"main personal \"main\"\nenvelope \"\" \"\" mailbox \"INBOX\"\nscript personal \"main\" ok\nscript personal \"x\" ok\nscript personal \"y\" ok\nmessage \"m1\"\n  discard\n  read personal \"main\"\n  read personal \"x\"\nmessage \"m2\"\n  implicit \"INBOX\"\n  read personal \"main\"\ntotal 2 messages 0 errors\n",
            ),
            (
                b"message m2 14\nSubject: two\n\n",
                1,
                b"main personal \"main\"\nenvelope \"\" \"\" mailbox \"INBOX\"\nscript personal \"main\" ok\nscript personal \"x\" ok\nscript personal \"y\" ok\nmessage \"m1\"\n  discard\n  read personal \"main\"\n  read personal \"x\"\nmessage \"m2\"\n  implicit \"INBOX\"\n  read personal \"main\"\ntotal 2 messages 0 errors\n",
            ),
            (
                b"mailbox Inbox2\n",
                2,
                b"main personal \"main\"\nenvelope \"\" \"\" mailbox \"Inbox2\"\nscript personal \"main\" ok\nscript personal \"x\" ok\nscript personal \"y\" ok\nmessage \"m1\"\n  discard\n  read personal \"main\"\n  read personal \"x\"\nmessage \"m2\"\n  implicit \"Inbox2\"\n  read personal \"main\"\ntotal 2 messages 0 errors\n",
            ),
            (
                b"envelope a@b.example \"\"\n",
                2,
                b"main personal \"main\"\nenvelope \"a@b.example\" \"\" mailbox \"Inbox2\"\nscript personal \"main\" ok\nscript personal \"x\" ok\nscript personal \"y\" ok\nmessage \"m1\"\n  discard\n  read personal \"main\"\n  read personal \"x\"\nmessage \"m2\"\n  implicit \"Inbox2\"\n  read personal \"main\"\ntotal 2 messages 0 errors\n",
            ),
        ],
    )
}

/// Removals, a rename and another main script in turn, after them.
fn check_removals(rt: &(impl AllocGlobal + Abort), bench: &mut Bench) -> Result<(), Fail> {
    check_steps(
        rt,
        bench,
        &[
            (
                b"drop-script personal x\n",
                1,
                b"main personal \"main\"\nenvelope \"a@b.example\" \"\" mailbox \"Inbox2\"\nscript personal \"main\" ok\nscript personal \"y\" ok\nmessage \"m1\"\n  implicit \"Inbox2\"\n  read personal \"main\"\n  read personal \"x\" missing\nmessage \"m2\"\n  implicit \"Inbox2\"\n  read personal \"main\"\ntotal 2 messages 0 errors\n",
            ),
            (
                b"rename personal y personal x\n",
                1,
                b"main personal \"main\"\nenvelope \"a@b.example\" \"\" mailbox \"Inbox2\"\nscript personal \"main\" ok\nscript personal \"x\" ok\nmessage \"m1\"\n  implicit \"Inbox2\"\n  read personal \"main\"\n  read personal \"x\"\nmessage \"m2\"\n  implicit \"Inbox2\"\n  read personal \"main\"\ntotal 2 messages 0 errors\n",
            ),
            (
                b"drop-message m1\n",
                0,
                b"main personal \"main\"\nenvelope \"a@b.example\" \"\" mailbox \"Inbox2\"\nscript personal \"main\" ok\nscript personal \"x\" ok\nmessage \"m2\"\n  implicit \"Inbox2\"\n  read personal \"main\"\ntotal 1 messages 0 errors\n",
            ),
            (
                b"script personal main 5\nkeep;",
                1,
                b"main personal \"main\"\nenvelope \"a@b.example\" \"\" mailbox \"Inbox2\"\nscript personal \"main\" ok\nscript personal \"x\" ok\nmessage \"m2\"\n  store \"Inbox2\"\n  read personal \"main\"\ntotal 1 messages 0 errors\n",
            ),
        ],
    )
}

#[test]
fn each_edit_reruns_what_it_touches(rt: HostRuntime) -> Result<(), Fail> {
    let mut bench = Bench::new(rt.alloc())?;
    begin(&rt, &mut bench)?;
    check_puts(&rt, &mut bench)?;
    check_removals(&rt, &mut bench)
}

/// Each setting touches its messages even if nothing changes.
#[test]
fn each_setting_reruns_what_it_touches(rt: HostRuntime) -> Result<(), Fail> {
    let profile = Profile::new()
        .with(Extension::Date)
        .with(Extension::Envelopes)
        .with(Extension::Mailbox);
    let mut bench = Bench::with_profile(rt.alloc(), profile)?;
    check_steps(
        &rt,
        &mut bench,
        &[
            (
                b"message m 0\nmessage n 0\n",
                2,
                b"main none\nenvelope \"\" \"\" mailbox \"INBOX\"\nwith date envelopes mailbox\nclock none\nmailboxes 0\nmessage \"m\"\n  implicit \"INBOX\"\nmessage \"n\"\n  implicit \"INBOX\"\ntotal 2 messages 0 errors\n",
            ),
            (
                b"clock 0 -0000\n",
                2,
                b"main none\nenvelope \"\" \"\" mailbox \"INBOX\"\nwith date envelopes mailbox\nclock 0 -0000\nmailboxes 0\nmessage \"m\"\n  implicit \"INBOX\"\nmessage \"n\"\n  implicit \"INBOX\"\ntotal 2 messages 0 errors\n",
            ),
            (
                b"clock 0 -0000\n",
                2,
                b"main none\nenvelope \"\" \"\" mailbox \"INBOX\"\nwith date envelopes mailbox\nclock 0 -0000\nmailboxes 0\nmessage \"m\"\n  implicit \"INBOX\"\nmessage \"n\"\n  implicit \"INBOX\"\ntotal 2 messages 0 errors\n",
            ),
            (
                b"no-clock\n",
                2,
                b"main none\nenvelope \"\" \"\" mailbox \"INBOX\"\nwith date envelopes mailbox\nclock none\nmailboxes 0\nmessage \"m\"\n  implicit \"INBOX\"\nmessage \"n\"\n  implicit \"INBOX\"\ntotal 2 messages 0 errors\n",
            ),
            (
                b"no-clock\n",
                2,
                b"main none\nenvelope \"\" \"\" mailbox \"INBOX\"\nwith date envelopes mailbox\nclock none\nmailboxes 0\nmessage \"m\"\n  implicit \"INBOX\"\nmessage \"n\"\n  implicit \"INBOX\"\ntotal 2 messages 0 errors\n",
            ),
            (
                b"mailboxes 3\na\nb",
                2,
                b"main none\nenvelope \"\" \"\" mailbox \"INBOX\"\nwith date envelopes mailbox\nclock none\nmailboxes 2\nmessage \"m\"\n  implicit \"INBOX\"\nmessage \"n\"\n  implicit \"INBOX\"\ntotal 2 messages 0 errors\n",
            ),
            (
                b"mailboxes 3\na\nb",
                2,
                b"main none\nenvelope \"\" \"\" mailbox \"INBOX\"\nwith date envelopes mailbox\nclock none\nmailboxes 2\nmessage \"m\"\n  implicit \"INBOX\"\nmessage \"n\"\n  implicit \"INBOX\"\ntotal 2 messages 0 errors\n",
            ),
            (
                b"message-envelope m a@b.example c\n",
                1,
                b"main none\nenvelope \"\" \"\" mailbox \"INBOX\"\nwith date envelopes mailbox\nclock none\nmailboxes 2\nmessage \"m\"\n  envelope \"a@b.example\" \"c\"\n  implicit \"INBOX\"\nmessage \"n\"\n  implicit \"INBOX\"\ntotal 2 messages 0 errors\n",
            ),
            (
                b"message-envelope m a@b.example c\n",
                1,
                b"main none\nenvelope \"\" \"\" mailbox \"INBOX\"\nwith date envelopes mailbox\nclock none\nmailboxes 2\nmessage \"m\"\n  envelope \"a@b.example\" \"c\"\n  implicit \"INBOX\"\nmessage \"n\"\n  implicit \"INBOX\"\ntotal 2 messages 0 errors\n",
            ),
            (
                b"no-message-envelope m\n",
                1,
                b"main none\nenvelope \"\" \"\" mailbox \"INBOX\"\nwith date envelopes mailbox\nclock none\nmailboxes 2\nmessage \"m\"\n  implicit \"INBOX\"\nmessage \"n\"\n  implicit \"INBOX\"\ntotal 2 messages 0 errors\n",
            ),
            (
                b"no-message-envelope m\n",
                1,
                b"main none\nenvelope \"\" \"\" mailbox \"INBOX\"\nwith date envelopes mailbox\nclock none\nmailboxes 2\nmessage \"m\"\n  implicit \"INBOX\"\nmessage \"n\"\n  implicit \"INBOX\"\ntotal 2 messages 0 errors\n",
            ),
            (
                b"",
                0,
                b"main none\nenvelope \"\" \"\" mailbox \"INBOX\"\nwith date envelopes mailbox\nclock none\nmailboxes 2\nmessage \"m\"\n  implicit \"INBOX\"\nmessage \"n\"\n  implicit \"INBOX\"\ntotal 2 messages 0 errors\n",
            ),
        ],
    )
}

#[test]
fn what_is_expected_reruns_nothing(rt: HostRuntime) -> Result<(), Fail> {
    let mut bench = Bench::new(rt.alloc())?;
    check_steps(
        &rt,
        &mut bench,
        &[
            (
                b"script personal main 9\ndiscard;\nmessage m1 0\nmain personal main\n",
                1,
                b"main personal \"main\"\nenvelope \"\" \"\" mailbox \"INBOX\"\nscript personal \"main\" ok\nmessage \"m1\"\n  discard\n  read personal \"main\"\ntotal 1 messages 0 errors\n",
            ),
            (
                b"expect m1 8\ndiscard\n",
                0,
                b"main personal \"main\"\nenvelope \"\" \"\" mailbox \"INBOX\"\nscript personal \"main\" ok\nmessage \"m1\"\n  discard\n  read personal \"main\"\n  expected\ntotal 1 messages 0 errors 0 unexpected\n",
            ),
            (
                b"expect m1 5\nkeep\n",
                0,
                b"main personal \"main\"\nenvelope \"\" \"\" mailbox \"INBOX\"\nscript personal \"main\" ok\nmessage \"m1\"\n  discard\n  read personal \"main\"\n  unexpected\ntotal 1 messages 0 errors 1 unexpected\n",
            ),
            (
                b"no-expect m1\n",
                0,
                b"main personal \"main\"\nenvelope \"\" \"\" mailbox \"INBOX\"\nscript personal \"main\" ok\nmessage \"m1\"\n  discard\n  read personal \"main\"\ntotal 1 messages 0 errors\n",
            ),
            (
                b"expect m1 8\ndiscard\nmessage m1 1\nx",
                1,
                b"main personal \"main\"\nenvelope \"\" \"\" mailbox \"INBOX\"\nscript personal \"main\" ok\nmessage \"m1\"\n  discard\n  read personal \"main\"\n  expected\ntotal 1 messages 0 errors 0 unexpected\n",
            ),
        ],
    )
}

/// The two messages, with the script that the first includes, and a report.
fn begin(rt: &(impl AllocGlobal + Abort), bench: &mut Bench) -> Result<(), Fail> {
    edit(rt, bench, TWO_MESSAGES);
    edit(rt, bench, b"script personal x 8\ndiscard;");
    let mut writer = Counted::new(Vec::new(rt.alloc()));
    bench.report(&mut Meter::new(), &mut writer)?;
    Ok(())
}

/// Whether a verdict is kept that discards the message and does no more.
fn is_discarded(bench: &Bench, id: &Octets) -> bool {
    match bench.verdict(id) {
        Some(outcome) => matches!(
            outcome.entries(),
            [Entry {
                action: Action::Discard,
                ..
            }]
        ),
        None => false,
    }
}

/// Puts a script anew that one of two messages has looked up. Compares their verdicts before the
/// next report and after it.
fn check_verdicts(
    rt: &(impl AllocGlobal + Abort),
    bench: &mut Bench,
    first: &Octets,
    second: &Octets,
) -> Result<(), Fail> {
    begin(rt, bench)?;
    edit(rt, bench, b"script personal x 8\ndiscard;");
    holds(
        rt,
        ("a stale message", 1, 0),
        bench.verdict(first).is_none(),
    );
    holds(
        rt,
        ("another message", 2, 0),
        bench.verdict(second).is_some(),
    );
    let mut writer = Counted::new(Vec::new(rt.alloc()));
    bench.report(&mut Meter::new(), &mut writer)?;
    holds(
        rt,
        ("a message that was run", 1, 1),
        is_discarded(bench, first),
    );
    bench.remove_message(first.as_slice())?;
    holds(rt, ("no message", 1, 2), bench.verdict(first).is_none());
    Ok(())
}

#[test]
fn a_verdict_is_kept_until_an_edit_touches_it(rt: HostRuntime) -> Result<(), Fail> {
    let mut bench = Bench::new(rt.alloc())?;
    let first = Octets::copied(rt.alloc(), b"m1")?;
    let second = Octets::copied(rt.alloc(), b"m2")?;
    check_verdicts(&rt, &mut bench, &first, &second)
}

/// A writer that takes nothing.
#[derive(Drop)]
struct Shut;

impl Write for Shut {
    fn write(&mut self, _buf: &[u8]) -> io::Result<usize> {
        Err(io::Error::from(ErrorKind::BrokenPipe))
    }

    fn flush(&mut self) -> io::Result<()> {
        Ok(())
    }
}

/// Reports to a writer that takes nothing, and then to one that does.
fn check_shut(rt: &(impl AllocGlobal + Abort), bench: &mut Bench) -> Result<(), Fail> {
    let mut meter = Meter::new();
    put_message(rt.alloc(), bench, b"a")?;
    put_message(rt.alloc(), bench, b"b")?;
    let shut = bench.report(&mut meter, &mut Counted::new(Shut));
    let fails = matches!(shut, Err(ReportFault::Write));
    holds(
        rt,
        ("a report to a shut writer", 2, meter.runs()),
        fails && meter.runs() == 2,
    );
    let mut writer = Counted::new(Vec::new(rt.alloc()));
    bench.report(&mut meter, &mut writer)?;
    holds(rt, ("the next report", 2, meter.runs()), meter.runs() == 2);
    Ok(())
}

#[test]
fn a_report_that_cannot_be_written_keeps_its_verdicts(rt: HostRuntime) -> Result<(), Fail> {
    let mut bench = Bench::new(rt.alloc())?;
    check_shut(&rt, &mut bench)
}
