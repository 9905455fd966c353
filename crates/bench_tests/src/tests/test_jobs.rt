//! The test of a message by a job: the text that is written, the end, and the number of runs.
//! `tools/checks` has the limits of its parts.

use super::{holds, personal, same};
use session_server::{
    Counted, Faults, Meter, Octets, Profile, ScriptName, TestEnd, TestJob, TestScript, test_bench,
};
use std::alloc::{AllocError, Global};
use std::process::Abort;

/// The names of personal scripts, with their texts.
type Texts<'a> = &'a [(&'a [u8], &'a [u8])];

/// A personal script of a job.
fn script_of(alloc: Global, name: &[u8], text: &[u8]) -> Result<TestScript, AllocError> {
    Ok(TestScript {
        name: personal(alloc, name)?,
        text: Octets::copied(alloc, text)?,
    })
}

/// A job with only the name of a main script.
fn bare(alloc: Global, main: ScriptName) -> TestJob {
    TestJob {
        profile: Profile::new(),
        from: Octets::from_vec(Vec::new(alloc)),
        to: Octets::from_vec(Vec::new(alloc)),
        mailbox: Octets::from_vec(Vec::new(alloc)),
        mailboxes: Octets::from_vec(Vec::new(alloc)),
        clock: None,
        scripts: Vec::new(alloc),
        main,
        id: Octets::from_vec(Vec::new(alloc)),
        message: Octets::from_vec(Vec::new(alloc)),
    }
}

/// Copies a text to a place.
fn set(alloc: Global, place: &mut Octets, text: &[u8]) -> Result<(), AllocError> {
    *place = Octets::copied(alloc, text)?;
    Ok(())
}

/// Gives a job scripts.
fn add_scripts(alloc: Global, job: &mut TestJob, texts: Texts<'_>) -> Result<(), AllocError> {
    for (name, text) in texts {
        job.scripts.push(script_of(alloc, *name, *text)?)?;
    }
    Ok(())
}

/// Gives a job a sender, a mailbox, a message and scripts.
fn fill(alloc: Global, job: &mut TestJob, texts: Texts<'_>) -> Result<(), AllocError> {
    set(alloc, &mut job.from, b"a@b.example")?;
    set(alloc, &mut job.mailbox, b"INBOX")?;
    set(alloc, &mut job.id, b"mail.txt")?;
    set(alloc, &mut job.message, b"Subject: one\n\n")?;
    add_scripts(alloc, job, texts)
}

/// A job with a sender and one message, on which the personal script `main` is run.
fn job_of(alloc: Global, texts: Texts<'_>) -> Result<TestJob, AllocError> {
    let mut job = bare(alloc, personal(alloc, b"main")?);
    fill(alloc, &mut job, texts)?;
    Ok(job)
}

/// Makes a test, and compares its end, its number of runs and the text that it writes.
fn check_job(
    rt: &(impl AllocGlobal + Abort),
    job: &TestJob,
    wanted: TestEnd,
    runs: u64,
    text: &[u8],
) {
    let mut meter = Meter::new();
    let mut writer = Counted::new(Vec::new(rt.alloc()));
    let end = test_bench(rt.alloc(), job, &mut meter, &mut writer);
    let counts = (job.scripts.len() as u64, text.len() as u64);
    let at = ("a job of so many scripts", counts.0, counts.1);
    holds(rt, at, end == wanted);
    holds(rt, at, meter.runs() == runs);
    same(rt, at, &writer.into_inner(), text);
}

/// Makes a test of scripts, and compares.
fn check_texts(
    rt: &(impl AllocGlobal + Abort),
    texts: Texts<'_>,
    wanted: TestEnd,
    text: &[u8],
) -> Result<(), AllocError> {
    let job = job_of(rt.alloc(), texts)?;
    check_job(rt, &job, wanted, 1, text);
    Ok(())
}

#[test]
fn messages_are_tested(rt: HostRuntime) -> Result<(), AllocError> {
    check_texts(
        &rt,
        &[(b"main", b"discard;\n")],
        TestEnd::Clean,
        b"main personal \"main\"\nenvelope \"a@b.example\" \"\" mailbox \"INBOX\"\nscript personal \"main\" ok\nmessage \"mail.txt\"\n  discard\n  read personal \"main\"\ntotal 1 messages 0 errors\n",
    )?;
    // The last script of a name is the one that is tested.
    check_texts(
        &rt,
        &[(b"main", b"kep;"), (b"a", b""), (b"main", b"keep;")],
        TestEnd::Clean,
        b"main personal \"main\"\nenvelope \"a@b.example\" \"\" mailbox \"INBOX\"\nscript personal \"a\" ok\nscript personal \"main\" ok\nmessage \"mail.txt\"\n  store \"INBOX\"\n  read personal \"main\"\ntotal 1 messages 0 errors\n",
    )?;
    // A script that isn't run has a fault.
    check_texts(
        &rt,
        &[(b"main", b"discard;\n"), (b"other", b"\nkep;")],
        TestEnd::Faulty,
        b"main personal \"main\"\nenvelope \"a@b.example\" \"\" mailbox \"INBOX\"\nscript personal \"main\" ok\nscript personal \"other\" line 2 unknown-command\nmessage \"mail.txt\"\n  discard\n  read personal \"main\"\ntotal 1 messages 0 errors\n",
    )?;
    // Each script is sound, and the run fails.
    check_texts(
        &rt,
        &[(b"main", b"redirect \"x\";")],
        TestEnd::Faulty,
        b"main personal \"main\"\nenvelope \"a@b.example\" \"\" mailbox \"INBOX\"\nscript personal \"main\" ok\nmessage \"mail.txt\"\n  implicit \"INBOX\"\n  error personal \"main\" line 1 bad-address\n  read personal \"main\"\ntotal 1 messages 1 errors\n",
    )?;
    check_texts(
        &rt,
        &[],
        TestEnd::Faulty,
        b"main personal \"main\"\nenvelope \"a@b.example\" \"\" mailbox \"INBOX\"\nmessage \"mail.txt\"\n  implicit \"INBOX\"\n  error personal \"main\" line 0 missing-script\n  read personal \"main\" missing\ntotal 1 messages 1 errors\n",
    )
}

/// Makes a test of a job, with room for 7 octets, and compares.
fn check_without_room(rt: &impl Abort, alloc: Global, job: &TestJob) {
    let mut meter = Meter::new();
    let mut room = [0; 7];
    let mut writer = Counted::new(room.as_mut_slice());
    let end = test_bench(alloc, job, &mut meter, &mut writer);
    let at = ("no room", writer.faults(), meter.runs());
    holds(rt, at, end == TestEnd::Write);
    holds(rt, at, writer.faults() == 1 && meter.runs() == 1);
    same(rt, at, &room, b"main pe");
}

/// Makes a test of one script, with room for 7 octets, and compares.
fn check_unwritten(rt: &(impl AllocGlobal + Abort), text: &[u8]) -> Result<(), AllocError> {
    let job = job_of(rt.alloc(), &[(b"main", text)])?;
    check_without_room(rt, rt.alloc(), &job);
    Ok(())
}

/// A writer without room takes a front of the report.
#[test]
fn a_report_of_a_job_that_cannot_be_written_is_told(rt: HostRuntime) -> Result<(), AllocError> {
    check_unwritten(&rt, b"discard;")?;
    check_unwritten(&rt, b"kep;")
}
