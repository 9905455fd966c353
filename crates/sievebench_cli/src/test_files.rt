//! The files that a test reads. They are the list of mailboxes, the scripts of two folders, the
//! main script and the message.

use crate::files::{ReadFault, octets_at, script_name};
use crate::folder::read_folder;
use session_server::{
    Clock, CommandWord, Location, Octets, Profile, ScriptName, TestJob, TestScript, TestWords,
};
use sieve_limits::{MAX_ADDRESS, MAX_MAILBOX, MAX_MAILBOXES, MAX_MESSAGE, MAX_NAME, MAX_TEXT};
use std::alloc::{AllocError, Global};
use std::rt::Files;

/// The mailbox that mail is kept in if the words name none.
const DEFAULT_MAILBOX: &str = "INBOX";

/// A test whose files were read.
#[derive(Drop)]
pub(crate) struct TestInput {
    pub job: TestJob,
    /// The path of the list of mailboxes, if the words give one.
    pub mailboxes: Vec<u8>,
    /// The path of each script of the job.
    pub paths: Vec<Vec<u8>>,
}

/// Reads the files of a test. First the list of mailboxes, then the personal folder and the global
/// one. Then the main script, and then the message. The main script is personal, under the name of
/// its file, and goes last among the scripts.
pub(crate) fn read_test<R: Files + AllocGlobal>(
    rt: &R,
    profile: Profile,
    clock: Option<Clock>,
    words: &TestWords,
) -> Result<TestInput, ReadFault> {
    let mut input = TestInput::new(rt.alloc(), profile, clock);
    read_files(rt, words, &mut input)?;
    Ok(input)
}

/// Reads the files of a test, and adds the other words.
fn read_files<R: Files + AllocGlobal>(
    rt: &R,
    words: &TestWords,
    input: &mut TestInput,
) -> Result<(), ReadFault> {
    if let Some(path) = &words.mailboxes {
        read_mailboxes(rt, path.as_str(), input)?;
    }
    if let Some(folder) = &words.personal {
        read_folder(rt, Location::Personal, folder.as_str(), input)?;
    }
    if let Some(folder) = &words.global {
        read_folder(rt, Location::Global, folder.as_str(), input)?;
    }
    read_main(rt, words.script.as_str(), input)?;
    let mail = words.mail.as_str().as_bytes();
    input.job.message = Octets::from_vec(octets_at(rt, mail, MAX_MESSAGE)?);
    Ok(fill(rt.alloc(), words, &mut input.job)?)
}

/// Reads the list of mailboxes at a path.
fn read_mailboxes<R: Files + AllocGlobal>(
    rt: &R,
    path: &str,
    input: &mut TestInput,
) -> Result<(), ReadFault> {
    let text = octets_at(rt, path.as_bytes(), MAX_MAILBOXES)?;
    input.mailboxes = Vec::from_slice(rt.alloc(), path.as_bytes())?;
    input.job.mailboxes = Octets::from_vec(text);
    Ok(())
}

/// Reads the main script at a path.
fn read_main<R: Files + AllocGlobal>(
    rt: &R,
    path: &str,
    input: &mut TestInput,
) -> Result<(), ReadFault> {
    let text = octets_at(rt, path.as_bytes(), MAX_TEXT)?;
    let name = script_name(path).as_bytes();
    input.add(
        rt.alloc(),
        (Location::Personal, name),
        path.as_bytes(),
        text,
    )?;
    input.job.main.name = Octets::copied(rt.alloc(), name)?;
    Ok(())
}

/// Adds the words of a test that name no file, and the message's path.
fn fill(alloc: Global, words: &TestWords, job: &mut TestJob) -> Result<(), AllocError> {
    set(alloc, &mut job.from, text_or(&words.from, ""))?;
    set(alloc, &mut job.to, text_or(&words.to, ""))?;
    set(
        alloc,
        &mut job.mailbox,
        text_or(&words.mailbox, DEFAULT_MAILBOX),
    )?;
    set(alloc, &mut job.id, words.mail.as_str())
}

/// Copies a text to a place.
fn set(alloc: Global, place: &mut Octets, text: &str) -> Result<(), AllocError> {
    *place = Octets::copied(alloc, text.as_bytes())?;
    Ok(())
}

/// An option's value, or another text if it isn't given.
fn text_or<'a>(value: &'a Option<CommandWord>, other: &'a str) -> &'a str {
    match value {
        Some(value) => value.as_str(),
        None => other,
    }
}

/// No octets.
fn empty(alloc: Global) -> Octets {
    Octets::from_vec(Vec::new(alloc))
}

impl TestInput {
    /// A test of nothing, under a profile and with a clock.
    fn new(alloc: Global, profile: Profile, clock: Option<Clock>) -> TestInput {
        let job = TestJob {
            profile,
            from: empty(alloc),
            to: empty(alloc),
            mailbox: empty(alloc),
            mailboxes: empty(alloc),
            clock,
            scripts: Vec::new(alloc),
            main: ScriptName::new(Location::Personal, Vec::new(alloc)),
            id: empty(alloc),
            message: empty(alloc),
        };
        TestInput {
            job,
            mailboxes: Vec::new(alloc),
            paths: Vec::new(alloc),
        }
    }

    /// Adds a script that was read at a path.
    pub(crate) fn add(
        &mut self,
        alloc: Global,
        (location, name): (Location, &[u8]),
        path: &[u8],
        text: Vec<u8>,
    ) -> Result<(), AllocError> {
        self.paths.push(Vec::from_slice(alloc, path)?)?;
        let name = ScriptName::new(location, Vec::from_slice(alloc, name)?);
        let text = Octets::from_vec(text);
        Ok(self.job.scripts.push(TestScript { name, text })?)
    }

    /// The first word or path that names something past its limit. The values of the options come
    /// before all paths. Paths come in the order in which they are read. If nothing else is past
    /// its limit, it is the message's path.
    pub(crate) fn first_too_large(&self) -> &[u8] {
        let job = &self.job;
        if job.from.as_slice().len() > MAX_ADDRESS {
            return job.from.as_slice();
        }
        if job.to.as_slice().len() > MAX_ADDRESS {
            return job.to.as_slice();
        }
        if job.mailbox.as_slice().len() > MAX_MAILBOX {
            return job.mailbox.as_slice();
        }
        if job.mailboxes.as_slice().len() > MAX_MAILBOXES {
            return self.mailboxes.as_slice();
        }
        for (script, path) in job.scripts.iter().zip(self.paths.iter()) {
            if is_too_large(script) {
                return path.as_slice();
            }
        }
        job.id.as_slice()
    }
}

/// Whether a script's text or its name is past its limit.
fn is_too_large(script: &TestScript) -> bool {
    script.name.name.as_slice().len() > MAX_NAME || script.text.as_slice().len() > MAX_TEXT
}
