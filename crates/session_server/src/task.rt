//! The tasks of a session's lines, with copies of their words.
ghost use Rattle.std.specs.Prelude.{◌≡◌, Some, IfOk};
ghost use Rattle.bench.specs.Bench.{BenchState};
ghost use Rattle.session_text.specs.SessionLine as line;
ghost use Rattle.session_server.specs.Session.{demand_at, demand_of};
ghost use Rattle.session_server.specs.view.Task.{IsTried, Tasks, limit_of};

use bench::{Bench, EditFault};
use date_text::Clock;
use octets::Octets;
use script_names::{Location, ScriptName};
use session_text::{SessionCommand, SessionWord, command_of_line};
use sieve_limits::{MAX_EXPECTED, MAX_ID, MAX_MAILBOXES, MAX_MESSAGE, MAX_TEXT};
use std::alloc::{AllocError, Global};

/// The subject of a put: a script's name, a message's id, or the list of mailboxes. Or the id of a
/// message of which the octets are expected.
#[derive(Drop)]
pub(crate) enum Subject {
    Script(ScriptName),
    Message(Octets),
    Expected(Octets),
    Mailboxes,
}

/// A question of a line to the bench. The answer changes nothing.
#[derive(Drop)]
pub(crate) enum Question {
    /// A line of no words asks nothing, and its answer is empty.
    Nothing,
    /// The code of a script.
    Code { name: ScriptName },
}

/// The task of a line, with copies of its words.
#[derive(Drop)]
pub(crate) enum Task {
    /// To answer a question.
    Ask { question: Question },
    /// To put the octets that follow.
    Put { subject: Subject, count: u64 },
    /// An edit that no octets follow is made already, or why it isn't.
    Made { outcome: Result<(), EditFault> },
    Report,
    /// Out of memory for the words of a command, which so many octets follow.
    Forgotten { count: u64 },
    Unreadable,
}

/// A script's name with a copy of its octets.
fn copied_name(
    alloc: Global,
    location: Location,
    name: &SessionWord<'_>,
) -> Result<ScriptName, AllocError>
    ensures { IfOk result (λ copy. copy ≡ record { location = location; name = name.now }) }
{
    Ok(ScriptName {
        location,
        name: name.copied(alloc)?,
    })
}

/// To put a script.
fn script_task(alloc: Global, location: Location, name: &SessionWord<'_>, count: u64) -> Task
    ensures { (state : BenchState)
        → Tasks result (Some (demand_of (line.script location name.now count))) state state }
{
    match copied_name(alloc, location, name) {
        Ok(name) => Task::Put {
            subject: Subject::Script(name),
            count,
        },
        Err(_) => Task::Forgotten { count },
    }
}

/// To put a message.
fn message_task(alloc: Global, id: &SessionWord<'_>, count: u64) -> Task
    ensures { (state : BenchState)
        → Tasks result (Some (demand_of (line.message id.now count))) state state }
{
    match id.copied(alloc) {
        Ok(id) => Task::Put {
            subject: Subject::Message(id),
            count,
        },
        Err(_) => Task::Forgotten { count },
    }
}

/// To expect a text of a message's verdict.
fn expect_task(alloc: Global, id: &SessionWord<'_>, count: u64) -> Task
    ensures { (state : BenchState)
        → Tasks result (Some (demand_of (line.expect id.now count))) state state }
{
    match id.copied(alloc) {
        Ok(id) => Task::Put {
            subject: Subject::Expected(id),
            count,
        },
        Err(_) => Task::Forgotten { count },
    }
}

/// To answer with the code of a script.
fn dump_task(alloc: Global, location: Location, name: &SessionWord<'_>) -> Task
    ensures { (state : BenchState)
        → Tasks result (Some (demand_of (line.dump location name.now))) state state }
{
    match copied_name(alloc, location, name) {
        Ok(name) => Task::Ask {
            question: Question::Code { name },
        },
        Err(_) => Task::Forgotten { count: 0 },
    }
}

/// Makes a script main.
#[tactic(auto, using(crate::proofs::Tried::trying))]
fn set_main(bench: &mut Bench, location: Location, name: &SessionWord<'_>) -> Result<(), EditFault>
    ensures { IsTried (Some (demand_of (line.main location name.now))) result bench.old bench.new }
{
    let name = copied_name(bench.allocator(), location, name)?;
    bench.set_main(name)
}

/// Leaves no script main.
#[tactic(auto, using(crate::proofs::Tried::trying))]
fn clear_main(bench: &mut Bench) -> Result<(), EditFault>
    ensures { IsTried (Some (demand_of line.no_main)) result bench.old bench.new }
{
    bench.clear_main();
    Ok(())
}

/// Renames a script.
#[tactic(auto, using(crate::proofs::Tried::trying))]
fn rename_script(
    bench: &mut Bench,
    location: Location,
    name: &SessionWord<'_>,
    new_location: Location,
    new_name: &SessionWord<'_>,
) -> Result<(), EditFault>
    ensures { IsTried
        (Some (demand_of (line.rename location name.now new_location new_name.now)))
        result bench.old bench.new }
{
    let from = copied_name(bench.allocator(), location, name)?;
    let to = copied_name(bench.allocator(), new_location, new_name)?;
    bench.rename_script(&from, to)
}

/// Removes a script.
#[tactic(auto, using(crate::proofs::Tried::trying))]
fn drop_script(
    bench: &mut Bench,
    location: Location,
    name: &SessionWord<'_>,
) -> Result<(), EditFault>
    ensures { IsTried
        (Some (demand_of (line.drop_script location name.now))) result bench.old bench.new }
{
    let name = copied_name(bench.allocator(), location, name)?;
    bench.remove_script(&name)
}

/// Removes a message. An id that is too long for an array isn't one of the bench.
#[tactic(auto, using(crate::proofs::Tried::trying))]
fn drop_message(bench: &mut Bench, id: &SessionWord<'_>) -> Result<(), EditFault>
    ensures { IsTried (Some (demand_of (line.drop_message id.now))) result bench.old bench.new }
{
    match id.short::<MAX_ID>() {
        Some(id) => bench.remove_message(id.as_slice()),
        None => Err(EditFault::TooLarge),
    }
}

/// Expects no text of a message's verdict. An id that is too long for an array isn't one of the
/// bench.
#[tactic(auto, using(crate::proofs::Tried::trying))]
fn clear_expected(bench: &mut Bench, id: &SessionWord<'_>) -> Result<(), EditFault>
    ensures { IsTried (Some (demand_of (line.no_expect id.now))) result bench.old bench.new }
{
    match id.short::<MAX_ID>() {
        Some(id) => bench.clear_expected(id.as_slice()),
        None => Err(EditFault::TooLarge),
    }
}

/// Sets the envelope's addresses.
#[tactic(auto, using(crate::proofs::Tried::trying))]
fn set_envelope(
    bench: &mut Bench,
    from: &SessionWord<'_>,
    to: &SessionWord<'_>,
) -> Result<(), EditFault>
    ensures { IsTried
        (Some (demand_of (line.envelope from.now to.now))) result bench.old bench.new }
{
    let from = from.copied(bench.allocator())?;
    let to = to.copied(bench.allocator())?;
    bench.set_envelope(from, to)
}

/// Sets the mailbox.
#[tactic(auto, using(crate::proofs::Tried::trying))]
fn set_mailbox(bench: &mut Bench, mailbox: &SessionWord<'_>) -> Result<(), EditFault>
    ensures { IsTried (Some (demand_of (line.mailbox mailbox.now))) result bench.old bench.new }
{
    let mailbox = mailbox.copied(bench.allocator())?;
    bench.set_mailbox(mailbox)
}

/// Gives a message addresses of its own.
#[tactic(auto, using(crate::proofs::Tried::trying))]
fn set_message_envelope(
    bench: &mut Bench,
    id: &SessionWord<'_>,
    from: &SessionWord<'_>,
    to: &SessionWord<'_>,
) -> Result<(), EditFault>
    ensures { IsTried (Some
        (demand_of (line.message_envelope id.now from.now to.now))) result bench.old bench.new }
{
    let id = id.copied(bench.allocator())?;
    let from = from.copied(bench.allocator())?;
    let to = to.copied(bench.allocator())?;
    bench.set_message_envelope(id.as_slice(), from, to)
}

/// Takes a message's own addresses from it. An id that is too long for an array isn't one of the
/// bench.
#[tactic(auto, using(crate::proofs::Tried::trying))]
fn clear_message_envelope(bench: &mut Bench, id: &SessionWord<'_>) -> Result<(), EditFault>
    ensures { IsTried
        (Some (demand_of (line.no_message_envelope id.now))) result bench.old bench.new }
{
    match id.short::<MAX_ID>() {
        Some(id) => bench.clear_message_envelope(id.as_slice()),
        None => Err(EditFault::TooLarge),
    }
}

/// Sets the clock.
#[tactic(auto, using(crate::proofs::Tried::trying))]
fn set_clock(bench: &mut Bench, clock: Clock) -> Result<(), EditFault>
    ensures { IsTried (Some (demand_of (line.clock clock))) result bench.old bench.new }
{
    bench.set_clock(clock);
    Ok(())
}

/// Leaves no clock.
#[tactic(auto, using(crate::proofs::Tried::trying))]
fn clear_clock(bench: &mut Bench) -> Result<(), EditFault>
    ensures { IsTried (Some (demand_of line.no_clock)) result bench.old bench.new }
{
    bench.clear_clock();
    Ok(())
}

/// The task of a line. An edit that no octets follow is made at once.
#[tactic(auto, using(crate::proofs::Tried::trying))]
pub(crate) fn task_of(bench: &mut Bench, line: &[u8]) -> Task
    ensures { Tasks result (demand_at bench.old.content.profile line.now) bench.old bench.new }
{
    let alloc = bench.allocator();
    let Some(command) = command_of_line(bench.profile(), line) else {
        return Task::Unreadable;
    };
    let outcome = match command {
        SessionCommand::Nothing => return Task::Ask {
            question: Question::Nothing,
        },
        SessionCommand::Report => return Task::Report,
        SessionCommand::Dump { location, name } => return dump_task(alloc, location, &name),
        SessionCommand::Script {
            location,
            name,
            count,
        } => return script_task(alloc, location, &name, count),
        SessionCommand::Message { id, count } => return message_task(alloc, &id, count),
        SessionCommand::Expect { id, count } => return expect_task(alloc, &id, count),
        SessionCommand::Mailboxes { count } => return Task::Put {
            subject: Subject::Mailboxes,
            count,
        },
        SessionCommand::Main { location, name } => set_main(bench, location, &name),
        SessionCommand::NoMain => clear_main(bench),
        SessionCommand::Rename {
            location,
            name,
            new_location,
            new_name,
        } => rename_script(bench, location, &name, new_location, &new_name),
        SessionCommand::DropScript { location, name } => drop_script(bench, location, &name),
        SessionCommand::DropMessage { id } => drop_message(bench, &id),
        SessionCommand::NoExpect { id } => clear_expected(bench, &id),
        SessionCommand::Envelope { from, to } => set_envelope(bench, &from, &to),
        SessionCommand::Mailbox { mailbox } => set_mailbox(bench, &mailbox),
        SessionCommand::MessageEnvelope { id, from, to } => {
            set_message_envelope(bench, &id, &from, &to)
        }
        SessionCommand::NoMessageEnvelope { id } => clear_message_envelope(bench, &id),
        SessionCommand::Clock { clock } => set_clock(bench, clock),
        SessionCommand::NoClock => clear_clock(bench),
    };
    Task::Made { outcome }
}

/// The most octets that may be put at a subject.
pub(crate) fn limit_of(subject: &Subject) -> u64
    ensures { result ≡ limit_of subject.now }
{
    match subject {
        Subject::Script(_) => MAX_TEXT as u64,
        Subject::Message(_) => MAX_MESSAGE as u64,
        Subject::Expected(_) => MAX_EXPECTED as u64,
        Subject::Mailboxes => MAX_MAILBOXES as u64,
    }
}
