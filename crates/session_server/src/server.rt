//! A session: commands in, replies out.
ghost use Rattle.std.specs.Prelude.{◌≡◌, ◌≤◌, ◌<◌, ◌+◌, ℕ, List, Option, codes, nat_lt, if◌then◌else◌};
ghost use Rattle.devices.specs.Devices.{HasRisen};
ghost use Rattle.devices.specs.Writers.{Wrote, WroteFront, Writes};
ghost use Rattle.bench.specs.Bench.{BenchState};
ghost use Rattle.sieve_run.specs.Library.{Lookup};
ghost use Rattle.sieve_run.specs.view.Found.{FoundAs};
ghost use Rattle.session_text.specs.view.Input.{unused, fuel, Knows, Reads};
ghost use Rattle.session_server.specs.Session as spec;
ghost use Rattle.std.specs.Io.KnownBytes.{IsAtEnd};
ghost use Rattle.session_server.specs.view.Task.{IsTried, Tasks, edit_of};
ghost use Rattle.session_server.specs.view.Progress as progress;

use crate::status::SessionEnd;
use crate::task::{Question, Subject, Task, limit_of, task_of};
use bench::{Bench, EditFault, ReportFault, write_code};
use devices::{Sink, Source, WriteFault, write_out};
use octets::Octets;
use session_text::{Input, Line, Taken, take_octets};
use sieve_run::{Found, Meter};
use std::alloc::Global;

/// How a command went.
#[derive(Drop)]
pub(crate) enum Progress {
    /// The next command follows.
    Continues,
    /// The session ends.
    Ends(SessionEnd),
}

/// The reply to an edit.
fn reply_line(outcome: Result<(), EditFault>) -> &'static [u8]
    ensures { result.now ≡ progress.reply_line outcome }
{
    match outcome {
        Ok(()) => b"ok\n",
        Err(EditFault::NoSuchScript) => b"no no-such-script\n",
        Err(EditFault::NameTaken) => b"no name-taken\n",
        Err(EditFault::NoSuchMessage) => b"no no-such-message\n",
        Err(EditFault::Full) => b"no full\n",
        Err(EditFault::TooLarge) => b"no too-large\n",
        Err(EditFault::NoMemory) => b"no no-memory\n",
    }
}

/// Writes the reply to an edit.
fn answer<W: Sink>(outcome: Result<(), EditFault>, writer: &mut W) -> Progress
    ensures { progress.Continues result
        (Wrote W.contents W.fault_count writer.old writer.new (progress.reply_line outcome))
        (WroteFront W.contents W.fault_count writer.old writer.new (progress.reply_line outcome)) }
{
    match write_out(reply_line(outcome), writer) {
        Ok(()) => Progress::Continues,
        Err(_) => Progress::Ends(SessionEnd::Write),
    }
}

/// Writes the last reply where a line is no command.
fn refuse_line<W: Sink>(writer: &mut W) -> Progress
    ensures { progress.EndsBy SessionEnd.Syntax result
        (Wrote W.contents W.fault_count writer.old writer.new (codes "no syntax\n"))
        (WroteFront W.contents W.fault_count writer.old writer.new (codes "no syntax\n")) }
{
    match write_out(b"no syntax\n", writer) {
        Ok(()) => Progress::Ends(SessionEnd::Syntax),
        Err(_) => Progress::Ends(SessionEnd::Write),
    }
}

/// Writes the last reply where octets end too early.
fn refuse_octets<W: Sink>(writer: &mut W) -> Progress
    ensures { progress.EndsBy SessionEnd.Truncated result
        (Wrote W.contents W.fault_count writer.old writer.new (codes "no truncated\n"))
        (WroteFront W.contents W.fault_count writer.old writer.new (codes "no truncated\n")) }
{
    match write_out(b"no truncated\n", writer) {
        Ok(()) => Progress::Ends(SessionEnd::Truncated),
        Err(_) => Progress::Ends(SessionEnd::Write),
    }
}

/// Puts octets at a name or an id.
#[tactic(auto, using(crate::proofs::Tried::trying))]
fn keep(bench: &mut Bench, subject: Subject, octets: Vec<u8>) -> Result<(), EditFault>
    ensures { progress.Attempts (edit_of subject octets.items) result bench.old bench.new }
{
    let octets = Octets::from_vec(octets);
    match subject {
        Subject::Script(name) => bench.put_script(name, octets),
        Subject::Message(id) => bench.put_message(id, octets),
        Subject::Expected(id) => bench.set_expected(id.as_slice(), octets),
        Subject::Mailboxes => bench.set_mailboxes(octets),
    }
}

/// Why octets that weren't kept aren't put: there are too many, or the session is out of memory.
fn unkept(count: u64, limit: u64) -> EditFault
    ensures { result ≡ (if nat_lt limit count then EditFault.TooLarge else EditFault.NoMemory) }
{
    if count > limit {
        EditFault::TooLarge
    } else {
        EditFault::NoMemory
    }
}

/// Takes the octets of a put, puts them, and replies.
#[tactic(auto, using(crate::proofs::Serving::serving))]
fn serve_put<R: Source, W: Sink>(
    bench: &mut Bench,
    input: &mut Input,
    reader: &mut R,
    writer: &mut W,
    subject: Subject,
    count: u64,
) -> Progress
    requires known { Knows input.old (R.remaining reader.old) }
    ensures known { Knows input.new (R.remaining reader.new) }
    ensures goes { (runs : ℕ) → progress.GoesFrom
        (λ rest. spec.with_octets count rest (edit_of subject)) result (spec.served bench.old runs)
        (unused input.old (R.remaining reader.old)) (W.contents writer.old)
        (spec.served bench.new runs) (unused input.new (R.remaining reader.new))
        (R.remaining reader.new) (W.contents writer.new) }
    ensures moves { (runs : ℕ)
        → spec.Moved (spec.served bench.old runs) (spec.served bench.new runs) }
    ensures fuel { fuel input.new ≤ fuel input.old }
    ensures reads { Reads R.remaining R.fault_count R.call_count input.old input.new reader.old
        reader.new }
    ensures faults { progress.TellsFaults result input.new (R.fault_count reader.old)
        (R.fault_count reader.new) (W.fault_count writer.old) (W.fault_count writer.new) }
    ensures end { progress.AtLast result (IsAtEnd (R.remaining reader.new)) }
{
    let limit = limit_of(&subject);
    match take_octets(
        bench.allocator(),
        input,
        reader,
        count as usize,
        count <= limit,
    ) {
        Taken::Whole { kept: Some(octets) } => answer(keep(bench, subject, octets), writer),
        Taken::Whole { kept: None } => answer(Err(unkept(count, limit)), writer),
        Taken::Truncated => refuse_octets(writer),
        Taken::Failed => Progress::Ends(SessionEnd::Read),
        Taken::Spent => Progress::Ends(SessionEnd::TurnLimit),
    }
}

/// Passes over the octets after a command whose words are forgotten, and replies.
#[tactic(auto, using(crate::proofs::Serving::serving))]
fn serve_forgotten<R: Source, W: Sink>(
    alloc: Global,
    input: &mut Input,
    reader: &mut R,
    writer: &mut W,
    count: u64,
) -> Progress
    requires known { Knows input.old (R.remaining reader.old) }
    ensures known { Knows input.new (R.remaining reader.new) }
    ensures goes { (old : spec.Served) (request : List ℕ → spec.Request)
        → progress.MayBeRefused count request → progress.GoesFrom request result old
        (unused input.old (R.remaining reader.old)) (W.contents writer.old) old (unused input.new
        (R.remaining reader.new)) (R.remaining reader.new) (W.contents writer.new) }
    ensures fuel { fuel input.new ≤ fuel input.old }
    ensures reads { Reads R.remaining R.fault_count R.call_count input.old input.new reader.old
        reader.new }
    ensures faults { progress.TellsFaults result input.new (R.fault_count reader.old)
        (R.fault_count reader.new) (W.fault_count writer.old) (W.fault_count writer.new) }
    ensures end { progress.AtLast result (IsAtEnd (R.remaining reader.new)) }
{
    match take_octets(alloc, input, reader, count as usize, false) {
        Taken::Whole { kept: _kept } => answer(Err(EditFault::NoMemory), writer),
        Taken::Truncated => refuse_octets(writer),
        Taken::Failed => Progress::Ends(SessionEnd::Read),
        Taken::Spent => Progress::Ends(SessionEnd::TurnLimit),
    }
}

/// Replies to an edit that is made already.
#[tactic(auto, using(crate::proofs::Serving::serving))]
fn serve_made<W: Sink>(outcome: Result<(), EditFault>, writer: &mut W) -> Progress
    ensures goes { (ask : Option spec.Demand) (old new : BenchState) (runs : ℕ)
        (unused rest : Option (List ℕ)) → IsTried ask outcome old new
        → progress.GoesFrom (spec.request_by ask) result (spec.served old runs) unused
        (W.contents writer.old) (spec.served new runs) unused rest (W.contents writer.new) }
    ensures faults { progress.MatchProgress result
        (W.fault_count writer.old ≤ W.fault_count writer.new) ⊥
        (HasRisen (W.fault_count writer.old) (W.fault_count writer.new)) ⊥ }
    ensures end { progress.AtLast result ⊥ }
{
    answer(outcome, writer)
}

/// Writes a report, or the reply that it is out of memory.
#[tactic(auto, using(crate::proofs::Serving::serving))]
fn serve_report<W: Sink>(bench: &mut Bench, meter: &mut Meter, writer: &mut W) -> Progress
    ensures goes { (unused rest : Option (List ℕ)) → progress.GoesFrom (λ rest. spec.reports rest)
        result (spec.served bench.old meter.old) unused (W.contents writer.old)
        (spec.served bench.new meter.new) unused rest (W.contents writer.new) }
    ensures moves { spec.Moved (spec.served bench.old meter.old) (spec.served bench.new meter.new) }
    ensures faults { progress.MatchProgress result
        (W.fault_count writer.old ≤ W.fault_count writer.new) ⊥
        (HasRisen (W.fault_count writer.old) (W.fault_count writer.new)) ⊥ }
    ensures end { progress.AtLast result ⊥ }
{
    match bench.report(meter, writer) {
        Ok(()) => Progress::Continues,
        Err(ReportFault::NoMemory) => answer(Err(EditFault::NoMemory), writer),
        Err(ReportFault::Write) => Progress::Ends(SessionEnd::Write),
    }
}

/// Writes the lines of a script's code and `ok`, or why there are none.
#[tactic(auto, using(devices::proofs::Writing::writing))]
fn write_dump<W: Sink>(found: Found<'_>, writer: &mut W) -> Result<(), WriteFault>
    ensures { (lookup : Lookup) → FoundAs found.entry lookup
        → Writes W.contents W.fault_count result writer.old writer.new (spec.dump_reply lookup) }
{
    match found {
        Found::Missing => write_out(b"no no-such-script\n", writer),
        Found::Invalid => write_out(b"no invalid-script\n", writer),
        Found::Present(code) => {
            write_code(code, writer)?;
            write_out(b"ok\n", writer)
        }
    }
}

/// Writes the answer to a question.
#[tactic(auto, using(devices::proofs::Writing::writing))]
fn write_answer<W: Sink>(
    bench: &Bench,
    writer: &mut W,
    question: &Question,
) -> Result<(), WriteFault>
    ensures { Writes W.contents W.fault_count result writer.old writer.new
        (spec.answer_to bench.now.content question.now) }
{
    match question {
        Question::Nothing => Ok(()),
        Question::Code { name } => write_dump(bench.code(name), writer),
    }
}

/// Answers a question.
#[tactic(auto, using(crate::proofs::Serving::serving))]
fn serve_question<W: Sink>(bench: &Bench, writer: &mut W, question: &Question) -> Progress
    ensures goes { (runs : ℕ) (unused rest : Option (List ℕ)) → progress.GoesFrom
        (λ rest. spec.asks question.now rest) result (spec.served bench.now runs) unused
        (W.contents writer.old) (spec.served bench.now runs) unused rest (W.contents writer.new) }
    ensures faults { progress.MatchProgress result
        (W.fault_count writer.old ≤ W.fault_count writer.new) ⊥
        (HasRisen (W.fault_count writer.old) (W.fault_count writer.new)) ⊥ }
    ensures end { progress.AtLast result ⊥ }
{
    match write_answer(bench, writer, question) {
        Ok(()) => Progress::Continues,
        Err(_) => Progress::Ends(SessionEnd::Write),
    }
}

/// Carries out the task of a line.
#[tactic(auto, using(crate::proofs::Serving::serving))]
fn perform<R: Source, W: Sink>(
    bench: &mut Bench,
    meter: &mut Meter,
    input: &mut Input,
    reader: &mut R,
    writer: &mut W,
    task: Task,
) -> Progress
    requires known { Knows input.old (R.remaining reader.old) }
    ensures known { Knows input.new (R.remaining reader.new) }
    ensures goes { (ask : Option spec.Demand) (old : BenchState) → Tasks task ask old bench.old
        → progress.GoesFrom (spec.request_by ask) result (spec.served old meter.old)
        (unused input.old (R.remaining reader.old)) (W.contents writer.old)
        (spec.served bench.new meter.new) (unused input.new (R.remaining reader.new))
        (R.remaining reader.new) (W.contents writer.new) }
    ensures moves { spec.Moved (spec.served bench.old meter.old) (spec.served bench.new meter.new) }
    ensures fuel { fuel input.new ≤ fuel input.old }
    ensures reads { Reads R.remaining R.fault_count R.call_count input.old input.new reader.old
        reader.new }
    ensures faults { progress.TellsFaults result input.new (R.fault_count reader.old)
        (R.fault_count reader.new) (W.fault_count writer.old) (W.fault_count writer.new) }
    ensures end { progress.AtLast result (IsAtEnd (R.remaining reader.new)) }
{
    match task {
        Task::Ask { question } => serve_question(bench, writer, &question),
        Task::Put { subject, count } => serve_put(bench, input, reader, writer, subject, count),
        Task::Made { outcome } => serve_made(outcome, writer),
        Task::Report => serve_report(bench, meter, writer),
        Task::Forgotten { count } => {
            serve_forgotten(bench.allocator(), input, reader, writer, count)
        }
        Task::Unreadable => refuse_line(writer),
    }
}

/// Serves the next command of the input.
#[tactic(auto, using(crate::proofs::Serving::serving))]
fn serve<R: Source, W: Sink>(
    bench: &mut Bench,
    meter: &mut Meter,
    input: &mut Input,
    reader: &mut R,
    writer: &mut W,
) -> Progress
    requires known { Knows input.old (R.remaining reader.old) }
    ensures known { Knows input.new (R.remaining reader.new) }
    ensures goes { progress.Serves input.new.ended result (spec.served bench.old meter.old)
        (unused input.old (R.remaining reader.old)) (W.contents writer.old)
        (spec.served bench.new meter.new) (unused input.new (R.remaining reader.new))
        (R.remaining reader.new) (W.contents writer.new) }
    ensures moves { spec.Moved (spec.served bench.old meter.old) (spec.served bench.new meter.new) }
    ensures fuel { progress.OnContinues result (fuel input.new < fuel input.old) }
    ensures reads { Reads R.remaining R.fault_count R.call_count input.old input.new reader.old
        reader.new }
    ensures faults { progress.TellsFaults result input.new (R.fault_count reader.old)
        (R.fault_count reader.new) (W.fault_count writer.old) (W.fault_count writer.new) }
    ensures end { progress.AtLast result (IsAtEnd (R.remaining reader.new)) }
{
    match Line::next(input, reader) {
        Line::Over => Progress::Ends(SessionEnd::Done),
        Line::TooLong => refuse_line(writer),
        Line::Failed => Progress::Ends(SessionEnd::Read),
        Line::Spent => Progress::Ends(SessionEnd::TurnLimit),
        Line::Whole { len, skip } => {
            let (line, _) = input.pending().split_at(len);
            let task = task_of(bench, line);
            input.consume(skip);
            perform(bench, meter, input, reader, writer, task)
        }
    }
}

/// Serves the commands of a reader until it ends, and writes a reply to each. A reply doesn't
/// depend on the pieces in which the reader's octets come. At most `turns` reads are made. Out of
/// memory for the line buffer, it reads and writes nothing.
pub fn session<R: Source, W: Sink>(
    bench: &mut Bench,
    meter: &mut Meter,
    reader: &mut R,
    writer: &mut W,
    turns: u64,
) -> SessionEnd
    // `Done`, `Syntax` and `Truncated`: the text of a session of the reader's octets with that end
    // was written. `Read` and `TurnLimit`: the replies to the commands that were whole in the
    // octets read were written. `Write`: a front of the text was written, up to a reply that was
    // cut. The bench is the one that these commands leave. At each end the meter has counted the
    // runs of these commands' reports. `NoMemory`: nothing has changed.
    ensures session { spec.MatchSessionEnd result (spec.SessionFrom result
        (spec.served bench.old meter.old) (R.remaining reader.old) (W.contents writer.old)
        (spec.served bench.new meter.new) (W.contents writer.new)) (spec.BrokenSessionFrom
        (spec.served bench.old meter.old) (R.remaining reader.old) (W.contents writer.old)
        (spec.served bench.new meter.new) (R.remaining reader.new) (W.contents writer.new))
        (spec.CutSessionFrom (spec.served bench.old meter.old) (R.remaining reader.old)
        (W.contents writer.old) (spec.served bench.new meter.new) (W.contents writer.new))
        ((bench.new ≡ bench.old) × (meter.new ≡ meter.old) × (reader.new ≡ reader.old)
        × (writer.new ≡ writer.old)) }
    // Bench and meter change by edits and reports in turn, and by nothing else, whatever the
    // devices say.
    ensures moves { spec.Moved (spec.served bench.old meter.old) (spec.served bench.new meter.new) }
    // At the end of the input none of the octets is unread.
    ensures end { spec.AtLastEnd result (IsAtEnd (R.remaining reader.new)) }
    // `Read` and `Write`: the device counted a fault. `TurnLimit`: all reads were made that were
    // allowed. They are no more than the octets read and the faults counted.
    ensures faults { spec.MatchFault result (HasRisen (R.fault_count reader.old)
        (R.fault_count reader.new)) (HasRisen (W.fault_count writer.old) (W.fault_count writer.new))
        (spec.ReadsAreMade turns (R.call_count reader.old) (R.call_count reader.new)
        × spec.TurnsAreSpent turns (R.remaining reader.old) (R.remaining reader.new)
        (R.fault_count reader.old) (R.fault_count reader.new)) }
    ensures calls { R.call_count reader.new ≤ R.call_count reader.old + turns }
{
    let Ok(mut input) = Input::new(bench.allocator(), turns) else {
        return SessionEnd::NoMemory;
    };
    loop {
        match serve(bench, meter, &mut input, reader, writer) {
            Progress::Continues => {}
            Progress::Ends(end) => return end,
        }
    }
}
