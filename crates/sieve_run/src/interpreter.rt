//! Runs the main script on a message.
ghost use Rattle.std.specs.Prelude.{◌≡◌, ◌≤◌, [], ◌∷◌, true, None, Some, IfOk, if◌then◌else◌, length};
ghost use Rattle.std.specs.Option.{option_copied};
ghost use Rattle.sieve_run.specs.Library.{library_of};
ghost use Rattle.sieve_run.specs.Meter.{next_run};
ghost use Rattle.sieve_run.specs.Run.{act_of, begun, delivery_to, verdict_of, verdict_after};
ghost use Rattle.sieve_code.specs.Walk.{code_walk};
ghost use Rattle.sieve_code.specs.view.Code.{ops_of};
ghost use Rattle.sieve_limits.specs.Limits.{action_limit, include_depth};
ghost use Rattle.sieve_delivery.specs.view.Delivery.{arrival_as};
ghost use Rattle.sieve_delivery.specs.view.Ending.{ending_by};
ghost use Rattle.sieve_delivery.specs.view.State.{state_of};
ghost use Rattle.sieve_run.specs.view.Step.{doing};

use crate::including::find;
use crate::library::{Found, Library};
use crate::meter::Meter;
use crate::steps::{Running, execute};
use flag_lists::FlagList;
use indexmap::IndexMap;
use message_text::Message;
use script_names::ScriptName;
use sieve_code::Code;
use sieve_conditions::FieldCache;
use sieve_delivery::{
    Actions, Addresses, Arrival, Delivery, Ending, Envelope, ErrorKind, RunError, RunState,
};
use sieve_limits::MAX_INCLUDE_DEPTH;
use sieve_variables::Values;
use sieve_verdict::Verdict;
use std::alloc::{AllocError, Global};

/// The verdict of an error. No action is performed, and the implicit keep stands, without flags
/// (RFC 5228, 2.10.6).
fn failed(alloc: Global, error: RunError, lookups: IndexMap<ScriptName, bool>) -> Verdict
    ensures { result ≡ record {
      entries = [];
      implicit = Some [];
      error = Some error;
      lookups = lookups.entries;
    } }
{
    Verdict::new(
        Vec::new(alloc),
        Some(FlagList::new(alloc)),
        Some(error),
        lookups,
    )
}

/// The verdict if the main script itself can't run. The implicit keep stands.
fn failed_at_main(
    alloc: Global,
    main: &ScriptName,
    is_present: bool,
    kind: ErrorKind,
) -> Result<Verdict, AllocError>
    ensures { IfOk result (λ verdict. verdict ≡ record {
      entries = [];
      implicit = Some [];
      error = Some (record { script = main.now; line = 0; kind = kind });
      lookups = (main.now, is_present) ∷ [];
    }) }
{
    let script = main.copy(alloc)?;
    let lookups = first_lookup(alloc, main, is_present)?;
    let error = RunError {
        script,
        line: 0,
        kind,
    };
    Ok(failed(alloc, error, lookups))
}

/// The lookups of a run that has looked up the main script alone.
fn first_lookup(
    alloc: Global,
    main: &ScriptName,
    is_present: bool,
) -> Result<IndexMap<ScriptName, bool>, AllocError>
    ensures { IfOk result (λ lookups. lookups.entries ≡ (main.now, is_present) ∷ []) }
{
    let mut lookups = IndexMap::new(alloc);
    lookups.insert(main.copy(alloc)?, is_present)?;
    Ok(lookups)
}

/// The flags of the implicit keep if no action cancelled it, or none.
fn kept(cancelled: bool, flags: FlagList) -> Option<FlagList>
    ensures { result ≡ if cancelled then None else Some flags }
{
    if cancelled { None } else { Some(flags) }
}

/// The verdict of a run of the main script, by how the run ended.
fn ended(alloc: Global, ending: Ending, state: RunState) -> Verdict
    requires { length state.actions.entries ≤ action_limit }
    ensures { result ≡ verdict_after (ending_by ending (state_of state)) }
{
    let RunState {
        actions,
        cancelled,
        lookups,
        entered,
        values,
    } = state;
    drop(entered);
    drop(values);
    let (entries, flags) = actions.into_parts();
    match ending {
        Ending::Failed(error) => failed(alloc, error, lookups),
        Ending::GoesOn | Ending::Returned | Ending::Stopped => {
            Verdict::new(entries, kept(cancelled, flags), None, lookups)
        }
    }
}

/// The state in which the main script begins.
fn begun(alloc: Global, main: &ScriptName) -> Result<RunState, AllocError>
    ensures { IfOk result (λ state. state_of state ≡ begun main.now) }
{
    let mut entered = Vec::new(alloc);
    entered.push(main.copy(alloc)?)?;
    Ok(RunState {
        actions: Actions::new(alloc),
        cancelled: false,
        lookups: first_lookup(alloc, main, true)?,
        entered,
        values: Values::new(alloc),
    })
}

/// Runs the code of the main script from its start.
fn run_main<L: Library>(
    alloc: Global,
    lib: &L,
    main: &ScriptName,
    code: &Code,
    arrival: &Arrival<'_>,
) -> Result<Verdict, AllocError>
    ensures { IfOk result (λ verdict. verdict ≡ verdict_after
        (doing (act_of (library_of (L.profile lib.now) (L.texts lib.now)) include_depth (delivery_to
        (arrival_as arrival.now) main.now)) (delivery_to (arrival_as arrival.now) main.now)
        (code_walk (ops_of code.now) (length (ops_of code.now))) (begun main.now))) }
{
    let mut state = begun(alloc, main)?;
    let mut fields = FieldCache::new(alloc, arrival);
    let delivery = Delivery {
        alloc,
        arrival,
        script: main,
        including: &[],
    };
    let running = Running {
        lib,
        depth: MAX_INCLUDE_DEPTH,
        delivery: &delivery,
        code,
    };
    let ending = execute(&running, &mut fields, &mut state)?;
    Ok(ended(alloc, ending, state))
}

/// The verdict if there is no main script. The implicit keep stands, and nothing is looked up.
fn no_main(alloc: Global) -> Verdict
    ensures { result
        ≡ record { entries = []; implicit = Some []; error = None; lookups = [] } }
{
    Verdict::new(
        Vec::new(alloc),
        Some(FlagList::new(alloc)),
        None,
        IndexMap::new(alloc),
    )
}

/// Runs the main script on a message, under the library's profile. Without a main script the
/// implicit keep stands. A message's own addresses take the place of those of the envelope. The
/// meter counts the run, even if memory runs out. An error is out of memory.
#[tactic(auto, using(crate::proofs::Performing::by_code), unfolding(crate::specs::Run::verdict_of))]
pub fn run<L: Library>(
    alloc: Global,
    lib: &L,
    main: Option<&ScriptName>,
    envelope: &Envelope,
    own: Option<&Addresses>,
    message: &Message,
    meter: &mut Meter,
) -> Result<Verdict, AllocError>
    ensures verdict { IfOk result (λ verdict. verdict ≡ verdict_of (library_of (L.profile lib.now)
        (L.texts lib.now)) (option_copied main.entry) (record {
          message = message.now;
          envelope = envelope.now;
          own = option_copied own.entry;
          profile = L.profile lib.now;
        })) }
    ensures meter { meter.new ≡ next_run meter.old }
{
    meter.count();
    let Some(name) = main else {
        return Ok(no_main(alloc));
    };
    let arrival = Arrival {
        message,
        envelope,
        own,
        profile: lib.profile(),
    };
    match find(lib, name) {
        Found::Missing => failed_at_main(alloc, name, false, ErrorKind::MissingScript),
        Found::Invalid => failed_at_main(alloc, name, true, ErrorKind::InvalidScript),
        Found::Present(code) => run_main(alloc, lib, name, code, &arrival),
    }
}
