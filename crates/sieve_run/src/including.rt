//! The checks of an include, and how its script is looked up and entered (RFC 6609, 3).
ghost use Rattle.std.specs.Prelude.{◌≡◌, ◌++◌, [], ◌∷◌, map, IfOk, OnOk};
ghost use Rattle.sieve_run.specs.Library.{found_at, library_of};
ghost use Rattle.sieve_run.specs.Run.{entering, is_running, is_script};
ghost use Rattle.sieve_delivery.specs.view.Delivery.{delivery_as};
ghost use Rattle.sieve_delivery.specs.view.State.{state_of};
ghost use Rattle.sieve_variables.specs.Value.{own_of};
ghost use Rattle.sieve_run.specs.view.Found.{FoundAs};
ghost use Rattle.sieve_run.specs.view.Include.{resumed_by, there_as};

use crate::library::{Found, Library};
use script_names::ScriptName;
use sieve_delivery::{Delivery, Ending, RunState};
use sieve_limits::MAX_NAME;
use sieve_variables::Own;
use std::alloc::{AllocError, Global};

/// Looks a name up in a library, as an `include` does (RFC 6609, 3). A name of more than 1,024
/// octets is that of no script.
pub fn find<'a, L: Library>(lib: &'a L, name: &ScriptName) -> Found<'a>
    ensures { FoundAs result
        (found_at (library_of (L.profile lib.now) (L.texts lib.now)) name.now) }
{
    if name.name.as_slice().len() > MAX_NAME {
        Found::Missing
    } else {
        lib.find(name)
    }
}

/// Whether a name is one of some names of scripts.
pub(crate) fn is_script(name: &ScriptName, names: &[ScriptName]) -> bool
    ensures { result ≡ is_script name.now names.now }
{
    names.iter().any(|other| *name == *other)
}

/// Whether a name is one of the names of scripts that include others.
fn is_including(name: &ScriptName, names: &[&ScriptName]) -> bool
    ensures { result ≡ is_script name.now (map (λ other. other.now) names.now) }
{
    for other in names {
        if *name == **other {
            return true;
        }
    }
    false
}

/// Whether a script runs. It does if it is the running one, or one that includes it.
pub(crate) fn is_running(name: &ScriptName, delivery: &Delivery<'_>) -> bool
    ensures { result ≡ is_running name.now (delivery_as delivery.now) }
{
    *name == *delivery.script || is_including(name, delivery.including)
}

/// The scripts that include a script that the running one includes. They are those that include the
/// running one, and then the running one.
pub(crate) fn including_next<'a>(delivery: &Delivery<'a>) -> Result<Vec<&'a ScriptName>, AllocError>
    ensures { IfOk result (λ names. map (λ name. name.now) names.items
        ≡ (delivery_as delivery.now).including ++ (delivery_as delivery.now).script ∷ []) }
{
    let mut names = Vec::with_capacity(delivery.alloc, delivery.including.len())?;
    for name in delivery.including {
        names.push(*name)?;
    }
    names.push(delivery.script)?;
    Ok(names)
}

/// Enters a script that another one includes. It is noted, and has no variables of its own. Returns
/// the variables of the including script.
pub(crate) fn begin_included(
    alloc: Global,
    name: &ScriptName,
    state: &mut RunState,
) -> Result<Own, AllocError>
    ensures state { OnOk result (state_of state.new ≡ entering name.now (state_of state.old)) }
    ensures own { IfOk result (λ own. own ≡ own_of (state_of state.old).values) }
{
    state.entered.push(name.copy(alloc)?)?;
    Ok(state.values.begin(alloc))
}

/// Whether there is a text at a name.
pub(crate) fn is_there(found: &Found<'_>) -> bool
    ensures { result ≡ there_as found.now }
{
    match found {
        Found::Missing => false,
        Found::Invalid => true,
        Found::Present(_) => true,
    }
}

/// How an `include` ends in the including script, by how the included script ended.
pub(crate) fn resumed(ending: Ending) -> Ending
    ensures { result ≡ resumed_by ending }
{
    match ending {
        Ending::GoesOn => Ending::GoesOn,
        Ending::Returned => Ending::GoesOn,
        Ending::Stopped => Ending::Stopped,
        Ending::Failed(error) => Ending::Failed(error),
    }
}
