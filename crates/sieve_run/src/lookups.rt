//! The names that a run looks up.
ghost use Rattle.std.specs.Prelude.{◌≡◌, OnOk};
ghost use Rattle.sieve_run.specs.Run.{with_lookup};

use indexmap::IndexMap;
use script_names::ScriptName;
use std::alloc::{AllocError, Global};

/// Notes that a name was looked up, and whether there was a text. A name that is noted already
/// stays as it is.
pub(crate) fn note_lookup(
    alloc: Global,
    lookups: &mut IndexMap<ScriptName, bool>,
    name: &ScriptName,
    is_there: bool,
) -> Result<(), AllocError>
    ensures { OnOk result
        (lookups.new.entries ≡ with_lookup name.now is_there lookups.old.entries) }
{
    if !lookups.contains_key(name) {
        lookups.insert(name.copy(alloc)?, is_there)?;
    }
    Ok(())
}
