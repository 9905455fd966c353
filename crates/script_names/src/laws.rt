//! Laws over the definitions. Each of these functions does nothing: its contract is the law.

ghost use Rattle.std.specs.Prelude.{◌≡◌};
ghost use Rattle.script_names.specs.Name.{name_cmp, name_eq};
ghost use Rattle.script_names.specs.declared.name.ScriptName as names;

use crate::name::ScriptName;

/// The names of scripts are in the order of their locations, and within one in the order of their
/// octets. Two are equal where their locations and their octets are.
pub fn names_have_their_order()
    ensures order { (a b : names.ScriptName) → ⟦<ScriptName as Ord>⟧.cmp a b ≡ name_cmp a b }
    ensures equality { (a b : names.ScriptName) → ⟦<ScriptName as PartialEq>⟧.eq a b ≡ name_eq a b }
{}
