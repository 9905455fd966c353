//! Laws about the definitions. Each of these functions does nothing: its contract is the law.
ghost use Rattle.std.specs.Prelude.{◌≡◌, length};
ghost use Rattle.sieve_script.specs.Script.{Commands};
ghost use Rattle.sieve_code.specs.Choice.{AllGoForward, code_of};
ghost use Rattle.sieve_code.specs.Walk.{IsWhole, code_walk, script_walk};

/// The code of a script does what the script does, in at most as many operations as the code has.
/// Each jump goes forward. This holds for each script.
#[tactic(auto, using(crate::proofs::Law::code_laws))]
pub fn code_does_what_the_script_does()
    ensures walk { (script : Commands)
        → code_walk (code_of script) (length (code_of script)) ≡ script_walk script }
    ensures forward { (script : Commands) → AllGoForward (code_of script) }
{}

/// No part of a script's walk is cut off, and so no part of its code's walk. This holds for each
/// script.
#[tactic(auto, using(crate::proofs::Whole::script_whole))]
pub fn no_walk_is_cut_off()
    ensures script { (script : Commands) → IsWhole (script_walk script) }
{}
