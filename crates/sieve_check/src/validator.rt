//! The validator of scripts.
ghost use Rattle.std.specs.Prelude.{◌≡◌, [], MatchResult};
ghost use Rattle.sieve_profile.specs.view.Profile.{profile_as};
ghost use Rattle.sieve_syntax.specs.view.Script.{tree_of};
ghost use Rattle.sieve_check.specs.Breach.{breaches_of};
ghost use Rattle.sieve_check.specs.view.Checked.{commands_of};
ghost use Rattle.sieve_check.specs.CheckFault.{IsFirst};
ghost use Rattle.sieve_check.specs.Script.{script_of};
ghost use Rattle.sieve_check.specs.declared.validator.CheckFault.TheVariants.{NoMemory};

use crate::checked::Checked;
use crate::command_rules::check_commands;
use crate::context::Spot;
use crate::scope::Scope;
use sieve_profile::Profile;
use sieve_syntax::ParsedScript;
use sieve_table::Rule;
use std::alloc::{AllocError, Global};
use thiserror::Error;

/// Why a script isn't checked.
#[derive(Clone, Copy, Debug, PartialEq, Eq, Error)]
pub enum CheckFault {
    /// 1: the script breaks a rule on a line. It is the first breach by its place in the text, and
    /// then by the rule's number.
    #[error("line {line}: a rule is broken")]
    Breach { line: u64, rule: Rule },
    /// 2: memory ran out.
    #[error("out of memory")]
    NoMemory,
}

impl From<AllocError> for CheckFault {
    ghost from_gives = { λ _ e. e ≡ NoMemory };

    fn from(_e: AllocError) -> CheckFault {
        CheckFault::NoMemory
    }
}

/// Checks a script by the extensions that a bench of a profile knows. Where no rule is broken, the
/// result is the checked script: the abstract script of the same tree. Otherwise the error is the
/// least breach of a rule. It is `NoMemory` where memory runs out.
pub fn check(alloc: Global, profile: Profile, script: ParsedScript) -> Result<Checked, CheckFault>
    ensures { MatchResult result (λ checked. (breaches_of (profile_as profile) (tree_of script)
        ≡ []) × (commands_of checked ≡ script_of (profile_as profile) (tree_of script)))
        (IsFirst (breaches_of (profile_as profile) (tree_of script))) }
{
    let commands = script.into_commands();
    let mut scope = Scope::new(alloc);
    let start = Spot::script_start(profile);
    let statements = check_commands(alloc, start, &mut scope, commands)?;
    Ok(Checked { statements })
}
