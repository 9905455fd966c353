//! The judgement of a text: a checked script, or its first fault.
ghost use Rattle.std.specs.Prelude.{◌≡◌, ◌<◌, ◌↔◌, length, IfOk, IsErrOf};
ghost use Rattle.sieve_limits.specs.Limits.{text_limit};
ghost use Rattle.sieve_check.specs.Judgement.{judgement_of, fault_word};
ghost use Rattle.sieve_profile.specs.view.Profile.{profile_as};
ghost use Rattle.sieve_check.specs.view.Judged.{judged_as};

use crate::{CheckFault, Checked, Rule, check};
use sieve_profile::Profile;
use sieve_syntax::{SyntaxFault, parse};
use std::alloc::Global;
use thiserror::Error;

/// The kind of a fault in a script's text.
#[derive(Clone, Copy, PartialEq, Eq)]
pub enum FaultKind {
    /// No script is written so (RFC 5228, section 8).
    Syntax,
    /// The script breaks a rule.
    Breach(Rule),
}

impl FaultKind {
    /// The word by which a report names the fault.
    pub fn word(self) -> &'static [u8]
        ensures { result.now ≡ fault_word self }
    {
        match self {
            FaultKind::Syntax => b"syntax",
            FaultKind::Breach(rule) => rule.word(),
        }
    }
}

/// The judgement of a script's text.
#[derive(Drop)]
pub enum Judged {
    /// A script without a fault.
    Sound(Checked),
    /// The line and the kind of the first fault.
    Faulty { line: u64, kind: FaultKind },
}

/// Why a text isn't judged. The refusals are numbered from 1 on, in this order.
#[derive(Clone, Copy, Debug, PartialEq, Eq, Error)]
pub enum JudgeFault {
    /// 1: the text has more than 1,048,576 octets. This comes before the other.
    #[error("the text is too large")]
    TooLarge = 1,
    /// 2: memory ran out.
    #[error("out of memory")]
    NoMemory = 2,
}

/// Reads a script's text, and checks it by the extensions that a bench of a profile knows.
///
/// The error is `TooLarge` exactly where the text has more than 1,048,576 octets. It is `NoMemory`
/// where memory runs out.
#[tactic(auto, unfolding(crate::specs::Judgement::judgement_of))]
pub fn judge(alloc: Global, profile: Profile, text: &[u8]) -> Result<Judged, JudgeFault>
    ensures large { IsErrOf result JudgeFault.TooLarge ↔ text_limit < length text.now }
    ensures judged { IfOk result
        (λ judged. judged_as judged ≡ judgement_of (profile_as profile) text.now) }
{
    let script = match parse(alloc, text) {
        Ok(script) => script,
        Err(SyntaxFault::Syntax { line }) => {
            return Ok(Judged::Faulty {
                line,
                kind: FaultKind::Syntax,
            });
        }
        Err(SyntaxFault::TooLarge) => return Err(JudgeFault::TooLarge),
        Err(SyntaxFault::NoMemory) => return Err(JudgeFault::NoMemory),
    };
    match check(alloc, profile, script) {
        Ok(checked) => Ok(Judged::Sound(checked)),
        Err(CheckFault::Breach { line, rule }) => Ok(Judged::Faulty {
            line,
            kind: FaultKind::Breach(rule),
        }),
        Err(CheckFault::NoMemory) => Err(JudgeFault::NoMemory),
    }
}
