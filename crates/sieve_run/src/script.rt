//! A script's text with its code or its first fault, under a profile.
ghost use Rattle.std.specs.Prelude.{◌≡◌, ◌≤◌, IfOk, Some, length};
ghost use Rattle.sieve_limits.specs.Limits.{text_limit};
ghost use Rattle.sieve_check.specs.Judgement.{fault_of, judgement_of};
ghost use Rattle.sieve_profile.specs.view.Profile.{profile_as};
ghost use Rattle.sieve_run.specs.Library.{lookup_of};
ghost use Rattle.sieve_check.specs.view.Judged.{judged_as};
ghost use Rattle.sieve_run.specs.view.Compiled.{CompiledFrom};
ghost use Rattle.sieve_run.specs.view.Found.{FoundAs};

use crate::library::Found;
use octets::Octets;
use sieve_check::{FaultKind, JudgeFault, Judged, judge};
use sieve_code::{Code, compile};
use sieve_profile::Profile;
use std::alloc::{AllocError, Global};
use std::marker::Model;

/// The part of a text's judgement that is kept.
#[derive(Drop)]
enum Compiled {
    /// The code of a text without a fault.
    Sound(Code),
    /// The first fault of another text.
    Faulty { line: u64, kind: FaultKind },
}

/// The part of a judgement that is kept. A checked script is compiled, and its statements are
/// dropped.
fn kept_of(alloc: Global, judged: Judged) -> Result<Compiled, AllocError>
    ensures { IfOk result (λ compiled. CompiledFrom compiled (judged_as judged)) }
{
    match judged {
        Judged::Sound(checked) => Ok(Compiled::Sound(compile(alloc, checked)?)),
        Judged::Faulty { line, kind } => Ok(Compiled::Faulty { line, kind }),
    }
}

/// A script's text with its code or its first fault, under a profile. The code or the fault is
/// found once. Contracts see the profile and the text.
#[derive(Drop)]
pub struct Script {
    profile: Profile,
    text: Octets,
    compiled: Compiled,
}

impl Model for Script {
    ghost use Rattle.std.specs.Prelude.{◌≡◌, ◌≤◌, length};
    ghost use Rattle.sieve_limits.specs.Limits.{text_limit};
    ghost use Rattle.sieve_check.specs.Judgement.{judgement_of};
    ghost use Rattle.sieve_profile.specs.view.Profile.{profile_as};
    ghost use Rattle.sieve_run.specs.Script.{ScriptState};
    ghost use Rattle.sieve_run.specs.view.Compiled.{CompiledFrom};

    ghost Value = { ScriptState };

    ghost view = { λ a. record { profile = profile_as a.profile; text = a.text } };

    ghost invariant = { λ a. CompiledFrom a.compiled (judgement_of (profile_as a.profile) a.text) × (length a.text ≤ text_limit) };
}

impl Script {
    /// Reads and checks a text of at most 1,048,576 octets, under a profile. The text isn't copied.
    /// An error is out of memory.
    pub fn new(alloc: Global, profile: Profile, text: Octets) -> Result<Script, AllocError>
        requires { length text ≤ text_limit }
        ensures { IfOk result
            (λ script. script ≡ record { profile = profile_as profile; text = text }) }
    {
        match judge(alloc, profile, text.as_slice()) {
            Ok(judged) => Ok(Script {
                profile,
                text,
                compiled: kept_of(alloc, judged)?,
            }),
            Err(JudgeFault::TooLarge) => unreachable!(),
            Err(JudgeFault::NoMemory) => Err(AllocError),
        }
    }

    /// A copy, which is read and checked again under the same profile. An error is out of memory.
    pub fn copy(&self, alloc: Global) -> Result<Script, AllocError>
        ensures { IfOk result (λ script. script ≡ self.now) }
    {
        Script::new(alloc, self.profile, Octets::copied(alloc, self.text())?)
    }

    /// The text.
    pub fn text(&self) -> &[u8]
        ensures text { result.now ≡ self.now.text }
        ensures limit { length result.now ≤ text_limit }
    {
        self.text.as_slice()
    }

    /// The line and the kind of the text's first fault, or none if it has no fault.
    pub fn fault(&self) -> Option<(u64, FaultKind)>
        ensures { result ≡ fault_of (judgement_of self.now.profile self.now.text) }
    {
        match self.compiled {
            Compiled::Sound(_) => None,
            Compiled::Faulty { line, kind } => Some((line, kind)),
        }
    }

    /// The answer of a library that has this script at a name.
    pub fn found(&self) -> Found<'_>
        ensures { FoundAs result (lookup_of self.now.profile (Some self.now.text)) }
    {
        match &self.compiled {
            Compiled::Sound(code) => Found::Present(code),
            Compiled::Faulty { .. } => Found::Invalid,
        }
    }
}
