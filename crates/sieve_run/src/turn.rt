//! A turn of a run: the step that an operation takes.
ghost use Rattle.std.specs.Prelude.{◌≡◌, IfOk};
ghost use Rattle.sieve_run.specs.declared.turn.Step.TheVariants.{Next};
ghost use Rattle.sieve_run.specs.view.Step.{StepFollows, step_after};

use sieve_delivery::Ending;
use std::alloc::AllocError;

/// The result of carrying out an operation.
#[derive(Drop)]
pub(crate) enum Step {
    /// The script goes on at a place, with a truth in the register.
    Next { place: usize, register: bool },
    /// The script ended.
    Ended(Ending),
}

/// The step that goes on at a place, with a truth in the register.
pub(crate) fn proceed(register: bool, place: usize) -> Step
    ensures { result ≡ Next place register }
{
    Step::Next { place, register }
}

/// The step after a command, by how the command ended. `after` is the place after its operation.
fn step_after(ending: Ending, after: usize, register: bool) -> Step
    ensures { result ≡ step_after ending after register }
{
    match ending {
        Ending::GoesOn => proceed(register, after),
        Ending::Returned => Step::Ended(Ending::Returned),
        Ending::Stopped => Step::Ended(Ending::Stopped),
        Ending::Failed(error) => Step::Ended(Ending::Failed(error)),
    }
}

/// The step after a test. It fails if the call of the test failed.
pub(crate) fn tested(truth: Result<bool, AllocError>, after: usize) -> Result<Step, AllocError>
    ensures { IfOk result (StepFollows truth (λ truth. Next after truth)) }
{
    Ok(proceed(truth?, after))
}

/// The step after a command, by how the command ended. It fails if the call of the command failed.
pub(crate) fn acted(
    ending: Result<Ending, AllocError>,
    after: usize,
    register: bool,
) -> Result<Step, AllocError>
    ensures { IfOk result (StepFollows ending (λ ending. step_after ending after register)) }
{
    Ok(step_after(ending?, after, register))
}
