//! How commands end.
ghost use Rattle.std.specs.Prelude.{◌≡◌, IfOk};
ghost use Rattle.sieve_delivery.specs.declared.ending.Ending.TheVariants.{Failed};

use crate::delivery::Delivery;
use crate::error::{ErrorKind, RunError};
use std::alloc::AllocError;

/// How commands ended.
#[derive(Drop)]
pub enum Ending {
    /// At their end.
    GoesOn,
    /// By `return`, which ends their script (RFC 6609, 3.3).
    Returned,
    /// By `stop`, which ends the run (RFC 5228, 3.3).
    Stopped,
    /// By an error in a command, which ends the run (RFC 5228, 2.10.6).
    Failed(RunError),
}

/// An error of the script that runs, at a line of it (RFC 5228, 2.10.6). Fails if memory is
/// refused.
pub fn fail(delivery: &Delivery<'_>, line: u64, kind: ErrorKind) -> Result<Ending, AllocError>
    ensures { IfOk result (λ ending. ending
        ≡ Failed (record { script = delivery.now.script.now; line = line; kind = kind })) }
{
    let script = delivery.script.copy(delivery.alloc)?;
    Ok(Ending::Failed(RunError { script, line, kind }))
}
