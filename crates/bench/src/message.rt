//! Messages of octets.
ghost use Rattle.std.specs.Prelude.{◌≡◌, ◌≤◌, IfOk, length};
ghost use Rattle.sieve_limits.specs.Limits.{message_limit};

use octets::Octets;
use sieve_run::{Message, MessageFault};
use std::alloc::{AllocError, Global};

/// The message of these octets, which are no more than a message may have.
pub(crate) fn message_of(alloc: Global, bytes: Octets) -> Result<Message, AllocError>
    requires { length bytes ≤ message_limit }
    ensures { IfOk result (λ message. message ≡ bytes) }
{
    match Message::new(alloc, bytes.into_vec()) {
        Ok(message) => Ok(message),
        Err((MessageFault::TooLarge, _)) => unreachable!(),
        Err((MessageFault::NoMemory, _)) => Err(AllocError),
    }
}
