//! The tests of code.
ghost use Rattle.std.specs.Prelude.{◌≡◌, IfOk};
ghost use Rattle.sieve_delivery.specs.view.Delivery.{delivery_as};
ghost use Rattle.sieve_delivery.specs.view.State.{state_of};
ghost use Rattle.sieve_code.specs.Pool.{ask_in};
ghost use Rattle.sieve_code.specs.view.Code.{pool_of};
ghost use Rattle.sieve_conditions.specs.Matching.{after_test, truth_of};

use sieve_code::{Code, PackedAsk};
use sieve_conditions::{FieldCache, compare, exists, is_over, is_under, mailboxes_exist};
use sieve_delivery::{Delivery, RunState};
use sieve_script::Ask;
use std::alloc::AllocError;

/// Whether a test holds. No message came before, so none is a duplicate.
#[tactic(auto, unfolding(sieve_conditions::specs::Matching::truth_of, sieve_conditions::specs::Matching::values_after))]
pub(crate) fn ask(
    delivery: &Delivery<'_>,
    code: &Code,
    ask: &PackedAsk,
    fields: &mut FieldCache<'_>,
    state: &mut RunState,
) -> Result<bool, AllocError>
    requires { fields.old ≡ (delivery_as delivery.now).arrival }
    ensures arrival { fields.new ≡ fields.old }
    ensures truth { IfOk result (λ truth. truth ≡ truth_of (delivery_as delivery.now)
        (state_of state.old) (ask_in (pool_of code.now) ask.now)) }
    ensures after { IfOk result (λ truth. state_of state.new ≡ after_test
        (delivery_as delivery.now) (ask_in (pool_of code.now) ask.now) (state_of state.old)) }
{
    match ask {
        Ask::Compares {
            source,
            comparison,
            keys,
        } => compare(
            delivery,
            &code.source(*source),
            *comparison,
            &code.list(*keys),
            fields,
            state,
        ),
        Ask::Exists { names } => exists(delivery, &code.names(*names), &*state),
        Ask::Over { limit } => Ok(is_over(delivery, *limit)),
        Ask::Under { limit } => Ok(is_under(delivery, *limit)),
        Ask::MailboxExists { names } => mailboxes_exist(delivery, &code.list(*names), &*state),
        Ask::Duplicate => Ok(false),
    }
}
