//! Commands on flags (RFC 5232, 3 and 5).
ghost use Rattle.std.specs.Prelude.{◌≡◌, IfOk, OnOk, Some, None, map};
ghost use Rattle.flag_lists.specs.Flags.{flag_list, flag_union, flags_of_texts, flags_without};
ghost use Rattle.std.specs.Option.{option_copied};
ghost use Rattle.sieve_delivery.specs.Act.{changed_flags, changes, held_flags};
ghost use Rattle.sieve_delivery.specs.Storing.{flags_named};
ghost use Rattle.sieve_delivery.specs.view.Delivery.{delivery_as};
ghost use Rattle.sieve_delivery.specs.view.Ending.{ending_by};
ghost use Rattle.sieve_delivery.specs.view.State.{state_of};
ghost use Rattle.sieve_variables.specs.Value.{text_value};

use crate::acting::give;
use crate::actions::Actions;
use crate::delivery::Delivery;
use crate::ending::Ending;
use crate::state::RunState;
use flag_lists::laws::texts_are_changed_in_turn;
use flag_lists::{FlagList, flag_text, flags_of, flags_of_texts, union, without};
use octets::Octets;
use packed_strings::Strings;
use sieve_limits::MAX_VALUE;
use sieve_script::FlagChange;
use sieve_variables::{Values, Variable};
use std::alloc::{AllocError, Global};

/// The flags that strings name (RFC 5232, 2).
pub(crate) fn flags_named(
    delivery: &Delivery<'_>,
    state: &RunState,
    texts: &Strings<'_>,
) -> Result<FlagList, AllocError>
    ensures { IfOk result (λ list. list ≡ flags_named (state_of state.now) texts.now) }
{
    let texts = texts.expanded(delivery.alloc, &state.values)?;
    flags_of_texts(delivery.alloc, &texts)
}

/// The flags that are left by a command that names some.
fn changed_flags(
    alloc: Global,
    change: FlagChange,
    flags: &FlagList,
    named: FlagList,
) -> Result<FlagList, AllocError>
    ensures { IfOk result (λ list. list ≡ changed_flags change flags.now named) }
{
    match change {
        FlagChange::Set => Ok(named),
        FlagChange::Add => union(alloc, flags, &named),
        FlagChange::Remove => without(alloc, flags, &named),
    }
}

/// The text of flags as the value of a variable: its first 4,096 octets at most (RFC 5229, 6).
#[tactic(auto, unfolding(crate::specs::Act::held_flags))]
fn held_flags(alloc: Global, flags: &FlagList) -> Result<Octets, AllocError>
    ensures { IfOk result (λ octets. octets ≡ held_flags flags.now) }
{
    let mut text = flag_text(alloc, flags)?;
    text.truncate(MAX_VALUE);
    Ok(Octets::from_vec(text))
}

/// The flags of a value after a command that names some.
fn changed_list(
    alloc: Global,
    change: FlagChange,
    value: &[u8],
    named: FlagList,
) -> Result<FlagList, AllocError>
    ensures { IfOk result (λ list. list ≡ changed_flags change (flag_list value.now) named) }
{
    let flags = flags_of(alloc, value)?;
    changed_flags(alloc, change, &flags, named)
}

/// The value of a variable after a command that names some flags.
fn changed_value(
    alloc: Global,
    change: FlagChange,
    value: &[u8],
    named: FlagList,
) -> Result<Octets, AllocError>
    ensures { IfOk result
        (λ octets. octets ≡ held_flags (changed_flags change (flag_list value.now) named)) }
{
    let flags = changed_list(alloc, change, value, named)?;
    held_flags(alloc, &flags)
}

/// Changes the flags that a variable holds.
fn change_variable(
    delivery: &Delivery<'_>,
    change: FlagChange,
    variable: &Variable,
    texts: &Strings<'_>,
    line: u64,
    state: &mut RunState,
) -> Result<Ending, AllocError>
    ensures { IfOk result (λ ending. ending_by ending (state_of state.new) ≡ changes
        (delivery_as delivery.now) line change (Some variable.now) texts.now (state_of state.old)) }
{
    let named = flags_named(delivery, &*state, texts)?;
    let value = changed_value(
        delivery.alloc,
        change,
        state.values.variable(variable),
        named,
    )?;
    give(delivery, variable, value, line, state)
}

/// Adds the flags that strings name to the internal flags, one string after the other.
fn add_named(
    alloc: Global,
    values: &Values,
    texts: &Strings<'_>,
    actions: &mut Actions,
) -> Result<(), AllocError>
    ensures { OnOk result (actions.new ≡ record actions.old {
      flags = flag_union actions.old.flags
          (flags_of_texts (map (text_value values.now) texts.now));
    }) }
{
    texts_are_changed_in_turn();
    let mut buffer = Vec::new(alloc);
    for i in 0..texts.len() {
        let text = texts.text_in(i, values, &mut buffer)?;
        actions.add_text(alloc, text)?;
    }
    Ok(())
}

/// Removes the flags that strings name from the internal flags, one string after the other.
fn remove_named(
    alloc: Global,
    values: &Values,
    texts: &Strings<'_>,
    actions: &mut Actions,
) -> Result<(), AllocError>
    ensures { OnOk result (actions.new ≡ record actions.old {
      flags = flags_without
          actions.old.flags (flags_of_texts (map (text_value values.now) texts.now));
    }) }
{
    texts_are_changed_in_turn();
    let mut buffer = Vec::new(alloc);
    for i in 0..texts.len() {
        let text = texts.text_in(i, values, &mut buffer)?;
        actions.remove_text(text);
    }
    Ok(())
}

/// Changes the internal flags.
fn change_internal(
    delivery: &Delivery<'_>,
    change: FlagChange,
    texts: &Strings<'_>,
    line: u64,
    state: &mut RunState,
) -> Result<Ending, AllocError>
    ensures { IfOk result (λ ending. ending_by ending (state_of state.new)
        ≡ changes (delivery_as delivery.now) line change None texts.now (state_of state.old)) }
{
    match change {
        FlagChange::Set => {
            let named = flags_named(delivery, &*state, texts)?;
            state.actions.set_flags(named);
        }
        FlagChange::Add => add_named(delivery.alloc, &state.values, texts, &mut state.actions)?,
        FlagChange::Remove => remove_named(
            delivery.alloc,
            &state.values,
            texts,
            &mut state.actions,
        )?,
    }
    Ok(Ending::GoesOn)
}

/// Changes the internal flags, or those that a variable holds (RFC 5232, 3). One shared variable
/// too many is an error of the script. Fails if memory is refused.
pub fn change(
    delivery: &Delivery<'_>,
    change: FlagChange,
    variable: Option<&Variable>,
    texts: &Strings<'_>,
    line: u64,
    state: &mut RunState,
) -> Result<Ending, AllocError>
    ensures { IfOk result (λ ending. ending_by ending (state_of state.new) ≡ changes (delivery_as
        delivery.now) line change (option_copied variable.entry) texts.now (state_of state.old)) }
{
    match variable {
        Some(variable) => change_variable(delivery, change, variable, texts, line, state),
        None => change_internal(delivery, change, texts, line, state),
    }
}
