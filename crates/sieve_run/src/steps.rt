//! Carries out code.
ghost use Rattle.std.specs.Prelude.{◌≡◌, if◌then◌else◌, length, IfOk};
ghost use Rattle.sieve_code.specs.Pool.{leaf_at, leaf_in};
ghost use Rattle.sieve_code.specs.Walk.{code_walk};
ghost use Rattle.sieve_code.specs.view.Code.{op_of, ops_of, pool_of};
ghost use Rattle.sieve_run.specs.Library.{library_of};
ghost use Rattle.sieve_run.specs.Run.{act_of, included};
ghost use Rattle.sieve_delivery.specs.Delivery.{inside};
ghost use Rattle.sieve_delivery.specs.view.Delivery.{delivery_as};
ghost use Rattle.sieve_delivery.specs.view.Ending.{ending_by};
ghost use Rattle.sieve_run.specs.view.Step.{StepsTo, doing};
ghost use Rattle.sieve_run.specs.view.Include.{enters, looks_up};
ghost use Rattle.sieve_delivery.specs.view.State.{state_of};

use crate::including::{
    begin_included, find, including_next, is_running, is_script, is_there, resumed,
};
use crate::library::{Found, Library};
use crate::lookups::note_lookup;
use crate::operations::ask;
use crate::turn::{Step, acted, proceed, tested};
use octets::Octets;
use script_names::{Location, ScriptName};
use sieve_code::{Code, PackedLeaf, PackedOperation};
use sieve_conditions::FieldCache;
use sieve_delivery::{
    Delivery, Ending, ErrorKind, RunState, change, discard, fail, file_into, keep, redirect,
    reject, respond, set,
};
use sieve_limits::MAX_INCLUDES;
use sieve_script::Leaf;
use sieve_variables::Literal;
use std::alloc::AllocError;

/// The settings of an `include` beside its script (RFC 6609, 3.2).
#[derive(Clone, Copy)]
struct Inclusion {
    /// Whether the script runs only if it wasn't entered before.
    once: bool,
    /// Whether the script may be missing.
    optional: bool,
    /// The line of the command.
    line: u32,
}

/// A script that runs.
#[derive(Drop)]
pub(crate) struct Running<'a, L: Library> {
    /// The library that its includes look scripts up in.
    pub(crate) lib: &'a L,
    /// The number of levels of includes that are still allowed below it.
    pub(crate) depth: usize,
    /// The facts that its tests and commands use.
    pub(crate) delivery: &'a Delivery<'a>,
    /// Its code.
    pub(crate) code: &'a Code,
}

/// Carries out the code of a script. Its jumps go forward, so it takes no more turns than there are
/// operations.
#[cycle(execute)]
pub(crate) fn execute<L: Library>(
    running: &Running<'_, L>,
    fields: &mut FieldCache<'_>,
    state: &mut RunState,
) -> Result<Ending, AllocError>
    requires { fields.old ≡ (delivery_as running.now.delivery.now).arrival }
    ensures arrival { fields.new ≡ fields.old }
    ensures ending { IfOk result (λ ending. doing (act_of (library_of (L.profile running.now.lib.now)
        (L.texts running.now.lib.now)) running.now.depth (delivery_as running.now.delivery.now))
        (delivery_as running.now.delivery.now)
        (code_walk (ops_of running.now.code.now) (length (ops_of running.now.code.now)))
        (state_of state.old) ≡ ending_by ending (state_of state.new)) }
{
    let code = running.code;
    let mut place = 0;
    let mut register = false;
    for _turn in 0..code.len() {
        if place >= code.len() {
            return Ok(Ending::GoesOn);
        }
        match carry_out(
            running,
            code.op(place),
            place + 1,
            register,
            &mut *fields,
            &mut *state,
        )? {
            Step::Next {
                place: next,
                register: truth,
            } => {
                place = next;
                register = truth;
            }
            Step::Ended(ending) => return Ok(ending),
        }
    }
    Ok(Ending::GoesOn)
}

/// Carries out an operation of code. `after` is the place after the operation.
#[cycle(execute)]
#[tactic(auto, using(crate::proofs::Stepping::stop_steps, crate::proofs::Stepping::return_steps))]
fn carry_out<L: Library>(
    running: &Running<'_, L>,
    op: PackedOperation,
    after: usize,
    register: bool,
    fields: &mut FieldCache<'_>,
    state: &mut RunState,
) -> Result<Step, AllocError>
    requires { fields.old ≡ (delivery_as running.now.delivery.now).arrival }
    ensures arrival { fields.new ≡ fields.old }
    ensures step { IfOk result (λ step. StepsTo (act_of (library_of (L.profile running.now.lib.now)
        (L.texts running.now.lib.now)) running.now.depth (delivery_as running.now.delivery.now))
        (delivery_as running.now.delivery.now) (op_of running.now.code.now op) after register
        (state_of state.old) step (state_of state.new)) }
{
    let code = running.code;
    match op {
        PackedOperation::True => Ok(proceed(true, after)),
        PackedOperation::False => Ok(proceed(false, after)),
        PackedOperation::Not => Ok(proceed(!register, after)),
        PackedOperation::Test(place) => {
            let asked = code.ask(place);
            tested(ask(running.delivery, code, &asked, fields, state), after)
        }
        PackedOperation::Jump(left) => Ok(proceed(register, code.jump_place(left))),
        PackedOperation::JumpIfFalse(left) => {
            Ok(proceed(register, chosen(register, after, code.jump_place(left))))
        }
        PackedOperation::JumpIfTrue(left) => {
            Ok(proceed(register, chosen(register, code.jump_place(left), after)))
        }
        PackedOperation::Act { leaf, line } => acted(
            act_at(running, leaf, line, fields, state),
            after,
            register,
        ),
        PackedOperation::Stop => Ok(Step::Ended(Ending::Stopped)),
        PackedOperation::Return => Ok(Step::Ended(Ending::Returned)),
    }
}

/// Carries out the command at a place. If there is none, the message is discarded.
#[cycle(execute)]
fn act_at<L: Library>(
    running: &Running<'_, L>,
    place: u32,
    line: u32,
    fields: &mut FieldCache<'_>,
    state: &mut RunState,
) -> Result<Ending, AllocError>
    requires { fields.old ≡ (delivery_as running.now.delivery.now).arrival }
    ensures arrival { fields.new ≡ fields.old }
    ensures ending { IfOk result (λ ending. ending_by ending (state_of state.new) ≡ act_of
        (library_of (L.profile running.now.lib.now) (L.texts running.now.lib.now)) running.now.depth
        (delivery_as running.now.delivery.now) (leaf_at (pool_of running.now.code.now) place)
        line (state_of state.old)) }
{
    match running.code.leaf(place) {
        Some(leaf) => act(running, leaf, line, fields, state),
        None => discard(running.delivery, line as u64, state),
    }
}

/// Carries out a command that acts.
#[cycle(execute)]
fn act<L: Library>(
    running: &Running<'_, L>,
    leaf: &PackedLeaf,
    line: u32,
    fields: &mut FieldCache<'_>,
    state: &mut RunState,
) -> Result<Ending, AllocError>
    requires { fields.old ≡ (delivery_as running.now.delivery.now).arrival }
    ensures arrival { fields.new ≡ fields.old }
    ensures ending { IfOk result (λ ending. ending_by ending (state_of state.new) ≡ act_of
        (library_of (L.profile running.now.lib.now) (L.texts running.now.lib.now)) running.now.depth
        (delivery_as running.now.delivery.now) (leaf_in (pool_of running.now.code.now) leaf.now)
        line (state_of state.old)) }
{
    let code = running.code;
    let delivery = running.delivery;
    let at = line as u64;
    match leaf {
        Leaf::Keep { flags } => keep(delivery, code.given_list(*flags), at, state),
        Leaf::Fileinto { mailbox, settings } => file_into(
            delivery,
            code.string(*mailbox),
            &code.settings(*settings),
            at,
            state,
        ),
        Leaf::Redirect { address, copy } => {
            redirect(delivery, code.string(*address), *copy, at, state)
        }
        Leaf::Discard => discard(delivery, at, state),
        Leaf::Set {
            variable,
            modifiers,
            value,
        } => set(
            delivery,
            variable,
            *modifiers,
            code.string(*value),
            at,
            state,
        ),
        Leaf::Flags {
            change: how,
            variable,
            flags,
        } => change(
            delivery,
            *how,
            variable.as_ref(),
            &code.list(*flags),
            at,
            state,
        ),
        Leaf::Include {
            location,
            once,
            optional,
            name,
        } => {
            let inclusion = Inclusion {
                once: *once,
                optional: *optional,
                line,
            };
            include_named(running, *location, name, inclusion, fields, state)
        }
        Leaf::Vacation { vacation } => respond(delivery, &code.vacation(**vacation), at, state),
        Leaf::Reject { how, reason } => reject(delivery, *how, code.string(*reason), at, state),
    }
}

/// Includes the script of a location and a name.
#[cycle(execute)]
fn include_named<L: Library>(
    running: &Running<'_, L>,
    location: Location,
    name: &Literal,
    inclusion: Inclusion,
    fields: &mut FieldCache<'_>,
    state: &mut RunState,
) -> Result<Ending, AllocError>
    requires { fields.old ≡ (delivery_as running.now.delivery.now).arrival }
    ensures arrival { fields.new ≡ fields.old }
    ensures ending { IfOk result (λ ending. ending_by ending (state_of state.new) ≡ included
        (library_of (L.profile running.now.lib.now) (L.texts running.now.lib.now)) running.now.depth
        (delivery_as running.now.delivery.now) (record { location = location; name = name.now })
        inclusion.once inclusion.optional inclusion.line (state_of state.old)) }
{
    let name = ScriptName {
        location,
        name: Octets::copied(running.delivery.alloc, name.as_slice())?,
    };
    include(running, &name, inclusion, fields, state)
}

/// Runs code as that of a script that the running one includes.
#[cycle(execute)]
fn execute_inside<L: Library>(
    running: &Running<'_, L>,
    name: &ScriptName,
    code: &Code,
    fields: &mut FieldCache<'_>,
    state: &mut RunState,
) -> Result<Ending, AllocError>
    requires { fields.old ≡ (delivery_as running.now.delivery.now).arrival }
    ensures arrival { fields.new ≡ fields.old }
    ensures ending { IfOk result (λ ending. doing (act_of
        (library_of (L.profile running.now.lib.now) (L.texts running.now.lib.now)) running.now.depth
        (inside name.now (delivery_as running.now.delivery.now)))
        (inside name.now (delivery_as running.now.delivery.now)) (code_walk (ops_of code.now)
        (length (ops_of code.now))) (state_of state.old) ≡ ending_by ending (state_of state.new)) }
{
    let delivery = running.delivery;
    let including = including_next(delivery)?;
    let inner = Delivery {
        alloc: delivery.alloc,
        arrival: delivery.arrival,
        script: name,
        including: including.as_slice(),
    };
    let inside = Running {
        lib: running.lib,
        depth: running.depth,
        delivery: &inner,
        code,
    };
    execute(&inside, fields, state)
}

/// Enters an included script, and runs its code. Then the variables of the including script stand
/// again.
#[cycle(execute)]
fn enter<L: Library>(
    running: &Running<'_, L>,
    name: &ScriptName,
    code: &Code,
    fields: &mut FieldCache<'_>,
    state: &mut RunState,
) -> Result<Ending, AllocError>
    requires { fields.old ≡ (delivery_as running.now.delivery.now).arrival }
    ensures arrival { fields.new ≡ fields.old }
    ensures ending { IfOk result (λ ending. ending_by ending (state_of state.new) ≡ enters
        (library_of (L.profile running.now.lib.now) (L.texts running.now.lib.now)) running.now.depth
        (delivery_as running.now.delivery.now) name.now (ops_of code.now) (state_of state.old)) }
{
    let own = begin_included(running.delivery.alloc, name, state)?;
    let ending = execute_inside(running, name, code, fields, state)?;
    state.values.resume(own);
    Ok(resumed(ending))
}

/// Looks a script up, and enters it. An invalid script is an error. So is a missing one, unless it
/// may be missing.
#[cycle(execute)]
fn look_up<L: Library>(
    running: &Running<'_, L>,
    name: &ScriptName,
    inclusion: Inclusion,
    fields: &mut FieldCache<'_>,
    state: &mut RunState,
) -> Result<Ending, AllocError>
    requires { fields.old ≡ (delivery_as running.now.delivery.now).arrival }
    ensures arrival { fields.new ≡ fields.old }
    ensures ending { IfOk result (λ ending. ending_by ending (state_of state.new) ≡ looks_up
        (library_of (L.profile running.now.lib.now) (L.texts running.now.lib.now)) running.now.depth
        (delivery_as running.now.delivery.now) name.now inclusion.optional inclusion.line
        (state_of state.old)) }
{
    let delivery = running.delivery;
    let line = inclusion.line as u64;
    let found = find(running.lib, name);
    note_lookup(delivery.alloc, &mut state.lookups, name, is_there(&found))?;
    match found {
        Found::Missing => {
            if inclusion.optional {
                Ok(Ending::GoesOn)
            } else {
                fail(delivery, line, ErrorKind::MissingScript)
            }
        }
        Found::Invalid => fail(delivery, line, ErrorKind::InvalidScript),
        Found::Present(code) => enter(running, name, code, fields, state),
    }
}

/// Includes a script (RFC 6609, 3.2). The checks that don't depend on its text come before its
/// lookup. So a verdict names no script that can't matter to it.
#[cycle(execute)]
fn include<L: Library>(
    running: &Running<'_, L>,
    name: &ScriptName,
    inclusion: Inclusion,
    fields: &mut FieldCache<'_>,
    state: &mut RunState,
) -> Result<Ending, AllocError>
    requires { fields.old ≡ (delivery_as running.now.delivery.now).arrival }
    ensures arrival { fields.new ≡ fields.old }
    ensures ending { IfOk result (λ ending. ending_by ending (state_of state.new) ≡ included
        (library_of (L.profile running.now.lib.now) (L.texts running.now.lib.now)) running.now.depth
        (delivery_as running.now.delivery.now) name.now inclusion.once inclusion.optional
        inclusion.line (state_of state.old)) }
{
    let delivery = running.delivery;
    let line = inclusion.line as u64;
    if inclusion.once && is_script(name, state.entered.as_slice()) {
        return Ok(Ending::GoesOn);
    }
    if is_running(name, delivery) {
        return fail(delivery, line, ErrorKind::RecursiveInclude);
    }
    if running.depth == 0 {
        return fail(delivery, line, ErrorKind::IncludeDepth);
    }
    if state.entered.len() > MAX_INCLUDES {
        return fail(delivery, line, ErrorKind::IncludeCount);
    }
    let below = Running {
        lib: running.lib,
        depth: running.depth - 1,
        delivery,
        code: running.code,
    };
    look_up(&below, name, inclusion, fields, state)
}

/// The place `there` if the truth holds, or else the other one.
fn chosen(truth: bool, there: usize, otherwise: usize) -> usize
    ensures { result ≡ if truth then there else otherwise }
{
    if truth { there } else { otherwise }
}
