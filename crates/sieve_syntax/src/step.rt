//! The state after each token (RFC 5228, 8.2).

ghost use Rattle.std.specs.Prelude.{◌≡◌, ◌∷◌, ◌++◌, [], if◌then◌else◌, IfErr, OnOk, Some, map, length, nat_lt};
ghost use Rattle.sieve_limits.specs.Limits.{block_room, test_depth};
ghost use Rattle.sieve_syntax.specs.Machine;
ghost use Rattle.sieve_syntax.specs.Machine.{after_command, after_listed, bare_head, close, close_block, for_list, for_one, step, with_argument};
ghost use Rattle.sieve_syntax.specs.view.Reader.{Advances, head_value, levels_value, outer_value, state_value, symbol_as};
ghost use Rattle.sieve_syntax.specs.view.Tree.{argument_of, test_of, tests_of, text_of};
ghost use Rattle.sieve_syntax.specs.declared.reader.Outer.{Outer};
ghost use Rattle.sieve_syntax.specs.declared.step.Stop.TheVariants.{NoMemory};

use crate::reader::{Head, Level, Open, Outer, ParserState, command_with, finished_test};
use crate::symbol::Symbol;
use crate::tree::{Argument, Command, Test, Tests, Text};
use octets::SmallOctets;
use sieve_limits::{MAX_OPEN_BLOCKS, MAX_TEST_DEPTH};
use std::alloc::{AllocError, AllocFailed, Global};
use std::mem;

/// Why a token wasn't taken.
#[derive(Clone, Copy, PartialEq, Eq)]
pub(crate) enum Stop {
    /// No script continues with it.
    Fault,
    NoMemory,
}

impl<T: Drop> From<AllocFailed<T>> for Stop {
    ghost from_gives = { λ _ e. e ≡ NoMemory };

    fn from(_e: AllocFailed<T>) -> Stop {
        Stop::NoMemory
    }
}

impl From<AllocError> for Stop {
    ghost from_gives = { λ _ e. e ≡ NoMemory };

    fn from(_e: AllocError) -> Stop {
        Stop::NoMemory
    }
}

/// The state after a symbol between commands.
#[tactic(auto, unfolding(crate::specs::Machine::step))]
fn between(alloc: Global, outer: &mut Outer, symbol: Symbol) -> Result<ParserState, Stop>
    ensures { Advances outer.new result (step test_depth block_room
        (Machine.between (outer_value outer.old)) (symbol_as symbol)) }
{
    match symbol {
        Symbol::Identifier { name, line } => {
            outer.levels.clear();
            Ok(ParserState::Arguments(make_head(alloc, name, line)))
        }
        Symbol::CloseBrace => close_block(alloc, outer),
        _ => Err(Stop::Fault),
    }
}

/// A command or a test of which only the identifier is read.
fn make_head(alloc: Global, name: SmallOctets, line: u32) -> Head
    ensures name { result.name ≡ name }
    ensures line { result.line ≡ line }
    ensures args { result.args.items ≡ [] }
{
    Head {
        name,
        line,
        args: Vec::new(alloc),
    }
}

/// Adds a command after those before it. The first asks for room for one, since most blocks have no
/// more. A vector that grows has room for four.
fn add_command(done: &mut Vec<Command>, command: Command) -> Result<(), Stop>
    ensures ok { OnOk result (done.new.items ≡ done.old.items ++ command ∷ []) }
    ensures err { IfErr result (λ stop. stop ≡ NoMemory) }
{
    if done.is_empty() {
        done.reserve_exact(1)?;
    }
    done.push(command)?;
    Ok(())
}

/// The end of the innermost block.
#[tactic(auto, unfolding(crate::specs::Machine::close_block))]
fn close_block(alloc: Global, outer: &mut Outer) -> Result<ParserState, Stop>
    ensures { Advances outer.new result
        (close_block (outer_value outer.old).blocks (outer_value outer.old).done) }
{
    match outer.blocks.pop() {
        None => Err(Stop::Fault),
        Some(open) => {
            let Open { done, head, tests } = open;
            let block = mem::replace(&mut outer.done, done);
            let command = command_with(alloc, head, tests, Some(block))?;
            add_command(&mut outer.done, command)?;
            Ok(ParserState::Between)
        }
    }
}

/// How many arguments are given room one by one. Few commands and tests have more.
const FEW_ARGUMENTS: usize = 4;

/// The state after one more argument of a command or a test.
fn after_argument(head: Head, argument: Argument) -> Result<ParserState, Stop>
    ensures { (outer : Outer) → Advances outer result
        (Some (Machine.in_arguments (outer_value outer) (levels_value outer.levels.items)
        (with_argument (head_value head) (argument_of argument)))) }
{
    let mut head = head;
    if head.args.len() < FEW_ARGUMENTS {
        head.args.reserve_exact(1)?;
    }
    head.args.push(argument)?;
    Ok(ParserState::Arguments(head))
}

/// After an identifier or an argument: one more argument, a test, a list of tests, or the end.
#[tactic(auto, unfolding(crate::specs::Machine::step))]
fn in_arguments(
    alloc: Global,
    outer: &mut Outer,
    head: Head,
    symbol: Symbol,
) -> Result<ParserState, Stop>
    ensures { Advances outer.new result
        (step test_depth block_room (Machine.in_arguments (outer_value outer.old)
        (levels_value outer.old.levels.items) (head_value head)) (symbol_as symbol)) }
{
    match symbol {
        Symbol::String { octets, line } => {
            let mut items = Vec::with_capacity(alloc, 1)?;
            items.push(Text {
                string: octets,
                line,
            })?;
            let argument = Argument::Strings {
                items,
                bracketed: false,
            };
            after_argument(head, argument)
        }
        Symbol::Number { value, line } => {
            let argument = Argument::Number { value, line };
            after_argument(head, argument)
        }
        Symbol::Tag { name, line } => {
            let argument = Argument::Tag { name, line };
            after_argument(head, argument)
        }
        Symbol::OpenBracket => Ok(ParserState::BeforeString(head, Vec::new(alloc))),
        Symbol::Identifier { name, line } => open_test(alloc, outer, head, name, line),
        Symbol::OpenParenthesis => open_list(alloc, outer, head),
        _ => close(alloc, outer, head, Tests::None, symbol),
    }
}

/// Begins the one test of a command or a test, if there is depth for it.
fn open_test(
    alloc: Global,
    outer: &mut Outer,
    head: Head,
    name: SmallOctets,
    line: u32,
) -> Result<ParserState, Stop>
    ensures { Advances outer.new result
        (if nat_lt (length (levels_value outer.old.levels.items)) test_depth
        then Some (Machine.in_arguments (outer_value outer.old) (for_one (head_value head)
        ∷ levels_value outer.old.levels.items) (bare_head name.items line)) else None) }
{
    if outer.levels.len() >= MAX_TEST_DEPTH {
        return Err(Stop::Fault);
    }
    outer.levels.push(Level::One(head))?;
    Ok(ParserState::Arguments(make_head(alloc, name, line)))
}

/// Begins a list of tests, if there is depth for one.
fn open_list(alloc: Global, outer: &mut Outer, head: Head) -> Result<ParserState, Stop>
    ensures { Advances outer.new result
        (if nat_lt (length (levels_value outer.old.levels.items)) test_depth
        then Some (Machine.before_test (outer_value outer.old) (for_list
        (head_value head) [] ∷ levels_value outer.old.levels.items)) else None) }
{
    if outer.levels.len() >= MAX_TEST_DEPTH {
        return Err(Stop::Fault);
    }
    outer.levels.push(Level::List(head, Vec::new(alloc)))?;
    Ok(ParserState::BeforeTest)
}

/// In a list of strings, where a string has to come.
#[tactic(auto, unfolding(crate::specs::Machine::step))]
fn before_string(
    alloc: Global,
    head: Head,
    items: Vec<Text>,
    symbol: Symbol,
) -> Result<ParserState, Stop>
    ensures { (outer : Outer)
        → Advances outer result (step test_depth block_room
        (Machine.before_string (outer_value outer) (levels_value outer.levels.items)
        (head_value head) (map text_of items.items)) (symbol_as symbol)) }
{
    match symbol {
        Symbol::String { octets, line } => {
            let mut items = items;
            items.push(Text {
                string: octets,
                line,
            })?;
            Ok(ParserState::AfterString(head, items))
        }
        _ => Err(Stop::Fault),
    }
}

/// In a list of strings, after a string: a comma or the end of the list.
#[tactic(auto, unfolding(crate::specs::Machine::step))]
fn after_string(head: Head, items: Vec<Text>, symbol: Symbol) -> Result<ParserState, Stop>
    ensures { (outer : Outer) → Advances outer result (step test_depth block_room
        (Machine.after_string (outer_value outer) (levels_value outer.levels.items)
        (head_value head) (map text_of items.items)) (symbol_as symbol)) }
{
    match symbol {
        Symbol::Comma => Ok(ParserState::BeforeString(head, items)),
        Symbol::CloseBracket => {
            let argument = Argument::Strings {
                items,
                bracketed: true,
            };
            after_argument(head, argument)
        }
        _ => Err(Stop::Fault),
    }
}

/// In a list of tests, where a test has to come.
#[tactic(auto, unfolding(crate::specs::Machine::step))]
fn before_test(alloc: Global, symbol: Symbol) -> Result<ParserState, Stop>
    ensures { (outer : Outer)
        → Advances outer result (step test_depth block_room (Machine.before_test
        (outer_value outer) (levels_value outer.levels.items)) (symbol_as symbol)) }
{
    match symbol {
        Symbol::Identifier { name, line } => Ok(ParserState::Arguments(make_head(
            alloc, name, line,
        ))),
        _ => Err(Stop::Fault),
    }
}

/// After a command or a test with all its arguments and tests. A test outside a list ends together
/// with the command or the test around it.
#[tactic(auto, unfolding(crate::specs::Machine::close))]
fn close(
    alloc: Global,
    outer: &mut Outer,
    head: Head,
    tests: Tests,
    symbol: Symbol,
) -> Result<ParserState, Stop>
    ensures { Advances outer.new result
        (close block_room (outer_value outer.old) (levels_value outer.old.levels.items)
        (head_value head) (tests_of tests) (symbol_as symbol)) }
{
    match outer.levels.pop() {
        None => close_command(alloc, outer, head, tests, symbol),
        Some(Level::One(owner)) => {
            let finished = finished_test(alloc, head, tests)?;
            let test = Box::new(alloc, finished)?;
            close(alloc, outer, owner, Tests::One(test), symbol)
        }
        Some(Level::List(owner, before)) => {
            let mut before = before;
            let finished = finished_test(alloc, head, tests)?;
            before.push(finished)?;
            close_in_list(alloc, outer, owner, before, symbol)
        }
    }
}

/// After a test in a list of tests: a comma or the end of the list.
#[tactic(auto, unfolding(crate::specs::Machine::after_listed))]
fn close_in_list(
    alloc: Global,
    outer: &mut Outer,
    owner: Head,
    before: Vec<Test>,
    symbol: Symbol,
) -> Result<ParserState, Stop>
    ensures { Advances outer.new result
        (after_listed (outer_value outer.old) (levels_value outer.old.levels.items)
        (head_value owner) (map test_of before.items) (symbol_as symbol)) }
{
    match symbol {
        Symbol::Comma => {
            outer.levels.push(Level::List(owner, before))?;
            Ok(ParserState::BeforeTest)
        }
        Symbol::CloseParenthesis => {
            let tests = Tests::List(Box::new(alloc, before)?);
            Ok(ParserState::AfterTests(owner, tests))
        }
        _ => Err(Stop::Fault),
    }
}

/// After a command with all its arguments and tests: a semicolon or a block.
#[tactic(auto, unfolding(crate::specs::Machine::after_command))]
fn close_command(
    alloc: Global,
    outer: &mut Outer,
    head: Head,
    tests: Tests,
    symbol: Symbol,
) -> Result<ParserState, Stop>
    ensures { Advances outer.new result (after_command block_room (outer_value outer.old)
        (head_value head) (tests_of tests) (symbol_as symbol)) }
{
    match symbol {
        Symbol::Semicolon => {
            let command = command_with(alloc, head, tests, None)?;
            add_command(&mut outer.done, command)?;
            Ok(ParserState::Between)
        }
        Symbol::OpenBrace => {
            if outer.blocks.len() >= MAX_OPEN_BLOCKS {
                return Err(Stop::Fault);
            }
            let done = mem::replace(&mut outer.done, Vec::new(alloc));
            outer.blocks.push(Open { done, head, tests })?;
            Ok(ParserState::Between)
        }
        _ => Err(Stop::Fault),
    }
}

/// The state after a symbol.
#[tactic(auto, unfolding(crate::specs::Machine::step))]
pub(crate) fn step(
    alloc: Global,
    outer: &mut Outer,
    state: ParserState,
    symbol: Symbol,
) -> Result<ParserState, Stop>
    ensures { Advances outer.new result
        (step test_depth block_room (state_value outer.old state) (symbol_as symbol)) }
{
    match state {
        ParserState::Between => between(alloc, outer, symbol),
        ParserState::Arguments(head) => in_arguments(alloc, outer, head, symbol),
        ParserState::BeforeString(head, items) => before_string(alloc, head, items, symbol),
        ParserState::AfterString(head, items) => after_string(head, items, symbol),
        ParserState::BeforeTest => before_test(alloc, symbol),
        ParserState::AfterTests(head, tests) => close(alloc, outer, head, tests, symbol),
    }
}
