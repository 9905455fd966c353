//! The breaches in commands, and the readings of commands without a breach.
ghost use Rattle.std.specs.Prelude.{◌≡◌, ◌&&◌, not, map, Some, IfOk, OnOk};
ghost use Rattle.sieve_syntax.specs.Tree.{command_list};
ghost use Rattle.sieve_syntax.specs.view.Tree as seen;
ghost use Rattle.sieve_syntax.specs.declared.tree.Command.{out-Command};
ghost use Rattle.sieve_check.specs.Context.{after, after_kind, past_commands, continues_if, is_require, naming_said};
ghost use Rattle.sieve_check.specs.Element.{command_elements, command_list_elements, tests_elements};
ghost use Rattle.sieve_check.specs.Cut.{cut_said};
ghost use Rattle.sieve_check.specs.Script.{chain_of, chain_with, command_kind_reading, conditions_in};
ghost use Rattle.sieve_script.specs.Script.{Chain, chain_with_command, first_condition};
ghost use Rattle.sieve_script.specs.Shape.{known_labels};
ghost use Rattle.sieve_script.specs.view.Reading.{command_reading_as};
ghost use Rattle.sieve_script.specs.view.Script.{commands_as, condition_as};
ghost use Rattle.sieve_script.specs.view.CutArgument.{cut_as};
ghost use Rattle.sieve_profile.specs.view.Profile.{profile_as};
ghost use Rattle.sieve_table.specs.Known as spec;
ghost use Rattle.sieve_table.specs.Table.{command_row};
ghost use Rattle.sieve_table.specs.view.Required.{required_as};
ghost use Rattle.sieve_check.specs.view.Context.{at_spot, context_as};
ghost use Rattle.sieve_check.specs.view.Finds.{Finds, FindsIn};
ghost use Rattle.sieve_check.specs.view.Head.{command_head, kind_found};

use crate::arguments::{Use, check_use};
use crate::context::{Context, Spot, continues_if, is_require};
use crate::cutting::cut_arguments;
use crate::said::say_arguments;
use crate::scope::Scope;
use crate::test_rules::check_tests;
use crate::validator::CheckFault;
use sieve_profile::Profile;
use sieve_script::{
    Branch, CommandReading, Condition, CutArgument, Label, ScriptBuilder, Statement,
    first_condition, read_command,
};
use sieve_syntax::{Argument, Command, Tests};
use sieve_table::{CommandKind, Rule, known_command};
use std::alloc::{AllocError, Global};

/// Whether a command of this kind is a `require` where none may stand (RFC 5228, section 3.2).
fn is_misplaced(context: Context<'_>, kind: CommandKind) -> bool
    ensures { result ≡ (is_require kind && not (context_as context.entry).leads) }
{
    is_require(kind) && !context.spot.leads
}

/// Whether a command is an `elsif` or `else` without an `if` or `elsif` right before it
/// (RFC 5228, section 3.1).
fn stands_alone(context: Context<'_>, kind: CommandKind) -> bool
    ensures { result ≡ (continues_if kind && not (context_as context.entry).follows_if) }
{
    continues_if(kind) && !context.spot.follows_if
}

/// Checks a command of a kind, but not the tests and the block in it. Returns the labels of its
/// arguments. The rule `RequirePlace` is checked here: a `require` stands only at the top
/// (RFC 5228, section 3.2). `check_use` then checks `NotRequired`, `ElsePlace`, `BadTag`,
/// `BadArguments`, and the rules of strings and numbers.
#[tactic(auto, using(crate::proofs::Heads::kind_steps))]
fn check_kind(
    alloc: Global,
    context: Context<'_>,
    kind: CommandKind,
    command: &Command,
) -> Result<Vec<Label>, CheckFault>
    ensures labels { IfOk result
        (λ labels. labels.items ≡ known_labels (context_as context.entry).profile (command_row kind)
        (map seen.argument_of (out-Command command.now).args.items)) }
    ensures found { Finds (kind_found (context_as context.entry) kind command.now) result }
{
    let line = command.line as u64;
    if is_misplaced(context, kind) {
        let rule = Rule::RequirePlace;
        return Err(CheckFault::Breach { line, rule });
    }
    let ends_by_block = command.block.is_some();
    let used = Use {
        line,
        row: &kind.row(),
        args: &command.args,
        tests: &command.tests,
        ends_by_block,
        stands_alone: stands_alone(context, kind),
    };
    check_use(alloc, context, used)
}

/// The kind of a command, where it is known.
fn kind_of(profile: Profile, command: &Command) -> Option<CommandKind>
    ensures { result ≡ spec.known_command (profile_as profile) (out-Command command.now).name }
{
    known_command(profile, command.name.kind())
}

/// The kind of a command, and the labels of its arguments.
#[derive(Drop)]
struct CommandHead {
    kind: CommandKind,
    labels: Vec<Label>,
}

/// Checks a command, but not the tests and the block in it. One of an
/// unknown name breaks `UnknownCommand`.
fn check_command_head(
    alloc: Global,
    context: Context<'_>,
    command: &Command,
) -> Result<CommandHead, CheckFault>
    ensures found { FindsIn (command_head (context_as context.entry) command.now) result }
    ensures kind { IfOk result (λ head. spec.known_command (context_as context.entry).profile
        (out-Command command.now).name ≡ Some head.kind) }
    ensures labels { IfOk result
        (λ head. head.labels.items ≡ known_labels (context_as context.entry).profile
        (command_row head.kind) (map seen.argument_of (out-Command command.now).args.items)) }
{
    match kind_of(context.spot.profile, command) {
        None => Err(CheckFault::Breach {
            line: command.line as u64,
            rule: Rule::UnknownCommand,
        }),
        Some(kind) => {
            let labels = check_kind(alloc, context, kind, command)?;
            Ok(CommandHead { kind, labels })
        }
    }
}

/// Cuts the strings of arguments into parts, by the octets that they say and the context before
/// their command. Then adds the names that the arguments set or declare to the scope.
fn cut_and_name(
    alloc: Global,
    spot: Spot,
    scope: &mut Scope,
    labels: &[Label],
    args: Vec<Argument>,
) -> Result<Vec<CutArgument>, AllocError>
    ensures cut { IfOk result (λ cut. map cut_as cut.items
        ≡ cut_said (at_spot spot scope.old) labels.now (map seen.argument_of args.items)) }
    ensures goes { OnOk result (scope.new ≡ naming_said
        (required_as spot.required) scope.old labels.now (map seen.argument_of args.items)) }
{
    let mut args = args;
    say_arguments(alloc, spot.required, labels, &mut args)?;
    let context = Context {
        spot,
        scope: &*scope,
    };
    let cut = cut_arguments(alloc, context, labels, &args)?;
    scope.name_arguments(alloc, labels, &args)?;
    Ok(cut)
}

/// A command before its block: the spot there, the reading of the command, and the
/// condition of its test.
#[derive(Drop)]
struct Front {
    next: Spot,
    reading: CommandReading,
    condition: Condition,
}

/// Checks the tests of a command, and then reads the command by its arguments, which are
/// checked already. Returns the spot before its block, its reading, and the condition of
/// its first test. Only the rules of the tests are checked here. The scope then has the
/// names of the command's arguments.
fn check_front(
    alloc: Global,
    spot: Spot,
    scope: &mut Scope,
    head: CommandHead,
    args: Vec<Argument>,
    tests: Tests,
) -> Result<Front, CheckFault>
    requires { head.labels.items ≡ known_labels (profile_as spot.profile) (command_row head.kind)
        (map seen.argument_of args.items) }
    ensures found { FindsIn (tests_elements (at_spot spot scope.old) (seen.tests_of tests)) result }
    ensures goes { IfOk result (λ front. at_spot front.next scope.new ≡ after_kind
        (at_spot spot scope.old) (Some head.kind) (map seen.argument_of args.items)) }
    ensures reading { IfOk result (λ front. command_reading_as front.reading
        ≡ command_kind_reading (at_spot spot scope.old) head.kind
        (map seen.argument_of args.items)) }
    ensures condition { IfOk result (λ front. condition_as front.condition
        ≡ first_condition (conditions_in (at_spot spot scope.old) (seen.tests_of tests))) }
{
    let CommandHead { kind, labels } = head;
    let context = Context {
        spot,
        scope: &*scope,
    };
    let conditions = check_tests(alloc, context, tests)?;
    let next = spot.after_kind(kind, &args);
    let cut = cut_and_name(alloc, spot, scope, &labels, args)?;
    Ok(Front {
        next,
        reading: read_command(alloc, kind, &labels, cut)?,
        condition: first_condition(conditions),
    })
}

/// A command without a breach: the spot after it, its reading, its line, and its branch. The branch
/// is the condition of its test, with its block.
#[derive(Drop)]
struct Passed {
    next: Spot,
    reading: CommandReading,
    line: u32,
    branch: Branch,
}

/// Checks a command with its tests and its block. The scope then has the names of all of it.
#[cycle(check_commands)]
#[tactic(auto, using(crate::proofs::Walk::command_steps))]
fn check_command(
    alloc: Global,
    spot: Spot,
    scope: &mut Scope,
    command: Command,
) -> Result<Passed, CheckFault>
    ensures found { FindsIn (command_elements (at_spot spot scope.old) (seen.command_as command)) result }
    ensures goes { IfOk result (λ passed. at_spot passed.next scope.new
        ≡ after (at_spot spot scope.old) (seen.command_as command)) }
    ensures read { IfOk result (λ passed. (chain : Chain) → chain_with_command
        (Some (command_reading_as passed.reading)) passed.line
        (condition_as passed.branch.condition) (commands_as passed.branch.block.items) chain
        ≡ chain_with (at_spot spot scope.old) (seen.command_as command) chain) }
{
    let context = Context {
        spot,
        scope: &*scope,
    };
    let head = check_command_head(alloc, context, &command)?;
    let Command {
        line,
        args,
        tests,
        block,
        ..
    } = command;
    let Front {
        next,
        reading,
        condition,
    } = check_front(alloc, spot, &mut *scope, head, args, tests)?;
    let commands = match block {
        Some(commands) => commands,
        None => Vec::new(alloc),
    };
    let block = check_commands(alloc, next.inside(), &mut *scope, commands)?;
    Ok(Passed {
        next,
        reading,
        line,
        branch: Branch { condition, block },
    })
}

/// Checks commands, where `start` and the scope are the context before the first. Returns the
/// statements of the commands, the last first.
#[cycle(check_commands)]
pub(crate) fn check_commands(
    alloc: Global,
    start: Spot,
    scope: &mut Scope,
    commands: Vec<Command>,
) -> Result<Vec<Statement>, CheckFault>
    ensures found { FindsIn (command_list_elements (at_spot start scope.old)
        (command_list (map seen.command_as commands.items))) result }
    ensures goes { OnOk result (scope.new ≡ (past_commands (at_spot start scope.old)
        (command_list (map seen.command_as commands.items))).scope) }
    ensures read { IfOk result (λ read. commands_as read.items
        ≡ (chain_of (at_spot start scope.old) (command_list (map seen.command_as commands.items))).rest) }
{
    let mut spot = start;
    let mut script = ScriptBuilder::with_capacity(alloc, commands.len())?;
    for command in commands {
        let Passed {
            next,
            reading,
            line,
            branch,
        } = check_command(alloc, spot, &mut *scope, command)?;
        script = script.with_command(alloc, reading, line, branch)?;
        spot = next;
    }
    Ok(script.finished()?)
}
