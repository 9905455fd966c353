//! Laws about the definitions. Each of these functions does nothing: its contract is the law.

ghost use Rattle.std.specs.Prelude.{◌≡◌, ◌≤◌, ◌++◌, ℕ, suc, Bool, true, not, List, Option, filter, length};
ghost use Rattle.std.specs.List.{list_any};
ghost use Rattle.sieve_script.specs.Reading.{Ask, Leaf};
ghost use Rattle.sieve_script.specs.Script.{Commands, Condition, returns, stops};
ghost use Rattle.sieve_code.specs.Walk.{gone, script_walk};
ghost use Rattle.sieve_limits.specs.Limits.{action_limit, include_limit};
ghost use Rattle.sieve_delivery.specs.Delivery.{Arrival, Delivery};
ghost use Rattle.sieve_run.specs.Depth.{IsDeepest, depth_left, entered_within, watched_run};
ghost use Rattle.sieve_run.specs.Distinct.{AreDistinctActions};
ghost use Rattle.sieve_run.specs.Frame.{Agree, LibraryTexts, verdict_over};
ghost use Rattle.sieve_run.specs.Library.{Lookup};
ghost use Rattle.sieve_run.specs.Origin.{ComesOf};
ghost use Rattle.sieve_run.specs.Perform.{answers_of, do_gone, perform};
ghost use Rattle.sieve_delivery.specs.Conflicts.{goes_with_rejections, is_rejection, is_response};
ghost use Rattle.sieve_delivery.specs.Ending.{Ending, returned, state_after, stopped};
ghost use Rattle.sieve_delivery.specs.Performing.{performs};
ghost use Rattle.sieve_delivery.specs.declared.action.Deed.{Deed};
ghost use Rattle.sieve_run.specs.Run as spec;
ghost use Rattle.sieve_verdict.specs.Verdict.{actions_of};
ghost use Rattle.sieve_delivery.specs.State.{RunState};
ghost use Rattle.script_names.specs.declared.name.ScriptName as names;

/// Commands after a `stop` change nothing, in its own block or after that block (RFC 5228, 3.3).
/// This holds for all such commands, whatever tests ask and whatever commands that act do.
#[tactic(auto, using(crate::proofs::Unchanged::stop_ends))]
pub fn stop_ends_the_commands()
    ensures { (ask : Ask → RunState → spec.Answer) (act : Leaf → ℕ → RunState → Ending)
        (rest : Commands) (after : RunState → Ending) (state : RunState)
        → spec.and_then (spec.exec ask act (stops rest) state) after ≡ stopped state }
{}

/// Commands after a `return` change nothing either (RFC 6609, 3.3).
#[tactic(auto, using(crate::proofs::Unchanged::return_ends))]
pub fn return_ends_the_commands()
    ensures { (ask : Ask → RunState → spec.Answer) (act : Leaf → ℕ → RunState → Ending)
        (rest : Commands) (after : RunState → Ending) (state : RunState)
        → spec.and_then (spec.exec ask act (returns rest) state) after ≡ returned state }
{}

/// A run enters at most 256 scripts beside the main one. Running a script only adds to the end of
/// the list of entered scripts.
pub fn a_run_enters_so_many_scripts()
    ensures many { (find : names.ScriptName → Lookup) (arrival : Arrival) (main : names.ScriptName)
        (program : Commands)
        → length (state_after (spec.run_of find arrival main program)).entered ≤ suc include_limit }
    ensures kept { (find : names.ScriptName → Lookup) (depth : ℕ) (delivery : Delivery)
        (program : Commands) (state : RunState) → (more : List names.ScriptName) × ((state_after
        (spec.running find depth delivery program state)).entered ≡ state.entered ++ more) }
{}

/// Scripts include one another at most 10 deep. The depth is the number of scripts that include the
/// running one. The main script runs at depth 0, and an include runs its script at a depth of one
/// more. At depth 10 an include enters no script.
pub fn scripts_include_one_another_so_deep()
    ensures main { (find : names.ScriptName → Lookup) (arrival : Arrival) (main : names.ScriptName)
        (program : Commands) → spec.run_of find arrival main program ≡ spec.running find (depth_left
        (spec.delivery_to arrival main)) (spec.delivery_to arrival main) program (spec.begun main) }
    ensures within { (find : names.ScriptName → Lookup) (delivery : Delivery)
        (name : names.ScriptName) (once optional : Bool) (line : ℕ) (state : RunState)
        → spec.included find (depth_left delivery) delivery name once optional line state
        ≡ spec.include_of find delivery
        (entered_within find delivery) name once optional line state }
    ensures deepest { (find : names.ScriptName → Lookup) (delivery : Delivery)
        (name : names.ScriptName) (once optional : Bool) (line : ℕ) (state : RunState)
        → IsDeepest delivery → (state_after (spec.included find
        (depth_left delivery) delivery name once optional line state)).entered ≡ state.entered }
{}

/// At no moment of a run do more than 10 scripts run below the main one (RFC 6609, 3.1). A run is
/// the same whatever is done in place of a script that more scripts include.
pub fn no_run_comes_to_a_deeper_script()
    ensures { (beyond : Delivery → Commands → RunState → Ending) (find : names.ScriptName → Lookup)
        (arrival : Arrival) (main : names.ScriptName) (program : Commands)
        → watched_run beyond find arrival main program ≡ spec.run_of find arrival main program }
{}

/// A verdict, with the names that it looked up, is the same over libraries that agree at these
/// names. They have the same profile. They agree at a name if they have the same text there, or
/// none has any.
#[tactic(auto, using(crate::proofs::Frame::frame))]
pub fn a_verdict_depends_on_what_it_looked_up()
    ensures { (texts others : LibraryTexts) (main : Option names.ScriptName) (arrival : Arrival)
        → Agree texts others (verdict_over texts main arrival).lookups
        → verdict_over others main arrival ≡ verdict_over texts main arrival }
{}

/// Tests set match variables at most (RFC 5229, 3.2). They change neither the actions of a run nor
/// whether the implicit keep is cancelled. They change neither the names looked up nor the
/// variables that are set.
#[tactic(auto, using(crate::proofs::Unchanged::decide_keeps))]
pub fn tests_set_match_variables_at_most()
    ensures state { (delivery : Delivery) (condition : Condition) (state : RunState)
        → spec.SetsMatched state (spec.decide (spec.answer_of delivery) condition state).state }
{}

/// Running a script's commands gives the same as doing the leaves of its walk in turn. They are
/// done up to the first that ends the run. The walk goes by the answers of the tests. Doing in turn
/// what the walk meets with the list of these answers gives the same too. This holds whatever tests
/// ask, and whatever commands that act do.
#[tactic(auto, using(crate::proofs::Performing::walking))]
pub fn a_run_does_its_walk()
    ensures same { (ask : Ask → RunState → spec.Answer) (act : Leaf → ℕ → RunState → Ending)
        (program : Commands) (state : RunState)
        → spec.exec ask act program state ≡ perform ask act (script_walk program) state }
    ensures met { (ask : Ask → RunState → spec.Answer) (act : Leaf → ℕ → RunState → Ending)
        (program : Commands) (state : RunState) → spec.exec ask act program state ≡ do_gone
        ask act (gone (script_walk program) (answers_of ask act (script_walk program) state)) state }
{}

/// No verdict has more actions than a run may perform (RFC 5228, 2.10.4). This holds for all
/// scripts, messages, envelopes and profiles.
#[tactic(auto, using(crate::proofs::Bounds::verdict_bounded))]
pub fn no_run_acts_too_often()
    ensures { (find : names.ScriptName → Lookup) (main : Option names.ScriptName)
        (arrival : Arrival) → length (spec.verdict_of find main arrival).entries ≤ action_limit }
{}

/// Each action is kept in one record with the command that entered it. If a command performs an
/// action, the actions that were there keep their commands, joined or not. A new action has this
/// command.
#[tactic(auto, using(crate::proofs::Bounds::performed_entries))]
pub fn each_action_has_its_origin()
    ensures { (delivery : Delivery) (line : ℕ) (deed : Deed) (state : RunState) → ComesOf delivery
        line deed state.entries (state_after (performs delivery line deed state)).entries }
{}

/// No two actions of a verdict are one. It has no two stores into one mailbox and no two redirects
/// to one address. It has no two discards either (RFC 5228, 2.10.3), no two responses and no two
/// rejections.
#[tactic(auto, using(crate::proofs::Distinct::verdict_distinct))]
pub fn no_run_acts_twice_alike()
    ensures { (find : names.ScriptName → Lookup) (main : Option names.ScriptName)
        (arrival : Arrival) → AreDistinctActions (actions_of (spec.verdict_of find main arrival)) }
{}

/// A verdict answers the sender at most once (RFC 5230, 4.7). If it rejects the message, it does so
/// once, and its other actions discard the message (RFC 5429, 2.4).
#[tactic(auto, using(crate::proofs::AtPeace::verdict_responses, crate::proofs::AtPeace::verdict_rejections))]
pub fn no_run_acts_against_itself()
    ensures responses { (find : names.ScriptName → Lookup) (main : Option names.ScriptName)
        (arrival : Arrival)
        → length (filter is_response (actions_of (spec.verdict_of find main arrival))) ≤ 1 }
    ensures rejections { (find : names.ScriptName → Lookup) (main : Option names.ScriptName)
        (arrival : Arrival)
        → list_any is_rejection (actions_of (spec.verdict_of find main arrival)) ≡ true
        → length (filter (λ action. not (goes_with_rejections action))
        (actions_of (spec.verdict_of find main arrival))) ≡ 1 }
{}
