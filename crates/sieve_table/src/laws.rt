//! Laws over the definitions. Each of these functions does nothing: its contract is the law.
ghost use Rattle.std.specs.Prelude.{◌≡◌, ◌-◌, ◌||◌, ◌∷◌, ◌++◌, ℕ, List, [], Some, filter, length, map, slice_get, true};
ghost use Rattle.std.specs.List.{list_any};
ghost use Rattle.sieve_table.specs.Capability.{capabilities, capability_name, is_name_of};
ghost use Rattle.sieve_profile.specs.Profile.{Profile};
ghost use Rattle.sieve_table.specs.Known.{is_known, names_known};
ghost use Rattle.sieve_table.specs.Required.{Required, is_required, requiring};
ghost use Rattle.sieve_table.specs.Rule.{all_rules, rule_number};
ghost use Rattle.sieve_table.specs.Table.{command_named, command_row, commands, same_tag, tag_named, tag_row, test_named, test_row, tests};
ghost use Rattle.sieve_table.specs.declared.capability.Capability.{Capability};
ghost use Rattle.sieve_table.specs.declared.rule.Rule.{Rule};
ghost use Rattle.sieve_table.specs.declared.table.CommandKind.{CommandKind};
ghost use Rattle.sieve_table.specs.declared.tag.Tag.{Tag};
ghost use Rattle.sieve_table.specs.declared.table.TestKind.{TestKind};

/// The rules stand in the order of their numbers: the rule of number n is the n-th. The list of
/// them has 20 entries.
pub fn rules_go_by_their_numbers()
    ensures order { (rule : Rule) → slice_get all_rules (rule_number rule - 1) ≡ Some rule }
    ensures all { length all_rules ≡ 20 }
{}

/// After a string of a `require`, a capability is required if it was before, or if the string names
/// it. No other is.
#[tactic(auto, using(crate::proofs::Naming::named_is_required))]
pub fn what_is_named_is_required()
    ensures { (required : Required) (name : List ℕ) (capability : Capability)
        → is_required (requiring required name) capability
        ≡ (is_required required capability || is_name_of name capability) }
{}

/// Each command and each test is found by the name of its row. Each tag that one takes is found by
/// its name among the tags of that one. Some command or test takes each tag. The name of a
/// capability is a known one if and only if the profile knows the capability. No other capability
/// has that name.
#[tactic(auto, using(crate::proofs::Names::names))]
pub fn names_are_found()
    ensures commands { (kind : CommandKind) → command_named (command_row kind).name ≡ Some kind }
    ensures tests { (kind : TestKind) → test_named (test_row kind).name ≡ Some kind }
    ensures command_tags { (kind : CommandKind) → map (λ tag. tag_named (command_row kind).tags
        (tag_row tag).name) (command_row kind).tags ≡ map Some (command_row kind).tags }
    ensures test_tags { (kind : TestKind) → map (λ tag. tag_named (test_row kind).tags
        (tag_row tag).name) (test_row kind).tags ≡ map Some (test_row kind).tags }
    ensures taken { (tag : Tag) → list_any (λ tags. list_any (same_tag tag) tags)
        (map (λ kind. (command_row kind).tags) commands ++ map (λ kind. (test_row kind).tags) tests)
        ≡ true }
    ensures capabilities { (profile : Profile) (capability : Capability)
        → names_known profile (capability_name capability) ≡ is_known profile capability }
    ensures alone { (capability : Capability)
        → filter (is_name_of (capability_name capability)) capabilities ≡ capability ∷ [] }
{}
