//! Laws over the definitions. Each of these functions does nothing: its contract is the law.
ghost use Rattle.std.specs.Prelude.{◌≡◌, ◌∷◌, ℕ, true, false, map, slice_get, take, All, List, [], Option, None, Some};
ghost use Rattle.std.specs.List.{flat_map};
ghost use Rattle.sieve_limits.specs.Limits.{test_depth, block_room};
ghost use Rattle.sieve_profile.specs.Profile.{Profile, with_extension};
ghost use Rattle.sieve_profile.specs.declared.extension.Extension.TheVariants.{Unused};
ghost use Rattle.sieve_check.specs.Absent.{lacks};
ghost use Rattle.sieve_check.specs.Judgement.{judgement_of, sound};
ghost use Rattle.sieve_syntax.specs.Grammar.{WritesSymbols};
ghost use Rattle.sieve_syntax.specs.Token.{Spells};
ghost use Rattle.sieve_syntax.specs.Tree.{Argument, Command, CommandList};
ghost use Rattle.sieve_syntax.specs.Symbol.{symbols_of};
ghost use Rattle.sieve_syntax.specs.declared.token.Token.{Token};
ghost use Rattle.sieve_check.specs.Asked.{AreAlike, asked_by_command, asked_by_test, gives_all};
ghost use Rattle.sieve_check.specs.Breach.{Breach, breaches_at, breaches_of, breaks, first_breach, IsLeastBreach};
ghost use Rattle.sieve_check.specs.Context.{Context, past_commands, script_start, takes_references, under};
ghost use Rattle.sieve_check.specs.Element.{Element, elements_of, command_list_elements};
ghost use Rattle.sieve_check.specs.Naming.{HasSetBefore, mentions_in, set_by};
ghost use Rattle.sieve_check.specs.Order.{IsInTextOrder};
ghost use Rattle.sieve_check.specs.Cut.{cut_row, parts_in};
ghost use Rattle.sieve_check.specs.Marks.{DoesAll};
ghost use Rattle.sieve_check.specs.Script.{script_of};
ghost use Rattle.sieve_check.specs.Requirement.{JudgesAfterRequires};
ghost use Rattle.sieve_table.specs.Role.{names_variable};
ghost use Rattle.sieve_table.specs.Rule.{all_rules};
ghost use Rattle.sieve_script.specs.CommandReading.{command_reading_by};
ghost use Rattle.sieve_script.specs.Given.{tags_of};
ghost use Rattle.sieve_script.specs.TestReading.{test_reading_by};
ghost use Rattle.sieve_script.specs.Script.{Commands};
ghost use Rattle.sieve_script.specs.CutArgument.{CutArgument};
ghost use Rattle.sieve_script.specs.declared.label.Label.{Label};
ghost use Rattle.sieve_table.specs.Table.{Row, command_row, test_row};
ghost use Rattle.sieve_table.specs.declared.row.Role.{Role};
ghost use Rattle.sieve_table.specs.declared.row.TagKind.TheVariants.{Bound};
ghost use Rattle.sieve_table.specs.declared.rule.Rule.{Rule};
ghost use Rattle.sieve_table.specs.declared.rule.Rule.TheVariants.{RequirePlace, UnknownCapability, UnknownCommand, NotRequired, ElsePlace, BadTag, BadArguments, UnknownComparator, BadVariableName, GlobalAfterSet, BadNamespace, MatchIndex, NumberTooLarge, BadEnvelopePart, NotAddressHeader, TooManyVariables, BadCharacter, BadRelation, UnfitComparator, BadDatePart};
ghost use Rattle.sieve_table.specs.declared.table.CommandKind.{CommandKind};
ghost use Rattle.sieve_table.specs.declared.tag.Tag.TheVariants.{Over, Under};
ghost use Rattle.sieve_table.specs.declared.table.TestKind.{TestKind};
ghost use Rattle.sieve_table.specs.declared.table.TestKind.TheVariants.{Size};
ghost use Rattle.sieve_variables.specs.Part.{grouped, literal, scoped_part, variable_part};
ghost use Rattle.sieve_variables.specs.Reference.{CutsReferences, ReferencePiece};
ghost use Rattle.sieve_variables.specs.Variable.{scoped, variable_named};

/// The breaches of a script are those of its elements: commands, tests, strings and numbers in text
/// order. Those of one element are in the order of the rules' numbers, which is written here. So
/// the first breach is the least.
#[tactic(auto, using(crate::proofs::Least::least))]
pub fn first_breach_is_least()
    ensures rules { all_rules ≡ RequirePlace ∷ UnknownCapability ∷ UnknownCommand ∷ NotRequired
        ∷ ElsePlace ∷ BadTag ∷ BadArguments ∷ UnknownComparator ∷ BadVariableName ∷ GlobalAfterSet
        ∷ BadNamespace ∷ MatchIndex ∷ NumberTooLarge ∷ BadEnvelopePart ∷ NotAddressHeader
        ∷ TooManyVariables ∷ BadCharacter ∷ BadRelation ∷ UnfitComparator ∷ BadDatePart ∷ [] }
    ensures order { (profile : Profile) (tree : List Command)
        → breaches_of profile tree ≡ flat_map breaches_at (elements_of profile tree) }
    ensures least { (profile : Profile) (tree : List Command) (breach : Breach)
        → first_breach profile tree ≡ Some breach → IsLeastBreach profile tree breach }
{}

/// A string is cut into parts by its role. Its octets here are those that it says, with encoded
/// characters replaced (RFC 5228, section 2.4.2.4). Where its references stand for values, its
/// parts are those of its one cut (RFC 5229, section 3). The name of a variable is that variable
/// alone (RFC 5229, section 4; RFC 5232, sections 3 and 4). In both, names that are declared
/// become those of variables that scripts share (RFC 6609, section 3.4.1). Any other string is one
/// literal of its octets.
pub fn parts_go_by_the_role()
    ensures expanded { (context : Context) (role : Option Role) (octets : List ℕ)
        → takes_references context.required role ≡ true
        → (pieces : List ReferencePiece) × CutsReferences pieces octets × (parts_in context role octets
        ≡ map (scoped_part context.scope.declared) (grouped pieces)) }
    ensures name { (context : Context) (role : Option Role) (octets : List ℕ)
        → names_variable role ≡ true → parts_in context role octets
        ≡ variable_part (scoped context.scope.declared (variable_named octets)) ∷ [] }
    ensures plain { (context : Context) (role : Option Role) (octets : List ℕ)
        → names_variable role ≡ false → takes_references context.required role ≡ false
        → parts_in context role octets ≡ literal octets ∷ [] }
{}

/// After the `require` commands at the top of a script, exactly the capabilities that these
/// name are required. Each command, test and string after them is judged by these
/// (RFC 5228, section 3.2).
#[tactic(auto, using(crate::proofs::Requirement::judged_after))]
pub fn what_is_required_is_named_at_the_top()
    ensures { (profile : Profile) (tree : List Command) → JudgesAfterRequires profile tree }
{}

/// The variables that a text sets are the identifiers that it writes to set them (RFC 5229,
/// section 4). Each comes once, as it is first written; names ignore the case of ASCII (RFC 5229,
/// section 3). Those that the text declares before are left out (RFC 6609, section 3.4.1). So it is
/// after a text, and before each command, test and string of a script. There, exactly the variables
/// are set that the commands before the element's own command set.
pub fn what_is_written_to_be_set_is_set()
    ensures after { (profile : Profile) (commands : CommandList)
        → (past_commands (script_start profile) commands).scope.assigned
        ≡ set_by (mentions_in (command_list_elements (script_start profile) commands)) }
    ensures before { (profile : Profile) (tree : List Command) (place : ℕ) (element : Element)
        → slice_get (elements_of profile tree) place ≡ Some element
        → HasSetBefore (take place (elements_of profile tree)) element }
{}

/// The abstract script of a tree without a breach has the same marks as the tree, in text order.
/// Marks show each command that stops, returns or acts, and each branch with its condition and its
/// block. They show each test in a condition, and which tests are negated or joined. The branches
/// of an `if` are its own: each `elsif` and the `else` right after it. So no block stands in
/// another branch. No mark shows that an argument is kept: both sides have the same readings.
#[tactic(auto, using(crate::proofs::Marks::marks_kept))]
pub fn a_faultless_script_does_all()
    ensures { (profile : Profile) (tree : List Command)
        → breaches_of profile tree ≡ [] → DoesAll profile tree }
{}

/// Where a script has no first breach, none of its elements breaks a rule.
#[tactic(auto, using(crate::proofs::Unbroken::unbroken))]
pub fn without_a_breach_no_rule_is_broken()
    ensures { (profile : Profile) (tree : List Command) → first_breach profile tree ≡ None
        → All (λ e. (rule : Rule) → breaks e rule ≡ false) (elements_of profile tree) }
{}

/// A script without a breach has no command, test, tag or comparator that the profile doesn't
/// know. It doesn't matter whether another profile knows it, or none. No leading `require`
/// names a capability that may not be required. So by the empty profile a script has only
/// things that each bench knows.
pub fn what_is_not_known_is_in_no_script()
    ensures { (profile : Profile) (tree : List Command) → breaches_of profile tree ≡ []
        → All (λ e. lacks profile e ≡ false) (elements_of profile tree) }
{}

/// A text without a fault has none with `unused` either. It is the same script then, so its code is
/// the same. Any tree makes the same script with `unused` as without. The arguments of every row
/// are cut alike too.
pub fn unused_changes_no_sound_script()
    ensures sound { (profile : Profile) (text : List ℕ) (script : Commands)
        → judgement_of profile text ≡ sound script
        → judgement_of (with_extension profile Unused) text ≡ sound script }
    ensures tree { (profile : Profile) (tree : List Command)
        → script_of (with_extension profile Unused) tree ≡ script_of profile tree }
    ensures strings { (profile : Profile) (context : Context) (row : Row) (args : List Argument)
        → cut_row (under (with_extension profile Unused) context) row args
        ≡ cut_row (under profile context) row args }
{}

/// The row of a command or a test gives each argument that the reading asks for. One that is always
/// there has exactly one slot of its role in the row. This is a positional one other than the one
/// in front, so it can't be left out. One that may be left out has one slot or more of its role, in
/// front or taken by tags. These slots have the form of the argument as it is read. Its strings are
/// cut as the reading needs them. These arguments, as they are read, and the tags are all that a
/// command or a test is read by. The tags of `size` are `:over` and `:under`, of which a script
/// without a breach gives one.
pub fn rows_give_what_readings_ask_for()
    ensures tests { (kind : TestKind) → gives_all (test_row kind) (asked_by_test kind) ≡ true }
    ensures commands { (kind : CommandKind)
        → gives_all (command_row kind) (asked_by_command kind) ≡ true }
    ensures tests_alone { (kind : TestKind) (labels others : List Label)
        (args arguments : List CutArgument) → tags_of labels ≡ tags_of others
        → AreAlike (asked_by_test kind) labels others args arguments
        → test_reading_by kind labels args ≡ test_reading_by kind others arguments }
    ensures commands_alone { (kind : CommandKind) (labels others : List Label)
        (args arguments : List CutArgument) → tags_of labels ≡ tags_of others
        → AreAlike (asked_by_command kind) labels others args arguments
        → command_reading_by kind labels args ≡ command_reading_by kind others arguments }
    ensures bounds { (test_row Size).tags ≡ Over ∷ Under ∷ [] }
    ensures bound { (test_row Size).one_of ≡ Some Bound }
{}

/// A tree that writes a text has its identifiers, strings and numbers as elements, one by one
/// in order. Its tokens aren't empty, and stand apart and in order in the text. The lines of
/// the elements never fall.
pub fn elements_are_in_text_order()
    ensures { (profile : Profile) (tree : List Command) (text : List ℕ) (tokens : List Token)
        → Spells tokens text → WritesSymbols test_depth block_room tree (symbols_of text tokens)
        → IsInTextOrder profile tree text tokens }
{}
