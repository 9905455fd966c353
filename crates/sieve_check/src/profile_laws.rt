//! Laws about capabilities that are asked for by name. Each of these functions does nothing: its
//! contract is the law.
ghost use Rattle.std.specs.Prelude.{◌≡◌, ◌∷◌, Some, [], filter};
ghost use Rattle.std.specs.List.{filter_map};
ghost use Rattle.sieve_profile.specs.Extension.{extension_name, extensions};
ghost use Rattle.sieve_profile.specs.Profile.{empty_profile};
ghost use Rattle.sieve_profile.specs.declared.extension.Extension.{Extension};
ghost use Rattle.sieve_profile.specs.declared.extension.Extension.TheVariants as extension;
ghost use Rattle.sieve_table.specs.Capability.{capabilities, capability_name};
ghost use Rattle.sieve_table.specs.Known.{extension_of, is_known, is_known_row, is_known_tag};
ghost use Rattle.sieve_table.specs.Table.{all_tags, command_row, commands, test_row, tests};
ghost use Rattle.sieve_table.specs.declared.capability.Capability.{Capability};
ghost use Rattle.sieve_table.specs.declared.capability.Capability.TheVariants as capability;
ghost use Rattle.sieve_table.specs.declared.table.CommandKind.TheVariants as command;
ghost use Rattle.sieve_table.specs.declared.tag.Tag.TheVariants as tag;
ghost use Rattle.sieve_table.specs.declared.table.TestKind.TheVariants as test;

/// By the empty profile exactly these capabilities, commands, tests and tags are known: those
/// that each bench knows.
pub fn the_empty_profile_knows_what_each_bench_does()
    ensures capabilities { filter (is_known empty_profile) capabilities ≡ capability.Fileinto
        ∷ capability.Envelope ∷ capability.Variables ∷ capability.Imap4flags ∷ capability.Include
        ∷ capability.Copy ∷ capability.OctetComparator ∷ capability.CasemapComparator ∷ [] }
    ensures commands { filter (λ kind. is_known_row empty_profile (command_row kind)) commands
        ≡ command.Require ∷ command.If ∷ command.Elsif ∷ command.Else ∷ command.Keep
        ∷ command.Fileinto ∷ command.Redirect ∷ command.Discard ∷ command.Stop ∷ command.Set
        ∷ command.SetFlag ∷ command.AddFlag ∷ command.RemoveFlag ∷ command.Include ∷ command.Return
        ∷ command.Global ∷ [] }
    ensures tests { filter (λ kind. is_known_row empty_profile (test_row kind)) tests
        ≡ test.Header ∷ test.Address ∷ test.Envelope ∷ test.Exists ∷ test.Size ∷ test.AllOf
        ∷ test.AnyOf ∷ test.Not ∷ test.True ∷ test.False ∷ test.String ∷ test.HasFlag ∷ [] }
    ensures tags { filter (is_known_tag empty_profile) all_tags ≡ tag.Comparator ∷ tag.Is
        ∷ tag.Contains ∷ tag.Matches ∷ tag.All ∷ tag.LocalPart ∷ tag.Domain ∷ tag.Over ∷ tag.Under
        ∷ tag.Lower ∷ tag.Upper ∷ tag.LowerFirst ∷ tag.UpperFirst ∷ tag.QuoteWildcard ∷ tag.Length
        ∷ tag.Flags ∷ tag.Personal ∷ tag.Global ∷ tag.Once ∷ tag.Optional ∷ tag.Copy ∷ [] }
{}

/// The names of a profile stand in this order, that of their letters. A capability that needs one
/// has its name. The last list has the names of these capabilities, in the order of the
/// capabilities. All other names are of no capability.
#[tactic(auto, using(crate::proofs::Asking::named_alike))]
pub fn capabilities_are_asked_for_by_their_names()
    ensures order { extensions
        ≡ extension.Body ∷ extension.Charsets ∷ extension.AsciiNumeric ∷ extension.Date
        ∷ extension.Duplicate ∷ extension.EncodedCharacter ∷ extension.Envelopes ∷ extension.Ereject
        ∷ extension.Lines ∷ extension.Mailbox ∷ extension.Reject ∷ extension.Relational
        ∷ extension.SpecialUse ∷ extension.Subaddress ∷ extension.Unused ∷ extension.Vacation ∷ [] }
    ensures alike { (capability : Capability) (name : Extension)
        → extension_of capability ≡ Some name → capability_name capability ≡ extension_name name }
    ensures names { filter_map extension_of capabilities
        ≡ extension.Subaddress ∷ extension.Mailbox ∷ extension.SpecialUse ∷ extension.Duplicate
        ∷ extension.Relational ∷ extension.EncodedCharacter ∷ extension.Vacation ∷ extension.Reject
        ∷ extension.Ereject ∷ extension.Date ∷ extension.Body ∷ extension.AsciiNumeric ∷ [] }
{}
