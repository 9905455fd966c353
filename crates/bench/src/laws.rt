//! Laws over the definitions. Each of these functions does nothing: its contract is the law.

ghost use Rattle.std.specs.Prelude.{◌≡◌, ℕ, List, ◌∷◌, ◌++◌, Ok, Err, false, nat_eq};
ghost use Rattle.std.specs.List.{flat_map};
ghost use lib.Pointwise.{pointwise};
ghost use Rattle.bench.specs.Content.{Content, Edit, after, new_content, set_for_one};
ghost use Rattle.bench.specs.Edits.{IsInOrder, IsWithinLimits, content_after, rebuild};
ghost use Rattle.bench.specs.Report.{indented, report_text, verdict_text};
ghost use Rattle.bench.specs.Stale.{verdict_due};
ghost use Rattle.bench.specs.Test.{after_all};
ghost use Rattle.sieve_profile.specs.Profile.{Profile, has};
ghost use Rattle.sieve_profile.specs.declared.extension.Extension.TheVariants.{Lines};
ghost use Rattle.sieve_verdict.specs.Lines.{lookup_lines, verdict_lines};
ghost use Rattle.sieve_verdict.specs.Verdict.{Verdict};
ghost use Rattle.bench.specs.declared.fault.EditFault as faults;
ghost use Rattle.bench.specs.declared.setting.MessageSetting.{MessageSetting};

/// A refused edit leaves a content as it was, and those after it are made of that. Where none is
/// refused, each is made of the content that the one before it made.
pub fn refused_edits_leave_the_content()
    ensures refused { (content : Content) (edit : Edit) (edits : List Edit)
        (fault : faults.EditFault) → after content edit ≡ Err fault
        → content_after content (edit ∷ edits) ≡ content_after content edits }
    ensures made { (content : Content) (edits : List Edit) (new : Content)
        → after_all content edits ≡ Ok new → content_after content edits ≡ new }
{}

/// Scripts stay in the order of their names, and no two messages come to have one id. A new bench
/// is so, and each edit that isn't refused keeps it so. So do edits in turn, whichever of them are
/// refused.
pub fn edits_keep_the_order()
    ensures first { (profile : Profile) → IsInOrder (new_content profile) }
    ensures each { (content : Content) (edit : Edit) (new : Content) → IsInOrder content
        → after content edit ≡ Ok new → IsInOrder new }
    ensures turns { (content : Content) (edits : List Edit) → IsInOrder content
        → IsInOrder (content_after content edits) }
{}

/// Whatever edits are made of a new bench, all that it holds is within the limits.
pub fn edits_keep_the_limits()
    ensures { (profile : Profile) (edits : List Edit)
        → IsWithinLimits (content_after (new_content profile) edits) }
{}

/// Edits never change a bench's profile, whichever of them are refused.
pub fn an_edit_keeps_the_profile()
    ensures each { (content : Content) (edit : Edit) (new : Content) → after content edit ≡ Ok new
        → new.profile ≡ content.profile }
    ensures turns { (content : Content) (edits : List Edit)
        → (content_after content edits).profile ≡ content.profile }
{}

/// A content is all that edits leave. Putting a bench's content into a new bench of its profile
/// makes the content anew, and so its report. None of the edits that do so is refused.
pub fn a_content_is_made_anew()
    ensures made { (profile : Profile) (edits : List Edit)
        → after_all (new_content profile) (rebuild (content_after (new_content profile) edits))
        ≡ Ok (content_after (new_content profile) edits) }
    ensures content { (profile : Profile) (edits : List Edit)
        → content_after (new_content profile) (rebuild (content_after (new_content profile) edits))
        ≡ content_after (new_content profile) edits }
    ensures report { (profile : Profile) (edits : List Edit) → report_text
        (content_after (new_content profile) (rebuild (content_after (new_content profile) edits)))
        ≡ report_text (content_after (new_content profile) edits) }
{}

/// No other message is judged otherwise where one is given a setting.
pub fn settings_of_one_message_leave_the_others()
    ensures { (content : Content) (id other : List ℕ) (setting : MessageSetting) (new : Content)
        → after content (set_for_one id setting) ≡ Ok new
        → pointwise nat_eq id other ≡ false → verdict_due new other ≡ verdict_due content other }
{}

/// Without `lines`, a report has the expected lines of a verdict, and those of the names that it
/// looked up.
pub fn origins_are_told_where_they_are_asked_for()
    ensures { (profile : Profile) (mailbox : List ℕ) (verdict : Verdict) → has profile Lines ≡ false
        → verdict_text profile mailbox verdict
        ≡ flat_map indented (verdict_lines mailbox verdict ++ lookup_lines verdict) }
{}
