//! Laws over the definitions. Each of these functions does nothing: its contract is the law.

ghost use Rattle.std.specs.Prelude.{◌≡◌, ◌++◌, ℕ, List};
ghost use Rattle.session_server.specs.Session.{BrokenSession, CutSession, IsFront, Moved, Served, Steps, request_of};

use bench::laws::an_edit_keeps_the_profile;

/// A cut session is one of which no more could be written. Its text is a front of a session's text.
/// There is a reply to each command, and an end to each stream.
pub fn a_cut_session_is_the_front_of_one()
    ensures { (old new : Served) (stream text : List ℕ) → CutSession old stream text new
        → IsFront old stream text }
{}

/// A broken session is one of which no more could be read. It has carried out the first commands of
/// a session over its octets and any after them. It has their replies and the bench that they
/// leave. Such a session continues with the octets that were left and those after them. So the text
/// of a broken session is a front of the text of such a session.
pub fn a_broken_session_is_the_front_of_one()
    ensures steps { (old new : Served) (read text more : List ℕ)
        (session : BrokenSession old read text new)
        → Steps request_of old (read ++ more) text new (session.rest ++ more) }
    ensures front { (old new : Served) (read text more : List ℕ) → BrokenSession old read text new
        → IsFront old (read ++ more) text }
{}

/// Whatever edits and reports a session makes, its bench keeps its profile.
pub fn a_session_keeps_the_profile()
    ensures { (old new : Served) → Moved old new
        → new.bench.content.profile ≡ old.bench.content.profile }
{
    an_edit_keeps_the_profile();
}
