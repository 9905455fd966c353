//! Laws over the definitions. Each of these functions does nothing: its contract is the law.
ghost use Rattle.std.specs.Prelude.{◌≡◌, ◌<◌, ◌∷◌, ℕ, List, [], None, Some, IfSome, codes, is_some, map, nat_eq, true};
ghost use Rattle.std.specs.List.{All, list_all, list_any};
ghost use lib.Pointwise.{pointwise};
ghost use Rattle.devices.specs.Writers.{quoted};
ghost use Rattle.session_text.specs.LineOf.{IsLineOf, IsWord, joined};
ghost use Rattle.session_text.specs.SessionLine.{SessionCommand, command_of_line, extension_of, line_kind, line_word, line_words, word_value};
ghost use Rattle.session_text.specs.declared.line_kind.LineKind.{LineKind};
ghost use Rattle.sieve_profile.specs.Profile.{Profile, empty_profile, has};
ghost use Rattle.octets.specs.Octet.{is_printable};

/// The quoted form of octets, as reports print it, is a word that stands for these octets.
pub fn a_quoted_word_stands_for_its_octets()
    ensures { (octets : List ℕ) → All (λ octet. octet < 256) octets
        → word_value (quoted octets) ≡ Some octets }
{}

/// The first word of each line that asks for something is that of no other. A line asks for
/// something exactly if its first word is one of these.
#[tactic(auto, using(crate::proofs::LineWords::lines_known))]
pub fn lines_are_found_by_their_words()
    ensures found { (kind : LineKind) → line_kind (line_word kind) ≡ Some kind }
    ensures these { (word : List ℕ) → is_some (line_kind word) ≡ list_any
        (λ known. pointwise nat_eq known word) (codes "script" ∷ codes "message" ∷ codes "main" ∷ codes "no-main" ∷ codes "rename"
        ∷ codes "drop-script" ∷ codes "drop-message" ∷ codes "envelope" ∷ codes "mailbox" ∷ codes "report"
        ∷ codes "dump" ∷ codes "expect" ∷ codes "no-expect" ∷ codes "mailboxes"
        ∷ codes "message-envelope" ∷ codes "no-message-envelope" ∷ codes "clock" ∷ codes "no-clock" ∷ []) }
{}

/// The words of a line that is made of words are these words. Each is bare or in the quoted form
/// that reports print. There is one space or more between each two, and any in front and after.
pub fn words_stand_between_spaces()
    ensures joined { (words : List (List ℕ)) → All IsWord words
        → line_words (joined words) ≡ words }
    ensures spaced { (words : List (List ℕ)) (line : List ℕ) → IsLineOf words line
        → line_words line ≡ words }
{}

/// A line of the quoted forms of values has no octet that a session refuses. Its words give back
/// each value.
pub fn a_line_gives_back_its_values()
    ensures plain { (values : List (List ℕ)) → All (All (λ octet. octet < 256)) values
        → list_all is_printable (joined (map quoted values)) ≡ true }
    ensures values { (values : List (List ℕ)) → All (All (λ octet. octet < 256)) values
        → map word_value (line_words (joined (map quoted values))) ≡ map Some values }
{}

/// No line is a command that needs an extension that the profile lacks. A command that needs none
/// is one under each profile alike.
pub fn what_needs_a_name_is_there_by_it()
    ensures named { (profile : Profile) (line : List ℕ) → IfSome (command_of_line profile line)
        (λ command. IfSome (extension_of command) (λ name. has profile name ≡ true)) }
    ensures nameless { (profile other : Profile) (line : List ℕ) (command : SessionCommand)
        → extension_of command ≡ None → command_of_line profile line ≡ Some command
        → command_of_line other line ≡ Some command }
    ensures empty { (profile : Profile) (line : List ℕ) (command : SessionCommand)
        → command_of_line empty_profile line ≡ Some command
        → command_of_line profile line ≡ Some command }
{}
