//! Laws over lists of flags. Each of these functions does nothing: its contract is the law.
ghost use Rattle.std.specs.Prelude.{◌≡◌, ◌∷◌, ℕ, List, [], true};
ghost use Rattle.std.specs.List.{All};
ghost use Rattle.flag_lists.specs.Flags.{AreDistinct, distinct, flag_list, flag_union, flags_in, flags_of_texts, flags_without, is_flag};

/// No two flags that texts list are the same (RFC 5232, section 2). The same holds for the union of
/// two lists, if it holds for the first. It also holds for the rest of such a list after others are
/// taken out.
pub fn no_two_flags_are_the_same()
    ensures list { (text : List ℕ) → AreDistinct (flag_list text) }
    ensures lists { (texts : List (List ℕ)) → AreDistinct (flags_of_texts texts) }
    ensures union { (a b : List (List ℕ)) → AreDistinct a → AreDistinct (flag_union a b) }
    ensures without { (a b : List (List ℕ)) → AreDistinct a → AreDistinct (flags_without a b) }
{}

/// Each member of the list of a text's flags is a flag (RFC 5232, section 2).
pub fn each_of_a_list_is_a_flag()
    ensures { (text : List ℕ) → All (λ flag. is_flag flag ≡ true) (flag_list text) }
{}

/// Let no two flags of a list be the same. The list stays as it is if each flag is taken once, and
/// if it is joined to no flags.
pub fn distinct_flags_stay()
    ensures distinct { (flags : List (List ℕ)) → AreDistinct flags → distinct flags ≡ flags }
    ensures union { (flags : List (List ℕ)) → AreDistinct flags → flag_union [] flags ≡ flags }
{}

/// To add the flags of some texts is to add the flags of each text in turn. To take them out is to
/// take out the flags of each text in turn (RFC 5232, 3.2 and 3.3).
pub fn texts_are_changed_in_turn()
    ensures none_added { (flags : List (List ℕ)) → flag_union flags (flags_of_texts []) ≡ flags }
    ensures added { (flags : List (List ℕ)) (text : List ℕ) (texts : List (List ℕ))
        → flag_union flags (flags_of_texts (text ∷ texts))
        ≡ flag_union (flag_union flags (flags_in text)) (flags_of_texts texts) }
    ensures none_taken { (flags : List (List ℕ)) → flags_without flags (flags_of_texts []) ≡ flags }
    ensures taken { (flags : List (List ℕ)) (text : List ℕ) (texts : List (List ℕ))
        → flags_without flags (flags_of_texts (text ∷ texts))
        ≡ flags_without (flags_without flags (flags_in text)) (flags_of_texts texts) }
{}

/// To take flags out is to take each of them out in turn (RFC 5232, 3.3).
pub fn flags_are_taken_out_in_turn()
    ensures none { (flags : List (List ℕ)) → flags_without flags [] ≡ flags }
    ensures more { (flags others : List (List ℕ)) (flag : List ℕ) → flags_without flags
        (flag ∷ others) ≡ flags_without (flags_without flags (flag ∷ [])) others }
{}
