//! Laws over the definitions. Each of these functions does nothing: its contract is the law.
ghost use Rattle.std.specs.Prelude.{◌≡◌, ◌∷◌, ◌++◌, ◌<◌, ◌^◌, ◌↔◌, ◌⊎◌, ◌||◌, ℕ, IsSome, List, [], None, Some, codes, decimal, false, is_some, length, map, nat_eq, not, true};
ghost use Rattle.std.specs.Cmp.{IsEquivalence, IsTotalOrder};
ghost use Rattle.std.specs.Ordering.{nat_cmp};
ghost use Rattle.std.specs.declared.cmp.Ordering as orderings;
ghost use Rattle.std.specs.declared.cmp.Ordering.TheVariants.{Equal, Greater, Less};
ghost use Rattle.octets.specs.Octet.{octet_of};
ghost use lib.Pointwise.{pointwise};
ghost use Rattle.std.specs.List.{list_any};
ghost use Rattle.match_text.specs.Comparator.{IsPart, Same, ascii_casemap, collation_named, is_part, octet, same};
ghost use Rattle.match_text.specs.Order.{are_equal, first_digits, number_of, order_of};
ghost use Rattle.match_text.specs.Relation.{is_word_of, relation_named, relation_word, stands_in};
ghost use Rattle.match_text.specs.Room.{may_match};
ghost use Rattle.match_text.specs.Wildcard.{Fits, IsLeastFit, TakeInTurn, least_fit, matched, taken};
ghost use Rattle.match_text.specs.declared.comparators.Collation.{Collation};
ghost use Rattle.match_text.specs.declared.comparators.Collation.TheVariants.{Casemap, Numeric, Octet};
ghost use Rattle.match_text.specs.declared.pattern.Item.{Item};
ghost use Rattle.match_text.specs.declared.relation.Relation.{Relation};
ghost use Rattle.match_text.specs.declared.relation.Relation.TheVariants.{Eq, Ge, Gt, Le, Lt, Ne};
ghost use Rattle.match_text.specs.declared.room.KeyKind.TheVariants.{Part, Pattern, Whole};

/// The tests of `:is` and `:contains` are exact (RFC 5228, 2.7.1). They decide whether two texts
/// are the same, and whether one is part of the other. The empty key is part of every value, the
/// empty one too.
pub fn sameness_is_decided()
    ensures same { (fold : ℕ → ℕ) (a b : List ℕ) → (same fold a b ≡ true) ↔ Same fold a b }
    ensures part { (fold : ℕ → ℕ) (value key : List ℕ)
        → (is_part fold value key ≡ true) ↔ IsPart fold value key }
    ensures empty { (fold : ℕ → ℕ) (value : List ℕ) → is_part fold value [] ≡ true }
{}

/// The order of each comparator is total (RFC 4790, 4.2.4). Of two texts, one is at most the other.
/// If each is at most the other, they are equal in it. At most is transitive.
pub fn texts_are_in_a_total_order()
    ensures total { (collation : Collation) → IsTotalOrder (order_of collation) }
    ensures either { (collation : Collation) (a b : List ℕ) → (stands_in Le (order_of collation a b)
        ≡ true) ⊎ (stands_in Le (order_of collation b a) ≡ true) }
    ensures both { (collation : Collation) (a b : List ℕ) → stands_in Le (order_of collation a b)
        ≡ true → stands_in Le (order_of collation b a) ≡ true
        → stands_in Eq (order_of collation a b) ≡ true }
    ensures transitive { (collation : Collation) (a b c : List ℕ)
        → stands_in Le (order_of collation a b) ≡ true → stands_in Le (order_of collation b c)
        ≡ true → stands_in Le (order_of collation a c) ≡ true }
{}

/// Equality in the order of a comparator is an equivalence, and `:is` goes by it (RFC 4790, 4.2.2).
/// Under `i;octet` and `i;ascii-casemap`, texts are equal exactly if their octets are equal after
/// folding.
pub fn equality_goes_by_the_order()
    ensures equivalence { (collation : Collation)
        → IsEquivalence (λ a b. stands_in Eq (order_of collation a b)) }
    ensures equal { (collation : Collation) (a b : List ℕ)
        → are_equal collation a b ≡ stands_in Eq (order_of collation a b) }
    ensures octet { (a b : List ℕ) → (order_of Octet a b ≡ Equal) ↔ Same octet a b }
    ensures casemap { (a b : List ℕ) → (order_of Casemap a b ≡ Equal) ↔ Same ascii_casemap a b }
{}

/// How relations go by an order (RFC 5231, section 4). `ne` holds if `eq` doesn't, `ge` if `lt`
/// doesn't, and `le` if `gt` doesn't. `le` holds if `lt` or `eq` does. Seen from the other text,
/// `gt` is `lt`. `gt` holds only if the first is greater, and `eq` only if the two are equal.
pub fn relations_go_by_the_order()
    ensures ne { (order : orderings.Ordering) → stands_in Ne order ≡ not (stands_in Eq order) }
    ensures ge { (order : orderings.Ordering) → stands_in Ge order ≡ not (stands_in Lt order) }
    ensures le { (order : orderings.Ordering) → stands_in Le order ≡ not (stands_in Gt order) }
    ensures equal { (order : orderings.Ordering)
        → stands_in Le order ≡ (stands_in Lt order || stands_in Eq order) }
    ensures turned { (collation : Collation) (a b : List ℕ)
        → stands_in Gt (order_of collation a b) ≡ stands_in Lt (order_of collation b a) }
    ensures greater { stands_in Gt Greater ≡ true }
    ensures less { stands_in Gt Less ≡ false }
    ensures same { stands_in Gt Equal ≡ false }
    ensures equal_alone { (order : orderings.Ordering)
        → (stands_in Eq order ≡ true) ↔ (order ≡ Equal) }
{}

/// Each relation is found by its word. A word finds a relation exactly if it is its word, in any
/// case of letters (RFC 5231, section 4).
pub fn relations_have_their_words()
    ensures found { (relation : Relation)
        → relation_named (relation_word relation) ≡ Some relation }
    ensures word { (relation : Relation) (word : List ℕ)
        → (relation_named word ≡ Some relation) ↔ (is_word_of relation word ≡ true) }
{}

/// The number of a text is that of the digits it begins with. Zeros before a number don't change
/// it. A text is infinite, which is no number, exactly if it begins with no digit (RFC 4790,
/// 9.1.1). The decimal text of a number of at most 64 digits stands for that number. So it does
/// with a text after it that begins with no digit.
pub fn numbers_are_those_of_their_digits()
    ensures digits { (text : List ℕ) → number_of (first_digits text) ≡ number_of text }
    ensures zeros { (text : List ℕ) → IsSome (number_of text)
        → number_of (octet_of "0" ∷ text) ≡ number_of text }
    ensures infinite { (text : List ℕ) → (number_of text ≡ None) ↔ (first_digits text ≡ []) }
    ensures decimal { (n : ℕ) (rest : List ℕ) → n < 10 ^ 64 → first_digits rest ≡ []
        → number_of (decimal n ++ rest) ≡ Some n }
{}

/// Under `i;ascii-numeric` two texts are in the order of their numbers (RFC 4790, 9.1). An infinite
/// text is greater than each number. All infinite texts are equal.
pub fn numbers_are_ordered_by_what_they_are()
    ensures infinite { (a b : List ℕ) (n : ℕ) → number_of a ≡ None → number_of b ≡ Some n
        → order_of Numeric a b ≡ Greater }
    ensures finite { (a b : List ℕ) (m n : ℕ) → number_of a ≡ Some m → number_of b ≡ Some n
        → order_of Numeric a b ≡ nat_cmp m n }
    ensures both { (a b : List ℕ) → number_of a ≡ None → number_of b ≡ None
        → order_of Numeric a b ≡ Equal }
{}

/// The least fit of a pattern's items is the fit that is least in dictionary order. It is absent
/// exactly if no fit exists (RFC 5229, 3.2).
pub fn the_least_fit_is_least()
    ensures least { (fold : ℕ → ℕ) (items : List Item) (value lengths : List ℕ)
        → (least_fit fold items value ≡ Some lengths) ↔ IsLeastFit fold items value lengths }
    ensures none { (fold : ℕ → ℕ) (items : List Item) (value : List ℕ) → (least_fit fold items value
        ≡ None) ↔ ((lengths : List ℕ) → ¬ Fits fold items value lengths) }
{}

/// Under a fit, the slices that are taken stand in the value in turn. The octets of the pattern
/// stand between them. The slices have the lengths of the fit (RFC 5229, 3.2).
pub fn captures_are_slices()
    ensures slices { (fold : ℕ → ℕ) (items : List Item) (value lengths : List ℕ)
        → Fits fold items value lengths → TakeInTurn fold items value (taken items lengths value) }
    ensures lengths { (fold : ℕ → ℕ) (items : List Item) (value lengths : List ℕ)
        → Fits fold items value lengths → map length (taken items lengths value) ≡ lengths }
{}

/// A value that matches a key has the octets that the key needs (RFC 5228, 2.7.1). This is so under
/// a comparator that folds octets. Under `:is` it has as many as the key, and under `:contains` no
/// fewer. Under `:matches` it has at least one for each item of the pattern that takes one.
pub fn keys_need_octets()
    ensures is { (fold : ℕ → ℕ) (value key : List ℕ) → same fold value key ≡ true
        → may_match Whole (length value) key ≡ true }
    ensures contains { (fold : ℕ → ℕ) (value key : List ℕ) → is_part fold value key ≡ true
        → may_match Part (length value) key ≡ true }
    ensures matches { (fold : ℕ → ℕ) (value key : List ℕ) → IsSome (matched fold value key)
        → may_match Pattern (length value) key ≡ true }
{}

/// A comparator is known exactly by one of these names, octet for octet (RFC 4790, section 9).
#[tactic(auto, using(crate::proofs::Named::comparators_known))]
pub fn comparators_are_known_by_their_names()
    ensures { (name : List ℕ) → is_some (collation_named name)
        ≡ list_any (λ known. pointwise nat_eq known name)
        (codes "i;octet" ∷ codes "i;ascii-casemap" ∷ codes "i;ascii-numeric" ∷ []) }
{}
