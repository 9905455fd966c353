//! The relations of `:value` and `:count` (RFC 5231, section 4).
ghost use Rattle.std.specs.Prelude.{◌≡◌};
ghost use Rattle.match_text.specs.Relation.{is_word_of, relation_named, relation_word, stands_in};

use std::cmp::Ordering;

/// How a value is to stand to a key (RFC 5231, section 4).
#[derive(Clone, Copy, Debug, PartialEq, Eq)]
pub enum Relation {
    /// The value is greater than the key: `gt`.
    Gt,
    /// The value is greater than the key, or equal to it: `ge`.
    Ge,
    /// It is less than the key: `lt`.
    Lt,
    /// The value is less than the key, or equal to it: `le`.
    Le,
    /// The value is equal to the key: `eq`.
    Eq,
    /// The value isn't equal to the key: `ne`.
    Ne,
}

impl Relation {
    /// The word of the relation (RFC 5231, section 4).
    pub fn word(self) -> &'static [u8]
        ensures { result.now ≡ relation_word self }
    {
        match self {
            Relation::Gt => b"gt",
            Relation::Ge => b"ge",
            Relation::Lt => b"lt",
            Relation::Le => b"le",
            Relation::Eq => b"eq",
            Relation::Ne => b"ne",
        }
    }

    /// Whether a word is that of the relation, in any case of letters.
    fn is_word(self, word: &[u8]) -> bool
        ensures { result ≡ is_word_of self word.now }
    {
        self.word().eq_ignore_ascii_case(word)
    }

    /// Whether the relation holds of two things, by the order of the first to the second.
    pub(crate) fn holds(self, order: Ordering) -> bool
        ensures { result ≡ stands_in self order }
    {
        match self {
            Relation::Gt => order.is_gt(),
            Relation::Ge => order.is_ge(),
            Relation::Lt => order.is_lt(),
            Relation::Le => order.is_le(),
            Relation::Eq => order.is_eq(),
            Relation::Ne => order.is_ne(),
        }
    }
}

/// The relation of that word, in any case of letters (RFC 5231, section 4).
pub fn relation_named(word: &[u8]) -> Option<Relation>
    ensures { result ≡ relation_named word.now }
{
    if Relation::Gt.is_word(word) {
        Some(Relation::Gt)
    } else if Relation::Ge.is_word(word) {
        Some(Relation::Ge)
    } else if Relation::Lt.is_word(word) {
        Some(Relation::Lt)
    } else if Relation::Le.is_word(word) {
        Some(Relation::Le)
    } else if Relation::Eq.is_word(word) {
        Some(Relation::Eq)
    } else if Relation::Ne.is_word(word) {
        Some(Relation::Ne)
    } else {
        None
    }
}
