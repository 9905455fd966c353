//! The rules that a script can break, with their numbers and words.
ghost use Rattle.std.specs.Prelude.{◌≡◌};
ghost use Rattle.sieve_table.specs.Rule.{rule_number, rule_word};

/// A rule that a script without a syntax fault can break. Of two rules that are broken at one
/// place, the one with the lesser number is reported.
#[derive(Clone, Copy, Debug, PartialEq, Eq)]
pub enum Rule {
    /// A `require` stands after another command (RFC 5228, 3.2).
    RequirePlace = 1,
    /// A `require` names a capability that this tool lacks (RFC 5228, 3.2).
    UnknownCapability = 2,
    /// There is no such command or test (RFC 5228, 2.10.5).
    UnknownCommand = 3,
    /// The script uses something that needs a capability, and no `require` names it
    /// (RFC 5228, 2.10.5).
    NotRequired = 4,
    /// An `elsif` or `else` doesn't follow an `if` or `elsif` (RFC 5228, 3.1).
    ElsePlace = 5,
    /// A tag isn't taken, is the second of its kind, or stands after a positional argument
    /// (RFC 5228, 2.6.2).
    BadTag = 6,
    /// The arguments, tests or block aren't those of the command or test (RFC 5228, 2.6).
    BadArguments = 7,
    /// There is no such comparator (RFC 5228, 2.7.3).
    UnknownComparator = 8,
    /// A string names no variable that may be set, read or declared. See RFC 5229, section 4,
    /// RFC 5232, section 4, and RFC 6609, section 3.4.1.
    BadVariableName = 9,
    /// A `global` names a variable that was set as a local one before (RFC 6609, 3.4.1).
    GlobalAfterSet = 10,
    /// A variable is set or referred to in a namespace that isn't there (RFC 5229,
    /// sections 3 and 4).
    BadNamespace = 11,
    /// A match variable's number is too large (RFC 5229, section 6).
    MatchIndex = 12,
    /// A number is too large (RFC 5228, 2.4.1).
    NumberTooLarge = 13,
    /// There is no such part of an envelope (RFC 5228, 5.4).
    BadEnvelopePart = 14,
    /// The header field doesn't hold addresses (RFC 5228, 5.1).
    NotAddressHeader = 15,
    /// A script sets too many local variables (RFC 5229, section 6).
    TooManyVariables = 16,
    /// A string gives a number of which there is no character (RFC 5228, 2.4.2.4).
    BadCharacter = 17,
    /// There is no such relation (RFC 5231, section 4).
    BadRelation = 18,
    /// A test finds parts of values by a comparator that has no substrings (RFC 4790, 9.1).
    UnfitComparator = 19,
    /// There is no such part of a date (RFC 5260, 4.2).
    BadDatePart = 20,
}

impl Rule {
    /// The rule's number, from 1 to 20.
    pub fn number(self) -> u8
        ensures { result ≡ rule_number self }
    {
        self as u8
    }

    /// The word by which a report names the rule.
    pub fn word(self) -> &'static [u8]
        ensures { result.now ≡ rule_word self }
    {
        match self {
            Rule::RequirePlace => b"require-place",
            Rule::UnknownCapability => b"unknown-capability",
            Rule::UnknownCommand => b"unknown-command",
            Rule::NotRequired => b"not-required",
            Rule::ElsePlace => b"else-place",
            Rule::BadTag => b"bad-tag",
            Rule::BadArguments => b"bad-arguments",
            Rule::UnknownComparator => b"unknown-comparator",
            Rule::BadVariableName => b"bad-variable-name",
            Rule::GlobalAfterSet => b"global-after-set",
            Rule::BadNamespace => b"bad-namespace",
            Rule::MatchIndex => b"match-index",
            Rule::NumberTooLarge => b"number-too-large",
            Rule::BadEnvelopePart => b"bad-envelope-part",
            Rule::NotAddressHeader => b"not-address-header",
            Rule::TooManyVariables => b"too-many-variables",
            Rule::BadCharacter => b"bad-character",
            Rule::BadRelation => b"bad-relation",
            Rule::UnfitComparator => b"unfit-comparator",
            Rule::BadDatePart => b"bad-date-part",
        }
    }
}
