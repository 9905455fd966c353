//! The state of a lexer after each octet of a value.
ghost use Rattle.std.specs.Prelude.{◌≡◌, ◌+◌, ◌<◌, ◌≤◌, ◌^◌};
ghost use Rattle.octets.specs.Octet.{octet_of};
ghost use Rattle.structured_text.specs.Structure.{after_octet, comment_after, depth_of, is_closed, is_outside, literal_after, opened_by, string_after};
ghost use Rattle.structured_text.specs.declared.state.LexerState.TheVariants.{Outside};

/// The constructs that a value may have besides comments.
#[derive(Clone, Copy)]
pub struct Brackets {
    /// Whether it may have quoted strings (RFC 5322, 3.2.4).
    pub strings: bool,
    /// Whether it may have domain literals (RFC 5322, 3.4.1).
    pub literals: bool,
}

/// The constructs of a date, which has comments alone (RFC 5322, 3.3 and 4.3).
pub const COMMENTS_ALONE: Brackets = Brackets {
    strings: false,
    literals: false,
};

/// The constructs of a content type (RFC 2045, 5.1).
pub const STRINGS_TOO: Brackets = Brackets {
    strings: true,
    literals: false,
};

/// The constructs of a list of addresses (RFC 5322, 3.4).
pub const ALL_BRACKETS: Brackets = Brackets {
    strings: true,
    literals: true,
};

/// The construct that is open after an octet.
#[derive(Clone, Copy)]
pub enum LexerState {
    /// None.
    Outside,
    /// A comment with so many others around it (RFC 5322, 3.2.2).
    InComment(usize),
    /// The same, after a `\` in it.
    EscapedInComment(usize),
    /// A quoted string (RFC 5322, 3.2.4).
    InString,
    /// The same, after a `\` in it.
    EscapedInString,
    /// A domain literal (RFC 5322, 3.4.1).
    InLiteral,
    /// The same, after a `\` in it.
    EscapedInLiteral,
}

/// The state after a comment's `)`.
fn after_comment(others: usize) -> LexerState
    ensures is { result ≡ comment_after others (octet_of ")") }
    ensures depth { depth_of result ≤ others }
{
    if others == 0 {
        LexerState::Outside
    } else {
        LexerState::InComment(others - 1)
    }
}

/// The state after an octet of a comment.
fn after_inner(others: usize, octet: u8) -> LexerState
    requires { others + 1 < 2 ^ 63 }
    ensures is { result ≡ comment_after others octet }
    ensures depth { depth_of result ≤ others + 2 }
{
    match octet {
        b'(' => LexerState::InComment(others + 1),
        b')' => after_comment(others),
        b'\\' => LexerState::EscapedInComment(others),
        _ => LexerState::InComment(others),
    }
}

/// The state after an octet of a quoted string.
fn after_quoted(octet: u8) -> LexerState
    ensures is { result ≡ string_after octet }
    ensures depth { depth_of result ≡ 0 }
{
    match octet {
        b'"' => LexerState::Outside,
        b'\\' => LexerState::EscapedInString,
        _ => LexerState::InString,
    }
}

/// The state after an octet of a domain literal.
fn after_literal(octet: u8) -> LexerState
    ensures is { result ≡ literal_after octet }
    ensures depth { depth_of result ≡ 0 }
{
    match octet {
        b']' => LexerState::Outside,
        b'\\' => LexerState::EscapedInLiteral,
        _ => LexerState::InLiteral,
    }
}

/// The state after an octet outside of all constructs.
fn after_outer(brackets: Brackets, octet: u8) -> LexerState
    ensures is { result ≡ opened_by brackets octet }
    ensures depth { depth_of result ≤ 1 }
{
    match octet {
        b'(' => LexerState::InComment(0),
        b'"' if brackets.strings => LexerState::InString,
        b'[' if brackets.literals => LexerState::InLiteral,
        _ => LexerState::Outside,
    }
}

impl LexerState {
    /// The state after an octet.
    pub fn after(self, brackets: Brackets, octet: u8) -> LexerState
        requires { depth_of self < 2 ^ 63 }
        ensures is { result ≡ after_octet brackets self octet }
        ensures depth { depth_of result ≤ depth_of self + 1 }
    {
        match self {
            LexerState::Outside => after_outer(brackets, octet),
            LexerState::InComment(others) => after_inner(others, octet),
            LexerState::EscapedInComment(others) => LexerState::InComment(others),
            LexerState::InString => after_quoted(octet),
            LexerState::EscapedInString => LexerState::InString,
            LexerState::InLiteral => after_literal(octet),
            LexerState::EscapedInLiteral => LexerState::InLiteral,
        }
    }

    /// Whether no construct is open.
    pub fn is_outside(self) -> bool
        ensures { result ≡ is_outside self }
    {
        matches!(self, LexerState::Outside)
    }
}

/// Whether each construct of a text is closed.
pub fn is_closed(brackets: Brackets, text: &[u8]) -> bool
    ensures { result ≡ is_closed brackets Outside text.now }
{
    let mut state = LexerState::Outside;
    for octet in text {
        state = state.after(brackets, *octet);
    }
    state.is_outside()
}
