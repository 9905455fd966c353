//! Tokens as symbols of the grammar, with the parts of them that the tree keeps.

ghost use Rattle.std.specs.Prelude.{◌≡◌, ◌<◌, IfOk};
ghost use Rattle.sieve_syntax.specs.view.Reader.{symbol_as};
ghost use Rattle.sieve_syntax.specs.Token.{IsInside};
ghost use Rattle.sieve_syntax.specs.Symbol.{symbol_of};

use crate::token::{Token, TokenKind};
use crate::value::{multi_line_octets, number_of, quoted_octets};
use octets::SmallOctets;
use std::alloc::{AllocError, Global};

/// A token without its place. Punctuation has no line here, since no tree keeps it.
#[derive(Drop)]
pub(crate) enum Symbol {
    Identifier { name: SmallOctets, line: u32 },
    Tag { name: SmallOctets, line: u32 },
    Number { value: Option<u64>, line: u32 },
    String { octets: SmallOctets, line: u32 },
    Semicolon,
    OpenBrace,
    CloseBrace,
    OpenParenthesis,
    CloseParenthesis,
    OpenBracket,
    CloseBracket,
    Comma,
    Bad,
}

/// The symbol of a token of a text. An error is out of memory.
#[tactic(auto, unfolding(crate::specs::Symbol::symbol_at))]
pub(crate) fn read_symbol(alloc: Global, text: &[u8], token: Token) -> Result<Symbol, AllocError>
    requires line { token.line < 4294967296 }
    requires inside { IsInside text.now token }
    ensures { IfOk result (λ symbol. symbol_as symbol ≡ symbol_of text.now token) }
{
    let octets = &text[token.start..token.end];
    let line = token.line as u32;
    match token.kind {
        TokenKind::Identifier => Ok(Symbol::Identifier {
            name: SmallOctets::from_slice(alloc, octets)?,
            line,
        }),
        TokenKind::Tag => Ok(Symbol::Tag {
            name: SmallOctets::from_slice(alloc, &octets[1..])?,
            line,
        }),
        TokenKind::Number => Ok(Symbol::Number {
            value: number_of(octets),
            line,
        }),
        TokenKind::Quoted => Ok(Symbol::String {
            octets: quoted_octets(alloc, octets)?,
            line,
        }),
        TokenKind::MultiLine => Ok(Symbol::String {
            octets: SmallOctets::from_vec(multi_line_octets(alloc, octets)?),
            line,
        }),
        TokenKind::Semicolon => Ok(Symbol::Semicolon),
        TokenKind::OpenBrace => Ok(Symbol::OpenBrace),
        TokenKind::CloseBrace => Ok(Symbol::CloseBrace),
        TokenKind::OpenParenthesis => Ok(Symbol::OpenParenthesis),
        TokenKind::CloseParenthesis => Ok(Symbol::CloseParenthesis),
        TokenKind::OpenBracket => Ok(Symbol::OpenBracket),
        TokenKind::CloseBracket => Ok(Symbol::CloseBracket),
        TokenKind::Comma => Ok(Symbol::Comma),
        TokenKind::Bad => Ok(Symbol::Bad),
    }
}
