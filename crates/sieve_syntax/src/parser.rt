//! The parser: from the octets of a text to its tree.

ghost use Rattle.std.specs.Prelude.{◌≡◌, ◌≤◌, ◌<◌, ◌↔◌, ℕ, List, length, IfOk, IsErrOf};
ghost use Rattle.sieve_limits.specs.Limits.{block_room, test_depth, text_limit};
ghost use Rattle.sieve_syntax.specs.Machine;
ghost use Rattle.sieve_syntax.specs.Machine.{whole};
ghost use Rattle.sieve_syntax.specs.view.Parsed.{Finishes, Goes, Parses, ParsesAs};
ghost use Rattle.sieve_syntax.specs.view.Reader.{state_value};
ghost use Rattle.sieve_syntax.specs.Syntax.{IsFaultLine, WritesText, syntax_of};
ghost use Rattle.sieve_syntax.specs.Token.{IsInside, line_at};
ghost use Rattle.sieve_syntax.specs.Tree as trees;
ghost use Rattle.sieve_syntax.specs.view.Script.{tree_of};
ghost use Rattle.sieve_syntax.specs.Symbol.{symbol_of};
ghost use Rattle.sieve_syntax.specs.declared.parser.SyntaxFault.TheVariants.{NoMemory};

use crate::cursor::{Cursor, next_token};
use crate::reader::{Outer, ParserState};
use crate::script::ParsedScript;
use crate::step::{Stop, step};
use crate::symbol::read_symbol;
use crate::token::{Token, last_line};
use crate::tree::Command;
use sieve_limits::MAX_TEXT;
use std::alloc::{AllocError, Global};
use thiserror::Error;

/// Why a text has no tree. The refusals are numbered from 1 on, in this order.
#[derive(Clone, Copy, Debug, PartialEq, Eq, Error)]
pub enum SyntaxFault {
    /// 1: the text isn't a script (RFC 5228, 8.2). The line is that of the first token, or of the
    /// end, with which the tokens begin no script.
    #[error("line {line}: not a script")]
    Syntax { line: u64 },
    /// 2: the text has more octets than [`MAX_TEXT`]. This comes before the others.
    #[error("the text is too large")]
    TooLarge,
    /// 3: memory ran out.
    #[error("out of memory")]
    NoMemory,
}

impl From<AllocError> for SyntaxFault {
    ghost from_gives = { λ _ e. e ≡ NoMemory };

    fn from(_e: AllocError) -> SyntaxFault {
        SyntaxFault::NoMemory
    }
}

/// The tree of a text: the one script that writes it (RFC 5228, 8.2). At most 32 blocks are open at
/// once, and tests go 32 deep. A test directly in a command has depth 1.
///
/// `TooLarge` is the answer exactly if the text has more than [`MAX_TEXT`] octets. Else `Syntax` is
/// the answer only if no script writes the text. `NoMemory` is the answer if memory runs out. The
/// time that it takes grows with the length of the text, and the memory with the tree.
pub fn parse(alloc: Global, text: &[u8]) -> Result<ParsedScript, SyntaxFault>
    ensures large { IsErrOf result SyntaxFault.TooLarge ↔ text_limit < length text.now }
    // The tree writes the text.
    ensures tree { IfOk result (λ script. WritesText (tree_of script) text.now) }
    // The line is that of the fault, and no tree writes the text.
    ensures fault { (line : ℕ) → result ≡ Err (SyntaxFault.Syntax line)
        → IsFaultLine text.now line × ((tree : List trees.Command) → WritesText tree text.now → ⊥) }
    // The tree or the line is what `syntax_of` says.
    ensures exact { Parses result (syntax_of text.now) }
{
    if text.len() > MAX_TEXT {
        return Err(SyntaxFault::TooLarge);
    }
    match read_commands(alloc, text) {
        Ok(commands) => Ok(ParsedScript { commands }),
        Err(fault) => Err(fault),
    }
}

/// The commands of a text, which is read token by token.
fn read_commands(alloc: Global, text: &[u8]) -> Result<Vec<Command>, SyntaxFault>
    requires { length text.now ≤ text_limit }
    ensures small { IsErrOf result SyntaxFault.TooLarge → ⊥ }
    ensures exact { ParsesAs result (syntax_of text.now) }
{
    let mut outer = Outer {
        blocks: Vec::new(alloc),
        done: Vec::new(alloc),
        levels: Vec::new(alloc),
    };
    let mut state = ParserState::Between;
    let mut cursor = Cursor {
        place: 0,
        line_feeds: 0,
    };
    while let Some((token, after)) = next_token(text, cursor) {
        match read_token(alloc, text, token, &mut outer, state) {
            Ok(next) => state = next,
            Err(fault) => return Err(fault),
        }
        cursor = after;
    }
    finish(text, outer, state)
}

/// The state after a token of the text.
fn read_token(
    alloc: Global,
    text: &[u8],
    token: Token,
    outer: &mut Outer,
    state: ParserState,
) -> Result<ParserState, SyntaxFault>
    requires line { token.line < 4294967296 }
    requires inside { IsInside text.now token }
    ensures { Goes outer.new result (Machine.step test_depth block_room
        (state_value outer.old state) (symbol_of text.now token)) token.line }
{
    let symbol = read_symbol(alloc, text, token)?;
    match step(alloc, outer, state, symbol) {
        Ok(next) => Ok(next),
        Err(Stop::Fault) => Err(SyntaxFault::Syntax { line: token.line }),
        Err(Stop::NoMemory) => Err(SyntaxFault::NoMemory),
    }
}

/// The commands at the end of a text, if nothing is open. If something is, the fault has the line
/// of the end.
#[tactic(auto, unfolding(crate::specs::Machine::whole))]
fn finish(text: &[u8], outer: Outer, state: ParserState) -> Result<Vec<Command>, SyntaxFault>
    requires { length text.now ≤ text_limit }
    ensures { Finishes result (whole (state_value outer state))
        (line_at text.now (length text.now)) }
{
    if let ParserState::Between = state {
        if outer.blocks.is_empty() {
            return Ok(outer.done);
        }
    }
    Err(SyntaxFault::Syntax {
        line: last_line(text),
    })
}
