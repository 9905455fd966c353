//! Laws over the definitions. Each of these functions does nothing: its contract is the law.

ghost use Rattle.std.specs.Prelude.{◌≡◌, ◌↔◌, ℕ, List};
ghost use Rattle.sieve_syntax.specs.Scan.{tokens_of};
ghost use Rattle.sieve_syntax.specs.Syntax.{IsFaultLine, WritesText, syntax_of};
ghost use Rattle.sieve_syntax.specs.Token.{Spells};
ghost use Rattle.sieve_syntax.specs.Tree.{Command};
ghost use Rattle.sieve_syntax.specs.declared.token.Token.{Token};

/// Each text is spelled by one list of tokens, and `tokens_of` is that list.
#[tactic(auto, using(crate::proofs::Spelling::tokens_of_spell, crate::proofs::Spelling::unique))]
pub fn one_token_list()
    ensures spelled { (text : List ℕ) → Spells (tokens_of text) text }
    ensures only { (text : List ℕ) (a b : List Token) → Spells a text → Spells b text → a ≡ b }
{}

/// At most one tree writes a text, and none if the text has the line of a fault.
pub fn one_tree()
    ensures only { (text : List ℕ) (a b : List Command) → WritesText a text → WritesText b text
        → a ≡ b }
    ensures fault { (text : List ℕ) (line : ℕ) (tree : List Command) → IsFaultLine text line
        → WritesText tree text → ⊥ }
{}

/// `syntax_of` is the tree that writes the text, or the line of its fault.
pub fn tree_or_fault()
    ensures tree { (text : List ℕ) (tree : List Command)
        → syntax_of text ≡ Ok tree ↔ WritesText tree text }
    ensures fault { (text : List ℕ) (line : ℕ) → syntax_of text ≡ Err line ↔ IsFaultLine text line }
{}
