//! Laws over the definitions. Each of these functions does nothing: its contract is the law.
ghost use Rattle.std.specs.Prelude.{◌≡◌, ℕ, List};
ghost use Rattle.sieve_variables.specs.Part.{AreWritten, grouped};
ghost use Rattle.sieve_variables.specs.Reference.{CutsReferences, ReferencePiece};
ghost use Rattle.sieve_variables.specs.Scan.{parts_of_text, pieces_of};

/// A text is cut into references and single octets in one way. The computed pieces are that cut
/// (RFC 5229, section 3).
pub fn the_cut_is_the_only_one()
    ensures exists { (text : List ℕ) → CutsReferences (pieces_of text) text }
    ensures only { (pieces : List ReferencePiece) (text : List ℕ) → CutsReferences pieces text
        → pieces ≡ pieces_of text }
{}

/// The parts of a text are those that its cut makes, and the text can be written for them.
pub fn parts_are_written()
    ensures cut { (text : List ℕ)
        → (pieces : List ReferencePiece) × CutsReferences pieces text × (parts_of_text text ≡ grouped pieces) }
    ensures written { (text : List ℕ) → AreWritten (parts_of_text text) text }
{}
