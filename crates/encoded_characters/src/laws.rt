//! Laws over the definitions. Each of these functions does nothing: its contract is the law.
ghost use Rattle.std.specs.Prelude.{◌≡◌, ℕ, true, List, ◌++◌, Some};
ghost use Rattle.encoded_characters.specs.Cut.{CutsEncoded, EncodedPiece};
ghost use Rattle.encoded_characters.specs.Scan.{pieces_of, sequence_at};
ghost use Rattle.encoded_characters.specs.Sequence.{EncodedSequence, is_legal, written};

/// A text is cut into encoded characters and octets in one way. The computed pieces are that cut.
pub fn the_cut_is_the_only_one()
    ensures exists { (text : List ℕ) → CutsEncoded (pieces_of text) text }
    ensures only { (pieces : List EncodedPiece) (text : List ℕ) → CutsEncoded pieces text
        → pieces ≡ pieces_of text }
{}

/// The encoded characters with which a text begins are found exactly where they are written there.
pub fn sequences_are_found()
    ensures written { (s : EncodedSequence) (rest : List ℕ) → is_legal s ≡ true
        → sequence_at (written s ++ rest) ≡ Some s }
    ensures only { (text : List ℕ) (s : EncodedSequence) → sequence_at text ≡ Some s
        → (is_legal s ≡ true) × (rest : List ℕ) × (text ≡ written s ++ rest) }
{}
