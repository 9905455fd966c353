//! Laws over the definitions. Each of these functions does nothing: its contract is the law.
ghost use Rattle.std.specs.Prelude.{◌≡◌, ℕ, List, Option};
ghost use Rattle.text_cut.specs.Cut.{Cuts, TextPiece};
ghost use Rattle.text_cut.specs.Scan.{FindsSequences, pieces_of};

/// A kind of sequence.
pub trait Sequence {
    /// A sequence as it is written.
    ghost written: { Self → List ℕ };

    /// The legal sequences.
    ghost Legal: { Self → Type 0 };

    /// The sequence with which a text begins.
    ghost found_at: { List ℕ → Option Self };

    /// The number of octets of a sequence after its first.
    ghost further: { Self → ℕ };

    /// Exactly the legal sequences are found.
    ghost finds: { FindsSequences written Legal found_at further };
}

/// A text is cut into sequences and single octets in one way, and the computed pieces are that cut.
pub fn the_cut_is_the_only_one<S: Sequence>()
    ensures exists { (text : List ℕ)
        → Cuts S.written S.Legal (pieces_of S.found_at S.further text) text }
    ensures only { (pieces : List (TextPiece S)) (text : List ℕ) → Cuts S.written S.Legal pieces text
        → pieces ≡ pieces_of S.found_at S.further text }
{}
