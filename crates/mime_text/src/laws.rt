//! Laws over the definitions. Each of these functions does nothing: its contract is the law.
ghost use Rattle.std.specs.Prelude.{◌≡◌, ◌∷◌, List, [], ℕ, codes, is_some};
ghost use Rattle.std.specs.List.{concat, list_any};
ghost use Rattle.std.specs.Str.{str_eq_ignore_ascii_case};
ghost use Rattle.text_cut.specs.Cut.{TextPiece};
ghost use Rattle.mime_text.specs.Lines.{ended_lines};
ghost use Rattle.mime_text.specs.Multipart.{Cut, IsCut, BodyLine, content_cut, cut_of, lines_of};
ghost use Rattle.mime_text.specs.TransferEncoding.{encoding_named};
ghost use Rattle.mime_text.specs.QuotedPrintable.{CutsQuoted, QuotedSequence, pieces_of};

/// Lines are cut by a boundary in one way, and the computed cut is that one (RFC 2046, 5.1.1).
pub fn a_multipart_has_one_cut()
    ensures exists { (boundary : List ℕ) → (lines : List BodyLine)
        → IsCut boundary lines (cut_of boundary lines) }
    ensures only { (boundary : List ℕ) → (lines : List BodyLine) → (cut : Cut)
        → IsCut boundary lines cut → cut ≡ cut_of boundary lines }
{}

/// The pieces of a content, joined by its delimiters, are the content.
pub fn pieces_join_to_the_content()
    ensures { (boundary : List ℕ) → (content : List ℕ)
        → concat (lines_of (content_cut boundary content)) ≡ content }
{}

/// A text is cut into escapes, soft line ends and octets in one way (RFC 2045, 6.7). The computed
/// pieces are that cut.
pub fn quoted_printable_has_one_cut()
    ensures exists { (text : List ℕ) → CutsQuoted (pieces_of text) text }
    ensures only { (pieces : List (TextPiece QuotedSequence)) → (text : List ℕ) → CutsQuoted pieces text
        → pieces ≡ pieces_of text }
{}

/// An encoding is known exactly by one of these names, in any case (RFC 2045, 6.1).
#[tactic(auto, using(crate::proofs::Encodings::encodings_known))]
pub fn encodings_are_known_by_their_names()
    ensures { (name : List ℕ) → is_some (encoding_named name) ≡ list_any
        (λ known. str_eq_ignore_ascii_case known name) (codes "base64" ∷ codes "quoted-printable"
        ∷ codes "7bit" ∷ codes "8bit" ∷ codes "binary" ∷ []) }
{}
