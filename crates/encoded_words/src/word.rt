//! Encoded words as they are written (RFC 2047, section 2).
ghost use Rattle.std.specs.Prelude.{◌≡◌, ◌+◌, ◌≤◌, IfSome, length};
ghost use Rattle.std.specs.Option.{option_map};
ghost use Rattle.encoded_words.specs.Scan.{after_run, run, word_at};
ghost use Rattle.encoded_words.specs.Word.{is_b, is_letter, is_word_octet};
ghost use Rattle.encoded_words.specs.view.Word.{word_of};

use octets::is_visible;

/// An encoded word.
#[derive(Clone, Copy)]
pub(crate) struct EncodedWord<'a> {
    /// The name of the word's charset.
    pub(crate) charset: &'a [u8],
    /// The letter of the word's encoding.
    pub(crate) letter: u8,
    /// The word's text.
    pub(crate) text: &'a [u8],
}

/// The number of octets of `=?`, `?`, a letter, `?` and `?=`: those around a charset and a text.
pub(crate) const SIGN_COUNT: usize = 7;

/// Whether an octet may stand in a charset or a text.
fn is_word_octet(octet: u8) -> bool
    ensures { result ≡ is_word_octet octet }
{
    is_visible(octet) && octet != b'?'
}

/// Whether a letter is that of the encoding B, in either case.
pub(crate) fn is_b(letter: u8) -> bool
    ensures { result ≡ is_b letter }
{
    matches!(letter, b'B' | b'b')
}

/// Whether a letter is that of an encoding, in either case.
fn is_letter(letter: u8) -> bool
    ensures { result ≡ is_letter letter }
{
    is_b(letter) || matches!(letter, b'Q' | b'q')
}

/// The number of octets at the start that may stand in a charset or a text.
fn run_len(octets: &[u8]) -> usize
    ensures { result ≡ length (run octets.now) }
{
    octets
        .iter()
        .take_while(|octet| is_word_octet(**octet))
        .count()
}

/// Cuts octets before the first that may not stand in a charset or a text.
#[tactic(auto, using(crate::proofs::Steps::run_len))]
fn cut_run(octets: &[u8]) -> (&[u8], &[u8])
    ensures run { result.0.now ≡ run octets.now }
    ensures after { result.1.now ≡ after_run octets.now }
    ensures lengths { length result.0.now + length result.1.now ≡ length octets.now }
{
    octets.split_at(run_len(octets))
}

/// The word with which the octets begin, whether or not it can be decoded.
///
/// Trying each place of a value takes time linear in its length. A charset or a text is a whole run
/// of octets that may stand in one. It begins after a `?`, and ends where the run ends. A run after
/// `=?` is the charset of one word at most. A run after `B?` or `Q?` is the text of one at most. So
/// each octet is read twice at most, in all tries together.
#[tactic(auto, unfolding(crate::specs::Scan::word_at))]
pub(crate) fn word_at(octets: &[u8]) -> Option<EncodedWord<'_>>
    ensures is { option_map word_of result ≡ word_at octets.now }
    ensures within { IfSome result
        (λ word. length word.charset.now + length word.text.now + 7 ≤ length octets.now) }
{
    let [b'=', b'?', rest @ ..] = octets else {
        return None;
    };
    let (charset, after) = cut_run(rest);
    let [b'?', letter, b'?', further @ ..] = after else {
        return None;
    };
    if charset.is_empty() || !is_letter(*letter) {
        return None;
    }
    let (text, after) = cut_run(further);
    let [b'?', b'=', ..] = after else {
        return None;
    };
    Some(EncodedWord {
        charset,
        letter: *letter,
        text,
    })
}
