//! How a line is cut into words.
ghost use Rattle.std.specs.Prelude.{◌≡◌, ◌≢◌, ◌<◌, ◌≤◌, ◌∷◌, drop, slice_index, None, Some, length, MatchOption, []};
ghost use Rattle.octets.specs.Octet.{octet_of};
ghost use Rattle.session_text.specs.SessionLine.{outside, quoting_after, is_gap, piece_length, line_words};
ghost use Rattle.session_text.specs.view.Command.{quoting_as};

/// The number of spaces that a line begins with.
fn leading_spaces(line: &[u8]) -> usize
    ensures within { result ≤ length line.now }
    ensures words { line_words (drop result line.now) ≡ line_words line.now }
    ensures stops { slice_index (drop result line.now) 0 ≢ octet_of " " }
{
    for (i, octet) in line.iter().enumerate() {
        if *octet != b' ' {
            return i;
        }
    }
    line.len()
}

/// The place of an octet of a line, by the quotes before it.
#[derive(Clone, Copy)]
pub(crate) enum Quoting {
    /// Outside quotes.
    Outside,
    /// Inside quotes.
    Inside,
    /// After a backslash inside quotes.
    Escaped,
}

/// The place of the octet after an octet.
fn quoting_after(quoting: Quoting, octet: u8) -> Quoting
    ensures { quoting_as result ≡ quoting_after (quoting_as quoting) octet }
{
    match quoting {
        Quoting::Outside => match octet {
            b'"' => Quoting::Inside,
            _ => Quoting::Outside,
        },
        Quoting::Inside => match octet {
            b'"' => Quoting::Outside,
            b'\\' => Quoting::Escaped,
            _ => Quoting::Inside,
        },
        Quoting::Escaped => Quoting::Inside,
    }
}

/// Whether an octet at such a place is a space between words.
fn is_gap(quoting: Quoting, octet: u8) -> bool
    ensures { result ≡ is_gap (quoting_as quoting) octet }
{
    match quoting {
        Quoting::Outside => octet == b' ',
        Quoting::Inside | Quoting::Escaped => false,
    }
}

/// The number of octets before the first space that is outside quotes.
fn word_len(line: &[u8]) -> usize
    ensures value { result ≡ piece_length outside line.now }
    ensures within { result ≤ length line.now }
{
    let mut quoting = Quoting::Outside;
    for (i, octet) in line.iter().enumerate() {
        if is_gap(quoting, *octet) {
            return i;
        }
        quoting = quoting_after(quoting, *octet);
    }
    line.len()
}

/// The first word of a line, and the rest after it.
pub(crate) fn next_word(line: &[u8]) -> Option<(&[u8], &[u8])>
    ensures { MatchOption result (line_words line.now ≡ [])
        (λ cut. line_words line.now ≡ cut.0.now ∷ line_words cut.1.now) }
{
    let (_, line) = line.split_at(leading_spaces(line));
    if line.is_empty() {
        return None;
    }
    Some(line.split_at(word_len(line)))
}
