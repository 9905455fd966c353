//! The names of variables (RFC 5229, section 3).
ghost use Rattle.std.specs.Prelude.{◌≡◌, false, true, IfOk, MatchOption, drop, length};
ghost use Rattle.std.specs.List.{list_all};
ghost use Rattle.octets.specs.Octet.{is_digit, is_name_octet};
ghost use Rattle.sieve_variables.specs.Part.{is_shared};
ghost use Rattle.sieve_variables.specs.Reference.{is_name};
ghost use Rattle.sieve_variables.specs.Name.{folded_name, global_prefix, index_of, is_global_name, is_identifier, is_number};

use octets::{SmallOctets, begins_name, is_digit, is_name_octet};
use sieve_limits::MAX_MATCH;
use std::alloc::{AllocError, Global};

/// The first number past the limit of match variables (RFC 5229, section 6).
const PAST_MATCH_LIMIT: u16 = MAX_MATCH as u16 + 1;

/// The namespace of the variables that scripts share. `GLOBAL_PREFIX` is the same with its dot
/// (RFC 6609, 3.4.2).
const GLOBAL_NAMESPACE: &[u8] = b"global";

const GLOBAL_PREFIX: &[u8] = b"global.";

/// The name in lower case of ASCII, under which a variable is kept. An error is out of memory.
pub fn folded(alloc: Global, name: &[u8]) -> Result<SmallOctets, AllocError>
    ensures { IfOk result (λ octets. octets.items ≡ folded_name name.now) }
{
    let mut octets = SmallOctets::new(alloc);
    for octet in name {
        octets.push(octet.to_ascii_lowercase())?;
    }
    Ok(octets)
}

/// Whether each of the octets may be in an identifier after the first one.
fn are_name_octets(octets: &[u8]) -> bool
    ensures { result ≡ list_all is_name_octet octets.now }
{
    octets.iter().all(|octet| is_name_octet(*octet))
}

/// Whether a name is an identifier, which names a variable of the script (RFC 5228, 8.1;
/// RFC 5229, section 3).
pub fn is_identifier(name: &[u8]) -> bool
    ensures { result ≡ is_identifier name.now }
{
    match name {
        [] => false,
        [first, rest @ ..] => begins_name(*first) && are_name_octets(rest),
    }
}

/// Whether a name is that of a variable that scripts share (RFC 6609, 3.4.2). It is `global.`, in
/// any case of ASCII, and an identifier.
pub fn is_global_name(name: &[u8]) -> bool
    ensures { result ≡ is_global_name name.now }
{
    let (prefix, rest) = name.split_at(name.len().min(GLOBAL_PREFIX.len()));
    GLOBAL_PREFIX.eq_ignore_ascii_case(prefix) && is_identifier(rest)
}

/// The octets after `global.` in the name of a variable that scripts share.
pub(crate) fn global_name(name: &[u8]) -> Option<&[u8]>
    ensures { MatchOption result (is_global_name name.now ≡ false) (λ rest.
        (is_global_name name.now ≡ true) × (rest.now ≡ drop (length global_prefix) name.now)) }
{
    if is_global_name(name) {
        Some(&name[name.len().min(GLOBAL_PREFIX.len())..])
    } else {
        None
    }
}

/// Whether a namespace is that of the variables that scripts share, and the name is an identifier
/// (RFC 6609, 3.4.2).
pub(crate) fn is_shared(namespace: &[u8], name: &[u8]) -> bool
    ensures { result ≡ is_shared namespace.now name.now }
{
    GLOBAL_NAMESPACE.eq_ignore_ascii_case(namespace) && is_identifier(name)
}

fn are_digits(octets: &[u8]) -> bool
    ensures { result ≡ list_all is_digit octets.now }
{
    octets.iter().all(|octet| is_digit(*octet))
}

/// Whether a word is the number of a match variable: digits (RFC 5229, section 3).
pub(crate) fn is_number(word: &[u8]) -> bool
    ensures { result ≡ is_number word.now }
{
    match word {
        [] => false,
        [first, rest @ ..] => is_digit(*first) && are_digits(rest),
    }
}

/// Whether a word is the name of a variable of the script or the number of a match variable.
pub(crate) fn is_name(word: &[u8]) -> bool
    ensures { result ≡ is_name word.now }
{
    is_identifier(word) || is_number(word)
}

/// The number of a match variable. For each past the limit it is the first past it.
pub(crate) fn index_of(digits: &[u8]) -> u8
    ensures { result ≡ index_of digits.now }
{
    let mut index: u16 = 0;
    for digit in digits {
        index = (10 * index + u16::from(digit.saturating_sub(b'0'))).min(PAST_MATCH_LIMIT);
    }
    index as u8
}
