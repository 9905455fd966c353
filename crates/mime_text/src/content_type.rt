//! Types of contents and their parameters (RFC 2045, 5.1).
ghost use Rattle.std.specs.Prelude.{◌≡◌, true, false, [], ◌∷◌, IfNone, IfOk, IfSome, Some, map};
ghost use Rattle.std.specs.Option.{option_map};
ghost use Rattle.std.specs.List.{after_first, before_first, list_all, list_any};
ghost use Rattle.mime_text.specs.ContentType as spec;
ghost use Rattle.mime_text.specs.view.ContentTypes.{both_as, named_as, or_else, over, type_as};
ghost use Rattle.mime_text.specs.view.Marks.{octets_as};

use crate::marks::{ValueMark, marks_of};
use octets::{is_visible, is_white};
use std::alloc::{AllocError, Global};

/// The type of a content, with the values of the parameters that are looked at.
#[derive(Drop)]
pub(crate) struct ContentType {
    pub(crate) main: Vec<u8>,
    pub(crate) sub: Vec<u8>,
    pub(crate) boundary: Option<Vec<u8>>,
    pub(crate) charset: Option<Vec<u8>>,
}

/// Whether an octet may stand in a token: it is visible and not special.
fn is_token_octet(octet: u8) -> bool
    ensures { result ≡ spec.is_token_octet octet }
{
    is_visible(octet) && !is_special(octet)
}

/// Whether an octet has a meaning of its own, so that no token has it.
fn is_special(octet: u8) -> bool
    ensures { result ≡ spec.is_special octet }
{
    b"()<>@,;:\\\"/[]?=".contains(&octet)
}

/// Whether a mark is a token's octet outside of quoted strings.
fn is_token_mark(mark: ValueMark) -> bool
    ensures { result ≡ spec.is_token_mark mark }
{
    match mark {
        ValueMark::Plain(octet) => is_token_octet(octet),
        ValueMark::Quote | ValueMark::Quoted(_) => false,
    }
}

/// Whether a mark is this octet, outside of quoted strings.
fn is_sign(sign: u8, mark: ValueMark) -> bool
    ensures { result ≡ spec.is_sign sign mark }
{
    match mark {
        ValueMark::Plain(octet) => octet == sign,
        ValueMark::Quote | ValueMark::Quoted(_) => false,
    }
}

/// Whether a mark is white space outside of quoted strings.
fn is_gap(mark: ValueMark) -> bool
    ensures { result ≡ spec.is_gap mark }
{
    match mark {
        ValueMark::Plain(octet) => is_white(octet),
        ValueMark::Quote | ValueMark::Quoted(_) => false,
    }
}

/// The octet of a mark; that of a quote is `"`.
fn octet_at(mark: ValueMark) -> u8
    ensures { result ≡ spec.octet_at mark }
{
    match mark {
        ValueMark::Plain(octet) | ValueMark::Quoted(octet) => octet,
        ValueMark::Quote => b'"',
    }
}

/// The marks without white space at the start.
fn trim_front(marks: &[ValueMark]) -> &[ValueMark]
    ensures { result.now ≡ spec.trim_front marks.now }
{
    let mut start = 0;
    while start < marks.len() && is_gap(marks[start]) {
        start += 1;
    }
    &marks[start..]
}

/// The marks without white space at the end.
fn trim_back(marks: &[ValueMark]) -> &[ValueMark]
    ensures { result.now ≡ spec.trim_back marks.now }
{
    let mut end = marks.len();
    while end > 0 && is_gap(marks[end - 1]) {
        end -= 1;
    }
    &marks[..end]
}

/// The marks without white space at either end.
fn trimmed(marks: &[ValueMark]) -> &[ValueMark]
    ensures { result.now ≡ spec.trimmed marks.now }
{
    trim_back(trim_front(marks))
}

fn octets_of(alloc: Global, marks: &[ValueMark]) -> Result<Vec<u8>, AllocError>
    ensures { IfOk result (λ octets. octets.items ≡ map spec.octet_at marks.now) }
{
    marks.iter().map(|mark| octet_at(*mark)).collect(alloc)
}

fn are_token_marks(marks: &[ValueMark]) -> bool
    ensures { result ≡ list_all spec.is_token_mark marks.now }
{
    marks.iter().all(|mark| is_token_mark(*mark))
}

/// Whether marks are one or more octets of a token.
fn is_token(marks: &[ValueMark]) -> bool
    ensures { result ≡ spec.is_token marks.now }
{
    if marks.is_empty() {
        false
    } else {
        are_token_marks(marks)
    }
}

/// The octets of a token; none where the marks aren't one.
fn token_of(alloc: Global, marks: &[ValueMark]) -> Result<Option<Vec<u8>>, AllocError>
    ensures { IfOk result (λ token. octets_as token ≡ spec.token_of marks.now) }
{
    if !is_token(marks) {
        return Ok(None);
    }
    let token = octets_of(alloc, marks)?;
    Ok(Some(token))
}

/// A token's octets without the white space and comments around it; none if it isn't a token.
pub(crate) fn token_in(alloc: Global, marks: &[ValueMark]) -> Result<Option<Vec<u8>>, AllocError>
    ensures { IfOk result (λ token. octets_as token ≡ spec.token_in marks.now) }
{
    token_of(alloc, trimmed(marks))
}

fn is_quote(mark: ValueMark) -> bool
    ensures { result ≡ spec.is_quote mark }
{
    matches!(mark, ValueMark::Quote)
}

fn is_quoted(mark: ValueMark) -> bool
    ensures { result ≡ spec.is_quoted mark }
{
    matches!(mark, ValueMark::Quoted(_))
}

fn are_quoted(marks: &[ValueMark]) -> bool
    ensures { result ≡ list_all spec.is_quoted marks.now }
{
    marks.iter().all(|mark| is_quoted(*mark))
}

/// The octets before a closing quote. None unless the last mark is a quote and all others are
/// octets of a quoted string.
fn before_quote(alloc: Global, marks: &[ValueMark]) -> Result<Option<Vec<u8>>, AllocError>
    ensures { IfOk result (λ octets. octets_as octets ≡ spec.before_quote marks.now) }
{
    let [inside @ .., last] = marks else {
        return Ok(None);
    };
    if !is_quote(*last) || !are_quoted(inside) {
        return Ok(None);
    }
    let octets = octets_of(alloc, inside)?;
    Ok(Some(octets))
}

/// A parameter's value: a token, or a quoted string's octets. None where the marks are neither.
fn value_of(alloc: Global, marks: &[ValueMark]) -> Result<Option<Vec<u8>>, AllocError>
    ensures { IfOk result (λ value. octets_as value ≡ spec.value_of marks.now) }
{
    match marks {
        [ValueMark::Quote, rest @ ..] => before_quote(alloc, rest),
        _ => token_of(alloc, marks),
    }
}

/// The marks before the first such sign, and those after it. None where there is no such sign.
fn parted(sign: u8, marks: &[ValueMark]) -> Option<(&[ValueMark], &[ValueMark])>
    ensures none { IfNone result (list_any (spec.is_sign sign) marks.now ≡ false) }
    ensures some { IfSome result (λ _. list_any (spec.is_sign sign) marks.now ≡ true) }
    ensures front { IfSome result (λ two. two.0.now ≡ before_first (spec.is_sign sign) marks.now) }
    ensures back { IfSome result (λ two. two.1.now ≡ after_first (spec.is_sign sign) marks.now) }
{
    match marks.iter().position(|mark| is_sign(sign, *mark)) {
        Some(place) => Some((&marks[..place], &marks[place + 1..])),
        None => None,
    }
}

/// A pair of values, if both are there.
fn both(first: Option<Vec<u8>>, second: Option<Vec<u8>>) -> Option<(Vec<u8>, Vec<u8>)>
    ensures { both_as result ≡ spec.both (octets_as first) (octets_as second) }
{
    match (first, second) {
        (Some(first), Some(second)) => Some((first, second)),
        (_, _) => None,
    }
}

/// The type and the subtype, before and after the first `/`. None unless both are tokens.
fn type_in(alloc: Global, piece: &[ValueMark]) -> Result<Option<(Vec<u8>, Vec<u8>)>, AllocError>
    ensures { IfOk result (λ names. both_as names ≡ spec.type_in piece.now) }
{
    let Some((main, sub)) = parted(b'/', piece) else {
        return Ok(None);
    };
    let main = token_in(alloc, main)?;
    let sub = token_in(alloc, sub)?;
    Ok(both(main, sub))
}

/// A parameter's name and value, before and after the first `=`. None unless both can be read.
fn parameter_in(
    alloc: Global,
    piece: &[ValueMark],
) -> Result<Option<(Vec<u8>, Vec<u8>)>, AllocError>
    ensures { IfOk result (λ parameter. both_as parameter ≡ spec.parameter_in piece.now) }
{
    let Some((name, value)) = parted(b'=', piece) else {
        return Ok(None);
    };
    let name = token_in(alloc, name)?;
    let value = value_of(alloc, trimmed(value))?;
    Ok(both(name, value))
}

/// The values of the parameters that are looked at.
#[derive(Drop)]
pub(crate) struct NamedParameters {
    boundary: Option<Vec<u8>>,
    charset: Option<Vec<u8>>,
}

/// The value that was found before, or else this one.
fn or_else(found: Option<Vec<u8>>, value: Vec<u8>) -> Option<Vec<u8>>
    ensures { octets_as result ≡ or_else (octets_as found) (Some value.items) }
{
    match found {
        Some(first) => Some(first),
        None => Some(value),
    }
}

impl NamedParameters {
    /// Adds a further parameter. The first of a name counts, and names not looked at are dropped.
    #[tactic(auto, unfolding(crate::specs::ContentType::parameter_named))]
    fn with(self, name: &[u8], value: Vec<u8>) -> NamedParameters
        ensures { named_as result
            ≡ over (named_as self) (spec.named_of ((name.now, value.items) ∷ [])) }
    {
        let NamedParameters { boundary, charset } = self;
        if b"boundary".eq_ignore_ascii_case(name) {
            NamedParameters {
                boundary: or_else(boundary, value),
                charset,
            }
        } else if b"charset".eq_ignore_ascii_case(name) {
            NamedParameters {
                boundary,
                charset: or_else(charset, value),
            }
        } else {
            NamedParameters { boundary, charset }
        }
    }
}

/// Whether a piece is white space alone, or empty.
fn is_blank(piece: &[ValueMark]) -> bool
    ensures { result ≡ list_all spec.is_gap piece.now }
{
    piece.iter().all(|mark| is_gap(*mark))
}

/// The pieces without the last one, if that is white space alone.
fn without_blank_end<'p, 'm>(pieces: &'p [&'m [ValueMark]]) -> &'p [&'m [ValueMark]]
    ensures { map (λ piece. piece.now) result.now
        ≡ spec.without_blank_end (map (λ piece. piece.now) pieces.now) }
{
    match pieces {
        [front @ .., last] => { if is_blank(last) { front } else { pieces } }
        [] => pieces,
    }
}

/// The parameters that pieces are; none where a piece isn't one.
fn named_of(alloc: Global, pieces: &[&[ValueMark]]) -> Result<Option<NamedParameters>, AllocError>
    ensures { IfOk result (λ named. option_map named_as named
        ≡ option_map spec.named_of (spec.parameters_of (map (λ piece. piece.now) pieces.now))) }
{
    let mut named = NamedParameters {
        boundary: None,
        charset: None,
    };
    let mut left = pieces;
    while let [piece, rest @ ..] = left {
        let Some((name, value)) = parameter_in(alloc, piece)? else {
            return Ok(None);
        };
        named = named.with(&name, value);
        left = rest;
    }
    Ok(Some(named))
}

/// The parameters that pieces are, of which the last may be white space alone. None where a
/// piece isn't a parameter.
fn named_in(alloc: Global, pieces: &[&[ValueMark]]) -> Result<Option<NamedParameters>, AllocError>
    ensures { IfOk result
        (λ named. option_map named_as named ≡ spec.named_in (map (λ piece. piece.now) pieces.now)) }
{
    named_of(alloc, without_blank_end(pieces))
}

/// A type with its parameters, if both are there.
fn with_type(
    names: Option<(Vec<u8>, Vec<u8>)>,
    named: Option<NamedParameters>,
) -> Option<ContentType>
    ensures { type_as result ≡ spec.with_type (both_as names) (option_map named_as named) }
{
    let (main, sub) = names?;
    let NamedParameters { boundary, charset } = named?;
    Some(ContentType {
        main,
        sub,
        boundary,
        charset,
    })
}

/// The type that pieces say: the first is a type, and the others are its parameters. None where
/// one can't be read.
fn content_type_of(
    alloc: Global,
    pieces: &[&[ValueMark]],
) -> Result<Option<ContentType>, AllocError>
    ensures { IfOk result
        (λ type. type_as type ≡ spec.content_type_of (map (λ piece. piece.now) pieces.now)) }
{
    let [first, rest @ ..] = pieces else {
        return Ok(None);
    };
    let names = type_in(alloc, first)?;
    let named = named_in(alloc, rest)?;
    Ok(with_type(names, named))
}

/// The type that a value of Content-Type says, if it says one. Comments are dropped.
pub(crate) fn content_type_in(
    alloc: Global,
    value: &[u8],
) -> Result<Option<ContentType>, AllocError>
    ensures { IfOk result (λ type. type_as type ≡ spec.content_type_in value.now) }
{
    let Some(marks) = marks_of(alloc, value)? else {
        return Ok(None);
    };
    let pieces: Vec<&[ValueMark]> = marks.split(|mark| is_sign(b';', *mark)).collect(alloc)?;
    content_type_of(alloc, &pieces)
}
