//! Charsets, and texts of them in UTF-8 (RFC 2047, section 2).
ghost use Rattle.std.specs.Prelude.{◌≡◌, IfOk, encode_utf8_all};
ghost use Rattle.std.specs.Cow.{cow_slice_items};
ghost use Rattle.std.specs.List.{list_all};
ghost use Rattle.std.specs.Str.{is_utf8, str_eq_ignore_ascii_case};
ghost use Rattle.charsets.specs.Charset.{character_at, charset_named, codepage_named, in_utf8, is_ascii, or_same, table_of, tabled, text_in};
ghost use Rattle.charsets.specs.view.Text.{octets_of};
ghost use Rattle.sieve_profile.specs.view.Profile.{profile_as};

use crate::tables::{ISO_8859_2, ISO_8859_15, KOI8_R, WINDOWS_1250, WINDOWS_1251, WINDOWS_1252};
use sieve_profile::{Extension, Profile};
use std::alloc::{AllocError, Global};
use std::borrow::CowSlice;

/// A charset in which each octet is one character, or stands for nothing.
#[derive(Clone, Copy)]
pub enum Codepage {
    /// Windows-1250.
    Windows1250,
    /// Windows-1251.
    Windows1251,
    /// Windows-1252.
    Windows1252,
    /// ISO 8859-2.
    Iso8859Part2,
    /// ISO 8859-15.
    Iso8859Part15,
    /// KOI8-R (RFC 1489).
    Koi8R,
}

/// A charset whose octets can be put into UTF-8.
#[derive(Clone, Copy)]
pub enum Charset {
    /// UTF-8 (RFC 3629).
    Utf8,
    /// ASCII.
    Ascii,
    /// ISO 8859-1. Its octets are the first 256 characters of Unicode.
    Latin1,
    /// A charset that has a table.
    Tabled(Codepage),
}

/// Whether a charset has this name, in any case.
fn is_named(charset: &[u8], name: &[u8]) -> bool
    ensures { result ≡ str_eq_ignore_ascii_case name.now charset.now }
{
    name.eq_ignore_ascii_case(charset)
}

/// The charset with a table of that name, in any case.
#[tactic(auto, unfolding(crate::specs::Charset::codepage_named))]
fn codepage_named(name: &[u8]) -> Option<Codepage>
    ensures { result ≡ codepage_named name.now }
{
    if is_named(name, b"windows-1250") {
        Some(Codepage::Windows1250)
    } else if is_named(name, b"windows-1251") {
        Some(Codepage::Windows1251)
    } else if is_named(name, b"windows-1252") {
        Some(Codepage::Windows1252)
    } else if is_named(name, b"iso-8859-2") {
        Some(Codepage::Iso8859Part2)
    } else if is_named(name, b"iso-8859-15") {
        Some(Codepage::Iso8859Part15)
    } else if is_named(name, b"koi8-r") {
        Some(Codepage::Koi8R)
    } else {
        None
    }
}

/// The charset of that name, in any case, if the profile knows it (RFC 2047, section 2). A charset
/// that has a table is known only by a profile with `charsets`.
pub fn charset_named(profile: Profile, name: &[u8]) -> Option<Charset>
    ensures { result ≡ charset_named (profile_as profile) name.now }
{
    if is_named(name, b"utf-8") {
        Some(Charset::Utf8)
    } else if is_named(name, b"us-ascii") {
        Some(Charset::Ascii)
    } else if is_named(name, b"iso-8859-1") {
        Some(Charset::Latin1)
    } else if profile.has(Extension::Charsets) {
        Some(Charset::Tabled(codepage_named(name)?))
    } else {
        None
    }
}

/// Octets of ISO 8859-1 in UTF-8.
fn latin(alloc: Global, octets: &[u8]) -> Result<Vec<u8>, AllocError>
    ensures { IfOk result (λ text. text.items ≡ encode_utf8_all octets.now) }
{
    let mut text = String::new(alloc);
    for octet in octets {
        text.push(char::from(*octet))?;
    }
    Ok(text.into_bytes())
}

/// The characters of a charset's octets from 128 on; `'\0'` for an octet that stands for nothing.
#[tactic(auto, unfolding(crate::specs::Charset::table_of))]
fn table_of(codepage: Codepage) -> &'static [char; 128]
    ensures { result.now ≡ table_of codepage }
{
    match codepage {
        Codepage::Windows1250 => &WINDOWS_1250,
        Codepage::Windows1251 => &WINDOWS_1251,
        Codepage::Windows1252 => &WINDOWS_1252,
        Codepage::Iso8859Part2 => &ISO_8859_2,
        Codepage::Iso8859Part15 => &ISO_8859_15,
        Codepage::Koi8R => &KOI8_R,
    }
}

/// The character of an octet, if it stands for one.
fn character_at(table: &[char; 128], octet: u8) -> Option<char>
    ensures { result ≡ character_at table.now octet }
{
    if octet.is_ascii() {
        return Some(char::from(octet));
    }
    let character = table[usize::from(octet) - 128];
    if character == '\0' {
        None
    } else {
        Some(character)
    }
}

/// Octets in UTF-8 by a table. None where one of them stands for nothing.
fn tabled(alloc: Global, table: &[char; 128], octets: &[u8]) -> Result<Option<Vec<u8>>, AllocError>
    ensures { IfOk result (λ text. octets_of text ≡ tabled table.now octets.now) }
{
    let mut text = String::new(alloc);
    for octet in octets {
        let Some(character) = character_at(table, *octet) else {
            return Ok(None);
        };
        text.push(character)?;
    }
    Ok(Some(text.into_bytes()))
}

/// Whether octets are well-formed UTF-8 (RFC 3629, section 4).
#[tactic(auto, using(crate::proofs::Utf8::utf8_said, crate::proofs::Utf8::utf8_denied))]
fn is_utf8(octets: &[u8]) -> bool
    ensures { result ≡ is_utf8 octets.now }
{
    std::str::from_utf8(octets).is_ok()
}

/// Whether all octets are of ASCII.
fn are_ascii(octets: &[u8]) -> bool
    ensures { result ≡ list_all is_ascii octets.now }
{
    octets.iter().all(|octet| octet.is_ascii())
}

/// Octets of a charset in UTF-8. None where they aren't of that charset. Takes memory only where
/// the charset is another than UTF-8 and ASCII.
#[tactic(auto, unfolding(crate::specs::Charset::in_utf8))]
pub fn in_utf8(
    alloc: Global,
    charset: Charset,
    octets: Vec<u8>,
) -> Result<Option<Vec<u8>>, AllocError>
    ensures { IfOk result (λ found. octets_of found ≡ in_utf8 charset octets.items) }
{
    match charset {
        Charset::Utf8 => Ok(if is_utf8(&octets) { Some(octets) } else { None }),
        Charset::Ascii => Ok(if are_ascii(&octets) {
            Some(octets)
        } else {
            None
        }),
        Charset::Latin1 => Ok(Some(latin(alloc, &octets)?)),
        Charset::Tabled(codepage) => tabled(alloc, table_of(codepage), &octets),
    }
}

/// The text, or the octets where there is none.
fn or_same<'o>(octets: CowSlice<'o, u8>, text: Option<Vec<u8>>) -> CowSlice<'o, u8>
    ensures { cow_slice_items result ≡ or_same (cow_slice_items octets.entry) (octets_of text) }
{
    match text {
        Some(text) => CowSlice::Owned(text),
        None => octets,
    }
}

/// Octets in UTF-8, where all are right in the charset of that name, and else as they are. The
/// profile must know that charset (RFC 2047, section 2). Takes memory only where the charset is
/// another than UTF-8 and ASCII.
#[tactic(auto, unfolding(crate::specs::Charset::text_in, crate::specs::Charset::in_utf8))]
pub fn text_in<'o>(
    alloc: Global,
    profile: Profile,
    charset: &[u8],
    octets: CowSlice<'o, u8>,
) -> Result<CowSlice<'o, u8>, AllocError>
    ensures { IfOk result (λ text. cow_slice_items text
        ≡ text_in (profile_as profile) charset.now (cow_slice_items octets.entry)) }
{
    match charset_named(profile, charset) {
        Some(Charset::Latin1) => Ok(CowSlice::Owned(latin(alloc, octets.as_slice())?)),
        Some(Charset::Tabled(codepage)) => {
            let text = tabled(alloc, table_of(codepage), octets.as_slice())?;
            Ok(or_same(octets, text))
        }
        Some(Charset::Utf8 | Charset::Ascii) | None => Ok(octets),
    }
}
