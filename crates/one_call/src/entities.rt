//! The parts of a mail: its entities, and the texts of their contents.

use crate::telling::{Host, mark, tell_octets, tell_refused, tell_value};
use mime_text::{Entity, Given, TransferEncoding, WantedType, body_of, entities_of};
use sieve_profile::{Extension, Profile};
use std::borrow::CowSlice;
use std::io;

/// A prologue, a text, a held mail that has a text in base64, and an epilogue.
pub(crate) const MAIL: &[u8] =
    b"Content-Type: multipart/mixed; boundary=\"b c\"\r\n\r\nbefore\r\n--b c\r\nContent-Type: text/plain; charset=KOI8-R\r\n\r\n\xc1\r\n--b c\r\nContent-Type: message/rfc822\r\n\r\nSubject: held\r\nContent-Transfer-Encoding: base64\r\n\r\naGVsZA==\r\n--b c--\r\nafter";

/// The place of the text.
const TEXT: usize = 1;

/// Quoted-printable with a soft line end.
const QUOTED: &[u8] = b"caf=C3=A9 =\r\nat ten";

/// Prints the octets that the entities of the mail give, as they are written.
pub(crate) fn read(rt: &impl Host) -> io::Result<()> {
    mark(rt);
    let answer = entities_of(rt.alloc(), MAIL);
    mark(rt);
    match answer {
        Ok(entities) => {
            for entity in &entities {
                tell_given(rt, entity)?;
            }
            Ok(())
        }
        Err(_) => tell_refused(rt),
    }
}

fn tell_given(rt: &impl Print, entity: &Entity<'_>) -> io::Result<()> {
    match entity.given() {
        Given::Around { prologue, epilogue } => {
            tell_octets(rt, prologue)?;
            tell_octets(rt, epilogue.unwrap_or(b""))
        }
        Given::Header(octets) | Given::Content(_, octets) => tell_octets(rt, octets),
    }
}

/// Prints the octets of a content.
pub(crate) fn undo(rt: &impl Host) -> io::Result<()> {
    mark(rt);
    let octets = TransferEncoding::QuotedPrintable.octets_of(rt.alloc(), QUOTED);
    mark(rt);
    tell_value(rt, octets)
}

/// Prints the octets of the text in UTF-8.
pub(crate) fn read_text(rt: &impl Host) -> io::Result<()> {
    let entities = entities_of(rt.alloc(), MAIL)?;
    let profile = Profile::new().with(Extension::Charsets);
    if let Some(entity) = entities.get(TEXT) {
        mark(rt);
        let text = entity.text(rt.alloc(), profile, CowSlice::Borrowed(b"\xc1"));
        mark(rt);
        tell_value(rt, text)?;
    }
    Ok(())
}

/// Prints whether there is a body, whether an entry names the text, and the octets that the text
/// gives.
pub(crate) fn ask(rt: &impl Host) -> io::Result<()> {
    let entities = entities_of(rt.alloc(), MAIL)?;
    if let Some(entity) = entities.get(TEXT) {
        mark(rt);
        let has_body = body_of(MAIL).is_some();
        let is_wanted = entity.is_wanted(WantedType::of_entry(b"TEXT/plain"));
        let given = entity.given();
        mark(rt);
        println!(rt; "{has_body} {is_wanted}")?;
        if let Given::Content(_, octets) = given {
            tell_octets(rt, octets)?;
        }
    }
    Ok(())
}
