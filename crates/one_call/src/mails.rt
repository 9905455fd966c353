//! Mails, their fields and the addresses of a value.

use crate::telling::{Host, mark, prepared, tell_octets, tell_refused, tell_value};
use encoded_words::decoded_value;
use message_text::{Address, AddressPart, FieldName, Message, addresses};
use sieve_profile::{Extension, Profile};
use std::borrow::CowSlice;
use std::io;

/// Encoded words under both encodings on two lines, addresses on two lines, and a field of one
/// line.
pub(crate) const MAIL: &[u8] =
    b"From: Ann <ann@a.example>\r\nSubject: =?utf-8?q?caf=C3=A9_?=\r\n =?iso-8859-1?B?6Q==?= late\r\nTo: b@c.example,\r\n\td@e.example\r\nX-Plain: plain\r\n\r\nbody\r\n";

/// Octets without a field.
pub(crate) const BARE: &[u8] = b"\r\nbody\r\n";

/// An encoded word, and one of a charset that isn't known.
pub(crate) const WORD: &[u8] = b"=?us-ascii?Q?a_b?= c";

pub(crate) const UNKNOWN: &[u8] = b"=?koi8-r?Q?a_b?= c";

/// Places of fields of the mail.
pub(crate) const SUBJECT: usize = 1;

pub(crate) const TO: usize = 2;

pub(crate) const PLAIN: usize = 3;

/// A group with an address in angles, an address beside a comment, and one with a source route.
pub(crate) const ADDRESSES: &[u8] =
    b"Team: \"A. B\" <\"a b\"@b.example>, (note) c@d.example; <@r.example:e@f.example>";

/// Prints the names of the fields, or the octets that a refusal gives back.
pub(crate) fn read(rt: &impl Host, octets: &[u8]) -> io::Result<()> {
    let octets = Vec::from_slice(rt.alloc(), octets)?;
    mark(rt);
    let answer = Message::new(rt.alloc(), octets);
    mark(rt);
    match answer {
        Ok(mail) => tell_names(rt, &mail),
        Err((_, octets)) => {
            tell_refused(rt)?;
            tell_octets(rt, &octets)
        }
    }
}

fn tell_names(rt: &impl Print, mail: &Message) -> io::Result<()> {
    for i in 0..mail.fields() {
        tell_octets(rt, mail.name(i))?;
    }
    Ok(())
}

fn mail_of(rt: &impl Host) -> io::Result<Message> {
    let octets = Vec::from_slice(rt.alloc(), MAIL)?;
    prepared(Message::new(rt.alloc(), octets))
}

pub(crate) fn ask_value(rt: &impl Host, place: usize) -> io::Result<()> {
    tell_field(rt, &mail_of(rt)?, place)
}

/// Prints a field's value.
fn tell_field(rt: &impl Host, mail: &Message, place: usize) -> io::Result<()> {
    if place < mail.fields() {
        mark(rt);
        let value = mail.value(rt.alloc(), place);
        mark(rt);
        tell_value(rt, value)?;
    }
    Ok(())
}

pub(crate) fn ask_decoded(rt: &impl Host, place: usize) -> io::Result<()> {
    tell_decoded(rt, &mail_of(rt)?, Profile::new(), place)
}

/// Prints a field's value with its encoded words decoded.
fn tell_decoded(rt: &impl Host, mail: &Message, profile: Profile, place: usize) -> io::Result<()> {
    if place < mail.fields() {
        mark(rt);
        let value = mail.decoded(rt.alloc(), profile, place);
        mark(rt);
        tell_value(rt, value)?;
    }
    Ok(())
}

/// Prints the name of each field, its value, and the value decoded without `charsets` and with it.
pub(crate) fn read_fields(rt: &impl Host, octets: &[u8]) -> io::Result<()> {
    let octets = Vec::from_slice(rt.alloc(), octets)?;
    let mail = prepared(Message::new(rt.alloc(), octets))?;
    for i in 0..mail.fields() {
        tell_octets(rt, mail.name(i))?;
        tell_field(rt, &mail, i)?;
        tell_decoded(rt, &mail, Profile::new(), i)?;
        tell_decoded(rt, &mail, Profile::new().with(Extension::Charsets), i)?;
    }
    Ok(())
}

/// Prints the size, the number of fields, and the place of a field of a name.
pub(crate) fn ask(rt: &impl Host) -> io::Result<()> {
    let mail = mail_of(rt)?;
    let name = FieldName::new(b"x-plain");
    mark(rt);
    let (size, fields) = (mail.size(), mail.fields());
    let place = mail.next_named(&name, 1);
    mark(rt);
    println!(rt; "{size} {fields} {place:?}")
}

pub(crate) fn decode(rt: &impl Host, octets: &[u8]) -> io::Result<()> {
    let value = CowSlice::Borrowed(octets);
    mark(rt);
    let answer = decoded_value(rt.alloc(), Profile::new(), value);
    mark(rt);
    tell_value(rt, answer)
}

pub(crate) fn read_addresses(rt: &impl Host, value: &[u8]) -> io::Result<()> {
    mark(rt);
    let answer = addresses(rt.alloc(), value);
    mark(rt);
    match answer {
        Ok(found) => tell_addresses(rt, &found),
        Err(_) => tell_refused(rt),
    }
}

fn tell_addresses(rt: &impl Print, found: &[Address]) -> io::Result<()> {
    for address in found {
        tell_part(rt, address.part(AddressPart::All))?;
        tell_part(rt, address.part(AddressPart::Local))?;
        tell_part(rt, address.part(AddressPart::Domain))?;
        tell_part(rt, address.part(AddressPart::User))?;
        tell_part(rt, address.part(AddressPart::Detail))?;
    }
    Ok(())
}

fn tell_part(rt: &impl Print, part: Option<&[u8]>) -> io::Result<()> {
    match part {
        Some(octets) => tell_octets(rt, octets),
        None => println!(rt; "none"),
    }
}

/// Prints the parts of the first address.
pub(crate) fn ask_address(rt: &impl Host) -> io::Result<()> {
    let found = addresses(rt.alloc(), ADDRESSES)?;
    if let Some(first) = found.first() {
        mark(rt);
        let local = first.part(AddressPart::Local);
        let domain = first.part(AddressPart::Domain);
        mark(rt);
        tell_part(rt, local)?;
        tell_part(rt, domain)?;
    }
    Ok(())
}
