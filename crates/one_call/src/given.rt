//! Calls on a text that the command line gives, as pairs of hexadecimal digits.

use crate::telling::Host;
use crate::{mails, scripts, texts};
use octets::hex_octet;
use std::alloc::AllocError;
use std::io;
use std::io::ErrorKind;

/// Makes the call that a word names on the text of these digits.
pub(crate) fn call(rt: &impl Host, word: &str, digits: &[u8]) -> io::Result<()> {
    let text = text_of(rt, digits)?;
    match word {
        "tokens" => scripts::cut(rt, &text),
        "write_quoted" => scripts::quote(rt, &text),
        "replaced" => texts::replace(rt, &text),
        "fields" => mails::read_fields(rt, &text),
        "addresses" => mails::read_addresses(rt, &text),
        _ => Err(io::Error::from(ErrorKind::InvalidInput)),
    }
}

/// The octets of pairs of digits.
fn text_of(rt: &impl Host, digits: &[u8]) -> Result<Vec<u8>, AllocError> {
    let mut text = Vec::new(rt.alloc());
    let mut high = None;
    for digit in digits {
        match high {
            None => high = Some(*digit),
            Some(first) => {
                text.push(hex_octet(first, *digit).unwrap_or(0))?;
                high = None;
            }
        }
    }
    Ok(text)
}
