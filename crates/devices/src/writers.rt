//! Writing octets, their quoted form, and lines of several pieces.
ghost use Rattle.std.specs.Prelude.{◌≡◌, ◌<◌, ◌≤◌, [], take, length, IfOk, OnErr, IsTrue, ◌↔◌, ◌∷◌};
ghost use Rattle.std.specs.List.{flat_map};
ghost use Rattle.devices.specs.Writers.{Wrote, WroteFront, Writes, octet_spelling, quoted, name_text, piece_text, pieces_text};

use crate::devices::Sink;
use itoa::Buffer;
use octets::{hex_digit, is_printable};
use script_names::ScriptName;
use std::io::ErrorKind;
use thiserror::Error;

/// A device did not take all octets that were to be written to it.
#[derive(Debug, Drop, Error)]
#[error("the writer failed")]
pub struct WriteFault;

/// A part of a line.
#[derive(Clone, Copy)]
pub enum Piece<'a> {
    /// Octets as they are.
    Raw(&'a [u8]),
    /// The quoted form of these octets, as `write_quoted` writes it.
    Quoted(&'a [u8]),
    /// The word of a script's location, and its name as `write_quoted` writes it.
    Name(&'a ScriptName),
    /// The number in base 10.
    Number(u64),
}

/// The number of times in a row that an interrupted write is tried again.
const MAX_RETRIES: u32 = 1_000;

/// Writes some octets from the front, one at least, and answers how many.
#[tactic(auto, using(crate::proofs::Writing::writing))]
fn write_front<W: Sink>(bytes: &[u8], writer: &mut W) -> Result<usize, WriteFault>
    requires { 0 < length bytes.now }
    ensures some { IfOk result (λ n. 0 < n) }
    ensures within { IfOk result (λ n. n ≤ length bytes.now) }
    ensures ok { IfOk result
        (λ n. Wrote W.contents W.fault_count writer.old writer.new (take n bytes.now)) }
    ensures err { OnErr result
        (WroteFront W.contents W.fault_count writer.old writer.new bytes.now) }
{
    let mut retries = MAX_RETRIES;
    'tries: loop {
        match writer.write_some(bytes) {
            Ok(0) => return Err(WriteFault),
            Ok(written) => return Ok(written),
            Err(e) => {
                if retries == 0 || e.kind() != ErrorKind::Interrupted {
                    return Err(WriteFault);
                }
            }
        }
        retries -= 1;
    }
}

/// Writes the octets. A write that was interrupted is tried again, at most 1,000 times in a row.
/// When it fails, a front of the octets is written.
#[tactic(auto, using(crate::proofs::Writing::writing))]
pub fn write_out<W: Sink>(bytes: &[u8], writer: &mut W) -> Result<(), WriteFault>
    ensures { Writes W.contents W.fault_count result writer.old writer.new bytes.now }
{
    let mut rest = bytes;
    while !rest.is_empty() {
        let written = write_front(rest, writer)?;
        rest = rest.split_at(written).1;
    }
    Ok(())
}

/// Whether an octet stands between quotes as it is.
fn is_plain(octet: u8) -> bool
    ensures { IsTrue result ↔ (octet_spelling octet ≡ octet ∷ []) }
{
    is_printable(octet) && octet != b'"' && octet != b'\\'
}

/// The number of octets at the front that stand between quotes as they are.
fn plain_len(bytes: &[u8]) -> usize
    ensures within { result ≤ length bytes.now }
    ensures plain { flat_map octet_spelling (take result bytes.now) ≡ take result bytes.now }
{
    for (i, octet) in bytes.iter().enumerate() {
        if !is_plain(*octet) {
            return i;
        }
    }
    bytes.len()
}

/// Writes the spelling of an octet between quotes.
#[tactic(auto, using(crate::proofs::Writing::writing))]
fn write_spelling<W: Sink>(octet: u8, writer: &mut W) -> Result<(), WriteFault>
    ensures { Writes W.contents W.fault_count result writer.old writer.new (octet_spelling octet) }
{
    match octet {
        b'"' | b'\\' => write_out(&[b'\\', octet], writer),
        _ if is_printable(octet) => write_out(&[octet], writer),
        _ => write_out(
            &[b'\\', b'x', hex_digit(octet / 16), hex_digit(octet % 16)],
            writer,
        ),
    }
}

/// Writes the spelling of some octets at the front, one at least, and answers how many.
#[tactic(auto, using(crate::proofs::Writing::writing_items))]
fn write_spelled_front<W: Sink>(bytes: &[u8], writer: &mut W) -> Result<usize, WriteFault>
    requires { 0 < length bytes.now }
    ensures some { IfOk result (λ n. 0 < n) }
    ensures within { IfOk result (λ n. n ≤ length bytes.now) }
    ensures ok { IfOk result (λ n. Wrote W.contents W.fault_count writer.old writer.new
        (flat_map octet_spelling (take n bytes.now))) }
    ensures err { OnErr result (WroteFront W.contents W.fault_count writer.old writer.new
        (flat_map octet_spelling bytes.now)) }
{
    let plain = plain_len(bytes);
    if plain == 0 {
        write_spelling(bytes[0], writer)?;
        Ok(1)
    } else {
        write_out(&bytes[..plain], writer)?;
        Ok(plain)
    }
}

/// Writes the spelling of each octet.
#[tactic(auto, using(crate::proofs::Writing::writing))]
fn write_spelled<W: Sink>(bytes: &[u8], writer: &mut W) -> Result<(), WriteFault>
    ensures { Writes W.contents W.fault_count result writer.old writer.new
        (flat_map octet_spelling bytes.now) }
{
    let mut rest = bytes;
    while !rest.is_empty() {
        let spelled = write_spelled_front(rest, writer)?;
        rest = rest.split_at(spelled).1;
    }
    Ok(())
}

/// Writes the octets between quotes. `"` and `\` stand after a `\`. Octets outside 32 to 126 stand
/// as `\x` and two hexadecimal digits in lower case.
#[tactic(auto, using(crate::proofs::Writing::writing), unfolding(crate::specs::Writers::quoted))]
pub fn write_quoted<W: Sink>(bytes: &[u8], writer: &mut W) -> Result<(), WriteFault>
    ensures { Writes W.contents W.fault_count result writer.old writer.new (quoted bytes.now) }
{
    write_out(b"\"", writer)?;
    write_spelled(bytes, writer)?;
    write_out(b"\"", writer)
}

/// Writes the word of a script's location and its quoted name.
#[tactic(auto, using(crate::proofs::Writing::writing), unfolding(crate::specs::Writers::name_text))]
fn write_name<W: Sink>(name: &ScriptName, writer: &mut W) -> Result<(), WriteFault>
    ensures { Writes W.contents W.fault_count result writer.old writer.new (name_text name.now) }
{
    write_out(name.location.word(), writer)?;
    write_out(b" ", writer)?;
    write_quoted(name.name.as_slice(), writer)
}

/// Writes one piece.
#[tactic(auto, using(crate::proofs::Writing::writing))]
fn write_piece<W: Sink>(piece: &Piece<'_>, writer: &mut W) -> Result<(), WriteFault>
    ensures { Writes W.contents W.fault_count result writer.old writer.new (piece_text piece.now) }
{
    match piece {
        Piece::Raw(octets) => write_out(octets, writer),
        Piece::Quoted(octets) => write_quoted(octets, writer),
        Piece::Name(name) => write_name(name, writer),
        Piece::Number(n) => write_out(Buffer::new().format(*n).as_bytes(), writer),
    }
}

/// Writes the pieces in order.
#[tactic(auto, using(crate::proofs::Writing::writing_items))]
pub fn write_pieces<W: Sink>(pieces: &[Piece<'_>], writer: &mut W) -> Result<(), WriteFault>
    ensures { Writes W.contents W.fault_count result writer.old writer.new
        (pieces_text pieces.now) }
{
    for piece in pieces {
        write_piece(piece, writer)?;
    }
    Ok(())
}
