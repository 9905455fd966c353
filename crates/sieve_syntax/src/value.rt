//! The values of numbers and strings (RFC 5228, 2.4).

ghost use Rattle.std.specs.Prelude.{◌≡◌, ◌+◌, ◌-◌, ◌*◌, ◌^◌, ◌<◌, ◌++◌, false, IfOk, IsTrue, OnOk, SomeIff};
ghost use Rattle.octets.specs.Octet.{is_digit, octet_of};
ghost use Rattle.std.specs.List.{list_any};
ghost use Rattle.sieve_syntax.specs.Value as spec;

use crate::line::{is_dot_line, line_length};
use octets::{SmallOctets, is_digit};
use std::alloc::{AllocError, Global};

/// The factor of a unit: of `K`, of `M`, and else of `G` (RFC 5228, 2.4.1).
fn unit_of(octet: u8) -> u64
    ensures { result ≡ spec.unit_of octet }
{
    match octet {
        b'K' | b'k' => 1 << 10,
        b'M' | b'm' => 1 << 20,
        _ => 1 << 30,
    }
}

/// The number with one more digit, or `None` past 64 bits.
fn add_digit(number: u64, digit: u8) -> Option<u64>
    requires { IsTrue (is_digit digit) }
    ensures { SomeIff result (10 * number + (digit - octet_of "0") < 2 ^ 64)
        (10 * number + (digit - octet_of "0")) }
{
    number.checked_mul(10)?.checked_add(u64::from(digit - b'0'))
}

/// The number with its unit, or `None` past 64 bits.
fn with_unit(number: u64, unit: u8) -> Option<u64>
    ensures { SomeIff result (number * spec.unit_of unit < 2 ^ 64) (number * spec.unit_of unit) }
{
    number.checked_mul(unit_of(unit))
}

/// The value of a number, or `None` past 64 bits.
#[tactic(auto, using(crate::proofs::Values::number_steps))]
pub(crate) fn number_of(symbol: &[u8]) -> Option<u64>
    ensures { result ≡ spec.number_of symbol.now }
{
    let mut number = 0;
    for octet in symbol {
        if !is_digit(*octet) {
            return with_unit(number, *octet);
        }
        match add_digit(number, *octet) {
            Some(next) => number = next,
            None => return None,
        }
    }
    Some(number)
}

/// Adds an octet, and a CR before an LF that lacks one.
fn push_octet(out: &mut Vec<u8>, octet: u8, after_cr: bool) -> Result<(), AllocError>
    ensures { OnOk result (out.new.items ≡ out.old.items ++ spec.line_end after_cr octet) }
{
    if octet == b'\n' && !after_cr {
        out.push(b'\r')?;
    }
    out.push(octet)?;
    Ok(())
}

/// Adds the octets, and a CR before each LF that lacks one.
fn push_with_cr(out: &mut Vec<u8>, octets: &[u8]) -> Result<(), AllocError>
    ensures { OnOk result (out.new.items ≡ out.old.items ++ spec.with_cr false octets.now) }
{
    let mut after_cr = false;
    for octet in octets {
        push_octet(out, *octet, after_cr)?;
        after_cr = *octet == b'\r';
    }
    Ok(())
}

/// Adds an octet, but not a backslash that protects the next one. A protected octet is always
/// added. The result is whether the octet protects the next one.
fn push_kept(kept: &mut Vec<u8>, octet: u8, protected: bool) -> Result<bool, AllocError>
    ensures kept { OnOk result
        (kept.new.items ≡ kept.old.items ++ spec.kept_octet protected octet) }
    ensures protects { IfOk result (λ protects. protects ≡ spec.is_protector protected octet) }
{
    if octet == b'\\' && !protected {
        return Ok(true);
    }
    kept.push(octet)?;
    Ok(false)
}

/// The octets without the backslashes that protect one of them.
fn unprotected(alloc: Global, octets: &[u8]) -> Result<Vec<u8>, AllocError>
    ensures { IfOk result (λ kept. kept.items ≡ spec.unprotected octets.now) }
{
    let mut kept = Vec::new(alloc);
    let mut protected = false;
    for octet in octets {
        protected = push_kept(&mut kept, *octet, protected)?;
    }
    Ok(kept)
}

/// Whether an octet among these may stand for another than itself: an LF or a backslash. Most
/// strings have none.
fn has_changed(octets: &[u8]) -> bool
    ensures { result ≡ list_any spec.is_changed octets.now }
{
    octets.iter().any(|octet| matches!(*octet, b'\n' | b'\\'))
}

/// The octets that a quoted string stands for (RFC 5228, 2.4.2). Each LF that lacks a CR gets one.
/// Then a backslash and an octet give that octet.
#[tactic(auto, unfolding(crate::specs::Value::quoted_octets), using(crate::proofs::Values::quoted_steps))]
pub(crate) fn quoted_octets(alloc: Global, symbol: &[u8]) -> Result<SmallOctets, AllocError>
    ensures { IfOk result (λ octets. octets.items ≡ spec.quoted_octets symbol.now) }
{
    if symbol.len() < 2 {
        return Ok(SmallOctets::new(alloc));
    }
    let octets = &symbol[1..symbol.len() - 1];
    if !has_changed(octets) {
        return SmallOctets::from_slice(alloc, octets);
    }
    let mut ended = Vec::new(alloc);
    push_with_cr(&mut ended, octets)?;
    Ok(SmallOctets::from_vec(unprotected(alloc, &ended)?))
}

/// The line without the first of two dots that begin it.
#[tactic(auto, unfolding(crate::specs::Value::without_dot))]
fn without_dot(line: &[u8]) -> &[u8]
    ensures { result.now ≡ spec.without_dot line.now }
{
    match line {
        [first, second, ..] if *first == b'.' && *second == b'.' => &line[1..],
        _ => line,
    }
}

/// The octets that a multi-line string stands for (RFC 5228, 2.4.2). They are its lines between
/// the first and the last. A line that begins with two dots loses the first. Each line ends in
/// CR and LF.
#[tactic(auto, using(crate::proofs::Values::line_steps))]
pub(crate) fn multi_line_octets(alloc: Global, symbol: &[u8]) -> Result<Vec<u8>, AllocError>
    ensures { IfOk result (λ octets. octets.items ≡ spec.multi_line_octets symbol.now) }
{
    let mut octets = Vec::new(alloc);
    let mut place = line_length(symbol);
    while place < symbol.len() {
        let end = place + line_length(&symbol[place..]);
        let line = &symbol[place..end];
        if is_dot_line(line) {
            return Ok(octets);
        }
        push_with_cr(&mut octets, without_dot(line))?;
        place = end;
    }
    Ok(octets)
}
