//! The addresses of a value, and their parts.
ghost use Rattle.std.specs.Prelude.{◌≡◌, ◌<◌, ◌++◌, IfOk, OnOk, Some, length, option_to_list};
ghost use Rattle.std.specs.Option.{option_map};
ghost use Rattle.octets.specs.Octet.{octet_of};
ghost use Rattle.message_text.specs.Addresses.{address_by, address_in, addresses_of, detail_in, is_free, octets_of, part_of_address, user_in};
ghost use Rattle.message_text.specs.view.Divisions.{IsAfterLast, divided_at};

use crate::marks::{Marked, marks_of};
use crate::pieces::{address_marks, is_free, separates};
use memchr::memchr;
use std::alloc::{AllocError, Global};
use std::marker::Model;

/// Which part of an address a test sees (RFC 5228, 2.7.4; RFC 5233, section 4).
#[derive(Clone, Copy, Debug, PartialEq, Eq)]
pub enum AddressPart {
    /// The whole address: `:all`.
    All,
    /// The octets before the `@` that divides it: `:localpart`.
    Local,
    /// The octets after that `@`: `:domain`.
    Domain,
    /// The octets before the first `+` of the local part, or all of it: `:user` (RFC 5233, section
    /// 4).
    User,
    /// The octets after that `+`: `:detail` (RFC 5233, section 4).
    Detail,
}

/// An address of a value, as [`addresses`] reads it.
#[derive(Drop)]
pub struct Address {
    all: Vec<u8>,
    // The place of the `@` between local part and domain.
    at: Option<usize>,
}

impl Model for Address {
    ghost use Rattle.message_text.specs.Addresses.{AddrSpec};
    ghost use Rattle.message_text.specs.view.Divisions.{IsWithin, divided_at};

    ghost Value = { AddrSpec };

    ghost view = { λ a. divided_at a.all.items a.at };

    ghost invariant = { λ a. IsWithin a.all.items a.at };
}

impl Address {
    /// The octets of a part, or none if the address has no such part. The whole is always there.
    /// Local part and domain are there both or not at all (RFC 5228, 2.7.4). The user is there with
    /// the local part, and the detail if a `+` stands in it. Either may be empty (RFC 5233, section
    /// 4).
    pub fn part(&self, part: AddressPart) -> Option<&[u8]>
        ensures { option_map (λ octets. octets.now) result ≡ part_of_address part self.now }
    {
        let all = self.all.as_slice();
        match part {
            AddressPart::All => Some(all),
            AddressPart::Local => Some(&all[..self.at?]),
            AddressPart::Domain => Some(&all[self.at? + 1..]),
            AddressPart::User => Some(user_in(&all[..self.at?])),
            AddressPart::Detail => detail_in(&all[..self.at?]),
        }
    }
}

/// The user in a local part.
fn user_in(local: &[u8]) -> &[u8]
    ensures { result.now ≡ user_in local.now }
{
    let end = memchr(b'+', local).unwrap_or(local.len());
    &local[..end]
}

/// The detail in a local part.
fn detail_in(local: &[u8]) -> Option<&[u8]>
    ensures { option_map (λ octets. octets.now) result ≡ detail_in local.now }
{
    let separator = memchr(b'+', local)?;
    Some(&local[separator + 1..])
}

/// The addresses of a value, in order (RFC 5322, 3.4 and 4.4).
///
/// Any octets are read. A comma or a semicolon ends an address. The name of a group goes, with its
/// colon, and so do comments. If there is an angle, the address is the text in the first one,
/// without a source route. White space outside of quoted strings goes. So do quote signs, and the
/// backslashes that protect an octet of a quoted string. A construct that isn't closed lasts to the
/// end of the value. If no octet is left, there is no address. The last `@` outside of quoted
/// strings and literals divides local part and domain, if octets stand on both sides.
///
/// The reading takes memory for the marks of all octets and for the addresses. It fails only if it
/// is out of memory.
pub fn addresses(alloc: Global, value: &[u8]) -> Result<Vec<Address>, AllocError>
    ensures { IfOk result (λ found. found.items ≡ addresses_of value.now) }
{
    let marks = marks_of(alloc, value)?;
    let mut found = Vec::new(alloc);
    for piece in marks.split(|marked| separates(*marked)) {
        push_address(alloc, &mut found, piece)?;
    }
    Ok(found)
}

/// Adds the address in a piece, if there is one.
fn push_address(alloc: Global, found: &mut Vec<Address>, piece: &[Marked]) -> Result<(), AllocError>
    ensures { OnOk result (found.new.items
        ≡ found.old.items ++ option_to_list (address_in piece.now)) }
{
    let marks = address_marks(alloc, piece)?;
    if !marks.is_empty() {
        found.push(address_by(alloc, &marks)?)?;
    }
    Ok(())
}

/// The address of these octets.
fn address_by(alloc: Global, marks: &[Marked]) -> Result<Address, AllocError>
    requires { 0 < length marks.now }
    ensures { IfOk result (λ address. address_by marks.now ≡ Some address) }
{
    let all = marks.iter().map(|marked| marked.octet).collect(alloc)?;
    Ok(Address {
        all,
        at: dividing_at(marks),
    })
}

/// The place of the last free `@`, if octets stand on both sides of it.
fn dividing_at(marks: &[Marked]) -> Option<usize>
    requires { 0 < length marks.now }
    ensures { address_by marks.now ≡ Some (divided_at (octets_of marks.now) result) }
{
    let after = after_last_at(marks);
    if after < 2 || after == marks.len() {
        return None;
    }
    Some(after - 1)
}

/// The place after the last free `@`, or 0 if there is none.
fn after_last_at(marks: &[Marked]) -> usize
    ensures { IsAfterLast (is_free (octet_of "@")) marks.now result }
{
    let mut after = marks.len();
    while after > 0 && !is_free(b'@', marks[after - 1]) {
        after -= 1;
    }
    after
}
