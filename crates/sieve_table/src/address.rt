//! The header fields that hold addresses, and the parts of an envelope that have one.
ghost use Rattle.std.specs.Prelude.{◌≡◌};
ghost use Rattle.std.specs.List.{list_any};
ghost use Rattle.std.specs.Str.{str_eq_ignore_ascii_case};
ghost use Rattle.sieve_table.specs.Address.{is_address_field, is_envelope_part};

/// The header fields that an `address` test may name, in lower case (RFC 5228, 5.1).
const ADDRESS_FIELDS: [&[u8]; 18] = [
    b"from",
    b"to",
    b"cc",
    b"bcc",
    b"sender",
    b"reply-to",
    b"resent-from",
    b"resent-to",
    b"resent-cc",
    b"resent-bcc",
    b"resent-sender",
    b"resent-reply-to",
    b"return-path",
    b"delivered-to",
    b"errors-to",
    b"disposition-notification-to",
    b"x-original-to",
    b"envelope-to",
];

/// The parts that an `envelope` test may name, in lower case (RFC 5228, 5.4).
const ENVELOPE_PARTS: [&[u8]; 2] = [b"from", b"to"];

/// Whether a name is one of these, in any case of ASCII.
fn is_one_of(names: &[&[u8]], name: &[u8]) -> bool
    ensures { result ≡ list_any (λ one. str_eq_ignore_ascii_case one.now name.now) names.now }
{
    names.iter().any(|one| one.eq_ignore_ascii_case(name))
}

/// Whether an `address` test may name this header field, in any case of ASCII (RFC 5228, 5.1).
#[tactic(auto, unfolding(crate::specs::Address::is_address_field))]
pub fn is_address_field(name: &[u8]) -> bool
    ensures { result ≡ is_address_field name.now }
{
    is_one_of(&ADDRESS_FIELDS, name)
}

/// Whether an `envelope` test may name this part of an envelope, in any case of ASCII
/// (RFC 5228, 5.4).
#[tactic(auto, unfolding(crate::specs::Address::is_envelope_part))]
pub fn is_envelope_part(name: &[u8]) -> bool
    ensures { result ≡ is_envelope_part name.now }
{
    is_one_of(&ENVELOPE_PARTS, name)
}
