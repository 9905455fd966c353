//! Classes of octets (RFC 5228, 8.1).

ghost use Rattle.std.specs.Prelude.{◌≡◌};
ghost use Rattle.sieve_syntax.specs.Octet.{is_unit};

/// Whether the octet is the unit of a number: `K`, `M` or `G` in either case (RFC 5228, 8.1).
pub(crate) fn is_unit(octet: u8) -> bool
    ensures { result ≡ is_unit octet }
{
    matches!(octet, b'K' | b'k' | b'M' | b'm' | b'G' | b'g')
}
