//! Classes of octets (RFC 5234, appendix B.1; RFC 5228, 8.1).
ghost use Rattle.std.specs.Prelude.{◌≡◌};
ghost use Rattle.octets.specs.Octet.{begins_name, is_blank, is_digit, is_name_octet, is_printable, is_visible, is_white};

/// Whether the octet is a digit (RFC 5234, appendix B.1: DIGIT).
#[inline]
pub fn is_digit(octet: u8) -> bool
    ensures { result ≡ is_digit octet }
{
    octet.is_ascii_digit()
}

/// Whether the octet is a space or a tab (RFC 5234, appendix B.1: WSP).
#[inline]
pub fn is_blank(octet: u8) -> bool
    ensures { result ≡ is_blank octet }
{
    matches!(octet, b' ' | b'\t')
}

/// Whether the octet is a space, a tab, a CR or an LF (RFC 5228, 8.1; RFC 5322, 3.2.2).
#[inline]
pub fn is_white(octet: u8) -> bool
    ensures { result ≡ is_white octet }
{
    matches!(octet, b' ' | b'\t' | b'\r' | b'\n')
}

/// Whether the octet is a visible character of ASCII (RFC 5234, appendix B.1: VCHAR).
#[inline]
pub fn is_visible(octet: u8) -> bool
    ensures { result ≡ is_visible octet }
{
    matches!(octet, b'!'..=b'~')
}

/// Whether the octet is visible ASCII or a space (RFC 5234, appendix B.1: VCHAR, SP).
#[inline]
pub fn is_printable(octet: u8) -> bool
    ensures { result ≡ is_printable octet }
{
    matches!(octet, b' '..=b'~')
}

/// Whether an identifier begins with the octet: a letter or `_` (RFC 5228, 8.1).
#[inline]
pub fn begins_name(octet: u8) -> bool
    ensures { result ≡ begins_name octet }
{
    octet.is_ascii_alphabetic() || octet == b'_'
}

/// Whether an identifier continues with the octet: a letter, a digit or `_` (RFC 5228, 8.1).
#[inline]
pub fn is_name_octet(octet: u8) -> bool
    ensures { result ≡ is_name_octet octet }
{
    begins_name(octet) || is_digit(octet)
}
