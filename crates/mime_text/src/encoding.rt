//! Transfer encodings (RFC 2045, section 6).
ghost use Rattle.std.specs.Prelude.{◌≡◌, IfOk};
ghost use Rattle.std.specs.Cow.{cow_slice_items};
ghost use Rattle.std.specs.Str.{str_eq_ignore_ascii_case};
ghost use Rattle.mime_text.specs.TransferEncoding.{encoding_in, encoding_named, is_identity, octets_of};

use crate::base64::base64_octets;
use crate::content_type::token_in;
use crate::marks::marks_of;
use crate::quoted::quoted_octets;
use std::alloc::{AllocError, Global};
use std::borrow::CowSlice;

/// How the octets of a content are written (RFC 2045, section 6).
#[derive(Clone, Copy, Debug, PartialEq, Eq)]
pub enum TransferEncoding {
    /// As they are: `7bit`, `8bit` and `binary`.
    Identity,
    /// In base64 (RFC 2045, 6.8).
    Base64,
    /// In quoted-printable (RFC 2045, 6.7).
    QuotedPrintable,
}

/// Whether two names are the same, in any case of letters.
fn is_named(name: &[u8], other: &[u8]) -> bool
    ensures { result ≡ str_eq_ignore_ascii_case other.now name.now }
{
    other.eq_ignore_ascii_case(name)
}

/// Whether a name is of an encoding that changes nothing, in any case of letters.
#[tactic(auto, unfolding(crate::specs::TransferEncoding::is_identity))]
fn is_identity(name: &[u8]) -> bool
    ensures { result ≡ is_identity name.now }
{
    is_named(name, b"7bit") || is_named(name, b"8bit") || is_named(name, b"binary")
}

/// The encoding of a name, in any case of letters, if it is known.
#[tactic(auto, unfolding(crate::specs::TransferEncoding::encoding_named))]
fn encoding_named(name: &[u8]) -> Option<TransferEncoding>
    ensures { result ≡ encoding_named name.now }
{
    if is_named(name, b"base64") {
        Some(TransferEncoding::Base64)
    } else if is_named(name, b"quoted-printable") {
        Some(TransferEncoding::QuotedPrintable)
    } else if is_identity(name) {
        Some(TransferEncoding::Identity)
    } else {
        None
    }
}

/// The encoding that a Content-Transfer-Encoding says, if it is known. Comments are dropped.
pub(crate) fn encoding_in(
    alloc: Global,
    value: &[u8],
) -> Result<Option<TransferEncoding>, AllocError>
    ensures { IfOk result (λ encoding. encoding ≡ encoding_in value.now) }
{
    let Some(marks) = marks_of(alloc, value)? else {
        return Ok(None);
    };
    match token_in(alloc, &marks)? {
        Some(name) => Ok(encoding_named(&name)),
        None => Ok(None),
    }
}

impl TransferEncoding {
    /// The octets that a content in this encoding stands for (RFC 2045, section 6). They are
    /// borrowed where they stand in the content as they are.
    pub fn octets_of<'c>(
        self,
        alloc: Global,
        content: &'c [u8],
    ) -> Result<CowSlice<'c, u8>, AllocError>
        ensures { IfOk result (λ octets. cow_slice_items octets ≡ octets_of self content.now) }
    {
        match self {
            TransferEncoding::Identity => Ok(CowSlice::Borrowed(content)),
            TransferEncoding::Base64 => Ok(CowSlice::Owned(base64_octets(alloc, content)?)),
            TransferEncoding::QuotedPrintable => Ok(CowSlice::Owned(quoted_octets(
                alloc, content,
            )?)),
        }
    }
}
