//! The contents of entities in UTF-8 (RFC 5173, section 5).
ghost use Rattle.std.specs.Prelude.{◌≡◌, IfOk};
ghost use Rattle.std.specs.Cow.{cow_slice_items};
ghost use Rattle.std.specs.Option.{option_map};
ghost use Rattle.mime_text.specs.Values.{charset_of, charset_of_type, text_by};
ghost use Rattle.mime_text.specs.view.ContentTypes.{content_type_as};
ghost use Rattle.mime_text.specs.view.Entities.{entity_as, stated_as};
ghost use Rattle.sieve_profile.specs.view.Profile.{profile_as};

use crate::content_type::ContentType;
use crate::entities::{Entity, EntityType};
use charsets::text_in;
use sieve_profile::Profile;
use std::alloc::{AllocError, Global};
use std::borrow::CowSlice;

/// Octets of a charset in UTF-8. Without a charset, the octets as they are.
fn text_by<'o>(
    alloc: Global,
    profile: Profile,
    charset: Option<&[u8]>,
    octets: CowSlice<'o, u8>,
) -> Result<CowSlice<'o, u8>, AllocError>
    ensures { IfOk result (λ text. cow_slice_items text ≡ text_by (profile_as profile)
        (option_map (λ charset. charset.now) charset.entry) (cow_slice_items octets.entry)) }
{
    match charset {
        Some(charset) => text_in(alloc, profile, charset, octets),
        None => Ok(octets),
    }
}

impl ContentType {
    /// The charset of a text; other types have none.
    fn charset(&self) -> Option<&[u8]>
        ensures { option_map (λ charset. charset.now) result
            ≡ charset_of_type (content_type_as self.now) }
    {
        if !self.is_main(b"text") {
            return None;
        }
        match &self.charset {
            Some(charset) => Some(charset),
            None => None,
        }
    }
}

impl EntityType {
    /// Its charset, if it has one.
    fn charset(&self) -> Option<&[u8]>
        ensures { option_map (λ charset. charset.now) result ≡ charset_of (stated_as self.now) }
    {
        match self {
            EntityType::Stated(stated) => stated.charset(),
            EntityType::Plain | EntityType::Message | EntityType::Octets | EntityType::Unread =>
                None,
        }
    }
}

impl Entity<'_> {
    /// The decoded octets of the entity's content in UTF-8 (RFC 5173, section 5). They stay as they
    /// are unless the entity is a text, and all of them are right in its charset. The profile must
    /// know that charset. Takes memory only where the charset is another than UTF-8 and ASCII.
    pub fn text<'o>(
        &self,
        alloc: Global,
        profile: Profile,
        octets: CowSlice<'o, u8>,
    ) -> Result<CowSlice<'o, u8>, AllocError>
        ensures { IfOk result (λ text. cow_slice_items text ≡ text_by (profile_as profile)
            (charset_of (entity_as self.now).type) (cow_slice_items octets.entry)) }
    {
        text_by(alloc, profile, self.stated.charset(), octets)
    }
}
