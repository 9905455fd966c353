//! Which entities an entry of `:content` names (RFC 5173, 5.2).
ghost use Rattle.std.specs.Prelude.{◌≡◌};
ghost use Rattle.std.specs.List.{list_any};
ghost use Rattle.mime_text.specs.Wanted.{is_slash, is_wanted, of_both, of_main, of_type, wanted_in};
ghost use Rattle.mime_text.specs.view.Entities.{entity_as, given_as, stated_as};
ghost use Rattle.mime_text.specs.view.Wanted.{wanted_as};

use crate::entities::{Entity, EntityType, Given};

/// The entities that an entry names, by their types.
#[derive(Clone, Copy)]
pub enum WantedType<'e> {
    /// Entities of any type, and those without a type.
    Any,
    /// Entities of this main type.
    Main(&'e [u8]),
    /// Entities of this type and subtype.
    Type(&'e [u8], &'e [u8]),
    /// No entity.
    Nothing,
}

fn has_slash(octets: &[u8]) -> bool
    ensures { result ≡ list_any is_slash octets.now }
{
    octets.iter().any(|octet| *octet == b'/')
}

/// A type and a subtype. Nothing where one of them is empty, or the subtype has a slash.
fn both<'e>(main: &'e [u8], sub: &'e [u8]) -> WantedType<'e>
    ensures { wanted_as result ≡ of_both main.now sub.now }
{
    if !main.is_empty() && !sub.is_empty() && !has_slash(sub) {
        WantedType::Type(main, sub)
    } else {
        WantedType::Nothing
    }
}

impl<'e> WantedType<'e> {
    /// The entities that an entry of `:content` names (RFC 5173, 5.2). An empty entry names any
    /// type, and one without a slash a main type. An entry with one slash inside names a type and a
    /// subtype. Any other names nothing.
    pub fn of_entry(entry: &'e [u8]) -> WantedType<'e>
        ensures { wanted_as result ≡ wanted_in entry.now }
    {
        if entry.is_empty() {
            return WantedType::Any;
        }
        match entry.iter().position(|octet| *octet == b'/') {
            Some(slash) => both(&entry[..slash], &entry[slash + 1..]),
            None => WantedType::Main(entry),
        }
    }
}

impl EntityType {
    /// Whether it has that main type, in any case of letters.
    fn is_main(&self, main: &[u8]) -> bool
        ensures { result ≡ is_wanted (of_main main.now) (stated_as self.now) }
    {
        match self {
            EntityType::Plain => main.eq_ignore_ascii_case(b"text"),
            EntityType::Message => main.eq_ignore_ascii_case(b"message"),
            EntityType::Octets => main.eq_ignore_ascii_case(b"application"),
            EntityType::Unread => false,
            EntityType::Stated(stated) => stated.is_main(main),
        }
    }

    /// Whether it is that type and subtype, in any case of letters.
    fn is_type(&self, main: &[u8], sub: &[u8]) -> bool
        ensures { result ≡ is_wanted (of_type main.now sub.now) (stated_as self.now) }
    {
        match self {
            EntityType::Plain => self.is_main(main) && sub.eq_ignore_ascii_case(b"plain"),
            EntityType::Message => self.is_main(main) && sub.eq_ignore_ascii_case(b"rfc822"),
            EntityType::Octets => self.is_main(main) && sub.eq_ignore_ascii_case(b"octet-stream"),
            EntityType::Unread => false,
            EntityType::Stated(stated) => stated.is_type(main, sub),
        }
    }
}

impl Entity<'_> {
    /// Whether an entry names the entity, in any case of letters. An entity without a type is named
    /// by an entry of any type alone.
    pub fn is_wanted(&self, wanted: WantedType<'_>) -> bool
        ensures { result ≡ is_wanted (wanted_as wanted.entry) (entity_as self.now).type }
    {
        match wanted {
            WantedType::Any => true,
            WantedType::Main(main) => self.stated.is_main(main),
            WantedType::Type(main, sub) => self.stated.is_type(main, sub),
            WantedType::Nothing => false,
        }
    }

    /// The octets that the entity gives. A multipart gives its prologue and its epilogue. An
    /// entity that holds a message gives that message's header section. Any other gives its
    /// content as it is written.
    pub fn given(&self) -> Given<'_>
        ensures { given_as result ≡ (entity_as self.now).given }
    {
        self.given
    }
}
