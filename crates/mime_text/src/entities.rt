//! The entities of a message (RFC 2045, 2.4; RFC 2046, section 5).
ghost use Rattle.std.specs.Prelude.{◌≡◌, [], ◌∷◌, ◌++◌, IfOk, OnOk, Some, codes, false, filter, length, map};
ghost use Rattle.std.specs.Cow.{cow_slice_items};
ghost use Rattle.std.specs.Option.{option_map};
ghost use Rattle.message_text.specs.Fields.{fields_of, is_field_named};
ghost use Rattle.mime_text.specs.ContentType.{is_main, is_type};
ghost use Rattle.mime_text.specs.Entities as spec;
ghost use Rattle.mime_text.specs.view.ContentTypes.{content_type_as};
ghost use Rattle.mime_text.specs.view.Entities.{IsEntityHead, IsInner, entity_as, given_as, shape_as, stated_as};

use crate::content_type::{ContentType, content_type_in};
use crate::encoding::{TransferEncoding, encoding_in};
use crate::lines::{is_line_end, next_line};
use crate::multipart::pieces_of;
use message_text::{FieldName, Message};
use std::alloc::{AllocError, Global};
use std::borrow::CowSlice;

/// The type of an entity.
#[derive(Drop)]
pub(crate) enum EntityType {
    /// `text/plain`, where no field says a type.
    Plain,
    /// `message/rfc822`, where no field says a type in a digest.
    Message,
    /// `application/octet-stream`, where the encoding isn't known.
    Octets,
    /// No type, where the field doesn't say one.
    Unread,
    /// The type that the field says.
    Stated(Box<ContentType>),
}

/// The octets that an entity gives, by its shape.
#[derive(Clone, Copy)]
pub enum Given<'m> {
    /// A multipart: the octets around its parts.
    Around {
        /// The octets before its first delimiter or closing line, or all if none comes.
        prologue: &'m [u8],
        /// The octets after its closing line, if one comes.
        epilogue: Option<&'m [u8]>,
    },
    /// An entity that holds a message: the header section of that message.
    Header(&'m [u8]),
    /// Any other entity: its encoding, and its content as it is written.
    Content(TransferEncoding, &'m [u8]),
}

/// An entity of a message: its type, and the octets that it gives.
#[derive(Drop)]
pub struct Entity<'m> {
    pub(crate) stated: EntityType,
    pub(crate) given: Given<'m>,
}

/// The shape of an entity, by its type.
#[derive(Clone, Copy)]
enum EntityShape<'t> {
    Multipart {
        is_digest: bool,
        boundary: Option<&'t [u8]>,
    },
    Message,
    Leaf,
}

/// The octets that an entity gives, and the texts of the entities directly in it.
#[derive(Drop)]
struct InnerTexts<'m> {
    given: Given<'m>,
    is_digest: bool,
    texts: Vec<&'m [u8]>,
}

/// The type and the encoding that an entity's header says, and the entity's content.
#[derive(Drop)]
struct EntityHead<'m> {
    stated: EntityType,
    encoding: TransferEncoding,
    content: &'m [u8],
}

/// The header section of a text, and the text after its first empty line, if there is one.
fn divided(text: &[u8]) -> (&[u8], Option<&[u8]>)
    ensures header { result.0.now ≡ spec.header_of text.now }
    ensures body { option_map (λ body. body.now) result.1 ≡ spec.body_of text.now }
{
    let mut rest = text;
    while let Some((line, after)) = next_line(rest) {
        if is_line_end(line) {
            return (&text[..text.len() - rest.len()], Some(after));
        }
        rest = after;
    }
    (text, None)
}

/// The octets after the first empty line of a message, if there is one (RFC 5322, 2.1).
pub fn body_of(message: &[u8]) -> Option<&[u8]>
    ensures { option_map (λ body. body.now) result ≡ spec.body_of message.now }
{
    let (_, body) = divided(message);
    body
}

/// The value of the first field of a name, if there is one.
fn value_named<'m>(
    alloc: Global,
    header: &'m Message,
    name: &[u8],
) -> Result<Option<CowSlice<'m, u8>>, AllocError>
    ensures { IfOk result (λ value. option_map cow_slice_items value
        ≡ spec.first_value (filter (is_field_named name.now) (fields_of header.now))) }
{
    match header.next_named(&FieldName::new(name), 0) {
        Some(i) => {
            let value = header.value(alloc, i)?;
            Ok(Some(value))
        }
        None => Ok(None),
    }
}

/// The type that a value of Content-Type says.
fn stated_in(alloc: Global, value: &[u8]) -> Result<EntityType, AllocError>
    ensures { IfOk result (λ stated. stated_as stated ≡ spec.type_by false (Some value.now)) }
{
    match content_type_in(alloc, value)? {
        Some(stated) => {
            let stated = Box::new(alloc, stated)?;
            Ok(EntityType::Stated(stated))
        }
        None => Ok(EntityType::Unread),
    }
}

/// The type of an entity whose header has no Content-Type.
fn default_type(in_digest: bool) -> EntityType
    ensures { stated_as result ≡ Some (spec.default_type in_digest) }
{
    if in_digest {
        EntityType::Message
    } else {
        EntityType::Plain
    }
}

/// The type that a header says, whatever its encoding is.
fn type_of(alloc: Global, in_digest: bool, header: &Message) -> Result<EntityType, AllocError>
    ensures { IfOk result (λ stated. stated_as stated ≡ spec.type_by in_digest (spec.first_value
        (filter (is_field_named (codes "Content-Type")) (fields_of header.now)))) }
{
    match value_named(alloc, header, b"Content-Type")? {
        Some(value) => stated_in(alloc, value.as_slice()),
        None => Ok(default_type(in_digest)),
    }
}

/// The encoding that a header says, if it is known. It is `Identity` where no field says one.
fn encoding_of(alloc: Global, header: &Message) -> Result<Option<TransferEncoding>, AllocError>
    ensures { IfOk result (λ encoding. encoding ≡ spec.encoding_by (spec.first_value
        (filter (is_field_named (codes "Content-Transfer-Encoding")) (fields_of header.now)))) }
{
    match value_named(alloc, header, b"Content-Transfer-Encoding")? {
        Some(value) => encoding_in(alloc, value.as_slice()),
        None => Ok(Some(TransferEncoding::Identity)),
    }
}

/// A header section as a message. Answers the error also where a message may not be so long.
fn header_of(alloc: Global, header: &[u8]) -> Result<Message, AllocError>
    ensures { IfOk result (λ message. message ≡ header.now) }
{
    let octets = Vec::from_slice(alloc, header)?;
    match Message::new(alloc, octets) {
        Ok(message) => Ok(message),
        Err(_) => Err(AllocError),
    }
}

/// The type and the encoding that the header of a text says, and the text's content. The encoding
/// is read first: under an unknown one the type doesn't tell what the octets are.
fn head_of<'m>(alloc: Global, in_digest: bool, text: &'m [u8]) -> Result<EntityHead<'m>, AllocError>
    ensures { IfOk result (IsEntityHead in_digest text.now) }
{
    let (header, body) = divided(text);
    let content = body.unwrap_or(b"");
    let header = header_of(alloc, header)?;
    match encoding_of(alloc, &header)? {
        Some(encoding) => {
            let stated = type_of(alloc, in_digest, &header)?;
            Ok(EntityHead {
                stated,
                encoding,
                content,
            })
        }
        None => Ok(EntityHead {
            stated: EntityType::Octets,
            encoding: TransferEncoding::Identity,
            content,
        }),
    }
}

/// The boundary, if it has 1 to 70 octets.
fn if_short(boundary: &[u8]) -> Option<&[u8]>
    ensures { option_map (λ boundary. boundary.now) result ≡ spec.if_short boundary.now }
{
    if (1..=70).contains(&boundary.len()) {
        Some(boundary)
    } else {
        None
    }
}

impl ContentType {
    /// Whether it has that main type, in any case of letters.
    pub(crate) fn is_main(&self, main: &[u8]) -> bool
        ensures { result ≡ is_main main.now (content_type_as self.now) }
    {
        main.eq_ignore_ascii_case(&self.main)
    }

    /// Whether it is that type, in any case of letters.
    pub(crate) fn is_type(&self, main: &[u8], sub: &[u8]) -> bool
        ensures { result ≡ is_type main.now sub.now (content_type_as self.now) }
    {
        self.is_main(main) && sub.eq_ignore_ascii_case(&self.sub)
    }

    /// Its boundary, if it has one of 1 to 70 octets.
    fn boundary(&self) -> Option<&[u8]>
        ensures { option_map (λ boundary. boundary.now) result
            ≡ spec.boundary_of (content_type_as self.now) }
    {
        match &self.boundary {
            Some(boundary) => if_short(boundary),
            None => None,
        }
    }

    /// The shape of an entity of this type.
    fn shape(&self) -> EntityShape<'_>
        ensures { shape_as result ≡ spec.shape_of_type (content_type_as self.now) }
    {
        if self.is_main(b"multipart") {
            EntityShape::Multipart {
                is_digest: self.is_type(b"multipart", b"digest"),
                boundary: self.boundary(),
            }
        } else if self.is_type(b"message", b"rfc822") || self.is_type(b"message", b"global") {
            EntityShape::Message
        } else {
            EntityShape::Leaf
        }
    }
}

impl EntityType {
    /// The shape of an entity of this type.
    fn shape(&self) -> EntityShape<'_>
        ensures { shape_as result ≡ spec.shape_of (stated_as self.now) }
    {
        match self {
            EntityType::Stated(stated) => stated.shape(),
            EntityType::Message => EntityShape::Message,
            EntityType::Plain | EntityType::Octets | EntityType::Unread => EntityShape::Leaf,
        }
    }
}

/// A list of one text.
fn only<'m>(alloc: Global, text: &'m [u8]) -> Result<Vec<&'m [u8]>, AllocError>
    ensures { IfOk result (λ texts. map (λ text. text.now) texts.items ≡ text.now ∷ []) }
{
    let mut texts = Vec::new(alloc);
    texts.push(text)?;
    Ok(texts)
}

/// The prologue and the epilogue of a multipart with this boundary, and its parts.
fn cut_inner<'m>(
    alloc: Global,
    is_digest: bool,
    boundary: &[u8],
    content: &'m [u8],
) -> Result<InnerTexts<'m>, AllocError>
    ensures { IfOk result (λ inner. (encoding : TransferEncoding)
        → IsInner (spec.multipart is_digest (Some boundary.now)) encoding content.now inner) }
{
    let pieces = pieces_of(alloc, boundary, content)?;
    Ok(InnerTexts {
        given: Given::Around {
            prologue: pieces.prologue,
            epilogue: pieces.epilogue,
        },
        is_digest,
        texts: pieces.parts,
    })
}

/// The prologue and epilogue of a multipart, and its parts. Without a boundary all is prologue.
fn parts_inner<'m>(
    alloc: Global,
    is_digest: bool,
    boundary: Option<&[u8]>,
    content: &'m [u8],
) -> Result<InnerTexts<'m>, AllocError>
    ensures { IfOk result
        (λ inner. (encoding : TransferEncoding) → IsInner (spec.multipart is_digest
        (option_map (λ boundary. boundary.now) boundary.entry)) encoding content.now inner) }
{
    match boundary {
        Some(boundary) => cut_inner(alloc, is_digest, boundary, content),
        None => Ok(InnerTexts {
            given: Given::Around {
                prologue: content,
                epilogue: None,
            },
            is_digest,
            texts: Vec::new(alloc),
        }),
    }
}

/// The octets that an entity of a shape gives, and the texts of the entities directly in it.
fn inner_of<'m>(
    alloc: Global,
    shape: EntityShape<'_>,
    encoding: TransferEncoding,
    content: &'m [u8],
) -> Result<InnerTexts<'m>, AllocError>
    ensures { IfOk result (IsInner (shape_as shape.entry) encoding content.now) }
{
    match shape {
        EntityShape::Multipart {
            is_digest,
            boundary,
        } => parts_inner(alloc, is_digest, boundary, content),
        EntityShape::Message => {
            let (header, _) = divided(content);
            let texts = only(alloc, content)?;
            Ok(InnerTexts {
                given: Given::Header(header),
                is_digest: false,
                texts,
            })
        }
        EntityShape::Leaf => Ok(InnerTexts {
            given: Given::Content(encoding, content),
            is_digest: false,
            texts: Vec::new(alloc),
        }),
    }
}

/// An entity, whether it is a digest, and the texts of the entities directly in it.
fn entity_of<'m>(
    alloc: Global,
    in_digest: bool,
    text: &'m [u8],
) -> Result<(Entity<'m>, bool, Vec<&'m [u8]>), AllocError>
    ensures { IfOk result (λ found. (entity_as found.0 ≡ spec.entity_of in_digest text.now)
        × ((found.1 ≡ spec.is_digest_of (spec.shape_of (spec.type_of in_digest text.now)))
        × (map (λ text. text.now) found.2.items ≡ spec.inner_texts
        (spec.shape_of (spec.type_of in_digest text.now)) (spec.content_of text.now)))) }
{
    let head = head_of(alloc, in_digest, text)?;
    let inner = inner_of(alloc, head.stated.shape(), head.encoding, head.content)?;
    let entity = Entity {
        stated: head.stated,
        given: inner.given,
    };
    Ok((entity, inner.is_digest, inner.texts))
}

/// Adds the entities of a text, of which at most `depth` lie in one another.
fn push_entities<'m>(
    alloc: Global,
    depth: usize,
    in_digest: bool,
    text: &'m [u8],
    found: &mut Vec<Entity<'m>>,
) -> Result<(), AllocError>
    ensures { OnOk result (map entity_as found.new.items
        ≡ map entity_as found.old.items ++ spec.entities_in depth in_digest text.now) }
{
    if depth == 0 {
        return Ok(());
    }
    let (entity, is_digest, texts) = entity_of(alloc, in_digest, text)?;
    found.push(entity)?;
    for inner in &texts {
        push_entities(alloc, depth - 1, is_digest, *inner, found)?;
    }
    Ok(())
}

/// How many entities lie in one another at most.
const DEPTH_LIMIT: usize = 32;

/// The entities of a message (RFC 2045, 2.4; RFC 2046, section 5): itself, parts of multiparts,
/// and held messages. Outer ones come before inner ones, in the order of the text. Entities
/// more than 32 deep aren't listed; the message has depth 1. Takes memory for the entities, and
/// for one header section at a time. Answers the error also where a header section is longer
/// than a message may be.
pub fn entities_of(alloc: Global, message: &[u8]) -> Result<Vec<Entity<'_>>, AllocError>
    ensures { IfOk result (λ found. map entity_as found.items ≡ spec.entities_of message.now) }
{
    let mut found = Vec::new(alloc);
    push_entities(alloc, DEPTH_LIMIT, false, message, &mut found)?;
    Ok(found)
}
