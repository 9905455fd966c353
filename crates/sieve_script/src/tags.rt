//! The tags among the arguments of a command or a test, each found once.
ghost use Rattle.std.specs.Prelude.{◌≡◌, None, Some, if◌then◌else◌};
ghost use Rattle.sieve_script.specs.Given.{Tags, first_or, has_tag, tag_at, tags_of};
ghost use Rattle.sieve_table.specs.Table.{same_kind};
ghost use Rattle.sieve_script.specs.view.Tags.{tags_as};
ghost use Rattle.sieve_script.specs.declared.label.Label.TheVariants.{Tagged};

use crate::label::Label;
use sieve_table::{Tag, TagKind};

/// How many kinds of tags there are.
const KINDS: usize = 26;

/// The tags among arguments: of each kind the first, if there is one.
#[derive(Clone, Copy)]
pub(crate) struct Tags {
    /// The tag of each kind, in the order of the kinds.
    found: [Option<Tag>; KINDS],
}

impl Tags {
    /// No tags.
    fn none() -> Tags
        ensures { tags_as result ≡ (λ kind. None) }
    {
        Tags {
            found: [None; KINDS],
        }
    }

    /// The tag of that kind, where there is one.
    pub(crate) fn of(self, kind: TagKind) -> Option<Tag>
        ensures { result ≡ tags_as self kind }
    {
        self.found[kind as usize]
    }

    /// Whether there is a tag of that kind.
    pub(crate) fn has(self, kind: TagKind) -> bool
        ensures { result ≡ has_tag kind (tags_as self) }
    {
        self.of(kind).is_some()
    }

    /// The tags with this one as that of a kind.
    fn put(self, kind: TagKind, tag: Tag) -> Tags
        ensures { tags_as result
            ≡ (λ other. if same_kind kind other then Some tag else tags_as self other) }
    {
        let mut tags = self;
        tags.found[kind as usize] = Some(tag);
        tags
    }

    /// The tags with another after them, which counts where it is the first of its kind.
    fn with(self, tag: Tag) -> Tags
        ensures { tags_as result
            ≡ (λ kind. first_or (tags_as self kind) (tag_at kind (Tagged tag))) }
    {
        let kind = tag.row().kind;
        match self.of(kind) {
            Some(_) => self,
            None => self.put(kind, tag),
        }
    }

    /// The tags with an argument of that label after them.
    fn with_label(self, label: Label) -> Tags
        ensures { tags_as result
            ≡ (λ kind. first_or (tags_as self kind) (tag_at kind label)) }
    {
        match label {
            Label::Tagged(tag) => self.with(tag),
            Label::OtherTag => self,
            Label::Own(_) => self,
            Label::InSlot(_) => self,
            Label::Unfit => self,
        }
    }

    /// The tags of arguments of these labels.
    pub(crate) fn among(labels: &[Label]) -> Tags
        ensures { tags_as result ≡ tags_of labels.now }
    {
        let mut tags = Tags::none();
        for label in labels {
            tags = tags.with_label(*label);
        }
        tags
    }
}
