//! The labels of the arguments of a command or a test (RFC 5228, section 2.6).
ghost use Rattle.std.specs.Prelude.{◌≡◌, None, Some, drop, slice_get};
ghost use Rattle.sieve_script.specs.Label.{expected_after, expecting, fits, label_at, slot_label, is_unfit};
ghost use Rattle.sieve_script.specs.Role.{first_role, role_of};
ghost use Rattle.sieve_script.specs.view.Expected.{expected_as, put_before, own_slot};

use sieve_table::{Form, Role, Slot, Tag};

/// The shape of an argument, where some tags are taken (RFC 5228, section 2.6).
#[derive(Clone, Copy)]
pub enum Shape {
    /// A tag: one of those that are taken, or `None` for another.
    Tag(Option<Tag>),
    /// One string without brackets.
    Text,
    /// A list of strings.
    Texts,
    /// A number.
    Number,
}

/// The label of an argument (RFC 5228, sections 2.6.1 and 2.6.2).
#[derive(Clone, Copy)]
pub enum Label {
    /// A tag that is taken.
    Tagged(Tag),
    /// A tag that isn't taken.
    OtherTag,
    /// The argument that the tag before it takes, by its slot.
    Own(Slot),
    /// The positional argument of this slot.
    InSlot(Slot),
    /// A positional argument that fits no slot: none is left, or the next takes another form.
    Unfit,
}

/// The arguments that are still expected.
#[derive(Clone, Copy)]
pub struct Expected<'a> {
    /// The argument that the tag before takes itself.
    awaited: Option<Slot>,
    /// A positional argument before those of `slots`.
    front: Option<Slot>,
    /// The positional arguments still to come.
    slots: &'a [Slot],
}

/// Whether an argument of that shape can stand where that form is taken.
fn fits(form: Form, shape: Shape) -> bool
    ensures { result ≡ fits form shape }
{
    match (form, shape) {
        (Form::One, Shape::Text) => true,
        (Form::List, Shape::Text | Shape::Texts) => true,
        (Form::Number, Shape::Number) => true,
        _ => false,
    }
}

impl<'a> Expected<'a> {
    /// Expects positional arguments: the one in front, where there is one, and those of the slots.
    pub(crate) fn new(front: Option<Slot>, slots: &'a [Slot]) -> Expected<'a>
        ensures { expected_as result ≡ expecting (put_before front slots.now) }
    {
        Expected {
            awaited: None,
            front,
            slots,
        }
    }

    /// The slot of the next positional argument; `None` where no more are expected.
    pub(crate) fn next_slot(self) -> Option<Slot>
        ensures { result ≡ slice_get (expected_as self.entry).slots 0 }
    {
        match self.front {
            Some(front) => Some(front),
            None => self.slots.first().copied(),
        }
    }

    /// The label of a positional argument of that shape.
    fn slot_label(self, shape: Shape) -> Label
        ensures { result ≡ slot_label (expected_as self.entry).slots shape }
    {
        match self.next_slot() {
            Some(slot) => {
                if fits(slot.form, shape) {
                    Label::InSlot(slot)
                } else {
                    Label::Unfit
                }
            }
            None => Label::Unfit,
        }
    }

    /// The slot of the tag before an argument of that shape, where the tag takes it.
    fn own_slot(self, shape: Shape) -> Option<Slot>
        ensures { result ≡ own_slot (expected_as self.entry).awaited shape }
    {
        match self.awaited {
            Some(own) => {
                if fits(own.form, shape) {
                    Some(own)
                } else {
                    None
                }
            }
            None => None,
        }
    }

    /// The label of an argument of that shape (RFC 5228, section 2.6). It is a tag, the argument
    /// that the tag before it takes, or else a positional one.
    pub fn label(self, shape: Shape) -> Label
        ensures { result ≡ label_at (expected_as self.entry) shape }
    {
        match shape {
            Shape::Tag(None) => Label::OtherTag,
            Shape::Tag(Some(tag)) => Label::Tagged(tag),
            Shape::Text | Shape::Texts | Shape::Number => match self.own_slot(shape) {
                Some(own) => Label::Own(own),
                None => self.slot_label(shape),
            },
        }
    }

    /// The arguments that are expected after the next positional one.
    fn past_slot(self) -> Expected<'a>
        ensures { expected_as result
            ≡ record { awaited = None; slots = drop 1 (expected_as self.entry).slots } }
    {
        match (self.front, self.slots) {
            (Some(_), slots) => Expected::new(None, slots),
            (None, [_, rest @ ..]) => Expected::new(None, rest),
            (None, []) => Expected::new(None, &[]),
        }
    }

    /// The arguments that are expected after one of that shape (RFC 5228, section 2.6).
    pub fn after(self, shape: Shape) -> Expected<'a>
        ensures { expected_as result ≡ expected_after (expected_as self.entry) shape }
    {
        match shape {
            Shape::Tag(None) => Expected {
                awaited: None,
                ..self
            },
            Shape::Tag(Some(tag)) => Expected {
                awaited: tag.row().takes,
                ..self
            },
            Shape::Text | Shape::Texts | Shape::Number => match self.own_slot(shape) {
                Some(_) => Expected {
                    awaited: None,
                    ..self
                },
                None => self.past_slot(),
            },
        }
    }
}

/// Whether an argument is a positional one that fits no slot.
pub(crate) fn is_unfit(label: Label) -> bool
    ensures { result ≡ is_unfit label }
{
    match label {
        Label::Unfit => true,
        Label::Tagged(_) | Label::OtherTag | Label::Own(_) | Label::InSlot(_) => false,
    }
}

/// The role of an argument, by its label. Tags and arguments that don't fit have none.
fn role_of(label: Label) -> Option<Role>
    ensures { result ≡ role_of label }
{
    match label {
        Label::Own(slot) | Label::InSlot(slot) => Some(slot.role),
        Label::Tagged(_) | Label::OtherTag | Label::Unfit => None,
    }
}

/// The role of the first of some arguments, by their labels. It is `None` where there is no label,
/// or its argument has no role.
pub fn first_role(labels: &[Label]) -> Option<Role>
    ensures { result ≡ first_role labels.now }
{
    match labels {
        [first, ..] => role_of(*first),
        [] => None,
    }
}

/// The labels after the first; none where there are none.
pub fn after_first(labels: &[Label]) -> &[Label]
    ensures { result.now ≡ drop 1 labels.now }
{
    match labels {
        [_, rest @ ..] => rest,
        [] => labels,
    }
}
