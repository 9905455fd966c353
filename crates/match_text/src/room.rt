//! Which keys can match a value at all, by how many octets they have (RFC 5228, 2.7.1).
ghost use Rattle.std.specs.Prelude.{◌≡◌, ◌++◌, ℕ, List, Some, [], false, true};
ghost use Rattle.match_text.specs.Room.{may_match};
ghost use Rattle.match_text.specs.declared.room.KeyKind.TheVariants.{Pattern};
ghost use Rattle.match_text.specs.view.Room.{has_room, is_room, takes_octet};

/// How a key is to match a value under a comparator that folds octets (RFC 5228, 2.7.1). There is
/// no kind for `i;ascii-numeric`, which doesn't go by lengths.
#[derive(Clone, Copy)]
pub enum KeyKind {
    /// The whole of the value: the match type `:is`.
    Whole,
    /// A part of the value: the match type `:contains`.
    Part,
    /// A pattern that the value matches: the match type `:matches`.
    Pattern,
}

/// How many octets of a value are left for the rest of a key. For a key that comes in pieces, it
/// says whether the key can match the value. So a key that can't is never put together.
#[derive(Clone, Copy)]
pub struct Room {
    kind: KeyKind,
    // None if the key needs more octets than the value has.
    left: Option<usize>,
    // Whether a `\` of a pattern protects the next octet.
    is_protected: bool,
}

impl Room {
    /// The room that a value of so many octets has for a key.
    pub fn new(kind: KeyKind, size: usize) -> Room
        ensures { (key : List ℕ) → has_room result key ≡ may_match kind size key }
    {
        Room {
            kind,
            left: Some(size),
            is_protected: false,
        }
    }

    /// The room that is left after the next octets of a key. For a pattern its time is linear in
    /// those octets for which there is room. For the other match types it is the same for any
    /// number of octets.
    pub fn after(self, octets: &[u8]) -> Room
        ensures { (rest : List ℕ) → has_room result rest ≡ has_room self (octets.now ++ rest) }
    {
        let Some(left) = self.left else {
            return self;
        };
        match self.kind {
            KeyKind::Whole | KeyKind::Part => Room {
                left: left.checked_sub(octets.len()),
                ..self
            },
            KeyKind::Pattern => {
                let (left, is_protected) = after_items(left, self.is_protected, octets);
                Room {
                    left,
                    is_protected,
                    ..self
                }
            }
        }
    }

    /// Whether the octets of a key so far need more than the value has. If so, the key can't match,
    /// whatever comes after them.
    pub fn is_exceeded(self) -> bool
        ensures { result ≡ true → (rest : List ℕ) → has_room self rest ≡ false }
    {
        self.left.is_none()
    }

    /// Whether the value can match the key, if the room has seen all octets of the key.
    pub fn is_enough(self) -> bool
        ensures { result ≡ has_room self [] }
    {
        let Some(left) = self.left else {
            return false;
        };
        match self.kind {
            KeyKind::Whole => left == 0,
            KeyKind::Part => true,
            KeyKind::Pattern => left > 0 || !self.is_protected,
        }
    }
}

/// Whether an octet of a pattern takes an octet of a value.
fn takes_octet(is_protected: bool, octet: u8) -> bool
    ensures { result ≡ takes_octet is_protected octet }
{
    is_protected || (octet != b'*' && octet != b'\\')
}

/// How many of `size` octets are left after some octets of a pattern, or none if they are too few.
/// Also whether the last of these protects the next.
fn after_items(size: usize, was_protected: bool, octets: &[u8]) -> (Option<usize>, bool)
    ensures { (rest : List ℕ) → is_room Pattern result.1 result.0 rest
        ≡ is_room Pattern was_protected (Some size) (octets.now ++ rest) }
{
    let mut left = size;
    let mut is_protected = was_protected;
    for octet in octets {
        if takes_octet(is_protected, *octet) {
            if left == 0 {
                return (None, false);
            }
            left -= 1;
        }
        is_protected = !is_protected && *octet == b'\\';
    }
    (Some(left), is_protected)
}
