//! At most twelve octets, which lie in the value itself.
ghost use Rattle.std.specs.Prelude.{◌≡◌, ◌<◌, ◌≤◌, ◌++◌, ◌∷◌, [], length};

use std::marker::Model;

/// How many octets are few. Two words hold them, their count, a label of two octets, and an octet
/// that tells few from many.
pub(crate) const FEW: usize = 12;

/// At most twelve octets. Contracts see them.
#[derive(Drop)]
pub(crate) struct Few {
    count: u8,
    octets: [u8; FEW],
}

impl Model for Few {
    ghost use Rattle.std.specs.Prelude.{ℕ, List, ◌≤◌, take};

    ghost Value = { List ℕ };

    ghost view = { λ f. take f.count f.octets };

    ghost invariant = { λ f. f.count ≤ 12 };
}

impl Few {
    /// No octets.
    pub(crate) fn new() -> Few
        ensures { result ≡ [] }
    {
        Few {
            count: 0,
            octets: [0; FEW],
        }
    }

    /// Adds an octet, for which there must be room.
    fn push(&mut self, octet: u8)
        requires { length self.old < 12 }
        ensures { self.new ≡ self.old ++ octet ∷ [] }
    {
        self.octets[usize::from(self.count)] = octet;
        self.count += 1;
    }

    /// A copy of at most twelve octets.
    pub(crate) fn copied(octets: &[u8]) -> Few
        requires { length octets.now ≤ 12 }
        ensures { result ≡ octets.now }
    {
        let mut few = Few::new();
        for octet in octets {
            few.push(*octet);
        }
        few
    }

    pub(crate) fn as_slice(&self) -> &[u8]
        ensures { result.now ≡ self.now }
    {
        &self.octets[..usize::from(self.count)]
    }
}
