//! Octets with a label. They take two words, where the label has two octets at most.
ghost use Rattle.std.specs.Prelude.{◌≡◌, ◌≤◌, [], IfOk, IsOk, length};

use crate::few::{FEW, Few};
use octets::SmallOctets;
use std::alloc::{AllocError, Global};
use std::marker::Model;

/// The place of octets with a label.
#[derive(Drop)]
enum LabelledWord<L> {
    /// In the value itself.
    Few { label: L, octets: Few },
    /// In a box.
    Many { label: L, octets: Box<SmallOctets> },
}

/// Octets with a label. Twelve or fewer, as most names and strings have, lie in the value itself.
/// Contracts see both.
#[derive(Drop)]
pub struct Labelled<L> {
    word: LabelledWord<L>,
}

impl<L> Model for Labelled<L> {
    ghost use Rattle.sieve_variables.specs.Labelled.{Labelled};
    ghost use Rattle.sieve_variables.specs.view.Labelled.{labelled_of};

    ghost Value = { Labelled L };

    ghost view = { λ l. labelled_of l.word };
}

impl<L: Copy> Labelled<L> {
    /// A label without octets.
    pub(crate) fn none(label: L) -> Labelled<L>
        ensures { result ≡ record { label = label; octets = [] } }
    {
        Labelled {
            word: LabelledWord::Few {
                label,
                octets: Few::new(),
            },
        }
    }

    /// Keeps octets with a label. More than twelve take memory. An error is out of memory.
    pub fn kept(alloc: Global, label: L, octets: SmallOctets) -> Result<Labelled<L>, AllocError>
        ensures ok { IfOk result
            (λ labelled. labelled ≡ record { label = label; octets = octets.items }) }
        ensures few { length octets.items ≤ 12 → IsOk result }
    {
        let word = if octets.len() <= FEW {
            LabelledWord::Few {
                label,
                octets: Few::copied(&octets),
            }
        } else {
            LabelledWord::Many {
                label,
                octets: Box::new(alloc, octets)?,
            }
        };
        Ok(Labelled { word })
    }

    /// The octets, without the label.
    pub fn octets(&self) -> &[u8]
        ensures { result.now ≡ self.now.octets }
    {
        match &self.word {
            LabelledWord::Few { octets, .. } => octets.as_slice(),
            LabelledWord::Many { octets, .. } => octets.as_slice(),
        }
    }

    /// The octets with another label.
    pub(crate) fn with_label<M>(self, label: M) -> Labelled<M>
        ensures { result ≡ record { label = label; octets = self.octets } }
    {
        let word = match self.word {
            LabelledWord::Few { octets, .. } => LabelledWord::Few { label, octets },
            LabelledWord::Many { octets, .. } => LabelledWord::Many { label, octets },
        };
        Labelled { word }
    }

    /// The label of the octets.
    pub fn label(&self) -> L
        ensures { result ≡ self.now.label }
    {
        match &self.word {
            LabelledWord::Few { label, .. } => *label,
            LabelledWord::Many { label, .. } => *label,
        }
    }
}
