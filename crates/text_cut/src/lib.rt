//! The theory of the one cut of a text, from the left, into sequences and single octets. It holds
//! for each kind of sequence.
#![tactic(auto)]

pub mod laws;
