//! An argument whose strings are cut into parts (RFC 5229, section 3).
use sieve_variables::Parts;

/// An argument by which a command or a test is read, beside its label (RFC 5228, section 2.6).
#[derive(Drop)]
pub enum CutArgument {
    /// Its strings, each as its parts.
    Strings(Vec<Parts>),
    /// The number that it is, or `None` where it is past `u64::MAX`.
    Number(Option<u64>),
    /// A tag: its label says which.
    Tag,
}
