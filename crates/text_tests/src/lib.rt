//! Tests of the parts of the libraries of texts that neither the program nor `one_call` prints.
//! These are trees, places of fields, pieces of flags and keys, and references. They are also
//! comparators, readers and writers of a caller's own. The tests stand in a crate of their own, so
//! that no library is proved twice for their sake.
#![tactic(auto)]

#[cfg(test)]
mod tests;
