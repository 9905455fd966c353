//! Tests of the bench's public calls. They are in a crate of their own, so that the bench isn't
//! proved again for them.
#![tactic(auto)]

#[cfg(test)]
mod tests;
