//! Tests of results of the script libraries that the program doesn't print. They are checked
//! scripts, numbers of refusals, and runs over a shelf. The tests are in a crate of their own, so
//! that no library is proved again for them.
#![tactic(auto)]

#[cfg(test)]
mod tests;
