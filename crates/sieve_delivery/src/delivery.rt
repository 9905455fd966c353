//! A delivery, as tests and commands know it.
use crate::envelope::{Addresses, Envelope};
use message_text::Message;
use script_names::ScriptName;
use sieve_profile::Profile;
use std::alloc::Global;

/// A message that arrives, with the settings that it is judged by.
#[derive(Clone, Copy)]
pub struct Arrival<'a> {
    /// The message.
    pub message: &'a Message,
    /// The message's envelope, the mailbox that `keep` stores into, and the names of the other
    /// mailboxes.
    pub envelope: &'a Envelope,
    /// The message's own addresses, if it has any.
    pub own: Option<&'a Addresses>,
    /// The extensions that are known beside those that always are.
    pub profile: Profile,
}

/// The facts of a delivery that tests and commands use (RFC 5228, 4 and 5). Also where they take
/// memory from.
#[derive(Clone, Copy)]
pub struct Delivery<'a> {
    /// Where memory is taken from.
    pub alloc: Global,
    /// The message that is delivered, with its settings.
    pub arrival: &'a Arrival<'a>,
    /// The script that runs.
    pub script: &'a ScriptName,
    /// The scripts that include it, from the main script on. Each includes the next (RFC 6609,
    /// 3.2).
    pub including: &'a [&'a ScriptName],
}
