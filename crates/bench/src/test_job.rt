//! The input of a message's test.
use date_text::Clock;
use octets::Octets;
use script_names::ScriptName;
use sieve_profile::Profile;

/// A script of a job: its name, of at most 1,024 octets, and its text, of at most 1,048,576.
#[derive(Drop)]
pub struct TestScript {
    /// The name that the script is put at.
    pub name: ScriptName,
    /// The text, which may have a fault.
    pub text: Octets,
}

/// The input of a test: a message, the scripts that are run on it, and the envelope.
#[derive(Drop)]
pub struct TestJob {
    /// The extensions that are known beyond those that always are.
    pub profile: Profile,
    /// The sender's address, of at most 1,024 octets; empty where there is none.
    pub from: Octets,
    /// The recipient's address, of at most 1,024 octets; empty where it isn't known.
    pub to: Octets,
    /// The mailbox that `keep` stores into, of at most 255 octets.
    pub mailbox: Octets,
    /// The list of mailboxes that `mailboxexists` asks (RFC 5490, section 3.1), with a name on each
    /// line. It has 1,048,576 octets at most.
    pub mailboxes: Octets,
    /// The time and its zone, where they are known.
    pub clock: Option<Clock>,
    /// The scripts in the order in which they are put, 4,096 names at most. A later one takes the
    /// place of one of its name.
    pub scripts: Vec<TestScript>,
    /// The script that is run, which need not be among the others.
    pub main: ScriptName,
    /// The id by which the report names the message, of at most 1,024 octets.
    pub id: Octets,
    /// The message, of at most 16,777,216 octets.
    pub message: Octets,
}
