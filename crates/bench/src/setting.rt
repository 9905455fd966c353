//! The settings that all messages of a bench are judged with, and those that one message has beside
//! its octets.
ghost use Rattle.std.specs.Prelude.{◌≡◌};
ghost use Rattle.bench.specs.Content.{envelope_with, is_large, is_large_for_one, main_with};

use crate::refusal::{are_long, is_long};
use date_text::Clock;
use octets::Octets;
use script_names::ScriptName;
use sieve_limits::{MAX_EXPECTED, MAX_MAILBOX, MAX_MAILBOXES};
use sieve_run::{Addresses, Envelope};

/// A setting of a bench: a value in place of the one before.
#[derive(Drop)]
pub enum Setting {
    /// The main script, whether or not it is there, or none.
    Main(Option<ScriptName>),
    /// The addresses of the sender and of the recipient.
    Addresses(Addresses),
    /// The mailbox that mail is kept in.
    Mailbox(Octets),
    /// The list of mailboxes that `mailboxexists` asks (RFC 5490, section 3.1). It is a text of
    /// 1,048,576 octets at most, with a name on each line; an empty line names none. It is cut into
    /// lines as an expected text is.
    Mailboxes(Octets),
    /// The clock, or none (RFC 5260, sections 4.1 and 5). It is the time that `currentdate` asks
    /// for, and the zone of dates in tests that name none. Without a clock no `currentdate` finds a
    /// date.
    Clock(Option<Clock>),
}

/// A setting of one message: a value in place of the one before.
#[derive(Drop)]
pub enum MessageSetting {
    /// The text that is expected of its verdict, or none. No run sees it.
    Expected(Option<Octets>),
    /// Addresses of its own, each of 1,024 octets at most, or none. It is judged by these in place
    /// of the bench's.
    Addresses(Option<Addresses>),
}

impl Setting {
    /// Whether the setting is past its limit.
    pub(crate) fn is_large(&self) -> bool
        ensures { result ≡ is_large self.now }
    {
        match self {
            Setting::Main(Some(name)) => is_long(&name.name),
            Setting::Main(None) => false,
            Setting::Addresses(addresses) => {
                are_long(addresses.from.as_slice(), addresses.to.as_slice())
            }
            Setting::Mailbox(mailbox) => mailbox.as_slice().len() > MAX_MAILBOX,
            Setting::Mailboxes(text) => text.as_slice().len() > MAX_MAILBOXES,
            Setting::Clock(_) => false,
        }
    }

    /// Puts the setting in the place of the one before.
    pub(crate) fn apply(self, main: &mut Option<ScriptName>, envelope: &mut Envelope)
        ensures main { main.new ≡ main_with self main.old }
        ensures envelope { envelope.new ≡ envelope_with self envelope.old }
    {
        match self {
            Setting::Main(name) => *main = name,
            Setting::Addresses(Addresses { from, to }) => {
                envelope.from = from;
                envelope.to = to;
            }
            Setting::Mailbox(mailbox) => envelope.mailbox = mailbox,
            Setting::Mailboxes(text) => envelope.mailboxes = text,
            Setting::Clock(clock) => envelope.clock = clock,
        }
    }
}

impl MessageSetting {
    /// Whether the setting is past its limit.
    pub(crate) fn is_large(&self) -> bool
        ensures { result ≡ is_large_for_one self.now }
    {
        match self {
            MessageSetting::Expected(Some(text)) => text.as_slice().len() > MAX_EXPECTED,
            MessageSetting::Addresses(Some(addresses)) => {
                are_long(addresses.from.as_slice(), addresses.to.as_slice())
            }
            MessageSetting::Expected(None) | MessageSetting::Addresses(None) => false,
        }
    }
}
