//! The envelope of a delivery (RFC 5228, 5.4).
use date_text::Clock;
use octets::Octets;

/// The facts of a delivery that a run knows beside the message. They are the envelope (RFC 5228,
/// 5.4), and the settings of the site.
#[derive(Drop)]
pub struct Envelope {
    /// The sender's address, empty if there is none.
    pub from: Octets,
    /// The recipient's address, empty if it isn't known.
    pub to: Octets,
    /// The mailbox that `keep` stores into.
    pub mailbox: Octets,
    /// The names of the other mailboxes, one a line (RFC 5490, 3.1).
    pub mailboxes: Octets,
    /// The time, if it is known (RFC 5260, 5).
    pub clock: Option<Clock>,
}

/// The addresses of one message, in place of those of the envelope (RFC 5228, 5.4). Each is any
/// octets.
#[derive(Drop)]
pub struct Addresses {
    /// The sender's address, empty if there is none.
    pub from: Octets,
    /// The recipient's address, empty if it isn't known.
    pub to: Octets,
}
