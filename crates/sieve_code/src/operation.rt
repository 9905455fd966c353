//! The operations of code.

use sieve_script::{Ask, Leaf, Settings, Vacation, ValueSource};
use std::mem::size_of;

/// The source that a test takes its values from, with the places of its strings.
pub type PackedSource = ValueSource<u32, u32, u32>;

/// The question of a test, with the places of its strings.
pub type PackedAsk = Ask<u32, u32, u32>;

/// The settings of a `fileinto` beside its mailbox, with the places of their strings.
pub type PackedSettings = Settings<u32, u32>;

/// The arguments of a `vacation` (RFC 5230, 4), with the places of their strings.
pub type PackedVacation = Vacation<u32, u32>;

/// A command that acts, with the places of its strings. A `vacation` is in a box, since it has the
/// most arguments.
pub type PackedLeaf = Leaf<u32, u32, Box<PackedVacation>>;

/// An operation. Code has one truth register, which tests set. An operation has the place of its
/// question or of its command. [`Code`](crate::Code) has the items at these places, and says to
/// which place a jump goes.
#[derive(Clone, Copy)]
pub enum PackedOperation {
    /// Sets the register to true.
    True,
    /// Sets the register to false.
    False,
    /// Inverts the register.
    Not,
    /// Sets the register to the truth of a test (RFC 5228, 5). The question of the test is at this
    /// place.
    Test(u32),
    /// Goes on at the place where this many operations are left.
    Jump(u32),
    /// Goes on at the place where this many operations are left, if the register is false.
    /// Otherwise goes on after this operation.
    JumpIfFalse(u32),
    /// Goes on at the place where this many operations are left, if the register is true. Otherwise
    /// goes on after this operation.
    JumpIfTrue(u32),
    /// Carries out a command that acts (RFC 5228, 4).
    Act {
        /// The place of the command with its arguments.
        leaf: u32,
        /// The line of the command.
        line: u32,
    },
    /// Ends the run (RFC 5228, 3.3).
    Stop,
    /// Ends its script (RFC 6609, 3.3).
    Return,
}

/// An operation takes 12 octets. Code can have two operations for five octets of its text, as for
/// `true,` in a long `anyof`. So their size is much of what is kept.
const _: () = prove!(size_of::<PackedOperation>() == 12);
