//! The commands that act (RFC 5228, 4), over the state of a run. Also the delivery that commands
//! and tests know. `set` is in RFC 5229, section 4, and `vacation` in RFC 5230, section 4. Commands
//! on flags are in RFC 5232, sections 3 and 5, and rejections in RFC 5429, section 2.
#![tactic(auto)]

mod acting;
mod action;
mod actions;
mod conflicts;
mod delivery;
mod ending;
mod entries;
mod envelope;
mod error;
mod flagging;
mod response;
mod state;

pub use acting::{discard, file_into, keep, redirect, set};
pub use action::{Action, Entry, Filing, Origin};
pub use actions::Actions;
pub use delivery::{Arrival, Delivery};
pub use ending::{Ending, fail};
pub use envelope::{Addresses, Envelope};
pub use error::{ErrorKind, RunError};
pub use flagging::change;
pub use response::{Response, Texts, reject, respond};
pub use state::RunState;
