//! Dates of messages (RFC 5322, 3.3 and 4.3): reads them, and shows parts of them (RFC 5260, 4.2).
#![tactic(auto)]

mod calendar;
mod clock;
mod clock_words;
mod date_words;
pub mod laws;
mod local_time;
mod moment;
mod number;
mod part;
mod part_text;
mod reading;
mod words;
mod zone;
mod zone_words;

pub use clock::{Clock, LAST_SECOND};
pub use clock_words::clock_named;
pub use moment::Moment;
pub use part::{DATE_PARTS, DatePart};
pub use part_text::shown;
pub use reading::date_in;
pub use zone::Zone;
pub use zone_words::zone_named;
