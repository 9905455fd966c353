//! Parts of the operations of compiled code: packed strings, names of fields, sources of values,
//! and settings of commands.
#![tactic(auto)]

mod field_names;
mod joined;
mod refs;
mod strings;

pub use field_names::{FieldNames, NameLists};
pub use joined::JoinedStrings;
pub use refs::{BodyRef, SettingsRef, SourceRef, VacationRef, ZoneRef};
pub use strings::{StringLists, Strings};
