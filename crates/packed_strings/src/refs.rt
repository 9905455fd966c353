//! Sources of values for the tests of compiled code, and the settings of its commands. A string is
//! given as its parts in order.

use crate::field_names::FieldNames;
use crate::strings::Strings;
use sieve_script::{BodyTransform, DateZone, Settings, Vacation, ValueSource};
use sieve_variables::Part;

/// The zone in which a date is shown (RFC 5260, 4.1).
pub type ZoneRef<'a> = DateZone<&'a [Part]>;

/// How a test takes texts from a body (RFC 5173, 5).
pub type BodyRef<'a> = BodyTransform<Strings<'a>>;

/// The source that a test takes its values from.
pub type SourceRef<'a> = ValueSource<FieldNames<'a>, Strings<'a>, &'a [Part]>;

/// The settings of a `fileinto` beside its mailbox.
pub type SettingsRef<'a> = Settings<Strings<'a>, &'a [Part]>;

/// The settings of a `vacation` (RFC 5230, 4).
pub type VacationRef<'a> = Vacation<Strings<'a>, &'a [Part]>;
