//! A test bench for Sieve scripts (RFC 5228) beside sample messages. It reports the verdict on
//! every message. Sessions ask for edits and reports.
#![tactic(auto)]

pub mod laws;
mod server;
mod status;
mod task;

pub use bench::{
    Bench, EditFault, MessageSetting, ReportFault, Setting, TestEnd, TestJob, TestScript,
    dump_text, test_bench,
};
pub use command_line::{CommandLine, CommandWord, Job, TestWords, UsageFault, command_of};
pub use date_text::{Clock, Zone, zone_named};
pub use devices::{Counted, Faults, Sink, Source};
pub use octets::Octets;
pub use script_names::{Location, ScriptName};
pub use server::session;
pub use sieve_profile::{EXTENSIONS, Extension, Profile};
pub use sieve_run::{Action, Addresses, Entry, Meter, Origin, Verdict};
pub use status::{End, SessionEnd, status_of};
