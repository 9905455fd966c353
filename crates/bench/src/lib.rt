//! Sieve scripts (RFC 5228) beside sample messages. It edits them, reports the verdict on every
//! message, and writes the code of a script as text.
#![tactic(auto)]

mod bench;
mod clock_line;
mod dump;
mod entry;
mod fault;
pub mod laws;
mod marking;
mod message;
mod messages;
mod profile_line;
mod refusal;
mod report;
mod report_lines;
mod scripts;
mod setting;
mod settings;
mod site;
mod test_end;
mod test_job;
mod testing;

pub use bench::Bench;
pub use dump::{dump_text, write_code};
pub use fault::{EditFault, ReportFault};
pub use setting::{MessageSetting, Setting};
pub use test_end::TestEnd;
pub use test_job::{TestJob, TestScript};
pub use testing::test_bench;
