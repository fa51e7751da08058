//! Two threads at one mount: a writer that changes a file, and a backup that makes the mount read-only, reads the file twice and makes
//! the mount writable again. At the end a third task is handed both of theirs and copies once more: that copy has every write.
//! docs/library.md explains it; `bench_gates backup` runs it, and prints the same whatever the schedule.
#![tactic(auto)]

mod backup;
pub mod deadline;
mod report;
pub mod run;
mod writer;

pub use report::Report;

/// The mount at which both work.
pub const MOUNT: u8 = 0;
