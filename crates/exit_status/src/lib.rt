//! How the program ends: its exit statuses, and what it tells of a fault on the writer of faults; and the bytes that a command line asks for,
//! or how the program ends where they can't be read; and the files that it writes.
#![tactic(auto)]

pub mod ends;
pub mod reading;
pub mod writing;

pub use ends::{
    Printable, ProgramEnding, SourceName, report, report_fault, report_folder, report_of,
    report_refusal, report_refusal_of, report_unopened, report_unreadable, write_text,
};
pub use reading::{is_input, read_bytes};
pub use writing::{expect_file, replace_file, write_file};
