//! Histories: recorded calls, with what each answered. A history's file is a schedule that sets up, a line `history`, and then what was recorded of
//! the tasks' calls: each call stands for operations, which are read as the calls of a race are. A history is judged by whether some execution of
//! the model has it. Else its first line that none has is printed, with what could have been answered there, and an execution that leads there.
#![tactic(auto)]

pub mod answers;
pub mod executions;
pub mod faults;
pub mod files;
pub mod hooks;
pub mod operations;
mod printers;
pub mod records;
pub mod sources;
pub mod telling;
pub mod unjudged;
pub mod validating;
pub mod verdicts;

pub use faults::HistoryFault;
pub use files::{HistoryFile, HistoryPlace, find_history, read_history};
pub use operations::Operations;
pub use records::{Notes, Record};
pub use sources::{HistorySource, line_at};
pub use telling::{Impossible, Told};
pub use unjudged::{Unjudged, fault_text};
pub use validating::{Unvalidated, print_verdict, validate};
pub use verdicts::{Verdict, verdict_of};
