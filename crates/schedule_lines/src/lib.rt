//! The lines of a schedule as text: its bytes, read and written in blocks, its words and numbers, why a line can't be read, and how an answer
//! is printed. What a line asks for stands in `schedule_text`.
#![tactic(auto)]

pub mod bytes;
pub mod faults;
pub mod lines;
pub mod numbers;
pub mod output;
pub mod printing;
pub mod words;

pub use faults::{Fault, FaultKind};
pub use lines::{Front, Input, LINE_BYTES, LINES, front_of};
pub use output::{Output, write_out};
