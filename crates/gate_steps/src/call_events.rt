//! What a call does on the table of atomic words, apart from the task that calls: one step of it, and what it asks of the file system.
//! What is said of a task's calls, and of one step of it, is defined here; `call_ends` and `vfs_gates` above do the steps of a whole one. What
//! these say of seats and steps they reach through it, so that their lines in crates.txt don't name `gate_schedules`.

mod hooks;
pub mod laws;
mod turns;
mod words;

pub use crate::{Closed, StepPlay, index_of, word_of};
pub use gate_transitions::{Progress, Step, TaskState};
pub use hooks::TimedHooks;
pub use turns::{StepResult, do_event, find, find_asking, find_first, step_once};
pub use words::{GateWords, GhostSeat};
