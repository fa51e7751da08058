//! The gates on a table of atomic words, driven by tasks that threads own. A task is a token: it has its own number, with the
//! right to do that number's steps, and the numbers that it may still give to others. What a caller names of the crates below it finds here, too.
#![tactic(auto)]

mod at_once;
mod buffers;
mod calls;
mod closed;
mod firsts;
mod gates;
pub mod laws;
mod meetings;
mod numbers;
mod pairs;
mod parts;
mod patience;
mod settling;
mod shown;
mod snapshots;
mod taken;
mod task;
mod tree_calls;
mod waits;

pub use access_model::{Action, Gate, GateError, Holder, Kind, NodeInfo, Reply};
pub use call_ends::Backoff;
pub use closed::Closed;
pub use cpu_words::{Event, Touch, WordName};
pub use freeze_levels::{FsHooks, HookCall, HookKind};
pub use gate_steps::call_events::{GhostSeat, Progress, Step, TimedHooks};
pub use gate_world::{Config, Op};
pub use gated_tree::Tree;
pub use gates::Gates;
pub use meetings::Receipt;
pub use patience::{Deadline, FOUND_SOMEBODY, NoPatience, TIMED_OUT};
pub use task::Task;
