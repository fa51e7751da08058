//! Calls done to their end: in a line where nothing stands in the way, and else step after step, however long they have to wait.
//!
//! In a line each step of a freeze, a thaw, a remount or a callback names its word and its touch, and what comes after it stands in code.
//! In that of a want, a start, a change or write access each step is done only where the operation stands at its place.
#![tactic(auto)]

mod backoff;
mod callbacks;
mod changes;
mod closes;
mod closings;
mod ends;
mod freeze_lines;
mod lines;
mod operations;
mod remount_lines;
mod starts;
mod thaw_lines;
mod wants;
mod writes;

pub use backoff::Backoff;
pub use ends::{run_to_reply, wait_for_reply};
pub use lines::LinedOp;
