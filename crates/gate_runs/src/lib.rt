//! Runs over the gates: writers, a remounter and a backup, each in a thread of its own, round by round, and what a run tells of its gates once
//! they are closed. It needs public calls alone.
#![tactic(auto)]

mod observers;
mod patience;
mod runs;
mod threads;
mod told;
mod workers;

pub use run_plans::{Copies, Details, Meeting, Plan, RunObserver, Sizes, Totals, Tried, Writes};
pub use runs::{run_plan, run_with};
pub use told::run_told;
