//! The core: all tasks on plain words, moved one step at a time by whoever drives it. An execution is a list of calls of `begin`
//! and `step`. What holds of all of them is the contract of `every_schedule`.
#![tactic(auto)]

pub mod machine;

pub use gate_schedules::{every_schedule, every_schedule_keeps_the_rule};
pub use gate_transitions::{Driver, Progress, Step, TaskState};
pub use gate_world::{Accesses, Config, Op};
pub use machine::{Core, words_at_start};
