//! One transition of a gate, in code: where an operation begins (`begin`), or why it can't (`may_begin`); which word each step of a pending operation touches, and
//! how, and what comes after it (`PendingOp`). What a step was (`Step`, `Progress`), what is kept of a task between its steps (`TaskState`), and what
//! moves the gates of an execution (`Driver`), by whatever program does them. What these answer by stands in `gate_world`.
#![tactic(auto)]

mod beginnings;
pub mod drivers;
pub mod pending_ops;
pub mod steps;
pub mod task_states;

pub use beginnings::{begin, first_phase, may_begin};
pub use drivers::Driver;
pub use pending_ops::{PendingOp, after_event, next_event};
pub use steps::{Progress, Step};
pub use task_states::TaskState;
