//! What is kept of one task at run time: its phase and its accesses.

ghost use Rattle.std.specs.Prelude.{◌≡◌};
ghost use Rattle.gate_transitions.specs.TaskStates.{idle_task};

use gate_world::{Accesses, Phase};

/// A task at run time: the phase of its operation under way, and what it holds.
#[derive(Clone, Copy, PartialEq, Eq)]
pub struct TaskState {
    pub phase: Option<Phase>,
    pub accesses: Accesses,
}

impl TaskState {
    /// A task that is idle and holds nothing.
    pub fn idle() -> TaskState
        ensures { result ≡ idle_task }
    {
        TaskState {
            phase: None,
            accesses: Accesses::none(),
        }
    }
}
