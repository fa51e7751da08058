//! What one step of a task was.

ghost use Rattle.std.specs.Prelude.{◌≡◌};
ghost use Rattle.gate_world.specs.Views.{phase_after};

use access_model::{Action, GateError, Next, Reply};
use cpu_words::Event;
use gate_world::Phase;

/// How an operation stands after a step.
#[derive(Clone, Copy, PartialEq, Eq, Debug)]
pub enum Progress {
    /// The task has no operation under way, and did nothing.
    Idle,
    /// The operation goes on.
    Going,
    /// The step was done, and found that the task has to look or try again.
    Waiting,
    /// The operation has ended with this.
    Done(Result<Reply, GateError>),
}

/// What a step was: its `event`, which is None only for an idle task, the action that it added, and how the operation stands.
#[derive(Clone, Copy)]
pub struct Step {
    pub event: Option<Event>,
    pub action: Option<Action>,
    pub progress: Progress,
}

impl Step {
    ghost use Rattle.gate_transitions.specs.Answers.{idle_step};

    /// The step of an idle task.
    pub fn idle() -> Step
        ensures { result ≡ idle_step }
    {
        Step {
            event: None,
            action: None,
            progress: Progress::Idle,
        }
    }
}

impl Progress {
    ghost use Rattle.gate_transitions.specs.Answers.{progress_of};

    /// How the operation stands, and its next phase.
    pub fn of(next: Next<Phase>) -> (Progress, Option<Phase>)
        ensures { result ≡ (progress_of next, phase_after next) }
    {
        match next {
            Next::Go(phase) => (Progress::Going, Some(phase)),
            Next::Wait(phase) => (Progress::Waiting, Some(phase)),
            Next::Done(answer) => (Progress::Done(answer), None),
        }
    }
}
