//! Who looks on at a run, with notes of its own for each task.

use run_plans::RunObserver;
use vfs_gates::Task;

/// A watch at which each task has notes of its own, to which a call adds what it may. They are the caller's: a run can make, copy and let go of
/// none, so the notes that it gives back tell which calls it made, in which order, and how the task stood at each.
pub trait NotedObserver {
    ghost use Rattle.std.specs.Prelude.{ℕ};
    ghost use Rattle.vfs_gates.specs.TaskStates.{SeatedTask};

    /// What a task notes.
    type Notes;

    /// What a call of `holding` by a task that stands so, in this round, may make of its notes.
    ghost meets: { Self → SeatedTask → ℕ → Self.Notes → Self.Notes → Type 0 };

    /// What a call of `frozen` by a task that stands so, at this freeze, makes of the notes.
    ghost sees: { Self → SeatedTask → ℕ → Self.Notes → Self.Notes → Type 0 };

    /// Called by each writer in each round, from 0, between the grant of its write access and its return.
    fn holding(&self, task: &Task, round: u32, notes: &mut Self::Notes)
        ensures { meets self.now task.now round notes.old notes.new };

    /// Called by the backup at each freeze, from 0, between its snapshot and its thaw.
    fn frozen(&self, task: &Task, freeze: u32, notes: &mut Self::Notes)
        ensures { sees self.now task.now freeze notes.old notes.new };
}

/// Each watch is one with no notes.
impl<W: RunObserver> NotedObserver for W {
    ghost use Rattle.gate_runs.specs.Observers.{was_frozen, was_held};

    type Notes = ();

    ghost meets = { λ it. was_held (W.held it) };

    ghost sees = { λ it. was_frozen (W.seen it) };

    fn holding(&self, task: &Task, round: u32, _notes: &mut ()) {
        RunObserver::holding(self, task.number(), round);
    }

    fn frozen(&self, _task: &Task, freeze: u32, _notes: &mut ()) {
        RunObserver::frozen(self, freeze);
    }
}
