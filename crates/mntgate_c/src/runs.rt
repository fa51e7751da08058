//! Several steps in one call.

ghost use Rattle.std.specs.Prelude.{◌≡◌, Some};
ghost use Rattle.gate_transitions.specs.declared.steps.Progress.TheVariants.{Idle};
ghost use Rattle.gate_world.specs.declared.operations.Op.{Op as OpType};
ghost use Rattle.gate_world.specs.declared.work.Phase.{Phase as PhaseType};
ghost use Rattle.gate_steps.specs.call_events.Runs.{OpUnderWay, ProgressMatches};
ghost use Rattle.mntgate_c.specs.Runs.{Runs};
ghost use Rattle.vfs_gates.specs.TaskStates.{SeatedTask, IsFrom, IsIdle};

use vfs_gates::{Gates, Progress, Task};

/// Does the next step of the operation under way, which reads what a hook answered, if it reads one. Does more, as long as the operation
/// goes on and its next step reads no hook, up to `most` in all; one if `most` is 0. A task with no operation under way does nothing.
/// Returns how the operation stands then.
pub fn run(task: &mut Task, gates: &Gates, hook: Result<(), u16>, most: u32) -> Progress
    requires { IsFrom task.old gates.now }
    ensures table { task.new.table ≡ task.old.table }
    ensures config { task.new.config ≡ task.old.config }
    ensures idle { IsIdle task.old → (task.new ≡ task.old) × (result ≡ Idle) }
    ensures runs { (phase : PhaseType) → task.old.phase ≡ Some phase → Runs phase hook most task.old task.new result }
    ensures told { (op : OpType) (start : SeatedTask) → OpUnderWay op start task.old → ProgressMatches op start result task.new }
{
    let mut progress = task.step(gates, hook).progress;
    for _more in 0..most.saturating_sub(1) {
        let Progress::Going = progress else {
            return progress;
        };
        let None = task.wants_hook() else {
            return progress;
        };
        progress = task.step(gates, Ok(())).progress;
    }
    progress
}
