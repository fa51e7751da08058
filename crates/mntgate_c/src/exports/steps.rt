//! Operations step by step, and so those that may have to wait: C begins one, does its steps, and pauses between them as it likes.

ghost use Rattle.std.specs.Prelude.{◌≡◌, true, Some, None, Err, OnOk, OnErr};
ghost use Rattle.access_model.specs.declared.errors.GateError.TheVariants.{Invalid};
ghost use Rattle.gate_transitions.specs.Answers.{unless_refused, asked_by, idle_step};
ghost use Rattle.gate_transitions.specs.declared.steps.Progress.TheVariants.{Idle};
ghost use Rattle.gate_world.specs.declared.operations.Op.{Op as OpType};
ghost use Rattle.gate_world.specs.declared.work.Phase.{Phase as PhaseType};
ghost use Rattle.gate_steps.specs.call_events.Runs.{OpUnderWay, ProgressMatches};
ghost use Rattle.gate_steps.specs.call_events.Stepped.{Stepped};
ghost use Rattle.vfs_gates.specs.TaskStates.{SeatedTask, refusal_at, IsIdle, level_asked};
ghost use Rattle.mntgate_c.specs.Codes.{answer_of, hook_answer, hook_number, progress_at};
ghost use Rattle.mntgate_c.specs.Events.{step_at};
ghost use Rattle.mntgate_c.specs.Operations.{op_at};
ghost use Rattle.mntgate_c.specs.Runs.{Runs};

use crate::codes::{Outcome, answer, code, hook_code, tell};
use crate::events::{StepRecord, record};
use crate::handles::TaskHandle;
use crate::members::Member;
use crate::operations::OpRecord;
use crate::runs::run;

/// Begins an operation; no word is changed. EINVAL where there is none of that kind.
#[unsafe(no_mangle)]
pub extern "C" fn mntgate_begin(task: &mut TaskHandle, op: &OpRecord) -> u32
    requires { task.old.full ≡ true }
    ensures full { task.new.full ≡ true }
    ensures answer { (of : OpType) → op_at op.now ≡ Some of → answer_of result ≡ unless_refused (refusal_at of task.old.state) }
    ensures goes { (of : OpType) → op_at op.now ≡ Some of → OnOk (answer_of result) (OpUnderWay of task.old.state task.new.state) }
    ensures unknown { op_at op.now ≡ None → answer_of result ≡ Err Invalid }
    ensures refused { OnErr (answer_of result) (task.new.state ≡ task.old.state) }
{
    code(task.begin(*op))
}

/// Does the next step of the operation under way, and writes what it was. `hook` is what the hook answers that it reads, if it reads one:
/// 0, or the code of a failure. A task with no operation under way does nothing.
#[unsafe(no_mangle)]
pub extern "C" fn mntgate_step(task: &mut TaskHandle, hook: u16, step: &mut StepRecord)
    requires { task.old.full ≡ true }
    ensures full { task.new.full ≡ true }
    ensures idle { IsIdle task.old.state → (task.new.state ≡ task.old.state) × (step_at step.new ≡ idle_step) }
    ensures event { (phase : PhaseType) → task.old.state.phase ≡ Some phase →
        Stepped phase (hook_answer hook) task.old.state (step_at step.new) task.new.state }
    ensures told { (op : OpType) (start : SeatedTask) → OpUnderWay op start task.old.state →
        ProgressMatches op start (step_at step.new).progress task.new.state }
{
    let Member { gates, task } = task.member();
    *step = record(task.step(gates, answer(hook)));
}

/// Does the next step of the operation under way, and as long as it goes on and no hook is asked more, up to `most` in all; 1 where
/// `most` is 0. Writes how the operation stands then.
#[unsafe(no_mangle)]
pub extern "C" fn mntgate_run(task: &mut TaskHandle, hook: u16, most: u32, outcome: &mut Outcome)
    requires { task.old.full ≡ true }
    ensures full { task.new.full ≡ true }
    ensures idle { IsIdle task.old.state → (task.new.state ≡ task.old.state) × (progress_at outcome.new ≡ Idle) }
    ensures runs { (phase : PhaseType) → task.old.state.phase ≡ Some phase →
        Runs phase (hook_answer hook) most task.old.state task.new.state (progress_at outcome.new) }
    ensures told { (op : OpType) (start : SeatedTask) → OpUnderWay op start task.old.state → ProgressMatches op start (progress_at outcome.new) task.new.state }
{
    let Member { gates, task } = task.member();
    *outcome = tell(run(task, gates, answer(hook), most));
}

/// Answers which hook the next step reads: 1 sync, 2 freeze_fs, 3 unfreeze_fs, 4 reconfigure, 5 keep_waiting, 0 none.
#[unsafe(no_mangle)]
pub extern "C" fn mntgate_wants_hook(task: &mut TaskHandle) -> u32
    requires { task.old.full ≡ true }
    ensures full { task.new.full ≡ true }
    ensures same { task.new.state ≡ task.old.state }
    ensures told { result ≡ hook_number (asked_by task.old.state.phase) }
{
    hook_code(task.member().task.wants_hook())
}

/// Answers the level, 1 to 3, of which the next step asks keep_waiting; 0 where it reads no such answer.
#[unsafe(no_mangle)]
pub extern "C" fn mntgate_level_waited(task: &mut TaskHandle) -> u8
    requires { task.old.full ≡ true }
    ensures full { task.new.full ≡ true }
    ensures same { task.new.state ≡ task.old.state }
    ensures told { result ≡ level_asked task.old.state.phase }
{
    task.member().task.level_waited()
}
