//! Laws of how far calls come: which end whatever others do, and what blocks one that waits. The functions do nothing: their contracts are the laws.

ghost use Rattle.std.specs.Prelude.{◌≡◌, ◌<◌, ◌≤◌, ℕ, Some, Result, List, ◌∷◌, ◌++◌, length};
ghost use Rattle.access_model.specs.declared.errors.GateError.{GateError};
ghost use Rattle.access_model.specs.declared.replies.Reply.{Reply};
ghost use Rattle.cpu_words.specs.Hooks.{HookAnswer};
ghost use Rattle.gate_world.specs.declared.operations.Op.{Op};
ghost use Rattle.gate_world.specs.declared.views.Traced.{Traced};
ghost use Rattle.gate_world.specs.declared.work.Phase.{Phase};
ghost use Rattle.gate_world.specs.traces.TraceStates.{state_of_trace};
ghost use Rattle.gate_world.specs.traces.Traces.{most_events};
ghost use Rattle.gate_transitions.specs.declared.steps.Progress.TheVariants.{Waiting};
ghost use Rattle.gate_transitions.specs.declared.steps.Step.{Step};
ghost use Rattle.gate_steps.specs.call_events.Runs.{Called, OpUnderWay, ProgressMatches};
ghost use Rattle.gate_steps.specs.call_events.Stepped.{Stepped};
ghost use Rattle.gate_steps.specs.call_events.Waited.{is_wait};
ghost use Rattle.vfs_gates.specs.Blockers.{WasBlocked, WasBlockedDuring};
ghost use Rattle.vfs_gates.specs.Dropped.{MeetsDropped};
ghost use Rattle.vfs_gates.specs.TaskStates.{SeatedTask, own_number};

/// **Wait-freedom.** A call that waits for nobody, which is one that has a most number of steps (`most_events`), ends after so many steps of its own
/// task, whatever other threads do in between, or don't: drops, ends, returns, the try forms and the calls at the tree but a waiting close or
/// snapshot.
///
/// - `calls`: a whole call has done no more.
/// - `steps`: an operation that is still under way has done fewer, so the next step is within them.
/// - `never_waits`: no step of one says that it waits.
pub fn calls_that_wait_for_nobody_are_wait_free()
    ensures calls { (op : Op) (old left : SeatedTask) (answer : Result Reply GateError) (most : ℕ) → most_events old.config op ≡ Some most →
        (called : Called op old left answer) → length called.trace ≤ most }
    ensures steps { (op : Op) (start now : SeatedTask) (most : ℕ) → most_events start.config op ≡ Some most →
        (goes : OpUnderWay op start now) → length goes.trace < most }
    ensures never_waits { (op : Op) (start now : SeatedTask) (most : ℕ) → most_events start.config op ≡ Some most →
        ProgressMatches op start Waiting now → ⊥ }
{}

/// A step that told that it waits was blocked in the state in which it was done, by what `every_schedule` says of it (clause `waits`): another task has
/// HOLD set at its mount there, has `umount`, or is inside a section; or the level was closed when the task last looked, or something was counted there
/// while a freeze summed it, always since its operation began.
///
/// - `steps`: that state is one of a schedule that goes on from all that the task had seen, and the step is the next transition.
/// - `calls`: so it is of each step of a whole call that came to a wait, between call and return.
pub fn a_step_that_waits_is_blocked()
    ensures steps { (phase : Phase) (hook : HookAnswer) (step : Step) (old left : SeatedTask) → Stepped phase hook old step left →
        step.progress ≡ Waiting → WasBlocked old.config old.items phase hook old.seen left.seen }
    ensures calls { (op : Op) (old left : SeatedTask) (answer : Result Reply GateError) (called : Called op old left answer)
        (later earlier : List Traced) (e : Traced) → called.trace ≡ later ++ e ∷ earlier →
        is_wait (state_of_trace old.config (own_number old.items) op (e ∷ earlier)).comes ≡ 1 →
        WasBlockedDuring old.config old.items op earlier e old.seen left.seen }
{}

/// **Dropped tasks.** A task that is dropped while its operation is under way takes no further step. What it has left may hold up a step of another
/// task: HOLD at its mount, `umount`, a closed level, a read-side section, or an access at a level that a freeze sums (`MeetsLost`). Then that other
/// task's operation has no reply, in any schedule that goes on from there, whatever all others do and begin, until one of the tasks that it
/// meets does something; or, where it is a freeze at its sum, `keep_waiting` answers it an Err, by which it gives up.
///
/// That a dropped task does nothing more is what dropping its handle means: no contract speaks of a task that isn't there.
pub fn who_meets_a_dropped_task_has_no_reply()
    ensures { (phase : Phase) (hook : HookAnswer) (step : Step) (old left : SeatedTask) → Stepped phase hook old step left →
        MeetsDropped old.config old.items phase hook old.seen left.seen }
{}
