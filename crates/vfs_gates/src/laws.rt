//! Laws of whole calls. The functions here do nothing: their contracts are the laws.

ghost use Rattle.std.specs.Prelude.{◌≡◌, ◌≤◌, ◌<◌, ℕ, Bool, true, false, Some, None, Ok, Err, Result, IfErr, List, [], ◌∷◌, ◌++◌, length};
ghost use Rattle.access_model.specs.declared.actions.Gate.TheVariants.{Mount};
ghost use Rattle.access_model.specs.declared.errors.GateError.TheVariants.{Busy, ReadOnly};
ghost use Rattle.access_model.specs.declared.errors.GateError.{GateError};
ghost use Rattle.access_model.specs.declared.replies.Reply.{Reply};
ghost use Rattle.gate_world.specs.declared.operations.Op.{Op};
ghost use Rattle.gate_world.specs.declared.views.Snapshot.{Snapshot};
ghost use Rattle.gate_world.specs.declared.views.Traced.{Traced};
ghost use Rattle.gated_tree.specs.declared.trees.TreeWords.{TreeWords};
ghost use Rattle.gate_world.specs.traces.TraceStates.{state_of_trace};
ghost use Rattle.gate_steps.specs.Seating.{DealtNumbers, done_by};
ghost use Rattle.vfs_gates.specs.TaskStates.{SeatedTask, own_number, own_view, spare_of, IsIdle};
ghost use Rattle.vfs_gates.specs.Held.{Rests, own_actions, IsAsBefore, IsGivenBack, takes_nothing};
ghost use Rattle.gate_steps.specs.call_events.Caused.{HasItsCause};
ghost use Rattle.gate_steps.specs.call_events.Runs.{completed_by, Called, Performs};
ghost use Rattle.gate_world.specs.declared.config.Config.{Config};
ghost use Rattle.gate_world.specs.declared.entries.Entry.{Entry};
ghost use Rattle.vfs_gates.specs.Ended.{Ended, EndedWith, IsLeftBySchedule, LeavesSoundTree};
ghost use Rattle.vfs_gates.specs.Seen.{HasTaken, IsOfAMoment};
ghost use Rattle.gate_world.specs.declared.operations.Op.TheVariants.{ChangeMount, DropMount, Snapshot as SnapshotOp, Want};

pub mod in_time;
pub mod one_world;
pub mod patience;
pub mod progress;
pub mod undone;

/// After a whole call, the last snapshot of its task is of a moment of the one history that the call leaves. Does nothing: its contract
/// is the law.
pub fn a_last_snapshot_is_of_a_moment()
    ensures { (op : Op) (old left : SeatedTask) (answer : Result Reply GateError) (called : Called op old left answer) (s : Snapshot) →
        1 ≤ length old.items → (own_view left.items).snapshot ≡ Some s → IsOfAMoment old.config (own_number old.items) left.items s }
{}

/// So a call whose last step but one completed a snapshot, and which had added no action before it, has seen the tree of a moment of
/// that history, after just what its task's own number, and those that it had to give, had done before the call. Does nothing: its
/// contract is the law.
pub fn a_call_sees_a_moment()
    ensures { (op : Op) (old left : SeatedTask) (answer : Result Reply GateError) (called : Called op old left answer)
        (loaded : TreeWords) (release last : Traced) (earlier : List Traced) → 1 ≤ length old.items →
        called.trace ≡ release ∷ last ∷ earlier →
        completed_by (state_of_trace old.config (own_number old.items) op (last ∷ earlier)).comes (last ∷ earlier) release ≡ None →
        completed_by (state_of_trace old.config (own_number old.items) op earlier).comes earlier last ≡ Some loaded →
        (state_of_trace old.config (own_number old.items) op earlier).added ≡ [] →
        IsOfAMoment old.config (own_number old.items) left.items
        (record { loaded = loaded; done = length (own_view old.items).actions; others = done_by (spare_of old.items) }) }
{}

/// So a call of a snapshot that replied has taken one, which its task's `tree` shows from then on: of all nodes, sound and clean, and of a
/// moment of that history at which all was frozen, after just what its task's own number, and those that it had to give, had done before
/// the call. Does nothing: its contract is the law.
pub fn a_snapshot_that_replied_was_taken()
    ensures { (wait : Bool) (old left : SeatedTask) (reply : Reply) → 1 ≤ length old.items →
        Called (SnapshotOp wait) old left (Ok reply) → HasTaken old.config old.items left.items }
{}

/// A call that was refused, whatever its operation, has its cause in a schedule: one that ends right before the step that brought the
/// refusal, with the operation under way and just the call's earlier steps done. That step finds there what the call's trace says, and
/// the refusal has there what `every_schedule` says of it (clause `causes`): a want that was ReadOnly, say, a moment since it began at which
/// the shown state had the mount read-only, and a change that was Busy one at which something was counted there. Does nothing: its
/// contract is the law.
pub fn a_refused_call_has_its_cause()
    ensures { (op : Op) (old left : SeatedTask) (refusal : GateError) (called : Called op old left (Err refusal)) →
        HasItsCause old.config (own_number old.items) op called.trace refusal }
{}

/// The tree that closed gates leave is sound: the blocks charged are those of all files, the children charged to each node are its
/// children, and each parent is a directory. Does nothing: its contract is the law.
pub fn closed_gates_leave_a_sound_tree()
    ensures { (c : Config) (ws : List ℕ) → Ended c ws → LeavesSoundTree c ws }
{}

/// What closed gates have, a schedule leaves: all words of its state are theirs, no operation is under way in it, and each number has the list that it
/// has in theirs. So what `every_schedule` says of such a schedule is so of closed gates. Does nothing: its contract is the law.
pub fn closed_gates_are_left_by_a_schedule()
    ensures { (c : Config) (ws : List ℕ) (e : Ended c ws) → IsLeftBySchedule c ws e.world }
{}

/// An access that a want was granted, and a drop right after it, on the same processor or any that there is: the drop is not refused, both stand
/// in the task's list, and the task is as it was. Does nothing: its contract is the law.
pub fn a_granted_want_is_dropped()
    ensures there { (m p : ℕ) (wait : Bool) (old there left : SeatedTask) (outcome : Result (Unit {0}) GateError) →
        Performs (Want m p wait) old there (Ok tt) → Performs (DropMount m p) there left outcome → IsGivenBack (Mount m) old left outcome }
    ensures anywhere { (m p q : ℕ) (wait : Bool) (old there left : SeatedTask) (outcome : Result (Unit {0}) GateError) → q < old.config.processors →
        Performs (Want m p wait) old there (Ok tt) → Performs (DropMount m q) there left outcome → IsGivenBack (Mount m) old left outcome }
{}

/// A want of a task at rest is refused as ReadOnly alone; then nothing was added to the task's list, and it rests. Does nothing: its contract is
/// the law.
pub fn a_refused_want_leaves_a_task_at_rest()
    ensures { (m p : ℕ) (old left : SeatedTask) (refusal : GateError) → Rests old → m < old.config.mounts → p < old.config.processors →
        Performs (Want m p true) old left (Err refusal) → (refusal ≡ ReadOnly) × (own_actions left ≡ own_actions old) × Rests left }
{}

/// A change of a mount by a task at rest is refused as Busy alone, and one to writable is done; the task rests after it, refused or not. Does
/// nothing: its contract is the law.
pub fn a_change_leaves_a_task_at_rest()
    ensures done { (m : ℕ) (old left : SeatedTask) (outcome : Result (Unit {0}) GateError) → Rests old → m < old.config.mounts →
        Performs (ChangeMount m false true) old left outcome → outcome ≡ Ok tt }
    ensures rests { (m : ℕ) (read_only : Bool) (old left : SeatedTask) (outcome : Result (Unit {0}) GateError) → Rests old →
        m < old.config.mounts → Performs (ChangeMount m read_only true) old left outcome →
        IfErr outcome (λ refusal. refusal ≡ Busy) × Rests left }
{}

/// A call that takes no access and gives none back, and neither opens nor closes a file, leaves an idle task as it was, whatever it answers, and
/// so one that rests at rest; any call that is refused does. Does nothing: its contract is the law.
pub fn a_call_that_takes_nothing_leaves_a_task_as_it_was()
    ensures kept { (op : Op) (old left : SeatedTask) (outcome : Result (Unit {0}) GateError) → IsIdle old → takes_nothing op ≡ true →
        Performs op old left outcome → IsAsBefore old left }
    ensures refused { (op : Op) (old left : SeatedTask) (refusal : GateError) → IsIdle old → Performs op old left (Err refusal) →
        IsAsBefore old left }
    ensures rests { (op : Op) (old left : SeatedTask) (outcome : Result (Unit {0}) GateError) → Rests old → takes_nothing op ≡ true →
        Performs op old left outcome → Rests left }
{}

/// Where two tasks were joined and the gates closed, each of their own numbers has in the state that is left the view that its task knew. Does
/// nothing: its contract is the law.
pub fn joined_tasks_end_as_they_were()
    ensures { (c : Config) (ws : List ℕ) (first second : DealtNumbers) (seen : List (List Entry))
        (e : EndedWith c ws (first ++ second) seen) → 1 ≤ length first → 1 ≤ length second →
        (e.ended.world.views (own_number first) ≡ own_view first) × (e.ended.world.views (own_number second) ≡ own_view second) }
{}
