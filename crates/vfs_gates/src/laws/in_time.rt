//! Laws of whole calls in the order of time. What a task has seen are schedules: of the moments of its own calls, and of those of each task that
//! was joined to it, that it was split off, or that it met, and of each receipt that it took in. Each later moment's schedule goes on from these. Only
//! the handing over of tasks and receipts is order: of two threads that talk by other means nothing is said here. The functions do nothing: their
//! contracts are the laws.

ghost use Rattle.std.specs.Prelude.{◌≡◌, ◌<◌, ◌≤◌, ℕ, Bool, true, Some, Ok, Err, Result, List, ◌++◌, length};
ghost use Rattle.access_model.specs.Holders.{held_by};
ghost use Rattle.access_model.specs.Laws.{IsFrozenStill};
ghost use Rattle.access_model.specs.declared.actions.Action.{Action};
ghost use Rattle.access_model.specs.declared.actions.Holder.{Holder};
ghost use Rattle.access_model.specs.declared.errors.GateError.{GateError};
ghost use Rattle.access_model.specs.declared.errors.GateError.TheVariants.{Busy, Invalid};
ghost use Rattle.access_model.specs.declared.replies.Reply.{Reply};
ghost use Rattle.gate_world.specs.Shown.{shown};
ghost use Rattle.gate_world.specs.traces.TraceStates.{state_of_trace};
ghost use Rattle.gate_world.specs.declared.config.Config.{Config};
ghost use Rattle.gate_world.specs.declared.entries.Entry.{Entry};
ghost use Rattle.gate_world.specs.declared.operations.Op.{Op};
ghost use Rattle.gate_world.specs.declared.operations.Op.TheVariants.{Freeze, Snapshot as SnapshotOp};
ghost use Rattle.gate_world.specs.declared.views.Snapshot.{Snapshot};
ghost use Rattle.gate_steps.specs.Seating.{DealtNumbers, HaveHistory};
ghost use Rattle.gate_steps.specs.call_events.Grown.{StaySeen};
ghost use Rattle.gate_steps.specs.call_events.Runs.{Called};
ghost use Rattle.gate_steps.specs.call_events.Spans.{AreInOrder, HasItsCauseDuring, IsTreeDuring, TakesEffect};
ghost use Rattle.vfs_gates.specs.Ended.{EndedWith, IsLeftAfter};
ghost use Rattle.vfs_gates.specs.Found.{WasSoDuring};
ghost use Rattle.vfs_gates.specs.Frozen.{MayFreeze, NeedsFreeze, NeverFreezes, NeverThaws, holders_of};
ghost use Rattle.vfs_gates.specs.Handed.{ComesAfter};
ghost use Rattle.vfs_gates.specs.Held.{own_actions};
ghost use Rattle.vfs_gates.specs.Meetings.{HasDone};
ghost use Rattle.vfs_gates.specs.Parts.{SplitOf};
ghost use Rattle.vfs_gates.specs.TaskStates.{SeatedTask, own_number, own_view};

/// What a task has seen it has seen still after each of its calls, and so have both tasks after a split, and a task that another was joined to has
/// seen what either had. So what a thread did before its task was joined lies behind the task that goes on, and what was done before a split
/// behind the new one.
pub fn what_was_seen_stays_seen()
    ensures calls { (op : Op) (old left : SeatedTask) (answer : Result Reply GateError) → Called op old left answer →
        StaySeen old.seen left.seen }
    ensures splits { (old left other : SeatedTask) → SplitOf old left other → StaySeen old.seen left.seen × StaySeen old.seen other.seen }
    ensures joins { (first second joined : SeatedTask) → joined.seen ≡ first.seen ++ second.seen →
        StaySeen first.seen joined.seen × StaySeen second.seen joined.seen }
    ensures further { (first second third : SeatedTask) → StaySeen first.seen second.seen → StaySeen second.seen third.seen →
        StaySeen first.seen third.seen }
{}

/// The schedule that closed gates leave goes on from each that their last task had seen, and so from all that was seen by the tasks that were
/// joined to it.
pub fn closed_gates_are_left_after_all_that_was_seen()
    ensures { (c : Config) (ws : List ℕ) (items : DealtNumbers) (seen : List (List Entry)) (e : EndedWith c ws items seen) →
        IsLeftAfter c ws e.ended.world items seen }
{}

/// A whole call takes effect between its call and its return. The schedule with which it returns is one that goes on from all that its task had
/// seen when it called, with more transitions, of which the task's are the beginning and the call's own steps, each once and in their order. In the
/// history that it leaves, the actions that were added since the call began come after all that stood there when it did, and the task's own among
/// them are exactly the call's.
///
/// - `actions`: that, of each call.
/// - `nothing`: a call that was done, and added no action to its task's list, has its instant too: in the state of its last step, with which it
///   returns, there was nothing to do. The mount that it was to make read-only or writable was so, and so the superblock; no
///   callback was queued; or all was frozen, of a snapshot. No other call is done without an action.
pub fn a_call_takes_effect_between_call_and_return()
    ensures actions { (op : Op) (old left : SeatedTask) (answer : Result Reply GateError) (called : Called op old left answer) →
        TakesEffect old.config old.items op called.trace old.seen left.seen called.history.history.log }
    ensures nothing { (op : Op) (old left : SeatedTask) (reply : Reply) → Called op old left (Ok reply) → own_actions left ≡ own_actions old →
        WasSoDuring old.config old.items op reply old.seen left.seen }
{}

/// Two calls, of which the second was made by a task that had seen what the first one left: in the history that the second one leaves, all that
/// it added comes after all that the first one added. So it is of two calls of one task, and of calls of two tasks, where the first one's was
/// joined, or the second one's split off, between the two.
pub fn calls_take_effect_in_order()
    ensures { (one two : Op) (old left begins ends : SeatedTask) (answer reply : Result Reply GateError)
        (first : Called one old left answer) (second : Called two begins ends reply) → begins.config ≡ old.config →
        StaySeen left.seen begins.seen →
        AreInOrder (own_number old.items) (state_of_trace old.config (own_number old.items) one first.trace).added
        (own_number begins.items) (state_of_trace begins.config (own_number begins.items) two second.trace).added second.history.history.log }
{}

/// A refused call has its cause between its call and its return, whatever its operation: the states among which `every_schedule` finds it (clause
/// `causes`) are those from the beginning of the operation to the step that brought the refusal, in a schedule that goes on from all that the
/// task had seen when it called, and with that step it returns. So a want is ReadOnly only if the mount was read-only at a moment of the call, and
/// not for what had been undone before it.
pub fn a_refused_call_has_its_cause_between_call_and_return()
    ensures { (op : Op) (old left : SeatedTask) (refusal : GateError) (called : Called op old left (Err refusal)) →
        HasItsCauseDuring old.config old.items op called.trace refusal old.seen left.seen }
{}

/// A snapshot that replied is of a freeze that stood during the call: at a moment between call and return everything was frozen, and the words of
/// the tree were those that the snapshot has. The schedule of that moment goes on from all that the task had seen when it called, so what had been
/// done by then is in the tree.
pub fn a_snapshot_is_of_a_freeze_that_stood_during_the_call()
    ensures { (wait : Bool) (old left : SeatedTask) (reply : Reply) (s : Snapshot) → 1 ≤ length old.items →
        Called (SnapshotOp wait) old left (Ok reply) → (own_view left.items).snapshot ≡ Some s →
        IsTreeDuring old.config old.items (SnapshotOp wait) old.seen left.seen s.loaded }
{}

/// A freeze stands until it is thawed. If a task's own list leaves its holder a freeze, then its snapshot and its thaw for that holder aren't refused
/// as Invalid, unless another number thaws for that holder. Closed gates tell, whose last task has seen what the call left: in the list of some other
/// number that holder has left.
pub fn a_freeze_stands_until_it_is_thawed()
    ensures { (h : Holder) (op : Op) (old left : SeatedTask) → Called op old left (Err Invalid) → NeedsFreeze h op →
        (ws : List ℕ) (items : DealtNumbers) (seen : List (List Entry)) (e : EndedWith old.config ws items seen) →
        held_by (holders_of (own_actions old)) h ≡ true → StaySeen left.seen seen →
        ((t : ℕ) → t < old.config.tasks → (t ≡ own_number old.items → ⊥) → NeverThaws h (e.ended.world.views t).actions) → ⊥ }
{}

/// What a holder has frozen stays until it is thawed, tree and all: all is frozen for the holder still, the same levels are closed, and the tree is the
/// same, each node with its kind, its parent, its size and its marks.
///
/// - `calls`: in what a call leaves, since a freeze for that holder by the same task, if the task hasn't thawed for it since, and no other number thaws for
///   it. Closed gates tell, whose last task has seen what the call left.
/// - `worlds`: in each state since one in which a number's list has a freeze for that holder, if that number hasn't thawed for it since, and no other
///   has. A third state tells the latter, which goes on from both: it may be the second.
pub fn a_frozen_tree_stays_until_it_is_thawed()
    ensures calls { (h : Holder) (op : Op) (old frozen begins left : SeatedTask) (reply : Reply) (answer : Result Reply GateError)
        (added : List Action) (first : Called (Freeze h) old frozen (Ok reply)) (last : Called op begins left answer) →
        begins.config ≡ old.config → own_number begins.items ≡ own_number frozen.items → StaySeen frozen.seen begins.seen →
        own_actions left ≡ added ++ own_actions frozen → NeverThaws h added →
        (ws : List ℕ) (items : DealtNumbers) (seen : List (List Entry)) (e : EndedWith old.config ws items seen) → StaySeen left.seen seen →
        ((t : ℕ) → t < old.config.tasks → (t ≡ own_number frozen.items → ⊥) → NeverThaws h (e.ended.world.views t).actions) →
        IsFrozenStill h (shown old.config first.history.world) (shown begins.config last.history.world) }
    ensures worlds { (h : Holder) (c : Config) (n : ℕ) (one two three : DealtNumbers) (s r q : List (List Entry)) (first : HaveHistory c one s)
        (last : HaveHistory c two r) (end : HaveHistory c three q) (list added : List Action) → StaySeen s r → StaySeen r q →
        HasDone n list one → HasDone n (added ++ list) two → held_by (holders_of list) h ≡ true → NeverThaws h added →
        ((t : ℕ) → t < c.tasks → (t ≡ n → ⊥) → NeverThaws h (end.world.views t).actions) →
        IsFrozenStill h (shown c first.world) (shown c last.world) }
{}

/// A freeze is busy only beside another. If a task's own list has no freeze under way, and none that its holder holds, then its freeze for that holder
/// isn't refused as Busy, unless another number freezes or thaws. Closed gates tell, whose last task has seen what the call left.
pub fn a_freeze_is_busy_only_beside_another()
    ensures { (h : Holder) (old left : SeatedTask) → Called (Freeze h) old left (Err Busy) →
        (ws : List ℕ) (items : DealtNumbers) (seen : List (List Entry)) (e : EndedWith old.config ws items seen) →
        MayFreeze h (own_actions old) → StaySeen left.seen seen →
        ((t : ℕ) → t < old.config.tasks → (t ≡ own_number old.items → ⊥) → NeverFreezes (e.ended.world.views t).actions) → ⊥ }
{}

/// A call of a task to which another was joined comes after all that the other had done: in the history that the
/// call leaves, the other's whole list stands before all that was added since the call began.
pub fn a_call_comes_after_what_was_joined()
    ensures { (op : Op) (first other joined left : SeatedTask) (answer : Result Reply GateError) →
        joined.items ≡ first.items ++ other.items → 1 ≤ length first.items → 1 ≤ length other.items → Called op joined left answer →
        ComesAfter other joined left }
{}
