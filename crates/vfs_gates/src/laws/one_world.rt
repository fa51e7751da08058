//! Laws of several tasks in one state. Where two tasks meet, one state has what both have done. What stands the same in a state before a call and in
//! one after it stood so at each moment of the call. The functions do nothing: their contracts are the laws.

ghost use Rattle.std.specs.Prelude.{◌≡◌, ◌≤◌, ◌<◌, ◌++◌, ◌⊎◌, ℕ, Bool, true, false, None, Some, Ok, Err, Result, List};
ghost use Rattle.access_model.specs.Histories.{mounts_of};
ghost use Rattle.access_model.specs.Laws.{IsFrozenFor};
ghost use Rattle.access_model.specs.declared.actions.Action.{Action};
ghost use Rattle.access_model.specs.declared.actions.Holder.{Holder};
ghost use Rattle.access_model.specs.declared.errors.GateError.{GateError};
ghost use Rattle.access_model.specs.declared.errors.GateError.TheVariants.{Again, Busy, ReadOnly};
ghost use Rattle.access_model.specs.declared.replies.Reply.{Reply};
ghost use Rattle.gate_world.specs.declared.entries.Entry.{Entry};
ghost use Rattle.gate_world.specs.declared.operations.Op.{Op};
ghost use Rattle.gate_world.specs.declared.operations.Op.TheVariants.{ChangeMount, Freeze, RemountSb, Start, WantWrite};
ghost use Rattle.gate_world.specs.Shown.{shown};
ghost use Rattle.gate_steps.specs.Seating.{DealtNumbers, HaveHistory};
ghost use Rattle.gate_steps.specs.call_events.Grown.{StaySeen};
ghost use Rattle.gate_steps.specs.call_events.Runs.{Called, OpUnderWay, Performs};
ghost use Rattle.vfs_gates.specs.Held.{Rests, own_actions};
ghost use Rattle.vfs_gates.specs.Meetings.{BeginsIn, ComesAfterList, Encloses, HasDone, HaveAll, HoldsAt, IsWritable, Meets};
ghost use Rattle.vfs_gates.specs.Meetings.{NoneDone, NoneSince, Reopens, SawList, Seals, SeenState, TakesMount, Thaws};
ghost use Rattle.gate_world.specs.declared.config.Config.{Config};
ghost use Rattle.vfs_gates.specs.Parts.{SplitOf};
ghost use Rattle.vfs_gates.specs.TaskStates.{SeatedTask, own_number, refusal_at};

/// What was seen before a meeting both tasks have seen after it, and what a receipt carries whoever takes it in has seen. So what the laws of
/// `in_time` say of calls one of which had seen what the other left is so of calls of any two tasks that met in between, or between which a receipt went.
pub fn what_is_sent_is_seen()
    ensures meetings { (one two first second : SeatedTask) → Meets one two first second →
        StaySeen one.seen first.seen × StaySeen two.seen first.seen × StaySeen one.seen second.seen × StaySeen two.seen second.seen }
    ensures receipts { (old left : SeatedTask) (receipt : SeenState) → left.seen ≡ old.seen ++ receipt.seen →
        StaySeen old.seen left.seen × StaySeen receipt.seen left.seen }
{}

/// An operation under way goes on when its task meets another or takes a receipt in. So what a caller drives by steps is one operation, whatever the
/// task is told between two of them: the clause `told` of `Task::step` says of the last step that it was done whole.
///
/// - `further`: it goes on as it began, if it has had a step.
/// - `first`: before its first step it begins anew, after all that the task has been told since.
pub fn an_operation_goes_on_across_a_meeting()
    ensures further { (op : Op) (start now later : SeatedTask) → OpUnderWay op start now → now.begins ≡ None →
        later ≡ record now { seen = later.seen } → StaySeen now.seen later.seen → OpUnderWay op start later }
    ensures first { (op of : Op) (start now later : SeatedTask) → OpUnderWay op start now → now.begins ≡ Some of →
        later ≡ record now { seen = later.seen } → OpUnderWay op (record start { seen = later.seen }) later }
{}

/// A call comes after all that its task was told: by a receipt, a meeting, a join or a split. If a number had this list in a state that the task had
/// seen, then in the history that the call leaves all of that list stands before all that was added since the call began. A task has seen its own
/// number's list after each call, and what was seen goes with what is sent.
pub fn a_call_comes_after_what_its_task_was_told()
    ensures after { (op : Op) (old left : SeatedTask) (answer : Result Reply GateError) (n : ℕ) (list : List Action) → Called op old left answer →
        SawList old.config n list old.seen → ComesAfterList n list old left }
    ensures own { (op : Op) (old left : SeatedTask) (answer : Result Reply GateError) → Called op old left answer →
        SawList left.config (own_number left.items) (own_actions left) left.seen }
    ensures sent { (c : Config) (n : ℕ) (list : List Action) (seen now : List (List Entry)) → SawList c n list seen → StaySeen seen now →
        SawList c n list now }
{}

/// A call begins in a state in which its task's numbers stand as they did, and which goes on from all that the task had seen. What the call leaves
/// goes on from that state.
pub fn a_call_begins_in_a_world()
    ensures { (op : Op) (old left : SeatedTask) (answer : Result Reply GateError) → Called op old left answer →
        BeginsIn old.config old.items old.seen left.seen }
{}

/// While a number holds an access at a mount, nobody makes that mount read-only: no change of it, and a remount is Busy. This is so of each call
/// before which and after which that number has the same list, by which it holds one: in a state that the calling task had seen, and in one that
/// has seen what the call left.
pub fn a_holder_keeps_the_mount_writable()
    ensures change { (m n : ℕ) (wait : Bool) (old left : SeatedTask) (reply : Reply) (list : List Action) (before after : DealtNumbers) →
        Called (ChangeMount m true wait) old left (Ok reply) → Encloses before after old left → HasDone n list before → HasDone n list after →
        1 ≤ mounts_of list m → ⊥ }
    ensures remount { (m n : ℕ) (old left : SeatedTask) (answer : Result Reply GateError) (list : List Action) (before after : DealtNumbers) →
        Called (RemountSb true) old left answer → Encloses before after old left → HasDone n list before → HasDone n list after →
        1 ≤ mounts_of list m → answer ≡ Err Busy }
{}

/// So threads that send each other word know: a task holds an access, sends a receipt, and takes another in before its next call. No change in between,
/// by a task that had taken the first receipt in and sent the second after it, makes that mount read-only.
pub fn a_holder_that_sent_word_keeps_the_mount_writable()
    ensures { (m : ℕ) (wait : Bool) (take next : Op) (idle there asks ends old left : SeatedTask) (granted answer : Result Reply GateError)
        (reply : Reply) → Called take idle there granted → HoldsAt m there → Called (ChangeMount m true wait) old left (Ok reply) →
        old.config ≡ there.config → StaySeen there.seen old.seen → Called next asks ends answer → asks ≡ record there { seen = asks.seen } →
        StaySeen left.seen asks.seen → ⊥ }
{}

/// So one thread that drives two tasks knows: if its tasks meet before a call and after it, and the one that doesn't call holds an access at a mount,
/// then no change makes that mount read-only, no remount makes all read-only, and a change that waits, by a task at rest, is Busy.
pub fn a_task_beside_keeps_the_mount_writable()
    ensures change { (m : ℕ) (one two begins beside left first second : SeatedTask) (outcome : Result (Unit {0}) GateError) →
        HoldsAt m two → Meets one two begins beside → Meets left beside first second → (wait : Bool) →
        Performs (ChangeMount m true wait) begins left outcome → outcome ≡ Ok tt → ⊥ }
    ensures remount { (m : ℕ) (one two begins beside left first second : SeatedTask) (outcome : Result (Unit {0}) GateError) →
        HoldsAt m two → Meets one two begins beside → Meets left beside first second →
        Performs (RemountSb true) begins left outcome → outcome ≡ Ok tt → ⊥ }
    ensures busy { (m : ℕ) (one two begins beside left first second : SeatedTask) (outcome : Result (Unit {0}) GateError) →
        HoldsAt m two → Meets one two begins beside → Meets left beside first second → Rests begins →
        m < begins.config.mounts → Performs (ChangeMount m true true) begins left outcome → outcome ≡ Err Busy }
{}

/// A mount that a call has made read-only, or found so, admits nobody until somebody makes it or the superblock writable. Of a call that comes
/// later, as far as its task has seen the other, no access is granted there, if in no number's list an action that makes it writable was added
/// meanwhile: from a state that the first call's task had seen to one that has seen what the second left.
pub fn a_mount_made_read_only_admits_nobody()
    ensures { (m : ℕ) (wait : Bool) (op : Op) (old left begins ends : SeatedTask) (reply answer : Reply) (before after : DealtNumbers)
        (s r : List (List Entry)) (first : HaveHistory old.config before s) (last : HaveHistory old.config after r) →
        Called (ChangeMount m true wait) old left (Ok reply) → Called op begins ends (Ok answer) → TakesMount m op → begins.config ≡ old.config →
        StaySeen s old.seen → StaySeen left.seen begins.seen → StaySeen ends.seen r → NoneSince (Reopens m) old.config first.world last.world → ⊥ }
{}

/// So one thread that drives two tasks which have all numbers between them knows: where its tasks meet, the first makes a mount read-only, they
/// meet, the second asks for an access there, and they meet again, it isn't granted; and write access, for a task at rest, is refused as ReadOnly.
pub fn two_tasks_with_all_numbers_know_a_read_only_mount()
    ensures none { (m : ℕ) (wait : Bool) (op : Op) (one two begins beside left first second asks third fourth : SeatedTask)
        (outcome : Result (Unit {0}) GateError) → TakesMount m op → Meets one two begins beside →
        Performs (ChangeMount m true wait) begins left (Ok tt) → Meets left beside first second → Performs op second asks outcome →
        Meets first asks third fourth → HaveAll one two → outcome ≡ Ok tt → ⊥ }
    ensures write { (m p : ℕ) (wait : Bool) (one two begins beside left first second asks third fourth : SeatedTask)
        (outcome : Result (Unit {0}) GateError) → Meets one two begins beside → Performs (ChangeMount m true wait) begins left (Ok tt) →
        Meets left beside first second → Performs (WantWrite m p) second asks outcome → Meets first asks third fourth →
        HaveAll one two → Rests second → m < second.config.mounts →
        p < second.config.processors → outcome ≡ Err ReadOnly }
{}

/// While all is frozen for a holder nobody goes inside, until that holder thaws. From a state in which all is frozen for it to a later one, if no
/// number's list has gained a thaw of it: no write access is granted, and no start at any level either, if the superblock was writable. (A freeze
/// of a read-only superblock closes no level.)
pub fn what_is_frozen_admits_nobody()
    ensures writes { (h : Holder) (m p : ℕ) (old left : SeatedTask) (reply : Reply) (before after : DealtNumbers) →
        Called (WantWrite m p) old left (Ok reply) → (around : Encloses before after old left) →
        IsFrozenFor (shown old.config around.first.world) h → NoneSince (Thaws h) old.config around.first.world around.last.world → ⊥ }
    ensures starts { (h : Holder) (i p : ℕ) (wait : Bool) (old left : SeatedTask) (reply : Reply) (before after : DealtNumbers) →
        Called (Start i p wait) old left (Ok reply) → (around : Encloses before after old left) →
        IsFrozenFor (shown old.config around.first.world) h → IsWritable old.config around.first.world →
        NoneSince (Thaws h) old.config around.first.world around.last.world → ⊥ }
{}

/// A freeze that a call was granted keeps everybody out until its holder thaws. Of a call that comes later, as far as its task has seen the freeze,
/// no write access is granted, if no number's list has gained a thaw of that holder meanwhile: from a state that the freezing task had seen to one
/// that has seen what the later call left. Nor is a start at any level, if the superblock was writable and nobody has made it read-only meanwhile.
pub fn a_granted_freeze_keeps_others_out()
    ensures writes { (h : Holder) (m p : ℕ) (old left begins ends : SeatedTask) (reply answer : Reply) (before after : DealtNumbers)
        (s r : List (List Entry)) (first : HaveHistory old.config before s) (last : HaveHistory old.config after r) →
        Called (Freeze h) old left (Ok reply) → Called (WantWrite m p) begins ends (Ok answer) → begins.config ≡ old.config →
        StaySeen s old.seen → StaySeen left.seen begins.seen → StaySeen ends.seen r →
        NoneSince (Thaws h) old.config first.world last.world → ⊥ }
    ensures starts { (h : Holder) (i p : ℕ) (wait : Bool) (old left begins ends : SeatedTask) (reply answer : Reply)
        (before after : DealtNumbers) (s r : List (List Entry)) (first : HaveHistory old.config before s)
        (last : HaveHistory old.config after r) → Called (Freeze h) old left (Ok reply) → Called (Start i p wait) begins ends (Ok answer) →
        begins.config ≡ old.config → StaySeen s old.seen → StaySeen left.seen begins.seen → StaySeen ends.seen r →
        NoneSince (Thaws h) old.config first.world last.world → IsWritable old.config first.world →
        NoneSince Seals old.config first.world last.world → ⊥ }
{}

/// So one thread that drives two tasks which have all numbers between them knows: if its tasks meet, the first is granted a freeze, they meet, the
/// second asks for an access, and they meet again, then write access isn't granted. Nor is a start, if none of the numbers had made the superblock
/// read-only; one that waits for nobody is refused as Again, if it begins at all.
pub fn two_tasks_with_all_numbers_know_a_freeze()
    ensures writes { (h : Holder) (m p : ℕ) (one two begins beside left first second asks third fourth : SeatedTask)
        (outcome : Result (Unit {0}) GateError) → Meets one two begins beside → Performs (Freeze h) begins left (Ok tt) →
        Meets left beside first second → Performs (WantWrite m p) second asks outcome → Meets first asks third fourth →
        HaveAll one two → outcome ≡ Ok tt → ⊥ }
    ensures starts { (h : Holder) (i p : ℕ) (wait : Bool) (one two begins beside left first second asks third fourth : SeatedTask)
        (outcome : Result (Unit {0}) GateError) → Meets one two begins beside → Performs (Freeze h) begins left (Ok tt) →
        Meets left beside first second → Performs (Start i p wait) second asks outcome → Meets first asks third fourth →
        HaveAll one two → NoneDone Seals (one.items ++ two.items) → outcome ≡ Ok tt → ⊥ }
    ensures again { (h : Holder) (i p : ℕ) (one two begins beside left first second asks third fourth : SeatedTask)
        (outcome : Result (Unit {0}) GateError) → Meets one two begins beside → Performs (Freeze h) begins left (Ok tt) →
        Meets left beside first second → Performs (Start i p false) second asks outcome → Meets first asks third fourth →
        HaveAll one two → NoneDone Seals (one.items ++ two.items) → refusal_at (Start i p false) second ≡ None → outcome ≡ Err Again }
{}

/// A number's list goes with it. After a split it stands with one of the two tasks, and after a join with the one that has both's numbers. So what is
/// said here of a number that has the same list before a call and after it is so across splits and joins.
pub fn a_list_goes_with_its_number()
    ensures splits { (n : ℕ) (list : List Action) (old left other : SeatedTask) (s : List (List Entry)) → SplitOf old left other →
        HaveHistory old.config old.items s → HasDone n list old.items → HasDone n list left.items ⊎ HasDone n list other.items }
    ensures joins { (n : ℕ) (list : List Action) (items others : DealtNumbers) → HasDone n list items ⊎ HasDone n list others →
        HasDone n list (items ++ others) }
{}
