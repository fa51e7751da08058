//! A task: the right to do the steps of one number.

ghost use Rattle.std.specs.Prelude.{◌≡◌, ◌≤◌, ◌<◌, ◌↔◌, ◌++◌, ℕ, slice_index_or, IsTrue, Some, None, OnOk, OnErr, option_map, [], false, length};
ghost use Rattle.gate_world.specs.Configs.{IsWithin};
ghost use Rattle.gate_world.specs.declared.operations.Op.{Op as OpType};
ghost use Rattle.gate_world.specs.declared.work.Phase.{Phase as PhaseType};
ghost use Rattle.vfs_gates.specs.TaskStates.{SeatedTask, IsNothing, level_asked};
ghost use Rattle.gate_steps.specs.Rules.{first_known};
ghost use Rattle.access_model.specs.Replies.{map_next};
ghost use Rattle.gate_world.specs.Views.{phase_after};
ghost use Rattle.gate_steps.specs.call_events.Answers.{progress_of};

use crate::at_once::waits;
use crate::buffers::SnapshotBuffers;
use crate::gates::Gates;
use crate::numbers::{Numbers, add_all, are_all, others_of};
use access_model::{GateError, Next};
use freeze_levels::{Freeze, FreezeStep, HookKind};
use gate_steps::call_events::{GhostSeat, Progress, Step, StepResult, TaskState, do_event};
use gate_transitions::{PendingOp, first_phase};
use gate_world::{Accesses, Config, Op, Phase};
use gated_tree::Tree;
use mount_counts::MountPhase;
use std::marker::Model;

/// A task: a token that one thread owns at a time. It has a number of its own, with which it acts, and the numbers that it may
/// still give to others. Contracts see its table, its configuration, the operation that it has begun until its first step, the
/// phase at which it stands, its numbers with their views, its own first, and the schedules that it has seen: nothing of these is kept
/// when it runs. Each call goes on from what its task has seen (`laws::in_time`).
///
/// A task that is dropped takes its numbers with it, so that `Gates::close` is refused as `Order` from then on, and what it has left in
/// the words stays there for good. At rest that is nothing more, and the gates work on. No refusal tells others of it; they meet what follows.
/// `progress_laws::what_a_lost_task_leaves_stays` says that `umount`, HOLD, a closed level, a section and the counts stay so. By
/// `laws::progress::who_meets_a_dropped_task_has_no_reply` a step that waits for one of the first four waits for ever, and so does a freeze that sums a
/// level which the task is inside, as long as its own `keep_waiting` answers Ok. What else is said here is documented, and not proved:
///
/// - an access at a mount, or a want past its addition: a change of that mount to read-only, or a remount to read-only, that sums it is `Busy`;
/// - an open file: once it is removed, each remount to read-only is `Busy`, and its node and its blocks aren't given back;
/// - a level, or a start that is counted there: a freeze waits there, with the levels up to it closed, so that starts of these wait;
/// - an operation that owns `umount`: `try_change_mount` and `try_snapshot` are `Again`, and a change, a remount, a freeze, a thaw and a
///   snapshot wait. Where it has HOLD set at a mount, wants there wait, too, and where it has `remount` set, wants are `ReadOnly`;
/// - a freeze that has given `umount` back at stage 1: a freeze and a remount are `Busy`, a thaw and a snapshot `Invalid`;
/// - a start inside its section: a callback waits, and so does a freeze that finds the readers of a level fast;
/// - a callback that is taken: `callback` of that level answers false, and its readers stay on their slow path;
/// - a call at the tree: what it has charged stays charged, and the level that it needs is as above.
///
/// So each task is to be joined, at rest: an access is given back before a refusal is handed on, and an operation that has begun is done
/// to its end. docs/refusals.md says more. From crates/example_backup/src/writer.rt, a proved crate:
///
/// ```
/// task.want(rt, gates, MOUNT, CPU)?;
/// file.fetch_add(1, Ordering::SeqCst);
/// task.drop_mount(gates, MOUNT, CPU)
/// ```
pub struct Task {
    pub(crate) number: u8,
    pub(crate) config: Config,
    /// The operation that has begun, until its first step.
    pub(crate) begins: Option<Op>,
    pub(crate) state: TaskState,
    /// The numbers that it has to give.
    pub(crate) spare: Numbers,
    pub(crate) buffers: SnapshotBuffers,
    /// How often its last operation came to a wait.
    pub(crate) waited: u64,
    pub(crate) seat: GhostSeat,
}

impl Model for Task {
    ghost use Rattle.std.specs.Prelude.{◌≡◌, []};
    ghost use Rattle.vfs_gates.specs.TaskStates.{SeatedTask, own_number, own_view, task_state};
    ghost use Rattle.vfs_gates.specs.Buffers.{BuffersMatch, words_in};
    ghost use Rattle.vfs_gates.specs.Waits.{WaitsTell};
    ghost use Rattle.gate_steps.specs.call_events.GhostAgrees.{GhostAgrees};

    ghost Value = { SeatedTask };

    ghost view = { λ t. task_state t.seat.table_id t.config t.begins t.state.phase t.seat.me.0 };

    ghost invariant = { λ t. GhostAgrees t.number t.config t.begins t.state t.spare t.seat.me.0.items × (t.seat.me.1 ≡ [])
        × BuffersMatch t.config.nodes (words_in t.buffers) t.begins t.state.phase t.seat.me.0.items
        × WaitsTell t.config (own_number t.seat.me.0.items) (own_view t.seat.me.0.items) t.waited };
}

/// Written out, so that a crate which lets a task go proves one call of this, and not anew what becomes of each part.
impl Drop for Task {
    fn drop(self) {
        let Task {
            number: _,
            config: _,
            begins: _,
            state: _,
            spare: _,
            buffers: _,
            waited: _,
            seat: _,
        } = self;
    }
}

impl Task {
    ghost use Rattle.vfs_gates.specs.Buffers.{HasSnapshotRoom, words_in};
    ghost use Rattle.gate_steps.specs.call_events.Answers.{idle_step, unless_refused, asked_by};
    ghost use Rattle.gate_world.specs.Beginnings.{first_phase as the_first_phase};
    ghost use Rattle.gate_world.specs.Views.{held_at, holds_level as has_level, has_open as opens_file};
    ghost use Rattle.vfs_gates.specs.TaskStates.{task_state, IsFrom, own_number, own_view, refusal_at, IsIdle, HoldsNothing};
    ghost use Rattle.gate_steps.specs.call_events.Stepped.{Stepped};
    ghost use Rattle.gate_steps.specs.call_events.Runs.{OpUnderWay, ProgressMatches};
    ghost use Rattle.vfs_gates.specs.Ended.{HasAll};
    ghost use Rattle.vfs_gates.specs.Waits.{waited_at};
    ghost use Rattle.gate_steps.specs.call_events.GhostAgrees.{AllRest};
    ghost use Rattle.gate_world.specs.declared.views.Snapshot.{Snapshot};
    ghost use Rattle.gated_tree.specs.Trees.{words_of};

    pub(crate) fn first(config: Config, seat: GhostSeat, buffers: SnapshotBuffers) -> Task
        requires within { IsWithin config }
        requires seat { seat.me ≡ (first_known config, []) }
        requires room { HasSnapshotRoom config.nodes (words_in buffers) × (buffers.taken ≡ false) }
        ensures { result ≡ task_state seat.table_id config None None (first_known config) }
    {
        Task {
            number: 0,
            config,
            begins: None,
            state: TaskState::idle(),
            spare: others_of(config.tasks),
            buffers,
            waited: 0,
            seat,
        }
    }

    /// The task's own number. It always has one.
    pub fn number(&self) -> u8
        ensures own { result ≡ own_number self.now.items }
        ensures there { 1 ≤ length self.now.items }
    {
        self.number
    }

    /// Whether no operation is under way.
    pub fn is_idle(&self) -> bool
        ensures { IsTrue result ↔ IsIdle self.now }
    {
        self.state.phase.is_none()
    }

    /// How many accesses the task holds at a mount: 0 to 1,024, and 0 where there is no such mount.
    pub fn holds_mount(&self, mount: u8) -> u16
        ensures there { mount < self.now.config.mounts → result ≡ held_at (own_view self.now.items) mount }
        ensures not_there { self.now.config.mounts ≤ mount → result ≡ 0 }
    {
        if mount < self.config.mounts {
            self.state.accesses.mounts[mount as usize]
        } else {
            0
        }
    }

    /// Whether the task is inside a freeze level, 1 to 3.
    pub fn holds_level(&self, level: u8) -> bool
        ensures there { (1 ≤ level) × (level ≤ 3) → result ≡ has_level (own_view self.now.items) level }
        ensures not_there { ¬ ((1 ≤ level) × (level ≤ 3)) → result ≡ false }
    {
        (1..=3).contains(&level) && self.state.accesses.levels[level as usize]
    }

    /// Whether the task has a file open; false where there is no such node.
    pub fn has_open(&self, node: u8) -> bool
        ensures there { node < self.now.config.nodes → result ≡ opens_file (own_view self.now.items) node }
        ensures not_there { self.now.config.nodes ≤ node → result ≡ false }
    {
        node < self.config.nodes && self.state.accesses.files[node as usize]
    }

    /// How often the task's last operation came to a wait: how many of its steps found what it waits for. It stands still at 2^64 - 1. Until an
    /// operation that has begun has its first step, it is told of the one before; where there was none, 0.
    pub fn waited(&self) -> u64
        ensures { result ≡ waited_at self.now }
    {
        self.waited
    }

    /// The last snapshot that the task has taken; None before its first. What it shows is the tree of one moment at which all was frozen,
    /// sound and clean.
    pub fn tree(&self) -> Option<&Tree>
        ensures last { option_map (λ tree. words_of tree.now) result ≡ option_map (λ (s : Snapshot). s.loaded) (own_view self.now.items).snapshot }
        ensures there { 1 ≤ length self.now.items }
    {
        self.buffers.last()
    }

    /// Begins an operation; it has no step, and changes no word.
    ///
    /// # Errors
    ///
    /// Then nothing is changed. Order where an operation is under way; Invalid where a number of the operation is out of range; Order where the
    /// task holds what the operation must not find held, or doesn't hold what it gives back; TooMany where the task would get its 1,025th access
    /// at a mount, or have a file open twice.
    pub fn begin(&mut self, op: Op) -> Result<(), GateError>
        ensures table { self.new.table ≡ self.old.table }
        ensures config { self.new.config ≡ self.old.config }
        ensures answer { result ≡ unless_refused (refusal_at op self.old) }
        ensures begun { OnOk result (self.new ≡ record self.old {
          begins = Some op;
          phase = Some (the_first_phase self.old.config (own_number self.old.items) op);
        }) }
        ensures refused { OnErr result (self.new ≡ self.old) }
        // From here on each step says how far the operation has come, and the last one what it was as a whole (`step`, clause `told`).
        ensures goes { OnOk result (OpUnderWay op self.old self.new) }
    {
        self.may_begin(op)?;
        self.begins = Some(op);
        self.state.phase = Some(first_phase(op, &self.config, self.number));
        Ok(())
    }

    /// The hook whose answer the next step reads; None where that is the same whatever a hook answers, and where the task is idle.
    pub fn wants_hook(&self) -> Option<HookKind>
        ensures { result ≡ asked_by self.now.phase }
    {
        self.state.phase?.wants_hook()
    }

    /// Returns the level, 1 to 3, of which a freeze asks `FsHooks::keep_waiting` by its next step; 0 where the next step reads no such answer.
    pub fn level_waited(&self) -> u8
        ensures { result ≡ level_asked self.now.phase }
    {
        match self.state.phase {
            Some(
                Phase::Freezes(
                    Freeze {
                        step: FreezeStep::Waits(write),
                        ..
                    },
                ),
            ) => write.level,
            _ => 0,
        }
    }

    /// Does the next step of the operation that has begun, in one atomic step, where a hook of the file system answers this. An idle
    /// task does nothing. What the step found decides how the operation stands, and the action that the step added.
    pub fn step(&mut self, gates: &Gates, hook: Result<(), u16>) -> Step
        requires { IsFrom self.old gates.now }
        ensures table { self.new.table ≡ self.old.table }
        ensures config { self.new.config ≡ self.old.config }
        ensures idle { IsIdle self.old → (self.new ≡ self.old) × (result ≡ idle_step) }
        ensures event { (phase : PhaseType) → self.old.phase ≡ Some phase → Stepped phase hook self.old result self.new }
        // An operation that has begun so goes on, says that it waits only where it may, or was done whole.
        ensures told { (op : OpType) (start : SeatedTask) → OpUnderWay op start self.old → ProgressMatches op start result.progress self.new }
    {
        let Some(phase) = self.state.phase else {
            return Step::idle();
        };
        self.step_there(gates, phase, hook)
    }

    /// Does the next step of an operation that stands here, in the form of its own kind, so that it goes through no other's phases.
    #[inline(always)]
    fn step_there(&mut self, gates: &Gates, phase: Phase, hook: Result<(), u16>) -> Step
        requires from { IsFrom self.old gates.now }
        requires at { self.old.phase ≡ Some phase }
        ensures table { self.new.table ≡ self.old.table }
        ensures config { self.new.config ≡ self.old.config }
        ensures event { (p : PhaseType) → self.old.phase ≡ Some p → Stepped p hook self.old result self.new }
    {
        match phase {
            Phase::Mounts(MountPhase::Want(want)) => self.step_as(gates, want, hook),
            Phase::Mounts(MountPhase::Change(change)) => self.step_as(gates, change, hook),
            Phase::Mounts(phase) => self.step_as(gates, phase, hook),
            Phase::Remounts(remount) => self.step_as(gates, remount, hook),
            Phase::DownReads(read) => self.step_as(gates, read, hook),
            Phase::UpReads(read) => self.step_as(gates, read, hook),
            Phase::Callbacks(callback) => self.step_as(gates, callback, hook),
            Phase::Writes(phase) => self.step_as(gates, phase, hook),
            Phase::Freezes(freeze) => self.step_as(gates, freeze, hook),
            Phase::Thaws(thaw) => self.step_as(gates, thaw, hook),
            Phase::Trees(phase) => self.step_as(gates, phase, hook),
            Phase::Closes(phase) => self.step_as(gates, phase, hook),
        }
    }

    /// The step of an operation of one kind: a function of its own for each kind, so that none pays for another's.
    #[inline(never)]
    fn step_as<P: PendingOp>(&mut self, gates: &Gates, under_way: P, hook: Result<(), u16>) -> Step
        requires from { IsFrom self.old gates.now }
        requires at { self.old.phase ≡ Some (P.as_phase under_way) }
        ensures table { self.new.table ≡ self.old.table }
        ensures config { self.new.config ≡ self.old.config }
        ensures event { (p : PhaseType) → self.old.phase ≡ Some p → Stepped p hook self.old result self.new }
    {
        let begins = self.begins;
        let accesses = &mut self.state.accesses;
        let StepResult {
            event,
            action,
            next,
        } = do_event(
            &gates.words,
            &mut self.seat,
            accesses,
            begins,
            under_way,
            hook,
        );
        self.buffers.follow(under_way.phase(), event);
        let so_far = if begins.is_some() { 0 } else { self.waited };
        self.waited = so_far.saturating_add(waits(&next));
        let (progress, phase) = standing(next);
        self.begins = None;
        self.state.phase = phase;
        Step {
            event: Some(event),
            action,
            progress,
        }
    }

    /// Whether no operation is under way, and nothing is held: no access, no level and no open file.
    pub fn rests(&self) -> bool
        ensures { IsTrue result ↔ (IsIdle self.now × HoldsNothing self.now) }
    {
        self.is_idle() && holds_nothing(&self.state.accesses, self.config.mounts)
    }

    /// Whether the task rests, and all other numbers are its to give: then `Gates::close` is not refused.
    pub fn has_all(&self) -> bool
        ensures { IsTrue result ↔ HasAll self.now }
    {
        self.rests() && are_all(&self.spare, self.number, self.config.tasks)
    }

    /// Gives its numbers to another task, which may give them again. It rests itself.
    pub(crate) fn leave_to(self, task: &mut Task, gates: &Gates)
        requires this { IsFrom self gates.now }
        requires that { IsFrom task.old gates.now }
        requires rest { IsIdle self × HoldsNothing self }
        ensures { task.new ≡ record task.old { items = task.old.items ++ self.items; seen = task.old.seen ++ self.seen } }
    {
        let Task {
            number,
            config: _,
            begins: _,
            state: _,
            spare,
            buffers: _,
            waited: _,
            seat,
        } = self;
        gates.words.take_back(&mut task.seat, seat);
        add_all(&mut task.spare, &spare);
        task.spare[number as usize] = true;
    }

    pub(crate) fn into_seat(self) -> GhostSeat
        ensures table { result.table_id ≡ self.table }
        ensures items { (result.me.0.items ≡ self.items) × (result.me.0.seen ≡ self.seen) }
        ensures rested { IsIdle self × HoldsNothing self → AllRest self.config result.me.0.items }
    {
        let Task {
            number: _,
            config: _,
            begins: _,
            state: _,
            spare: _,
            buffers: _,
            waited: _,
            seat,
        } = self;
        seat
    }
}

/// How an operation stands after a step, and its next phase.
#[inline(always)]
fn standing<P: PendingOp>(next: Next<P>) -> (Progress, Option<Phase>)
    ensures { result ≡ (progress_of (map_next P.as_phase next), phase_after (map_next P.as_phase next)) }
{
    match next {
        Next::Go(under_way) => (Progress::Going, Some(under_way.phase())),
        Next::Wait(under_way) => (Progress::Waiting, Some(under_way.phase())),
        Next::Done(answer) => (Progress::Done(answer), None),
    }
}

/// Whether there is no access at any of so many mounts, nor at a level, and no file is open.
fn holds_nothing(accesses: &Accesses, mounts: u8) -> bool
    requires { mounts ≤ 8 }
    ensures { IsTrue result ↔ IsNothing accesses.now mounts }
{
    for mount in 0..mounts {
        if accesses.mounts[mount as usize] != 0 {
            return false;
        }
    }
    has_none_open(&accesses.files)
        && !accesses.levels[1]
        && !accesses.levels[2]
        && !accesses.levels[3]
}

/// Whether none of these files is open.
fn has_none_open(files: &[bool; 64]) -> bool
    ensures { IsTrue result ↔ ((n : ℕ) → n < 64 → slice_index_or files.now n false ≡ false) }
{
    for file in 0..64usize {
        if files[file] {
            return false;
        }
    }
    true
}
