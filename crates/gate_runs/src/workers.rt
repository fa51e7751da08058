//! What each task of a run does.

ghost use Rattle.std.specs.Prelude.{◌≡◌, ◌+◌, ◌-◌, ◌<◌, ◌≤◌, Err, IfErr, IfOk, OnOk, Some, length, true};
ghost use Rattle.access_model.specs.declared.actions.Holder.TheVariants.{User};
ghost use Rattle.access_model.specs.declared.actions.Kind.TheVariants.{File};
ghost use Rattle.access_model.specs.declared.errors.GateError.TheVariants.{Again, Invalid, ReadOnly};
ghost use Rattle.gated_tree.specs.Trees.{LoadedClean, LoadedSound};
ghost use Rattle.gate_runs.specs.Counts.{CountsRounds, blocks_of, counted, no_copies, no_remounts, no_writes, with_waits};
ghost use Rattle.gate_runs.specs.Keeping.{FreezesNothing, KeepsNumbers};
ghost use Rattle.gate_runs.specs.Patience.{TriedToFreeze};
ghost use Rattle.gate_runs.specs.Refusals.{CreateRefused, FoundOthers, GrowthRefused, HasWriteAccess, LeftByRefusal, WriterRefused};
ghost use Rattle.gate_runs.specs.Rounds.{BackupRound, CallsBack, Closes, CreatesFiles, Does, IsRefused, RemountRound, Repeats, Retries, Takes, Tries, WriterRound};
ghost use Rattle.gate_world.specs.declared.operations.Op.TheVariants.{Create, Grow, Snapshot as SnapshotOp};
ghost use Rattle.gate_world.specs.declared.views.Snapshot.{Snapshot};
ghost use Rattle.run_plans.specs.Plans.{run_config};
ghost use Rattle.vfs_gates.specs.Frozen.{MayFreeze};
ghost use Rattle.vfs_gates.specs.Held.{Rests, own_actions};
ghost use Rattle.vfs_gates.specs.Runs.{Called};
ghost use Rattle.vfs_gates.specs.Splitting.{Gives, HasBegun};
ghost use Rattle.vfs_gates.specs.TaskStates.{IsFrom, SeatedTask, own_view};

use crate::observers::NotedObserver;
use crate::patience::Patience;
use access_model::{GateError, Holder, Kind};
use run_plans::{Copies, MOUNT, Plan, Remounts, Tried, Writes};
use std::sync::Wait;
use vfs_gates::{Backoff, Gates, Task};

/// The root of the tree.
const ROOT: u8 = 0;

/// Creates a file for each writer in the root, inside one write access.
///
/// # Errors
///
/// NoSpace or Again of the first file that is refused (`CreateRefused`). The task stands as that creation left it, and keeps the write access. The write
/// access isn't refused: no task has done anything yet, so the mount is writable. Nor is a file refused as NoEntry or NotDir: the root is always a
/// directory.
pub fn create_files<R: Wait>(
    rt: &R,
    gates: &Gates,
    plan: Plan,
    task: &mut Task,
) -> Result<(), GateError>
    requires from { IsFrom task.old gates.now }
    requires planned { gates.now.words.config ≡ run_config plan.tasks plan.processors plan.rounds }
    requires begins { HasBegun 0 task.old }
    requires gives { Gives task.old 1 plan.tasks }
    ensures from { IsFrom task.new gates.now }
    ensures rests { OnOk result (Rests task.new) }
    ensures created { OnOk result (CreatesFiles (plan.tasks - 2) task.old task.new) }
    ensures refused { IfErr result (CreateRefused gates.now plan.tasks) }
    ensures last { IfErr result (λ refusal. (before : SeatedTask) × Called (Create 0 File) before task.new (Err refusal)) }
{
    task.want_write(rt, gates, MOUNT, 0)?;
    for _writer in 0..plan.writers() {
        task.create(gates, ROOT, Kind::File)?;
    }
    task.drop_write(gates, MOUNT, 0)
}

/// The waits so far, with those of the task's last call.
fn with_waits(so_far: u64, task: &Task) -> u64
    ensures { result ≡ with_waits so_far task.now }
{
    so_far.saturating_add(task.waited())
}

/// Takes write access on a processor, again while the mount is read-only, and tells how often it was, and the waits so far with those of each
/// of these calls.
fn want_write<R: Wait>(
    rt: &R,
    gates: &Gates,
    task: &mut Task,
    cpu: u8,
    so_far: u64,
) -> Result<(u64, u64), GateError>
    requires from { IsFrom task.old gates.now }
    requires rests { Rests task.old }
    requires processor { cpu < gates.now.words.config.processors }
    ensures from { IsFrom task.new gates.now }
    ensures inside { HasWriteAccess task.new }
    ensures took { IfOk result (λ met. (took : Takes cpu (task.old, so_far) (task.new, met.1)) × (met.0 ≡ counted took.0)) }
    ensures granted { IfErr result (λ refusal. ⊥) }
{
    let mut backoff = Backoff::new();
    let mut denied = 0u64;
    let mut waits = so_far;
    for _ in rt.forever() {
        let answer = task.want_write(rt, gates, MOUNT, cpu);
        waits = with_waits(waits, task);
        match answer {
            Ok(()) => return Ok((denied, waits)),
            Err(GateError::ReadOnly) => denied = denied.saturating_add(1),
            Err(refusal) => return Err(refusal),
        }
        backoff.snooze(rt);
    }
    unreachable!()
}

/// Makes a file larger by one block, again while others were before it, and tells how often they were.
fn grow<R: Wait>(rt: &R, gates: &Gates, task: &mut Task, file: u8) -> Result<u64, GateError>
    requires from { IsFrom task.old gates.now }
    requires inside { HasWriteAccess task.old }
    requires file { file < gates.now.words.config.nodes }
    ensures from { IsFrom task.new gates.now }
    ensures inside { HasWriteAccess task.new }
    ensures freezes { FreezesNothing task.old task.new }
    ensures grew { IfOk result (λ raced. (grew : Retries (Grow file 1) Again task.old task.new) × (raced ≡ counted grew.0)) }
    ensures refused { IfErr result (GrowthRefused gates.now file task.old) }
    ensures last { IfErr result (λ refusal. (before : SeatedTask) × IsRefused (Grow file 1) refusal before task.new) }
{
    let mut raced = 0u64;
    for _ in rt.forever() {
        match task.grow(gates, file, 1) {
            Ok(()) => return Ok(raced),
            Err(GateError::Again) => raced = raced.saturating_add(1),
            Err(refusal) => return Err(refusal),
        }
    }
    unreachable!()
}

/// Does a writer's rounds: in each it takes write access, again while the mount is read-only, makes its file larger by one block, again while
/// others were before it, calls the watch, and gives the access back on the processor after the one on which it was taken. Returns what it met.
///
/// # Errors
///
/// NoEntry, IsDir or NoSpace of the growth that ends it (`WriterRefused`). The watch was called in that round too, and the access was given back: so the
/// task stands as that growth and the return left it (`LeftByRefusal`).
pub fn write<R: Wait, W: NotedObserver>(
    rt: &R,
    gates: &Gates,
    plan: Plan,
    watch: &W,
    task: &mut Task,
    writer: u8,
    notes: &mut W::Notes,
) -> Result<Writes, GateError>
    requires from { IsFrom task.old gates.now }
    requires planned { gates.now.words.config ≡ run_config plan.tasks plan.processors plan.rounds }
    requires writer { writer + 2 < plan.tasks }
    requires begins { HasBegun (writer + 2) task.old }
    requires rests { Rests task.old }
    ensures from { IsFrom task.new gates.now }
    ensures rests { Rests task.new }
    ensures freezes { FreezesNothing task.old task.new }
    ensures rounds { IfOk result (λ writes. Repeats (WriterRound (W.meets watch.now) plan.processors writer) plan.rounds
        (task.old, notes.old, no_writes) (task.new, notes.new, writes)) }
    ensures refused { IfErr result (WriterRefused gates.now plan.tasks plan.processors plan.rounds) }
    ensures last { IfErr result (λ refusal. LeftByRefusal (writer + 1) refusal task.new) }
{
    let mut writes = Writes::none();
    for round in 0..plan.rounds() {
        let cpu = plan.processor(writer, round);
        let (denied, waits) = want_write(rt, gates, task, cpu, writes.waits)?;
        let grown = grow(rt, gates, task, writer + 1);
        watch.holding(task, round, notes);
        task.drop_write(gates, MOUNT, plan.processor(writer, round + 1))?;
        writes = writes.with_round(denied, grown?, waits);
    }
    Ok(writes)
}

/// Makes the mount read-only, unless it is busy, and tells how often it was: never, or once.
fn close_mount<R: Wait>(rt: &R, gates: &Gates, task: &mut Task) -> Result<u32, GateError>
    requires from { IsFrom task.old gates.now }
    requires rests { Rests task.old }
    ensures from { IsFrom task.new gates.now }
    ensures rests { Rests task.new }
    ensures closed { IfOk result (λ busy. Closes busy task.old task.new) }
    ensures answered { IfErr result (λ refusal. ⊥) }
{
    match task.change_mount(rt, gates, MOUNT, true) {
        Ok(()) => Ok(0),
        Err(GateError::Busy) => Ok(1),
        Err(refusal) => Err(refusal),
    }
}

/// Does the remounter's rounds: in each it makes the mount read-only, or finds it busy, and then makes it writable. Returns what it met. It is
/// never refused.
pub fn remount<R: Wait>(
    rt: &R,
    gates: &Gates,
    plan: Plan,
    task: &mut Task,
) -> Result<Remounts, GateError>
    requires from { IsFrom task.old gates.now }
    requires rests { Rests task.old }
    ensures from { IsFrom task.new gates.now }
    ensures rests { Rests task.new }
    ensures rounds { IfOk result (λ met. Repeats RemountRound plan.rounds (task.old, no_remounts) (task.new, met)) }
    ensures answered { IfErr result (λ refusal. ⊥) }
{
    let mut met = Remounts::none();
    for _round in 0..plan.rounds() {
        let busy = met.busy + close_mount(rt, gates, task)?;
        let waits = with_waits(met.waits, task);
        task.change_mount(rt, gates, MOUNT, false)?;
        met = Remounts {
            busy,
            waits: with_waits(waits, task),
        };
    }
    Ok(met)
}

/// The blocks of a task's last snapshot, where it is sound and clean.
fn whole_blocks(task: &Task) -> Option<u64>
    ensures there { 1 ≤ length task.now.items }
    ensures whole { (s : Snapshot) → (own_view task.now.items).snapshot ≡ Some s → LoadedSound s.loaded → LoadedClean s.loaded →
        result ≡ Some s.loaded.used }
{
    let tree = task.tree()?;
    if tree.is_sound() && tree.is_clean() {
        Some(tree.used())
    } else {
        None
    }
}

/// Takes a snapshot, and tells its blocks, where it is sound and clean. It adds nothing to its task's list.
fn take_snapshot<R: Wait>(rt: &R, gates: &Gates, task: &mut Task) -> Result<Option<u64>, GateError>
    requires from { IsFrom task.old gates.now }
    requires rests { Rests task.old }
    ensures from { IsFrom task.new gates.now }
    ensures rests { Rests task.new }
    ensures whole { IfOk result (λ blocks. blocks ≡ Some (blocks_of task.new)) }
    ensures took { OnOk result (Does (SnapshotOp true) task.old task.new) }
    ensures stays { KeepsNumbers task.old task.new }
    ensures list { own_actions task.new ≡ own_actions task.old }
    ensures refused { IfErr result (λ refusal. (refusal ≡ Invalid) × Called (SnapshotOp true) task.old task.new (Err Invalid)) }
{
    task.snapshot(rt, gates)?;
    Ok(whole_blocks(task))
}

/// Calls back what the three levels have queued, and tells how many callbacks ran, and the waits so far with those of these calls.
fn call_back<R: Wait>(
    rt: &R,
    gates: &Gates,
    task: &mut Task,
    so_far: u64,
) -> Result<(u32, u64), GateError>
    requires from { IsFrom task.old gates.now }
    requires rests { Rests task.old }
    ensures from { IsFrom task.new gates.now }
    ensures rests { Rests task.new }
    ensures few { IfOk result (λ met. met.0 ≤ 3) }
    ensures ran { IfOk result (λ met. Repeats (λ k. CallsBack (k + 1)) 3 (task.old, 0, so_far) (task.new, met.0, met.1)) }
    ensures answered { IfErr result (λ refusal. ⊥) }
{
    let mut ran = 0;
    let mut waits = so_far;
    for level in 1..4 {
        ran += u32::from(task.callback(rt, gates, level)?);
        waits = with_waits(waits, task);
    }
    Ok((ran, waits))
}

/// Freezes with so much patience, and tells whether it did; else it gave up.
///
/// # Errors
///
/// Busy if another task has frozen (`FoundOthers`).
fn try_to_freeze<R: Wait>(
    rt: &R,
    gates: &Gates,
    task: &mut Task,
    patience: Option<u32>,
) -> Result<bool, GateError>
    requires from { IsFrom task.old gates.now }
    requires rests { Rests task.old }
    requires may { MayFreeze User (own_actions task.old) }
    ensures from { IsFrom task.new gates.now }
    ensures rests { Rests task.new }
    ensures stays { KeepsNumbers task.old task.new }
    ensures tried { IfOk result (λ froze. TriedToFreeze patience froze task.old task.new) }
    ensures refused { IfErr result (λ refusal. FoundOthers task.new) }
{
    let mut hooks = Patience { left: patience };
    match task.freeze(rt, gates, Holder::User, &mut hooks) {
        Ok(()) => Ok(true),
        Err(GateError::Hook(_)) => Ok(false),
        Err(refusal) => Err(refusal),
    }
}

/// Freezes, takes a snapshot, calls the watch and thaws, unless the freeze gives up. Tells which of both it was, and the waits so far with those of
/// these calls.
///
/// # Errors
///
/// Busy if another task has frozen, and Invalid if another thawed what it has frozen (`FoundOthers`). If a snapshot is refused, the watch was
/// called and the thaw was done before this returns.
fn copy_once<R: Wait, W: NotedObserver>(
    rt: &R,
    gates: &Gates,
    plan: Plan,
    watch: &W,
    task: &mut Task,
    round: u32,
    notes: &mut W::Notes,
    so_far: u64,
) -> Result<(Tried, u64), GateError>
    requires from { IsFrom task.old gates.now }
    requires rests { Rests task.old }
    requires may { MayFreeze User (own_actions task.old) }
    ensures from { IsFrom task.new gates.now }
    ensures rests { Rests task.new }
    ensures stays { KeepsNumbers task.old task.new }
    ensures may { OnOk result (MayFreeze User (own_actions task.new)) }
    ensures tries { IfOk result (λ met. Tries (W.sees watch.now) plan.patience round met.0 (task.old, notes.old, so_far) (task.new, notes.new, met.1)) }
    ensures refused { IfErr result (λ refusal. FoundOthers task.new) }
{
    if !try_to_freeze(rt, gates, task, plan.patience())? {
        return Ok((Tried::GaveUp, with_waits(so_far, task)));
    }
    let waits = with_waits(so_far, task);
    let taken = take_snapshot(rt, gates, task);
    let waits = with_waits(waits, task);
    watch.frozen(task, round, notes);
    task.thaw(rt, gates, Holder::User, &mut ())?;
    Ok((Tried::Copied(taken?), with_waits(waits, task)))
}

/// Does the backup's rounds: in each it freezes, takes a snapshot, calls the watch and thaws, or its freeze gives up, and then it calls back what the
/// levels have queued. Counts the freezes, those that gave up, the snapshots that were sound and clean, their blocks, the callbacks that ran, and
/// the waits of all these calls.
///
/// # Errors
///
/// As `copy_once`.
pub fn back_up<R: Wait, W: NotedObserver>(
    rt: &R,
    gates: &Gates,
    plan: Plan,
    watch: &W,
    task: &mut Task,
    notes: &mut W::Notes,
) -> Result<Copies, GateError>
    requires from { IsFrom task.old gates.now }
    requires rests { Rests task.old }
    requires may { MayFreeze User (own_actions task.old) }
    ensures from { IsFrom task.new gates.now }
    ensures rests { Rests task.new }
    ensures stays { KeepsNumbers task.old task.new }
    ensures counts { IfOk result (CountsRounds plan.patience plan.freezes) }
    ensures rounds { IfOk result (λ copies. Repeats (BackupRound (W.sees watch.now) plan.patience) plan.freezes
        (task.old, notes.old, no_copies) (task.new, notes.new, copies)) }
    ensures refused { IfErr result (λ refusal. FoundOthers task.new) }
{
    let mut copies = Copies::none();
    for round in 0..plan.freezes() {
        let (tried, waits) = copy_once(rt, gates, plan, watch, task, round, notes, copies.waits)?;
        let (ran, waits) = call_back(rt, gates, task, waits)?;
        copies = copies.with_try(tried, ran, waits);
    }
    Ok(copies)
}
