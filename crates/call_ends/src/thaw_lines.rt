//! The steps of a thaw, in a line: the file system is thawed where nothing stands in the way.

ghost use Rattle.std.specs.Prelude.{◌≡◌, Some, None, Ok, false};
ghost use Rattle.access_model.specs.declared.replies.Next.TheVariants.{Go};
ghost use Rattle.gate_world.specs.Work.{after_of};
ghost use Rattle.freeze_levels.specs.declared.thaws.ThawStep.TheVariants.{LeavesLast, LoadsStage, Locks, SetsUnfrozen};
ghost use Rattle.percpu_rwsem.specs.declared.writers.UpWriteStep.TheVariants.{ClearsBlock, Exits};
ghost use Rattle.percpu_rwsem.specs.declared.transitions.Transition.TheVariants.{Loads};
ghost use Rattle.call_ends.specs.Reopenings.{opening_at, of_thaw, reopened, thaw_at};
ghost use Rattle.gate_steps.specs.call_events.Led.{Led, LedAsking, Stands};

use access_model::{GateError, Next, Reply};
use cpu_words::{Touch, WordName};
use freeze_levels::holders::unpack;
use freeze_levels::{HookCall, Thaw, ThawStep};
use gate_steps::call_events::{GateWords, GhostSeat, TimedHooks, find, find_asking, find_first};
use gate_world::{Accesses, Op};
use percpu_rwsem::{SyncWord, Transition, UpWrite, UpWriteStep};

/// What comes after a step that has found this, where that leads out of the line. It stands apart, and takes the step by itself, so that nothing is
/// written to memory where the line goes on.
#[cold]
#[inline(never)]
fn leave(thaw: Thaw, step: ThawStep, found: u64) -> Next<Thaw>
    ensures { of_thaw result ≡ (after_of (thaw_at thaw step) found (Ok tt)).0 }
{
    let here = Thaw { step, ..thaw };
    let (next, _action) = here.after(found, Ok(()));
    next
}

/// What comes where the exit of a level was not made: it is tried again.
#[cold]
#[inline(never)]
fn exit_again(thaw: Thaw, level: u8) -> Next<Thaw>
    ensures { of_thaw result ≡ Go (reopened thaw level false) }
{
    let step = UpWriteStep::Exits(Transition::Loads);
    let step = ThawStep::Reopens(UpWrite { level, step });
    Next::Go(Thaw { step, ..thaw })
}

/// Leaves the level's `rcu_sync`, in two steps. False where the word was none, or another task changed it in between.
#[inline(always)]
fn exit(gates: &GateWords, seat: &mut GhostSeat, accesses: &Accesses, thaw: Thaw, level: u8) -> bool
    requires { Stands gates.now None (Go (opening_at thaw level (Exits Loads))) accesses.now seat.old }
    ensures { Led gates.now None (Go (opening_at thaw level (Exits Loads))) accesses.now seat.old (Go (reopened thaw level result)) accesses.now
        seat.new }
{
    let sync = WordName::Sync(level);
    let step = UpWriteStep::Exits(Transition::Loads);
    let here = Thaw {
        step: ThawStep::Reopens(UpWrite { level, step }),
        ..thaw
    };
    let expect = find(gates, seat, accesses, here, sync, Touch::Load);
    let Some(from) = SyncWord::unpack(expect) else {
        return false;
    };
    let Some(to) = from.on_exit() else {
        return false;
    };
    let put = to.pack();
    let step = UpWriteStep::Exits(Transition::Exchanges { from, to });
    let here = Thaw {
        step: ThawStep::Reopens(UpWrite { level, step }),
        ..thaw
    };
    let found = find(
        gates,
        seat,
        accesses,
        here,
        sync,
        Touch::Cas { expect, put },
    );
    found == expect
}

/// Reopens a level, in three steps. False where the sync word was none, or another task changed it in between.
#[inline(never)]
fn reopen(
    gates: &GateWords,
    seat: &mut GhostSeat,
    accesses: &Accesses,
    thaw: Thaw,
    level: u8,
) -> bool
    requires { Stands gates.now None (Go (opening_at thaw level ClearsBlock)) accesses.now seat.old }
    ensures { Led gates.now None (Go (opening_at thaw level ClearsBlock)) accesses.now seat.old (Go (reopened thaw level result)) accesses.now
        seat.new }
{
    let step = UpWriteStep::ClearsBlock;
    let here = Thaw {
        step: ThawStep::Reopens(UpWrite { level, step }),
        ..thaw
    };
    let _cleared = find(
        gates,
        seat,
        accesses,
        here,
        WordName::Block(level),
        Touch::Store(0),
    );
    exit(gates, seat, accesses, thaw, level)
}

/// The store of SB_UNFROZEN, the reopening of the levels, and the return of `umount`. What comes after the last step.
#[inline(never)]
pub fn reopen_all(
    gates: &GateWords,
    seat: &mut GhostSeat,
    accesses: &Accesses,
    thaw: Thaw,
) -> Next<Thaw>
    requires { Stands gates.now None (Go (thaw_at thaw SetsUnfrozen)) accesses.now seat.old }
    ensures { Led gates.now None (Go (thaw_at thaw SetsUnfrozen)) accesses.now seat.old (of_thaw result) accesses.now seat.new }
{
    let clear = Touch::Store(0);
    let step = ThawStep::SetsUnfrozen;
    let here = Thaw { step, ..thaw };
    let _stored = find(gates, seat, accesses, here, WordName::Stage, clear);
    if !reopen(gates, seat, accesses, thaw, 3) {
        return exit_again(thaw, 3);
    }
    if !reopen(gates, seat, accesses, thaw, 2) {
        return exit_again(thaw, 2);
    }
    if !reopen(gates, seat, accesses, thaw, 1) {
        return exit_again(thaw, 1);
    }
    let step = ThawStep::Releases(Ok(Reply::Unit));
    let here = Thaw { step, ..thaw };
    let _freed = find(gates, seat, accesses, here, WordName::Umount, clear);
    Next::Done(Ok(Reply::Unit))
}

/// Thaws, from the first step on. What comes after the last one that stands in the line.
#[inline(never)]
pub fn thaw_first<H: TimedHooks>(
    gates: &GateWords,
    seat: &mut GhostSeat,
    accesses: &Accesses,
    op: Op,
    thaw: Thaw,
    hooks: &mut H,
) -> Next<Thaw>
    requires { Stands gates.now (Some op) (Go (thaw_at thaw Locks)) accesses.now seat.old }
    ensures { LedAsking H.answers gates.now (Some op) (Go (thaw_at thaw Locks)) accesses.now seat.old hooks.old (of_thaw result) accesses.now
        seat.new hooks.new }
{
    let locks = Thaw {
        step: ThawStep::Locks,
        ..thaw
    };
    let put = u64::from(thaw.task) + 1;
    let taken = find_first(
        gates,
        seat,
        accesses,
        op,
        locks,
        WordName::Umount,
        Touch::Cas { expect: 0, put },
    );
    if taken != 0 {
        return leave(thaw, ThawStep::Locks, taken);
    }
    thaw_locked(gates, seat, accesses, thaw, hooks)
}

/// Goes on from the load of the stage, with `umount` taken. What comes after the last step that stands in the line.
#[inline(always)]
pub fn thaw_locked<H: TimedHooks>(
    gates: &GateWords,
    seat: &mut GhostSeat,
    accesses: &Accesses,
    thaw: Thaw,
    hooks: &mut H,
) -> Next<Thaw>
    requires { Stands gates.now None (Go (thaw_at thaw LoadsStage)) accesses.now seat.old }
    ensures { LedAsking H.answers gates.now None (Go (thaw_at thaw LoadsStage)) accesses.now seat.old hooks.old (of_thaw result) accesses.now
        seat.new hooks.new }
{
    let step = ThawStep::LoadsStage;
    let here = Thaw { step, ..thaw };
    let stage = find(gates, seat, accesses, here, WordName::Stage, Touch::Load);
    if stage != 4 {
        return leave(thaw, ThawStep::LoadsStage, stage);
    }
    let step = ThawStep::LoadsHolders;
    let here = Thaw { step, ..thaw };
    let word = find(gates, seat, accesses, here, WordName::Holders, Touch::Load);
    let held = unpack(word);
    let is_holder = held.has(thaw.holder);
    if !is_holder {
        return leave(thaw, ThawStep::LoadsHolders, word);
    }
    let is_last = held.without(thaw.holder).is_none();
    if !is_last {
        return leave(thaw, ThawStep::LoadsHolders, word);
    }
    let step = ThawStep::LoadsSuperblock;
    let here = Thaw { step, ..thaw };
    let flags = find(gates, seat, accesses, here, WordName::SbFlags, Touch::Load);
    if flags != 0 {
        return leave(thaw, ThawStep::LoadsSuperblock, flags);
    }
    thaw_last(gates, seat, accesses, thaw, hooks)
}

/// Goes on where nobody else holds a freeze: asks for `unfreeze_fs`, and reopens the levels.
#[inline(always)]
fn thaw_last<H: TimedHooks>(
    gates: &GateWords,
    seat: &mut GhostSeat,
    accesses: &Accesses,
    thaw: Thaw,
    hooks: &mut H,
) -> Next<Thaw>
    requires { Stands gates.now None (Go (thaw_at thaw LeavesLast)) accesses.now seat.old }
    ensures { LedAsking H.answers gates.now None (Go (thaw_at thaw LeavesLast)) accesses.now seat.old hooks.old (of_thaw result) accesses.now
        seat.new hooks.new }
{
    let here = Thaw {
        step: ThawStep::LeavesLast,
        ..thaw
    };
    let answer = find_asking(gates, seat, accesses, here, hooks, HookCall::UnfreezeFs);
    if let Err(code) = answer {
        return Next::Done(Err(GateError::Hook(code)));
    }
    reopen_all(gates, seat, accesses, thaw)
}
