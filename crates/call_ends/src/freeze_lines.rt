//! The steps of a freeze, in a line: the file system is frozen where nothing stands in the way.

ghost use Rattle.std.specs.Prelude.{◌≡◌, ◌≤◌, Some, None, Ok};
ghost use Rattle.access_model.specs.declared.replies.Next.TheVariants.{Go};
ghost use Rattle.freeze_levels.specs.Freezes.{at_freeze, freeze_fails, level_closed};
ghost use Rattle.gate_world.specs.Work.{after_of};
ghost use Rattle.freeze_levels.specs.declared.freezes.FreezeStep.TheVariants.{
  Cleans,
  Closes,
  Holds,
  LoadsStage,
  Locks,
  LocksAgain,
  SetsComplete,
  SetsFs,
  SetsPageFault,
  SetsWrite,
};
ghost use Rattle.call_ends.specs.Closings.{of_freeze, standing};
ghost use Rattle.gate_steps.specs.call_events.Led.{Led, LedAsking, Stands};

use crate::closings::{close_level, go_on_closing};
use access_model::{Holders, Next, Reply};
use cpu_words::{Touch, WordName};
use freeze_levels::holders::pack;
use freeze_levels::{Freeze, FreezeStep, HookCall};
use gate_steps::call_events::{GateWords, GhostSeat, TimedHooks, find, find_asking, find_first};
use gate_world::{Accesses, Op};
use node_words::{ClearMarks, NodeWord, following};
use percpu_rwsem::{DownWrite, UpWrite, UpWriteStep};

/// What comes after a step that has found this, where that leads out of the line. It stands apart, and takes the step by itself, so that nothing is
/// written to memory where the line goes on.
#[cold]
#[inline(never)]
fn leave(freeze: &Freeze, step: FreezeStep, found: u64) -> Next<Freeze>
    ensures { of_freeze result ≡ (after_of (standing freeze.now step) found (Ok tt)).0 }
{
    let here = Freeze { step, ..*freeze };
    let (next, _action) = here.after(found, Ok(()));
    next
}

/// Freezes, from the first step on. What comes after the last one that stands in the line.
#[inline(never)]
pub fn freeze_first<H: TimedHooks>(
    gates: &GateWords,
    seat: &mut GhostSeat,
    accesses: &Accesses,
    op: Op,
    freeze: &Freeze,
    hooks: &mut H,
) -> Next<Freeze>
    requires { Stands gates.now (Some op) (Go (standing freeze.now Locks)) accesses.now seat.old }
    ensures { LedAsking H.answers gates.now (Some op) (Go (standing freeze.now Locks)) accesses.now seat.old hooks.old (of_freeze result)
        accesses.now seat.new hooks.new }
{
    let locks = Freeze {
        step: FreezeStep::Locks,
        ..*freeze
    };
    let put = u64::from(freeze.task) + 1;
    let taken = find_first(
        gates,
        seat,
        accesses,
        op,
        locks,
        WordName::Umount,
        Touch::Cas { expect: 0, put },
    );
    if taken != 0 {
        return leave(freeze, FreezeStep::Locks, taken);
    }
    freeze_locked(gates, seat, accesses, freeze, hooks)
}

/// Goes on from the load of the stage, with `umount` taken. What comes after the last step that stands in the line.
#[inline(always)]
pub fn freeze_locked<H: TimedHooks>(
    gates: &GateWords,
    seat: &mut GhostSeat,
    accesses: &Accesses,
    freeze: &Freeze,
    hooks: &mut H,
) -> Next<Freeze>
    requires { Stands gates.now None (Go (standing freeze.now LoadsStage)) accesses.now seat.old }
    ensures { LedAsking H.answers gates.now None (Go (standing freeze.now LoadsStage)) accesses.now seat.old hooks.old (of_freeze result)
        accesses.now seat.new hooks.new }
{
    let here = Freeze {
        step: FreezeStep::LoadsStage,
        ..*freeze
    };
    let stage = find(gates, seat, accesses, here, WordName::Stage, Touch::Load);
    if stage != 0 {
        return leave(freeze, FreezeStep::LoadsStage, stage);
    }
    let here = Freeze {
        step: FreezeStep::LoadsSuperblock,
        ..*freeze
    };
    let flags = find(gates, seat, accesses, here, WordName::SbFlags, Touch::Load);
    if flags != 0 {
        return leave(freeze, FreezeStep::LoadsSuperblock, flags);
    }
    close_first(gates, seat, accesses, freeze, hooks)
}

/// Goes on from the store of SB_FREEZE_WRITE: gives `umount` back, and closes level 1.
#[inline(always)]
fn close_first<H: TimedHooks>(
    gates: &GateWords,
    seat: &mut GhostSeat,
    accesses: &Accesses,
    freeze: &Freeze,
    hooks: &mut H,
) -> Next<Freeze>
    requires { Stands gates.now None (Go (standing freeze.now SetsWrite)) accesses.now seat.old }
    ensures { LedAsking H.answers gates.now None (Go (standing freeze.now SetsWrite)) accesses.now seat.old hooks.old (of_freeze result)
        accesses.now seat.new hooks.new }
{
    let here = Freeze {
        step: FreezeStep::SetsWrite,
        ..*freeze
    };
    let write = Touch::Store(1);
    let _stored = find(gates, seat, accesses, here, WordName::Stage, write);
    let here = Freeze {
        step: FreezeStep::Unlocks,
        ..*freeze
    };
    let free = Touch::Store(0);
    let _freed = find(gates, seat, accesses, here, WordName::Umount, free);
    let mut rest = Next::Done(Ok(Reply::Unit));
    if close_level(gates, seat, accesses, freeze, 1, &mut rest) {
        return lock_again(gates, seat, accesses, freeze, hooks);
    }
    rest
}

/// Goes on where level 1 is closed: takes `umount` again.
#[inline(always)]
fn lock_again<H: TimedHooks>(
    gates: &GateWords,
    seat: &mut GhostSeat,
    accesses: &Accesses,
    freeze: &Freeze,
    hooks: &mut H,
) -> Next<Freeze>
    requires { Stands gates.now None (Go (standing freeze.now LocksAgain)) accesses.now seat.old }
    ensures { LedAsking H.answers gates.now None (Go (standing freeze.now LocksAgain)) accesses.now seat.old hooks.old (of_freeze result)
        accesses.now seat.new hooks.new }
{
    let again = Freeze {
        step: FreezeStep::LocksAgain,
        ..*freeze
    };
    let put = u64::from(freeze.task) + 1;
    let touch = Touch::Cas { expect: 0, put };
    let taken = find(gates, seat, accesses, again, WordName::Umount, touch);
    if taken != 0 {
        return leave(freeze, FreezeStep::LocksAgain, taken);
    }
    close_second(gates, seat, accesses, freeze, hooks)
}

/// Goes on from the store of SB_FREEZE_PAGEFAULT: closes level 2.
#[inline(always)]
pub fn close_second<H: TimedHooks>(
    gates: &GateWords,
    seat: &mut GhostSeat,
    accesses: &Accesses,
    freeze: &Freeze,
    hooks: &mut H,
) -> Next<Freeze>
    requires { Stands gates.now None (Go (standing freeze.now SetsPageFault)) accesses.now seat.old }
    ensures { LedAsking H.answers gates.now None (Go (standing freeze.now SetsPageFault)) accesses.now seat.old hooks.old (of_freeze result)
        accesses.now seat.new hooks.new }
{
    let here = Freeze {
        step: FreezeStep::SetsPageFault,
        ..*freeze
    };
    let page_fault = Touch::Store(2);
    let _stored = find(gates, seat, accesses, here, WordName::Stage, page_fault);
    let mut rest = Next::Done(Ok(Reply::Unit));
    if close_level(gates, seat, accesses, freeze, 2, &mut rest) {
        return sync(gates, seat, accesses, freeze, hooks);
    }
    rest
}

/// Clears the dirty mark of one node after the other, from this one on.
#[inline(never)]
fn clean(
    gates: &GateWords,
    seat: &mut GhostSeat,
    accesses: &Accesses,
    freeze: &Freeze,
    mut clearing: ClearMarks,
)
    requires { Stands gates.now None (Go (standing freeze.now (Cleans clearing))) accesses.now seat.old }
    ensures { Led gates.now None (Go (standing freeze.now (Cleans clearing))) accesses.now seat.old (Go (standing freeze.now SetsFs))
        accesses.now seat.new }
{
    loop {
        let step = FreezeStep::Cleans(clearing);
        let here = Freeze { step, ..*freeze };
        let clean = Touch::And(!NodeWord::DIRTY);
        let node = WordName::Node(clearing.node);
        let _cleaned = find(gates, seat, accesses, here, node, clean);
        match following(clearing.node, clearing.nodes) {
            Some(node) => clearing = ClearMarks { node, ..clearing },
            None => return,
        }
    }
}

/// Goes on where level 2 is closed: clears the dirty marks and asks the file system for its `sync`.
#[inline(always)]
fn sync<H: TimedHooks>(
    gates: &GateWords,
    seat: &mut GhostSeat,
    accesses: &Accesses,
    freeze: &Freeze,
    hooks: &mut H,
) -> Next<Freeze>
    requires { Stands gates.now None (Go (standing freeze.now (level_closed 2 freeze.now.nodes))) accesses.now seat.old }
    ensures { LedAsking H.answers gates.now None (Go (standing freeze.now (level_closed 2 freeze.now.nodes))) accesses.now seat.old hooks.old
        (of_freeze result) accesses.now seat.new hooks.new }
{
    let clearing = ClearMarks::start(freeze.nodes);
    clean(gates, seat, accesses, freeze, clearing);
    close_third(gates, seat, accesses, freeze, hooks)
}

/// Goes on where the marks are cleared: asks for `sync`, and closes level 3.
#[inline(always)]
fn close_third<H: TimedHooks>(
    gates: &GateWords,
    seat: &mut GhostSeat,
    accesses: &Accesses,
    freeze: &Freeze,
    hooks: &mut H,
) -> Next<Freeze>
    requires { Stands gates.now None (Go (standing freeze.now SetsFs)) accesses.now seat.old }
    ensures { LedAsking H.answers gates.now None (Go (standing freeze.now SetsFs)) accesses.now seat.old hooks.old (of_freeze result)
        accesses.now seat.new hooks.new }
{
    let here = Freeze {
        step: FreezeStep::SetsFs,
        ..*freeze
    };
    let answer = find_asking(gates, seat, accesses, here, hooks, HookCall::Sync);
    if let Err(code) = answer {
        return fail(freeze, 2, code);
    }
    let mut rest = Next::Done(Ok(Reply::Unit));
    if close_level(gates, seat, accesses, freeze, 3, &mut rest) {
        return complete(gates, seat, accesses, freeze, hooks);
    }
    rest
}

/// Goes on where all levels are closed: asks for `freeze_fs`, and ends the freeze.
#[inline(always)]
fn complete<H: TimedHooks>(
    gates: &GateWords,
    seat: &mut GhostSeat,
    accesses: &Accesses,
    freeze: &Freeze,
    hooks: &mut H,
) -> Next<Freeze>
    requires { Stands gates.now None (Go (standing freeze.now SetsComplete)) accesses.now seat.old }
    ensures { LedAsking H.answers gates.now None (Go (standing freeze.now SetsComplete)) accesses.now seat.old hooks.old (of_freeze result)
        accesses.now seat.new hooks.new }
{
    let here = Freeze {
        step: FreezeStep::SetsComplete,
        ..*freeze
    };
    let answer = find_asking(gates, seat, accesses, here, hooks, HookCall::FreezeFs);
    if let Err(code) = answer {
        return fail(freeze, 3, code);
    }
    end_freeze(gates, seat, accesses, freeze, Holders::none())
}

/// What comes after a hook has failed with this code: the levels up to this one are still to reopen, the highest first.
#[cold]
#[inline(never)]
fn fail(freeze: &Freeze, level: u8, code: u16) -> Next<Freeze>
    requires { 1 ≤ level }
    ensures { result ≡ Go (at_freeze freeze.now (freeze_fails level code)) }
{
    let step = UpWriteStep::ClearsBlock;
    let write = UpWrite { level, step };
    let step = FreezeStep::Reopens { write, code };
    Next::Go(Freeze { step, ..*freeze })
}

/// Goes on with the closing of a level, and with what comes after it.
#[inline(never)]
pub fn go_on_level<H: TimedHooks>(
    gates: &GateWords,
    seat: &mut GhostSeat,
    accesses: &Accesses,
    freeze: &Freeze,
    write: DownWrite,
    hooks: &mut H,
) -> Next<Freeze>
    requires { Stands gates.now None (Go (standing freeze.now (Closes write))) accesses.now seat.old }
    ensures { LedAsking H.answers gates.now None (Go (standing freeze.now (Closes write))) accesses.now seat.old hooks.old (of_freeze result)
        accesses.now seat.new hooks.new }
{
    // A freeze closes each level among its own tasks and processors.
    if write.tasks != freeze.tasks || write.processors != freeze.processors {
        let step = FreezeStep::Closes(write);
        return Next::Go(Freeze { step, ..*freeze });
    }
    let DownWrite { level, step, .. } = write;
    let mut rest = Next::Done(Ok(Reply::Unit));
    if go_on_closing(gates, seat, accesses, freeze, level, step, &mut rest) {
        return go_on_closed(gates, seat, accesses, freeze, level, hooks);
    }
    rest
}

/// Goes on where a level is closed.
#[inline(always)]
fn go_on_closed<H: TimedHooks>(
    gates: &GateWords,
    seat: &mut GhostSeat,
    accesses: &Accesses,
    freeze: &Freeze,
    level: u8,
    hooks: &mut H,
) -> Next<Freeze>
    requires { Stands gates.now None (Go (standing freeze.now (level_closed level freeze.now.nodes))) accesses.now seat.old }
    ensures { LedAsking H.answers gates.now None (Go (standing freeze.now (level_closed level freeze.now.nodes))) accesses.now seat.old
        hooks.old (of_freeze result) accesses.now seat.new hooks.new }
{
    if level == 1 {
        return lock_again(gates, seat, accesses, freeze, hooks);
    }
    if level == 2 {
        return sync(gates, seat, accesses, freeze, hooks);
    }
    complete(gates, seat, accesses, freeze, hooks)
}

/// Stores its holder beside these, and gives `umount` back: the freeze is done.
#[inline(always)]
pub fn end_freeze(
    gates: &GateWords,
    seat: &mut GhostSeat,
    accesses: &Accesses,
    freeze: &Freeze,
    beside: Holders,
) -> Next<Freeze>
    requires { Stands gates.now None (Go (standing freeze.now (Holds beside))) accesses.now seat.old }
    ensures { Led gates.now None (Go (standing freeze.now (Holds beside))) accesses.now seat.old (of_freeze result) accesses.now seat.new }
{
    let here = Freeze {
        step: FreezeStep::Holds(beside),
        ..*freeze
    };
    let holders = beside.with(freeze.holder);
    let word = pack(holders);
    let hold = Touch::Store(word);
    let _stored = find(gates, seat, accesses, here, WordName::Holders, hold);
    let here = Freeze {
        step: FreezeStep::Releases(Ok(Reply::Unit)),
        ..*freeze
    };
    let free = Touch::Store(0);
    let _freed = find(gates, seat, accesses, here, WordName::Umount, free);
    Next::Done(Ok(Reply::Unit))
}
