//! The steps of a remount, in a line: the superblock is as it was asked for where nothing stands in the way.

ghost use Rattle.std.specs.Prelude.{◌≡◌, Some, None, Ok};
ghost use Rattle.access_model.specs.declared.replies.Next.TheVariants.{Go};
ghost use Rattle.gate_world.specs.Work.{after_of};
ghost use Rattle.mount_counts.specs.Remounts.{let_go};
ghost use Rattle.mount_counts.specs.Sets.{no_mounts};
ghost use Rattle.mount_counts.specs.declared.remounts.RemountStep.TheVariants.{
  ClearsMark,
  LoadsFlags,
  LoadsRemoved,
  LoadsStage,
  LoadsRemovedAgain,
  Locks,
  SetsReadOnly,
  SetsWritable,
};
ghost use Rattle.call_ends.specs.Remounting.{done_remount, first_count, held_or, of_remount, past_or, remounting_at, summed_or};
ghost use Rattle.gate_steps.specs.call_events.Led.{Led, LedAsking, Stands};

use access_model::{GateError, Next, Reply};
use bitflags::Flags;
use cpu_words::{Sum, Taken, Touch, WordName};
use freeze_levels::HookCall;
use gate_steps::call_events::{GateWords, GhostSeat, TimedHooks, find, find_asking, find_first};
use gate_world::{Accesses, Op};
use mount_counts::{MountFlags, MountSet, Remount, RemountStep};
use node_words::{NodeWord, following};

/// What comes after a step that has found this, where that leads out of the line. It stands apart, and takes the step by itself, so that nothing is
/// written to memory where the line goes on.
#[cold]
#[inline(never)]
fn leave(remount: Remount, step: RemountStep, found: u64) -> Next<Remount>
    ensures { of_remount result ≡ (after_of (remounting_at remount step) found (Ok tt)).0 }
{
    let here = Remount { step, ..remount };
    let (next, _action) = here.after(found, Ok(()));
    next
}

/// Loads the writer count of one processor after the other, at the mount whose HOLD was set last. Whether nobody was counted; where somebody
/// was, what comes next is left in `rest`.
#[inline(never)]
fn sum_mount(
    gates: &GateWords,
    seat: &mut GhostSeat,
    accesses: &Accesses,
    remount: Remount,
    mount: u8,
    held: MountSet,
    rest: &mut Next<Remount>,
) -> bool
    requires { Stands gates.now None (Go (remounting_at remount (first_count mount held))) accesses.now seat.old }
    ensures { Led gates.now None (Go (remounting_at remount (first_count mount held))) accesses.now seat.old
        (summed_or remount mount held result rest.new) accesses.now seat.new }
{
    let mut sum = Sum::start();
    loop {
        let step = RemountStep::Sums { mount, held, sum };
        let here = Remount { step, ..remount };
        let word = WordName::MountCount(mount, sum.words);
        let found = find(gates, seat, accesses, here, word, Touch::Load);
        match sum.take(found, remount.processors) {
            Taken::More(further) => sum = further,
            Taken::Total(total) => {
                if total == 0 {
                    return true;
                }
                *rest = leave(remount, RemountStep::Sums { mount, held, sum }, found);
                return false;
            }
        }
    }
}

/// Sets HOLD at a mount and sums its writer counts, unless it is read-only. The mounts that are held then; none where somebody was counted, and
/// what comes next is left in `rest`.
#[inline(always)]
fn hold_mount(
    gates: &GateWords,
    seat: &mut GhostSeat,
    accesses: &Accesses,
    remount: Remount,
    mount: u8,
    held: MountSet,
    rest: &mut Next<Remount>,
) -> Option<MountSet>
    requires { Stands gates.now None (Go (remounting_at remount (LoadsFlags mount held))) accesses.now seat.old }
    ensures { Led gates.now None (Go (remounting_at remount (LoadsFlags mount held))) accesses.now seat.old
        (past_or remount mount result rest.new) accesses.now seat.new }
{
    let step = RemountStep::LoadsFlags { mount, held };
    let here = Remount { step, ..remount };
    let word = WordName::MountFlags(mount);
    let found = find(gates, seat, accesses, here, word, Touch::Load);
    let flags = MountFlags::from_bits_retain(found);
    if flags.contains(MountFlags::READONLY) {
        return Some(held);
    }
    let step = RemountStep::SetsHold { mount, held };
    let here = Remount { step, ..remount };
    let hold = Touch::Or(MountFlags::HOLD.bits());
    let _held = find(gates, seat, accesses, here, word, hold);
    if sum_mount(gates, seat, accesses, remount, mount, held, rest) {
        return Some(held.with(mount));
    }
    None
}

/// Holds one mount after the other. The mounts that are held then; none where somebody was counted, and what comes next is left in `rest`.
#[inline(always)]
fn hold_mounts(
    gates: &GateWords,
    seat: &mut GhostSeat,
    accesses: &Accesses,
    remount: Remount,
    rest: &mut Next<Remount>,
) -> Option<MountSet>
    requires { Stands gates.now None (Go (remounting_at remount (LoadsFlags 0 no_mounts))) accesses.now seat.old }
    ensures { Led gates.now None (Go (remounting_at remount (LoadsFlags 0 no_mounts))) accesses.now seat.old (held_or remount result rest.new)
        accesses.now seat.new }
{
    let mut mount = 0u8;
    let mut held = MountSet::empty();
    loop {
        held = hold_mount(gates, seat, accesses, remount, mount, held, rest)?;
        match following(mount, remount.mounts) {
            Some(next) => mount = next,
            None => return Some(held),
        }
    }
}

/// Clears HOLD of each of these mounts, the lowest first.
#[inline(always)]
fn let_mounts_go(
    gates: &GateWords,
    seat: &mut GhostSeat,
    accesses: &Accesses,
    remount: Remount,
    mut held: MountSet,
)
    requires { Stands gates.now None (Go (remounting_at remount (let_go held))) accesses.now seat.old }
    ensures { Led gates.now None (Go (remounting_at remount (let_go held))) accesses.now seat.old (Go (remounting_at remount (ClearsMark 1)))
        accesses.now seat.new }
{
    while held.bits != 0 {
        let step = RemountStep::ClearsHold { held };
        let here = Remount { step, ..remount };
        let word = WordName::MountFlags(held.lowest());
        let release = Touch::And(!MountFlags::HOLD.bits());
        let _cleared = find(gates, seat, accesses, here, word, release);
        held = held.without_lowest();
    }
}

/// Clears the dirty mark of one node after the other; the root has none.
#[inline(always)]
fn clean(gates: &GateWords, seat: &mut GhostSeat, accesses: &Accesses, remount: Remount)
    requires { Stands gates.now None (Go (remounting_at remount (ClearsMark 1))) accesses.now seat.old }
    ensures { Led gates.now None (Go (remounting_at remount (ClearsMark 1))) accesses.now seat.old (Go (remounting_at remount SetsReadOnly))
        accesses.now seat.new }
{
    let mut node = 1u8;
    loop {
        let step = RemountStep::ClearsMark { node };
        let here = Remount { step, ..remount };
        let clean = Touch::And(!NodeWord::DIRTY);
        let _cleaned = find(gates, seat, accesses, here, WordName::Node(node), clean);
        match following(node, remount.nodes) {
            Some(next) => node = next,
            None => return,
        }
    }
}

/// Gives `umount` back: the remount is done.
#[inline(always)]
fn release(
    gates: &GateWords,
    seat: &mut GhostSeat,
    accesses: &Accesses,
    remount: Remount,
) -> Next<Remount>
    requires { Stands gates.now None (Go (remounting_at remount done_remount)) accesses.now seat.old }
    ensures { Led gates.now None (Go (remounting_at remount done_remount)) accesses.now seat.old (of_remount result) accesses.now seat.new }
{
    let step = RemountStep::Releases(Ok(Reply::Unit));
    let here = Remount { step, ..remount };
    let free = Touch::Store(0);
    let _freed = find(gates, seat, accesses, here, WordName::Umount, free);
    Next::Done(Ok(Reply::Unit))
}

/// Goes on where the marks are cleared: asks for `reconfigure`, and ends the remount to read-only.
#[inline(always)]
fn end_read_only<H: TimedHooks>(
    gates: &GateWords,
    seat: &mut GhostSeat,
    accesses: &Accesses,
    remount: Remount,
    hooks: &mut H,
) -> Next<Remount>
    requires { Stands gates.now None (Go (remounting_at remount SetsReadOnly)) accesses.now seat.old }
    ensures { LedAsking H.answers gates.now None (Go (remounting_at remount SetsReadOnly)) accesses.now seat.old hooks.old (of_remount result)
        accesses.now seat.new hooks.new }
{
    let read_only = remount.read_only;
    let step = RemountStep::SetsReadOnly;
    let here = Remount { step, ..remount };
    let call = HookCall::Reconfigure { read_only };
    let answer = find_asking(gates, seat, accesses, here, hooks, call);
    if let Err(code) = answer {
        let step = RemountStep::Releases(Err(GateError::Hook(code)));
        return Next::Go(Remount { step, ..remount });
    }
    let step = RemountStep::ClearsRemount;
    let here = Remount { step, ..remount };
    let clear = Touch::Store(0);
    let _cleared = find(gates, seat, accesses, here, WordName::Remount, clear);
    release(gates, seat, accesses, remount)
}

/// Goes on where each sum was 0: sees again that no file is removed and still open, and sets `remount`.
#[inline(always)]
fn bar_writers<H: TimedHooks>(
    gates: &GateWords,
    seat: &mut GhostSeat,
    accesses: &Accesses,
    remount: Remount,
    held: MountSet,
    hooks: &mut H,
) -> Next<Remount>
    requires { Stands gates.now None (Go (remounting_at remount (LoadsRemovedAgain held))) accesses.now seat.old }
    ensures { LedAsking H.answers gates.now None (Go (remounting_at remount (LoadsRemovedAgain held))) accesses.now seat.old hooks.old
        (of_remount result) accesses.now seat.new hooks.new }
{
    let step = RemountStep::LoadsRemovedAgain { held };
    let here = Remount { step, ..remount };
    let removed = find(gates, seat, accesses, here, WordName::Removed, Touch::Load);
    if removed != 0 {
        return leave(remount, RemountStep::LoadsRemovedAgain { held }, removed);
    }
    let step = RemountStep::SetsRemount { held };
    let here = Remount { step, ..remount };
    let bar = Touch::Store(1);
    let _stored = find(gates, seat, accesses, here, WordName::Remount, bar);
    let_mounts_go(gates, seat, accesses, remount, held);
    clean(gates, seat, accesses, remount);
    end_read_only(gates, seat, accesses, remount, hooks)
}

/// Goes on with a remount to read-only of a superblock that is writable.
#[inline(always)]
fn make_read_only<H: TimedHooks>(
    gates: &GateWords,
    seat: &mut GhostSeat,
    accesses: &Accesses,
    remount: Remount,
    hooks: &mut H,
) -> Next<Remount>
    requires { Stands gates.now None (Go (remounting_at remount LoadsRemoved)) accesses.now seat.old }
    ensures { LedAsking H.answers gates.now None (Go (remounting_at remount LoadsRemoved)) accesses.now seat.old hooks.old (of_remount result)
        accesses.now seat.new hooks.new }
{
    let step = RemountStep::LoadsRemoved;
    let here = Remount { step, ..remount };
    let removed = find(gates, seat, accesses, here, WordName::Removed, Touch::Load);
    if removed != 0 {
        return leave(remount, RemountStep::LoadsRemoved, removed);
    }
    let mut rest = Next::Done(Ok(Reply::Unit));
    let Some(held) = hold_mounts(gates, seat, accesses, remount, &mut rest) else {
        return rest;
    };
    bar_writers(gates, seat, accesses, remount, held, hooks)
}

/// Goes on with a remount to writable of a superblock that is read-only: asks for `reconfigure`.
#[inline(always)]
fn make_writable<H: TimedHooks>(
    gates: &GateWords,
    seat: &mut GhostSeat,
    accesses: &Accesses,
    remount: Remount,
    hooks: &mut H,
) -> Next<Remount>
    requires { Stands gates.now None (Go (remounting_at remount SetsWritable)) accesses.now seat.old }
    ensures { LedAsking H.answers gates.now None (Go (remounting_at remount SetsWritable)) accesses.now seat.old hooks.old (of_remount result)
        accesses.now seat.new hooks.new }
{
    let read_only = remount.read_only;
    let step = RemountStep::SetsWritable;
    let here = Remount { step, ..remount };
    let call = HookCall::Reconfigure { read_only };
    let answer = find_asking(gates, seat, accesses, here, hooks, call);
    if let Err(code) = answer {
        return Next::Done(Err(GateError::Hook(code)));
    }
    release(gates, seat, accesses, remount)
}

/// Goes on from the load of the stage, with `umount` taken. What comes after the last step that stands in the line.
#[inline(never)]
pub fn remount_locked<H: TimedHooks>(
    gates: &GateWords,
    seat: &mut GhostSeat,
    accesses: &Accesses,
    remount: Remount,
    hooks: &mut H,
) -> Next<Remount>
    requires { Stands gates.now None (Go (remounting_at remount LoadsStage)) accesses.now seat.old }
    ensures { LedAsking H.answers gates.now None (Go (remounting_at remount LoadsStage)) accesses.now seat.old hooks.old (of_remount result)
        accesses.now seat.new hooks.new }
{
    let step = RemountStep::LoadsStage;
    let here = Remount { step, ..remount };
    let stage = find(gates, seat, accesses, here, WordName::Stage, Touch::Load);
    if stage != 0 {
        return leave(remount, RemountStep::LoadsStage, stage);
    }
    let step = RemountStep::LoadsSuperblock;
    let here = Remount { step, ..remount };
    let flags = find(gates, seat, accesses, here, WordName::SbFlags, Touch::Load);
    if remount.read_only {
        if flags != 0 {
            return release(gates, seat, accesses, remount);
        }
        return make_read_only(gates, seat, accesses, remount, hooks);
    }
    if flags == 0 {
        return release(gates, seat, accesses, remount);
    }
    make_writable(gates, seat, accesses, remount, hooks)
}

/// Remounts, from the first step on. What comes after the last one that stands in the line.
#[inline(always)]
pub fn remount_first<H: TimedHooks>(
    gates: &GateWords,
    seat: &mut GhostSeat,
    accesses: &Accesses,
    op: Op,
    remount: Remount,
    hooks: &mut H,
) -> Next<Remount>
    requires { Stands gates.now (Some op) (Go (remounting_at remount Locks)) accesses.now seat.old }
    ensures { LedAsking H.answers gates.now (Some op) (Go (remounting_at remount Locks)) accesses.now seat.old hooks.old (of_remount result)
        accesses.now seat.new hooks.new }
{
    let step = RemountStep::Locks;
    let locks = Remount { step, ..remount };
    let put = u64::from(remount.task) + 1;
    let touch = Touch::Cas { expect: 0, put };
    let taken = find_first(gates, seat, accesses, op, locks, WordName::Umount, touch);
    if taken != 0 {
        return leave(remount, RemountStep::Locks, taken);
    }
    remount_locked(gates, seat, accesses, remount, hooks)
}
