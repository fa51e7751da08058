//! One step of an operation outside its line; which steps of a freeze, a thaw, a remount and a
//! callback stand in lines; and the operations of which none does.

ghost use Rattle.std.specs.Prelude.{None};
ghost use Rattle.access_model.specs.Replies.{map_next};
ghost use Rattle.access_model.specs.declared.replies.Next.TheVariants.{Go};
ghost use Rattle.gate_world.specs.declared.work.Phase.TheVariants.{Callbacks, Freezes, Remounts, Thaws};
ghost use Rattle.call_ends.specs.CallingBack.{of_callback};
ghost use Rattle.call_ends.specs.Closings.{of_freeze};
ghost use Rattle.gate_steps.specs.call_events.Led.{Led, LedAsking, Stands};
ghost use Rattle.call_ends.specs.Remounting.{of_remount};
ghost use Rattle.call_ends.specs.Reopenings.{of_thaw};

use crate::callbacks::{callback_first, run_callback};
use crate::freeze_lines::{close_second, end_freeze, freeze_first, freeze_locked, go_on_level};
use crate::lines::LinedOp;
use crate::remount_lines::{remount_first, remount_locked};
use crate::thaw_lines::{reopen_all, thaw_first, thaw_locked};
use access_model::{Next, Reply};
use freeze_levels::{Freeze, FreezeStep, HookCall, Thaw, ThawStep};
use gate_steps::call_events::{GateWords, GhostSeat, TimedHooks, step_once};
use gate_transitions::PendingOp;
use gate_world::{Accesses, Op};
use mount_counts::{MountPhase, Remount, RemountStep};
use percpu_rwsem::{Callback, CallbackStep, DownWrite, UpRead};

/// Does the next step of an operation. What comes after it. Where it reads what a hook answers, that hook is asked right before it.
#[inline(always)]
pub(crate) fn step_asking<P: LinedOp, H: TimedHooks>(
    gates: &GateWords,
    seat: &mut GhostSeat,
    accesses: &mut Accesses,
    under_way: P,
    hooks: &mut H,
) -> Next<P>
    requires { Stands gates.now None (Go (P.as_phase under_way)) accesses.old seat.old }
    ensures { LedAsking H.answers gates.now None (Go (P.as_phase under_way)) accesses.old seat.old hooks.old (map_next P.as_phase result)
        accesses.new seat.new hooks.new }
{
    let hook = match under_way.asks() {
        Some(call) => hooks.ask(call, seat),
        None => Ok(()),
    };
    step_once(gates, seat, accesses, None, under_way, hook)
}

/// The line of an operation, where it goes on.
#[inline(always)]
pub(crate) fn go_on_in_line<P: LinedOp, H: TimedHooks>(
    gates: &GateWords,
    seat: &mut GhostSeat,
    accesses: &mut Accesses,
    next: Next<P>,
    hooks: &mut H,
) -> Next<P>
    requires { Stands gates.now None (map_next P.as_phase next) accesses.old seat.old }
    ensures { LedAsking H.answers gates.now None (map_next P.as_phase next) accesses.old seat.old hooks.old (map_next P.as_phase result)
        accesses.new seat.new hooks.new }
{
    match next {
        Next::Go(under_way) => under_way.run_fast_path(gates, seat, accesses, hooks),
        Next::Wait(under_way) => Next::Wait(under_way),
        Next::Done(answer) => Next::Done(answer),
    }
}

impl LinedOp for MountPhase {
    #[inline(always)]
    fn asks(&self) -> Option<HookCall> {
        None
    }

    #[inline(always)]
    fn begin_in_line<H: TimedHooks>(
        self,
        gates: &GateWords,
        seat: &mut GhostSeat,
        accesses: &mut Accesses,
        op: Op,
        hooks: &mut H,
    ) -> Next<MountPhase> {
        let _hooks = &*hooks;
        step_once(gates, seat, accesses, Some(op), self, Ok(()))
    }
}

impl LinedOp for UpRead {
    #[inline(always)]
    fn asks(&self) -> Option<HookCall> {
        None
    }

    #[inline(always)]
    fn begin_in_line<H: TimedHooks>(
        self,
        gates: &GateWords,
        seat: &mut GhostSeat,
        accesses: &mut Accesses,
        op: Op,
        hooks: &mut H,
    ) -> Next<UpRead> {
        let _hooks = &*hooks;
        step_once(gates, seat, accesses, Some(op), self, Ok(()))
    }
}

impl LinedOp for Freeze {
    #[inline(always)]
    fn asks(&self) -> Option<HookCall> {
        match self.step {
            FreezeStep::SetsFs => Some(HookCall::Sync),
            FreezeStep::SetsComplete => Some(HookCall::FreezeFs),
            FreezeStep::Waits(DownWrite { level, .. }) => { Some(HookCall::KeepWaiting { level }) }
            _ => None,
        }
    }

    #[inline(always)]
    fn begin_in_line<H: TimedHooks>(
        self,
        gates: &GateWords,
        seat: &mut GhostSeat,
        accesses: &mut Accesses,
        op: Op,
        hooks: &mut H,
    ) -> Next<Freeze> {
        freeze_first(gates, seat, accesses, op, &self, hooks)
    }

    #[inline(always)]
    fn run_fast_path<H: TimedHooks>(
        self,
        gates: &GateWords,
        seat: &mut GhostSeat,
        accesses: &mut Accesses,
        hooks: &mut H,
    ) -> Next<Freeze> {
        freeze_in_line(gates, seat, accesses, self, hooks)
    }
}

impl LinedOp for Thaw {
    #[inline(always)]
    fn asks(&self) -> Option<HookCall> {
        match self.step {
            ThawStep::LeavesLast => Some(HookCall::UnfreezeFs),
            _ => None,
        }
    }

    #[inline(always)]
    fn begin_in_line<H: TimedHooks>(
        self,
        gates: &GateWords,
        seat: &mut GhostSeat,
        accesses: &mut Accesses,
        op: Op,
        hooks: &mut H,
    ) -> Next<Thaw> {
        thaw_first(gates, seat, accesses, op, self, hooks)
    }

    #[inline(always)]
    fn run_fast_path<H: TimedHooks>(
        self,
        gates: &GateWords,
        seat: &mut GhostSeat,
        accesses: &mut Accesses,
        hooks: &mut H,
    ) -> Next<Thaw> {
        thaw_in_line(gates, seat, accesses, self, hooks)
    }
}

impl LinedOp for Remount {
    #[inline(always)]
    fn asks(&self) -> Option<HookCall> {
        let read_only = self.read_only;
        match self.step {
            RemountStep::SetsWritable | RemountStep::SetsReadOnly => {
                Some(HookCall::Reconfigure { read_only })
            }
            _ => None,
        }
    }

    #[inline(always)]
    fn begin_in_line<H: TimedHooks>(
        self,
        gates: &GateWords,
        seat: &mut GhostSeat,
        accesses: &mut Accesses,
        op: Op,
        hooks: &mut H,
    ) -> Next<Remount> {
        remount_first(gates, seat, accesses, op, self, hooks)
    }

    #[inline(always)]
    fn run_fast_path<H: TimedHooks>(
        self,
        gates: &GateWords,
        seat: &mut GhostSeat,
        accesses: &mut Accesses,
        hooks: &mut H,
    ) -> Next<Remount> {
        remount_in_line(gates, seat, accesses, self, hooks)
    }
}

impl LinedOp for Callback {
    #[inline(always)]
    fn asks(&self) -> Option<HookCall> {
        None
    }

    #[inline(always)]
    fn begin_in_line<H: TimedHooks>(
        self,
        gates: &GateWords,
        seat: &mut GhostSeat,
        accesses: &mut Accesses,
        op: Op,
        hooks: &mut H,
    ) -> Next<Callback> {
        let _hooks = &*hooks;
        callback_first(gates, seat, accesses, op, self.level, self.tasks)
    }

    #[inline(always)]
    fn run_fast_path<H: TimedHooks>(
        self,
        gates: &GateWords,
        seat: &mut GhostSeat,
        accesses: &mut Accesses,
        hooks: &mut H,
    ) -> Next<Callback> {
        let _hooks = &*hooks;
        callback_in_line(gates, seat, accesses, self)
    }
}

/// The line of a thaw from where it stands.
#[inline(always)]
fn thaw_in_line<H: TimedHooks>(
    gates: &GateWords,
    seat: &mut GhostSeat,
    accesses: &Accesses,
    thaw: Thaw,
    hooks: &mut H,
) -> Next<Thaw>
    requires { Stands gates.now None (Go (Thaws thaw)) accesses.now seat.old }
    ensures { LedAsking H.answers gates.now None (Go (Thaws thaw)) accesses.now seat.old hooks.old (of_thaw result) accesses.now seat.new
        hooks.new }
{
    match thaw.step {
        ThawStep::LoadsStage => thaw_locked(gates, seat, accesses, thaw, hooks),
        ThawStep::SetsUnfrozen => reopen_all(gates, seat, accesses, thaw),
        _ => Next::Go(thaw),
    }
}

/// The line of a remount from where it stands.
#[inline(always)]
fn remount_in_line<H: TimedHooks>(
    gates: &GateWords,
    seat: &mut GhostSeat,
    accesses: &Accesses,
    remount: Remount,
    hooks: &mut H,
) -> Next<Remount>
    requires { Stands gates.now None (Go (Remounts remount)) accesses.now seat.old }
    ensures { LedAsking H.answers gates.now None (Go (Remounts remount)) accesses.now seat.old hooks.old (of_remount result) accesses.now
        seat.new hooks.new }
{
    match remount.step {
        RemountStep::LoadsStage => remount_locked(gates, seat, accesses, remount, hooks),
        _ => Next::Go(remount),
    }
}

/// The line of a callback from where it stands.
#[inline(always)]
fn callback_in_line(
    gates: &GateWords,
    seat: &mut GhostSeat,
    accesses: &Accesses,
    callback: Callback,
) -> Next<Callback>
    requires { Stands gates.now None (Go (Callbacks callback)) accesses.now seat.old }
    ensures { Led gates.now None (Go (Callbacks callback)) accesses.now seat.old (of_callback result) accesses.now seat.new }
{
    match callback.step {
        CallbackStep::AwaitsSections(grace) => {
            let Callback { level, tasks, .. } = callback;
            let mut rest = Next::Done(Ok(Reply::Ran(true)));
            if run_callback(gates, seat, accesses, level, tasks, grace, &mut rest) {
                return Next::Done(Ok(Reply::Ran(true)));
            }
            rest
        }
        CallbackStep::Claims(_) | CallbackStep::CallsBack(_) => Next::Go(callback),
    }
}

/// The line of a freeze from where it stands.
#[inline(always)]
fn freeze_in_line<H: TimedHooks>(
    gates: &GateWords,
    seat: &mut GhostSeat,
    accesses: &Accesses,
    freeze: Freeze,
    hooks: &mut H,
) -> Next<Freeze>
    requires { Stands gates.now None (Go (Freezes freeze)) accesses.now seat.old }
    ensures { LedAsking H.answers gates.now None (Go (Freezes freeze)) accesses.now seat.old hooks.old (of_freeze result) accesses.now seat.new
        hooks.new }
{
    match freeze.step {
        FreezeStep::LoadsStage => freeze_locked(gates, seat, accesses, &freeze, hooks),
        FreezeStep::Closes(write) => go_on_level(gates, seat, accesses, &freeze, write, hooks),
        FreezeStep::SetsPageFault => close_second(gates, seat, accesses, &freeze, hooks),
        FreezeStep::Holds(beside) => end_freeze(gates, seat, accesses, &freeze, beside),
        _ => Next::Go(freeze),
    }
}
