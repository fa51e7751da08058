//! Operations done to their end, step after step, each in the form of its own kind, with nothing written down in between.

ghost use Rattle.std.specs.Prelude.{Some, None};
ghost use Rattle.access_model.specs.Replies.{map_next};
ghost use Rattle.access_model.specs.declared.replies.Next.TheVariants.{Done, Go};
ghost use Rattle.gate_world.specs.declared.operations.Op.{Op as OpType};
ghost use Rattle.gate_steps.specs.call_events.Led.{Stands, StaysSeated, seated_at};
ghost use Rattle.gate_steps.specs.call_events.SeatedTasks.{SeatedTask};
ghost use Rattle.gate_steps.specs.call_events.Runs.{Called, OpUnderWay, IsTrying};
ghost use Rattle.gate_steps.specs.call_events.Asking.{CalledAsking, OpUnderWayAsking, OpAfterStepAsking};

use crate::backoff::Backoff;
use crate::lines::LinedOp;
use crate::operations::{go_on_in_line, step_asking};
use access_model::{GateError, Next, Reply};
use gate_steps::call_events::{GateWords, GhostSeat, StepResult, TimedHooks, do_event};
use gate_transitions::PendingOp;
use gate_world::{Accesses, Op};
use std::sync::Wait;

/// Does the steps of an operation that has a most number of them and asks no hook, from its first to its reply.
#[inline(never)]
pub fn run_to_reply<P: PendingOp>(
    gates: &GateWords,
    seat: &mut GhostSeat,
    accesses: &mut Accesses,
    op: Op,
    first: P,
) -> Result<Reply, GateError>
    requires stands { Stands gates.now (Some op) (Go (P.as_phase first)) accesses.old seat.old }
    requires trying { IsTrying (seated_at gates.now (Some op) (Go (P.as_phase first)) seat.old) }
    ensures seated { StaysSeated gates.now (Some op) (Go (P.as_phase first)) accesses.old seat.old (Done result) accesses.new seat.new }
    ensures called { (of : OpType) (start : SeatedTask) →
        OpUnderWay of start (seated_at gates.now (Some op) (Go (P.as_phase first)) seat.old) →
        Called of start (seated_at gates.now None (Done result) seat.new) result }
{
    let mut begins = Some(op);
    let mut under_way = first;
    loop {
        let StepResult {
            event: _,
            action: _,
            next,
        } = do_event(gates, seat, accesses, begins, under_way, Ok(()));
        begins = None;
        under_way = match next {
            Next::Done(answer) => return answer,
            Next::Go(further) | Next::Wait(further) => further,
        };
    }
}

/// Goes on with an operation to its reply, however long it has to wait. A hook of the file system is asked once, right before the step that
/// reads its answer. After a step that found what the operation waits for it pauses, and the longer the more often one did (`Backoff`): so a
/// freeze that has found somebody pauses first, and asks then whether to wait. A wait may take several steps before it looks again, so none of
/// these makes the pauses short again. It tells how many steps did.
#[cold]
#[inline(never)]
fn step_waiting<R: Wait, H: TimedHooks, P: LinedOp>(
    rt: &R,
    gates: &GateWords,
    seat: &mut GhostSeat,
    accesses: &mut Accesses,
    begun: Next<P>,
    hooks: &mut H,
) -> (Result<Reply, GateError>, u64)
    requires { Stands gates.now None (map_next P.as_phase begun) accesses.old seat.old }
    ensures seated { StaysSeated gates.now None (map_next P.as_phase begun) accesses.old seat.old (Done result.0) accesses.new seat.new }
    ensures called { (of : OpType) (start : SeatedTask) (before : H) →
        OpAfterStepAsking H.answers 0 of start before (map_next P.as_phase begun) (seated_at gates.now None (map_next P.as_phase begun) seat.old)
        hooks.old →
        CalledAsking H.answers of start before (seated_at gates.now None (Done result.0) seat.new) result.0 result.1 hooks.new }
{
    let mut backoff = Backoff::new();
    let mut waited: u64 = 0;
    let mut next = begun;
    for _ in rt.forever() {
        let under_way = match next {
            Next::Done(answer) => return (answer, waited),
            Next::Go(further) => further,
            Next::Wait(further) => {
                waited = waited.saturating_add(1);
                backoff.snooze(rt);
                further
            }
        };
        let after = step_asking(gates, seat, accesses, under_way, hooks);
        next = go_on_in_line(gates, seat, accesses, after, hooks);
    }
    unreachable!()
}

/// Does the steps of an operation from its first to its reply, however long it has to wait, and tells how many steps found what it waits for.
/// Where its line leads to the reply, nothing of it is written to memory.
#[inline(always)]
pub fn wait_for_reply<R: Wait, H: TimedHooks, P: LinedOp>(
    rt: &R,
    gates: &GateWords,
    seat: &mut GhostSeat,
    accesses: &mut Accesses,
    op: Op,
    first: P,
    hooks: &mut H,
) -> (Result<Reply, GateError>, u64)
    requires { Stands gates.now (Some op) (Go (P.as_phase first)) accesses.old seat.old }
    ensures seated { StaysSeated gates.now (Some op) (Go (P.as_phase first)) accesses.old seat.old (Done result.0) accesses.new seat.new }
    ensures called { (of : OpType) (start : SeatedTask) (before : H) →
        OpUnderWayAsking H.answers 0 of start before (seated_at gates.now (Some op) (Go (P.as_phase first)) seat.old) hooks.old →
        CalledAsking H.answers of start before (seated_at gates.now None (Done result.0) seat.new) result.0 result.1 hooks.new }
{
    let next = first.begin_in_line(gates, seat, accesses, op, hooks);
    if let Next::Done(answer) = next {
        return (answer, 0);
    }
    step_waiting(rt, gates, seat, accesses, next, hooks)
}
