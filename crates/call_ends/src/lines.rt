//! The trait of an operation whose usual steps stand in a line, and what a line is made of: steps,
//! each done only where the operation stands at a place.

ghost use Rattle.std.specs.Prelude.{None};
ghost use Rattle.access_model.specs.Replies.{map_next};
ghost use Rattle.gate_steps.specs.call_events.Led.{Led, Stands};

use access_model::Next;
use freeze_levels::HookCall;
use gate_steps::call_events::{GateWords, GhostSeat, TimedHooks, step_once};
use gate_transitions::PendingOp;
use gate_world::{Accesses, Op};

/// An operation that asks no hook, and whose line goes on only where it finds it at a place.
pub(crate) trait Checkpointed: PendingOp {
    ghost use Rattle.std.specs.Prelude.{◌≡◌, None};
    ghost use Rattle.gate_steps.specs.call_events.Asking.{call_at};

    /// A place in the line.
    type Place: Copy;

    /// Whether the operation stands there.
    fn is_at(&self, place: Self::Place) -> bool
        ensures { call_at (Self.as_phase self.now) ≡ None };
}

/// The step that comes next, where the operation stands at this place; else nothing. What comes after it.
#[inline(always)]
pub(crate) fn step_if_at<P: Checkpointed>(
    gates: &GateWords,
    seat: &mut GhostSeat,
    accesses: &mut Accesses,
    next: Next<P>,
    place: P::Place,
) -> Next<P>
    requires { Stands gates.now None (map_next P.as_phase next) accesses.old seat.old }
    ensures { Led gates.now None (map_next P.as_phase next) accesses.old seat.old (map_next P.as_phase result) accesses.new seat.new }
{
    match next {
        Next::Go(under_way) => {
            let goes_on = under_way.is_at(place);
            if goes_on {
                step_once(gates, seat, accesses, None, under_way, Ok(()))
            } else {
                Next::Go(under_way)
            }
        }
        Next::Wait(under_way) => Next::Wait(under_way),
        Next::Done(answer) => Next::Done(answer),
    }
}

/// An operation under way, in a form of its own, some of whose steps stand in lines. A step that stands in none is done by a loop (`ends`).
pub trait LinedOp: PendingOp {
    ghost use Rattle.std.specs.Prelude.{◌≡◌, Some, None};
    ghost use Rattle.access_model.specs.Replies.{map_next};
    ghost use Rattle.access_model.specs.declared.replies.Next.TheVariants.{Go};
    ghost use Rattle.gate_steps.specs.call_events.Asking.{call_at};
    ghost use Rattle.gate_steps.specs.call_events.Led.{LedAsking, Stands};

    /// The hook whose answer the next step reads, with what it is asked.
    fn asks(&self) -> Option<HookCall>
        ensures { result ≡ call_at (Self.as_phase self.now) };

    /// Does the first step of the operation and those that stand in a line with it, up to what stands in their way. Each hook is asked right
    /// before the step that reads its answer. What comes after the last step.
    fn begin_in_line<H: TimedHooks>(
        self,
        gates: &GateWords,
        seat: &mut GhostSeat,
        accesses: &mut Accesses,
        op: Op,
        hooks: &mut H,
    ) -> Next<Self>
        requires { Stands gates.now (Some op) (Go (Self.as_phase self)) accesses.old seat.old }
        ensures { LedAsking H.answers gates.now (Some op) (Go (Self.as_phase self)) accesses.old seat.old hooks.old
            (map_next Self.as_phase result) accesses.new seat.new hooks.new };

    /// Does the steps that come next and stand in a line, up to what stands in their way; none where the operation stands at none of these.
    #[inline(always)]
    fn run_fast_path<H: TimedHooks>(
        self,
        gates: &GateWords,
        seat: &mut GhostSeat,
        accesses: &mut Accesses,
        hooks: &mut H,
    ) -> Next<Self>
        requires { Stands gates.now None (Go (Self.as_phase self)) accesses.old seat.old }
        ensures { LedAsking H.answers gates.now None (Go (Self.as_phase self)) accesses.old seat.old hooks.old (map_next Self.as_phase result)
            accesses.new seat.new hooks.new }
    {
        let _gates = gates;
        let _seat = &*seat;
        let _accesses = &*accesses;
        let _hooks = &*hooks;
        Next::Go(self)
    }
}
