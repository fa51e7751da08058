//! A want of an access at a mount, in a line.

ghost use Rattle.std.specs.Prelude.{None};
ghost use Rattle.gate_steps.specs.call_events.Led.{Led, Stands};
ghost use Rattle.call_ends.specs.Paths.{of_want};

use crate::lines::{Checkpointed, LinedOp, step_if_at};
use access_model::Next;
use freeze_levels::HookCall;
use gate_steps::call_events::{GateWords, GhostSeat, TimedHooks, step_once};
use gate_world::{Accesses, Op};
use mount_counts::{Want, WantStep};

impl Checkpointed for Want {
    type Place = WantStep;

    #[inline(always)]
    fn is_at(&self, place: WantStep) -> bool {
        self.step == place
    }
}

/// The last three steps of a want that finds nothing in its way, in a line: whether the mount may be written. What comes after the last
/// of them. They are a function of their own since the compiler takes no hint for one that five steps stand in, and calls it.
#[inline]
fn ask_in_line(
    gates: &GateWords,
    seat: &mut GhostSeat,
    accesses: &mut Accesses,
    next: Next<Want>,
) -> Next<Want>
    requires { Stands gates.now None (of_want next) accesses.old seat.old }
    ensures { Led gates.now None (of_want next) accesses.old seat.old (of_want result) accesses.new seat.new }
{
    let next = step_if_at(gates, seat, accesses, next, WantStep::LoadsRemount);
    let next = step_if_at(gates, seat, accesses, next, WantStep::LoadsReadOnly);
    step_if_at(gates, seat, accesses, next, WantStep::LoadsSuperblock)
}

impl LinedOp for Want {
    #[inline(always)]
    fn asks(&self) -> Option<HookCall> {
        None
    }

    /// Does the first step of a want, and those that stand in a line with it.
    #[inline(always)]
    fn begin_in_line<H: TimedHooks>(
        self,
        gates: &GateWords,
        seat: &mut GhostSeat,
        accesses: &mut Accesses,
        op: Op,
        hooks: &mut H,
    ) -> Next<Want> {
        let _hooks = &*hooks;
        let next = step_once(gates, seat, accesses, Some(op), self, Ok(()));
        let next = step_if_at(gates, seat, accesses, next, WantStep::LoadsHold);
        ask_in_line(gates, seat, accesses, next)
    }
}
