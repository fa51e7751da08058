//! A start at a level, in a line.

ghost use Rattle.std.specs.Prelude.{None};
ghost use Rattle.gate_steps.specs.call_events.Led.{Led, Stands};
ghost use Rattle.call_ends.specs.Paths.{of_read};

use crate::lines::{Checkpointed, LinedOp, step_if_at};
use access_model::Next;
use freeze_levels::HookCall;
use gate_steps::call_events::{GateWords, GhostSeat, TimedHooks, step_once};
use gate_world::{Accesses, Op};
use percpu_rwsem::{DownRead, DownReadStep};

impl Checkpointed for DownRead {
    type Place = DownReadStep;

    #[inline(always)]
    fn is_at(&self, place: DownReadStep) -> bool {
        self.step == place
    }
}

/// Takes a start that finds its level idle to its end, in a line: the load of its sync word, its count, and the end of its section.
#[inline]
fn count_in_line(
    gates: &GateWords,
    seat: &mut GhostSeat,
    accesses: &mut Accesses,
    next: Next<DownRead>,
) -> Next<DownRead>
    requires { Stands gates.now None (of_read next) accesses.old seat.old }
    ensures { Led gates.now None (of_read next) accesses.old seat.old (of_read result) accesses.new seat.new }
{
    let next = step_if_at(gates, seat, accesses, next, DownReadStep::LoadsSync);
    let next = step_if_at(gates, seat, accesses, next, DownReadStep::CountsUpFast);
    step_if_at(gates, seat, accesses, next, DownReadStep::LeavesAdmitted)
}

impl LinedOp for DownRead {
    #[inline(always)]
    fn asks(&self) -> Option<HookCall> {
        None
    }

    /// Does the first step of a start, and those that stand in a line with it.
    #[inline(always)]
    fn begin_in_line<H: TimedHooks>(
        self,
        gates: &GateWords,
        seat: &mut GhostSeat,
        accesses: &mut Accesses,
        op: Op,
        hooks: &mut H,
    ) -> Next<DownRead> {
        let _hooks = &*hooks;
        let next = step_once(gates, seat, accesses, Some(op), self, Ok(()));
        count_in_line(gates, seat, accesses, next)
    }
}
