//! The usual steps of a close that may wait, in a line: the load of the file's node, and the count
//! that is lowered.

use crate::lines::{Checkpointed, LinedOp, step_if_at};
use access_model::Next;
use composite_ops::ClosePhase;
use freeze_levels::HookCall;
use gate_steps::call_events::{GateWords, GhostSeat, TimedHooks, step_once};
use gate_world::{Accesses, Op};

impl Checkpointed for ClosePhase {
    type Place = ();

    #[inline(always)]
    fn is_at(&self, place: ()) -> bool {
        let () = place;
        matches!(self, ClosePhase::LowersCount { .. })
    }
}

impl LinedOp for ClosePhase {
    #[inline(always)]
    fn asks(&self) -> Option<HookCall> {
        None
    }

    /// Does the first step of a close, and the second if that lowers the count. Then the file stays
    /// for others, or for its directory. What comes after the last of them.
    #[inline(always)]
    fn begin_in_line<H: TimedHooks>(
        self,
        gates: &GateWords,
        seat: &mut GhostSeat,
        accesses: &mut Accesses,
        op: Op,
        hooks: &mut H,
    ) -> Next<ClosePhase> {
        let _hooks = &*hooks;
        let next = step_once(gates, seat, accesses, Some(op), self, Ok(()));
        step_if_at(gates, seat, accesses, next, ())
    }
}
