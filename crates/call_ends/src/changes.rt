//! The steps of a change of a mount, in a line: its beginning, the sum of the mount's counts, its end.

ghost use Rattle.std.specs.Prelude.{Some, None};
ghost use Rattle.access_model.specs.declared.replies.Next.TheVariants.{Go};
ghost use Rattle.gate_world.specs.declared.work.Phase.TheVariants.{Mounts};
ghost use Rattle.mount_counts.specs.declared.phases.MountPhase.TheVariants.{Change as Changes};
ghost use Rattle.gate_steps.specs.call_events.Led.{Led, Stands};
ghost use Rattle.call_ends.specs.Paths.{of_change};

use crate::lines::{Checkpointed, LinedOp, step_if_at};
use access_model::Next;
use freeze_levels::HookCall;
use gate_steps::call_events::{GateWords, GhostSeat, TimedHooks, step_once};
use gate_world::{Accesses, Op};
use mount_counts::{Change, ChangeStep};

/// A place in the line of a change.
#[derive(Clone, Copy)]
pub(crate) enum ChangePlace {
    LoadsFlags,
    LoadsSuperblock,
    SetsHold,
    Sums,
    SetsReadOnly,
    ClearsHold,
    ClearsReadOnly,
    Releases,
}

impl Checkpointed for Change {
    type Place = ChangePlace;

    #[inline(always)]
    fn is_at(&self, place: ChangePlace) -> bool {
        match self.step {
            ChangeStep::Locks => false,
            ChangeStep::LoadsFlags => matches!(place, ChangePlace::LoadsFlags),
            ChangeStep::LoadsSuperblock => matches!(place, ChangePlace::LoadsSuperblock),
            ChangeStep::ClearsReadOnly => matches!(place, ChangePlace::ClearsReadOnly),
            ChangeStep::SetsHold => matches!(place, ChangePlace::SetsHold),
            ChangeStep::Sums(_) => matches!(place, ChangePlace::Sums),
            ChangeStep::SetsReadOnly => matches!(place, ChangePlace::SetsReadOnly),
            ChangeStep::ClearsHold(_) => matches!(place, ChangePlace::ClearsHold),
            ChangeStep::Releases(_) => matches!(place, ChangePlace::Releases),
        }
    }
}

/// The steps up to the one that holds writers off, or up to what stands in its way. What comes after the last of them.
#[inline]
fn begin_change(
    gates: &GateWords,
    seat: &mut GhostSeat,
    accesses: &mut Accesses,
    op: Op,
    change: Change,
) -> Next<Change>
    requires { Stands gates.now (Some op) (Go (Mounts (Changes change))) accesses.old seat.old }
    ensures { Led gates.now (Some op) (Go (Mounts (Changes change))) accesses.old seat.old (of_change result) accesses.new seat.new }
{
    let next = step_once(gates, seat, accesses, Some(op), change, Ok(()));
    let next = step_if_at(gates, seat, accesses, next, ChangePlace::LoadsFlags);
    let next = step_if_at(gates, seat, accesses, next, ChangePlace::LoadsSuperblock);
    step_if_at(gates, seat, accesses, next, ChangePlace::SetsHold)
}

/// The loads of the mount's counts, one word of so many after the other. What comes after the last of them.
#[inline]
fn add_counts(
    gates: &GateWords,
    seat: &mut GhostSeat,
    accesses: &mut Accesses,
    mut next: Next<Change>,
    processors: u8,
) -> Next<Change>
    requires { Stands gates.now None (of_change next) accesses.old seat.old }
    ensures { Led gates.now None (of_change next) accesses.old seat.old (of_change result) accesses.new seat.new }
{
    for _cpu in 0..processors {
        next = step_if_at(gates, seat, accesses, next, ChangePlace::Sums);
    }
    next
}

/// The steps after the sum: the mount is shut, where it was 0, and writers are let in again; or the mount is opened. Then `umount` is
/// given back. What comes after the last of them.
#[inline]
fn end_change(
    gates: &GateWords,
    seat: &mut GhostSeat,
    accesses: &mut Accesses,
    next: Next<Change>,
) -> Next<Change>
    requires { Stands gates.now None (of_change next) accesses.old seat.old }
    ensures { Led gates.now None (of_change next) accesses.old seat.old (of_change result) accesses.new seat.new }
{
    let next = step_if_at(gates, seat, accesses, next, ChangePlace::SetsReadOnly);
    let next = step_if_at(gates, seat, accesses, next, ChangePlace::ClearsHold);
    let next = step_if_at(gates, seat, accesses, next, ChangePlace::ClearsReadOnly);
    step_if_at(gates, seat, accesses, next, ChangePlace::Releases)
}

impl LinedOp for Change {
    #[inline(always)]
    fn asks(&self) -> Option<HookCall> {
        None
    }

    /// Does the first step of a change, and those that stand in a line with it.
    #[inline(always)]
    fn begin_in_line<H: TimedHooks>(
        self,
        gates: &GateWords,
        seat: &mut GhostSeat,
        accesses: &mut Accesses,
        op: Op,
        hooks: &mut H,
    ) -> Next<Change> {
        let _hooks = &*hooks;
        let processors = self.processors;
        let next = begin_change(gates, seat, accesses, op, self);
        let next = add_counts(gates, seat, accesses, next, processors);
        end_change(gates, seat, accesses, next)
    }
}
