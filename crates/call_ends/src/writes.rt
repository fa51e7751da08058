//! A taking of write access, and its return, in a line.

ghost use Rattle.std.specs.Prelude.{◌≡◌, IsTrue, Some, None, Ok};
ghost use Rattle.access_model.specs.declared.replies.Next.TheVariants.{Done, Go};
ghost use Rattle.access_model.specs.declared.replies.Reply.TheVariants.{Unit as UnitReply};
ghost use Rattle.gate_world.specs.declared.operations.Op.TheVariants.{WantWrite};
ghost use Rattle.gate_world.specs.declared.work.Phase.TheVariants.{Writes};
ghost use Rattle.gate_steps.specs.call_events.Led.{Led, Stands};
ghost use Rattle.composite_ops.specs.declared.write_access.phases.WritePhase.TheVariants.{Drops};
ghost use Rattle.composite_ops.specs.write_access.Phases.{after};
ghost use Rattle.percpu_rwsem.specs.declared.readers.DownReadStep.TheVariants.{EntersSection, LoadsSync};
ghost use Rattle.call_ends.specs.Paths.{done_or, of_write, taking_at};

use crate::lines::{Checkpointed, LinedOp, step_if_at};
use access_model::{Next, Reply};
use composite_ops::WritePhase;
use cpu_words::{Touch, WordName};
use freeze_levels::HookCall;
use gate_steps::call_events::{GateWords, GhostSeat, TimedHooks, find, find_first, step_once};
use gate_world::{Accesses, Op};
use mount_counts::WantStep;
use percpu_rwsem::{DownRead, DownReadStep};

/// A place in the line of a taking or a return of write access.
#[derive(Clone, Copy)]
pub(crate) enum WritePlace {
    /// At its level, on the way in.
    Enters(DownReadStep),
    /// At its mount.
    Wants(WantStep),
    /// At its level, on the way out.
    Leaves,
}

impl Checkpointed for WritePhase {
    type Place = WritePlace;

    #[inline(always)]
    fn is_at(&self, place: WritePlace) -> bool {
        match place {
            WritePlace::Enters(step) => {
                matches!(self, WritePhase::Takes { read, .. } if read.step == step)
            }
            WritePlace::Wants(step) => matches!(self, WritePhase::Wants(want) if want.step == step),
            WritePlace::Leaves => matches!(self, WritePhase::Ends { .. }),
        }
    }
}

/// The steps of a taking of write access at its mount, in a line. What comes after the last of them.
#[inline(always)]
fn want_then(
    gates: &GateWords,
    seat: &mut GhostSeat,
    accesses: &mut Accesses,
    next: Next<WritePhase>,
) -> Next<WritePhase>
    requires { Stands gates.now None (of_write next) accesses.old seat.old }
    ensures { Led gates.now None (of_write next) accesses.old seat.old (of_write result) accesses.new seat.new }
{
    let place = WritePlace::Wants(WantStep::CountsUp);
    let next = step_if_at(gates, seat, accesses, next, place);
    let place = WritePlace::Wants(WantStep::LoadsHold);
    let next = step_if_at(gates, seat, accesses, next, place);
    let place = WritePlace::Wants(WantStep::LoadsRemount);
    let next = step_if_at(gates, seat, accesses, next, place);
    let place = WritePlace::Wants(WantStep::LoadsReadOnly);
    let next = step_if_at(gates, seat, accesses, next, place);
    let place = WritePlace::Wants(WantStep::LoadsSuperblock);
    step_if_at(gates, seat, accesses, next, place)
}

/// A taking of write access at this mount that stands at this step of its start.
#[inline(always)]
fn taking_at(mount: u8, cpu: u8, task: u8, step: DownReadStep) -> WritePhase
    ensures { result ≡ taking_at mount cpu task step }
{
    let read = DownRead {
        level: 1,
        cpu,
        task,
        wait: true,
        step,
    };
    WritePhase::Takes { mount, read }
}

/// Leaves in `rest` what comes after the load of a sync word that isn't idle. It stands apart, so that the usual steps are one straight
/// line of instructions.
#[cold]
#[inline(never)]
fn leave_at_sync(mount: u8, cpu: u8, task: u8, found: u64, rest: &mut Next<WritePhase>)
    ensures { rest.new ≡ (after (taking_at mount cpu task LoadsSync) found).0 }
{
    let (next, _action) = taking_at(mount, cpu, task, DownReadStep::LoadsSync).after(found);
    *rest = next;
}

/// Whether a taking of write access is done, and granted.
#[inline(always)]
fn is_granted(next: Next<WritePhase>) -> bool
    ensures { IsTrue result → next ≡ Done (Ok UnitReply) }
{
    matches!(next, Next::Done(Ok(Reply::Unit)))
}

/// The steps of a taking of write access that begins, in a line. Whether it is done. Where it isn't, what comes after the last of them is
/// left in `rest`: so the usual answer is one bit. It is handed numbers, which go into registers, and neither a phase nor an operation: an
/// atomic addition waits for each store to memory before it.
#[inline(never)]
fn take_write(
    gates: &GateWords,
    seat: &mut GhostSeat,
    accesses: &mut Accesses,
    mount: u8,
    cpu: u8,
    task: u8,
    rest: &mut Next<WritePhase>,
) -> bool
    requires { Stands gates.now (Some (WantWrite mount cpu)) (Go (Writes (taking_at mount cpu task EntersSection))) accesses.old seat.old }
    ensures { Led gates.now (Some (WantWrite mount cpu)) (Go (Writes (taking_at mount cpu task EntersSection))) accesses.old seat.old
        (of_write (done_or result rest.new)) accesses.new seat.new }
{
    let op = Op::WantWrite { mount, cpu };
    let phase = taking_at(mount, cpu, task, DownReadStep::EntersSection);
    let section = WordName::Section(task);
    let _section = find_first(gates, seat, accesses, op, phase, section, Touch::Add(1));
    let phase = taking_at(mount, cpu, task, DownReadStep::LoadsSync);
    let found = find(gates, seat, accesses, phase, WordName::Sync(1), Touch::Load);
    if found != 0 {
        leave_at_sync(mount, cpu, task, found, rest);
        return false;
    }
    let phase = taking_at(mount, cpu, task, DownReadStep::CountsUpFast);
    let next = step_once(gates, seat, accesses, None, phase, Ok(()));
    let place = WritePlace::Enters(DownReadStep::LeavesAdmitted);
    let next = step_if_at(gates, seat, accesses, next, place);
    let next = want_then(gates, seat, accesses, next);
    if is_granted(next) {
        return true;
    }
    *rest = next;
    false
}

/// The two steps of a return of write access. What comes after the last one.
#[inline]
fn give_in_line(
    gates: &GateWords,
    seat: &mut GhostSeat,
    accesses: &mut Accesses,
    op: Op,
    mount: u8,
    cpu: u8,
) -> Next<WritePhase>
    requires { Stands gates.now (Some op) (Go (Writes (Drops mount cpu))) accesses.old seat.old }
    ensures { Led gates.now (Some op) (Go (Writes (Drops mount cpu))) accesses.old seat.old (of_write result) accesses.new seat.new }
{
    let phase = WritePhase::Drops { mount, cpu };
    let next = step_once(gates, seat, accesses, Some(op), phase, Ok(()));
    step_if_at(gates, seat, accesses, next, WritePlace::Leaves)
}

/// Does the first step of a taking or a return of write access, and those that stand in a line with it.
#[inline(always)]
fn write_in_line(
    gates: &GateWords,
    seat: &mut GhostSeat,
    accesses: &mut Accesses,
    op: Op,
    phase: WritePhase,
) -> Next<WritePhase>
    requires { Stands gates.now (Some op) (Go (Writes phase)) accesses.old seat.old }
    ensures { Led gates.now (Some op) (Go (Writes phase)) accesses.old seat.old (of_write result) accesses.new seat.new }
{
    match phase {
        WritePhase::Takes { mount, read } => {
            let DownRead { cpu, task, .. } = read;
            let mut rest = Next::Done(Ok(Reply::Unit));
            if take_write(gates, seat, accesses, mount, cpu, task, &mut rest) {
                return Next::Done(Ok(Reply::Unit));
            }
            rest
        }
        WritePhase::Drops { mount, cpu } => give_in_line(gates, seat, accesses, op, mount, cpu),
        _ => unreachable!(),
    }
}

impl LinedOp for WritePhase {
    #[inline(always)]
    fn asks(&self) -> Option<HookCall> {
        None
    }

    #[inline(always)]
    fn begin_in_line<H: TimedHooks>(
        self,
        gates: &GateWords,
        seat: &mut GhostSeat,
        accesses: &mut Accesses,
        op: Op,
        hooks: &mut H,
    ) -> Next<WritePhase> {
        let _hooks = &*hooks;
        write_in_line(gates, seat, accesses, op, self)
    }
}
