//! Operations begun and done as far as they go without waiting.

ghost use Rattle.std.specs.Prelude.{◌≡◌, false};
ghost use Rattle.vfs_gates.specs.AtOnce.{BeginsAtOnce};
ghost use Rattle.vfs_gates.specs.Waits.{is_wait};
ghost use Rattle.access_model.specs.Replies.{map_next};
ghost use Rattle.gate_steps.specs.call_events.Answers.{unless_refused};

use crate::gates::Gates;
use crate::snapshots::snapshot_first;
use crate::task::Task;
use access_model::{GateError, Holder, Next};
use call_ends::LinedOp;
use gate_steps::call_events::Progress;
use gate_transitions::{PendingOp, may_begin};
use gate_world::Op;

/// 1 where the step before found what the operation waits for, else 0.
#[inline(always)]
pub(crate) fn waits<P: PendingOp>(next: &Next<P>) -> u64
    ensures { result ≡ is_wait (map_next P.as_phase next.now) }
{
    match next {
        Next::Wait(_) => 1,
        Next::Go(_) | Next::Done(_) => 0,
    }
}

impl Task {
    ghost use Rattle.gate_world.specs.Beginnings.{first_phase};
    ghost use Rattle.gate_world.specs.declared.operations.Op.TheVariants.{RemountSb, WantWrite, Callback, Freeze, Snapshot, Thaw};
    ghost use Rattle.vfs_gates.specs.Buffers.{is_of_snapshot};
    ghost use Rattle.vfs_gates.specs.TaskStates.{IsFrom, own_number, refusal_at};

    /// Whether the operation may begin, or why it can't.
    #[inline(always)]
    pub(crate) fn may_begin(&self, op: Op) -> Result<(), GateError>
        ensures { result ≡ unless_refused (refusal_at op self.now) }
    {
        let under_way = self.state.phase.is_some();
        may_begin(op, &self.config, under_way, &self.state.accesses)
    }

    /// Begins an operation that has this first phase, and does its steps in a line, where each hook answers Ok. Where one of them finds
    /// something else, it notes where the operation stands.
    #[inline(always)]
    pub(crate) fn perform_at_once<P: LinedOp>(
        &mut self,
        gates: &Gates,
        op: Op,
        first: P,
    ) -> Result<Progress, GateError>
        requires from { IsFrom self.old gates.now }
        requires first { P.as_phase first ≡ first_phase self.old.config (own_number self.old.items) op }
        requires other { is_of_snapshot (P.as_phase first) ≡ false }
        ensures { BeginsAtOnce op self.old self.new result }
    {
        if let Err(refusal) = self.may_begin(op) {
            return Err(refusal);
        }
        let accesses = &mut self.state.accesses;
        let next = first.begin_in_line(&gates.words, &mut self.seat, accesses, op, &mut ());
        self.waited = waits(&next);
        match next {
            Next::Done(answer) => Ok(Progress::Done(answer)),
            Next::Go(under_way) | Next::Wait(under_way) => {
                self.state.phase = Some(under_way.phase());
                Ok(Progress::Going)
            }
        }
    }

    /// Begins a snapshot, and does its steps in a line. Where one of them finds something else, it notes where the snapshot stands. What
    /// they load is noted in the task's buffers.
    #[inline(always)]
    pub(crate) fn load_at_once(&mut self, gates: &Gates, wait: bool) -> Result<Progress, GateError>
        requires { IsFrom self.old gates.now }
        ensures { BeginsAtOnce (Snapshot wait) self.old self.new result }
    {
        let op = Op::Snapshot { wait };
        if let Err(refusal) = self.may_begin(op) {
            return Err(refusal);
        }
        let first = self.first_snapshot(wait);
        let (seat, accesses) = (&mut self.seat, &self.state.accesses);
        let next = snapshot_first(&gates.words, seat, accesses, &mut self.buffers, op, first);
        self.waited = waits(&next);
        match next {
            Next::Done(answer) => Ok(Progress::Done(answer)),
            Next::Go(under_way) | Next::Wait(under_way) => {
                self.state.phase = Some(under_way.phase());
                Ok(Progress::Going)
            }
        }
    }

    /// Begins what `want_write` does, and does its steps up to one that finds something in the way. Answers whether it was done, or goes on:
    /// then `step` does the rest.
    ///
    /// # Errors
    ///
    /// As `begin`; then nothing is changed. Why it was refused later on, as `want_write`, stands in the progress.
    pub fn want_write_at_once(
        &mut self,
        gates: &Gates,
        mount: u8,
        cpu: u8,
    ) -> Result<Progress, GateError>
        requires { IsFrom self.old gates.now }
        ensures { BeginsAtOnce (WantWrite mount cpu) self.old self.new result }
    {
        let first = self.first_taking(mount, cpu);
        self.perform_at_once(gates, Op::WantWrite { mount, cpu }, first)
    }

    /// Begins what `callback` does, and does its steps up to one that finds something in the way, as `want_write_at_once`.
    ///
    /// # Errors
    ///
    /// As `begin`; then nothing is changed.
    pub fn callback_at_once(&mut self, gates: &Gates, level: u8) -> Result<Progress, GateError>
        requires { IsFrom self.old gates.now }
        ensures { BeginsAtOnce (Callback level) self.old self.new result }
    {
        let first = self.first_callback(level);
        self.perform_at_once(gates, Op::Callback { level }, first)
    }

    /// Begins what `remount_sb` does of a file system whose hooks answer Ok, and does its steps up to one that finds something in the way, as
    /// `want_write_at_once`.
    ///
    /// # Errors
    ///
    /// As `begin`; then nothing is changed. Why it was refused later on, as `remount_sb`, stands in the progress.
    pub fn remount_sb_at_once(
        &mut self,
        gates: &Gates,
        read_only: bool,
    ) -> Result<Progress, GateError>
        requires { IsFrom self.old gates.now }
        ensures { BeginsAtOnce (RemountSb read_only) self.old self.new result }
    {
        let first = self.first_remount(read_only);
        self.perform_at_once(gates, Op::RemountSb { read_only }, first)
    }

    /// Begins what `freeze` does of a file system whose hooks answer Ok, and does its steps up to one that finds something in the way, as
    /// `want_write_at_once`. A freeze that goes on may have levels closed, and is to be done to its end.
    ///
    /// # Errors
    ///
    /// As `begin`; then nothing is changed. Why it was refused later on, as `freeze`, stands in the progress.
    pub fn freeze_at_once(&mut self, gates: &Gates, holder: Holder) -> Result<Progress, GateError>
        requires { IsFrom self.old gates.now }
        ensures { BeginsAtOnce (Freeze holder) self.old self.new result }
    {
        let first = self.first_freeze(holder);
        self.perform_at_once(gates, Op::Freeze { holder }, first)
    }

    /// Begins what `thaw` does of a file system whose hooks answer Ok, and does its steps up to one that finds something in the way, as
    /// `want_write_at_once`.
    ///
    /// # Errors
    ///
    /// As `begin`; then nothing is changed. Why it was refused later on, as `thaw`, stands in the progress.
    pub fn thaw_at_once(&mut self, gates: &Gates, holder: Holder) -> Result<Progress, GateError>
        requires { IsFrom self.old gates.now }
        ensures { BeginsAtOnce (Thaw holder) self.old self.new result }
    {
        let first = self.first_thaw(holder);
        self.perform_at_once(gates, Op::Thaw { holder }, first)
    }
}
