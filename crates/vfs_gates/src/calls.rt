//! Calls that wait for nobody.

ghost use Rattle.std.specs.Prelude.{◌≡◌, false};
ghost use Rattle.gate_world.specs.declared.operations.Op.{Op as OpType};
ghost use Rattle.vfs_gates.specs.TaskStates.{SeatedTask};
ghost use Rattle.gate_steps.specs.call_events.Runs.{told_as, unit_of, OpUnderWay};

use crate::gates::Gates;
use crate::task::Task;
use access_model::{GateError, Reply};
use composite_ops::WritePhase;
use gate_steps::call_events::Progress;
use gate_world::Op;
use mount_counts::{Change, MountPhase, Want};
use percpu_rwsem::{DownRead, UpRead};

/// Why the operation was refused, or that it was done.
pub(crate) fn outcome(answer: Result<Reply, GateError>) -> Result<(), GateError>
    ensures { result ≡ told_as unit_of answer }
{
    answer.map(|_| ())
}

impl Task {
    ghost use Rattle.gate_world.specs.Beginnings.{first_phase};
    ghost use Rattle.gate_world.specs.declared.operations.Op.TheVariants.{Want as WantOp, DropMount, ChangeMount, Start, End, DropWrite};
    ghost use Rattle.gate_world.specs.declared.work.Phase.TheVariants.{Mounts};
    ghost use Rattle.mount_counts.specs.declared.phases.MountPhase.TheVariants.{Change as Changes};
    ghost use Rattle.vfs_gates.specs.AtOnce.{BeginsAtOnce, PerformedFrom, TriedAtOnce};
    ghost use Rattle.vfs_gates.specs.TaskStates.{IsFrom, own_number};
    ghost use Rattle.gate_steps.specs.call_events.Runs.{IsTrying, Performs};

    /// Does the steps of the operation that has begun, which has a most number of them and asks no
    /// hook, until it replies. It tells only whether the operation was done, so that no call makes
    /// the place for a whole answer before its first step: a store before a step on a word keeps that
    /// step waiting.
    #[cold]
    #[inline(never)]
    fn finish(&mut self, gates: &Gates) -> Result<(), GateError>
        requires from { IsFrom self.old gates.now }
        requires trying { IsTrying self.old }
        ensures { (op : OpType) (start : SeatedTask) → OpUnderWay op start self.old → PerformedFrom op start self.new result }
    {
        loop {
            let step = self.step(gates, Ok(()));
            if let Progress::Done(answer) = step.progress {
                return outcome(answer);
            }
        }
    }

    /// Ends a call whose operation was begun so and has a most number of steps: does what is left of it.
    #[inline(always)]
    pub(crate) fn finish_begun(
        &mut self,
        gates: &Gates,
        begun: Result<Progress, GateError>,
    ) -> Result<(), GateError>
        requires from { IsFrom self.old gates.now }
        requires tried { TriedAtOnce self.old begun }
        ensures { (op : OpType) (start : SeatedTask) → BeginsAtOnce op start self.old begun → Performs op start self.new result }
    {
        let progress = begun?;
        if let Progress::Done(answer) = progress {
            return outcome(answer);
        }
        self.finish(gates)
    }

    /// `__mnt_want_write` that doesn't wait: an access at a mount, taken on a processor. It takes 6 steps at most, whatever other tasks do.
    ///
    /// # Errors
    ///
    /// Again where a change of the mount holds writers off, ReadOnly where the mount or the superblock is read-only; then the task holds what
    /// it held. Order, Invalid and TooMany as `begin`.
    pub fn try_want(&mut self, gates: &Gates, mount: u8, cpu: u8) -> Result<(), GateError>
        requires { IsFrom self.old gates.now }
        ensures { Performs (WantOp mount cpu false) self.old self.new result }
    {
        let wait = false;
        let want = Want::new(mount, cpu, wait);
        let begun = self.perform_at_once(gates, Op::Want { mount, cpu, wait }, want);
        self.finish_begun(gates, begun)
    }

    /// `__mnt_drop_write`: gives an access at a mount back, on any processor. It is never refused once it has begun. It takes one step.
    ///
    /// # Errors
    ///
    /// Order, where the task holds no access there, and Invalid as `begin`.
    pub fn drop_mount(&mut self, gates: &Gates, mount: u8, cpu: u8) -> Result<(), GateError>
        requires { IsFrom self.old gates.now }
        ensures { Performs (DropMount mount cpu) self.old self.new result }
    {
        let op = Op::DropMount { mount, cpu };
        let begun = self.perform_at_once(gates, op, MountPhase::Drop { mount, cpu });
        self.finish_begun(gates, begun)
    }

    /// `sb_start_write_trylock` (`percpu_down_read_trylock`), at any level: goes inside a freeze level, 1 to 3, counted on a processor. It
    /// takes 6 steps at most, whatever other tasks do.
    ///
    /// # Errors
    ///
    /// Again where a freeze closes the level; then the task is inside what it was inside. Order, where it is inside this level or one above
    /// it, and Invalid as `begin`.
    pub fn try_start(&mut self, gates: &Gates, level: u8, cpu: u8) -> Result<(), GateError>
        requires { IsFrom self.old gates.now }
        ensures { Performs (Start level cpu false) self.old self.new result }
    {
        let wait = false;
        let read = DownRead::new(level, cpu, self.number(), wait);
        let begun = self.perform_at_once(gates, Op::Start { level, cpu, wait }, read);
        self.finish_begun(gates, begun)
    }

    /// `sb_end_write`, `sb_end_pagefault`, `sb_end_intwrite` (`percpu_up_read`): leaves a freeze level, on any processor. It is never refused
    /// once it has begun. It takes one step.
    ///
    /// # Errors
    ///
    /// Order, where the task is not inside the level, and Invalid as `begin`.
    pub fn end(&mut self, gates: &Gates, level: u8, cpu: u8) -> Result<(), GateError>
        requires { IsFrom self.old gates.now }
        ensures { Performs (End level cpu) self.old self.new result }
    {
        let begun = self.perform_at_once(gates, Op::End { level, cpu }, UpRead { level, cpu });
        self.finish_begun(gates, begun)
    }

    /// `mnt_drop_write`: gives an access at a mount back and then leaves level 1, both on any processor. It is never refused once it has begun.
    /// It takes two steps.
    ///
    /// # Errors
    ///
    /// Order, where the task holds no access there or is not inside level 1, and Invalid as `begin`.
    pub fn drop_write(&mut self, gates: &Gates, mount: u8, cpu: u8) -> Result<(), GateError>
        requires { IsFrom self.old gates.now }
        ensures { Performs (DropWrite mount cpu) self.old self.new result }
    {
        let op = Op::DropWrite { mount, cpu };
        let begun = self.perform_at_once(gates, op, WritePhase::Drops { mount, cpu });
        self.finish_begun(gates, begun)
    }

    /// A change of a mount by the task that is to begin.
    #[inline(always)]
    pub(crate) fn first_change(&self, mount: u8, read_only: bool, wait: bool) -> Change
        ensures { Mounts (Changes result) ≡ first_phase self.now.config (own_number self.now.items) (ChangeMount mount read_only wait) }
    {
        Change::new(
            mount,
            read_only,
            wait,
            self.number(),
            self.config.processors,
        )
    }

    /// `mnt_make_readonly`, or its undoing, that doesn't wait. It takes 7 steps at most, and one for each processor, whatever other tasks do.
    ///
    /// # Errors
    ///
    /// Again where another task has `umount`, Busy where writers are counted at the mount. Order, where the task is inside a level, and
    /// Invalid as `begin`.
    pub fn try_change_mount(
        &mut self,
        gates: &Gates,
        mount: u8,
        read_only: bool,
    ) -> Result<(), GateError>
        requires { IsFrom self.old gates.now }
        ensures { Performs (ChangeMount mount read_only false) self.old self.new result }
    {
        let wait = false;
        let change = self.first_change(mount, read_only, wait);
        let op = Op::ChangeMount {
            mount,
            read_only,
            wait,
        };
        let begun = self.perform_at_once(gates, op, change);
        self.finish_begun(gates, begun)
    }
}
