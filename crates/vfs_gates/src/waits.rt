//! Calls that may wait for other tasks.

ghost use Rattle.std.specs.Prelude.{◌≡◌, true, false, IfOk};
ghost use Rattle.gate_world.specs.declared.operations.Op.{Op as OpType};
ghost use Rattle.vfs_gates.specs.TaskStates.{SeatedTask};
ghost use Rattle.gate_steps.specs.call_events.Runs.{told_as, ran_of, IsRanReply, OpUnderWay};

use crate::calls::outcome;
use crate::gates::Gates;
use crate::task::Task;
use access_model::{GateError, Holder, Reply};
use call_ends::{Backoff, LinedOp, wait_for_reply};
use gate_steps::call_events::{Progress, TimedHooks};
use gate_world::Op;
use mount_counts::Want;
use percpu_rwsem::DownRead;
use std::sync::Wait;

/// Why the operation was refused, or whether a callback ran.
fn ran(answer: Result<Reply, GateError>) -> Result<bool, GateError>
    requires { IfOk answer IsRanReply }
    ensures { result ≡ told_as ran_of answer }
{
    match answer? {
        Reply::Ran(ran) => Ok(ran),
        _ => unreachable!(),
    }
}

impl Task {
    ghost use Rattle.gate_world.specs.Beginnings.{first_phase};
    ghost use Rattle.gate_world.specs.declared.operations.Op.TheVariants.{Want as WantOp, ChangeMount, RemountSb, Start, WantWrite, Callback as CallbackOp, Freeze as FreezeOp, Thaw as ThawOp};
    ghost use Rattle.vfs_gates.specs.AtOnce.{BeginsAtOnce, PerformedFrom};
    ghost use Rattle.vfs_gates.specs.Buffers.{is_of_snapshot};
    ghost use Rattle.vfs_gates.specs.TaskStates.{IsFrom, own_number};
    ghost use Rattle.gate_steps.specs.call_events.Runs.{the_reply, Replies, Performs};
    ghost use Rattle.gate_steps.specs.call_events.Asking.{PerformsAsking, RepliesAsking};

    /// Does the steps of the operation that has begun and asks no hook until it replies, however long it has to wait. After a step that
    /// found what the operation waits for it pauses, and the longer the more often one did (`Backoff`). A wait may take several steps before
    /// it looks again, so none of these makes the pauses short again.
    #[cold]
    #[inline(never)]
    fn finish_waiting<R: Wait>(&mut self, rt: &R, gates: &Gates) -> Result<(), GateError>
        requires { IsFrom self.old gates.now }
        ensures { (op : OpType) (start : SeatedTask) → OpUnderWay op start self.old → PerformedFrom op start self.new result }
    {
        let mut backoff = Backoff::new();
        for _ in rt.forever() {
            let step = self.step(gates, Ok(()));
            if let Progress::Done(answer) = step.progress {
                return outcome(answer);
            }
            if let Progress::Waiting = step.progress {
                backoff.snooze(rt);
            }
        }
        unreachable!()
    }

    /// Ends a call whose operation was begun so: does what is left of it, however long it has to wait.
    #[inline(always)]
    pub(crate) fn finish_begun_waiting<R: Wait>(
        &mut self,
        rt: &R,
        gates: &Gates,
        begun: Result<Progress, GateError>,
    ) -> Result<(), GateError>
        requires { IsFrom self.old gates.now }
        ensures { (op : OpType) (start : SeatedTask) → BeginsAtOnce op start self.old begun → Performs op start self.new result }
    {
        let progress = begun?;
        if let Progress::Done(answer) = progress {
            return outcome(answer);
        }
        self.finish_waiting(rt, gates)
    }

    /// Begins an operation that has this first phase, and does its steps until it replies, however long it has to wait, with the hooks of
    /// the file system.
    #[inline(always)]
    pub(crate) fn perform_waiting<R: Wait, H: TimedHooks, P: LinedOp>(
        &mut self,
        rt: &R,
        gates: &Gates,
        op: Op,
        first: P,
        hooks: &mut H,
    ) -> Result<Reply, GateError>
        requires from { IsFrom self.old gates.now }
        requires first { P.as_phase first ≡ first_phase self.old.config (own_number self.old.items) op }
        requires other { is_of_snapshot (P.as_phase first) ≡ false }
        ensures { RepliesAsking H.answers the_reply op self.old self.new result hooks.old hooks.new }
    {
        if let Err(refusal) = self.may_begin(op) {
            return Err(refusal);
        }
        let accesses = &mut self.state.accesses;
        let seat = &mut self.seat;
        let (answer, waited) = wait_for_reply(rt, &gates.words, seat, accesses, op, first, hooks);
        self.waited = waited;
        answer
    }

    /// `__mnt_want_write`: an access at a mount, taken on a processor. While a change of the mount holds writers off it waits.
    ///
    /// # Errors
    ///
    /// ReadOnly where the mount or the superblock is read-only; then the task holds what it held. Order, Invalid and TooMany as `begin`.
    pub fn want<R: Wait>(
        &mut self,
        rt: &R,
        gates: &Gates,
        mount: u8,
        cpu: u8,
    ) -> Result<(), GateError>
        requires { IsFrom self.old gates.now }
        ensures { Performs (WantOp mount cpu true) self.old self.new result }
    {
        let wait = true;
        let want = Want::new(mount, cpu, wait);
        let begun = self.perform_at_once(gates, Op::Want { mount, cpu, wait }, want);
        self.finish_begun_waiting(rt, gates, begun)
    }

    /// `sb_start_write`, `sb_start_pagefault`, `sb_start_intwrite` (`percpu_down_read`): goes inside a freeze level, 1 to 3, counted on
    /// a processor. While a freeze closes the level it waits, with its count taken back. It is never refused once it has begun.
    ///
    /// # Errors
    ///
    /// Order, where the task is inside this level or one above it, and Invalid as `begin`.
    pub fn start<R: Wait>(
        &mut self,
        rt: &R,
        gates: &Gates,
        level: u8,
        cpu: u8,
    ) -> Result<(), GateError>
        requires { IsFrom self.old gates.now }
        ensures { Performs (Start level cpu true) self.old self.new result }
    {
        let wait = true;
        let read = DownRead::new(level, cpu, self.number(), wait);
        let begun = self.perform_at_once(gates, Op::Start { level, cpu, wait }, read);
        self.finish_begun_waiting(rt, gates, begun)
    }

    /// `mnt_want_write`: goes inside level 1 and takes an access at a mount, both on a processor. While a freeze closes the level, and
    /// then while a change of the mount holds writers off, it waits.
    ///
    /// # Errors
    ///
    /// ReadOnly where the mount or the superblock is read-only; then the task has left the level and holds what it held. Order, where the
    /// task is inside a level, Invalid and TooMany as `begin`.
    pub fn want_write<R: Wait>(
        &mut self,
        rt: &R,
        gates: &Gates,
        mount: u8,
        cpu: u8,
    ) -> Result<(), GateError>
        requires { IsFrom self.old gates.now }
        ensures { Performs (WantWrite mount cpu) self.old self.new result }
    {
        let op = Op::WantWrite { mount, cpu };
        let begun = self.perform_at_once(gates, op, self.first_taking(mount, cpu));
        self.finish_begun_waiting(rt, gates, begun)
    }

    /// `rcu_sync_func`, with the wait of `call_rcu` before it: runs the callback that the `rcu_sync` of a level, 1 to 3, has queued, after
    /// each section of a reader that was under way has ended, for which it waits. Answers whether one ran: false where none was
    /// queued. It is never refused once it has begun.
    ///
    /// # Errors
    ///
    /// Invalid, and Order where an operation is under way, as `begin`.
    pub fn callback<R: Wait>(&mut self, rt: &R, gates: &Gates, level: u8) -> Result<bool, GateError>
        requires { IsFrom self.old gates.now }
        ensures { Replies ran_of (CallbackOp level) self.old self.new result }
    {
        let callback = self.first_callback(level);
        ran(self.perform_waiting(rt, gates, Op::Callback { level }, callback, &mut ()))
    }

    /// `mnt_make_readonly`, or its undoing. While another task has `umount` it waits.
    ///
    /// # Errors
    ///
    /// Busy where writers are counted at the mount. Order, where the task is inside a level, and Invalid as `begin`.
    pub fn change_mount<R: Wait>(
        &mut self,
        rt: &R,
        gates: &Gates,
        mount: u8,
        read_only: bool,
    ) -> Result<(), GateError>
        requires { IsFrom self.old gates.now }
        ensures { Performs (ChangeMount mount read_only true) self.old self.new result }
    {
        let wait = true;
        let change = self.first_change(mount, read_only, wait);
        let op = Op::ChangeMount {
            mount,
            read_only,
            wait,
        };
        let begun = self.perform_at_once(gates, op, change);
        self.finish_begun_waiting(rt, gates, begun)
    }

    /// `reconfigure_super`: remounts the superblock read-only or writable. While another task has `umount` it waits.
    /// `FsHooks::reconfigure` is asked once, where the superblock isn't as it is asked for: to read-only with nobody inside, dirty marks
    /// cleared and no new writer let in. After an Ok the superblock is as it was asked for, until another remount.
    ///
    /// # Errors
    ///
    /// Busy where the stage isn't 0, or, to read-only, where writers are counted at a mount or a file is removed and still open. Hook where the
    /// hook fails, and then the superblock is as it was, but for the dirty marks. Order, where the task is inside a level, as `begin`.
    pub fn remount_sb<R: Wait, H: TimedHooks>(
        &mut self,
        rt: &R,
        gates: &Gates,
        read_only: bool,
        hooks: &mut H,
    ) -> Result<(), GateError>
        requires { IsFrom self.old gates.now }
        ensures { PerformsAsking H.answers (RemountSb read_only) self.old self.new result hooks.old hooks.new }
    {
        let remount = self.first_remount(read_only);
        let op = Op::RemountSb { read_only };
        outcome(self.perform_waiting(rt, gates, op, remount, hooks))
    }

    /// `freeze_super`: closes the three freeze levels, one after the other, waiting at each for who is inside, and freezes the file system.
    /// While another task has `umount` it waits. Where all is frozen for the other holder, it is held for this one, too, at once.
    /// `FsHooks::sync` is asked once, with levels 1 and 2 closed and the dirty marks cleared, and `FsHooks::freeze_fs` once, with all levels
    /// closed; a superblock that is read-only is frozen at once, with no level closed and no hook asked. After each sum of a level that finds
    /// somebody it pauses, and asks `FsHooks::keep_waiting` of that level; after an Err of this one it gives up. After an Ok nobody is inside a
    /// level that was closed, nor comes inside, until a thaw.
    ///
    /// # Errors
    ///
    /// Busy where another freeze is under way, or its holder holds one already. Hook where a hook fails, and then the levels are open and the
    /// file system is as it was, but for the dirty marks; where it was `keep_waiting`, with its code. Order, where the task is inside a level, as
    /// `begin`. `try_freeze` waits for nobody inside, and `freeze_within` no longer than a limit.
    pub fn freeze<R: Wait, H: TimedHooks>(
        &mut self,
        rt: &R,
        gates: &Gates,
        holder: Holder,
        hooks: &mut H,
    ) -> Result<(), GateError>
        requires { IsFrom self.old gates.now }
        ensures { PerformsAsking H.answers (FreezeOp holder) self.old self.new result hooks.old hooks.new }
    {
        let freeze = self.first_freeze(holder);
        let op = Op::Freeze { holder };
        outcome(self.perform_waiting(rt, gates, op, freeze, hooks))
    }

    /// `thaw_super`: gives a holder's freeze back, whichever task froze; where no other is held, it thaws the file system, and reopens its
    /// levels, the highest first. While another task has `umount` it waits. `FsHooks::unfreeze_fs` is asked once, unless the superblock is
    /// read-only.
    ///
    /// # Errors
    ///
    /// Invalid where the stage isn't SB_FREEZE_COMPLETE, or this holder holds no freeze. Hook where the hook fails, and then all stays frozen.
    /// Order, where the task is inside a level, as `begin`.
    pub fn thaw<R: Wait, H: TimedHooks>(
        &mut self,
        rt: &R,
        gates: &Gates,
        holder: Holder,
        hooks: &mut H,
    ) -> Result<(), GateError>
        requires { IsFrom self.old gates.now }
        ensures { PerformsAsking H.answers (ThawOp holder) self.old self.new result hooks.old hooks.new }
    {
        let thaw = self.first_thaw(holder);
        let op = Op::Thaw { holder };
        outcome(self.perform_waiting(rt, gates, op, thaw, hooks))
    }
}
