//! Calls at the tree behind the gates, and snapshots of it. All but one wait for nobody.

ghost use Rattle.std.specs.Prelude.{◌≡◌, true, false, IfOk};
ghost use Rattle.gate_world.specs.Operations.{IsNodeReply};
ghost use Rattle.gate_steps.specs.call_events.Runs.{told_as, node_of};

use crate::calls::outcome;
use crate::gates::Gates;
use crate::task::Task;
use access_model::{GateError, Kind, Reply};
use call_ends::run_to_reply;
use composite_ops::ClosePhase;
use gate_transitions::PendingOp;
use gate_world::Op;
use gated_tree::{Create, Grow, Mark, MoveTo, OpenFile, Remove};
use std::sync::Wait;

/// Why a create was refused, or the node that it took.
fn node(answer: Result<Reply, GateError>) -> Result<u8, GateError>
    requires { IfOk answer IsNodeReply }
    ensures { result ≡ told_as node_of answer }
{
    match answer? {
        Reply::Node(node) => Ok(node),
        _ => unreachable!(),
    }
}

impl Task {
    ghost use Rattle.gate_world.specs.Beginnings.{first_phase};
    ghost use Rattle.gate_world.specs.traces.Traces.{most_events};
    ghost use Rattle.vfs_gates.specs.Buffers.{is_of_snapshot};
    ghost use Rattle.gate_world.specs.declared.operations.Op.TheVariants.{Create as CreateOp, Remove as RemoveOp, Grow as GrowOp, MoveTo as MoveToOp, Fault as FaultOp, Flush as FlushOp, Snapshot as SnapshotOp, Open as OpenOp, Close as CloseOp};
    ghost use Rattle.vfs_gates.specs.TaskStates.{IsFrom, own_number};
    ghost use Rattle.gate_steps.specs.call_events.Runs.{IsBounded, Performs, Replies, the_reply};

    /// Begins a call that has this first phase and a most number of steps, and does its steps until it replies.
    #[inline(always)]
    fn call<P: PendingOp>(&mut self, gates: &Gates, op: Op, first: P) -> Result<Reply, GateError>
        requires from { IsFrom self.old gates.now }
        requires first { P.as_phase first ≡ first_phase self.old.config (own_number self.old.items) op }
        requires other { is_of_snapshot (P.as_phase first) ≡ false }
        requires tries { IsBounded (most_events self.old.config op) }
        ensures { Replies the_reply op self.old self.new result }
    {
        if let Err(refusal) = self.may_begin(op) {
            return Err(refusal);
        }
        self.waited = 0;
        run_to_reply(
            &gates.words,
            &mut self.seat,
            &mut self.state.accesses,
            op,
            first,
        )
    }

    /// `vfs_create`, `vfs_mkdir`: makes an empty, clean file or directory in a directory, and tells the number of its node. It takes 3 steps at
    /// most, and one for each node, whatever other tasks do.
    ///
    /// # Errors
    ///
    /// NoEntry where the directory's node is free, NotDir where it is a file; NoSpace where no node is free; Again where its node was taken
    /// meanwhile: then nothing is changed. Order, where the task is not inside level 1 with an access at some mount, and Invalid as `begin`.
    pub fn create(&mut self, gates: &Gates, dir: u8, kind: Kind) -> Result<u8, GateError>
        requires { IsFrom self.old gates.now }
        ensures { Replies node_of (CreateOp dir kind) self.old self.new result }
    {
        let create = Create::new(dir, kind, self.config.nodes);
        node(self.call(gates, Op::Create { dir, kind }, create))
    }

    /// `vfs_unlink`: frees a file's node, and gives its blocks back; where some task has the file open, it has its node and its blocks until
    /// its last close. It takes 4 steps at most, whatever other tasks do.
    ///
    /// # Errors
    ///
    /// NoEntry where the node is free or its file was removed before, IsDir where it is a directory; Again where it changed meanwhile: then
    /// nothing is changed. Order, as `create`, and Invalid as `begin`.
    pub fn remove(&mut self, gates: &Gates, file: u8) -> Result<(), GateError>
        requires { IsFrom self.old gates.now }
        ensures { Performs (RemoveOp file) self.old self.new result }
    {
        outcome(self.call(gates, Op::Remove { file }, Remove::new(file)))
    }

    /// `vfs_write` past a file's end: makes it larger by so many blocks, and dirty. It takes 5 steps at most, whatever other tasks do.
    ///
    /// # Errors
    ///
    /// NoEntry and IsDir as `remove`; NoSpace where there is no room for the blocks; Again where the file or the blocks charged changed
    /// meanwhile: then nothing is changed. Order, as `create`, and Invalid as `begin`, also for no block.
    pub fn grow(&mut self, gates: &Gates, file: u8, blocks: u32) -> Result<(), GateError>
        requires { IsFrom self.old gates.now }
        ensures { Performs (GrowOp file blocks) self.old self.new result }
    {
        let grow = Grow::new(file, blocks, self.config.capacity);
        outcome(self.call(gates, Op::Grow { file, blocks }, grow))
    }

    /// `vfs_rename`: gives a file another directory. It takes 5 steps at most, whatever other tasks do.
    ///
    /// # Errors
    ///
    /// NoEntry and IsDir as `remove`, NoEntry and NotDir of the directory as `create`; Again where the file changed meanwhile: then nothing is
    /// changed. Order, as `create`, and Invalid as `begin`.
    pub fn move_to(&mut self, gates: &Gates, file: u8, dir: u8) -> Result<(), GateError>
        requires { IsFrom self.old gates.now }
        ensures { Performs (MoveToOp file dir) self.old self.new result }
    {
        outcome(self.call(gates, Op::MoveTo { file, dir }, MoveTo::new(file, dir)))
    }

    /// `page_mkwrite`: makes a file dirty. It takes two steps at most, whatever other tasks do.
    ///
    /// # Errors
    ///
    /// NoEntry, IsDir and Again as `remove`. Order, where the task is not inside level 2 with an access at some mount, and Invalid as `begin`.
    pub fn fault(&mut self, gates: &Gates, file: u8) -> Result<(), GateError>
        requires { IsFrom self.old gates.now }
        ensures { Performs (FaultOp file) self.old self.new result }
    {
        outcome(self.call(gates, Op::Fault { file }, Mark::new(file, true)))
    }

    /// A write-back: makes a file clean. It takes two steps at most, whatever other tasks do.
    ///
    /// # Errors
    ///
    /// NoEntry, IsDir and Again as `remove`. Order, where the task is not inside level 3, and Invalid as `begin`.
    pub fn flush(&mut self, gates: &Gates, file: u8) -> Result<(), GateError>
        requires { IsFrom self.old gates.now }
        ensures { Performs (FlushOp file) self.old self.new result }
    {
        outcome(self.call(gates, Op::Flush { file }, Mark::new(file, false)))
    }

    /// `do_dentry_open`: opens a file, which is there until its last close, also where it is removed meanwhile. A task opens a file once. No
    /// level and no mount is asked for. It takes two steps at most, whatever other tasks do.
    ///
    /// # Errors
    ///
    /// NoEntry and IsDir as `remove`, Again where the file changed meanwhile: then nothing is changed. TooMany where the task has it open,
    /// and Invalid as `begin`.
    pub fn open_file(&mut self, gates: &Gates, file: u8) -> Result<(), GateError>
        requires { IsFrom self.old gates.now }
        ensures { Performs (OpenOp file) self.old self.new result }
    {
        outcome(self.call(gates, Op::Open { file }, OpenFile::new(file)))
    }

    /// `__fput` that doesn't wait: closes a file that the task has open. The last close of a removed file frees it inside level 3, where it is
    /// counted on a processor, and gives its blocks back. It takes 10 steps at most, whatever other tasks do.
    ///
    /// # Errors
    ///
    /// Again where a freeze closes level 3 then, or where the file changed meanwhile: then the file is open as before. Order, where the task
    /// doesn't have the file open or is inside level 3, and Invalid as `begin`.
    pub fn try_close_file(&mut self, gates: &Gates, file: u8, cpu: u8) -> Result<(), GateError>
        requires { IsFrom self.old gates.now }
        ensures { Performs (CloseOp file cpu false) self.old self.new result }
    {
        let wait = false;
        let close = ClosePhase::new(file, cpu, self.number(), wait);
        outcome(self.call(gates, Op::Close { file, cpu, wait }, close))
    }

    /// Closes a file that the task has open (`__fput`), and waits while a freeze closes level 3. The last close of a removed file frees it and its
    /// blocks.
    ///
    /// # Errors
    ///
    /// Again only where the file changed meanwhile. Order and Invalid as `try_close_file`.
    pub fn close_file<R: Wait>(
        &mut self,
        rt: &R,
        gates: &Gates,
        file: u8,
        cpu: u8,
    ) -> Result<(), GateError>
        requires { IsFrom self.old gates.now }
        ensures { Performs (CloseOp file cpu true) self.old self.new result }
    {
        let wait = true;
        let close = ClosePhase::new(file, cpu, self.number(), wait);
        let op = Op::Close { file, cpu, wait };
        outcome(self.perform_waiting(rt, gates, op, close, &mut ()))
    }

    /// A snapshot of the tree that doesn't wait, which `tree` shows from then on. It takes 4 steps at most, and two for each node, whatever
    /// other tasks do.
    ///
    /// # Errors
    ///
    /// Again where another task has `umount`, Invalid where the file system is not frozen; then the last snapshot stays. Order, where the task
    /// is inside a level, as `begin`.
    pub fn try_snapshot(&mut self, gates: &Gates) -> Result<(), GateError>
        requires { IsFrom self.old gates.now }
        ensures { Performs (SnapshotOp false) self.old self.new result }
    {
        let begun = self.load_at_once(gates, false);
        self.finish_begun(gates, begun)
    }

    /// Takes a snapshot of the frozen file system, which `tree` shows from then on, and waits for `umount`.
    ///
    /// # Errors
    ///
    /// Invalid where the file system is not frozen; then the last snapshot stays. Order, where the task is inside a level, as `begin`.
    pub fn snapshot<R: Wait>(&mut self, rt: &R, gates: &Gates) -> Result<(), GateError>
        requires { IsFrom self.old gates.now }
        ensures { Performs (SnapshotOp true) self.old self.new result }
    {
        let begun = self.load_at_once(gates, true);
        self.finish_begun_waiting(rt, gates, begun)
    }
}
