//! Calls that are several in one, as their user makes them.

ghost use Rattle.vfs_gates.specs.TaskStates.{IsFrom, IsIdle};

use std::sync::Wait;
use vfs_gates::{Gates, Holder, Kind, Task};

/// Whether a file is made with write access.
pub fn writes_inside<R: Wait>(task: &mut Task, rt: &R, gates: &Gates) -> bool
    requires { IsFrom task.old gates.now }
    ensures { IsFrom task.new gates.now }
{
    let made = task.with_write(rt, gates, 0, 0, |task| task.create(gates, 0, Kind::File));
    made == Ok(Ok(1))
}

/// Whether a snapshot is taken of what is frozen, and another one, which shows its tree of a file and the root, and all levels are settled then.
pub fn copies_inside<R: Wait>(task: &mut Task, rt: &R, gates: &Gates) -> bool
    requires { IsFrom task.old gates.now }
    ensures { IsFrom task.new gates.now }
{
    let holder = Holder::User;
    let copied = task.with_freeze(rt, gates, holder, &mut (), |task| task.snapshot(rt, gates));
    let frozen = task.freeze(rt, gates, holder, &mut ());
    let kids = match task.snapshot_tree(rt, gates) {
        Ok(tree) => tree.kids(0),
        Err(_) => 0,
    };
    let thawed = task.thaw(rt, gates, holder, &mut ());
    let settled = task.settle(rt, gates);
    copied == Ok((Ok(()), frozen)) && kids == 1 && thawed == Ok(()) && settled == Ok(())
}
