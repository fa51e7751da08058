//! The calls of a task, each by its operation. A test needs to know of a task that it is from these gates, and no more: so that is all that is
//! handed on from call to call.

ghost use Rattle.vfs_gates.specs.TaskStates.{IsFrom};

use super::thread_runs::ThreadRun;
use std::sync::Wait;
use vfs_gates::{GateError, Gates, Op, Task};

/// Whether the call of an operation waits for nobody.
fn is_try(op: Op) -> bool {
    match op {
        Op::Want { wait, .. }
        | Op::Start { wait, .. }
        | Op::ChangeMount { wait, .. }
        | Op::Close { wait, .. }
        | Op::Snapshot { wait } => !wait,
        Op::RemountSb { .. }
        | Op::Freeze { .. }
        | Op::Thaw { .. }
        | Op::WantWrite { .. }
        | Op::Callback { .. } => false,
        _ => true,
    }
}

/// The call of a task that makes an operation. The turn has its file system and names its files, and is told the node that was made or whether
/// a callback ran.
pub fn call<R: Wait>(
    task: &mut Task,
    rt: &R,
    gates: &Gates,
    op: Op,
    turn: &mut ThreadRun<'_>,
) -> Result<(), GateError>
    requires { IsFrom task.old gates.now }
    ensures { IsFrom task.new gates.now }
{
    if is_try(op) {
        return try_call(task, gates, op, turn);
    }
    match op {
        Op::RemountSb { read_only } => task.remount_sb(rt, gates, read_only, turn),
        Op::Freeze { holder } => task.freeze(rt, gates, holder, turn),
        Op::Thaw { holder } => task.thaw(rt, gates, holder, turn),
        Op::Want { mount, cpu, .. } => task.want(rt, gates, mount, cpu),
        Op::WantWrite { mount, cpu } => task.want_write(rt, gates, mount, cpu),
        Op::Start { level, cpu, .. } => task.start(rt, gates, level, cpu),
        Op::ChangeMount {
            mount,
            read_only,
            ..
        } => task.change_mount(rt, gates, mount, read_only),
        Op::Close { file, cpu, .. } => task.close_file(rt, gates, turn.file(file), cpu),
        Op::Snapshot { .. } => task.snapshot(rt, gates),
        Op::Callback { level } => match task.callback(rt, gates, level) {
            Ok(has_run) => {
                turn.told = u8::from(has_run);
                Ok(())
            }
            Err(refusal) => Err(refusal),
        },
        _ => Err(GateError::Invalid),
    }
}

/// One that waits for nobody.
fn try_call(
    task: &mut Task,
    gates: &Gates,
    op: Op,
    turn: &mut ThreadRun<'_>,
) -> Result<(), GateError>
    requires { IsFrom task.old gates.now }
    ensures { IsFrom task.new gates.now }
{
    match op {
        Op::Want { mount, cpu, .. } => task.try_want(gates, mount, cpu),
        Op::DropMount { mount, cpu } => task.drop_mount(gates, mount, cpu),
        Op::Start { level, cpu, .. } => task.try_start(gates, level, cpu),
        Op::End { level, cpu } => task.end(gates, level, cpu),
        Op::DropWrite { mount, cpu } => task.drop_write(gates, mount, cpu),
        Op::ChangeMount {
            mount,
            read_only,
            ..
        } => task.try_change_mount(gates, mount, read_only),
        Op::Snapshot { .. } => task.try_snapshot(gates),
        Op::Create { dir, kind } => match task.create(gates, dir, kind) {
            Ok(node) => {
                turn.told = node;
                Ok(())
            }
            Err(refusal) => Err(refusal),
        },
        Op::Remove { file } => task.remove(gates, turn.file(file)),
        Op::Grow { file, blocks } => task.grow(gates, turn.file(file), blocks),
        Op::MoveTo { file, dir } => task.move_to(gates, turn.file(file), dir),
        Op::Fault { file } => task.fault(gates, file),
        Op::Flush { file } => task.flush(gates, file),
        Op::Open { file } => task.open_file(gates, turn.file(file)),
        Op::Close { file, cpu, .. } => task.try_close_file(gates, turn.file(file), cpu),
        _ => Err(GateError::Invalid),
    }
}
