//! Calls at the tree behind the gates, and what a snapshot took of it. None of them waits.

ghost use Rattle.std.specs.Prelude.{◌≡◌, true, false, slice_index, Err, OnOk, OnErr, Some, None};
ghost use Rattle.access_model.specs.declared.errors.GateError.TheVariants.{NoEntry};
ghost use Rattle.gate_world.specs.declared.operations.Op.TheVariants.{Create, Remove, Grow, MoveTo, Fault, Flush, Open, Close, Snapshot};
ghost use Rattle.gate_world.specs.declared.views.Snapshot.{Snapshot as Taken};
ghost use Rattle.gated_tree.specs.Trees.{node_at};
ghost use Rattle.gate_steps.specs.call_events.Runs.{Performs, Replies, node_of};
ghost use Rattle.vfs_gates.specs.TaskStates.{own_view};
ghost use Rattle.mntgate_c.specs.Codes.{answer_of, answer_with};
ghost use Rattle.mntgate_c.specs.Operations.{kind_of};
ghost use Rattle.mntgate_c.specs.Trees.{node_told};

use crate::codes::{code, made};
use crate::handles::TaskHandle;
use crate::members::Member;
use crate::operations::kind;
use crate::trees::NodeRecord;

/// Makes an empty file or directory in a directory, and writes the number of its node (`vfs_create`, `vfs_mkdir`). Where it is refused
/// nothing is written.
#[unsafe(no_mangle)]
pub extern "C" fn mntgate_create(task: &mut TaskHandle, dir: u8, is_dir: bool, node: &mut u8) -> u32
    requires { task.old.full ≡ true }
    ensures full { task.new.full ≡ true }
    ensures done { Replies node_of (Create dir (kind_of is_dir)) task.old.state task.new.state (answer_with result node.new) }
    ensures refused { OnErr (answer_of result) (node.new ≡ node.old) }
{
    let Member { gates, task } = task.member();
    made(task.create(gates, dir, kind(is_dir)), node)
}

/// Removes a file (`vfs_unlink`).
#[unsafe(no_mangle)]
pub extern "C" fn mntgate_remove(task: &mut TaskHandle, file: u8) -> u32
    requires { task.old.full ≡ true }
    ensures full { task.new.full ≡ true }
    ensures done { Performs (Remove file) task.old.state task.new.state (answer_of result) }
{
    let Member { gates, task } = task.member();
    code(task.remove(gates, file))
}

/// Makes a file larger by so many blocks (`vfs_write` past its end).
#[unsafe(no_mangle)]
pub extern "C" fn mntgate_grow(task: &mut TaskHandle, file: u8, blocks: u32) -> u32
    requires { task.old.full ≡ true }
    ensures full { task.new.full ≡ true }
    ensures done { Performs (Grow file blocks) task.old.state task.new.state (answer_of result) }
{
    let Member { gates, task } = task.member();
    code(task.grow(gates, file, blocks))
}

/// Gives a file another directory (`vfs_rename`).
#[unsafe(no_mangle)]
pub extern "C" fn mntgate_move_to(task: &mut TaskHandle, file: u8, dir: u8) -> u32
    requires { task.old.full ≡ true }
    ensures full { task.new.full ≡ true }
    ensures done { Performs (MoveTo file dir) task.old.state task.new.state (answer_of result) }
{
    let Member { gates, task } = task.member();
    code(task.move_to(gates, file, dir))
}

/// Makes a file dirty (`page_mkwrite`).
#[unsafe(no_mangle)]
pub extern "C" fn mntgate_fault(task: &mut TaskHandle, file: u8) -> u32
    requires { task.old.full ≡ true }
    ensures full { task.new.full ≡ true }
    ensures done { Performs (Fault file) task.old.state task.new.state (answer_of result) }
{
    let Member { gates, task } = task.member();
    code(task.fault(gates, file))
}

/// Makes a file clean, as a write-back does.
#[unsafe(no_mangle)]
pub extern "C" fn mntgate_flush(task: &mut TaskHandle, file: u8) -> u32
    requires { task.old.full ≡ true }
    ensures full { task.new.full ≡ true }
    ensures done { Performs (Flush file) task.old.state task.new.state (answer_of result) }
{
    let Member { gates, task } = task.member();
    code(task.flush(gates, file))
}

/// Opens a file (`do_dentry_open`).
#[unsafe(no_mangle)]
pub extern "C" fn mntgate_open_file(task: &mut TaskHandle, file: u8) -> u32
    requires { task.old.full ≡ true }
    ensures full { task.new.full ≡ true }
    ensures done { Performs (Open file) task.old.state task.new.state (answer_of result) }
{
    let Member { gates, task } = task.member();
    code(task.open_file(gates, file))
}

/// Closes a file that the task has open, without waiting (`__fput`).
#[unsafe(no_mangle)]
pub extern "C" fn mntgate_try_close_file(task: &mut TaskHandle, file: u8, cpu: u8) -> u32
    requires { task.old.full ≡ true }
    ensures full { task.new.full ≡ true }
    ensures done { Performs (Close file cpu false) task.old.state task.new.state (answer_of result) }
{
    let Member { gates, task } = task.member();
    code(task.try_close_file(gates, file, cpu))
}

/// Takes a snapshot of the tree, without waiting.
#[unsafe(no_mangle)]
pub extern "C" fn mntgate_try_snapshot(task: &mut TaskHandle) -> u32
    requires { task.old.full ≡ true }
    ensures full { task.new.full ≡ true }
    ensures done { Performs (Snapshot false) task.old.state task.new.state (answer_of result) }
{
    let Member { gates, task } = task.member();
    code(task.try_snapshot(gates))
}

/// Writes a node of the last snapshot that the task has taken. ENOENT before its first, with nothing written.
#[unsafe(no_mangle)]
pub extern "C" fn mntgate_tree_node(task: &mut TaskHandle, number: u8, node: &mut NodeRecord) -> u32
    requires { task.old.full ≡ true }
    ensures full { task.new.full ≡ true }
    ensures same { task.new.state ≡ task.old.state }
    ensures taken { OnOk (answer_of result) ((s : Taken) × ((own_view task.old.state.items).snapshot ≡ Some s)
        × (node_told node.new ≡ node_at s.loaded number) × (node.new.kids ≡ slice_index s.loaded.kids number)) }
    ensures none { OnErr (answer_of result) ((answer_of result ≡ Err NoEntry) × ((own_view task.old.state.items).snapshot ≡ None) × (node.new ≡ node.old)) }
{
    code(task.tree_node(number, node))
}

/// Writes how many blocks were charged in the last snapshot that the task has taken. ENOENT before its first, with nothing written.
#[unsafe(no_mangle)]
pub extern "C" fn mntgate_tree_used(task: &mut TaskHandle, used: &mut u64) -> u32
    requires { task.old.full ≡ true }
    ensures full { task.new.full ≡ true }
    ensures same { task.new.state ≡ task.old.state }
    ensures taken { OnOk (answer_of result) ((s : Taken) × ((own_view task.old.state.items).snapshot ≡ Some s) × (used.new ≡ s.loaded.used)) }
    ensures none { OnErr (answer_of result) ((answer_of result ≡ Err NoEntry) × ((own_view task.old.state.items).snapshot ≡ None) × (used.new ≡ used.old)) }
{
    code(task.tree_used(used))
}
