//! Operations begun and done as far as they go without waiting. What is left of one that goes on is for `mntgate_run`.

ghost use Rattle.std.specs.Prelude.{◌≡◌, true, OnErr};
ghost use Rattle.gate_world.specs.declared.operations.Op.TheVariants.{RemountSb, WantWrite, Callback, Freeze, Thaw};
ghost use Rattle.vfs_gates.specs.AtOnce.{BeginsAtOnce};
ghost use Rattle.mntgate_c.specs.Codes.{answer_of, begun_at, holder_of};

use crate::codes::{Outcome, begun, holder};
use crate::handles::TaskHandle;
use crate::members::Member;

/// Takes write access at a mount (`mnt_want_write`), up to a step that finds something in the way. Writes whether it is done or goes on;
/// nothing, where it may not begin.
#[unsafe(no_mangle)]
pub extern "C" fn mntgate_want_write_at_once(
    task: &mut TaskHandle,
    mount: u8,
    cpu: u8,
    outcome: &mut Outcome,
) -> u32
    requires { task.old.full ≡ true }
    ensures full { task.new.full ≡ true }
    ensures begun { BeginsAtOnce (WantWrite mount cpu) task.old.state task.new.state (begun_at result outcome.new) }
    ensures refused { OnErr (answer_of result) (outcome.new ≡ outcome.old) }
{
    let Member { gates, task } = task.member();
    begun(task.want_write_at_once(gates, mount, cpu), outcome)
}

/// Runs the callback of a level (`rcu_sync_func`), up to a step that finds something in the way. Writes whether it is
/// done or goes on; nothing, if it may not begin.
#[unsafe(no_mangle)]
pub extern "C" fn mntgate_callback_at_once(
    task: &mut TaskHandle,
    level: u8,
    outcome: &mut Outcome,
) -> u32
    requires { task.old.full ≡ true }
    ensures full { task.new.full ≡ true }
    ensures begun { BeginsAtOnce (Callback level) task.old.state task.new.state (begun_at result outcome.new) }
    ensures refused { OnErr (answer_of result) (outcome.new ≡ outcome.old) }
{
    let Member { gates, task } = task.member();
    begun(task.callback_at_once(gates, level), outcome)
}

/// Remounts the superblock of a file system whose hooks answer 0 (`reconfigure_super`), up to a step that finds something in the way. Writes whether it is
/// done or goes on; nothing, if it may not begin.
#[unsafe(no_mangle)]
pub extern "C" fn mntgate_remount_sb_at_once(
    task: &mut TaskHandle,
    read_only: bool,
    outcome: &mut Outcome,
) -> u32
    requires { task.old.full ≡ true }
    ensures full { task.new.full ≡ true }
    ensures begun { BeginsAtOnce (RemountSb read_only) task.old.state task.new.state (begun_at result outcome.new) }
    ensures refused { OnErr (answer_of result) (outcome.new ≡ outcome.old) }
{
    let Member { gates, task } = task.member();
    begun(task.remount_sb_at_once(gates, read_only), outcome)
}

/// Freezes a file system whose hooks answer 0 (`freeze_super`), up to a step that finds something in the way. Writes whether it is
/// done or goes on; nothing, if it may not begin.
#[unsafe(no_mangle)]
pub extern "C" fn mntgate_freeze_at_once(
    task: &mut TaskHandle,
    by_kernel: bool,
    outcome: &mut Outcome,
) -> u32
    requires { task.old.full ≡ true }
    ensures full { task.new.full ≡ true }
    ensures begun { BeginsAtOnce (Freeze (holder_of by_kernel)) task.old.state task.new.state (begun_at result outcome.new) }
    ensures refused { OnErr (answer_of result) (outcome.new ≡ outcome.old) }
{
    let Member { gates, task } = task.member();
    begun(task.freeze_at_once(gates, holder(by_kernel)), outcome)
}

/// Thaws a file system whose hooks answer 0 (`thaw_super`), up to a step that finds something in the way. Writes whether it is
/// done or goes on; nothing, if it may not begin.
#[unsafe(no_mangle)]
pub extern "C" fn mntgate_thaw_at_once(
    task: &mut TaskHandle,
    by_kernel: bool,
    outcome: &mut Outcome,
) -> u32
    requires { task.old.full ≡ true }
    ensures full { task.new.full ≡ true }
    ensures begun { BeginsAtOnce (Thaw (holder_of by_kernel)) task.old.state task.new.state (begun_at result outcome.new) }
    ensures refused { OnErr (answer_of result) (outcome.new ≡ outcome.old) }
{
    let Member { gates, task } = task.member();
    begun(task.thaw_at_once(gates, holder(by_kernel)), outcome)
}
