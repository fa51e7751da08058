//! Accesses at mounts and levels, and the change of a mount: calls that wait for nobody.

ghost use Rattle.std.specs.Prelude.{◌≡◌, true, false};
ghost use Rattle.gate_world.specs.declared.operations.Op.TheVariants.{Want, DropMount, ChangeMount, Start, End, DropWrite};
ghost use Rattle.gate_steps.specs.call_events.Runs.{Performs};
ghost use Rattle.mntgate_c.specs.Codes.{answer_of};

use crate::codes::code;
use crate::handles::TaskHandle;
use crate::members::Member;

/// Takes an access at a mount, counted on a processor (`__mnt_want_write` that doesn't wait).
#[unsafe(no_mangle)]
pub extern "C" fn mntgate_try_want(task: &mut TaskHandle, mount: u8, cpu: u8) -> u32
    requires { task.old.full ≡ true }
    ensures full { task.new.full ≡ true }
    ensures done { Performs (Want mount cpu false) task.old.state task.new.state (answer_of result) }
{
    let Member { gates, task } = task.member();
    code(task.try_want(gates, mount, cpu))
}

/// Gives an access at a mount back, on any processor (`__mnt_drop_write`).
#[unsafe(no_mangle)]
pub extern "C" fn mntgate_drop_mount(task: &mut TaskHandle, mount: u8, cpu: u8) -> u32
    requires { task.old.full ≡ true }
    ensures full { task.new.full ≡ true }
    ensures done { Performs (DropMount mount cpu) task.old.state task.new.state (answer_of result) }
{
    let Member { gates, task } = task.member();
    code(task.drop_mount(gates, mount, cpu))
}

/// Goes inside a freeze level, counted on a processor (`sb_start_write_trylock`).
#[unsafe(no_mangle)]
pub extern "C" fn mntgate_try_start(task: &mut TaskHandle, level: u8, cpu: u8) -> u32
    requires { task.old.full ≡ true }
    ensures full { task.new.full ≡ true }
    ensures done { Performs (Start level cpu false) task.old.state task.new.state (answer_of result) }
{
    let Member { gates, task } = task.member();
    code(task.try_start(gates, level, cpu))
}

/// Leaves a freeze level, on any processor (`sb_end_write`).
#[unsafe(no_mangle)]
pub extern "C" fn mntgate_end(task: &mut TaskHandle, level: u8, cpu: u8) -> u32
    requires { task.old.full ≡ true }
    ensures full { task.new.full ≡ true }
    ensures done { Performs (End level cpu) task.old.state task.new.state (answer_of result) }
{
    let Member { gates, task } = task.member();
    code(task.end(gates, level, cpu))
}

/// Gives an access at a mount back and leaves level 1 (`mnt_drop_write`).
#[unsafe(no_mangle)]
pub extern "C" fn mntgate_drop_write(task: &mut TaskHandle, mount: u8, cpu: u8) -> u32
    requires { task.old.full ≡ true }
    ensures full { task.new.full ≡ true }
    ensures done { Performs (DropWrite mount cpu) task.old.state task.new.state (answer_of result) }
{
    let Member { gates, task } = task.member();
    code(task.drop_write(gates, mount, cpu))
}

/// Makes a mount read-only, or writable again, without waiting (`mnt_make_readonly`).
#[unsafe(no_mangle)]
pub extern "C" fn mntgate_try_change_mount(task: &mut TaskHandle, mount: u8, read_only: bool) -> u32
    requires { task.old.full ≡ true }
    ensures full { task.new.full ≡ true }
    ensures done { Performs (ChangeMount mount read_only false) task.old.state task.new.state (answer_of result) }
{
    let Member { gates, task } = task.member();
    code(task.try_change_mount(gates, mount, read_only))
}
