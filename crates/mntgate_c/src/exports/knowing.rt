//! What a task knows of itself. These change nothing.

ghost use Rattle.std.specs.Prelude.{◌≡◌, ◌<◌, ◌≤◌, ◌↔◌, true, false, IsTrue};
ghost use Rattle.gate_world.specs.Views.{held_at, holds_level as is_inside, has_open as opens_file};
ghost use Rattle.vfs_gates.specs.Held.{Rests};
ghost use Rattle.vfs_gates.specs.TaskStates.{IsIdle, own_number, own_view};
ghost use Rattle.vfs_gates.specs.Waits.{waited_at};

use crate::handles::TaskHandle;

/// Answers the task's own number.
#[unsafe(no_mangle)]
pub extern "C" fn mntgate_number(task: &mut TaskHandle) -> u8
    requires { task.old.full ≡ true }
    ensures full { task.new.full ≡ true }
    ensures same { task.new.state ≡ task.old.state }
    ensures told { result ≡ own_number task.old.state.items }
{
    task.member().task.number()
}

/// Answers whether no operation is under way.
#[unsafe(no_mangle)]
pub extern "C" fn mntgate_is_idle(task: &mut TaskHandle) -> bool
    requires { task.old.full ≡ true }
    ensures full { task.new.full ≡ true }
    ensures same { task.new.state ≡ task.old.state }
    ensures told { IsTrue result ↔ IsIdle task.old.state }
{
    task.member().task.is_idle()
}

/// Answers whether no operation is under way, and nothing is held.
#[unsafe(no_mangle)]
pub extern "C" fn mntgate_rests(task: &mut TaskHandle) -> bool
    requires { task.old.full ≡ true }
    ensures full { task.new.full ≡ true }
    ensures same { task.new.state ≡ task.old.state }
    ensures told { IsTrue result ↔ Rests task.old.state }
{
    task.member().task.rests()
}

/// Answers how many accesses the task holds at a mount; 0 where there is no such mount.
#[unsafe(no_mangle)]
pub extern "C" fn mntgate_holds_mount(task: &mut TaskHandle, mount: u8) -> u16
    requires { task.old.full ≡ true }
    ensures full { task.new.full ≡ true }
    ensures same { task.new.state ≡ task.old.state }
    ensures there { mount < task.old.state.config.mounts → result ≡ held_at (own_view task.old.state.items) mount }
    ensures not_there { task.old.state.config.mounts ≤ mount → result ≡ 0 }
{
    task.member().task.holds_mount(mount)
}

/// Answers whether the task is inside a freeze level, 1 to 3.
#[unsafe(no_mangle)]
pub extern "C" fn mntgate_holds_level(task: &mut TaskHandle, level: u8) -> bool
    requires { task.old.full ≡ true }
    ensures full { task.new.full ≡ true }
    ensures same { task.new.state ≡ task.old.state }
    ensures there { (1 ≤ level) × (level ≤ 3) → result ≡ is_inside (own_view task.old.state.items) level }
    ensures not_there { ¬ ((1 ≤ level) × (level ≤ 3)) → result ≡ false }
{
    task.member().task.holds_level(level)
}

/// Answers whether the task has a file open; false where there is no such node.
#[unsafe(no_mangle)]
pub extern "C" fn mntgate_has_open(task: &mut TaskHandle, file: u8) -> bool
    requires { task.old.full ≡ true }
    ensures full { task.new.full ≡ true }
    ensures same { task.new.state ≡ task.old.state }
    ensures there { file < task.old.state.config.nodes → result ≡ opens_file (own_view task.old.state.items) file }
    ensures not_there { task.old.state.config.nodes ≤ file → result ≡ false }
{
    task.member().task.has_open(file)
}

/// Answers how often the last operation came to a wait.
#[unsafe(no_mangle)]
pub extern "C" fn mntgate_waited(task: &mut TaskHandle) -> u64
    requires { task.old.full ≡ true }
    ensures full { task.new.full ≡ true }
    ensures same { task.new.state ≡ task.old.state }
    ensures told { result ≡ waited_at task.old.state }
{
    task.member().task.waited()
}
