//! A backup and a writer in one thread: what their calls answer, whatever tasks of other threads do.

ghost use Rattle.std.specs.Prelude.{◌≡◌, ◌<◌, ◌++◌, ℕ, false, Err, IfOk, None};
ghost use Rattle.vfs_gates.specs.GateError.TheVariants.{Again};
ghost use Rattle.vfs_gates.specs.Meetings.{HaveAll, HoldsAt, NoneDone, Seals};
ghost use Rattle.vfs_gates.specs.Op.TheVariants.{Start};
ghost use Rattle.vfs_gates.specs.Rounds.{Busy, IsFrom, ReadOnly, Rests};
ghost use Rattle.vfs_gates.specs.Seating.{times};
ghost use Rattle.vfs_gates.specs.TaskStates.{refusal_at};

use std::sync::Wait;
use vfs_gates::{GateError, Gates, Holder, Task};

/// Makes a mount read-only by the backup while the writer holds an access there. It is always Busy.
///
/// The two tasks meet before the call and after it. That does nothing when it runs; by it the contract knows that the writer's access stood at each
/// moment of the call.
pub(crate) fn change_while_held<R: Wait>(
    rt: &R,
    gates: &Gates,
    backup: &mut Task,
    writer: &mut Task,
    mount: u8,
) -> Result<(), GateError>
    requires backup { IsFrom backup.old gates.now }
    requires writer { IsFrom writer.old gates.now }
    requires rests { Rests backup.old }
    requires mount { mount < backup.old.config.mounts }
    requires holds { HoldsAt mount writer.old }
    ensures busy { result ≡ Err Busy }
    ensures from { IsFrom backup.new gates.now }
    ensures rests { Rests backup.new }
    ensures numbers { (n : ℕ) → times n backup.new.items ≡ times n backup.old.items }
    ensures writer { writer.new ≡ record writer.old { seen = writer.new.seen } }
{
    backup.meet(gates, writer);
    let outcome = backup.change_mount(rt, gates, mount, true);
    backup.meet(gates, writer);
    outcome
}

/// Makes a mount read-only by the backup, and then asks for write access there by the writer. The two tasks have all numbers of their gates, so
/// nobody else can make the mount writable: if the change is done, the write access is always ReadOnly.
///
/// # Errors
///
/// As `change_mount`; then no write access was asked for.
pub(crate) fn write_while_read_only<R: Wait>(
    rt: &R,
    gates: &Gates,
    backup: &mut Task,
    writer: &mut Task,
    mount: u8,
    cpu: u8,
) -> Result<Result<(), GateError>, GateError>
    requires backup { IsFrom backup.old gates.now }
    requires writer { IsFrom writer.old gates.now }
    requires rests { Rests writer.old }
    requires mount { mount < writer.old.config.mounts }
    requires cpu { cpu < writer.old.config.processors }
    requires all { HaveAll backup.old writer.old }
    ensures read_only { IfOk result (λ late. late ≡ Err ReadOnly) }
    ensures backup { IsFrom backup.new gates.now }
    ensures writer { IsFrom writer.new gates.now }
{
    backup.meet(gates, writer);
    backup.change_mount(rt, gates, mount, true)?;
    backup.meet(gates, writer);
    let late = writer.want_write(rt, gates, mount, cpu);
    backup.meet(gates, writer);
    Ok(late)
}

/// Freezes by the backup, and then asks by the writer to go inside a level, without waiting. The two tasks have all numbers of their gates, and none of
/// these has made the superblock read-only: if the freeze is granted, the start is always Again.
///
/// # Errors
///
/// As `freeze`; then no start was asked for.
pub(crate) fn start_while_frozen<R: Wait>(
    rt: &R,
    gates: &Gates,
    backup: &mut Task,
    writer: &mut Task,
    level: u8,
    cpu: u8,
) -> Result<Result<(), GateError>, GateError>
    requires backup { IsFrom backup.old gates.now }
    requires writer { IsFrom writer.old gates.now }
    requires begins { refusal_at (Start level cpu false) writer.old ≡ None }
    requires all { HaveAll backup.old writer.old }
    requires writable { NoneDone Seals (backup.old.items ++ writer.old.items) }
    ensures again { IfOk result (λ late. late ≡ Err Again) }
{
    backup.meet(gates, writer);
    backup.freeze(rt, gates, Holder::User, &mut ())?;
    backup.meet(gates, writer);
    let late = writer.try_start(gates, level, cpu);
    backup.meet(gates, writer);
    Ok(late)
}
