//! Two tasks in one thread that meet, or send each other receipts: what a call of one tells then, whatever tasks of other threads do. Each contract is a
//! use of a law of `vfs_gates::laws::one_world`, and isn't met without it.

ghost use Rattle.std.specs.Prelude.{◌≡◌, IfOk, List, Ok};
ghost use Rattle.vfs_gates.specs.Grown.{StaySeen};
ghost use Rattle.vfs_gates.specs.Meetings.{Entry};
ghost use Rattle.vfs_gates.specs.Runs.{ProgressMatches};
ghost use Rattle.vfs_gates.specs.TaskStates.{IsFrom};

use crate::models::passed;
use std::alloc::Global;
use std::sync::Wait;
use std::test::Fail;
use vfs_gates::{Config, GateError, Gates, Holder, Op, Progress, Task};

/// The mount of these gates.
const MOUNT: u8 = 0;

/// Their processor.
const CPU: u8 = 0;

/// Three tasks, and no tree to speak of.
const CONFIG: Config = Config {
    tasks: 3,
    processors: 1,
    mounts: 1,
    nodes: 2,
    capacity: 0,
};

/// Makes all read-only by the backup while the writer holds an access. It is never done (`a_task_beside_keeps_the_mount_writable`).
fn remount_while_held<R: Wait>(
    rt: &R,
    gates: &Gates,
    backup: &mut Task,
    writer: &mut Task,
) -> Result<Result<(), GateError>, GateError>
    requires backup { IsFrom backup.old gates.now }
    requires writer { IsFrom writer.old gates.now }
    ensures { IfOk result (λ remount. remount ≡ Ok tt → ⊥) }
{
    writer.want_write(rt, gates, MOUNT, CPU)?;
    backup.meet(gates, writer);
    let remount = backup.remount_sb(rt, gates, true, &mut ());
    backup.meet(gates, writer);
    writer.drop_write(gates, MOUNT, CPU)?;
    Ok(remount)
}

/// Makes the mount read-only by the backup between two receipts of the writer, which holds an access there from before the first until after the
/// second. It is never done (`a_holder_that_sent_word_keeps_the_mount_writable`).
fn change_between_words<R: Wait>(
    rt: &R,
    gates: &Gates,
    backup: &mut Task,
    writer: &mut Task,
) -> Result<Result<(), GateError>, GateError>
    requires backup { IsFrom backup.old gates.now }
    requires writer { IsFrom writer.old gates.now }
    ensures { IfOk result (λ change. change ≡ Ok tt → ⊥) }
{
    writer.want_write(rt, gates, MOUNT, CPU)?;
    let held = writer.receipt(gates);
    backup.take_in(gates, held);
    let change = backup.change_mount(rt, gates, MOUNT, true);
    let tried = backup.receipt(gates);
    writer.take_in(gates, tried);
    writer.drop_write(gates, MOUNT, CPU)?;
    Ok(change)
}

/// Does the first two steps of an operation, between which its task meets another. What they tell is of one operation
/// (`an_operation_goes_on_across_a_meeting`).
fn step_across_a_meeting(
    gates: &Gates,
    one: &mut Task,
    two: &mut Task,
    op: Op,
) -> Result<Progress, GateError>
    requires one { IsFrom one.old gates.now }
    requires two { IsFrom two.old gates.now }
    ensures { IfOk result (λ progress. ProgressMatches op one.old progress one.new) }
{
    one.begin(op)?;
    let first = one.step(gates, Ok(()));
    if let Progress::Done(_) = first.progress {
        return Ok(first.progress);
    }
    one.meet(gates, two);
    let second = one.step(gates, Ok(()));
    Ok(second.progress)
}

/// Begins an operation, meets another task, and does the first step. What that tells is of the operation, which begins after all that either had seen
/// (`an_operation_goes_on_across_a_meeting`, before the first step).
fn begin_before_a_meeting(
    gates: &Gates,
    one: &mut Task,
    two: &mut Task,
    op: Op,
) -> Result<Progress, GateError>
    requires one { IsFrom one.old gates.now }
    requires two { IsFrom two.old gates.now }
    ensures { IfOk result (λ progress. (seen : List (List Entry)) × StaySeen one.old.seen seen × StaySeen two.old.seen seen ×
        ProgressMatches op (record one.old { seen = seen }) progress one.new) }
{
    one.begin(op)?;
    one.meet(gates, two);
    let first = one.step(gates, Ok(()));
    Ok(first.progress)
}

/// Makes all read-only by the backup while the writer holds an access, and gives a number to a new task meanwhile. It is never done: whichever of the two
/// has the number that took the access, has it with its list (`a_list_goes_with_its_number`, `a_holder_keeps_the_mount_writable`).
fn remount_while_the_holder_splits<R: Wait>(
    rt: &R,
    alloc: Global,
    gates: &Gates,
    backup: &mut Task,
    writer: &mut Task,
) -> Result<Result<(), GateError>, GateError>
    requires backup { IsFrom backup.old gates.now }
    requires writer { IsFrom writer.old gates.now }
    ensures { IfOk result (λ remount. remount ≡ Ok tt → ⊥) }
{
    writer.want_write(rt, gates, MOUNT, CPU)?;
    backup.meet(gates, writer);
    let mut third = writer.split(alloc, gates)?;
    let remount = backup.remount_sb(rt, gates, true, &mut ());
    backup.meet(gates, writer);
    backup.meet(gates, &mut third);
    writer.drop_write(gates, MOUNT, CPU)?;
    Ok(remount)
}

/// Two tasks at gates of their own.
///
/// # Errors
///
/// NoMemory if there is none for them.
pub fn two_tasks(alloc: Global) -> Result<(Gates, Task, Task), GateError>
    ensures { IfOk result (λ made. IsFrom made.1 made.0 × IsFrom made.2 made.0) }
{
    let (gates, mut writer) = Gates::new(alloc, CONFIG)?;
    let backup = writer.split(alloc, &gates)?;
    Ok((gates, writer, backup))
}

/// Whether the remount is Busy.
fn remount_is_busy<R: Wait>(rt: &R, alloc: Global) -> Result<bool, GateError> {
    let (gates, mut writer, mut backup) = two_tasks(alloc)?;
    let remount = remount_while_held(rt, &gates, &mut backup, &mut writer)?;
    Ok(remount == Err(GateError::Busy))
}

/// Whether the change is Busy.
fn change_is_busy<R: Wait>(rt: &R, alloc: Global) -> Result<bool, GateError> {
    let (gates, mut writer, mut backup) = two_tasks(alloc)?;
    let change = change_between_words(rt, &gates, &mut backup, &mut writer)?;
    Ok(change == Err(GateError::Busy))
}

/// Whether the remount is Busy that is made while the holder splits.
fn split_remount_is_busy<R: Wait>(rt: &R, alloc: Global) -> Result<bool, GateError> {
    let (gates, mut writer, mut backup) = two_tasks(alloc)?;
    let remount = remount_while_the_holder_splits(rt, alloc, &gates, &mut backup, &mut writer)?;
    Ok(remount == Err(GateError::Busy))
}

/// Whether a freeze begins before a meeting.
fn freeze_begins(alloc: Global) -> Result<bool, GateError> {
    let (gates, mut writer, mut backup) = two_tasks(alloc)?;
    let freeze = Op::Freeze {
        holder: Holder::User,
    };
    let freezing = begin_before_a_meeting(&gates, &mut backup, &mut writer, freeze)?;
    Ok(freezing == Progress::Going)
}

/// Whether a freeze goes on across a meeting.
fn freeze_goes_on(alloc: Global) -> Result<bool, GateError> {
    let (gates, mut writer, mut backup) = two_tasks(alloc)?;
    let freeze = Op::Freeze {
        holder: Holder::User,
    };
    let freezing = step_across_a_meeting(&gates, &mut backup, &mut writer, freeze)?;
    Ok(freezing == Progress::Going)
}

#[test]
fn a_task_beside_is_known(rt: HostRuntime) -> Result<(), Fail> {
    passed(
        remount_is_busy(&rt, rt.alloc()) == Ok(true)
            && change_is_busy(&rt, rt.alloc()) == Ok(true)
            && split_remount_is_busy(&rt, rt.alloc()) == Ok(true)
            && freeze_goes_on(rt.alloc()) == Ok(true)
            && freeze_begins(rt.alloc()) == Ok(true),
    )
}
