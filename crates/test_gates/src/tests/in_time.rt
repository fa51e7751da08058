//! Calls in the order of time: when they took effect, and what comes after what. Each contract is a use of a law of `vfs_gates::laws::in_time`, or of
//! `a_call_comes_after_what_its_task_was_told`, and isn't met without it. docs/testing.md says which bodies each refuses.

ghost use Rattle.std.specs.Prelude.{◌≡◌, true, false, IfErr, IfOk, OnOk};
ghost use Rattle.test_gates.specs.InTime.{ComesAfterItsMaker, ComesAfterTheOther, CopiedDuring, DoneInOrder, FoundItSo, LeftAfterBoth, RefusedSince, TookEffect};
ghost use Rattle.vfs_gates.specs.Op.TheVariants.{ChangeMount, Want};
ghost use Rattle.vfs_gates.specs.TaskStates.{IsFrom};

use super::meetings::two_tasks;
use crate::models::passed;
use std::alloc::Global;
use std::sync::Wait;
use std::test::Fail;
use vfs_gates::{Closed, Config, GateError, Gates, Holder, Task};

/// The mount of these gates.
const MOUNT: u8 = 0;

/// Their processor.
const CPU: u8 = 0;

/// Two tasks, and no tree to speak of.
const CONFIG: Config = Config {
    tasks: 2,
    processors: 1,
    mounts: 1,
    nodes: 2,
    capacity: 0,
};

/// Makes the mount read-only. That takes effect between call and return, and if there was nothing to do, it was read-only at an instant between the two
/// (`a_call_takes_effect_between_call_and_return`).
fn shut<R: Wait>(rt: &R, gates: &Gates, task: &mut Task) -> Result<(), GateError>
    requires { IsFrom task.old gates.now }
    ensures effect { OnOk result (TookEffect (ChangeMount 0 true true) task.old task.new) }
    ensures nothing { OnOk result (FoundItSo (ChangeMount 0 true true) task.old task.new) }
{
    task.change_mount(rt, gates, MOUNT, true)
}

/// Makes the mount writable, and asks for an access there. If that is refused, it is for what was so since the mount was made writable
/// (`a_refused_call_has_its_cause_between_call_and_return`).
fn reopen_and_try<R: Wait>(
    rt: &R,
    gates: &Gates,
    task: &mut Task,
) -> Result<Result<(), GateError>, GateError>
    requires { IsFrom task.old gates.now }
    ensures { IfOk result (λ tried. IfErr tried (λ refusal. RefusedSince (ChangeMount 0 false true) (Want 0 0 false) task.old task.new refusal)) }
{
    task.change_mount(rt, gates, MOUNT, false)?;
    Ok(task.try_want(gates, MOUNT, CPU))
}

/// Makes the mount read-only by the backup, and tells the writer, which makes it writable. So the second change comes after the first
/// (`calls_take_effect_in_order`), and after all else that the backup had done (`a_call_comes_after_what_its_task_was_told`).
fn shut_and_tell<R: Wait>(
    rt: &R,
    gates: &Gates,
    backup: &mut Task,
    writer: &mut Task,
) -> Result<(), GateError>
    requires backup { IsFrom backup.old gates.now }
    requires writer { IsFrom writer.old gates.now }
    ensures { OnOk result (DoneInOrder (ChangeMount 0 true true) (ChangeMount 0 false true) backup.old backup.new writer.old writer.new) }
{
    backup.change_mount(rt, gates, MOUNT, true)?;
    let told = backup.receipt(gates);
    writer.take_in(gates, told);
    writer.change_mount(rt, gates, MOUNT, false)
}

/// Makes the mount read-only and writable again, and then a new task, by which it is made read-only. The new task's change comes after the first
/// (`what_was_seen_stays_seen`, over a further call and a split).
fn shut_by_a_new_task<R: Wait>(
    rt: &R,
    alloc: Global,
    gates: &Gates,
    task: &mut Task,
) -> Result<Task, GateError>
    requires { IsFrom task.old gates.now }
    ensures { IfOk result (λ child. ComesAfterItsMaker (ChangeMount 0 true true) task.old child) }
{
    task.change_mount(rt, gates, MOUNT, true)?;
    task.change_mount(rt, gates, MOUNT, false)?;
    let mut child = task.split(alloc, gates)?;
    child.change_mount(rt, gates, MOUNT, true)?;
    Ok(child)
}

/// Makes the mount read-only by one task, which another takes in, by which it is made writable. The second change comes after the first
/// (`what_was_seen_stays_seen`, over a join).
///
/// # Errors
///
/// As `change_mount` and `join`; of the latter with the task that isn't taken in let go.
fn reopen_for_both<R: Wait>(
    rt: &R,
    gates: &Gates,
    task: &mut Task,
    mut other: Task,
) -> Result<(), GateError>
    requires task { IsFrom task.old gates.now }
    requires other { IsFrom other gates.now }
    ensures { OnOk result (ComesAfterTheOther (ChangeMount 0 true true) other task.new) }
{
    other.change_mount(rt, gates, MOUNT, true)?;
    if let Err((refusal, _)) = task.join(gates, other) {
        return Err(refusal);
    }
    task.change_mount(rt, gates, MOUNT, false)
}

/// Closes the gates of two tasks. What they leave is left after all that either had seen (`closed_gates_are_left_after_all_that_was_seen`).
///
/// # Errors
///
/// As `join` and `close`; then all are let go.
fn close_after_both(gates: Gates, mut one: Task, two: Task) -> Result<Closed, GateError>
    requires one { IsFrom one gates }
    requires two { IsFrom two gates }
    ensures { IfOk result (λ closed. LeftAfterBoth closed one two) }
{
    if let Err((refusal, _)) = one.join(&gates, two) {
        return Err(refusal);
    }
    match gates.close(one) {
        Ok(closed) => Ok(closed),
        Err((refusal, _, _)) => Err(refusal),
    }
}

/// Copies the frozen tree. It was frozen between call and return (`a_snapshot_is_of_a_freeze_that_stood_during_the_call`).
fn copy_now<R: Wait>(rt: &R, gates: &Gates, task: &mut Task) -> Result<(), GateError>
    requires { IsFrom task.old gates.now }
    ensures { OnOk result (CopiedDuring task.old task.new) }
{
    task.snapshot(rt, gates)
}

/// Whether a mount is made read-only.
fn is_shut<R: Wait>(rt: &R, alloc: Global) -> Result<(), GateError> {
    let (gates, mut task) = Gates::new(alloc, CONFIG)?;
    shut(rt, &gates, &mut task)
}

/// What is asked for at a mount that was made writable.
fn is_tried<R: Wait>(rt: &R, alloc: Global) -> Result<Result<(), GateError>, GateError> {
    let (gates, mut task) = Gates::new(alloc, CONFIG)?;
    reopen_and_try(rt, &gates, &mut task)
}

/// Whether the writer's change is done after the backup's.
fn is_told<R: Wait>(rt: &R, alloc: Global) -> Result<(), GateError> {
    let (gates, mut writer, mut backup) = two_tasks(alloc)?;
    shut_and_tell(rt, &gates, &mut backup, &mut writer)
}

/// The new task, by which the mount was made read-only.
fn is_shut_anew<R: Wait>(rt: &R, alloc: Global) -> Result<Task, GateError> {
    let (gates, mut task) = Gates::new(alloc, CONFIG)?;
    shut_by_a_new_task(rt, alloc, &gates, &mut task)
}

/// Whether a task's change is done after that of another, which it has taken in.
fn is_reopened<R: Wait>(rt: &R, alloc: Global) -> Result<(), GateError> {
    let (gates, mut writer, backup) = two_tasks(alloc)?;
    reopen_for_both(rt, &gates, &mut writer, backup)
}

/// Whether a frozen tree is copied.
fn is_copied<R: Wait>(rt: &R, alloc: Global) -> Result<(), GateError> {
    let (gates, mut task) = Gates::new(alloc, CONFIG)?;
    task.freeze(rt, &gates, Holder::User, &mut ())?;
    copy_now(rt, &gates, &mut task)
}

/// The gates of two tasks, closed.
fn is_closed(alloc: Global) -> Result<Closed, GateError> {
    let (gates, writer, backup) = two_tasks(alloc)?;
    close_after_both(gates, writer, backup)
}

#[test]
fn calls_are_in_order(rt: HostRuntime) -> Result<(), Fail> {
    let alloc = rt.alloc();
    passed(
        is_shut(&rt, alloc) == Ok(())
            && is_tried(&rt, alloc) == Ok(Ok(()))
            && is_told(&rt, alloc) == Ok(())
            && is_shut_anew(&rt, alloc).is_ok()
            && is_reopened(&rt, alloc) == Ok(())
            && is_copied(&rt, alloc) == Ok(())
            && is_closed(alloc).is_ok(),
    )
}
