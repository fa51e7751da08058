//! A task with the only number of its gates: what its freeze and its snapshot can't be refused as. Each contract is a use of a law of
//! `vfs_gates::laws::in_time` that closed gates tell, and isn't met without it. docs/testing.md says which bodies each refuses.

ghost use Rattle.std.specs.Prelude.{◌≡◌, true, Err, IfOk, OnOk};
ghost use Rattle.test_gates.specs.InTime.{LeftFrozen, StayedFrozen};
ghost use Rattle.vfs_gates.specs.GateError.TheVariants.{Busy, Invalid};
ghost use Rattle.vfs_gates.specs.Op.TheVariants.{Snapshot};
ghost use Rattle.access_model.specs.declared.actions.Holder.TheVariants.{User};
ghost use Rattle.vfs_gates.specs.Ended.{EndedWith};
ghost use Rattle.vfs_gates.specs.TaskStates.{IsFrom};

use crate::models::passed;
use std::alloc::Global;
use std::sync::Wait;
use std::test::Fail;
use vfs_gates::{Closed, Config, GateError, Gates, Holder, Task};

/// One task, and no tree to speak of.
const CONFIG: Config = Config {
    tasks: 1,
    processors: 1,
    mounts: 1,
    nodes: 2,
    capacity: 0,
};

/// Closes the gates.
///
/// # Errors
///
/// As `close`; then both are let go.
fn close(gates: Gates, task: Task) -> Result<Closed, GateError>
    requires { IsFrom task gates }
    ensures { IfOk result (λ closed. EndedWith task.config closed.words task.items task.seen) }
{
    match gates.close(task) {
        Ok(closed) => Ok(closed),
        Err((refusal, _, _)) => Err(refusal),
    }
}

/// Freezes, where nobody else can have frozen. That isn't Busy (`a_freeze_is_busy_only_beside_another`).
fn freeze_alone<R: Wait>(rt: &R, alloc: Global) -> Result<Result<(), GateError>, GateError>
    ensures { IfOk result (λ frozen. frozen ≡ Err Busy → ⊥) }
{
    let (gates, mut task) = Gates::new(alloc, CONFIG)?;
    let frozen = task.freeze(rt, &gates, Holder::User, &mut ());
    close(gates, task)?;
    Ok(frozen)
}

/// Freezes, and takes a snapshot, where nobody else can thaw. That isn't Invalid (`a_freeze_stands_until_it_is_thawed`), and if it is done, all is still
/// frozen behind it, with the tree as it was (`a_frozen_tree_stays_until_it_is_thawed`).
fn copy_alone<R: Wait>(rt: &R, alloc: Global) -> Result<Result<(), GateError>, GateError>
    ensures stands { IfOk result (λ copied. copied ≡ Err Invalid → ⊥) }
    ensures tree { IfOk result (λ copied. OnOk copied (StayedFrozen User (Snapshot true))) }
{
    let (gates, mut task) = Gates::new(alloc, CONFIG)?;
    task.freeze(rt, &gates, Holder::User, &mut ())?;
    let copied = task.snapshot(rt, &gates);
    close(gates, task)?;
    Ok(copied)
}

/// Freezes, and closes the gates, where nobody else can thaw. What they leave is frozen still, with the tree as it was
/// (`a_frozen_tree_stays_until_it_is_thawed`, of states).
fn freeze_and_close<R: Wait>(rt: &R, alloc: Global) -> Result<Closed, GateError>
    ensures { IfOk result (λ closed. LeftFrozen User closed.words) }
{
    let (gates, mut task) = Gates::new(alloc, CONFIG)?;
    task.freeze(rt, &gates, Holder::User, &mut ())?;
    close(gates, task)
}

#[test]
fn a_task_alone_freezes_and_copies(rt: HostRuntime) -> Result<(), Fail> {
    passed(
        freeze_alone(&rt, rt.alloc()) == Ok(Ok(()))
            && copy_alone(&rt, rt.alloc()) == Ok(Ok(()))
            && freeze_and_close(&rt, rt.alloc()).is_ok(),
    )
}
