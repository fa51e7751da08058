//! Laws of freezes that a hook has refused. The functions here do nothing: their contracts are the laws.

ghost use Rattle.std.specs.Prelude.{ℕ, Err};
ghost use Rattle.access_model.specs.declared.actions.Holder.{Holder};
ghost use Rattle.access_model.specs.declared.errors.GateError.TheVariants.{Hook};
ghost use Rattle.gate_world.specs.declared.operations.Op.TheVariants.{Freeze};
ghost use Rattle.gate_steps.specs.call_events.Runs.{Performs};
ghost use Rattle.vfs_gates.specs.TaskStates.{SeatedTask, IsIdle};
ghost use Rattle.vfs_gates.specs.Held.{IsAsBefore};
ghost use Rattle.vfs_gates.specs.Undone.{LeavesNothing};

/// A freeze that a hook's code refused, one that gave up among them (`Task::try_freeze`, `Task::freeze_within`), leaves nothing behind at its answer:
/// the stage is 0, no level is closed, `umount` is free, and at most dirty marks were cleared. And its task is as it was before the call. Does nothing:
/// its contract is the law.
pub fn a_freeze_that_a_hook_refused_leaves_nothing()
    ensures gates { (holder : Holder) (old left : SeatedTask) (code : ℕ) → Performs (Freeze holder) old left (Err (Hook code)) →
        LeavesNothing old left }
    ensures task { (holder : Holder) (old left : SeatedTask) (code : ℕ) → IsIdle old → Performs (Freeze holder) old left (Err (Hook code)) →
        IsAsBefore old left }
{}
