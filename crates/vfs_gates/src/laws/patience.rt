//! Laws of freezes that wait for nobody inside. The functions here do nothing: their contracts are the laws.

ghost use Rattle.std.specs.Prelude.{Ok};
ghost use Rattle.access_model.specs.declared.actions.Holder.{Holder};
ghost use Rattle.gate_world.specs.declared.operations.Op.TheVariants.{Freeze};
ghost use Rattle.gate_steps.specs.call_events.Asking.{PerformsAsking};
ghost use Rattle.vfs_gates.specs.Found.{FrozeAtOnce};
ghost use Rattle.vfs_gates.specs.Patience.{without_patience};
ghost use Rattle.vfs_gates.specs.TaskStates.{SeatedTask};

use gate_steps::call_events::TimedHooks;

/// A `Task::try_freeze` that was granted has waited for nobody inside: each level that it closed was summed once, and nobody was counted there. So it
/// never asked the file system whether to wait: it asked `sync` and then `freeze_fs`, each once, or no hook, if the superblock is read-only or was
/// frozen before. It may have waited for `umount`, and for the grace period of a level.
pub fn a_granted_try_freeze_waited_for_nobody<H: TimedHooks>()
    ensures { (holder : Holder) (old left : SeatedTask) (before after : H) →
        PerformsAsking (without_patience H.answers) (Freeze holder) old left (Ok tt) before after → FrozeAtOnce holder old left }
{}
