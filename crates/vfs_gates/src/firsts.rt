//! Where operations stand as they begin, in the form of their own kind.

ghost use Rattle.std.specs.Prelude.{◌≡◌};
ghost use Rattle.gate_world.specs.Beginnings.{first_phase};
ghost use Rattle.gate_world.specs.declared.operations.Op.TheVariants.{RemountSb, WantWrite, Callback as CallbackOp, Freeze as FreezeOp, Snapshot as SnapshotOp, Thaw as ThawOp};
ghost use Rattle.gate_world.specs.declared.work.Phase.TheVariants.{Callbacks, Freezes, Remounts, Thaws, Writes};
ghost use Rattle.gated_tree.specs.declared.snapshots.SnapshotStep.TheVariants.{Locks};
ghost use Rattle.vfs_gates.specs.Noted.{snapshot_at};

use crate::task::Task;
use access_model::Holder;
use composite_ops::WritePhase;
use freeze_levels::{Freeze, Thaw};
use gate_world::Config;
use gated_tree::Snapshot;
use mount_counts::Remount;
use percpu_rwsem::Callback;

impl Task {
    ghost use Rattle.vfs_gates.specs.TaskStates.{own_number};

    /// A taking of write access by the task that is to begin.
    #[inline(always)]
    pub(crate) fn first_taking(&self, mount: u8, cpu: u8) -> WritePhase
        ensures { Writes result ≡ first_phase self.now.config (own_number self.now.items) (WantWrite mount cpu) }
    {
        WritePhase::new(mount, cpu, self.number())
    }

    /// A callback by the task that is to begin.
    #[inline(always)]
    pub(crate) fn first_callback(&self, level: u8) -> Callback
        ensures { Callbacks result ≡ first_phase self.now.config (own_number self.now.items) (CallbackOp level) }
    {
        Callback::new(level, self.config.tasks)
    }

    /// A remount by the task that is to begin.
    #[inline(always)]
    pub(crate) fn first_remount(&self, read_only: bool) -> Remount
        ensures { Remounts result ≡ first_phase self.now.config (own_number self.now.items) (RemountSb read_only) }
    {
        let Config {
            processors,
            mounts,
            nodes,
            ..
        } = self.config;
        Remount::new(read_only, self.number(), processors, mounts, nodes)
    }

    /// A freeze by the task that is to begin.
    #[inline(always)]
    pub(crate) fn first_freeze(&self, holder: Holder) -> Freeze
        ensures { Freezes result ≡ first_phase self.now.config (own_number self.now.items) (FreezeOp holder) }
    {
        let Config {
            tasks,
            processors,
            nodes,
            ..
        } = self.config;
        Freeze::new(holder, self.number(), tasks, processors, nodes)
    }

    /// A thaw by the task that is to begin.
    #[inline(always)]
    pub(crate) fn first_thaw(&self, holder: Holder) -> Thaw
        ensures { Thaws result ≡ first_phase self.now.config (own_number self.now.items) (ThawOp holder) }
    {
        Thaw::new(holder, self.number())
    }

    /// A snapshot by the task that is to begin.
    #[inline(always)]
    pub(crate) fn first_snapshot(&self, wait: bool) -> Snapshot
        ensures { snapshot_at result Locks ≡ first_phase self.now.config (own_number self.now.items) (SnapshotOp wait) }
    {
        Snapshot::new(wait, self.number(), self.config.nodes)
    }
}
