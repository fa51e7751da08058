//! What a task is at: a phase of one of the layers.

ghost use Rattle.std.specs.Prelude.{◌≡◌};
ghost use Rattle.gate_world.specs.Work.{hook_of};

use composite_ops::{ClosePhase, WritePhase};
use freeze_levels::{Freeze, HookKind, Thaw};
use gated_tree::TreePhase;
use mount_counts::{MountPhase, Remount, RemountStep};
use percpu_rwsem::{Callback, DownRead, UpRead};

/// Where an operation under way stands, between two of its steps.
#[derive(Clone, Copy, PartialEq, Eq)]
pub enum Phase {
    /// A want, a drop or a change of a mount.
    Mounts(MountPhase),
    /// A remount of the superblock.
    Remounts(Remount),
    /// A start at a freeze level.
    DownReads(DownRead),
    /// An end at a freeze level.
    UpReads(UpRead),
    /// A callback of a freeze level.
    Callbacks(Callback),
    /// A taking or a return of write access.
    Writes(WritePhase),
    /// A freeze of the superblock.
    Freezes(Freeze),
    /// A thaw of it.
    Thaws(Thaw),
    /// A call at the tree, or a snapshot of it.
    Trees(TreePhase),
    /// A close of a file.
    Closes(ClosePhase),
}

impl Phase {
    /// The hook whose answer the next step reads; None where that ignores the answer.
    pub fn wants_hook(&self) -> Option<HookKind>
        ensures { result ≡ hook_of self.now }
    {
        match self {
            Phase::Remounts(
                Remount {
                    step: RemountStep::SetsWritable | RemountStep::SetsReadOnly,
                    ..
                },
            ) => Some(HookKind::Reconfigure),
            Phase::Freezes(freeze) => freeze.wants_hook(),
            Phase::Thaws(thaw) => thaw.wants_hook(),
            _ => None,
        }
    }
}
