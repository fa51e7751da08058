//! Where a freeze or a thaw stands between two of its steps.

ghost use Rattle.std.specs.Prelude.{◌≡◌};
ghost use Rattle.freeze_levels.specs.Phases.{phase_hook, next, after};

use crate::freezes::Freeze;
use crate::hooks::HookKind;
use crate::thaws::Thaw;
use access_model::{Action, Next, map_after};
use cpu_words::{Touch, WordName};

/// Where a freeze or a thaw of the superblock stands between two of its steps.
#[derive(Clone, Copy)]
pub enum FreezePhase {
    /// `freeze_super`.
    Freeze(Freeze),
    /// `thaw_super`.
    Thaw(Thaw),
}

impl FreezePhase {
    /// Returns the hook whose answer the next step reads, if it reads one.
    #[inline(always)]
    pub fn wants_hook(self) -> Option<HookKind>
        ensures { result ≡ phase_hook self }
    {
        match self {
            FreezePhase::Freeze(freeze) => freeze.wants_hook(),
            FreezePhase::Thaw(thaw) => thaw.wants_hook(),
        }
    }

    /// Returns the word and the touch of the next step, given the file system's answer. A step that the answer doesn't decide
    /// ignores it.
    #[inline(always)]
    pub fn next(self, hook: Result<(), u16>) -> (WordName, Touch)
        ensures { result ≡ next self hook }
    {
        match self {
            FreezePhase::Freeze(freeze) => freeze.next(hook),
            FreezePhase::Thaw(thaw) => thaw.next(hook),
        }
    }

    /// Returns what comes after the step, given the value that it found and the file system's answer, and the action that it adds.
    #[inline(always)]
    pub fn after(self, found: u64, hook: Result<(), u16>) -> (Next<FreezePhase>, Option<Action>)
        ensures { result ≡ after self found hook }
    {
        match self {
            FreezePhase::Freeze(freeze) => map_after(
                freeze.after(found, hook),
                FreezePhase::Freeze,
            ),
            FreezePhase::Thaw(thaw) => map_after(thaw.after(found, hook), FreezePhase::Thaw),
        }
    }
}
