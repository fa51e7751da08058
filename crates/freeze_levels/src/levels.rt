//! A level that a freeze closes, and one that a failed freeze or a thaw reopens, before its first step.

ghost use Rattle.std.specs.Prelude.{◌≡◌};
ghost use Rattle.freeze_levels.specs.Levels.{closing, reopening};

use percpu_rwsem::{DownWrite, DownWriteStep, Transition, UpWrite, UpWriteStep};

/// The down-write of a level that begins, among so many tasks and processors.
#[inline(always)]
pub(crate) fn closing(level: u8, tasks: u8, processors: u8) -> DownWrite
    ensures { result ≡ closing level tasks processors }
{
    DownWrite {
        level,
        tasks,
        processors,
        step: DownWriteStep::Enters(Transition::Loads),
    }
}

/// The up-write of a level that begins.
#[inline(always)]
pub(crate) fn reopening(level: u8) -> UpWrite
    ensures { result ≡ reopening level }
{
    UpWrite {
        level,
        step: UpWriteStep::ClearsBlock,
    }
}
