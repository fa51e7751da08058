//! Freezes and thaws of the superblock, each as an order of steps on words, and the file system that they and a remount ask: its
//! hooks. A phase says which step comes next, and what comes after it.
#![tactic(auto)]

ghost use Rattle.freeze_levels.specs.declared.freezes.Freeze.{Freeze as FreezeType};
ghost use Rattle.freeze_levels.specs.declared.thaws.Thaw.{Thaw as ThawType};
ghost use Rattle.freeze_levels.specs.Answers.{FreezeIgnoresAnswer, ThawIgnoresAnswer};

pub mod freezes;
pub mod holder_laws;
pub mod holders;
pub mod hooks;
pub mod levels;
pub mod phases;
pub mod thaws;

pub use freezes::{Freeze, FreezeStep};
pub use hooks::{FsHooks, HookCall, HookKind};
pub use phases::FreezePhase;
pub use thaws::{Thaw, ThawStep};

/// A step of a freeze or a thaw that reads no hook's answer is the same whatever a hook answers, and so is what comes after it. Does
/// nothing: its contract is the law.
pub fn an_event_ignores_answers_that_it_does_not_read()
    ensures of_freezes { (x : FreezeType) → FreezeIgnoresAnswer x }
    ensures of_thaws { (x : ThawType) → ThawIgnoresAnswer x }
{}
