//! Mounts: the writer counts of `mnt_want_write` and `mnt_drop_write`, the change of a mount's own read-only flag, and the remount
//! of the superblock, each as an order of steps on words. A phase says which step comes next, and what comes after it.
#![tactic(auto)]

pub mod flags;
pub mod laws;
pub mod phases;
pub mod remounts;
pub mod sets;

pub use flags::MountFlags;
pub use phases::{Change, ChangeStep, MountPhase, Want, WantStep};
pub use remounts::{Remount, RemountStep};
pub use sets::MountSet;
