//! Freeze levels: the per-processor reader-writer semaphore of a level, with its `rcu_sync` and its grace periods, each operation as an
//! order of steps on words. A phase says which step comes next, and what comes after it.
#![tactic(auto)]

pub mod callbacks;
pub mod grace;
pub mod phases;
pub mod readers;
pub mod sync_word;
pub mod transitions;
pub mod writers;

pub use callbacks::{Callback, CallbackStep};
pub use grace::{Grace, GraceNext};
pub use phases::SemPhase;
pub use readers::{DownRead, DownReadStep, UpRead};
pub use sync_word::{GpState, SyncWord};
pub use transitions::{Transition, TransitionNext};
pub use writers::{DownWrite, DownWriteStep, UpWrite, UpWriteStep};
