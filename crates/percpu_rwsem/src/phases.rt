//! Where an operation at a level stands between two of its steps.

ghost use Rattle.std.specs.Prelude.{◌≡◌};
ghost use Rattle.percpu_rwsem.specs.Phases.{next, after};

use crate::callbacks::Callback;
use crate::readers::{DownRead, UpRead};
use crate::writers::{DownWrite, UpWrite};
use access_model::{Action, Next, map_after};
use cpu_words::{Touch, WordName};

/// Where an operation at a level stands between two of its steps.
#[derive(Clone, Copy)]
pub enum SemPhase {
    /// `percpu_down_read`, as by `sb_start_write`.
    DownRead(DownRead),
    /// `percpu_up_read`, as by `sb_end_write`.
    UpRead(UpRead),
    /// `percpu_down_write`, as by `sb_wait_write`.
    DownWrite(DownWrite),
    /// `percpu_up_write`, as by `sb_freeze_unlock`.
    UpWrite(UpWrite),
    /// `rcu_sync_func`, which the kernel queues by `call_rcu`.
    Callback(Callback),
}

impl SemPhase {
    /// The word and the touch of the next step. No step of a level reads a hook's answer.
    #[inline(always)]
    pub fn next(&self, hook: Result<(), u16>) -> (WordName, Touch)
        ensures { result ≡ next self.now hook }
    {
        let _ = hook;
        match *self {
            SemPhase::DownRead(read) => read.next(),
            SemPhase::UpRead(read) => read.next(),
            SemPhase::DownWrite(write) => write.next(),
            SemPhase::UpWrite(write) => write.next(),
            SemPhase::Callback(callback) => callback.next(),
        }
    }

    /// What comes after the step, which found this, and the action that the step adds.
    #[inline(always)]
    pub fn after(self, found: u64, hook: Result<(), u16>) -> (Next<SemPhase>, Option<Action>)
        ensures { result ≡ after self found hook }
    {
        let _ = hook;
        match self {
            SemPhase::DownRead(read) => map_after(read.after(found), SemPhase::DownRead),
            SemPhase::UpRead(read) => map_after(read.after(), SemPhase::UpRead),
            SemPhase::DownWrite(write) => map_after(write.after(found), SemPhase::DownWrite),
            SemPhase::UpWrite(write) => map_after(write.after(found), SemPhase::UpWrite),
            SemPhase::Callback(callback) => map_after(callback.after(found), SemPhase::Callback),
        }
    }
}
