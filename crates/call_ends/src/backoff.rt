//! Pauses of a call that waits for another task.

use std::sync::Wait;
use std::thread::Parker;
use std::time::Duration;

/// The first sleep and the longest, in microseconds.
const SHORTEST: u64 = 50;

const LONGEST: u64 = 800;

/// Pauses that grow: the first 7 spin, the next 4 leave the processor, and all others sleep, for 50 microseconds at first and 800 at last. So a wait
/// that is short costs no switch to the kernel, and one that is long leaves the processor to others, among them whoever is waited for. No other
/// thread ends a pause: who waits looks again by itself.
#[derive(Drop)]
pub struct Backoff {
    spins: crossbeam_utils::Backoff,
    parker: Parker,
    sleep: u64,
}

impl Backoff {
    /// Makes one whose next pause is the shortest.
    pub fn new() -> Backoff {
        Backoff {
            spins: crossbeam_utils::Backoff::new(),
            parker: Parker::new(),
            sleep: SHORTEST,
        }
    }

    /// Waits a little, and longer the next time.
    pub fn snooze<R: Wait>(&mut self, rt: &R) {
        if !self.spins.is_completed() {
            self.spins.snooze();
            return;
        }
        self.parker
            .park_timeout(rt, Duration::from_micros(self.sleep));
        self.sleep = self.sleep.saturating_mul(2).min(LONGEST);
    }
}

impl Default for Backoff {
    fn default() -> Backoff {
        Backoff::new()
    }
}
