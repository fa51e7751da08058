//! How far a run is, told while it runs.

use crate::meetings::RunObserver;
use std::io;
use std::io::{Stderr, Write};
use std::rt::Clock;
use std::sync::atomic::{AtomicU32, AtomicU64, Ordering};
use std::time::Instant;

/// Tells a person each second how far a run is: the rounds of all writers, and the freezes.
#[derive(Drop)]
pub struct Progress<'r, R> {
    rt: &'r R,
    start: Instant,
    /// The second from the start at which a person is told next.
    due: AtomicU64,
    /// All rounds of all writers, and all freezes.
    wanted: (u64, u32),
    rounds: AtomicU64,
    frozen: AtomicU32,
    errors: Stderr,
}

impl<'r, R: Clock> Progress<'r, R> {
    /// That of a run of so many tasks, rounds of each and freezes, which begins now. The clock's error, where it can't be read.
    pub fn new(
        rt: &'r R,
        tasks: u8,
        rounds: u32,
        freezes: u32,
        errors: Stderr,
    ) -> Result<Progress<'r, R>, io::Error> {
        Ok(Progress {
            rt,
            start: Instant::now(rt)?,
            due: AtomicU64::new(1),
            wanted: (
                u64::from(tasks.saturating_sub(2)) * u64::from(rounds),
                freezes,
            ),
            rounds: AtomicU64::new(0),
            frozen: AtomicU32::new(0),
            errors,
        })
    }

    /// Tells how far the run is, where a second has begun in which nobody was told. One of the threads that come by does it.
    fn tell_each_second(&self) {
        let Ok(gone) = self.start.elapsed(self.rt) else {
            return;
        };
        let (second, due) = (gone.as_secs(), self.due.load(Ordering::SeqCst));
        if second < due {
            return;
        }
        let next = second.saturating_add(1);
        if self
            .due
            .compare_exchange(due, next, Ordering::SeqCst, Ordering::SeqCst)
            .is_ok()
        {
            self.tell();
        }
    }

    /// That nobody can be told is no fault of the run.
    fn tell(&self) {
        let (all, wanted) = self.wanted;
        let rounds = self.rounds.load(Ordering::SeqCst);
        let freezes = self.frozen.load(Ordering::SeqCst);
        let mut errors = &self.errors;
        let _ = writeln!(
            errors,
            "{rounds} of {all} rounds, {freezes} of {wanted} freezes"
        );
    }
}

impl<'r, R: Clock> RunObserver for Progress<'r, R> {
    fn holding(&self, _task: u8, _round: u32) {
        self.rounds.fetch_add(1, Ordering::SeqCst);
        self.tell_each_second();
    }

    fn frozen(&self, freeze: u32) {
        self.frozen
            .store(freeze.saturating_add(1), Ordering::SeqCst);
        self.tell_each_second();
    }
}
