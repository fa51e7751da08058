//! Runs: what they count, and that their tasks run at the same time.

use gate_runs::{Meeting, Plan, RunObserver, Totals, run_plan, run_with};
use std::alloc::Global;
use std::sync::Wait;
use std::sync::atomic::{AtomicBool, AtomicU32, Ordering};
use std::test::Fail;
use std::thread;
use std::thread::Threads;

/// Where two writers look for each other while they hold write access, and how often one has seen the other.
#[derive(Drop)]
struct Rendezvous {
    is_first_here: AtomicBool,
    is_second_here: AtomicBool,
    seen: AtomicU32,
}

/// How often a writer looks at most.
const TURNS: u32 = 100_000_000;

impl Rendezvous {
    /// Says that one is here, looks for the other, and notes that it was seen. From time to time the processor is left to other threads.
    fn look_for(&self, me: &AtomicBool, other: &AtomicBool) {
        me.store(true, Ordering::SeqCst);
        for turn in 0..TURNS {
            if other.load(Ordering::SeqCst) {
                self.seen.fetch_add(1, Ordering::SeqCst);
                break;
            }
            if turn % 1024 == 0 {
                thread::yield_now();
            }
        }
    }
}

impl Meeting for Rendezvous {
    fn holding(&self, task: u8, _round: u32) {
        if task == 2 {
            self.look_for(&self.is_first_here, &self.is_second_here);
        } else {
            self.look_for(&self.is_second_here, &self.is_first_here);
        }
    }
}

/// How often writers held write access, and how many freezes there were.
#[derive(Drop)]
struct Counted {
    held: AtomicU32,
    frozen: AtomicU32,
}

impl RunObserver for Counted {
    fn holding(&self, _task: u8, _round: u32) {
        self.held.fetch_add(1, Ordering::SeqCst);
    }

    fn frozen(&self, _freeze: u32) {
        self.frozen.fetch_add(1, Ordering::SeqCst);
    }
}

/// What a run counts of so many writers and rounds, and of so many freezes.
fn wanted(writers: u32, rounds: u32, freezes: u32) -> Totals {
    Totals {
        grown: u64::from(writers.saturating_mul(rounds)),
        frozen: u64::from(freezes),
        gave_up: None,
        snapshots: u64::from(freezes),
        remounts: u64::from(rounds),
        held: 0,
    }
}

/// Whether two writers hold write access at the same time: each sees the other before it gives its access back.
fn meets<R: Threads + Wait + Sync + Alloc<A = Global>>(rt: &R) -> bool {
    let meeting = Rendezvous {
        is_first_here: AtomicBool::new(false),
        is_second_here: AtomicBool::new(false),
        seen: AtomicU32::new(0),
    };
    let is_counted = match run_with(rt, rt.alloc(), 4, 2, 1, 0, &meeting) {
        Ok((totals, _)) => totals == wanted(2, 1, 0),
        Err(_) => false,
    };
    is_counted && meeting.seen.load(Ordering::SeqCst) == 2
}

/// Whether a run counts what it does, as its watch does.
fn is_watched<R: Threads + Wait + Sync + Alloc<A = Global>>(rt: &R) -> bool {
    let watch = Counted {
        held: AtomicU32::new(0),
        frozen: AtomicU32::new(0),
    };
    let is_counted = match Plan::new(4, 2, 100, 3) {
        Ok(plan) => match run_plan(rt, rt.alloc(), plan, &watch) {
            Ok((totals, _, _)) => totals == wanted(2, 100, 3),
            Err(_) => false,
        },
        Err(_) => false,
    };
    let held = watch.held.load(Ordering::SeqCst);
    let frozen = watch.frozen.load(Ordering::SeqCst);
    is_counted && held == 200 && frozen == 3
}

/// A writer that stays inside for a while, so that a freeze meets it there.
#[derive(Drop)]
struct Lingering {}

impl Meeting for Lingering {
    fn holding(&self, _task: u8, _round: u32) {
        for _turn in 0..LINGERS {
            thread::yield_now();
        }
    }
}

/// How often a lingering writer leaves the processor to others.
const LINGERS: u32 = 1_000;

/// How many runs are made at most until a freeze has met such a writer. The scheduler decides whether one does.
const RUNS: u32 = 10;

/// How many freezes a run has: as many as it may, since its writer's thread begins beside the first.
const FREEZES: u32 = 1_000;

/// Whether each run counts all its freezes without patience, as granted or given up, until one gave up.
fn gives_up<R: Threads + Wait + Sync + Alloc<A = Global>>(rt: &R) -> bool {
    let Ok(plan) = Plan::new(3, 1, 4, FREEZES) else {
        return false;
    };
    for _run in 0..RUNS {
        let Ok((totals, details, _)) = run_plan(
            rt,
            rt.alloc(),
            plan.with_patience(Some(0)),
            &Lingering {},
        ) else {
            return false;
        };
        let gave_up = u64::from(details.copies.gave_up);
        let counted = Totals {
            frozen: totals.frozen,
            gave_up: Some(u64::from(FREEZES).saturating_sub(totals.frozen)),
            snapshots: totals.frozen,
            ..wanted(1, 4, 0)
        };
        if totals != counted || totals.gave_up != Some(gave_up) {
            return false;
        }
        if gave_up > 0 {
            return true;
        }
    }
    true
}

/// Whether a run may have 64 tasks.
fn has_many<R: Threads + Wait + Sync + Alloc<A = Global>>(rt: &R) -> bool {
    match run_with(rt, rt.alloc(), 64, 64, 1, 1, &()) {
        Ok((totals, _)) => totals == wanted(62, 1, 1),
        Err(_) => false,
    }
}

#[test]
fn writers_hold_write_access_at_the_same_time(rt: HostRuntime) -> Result<(), Fail> {
    if meets(&rt) {
        Ok(())
    } else {
        Err(Fail::new("counted otherwise, or not at the same time"))
    }
}

#[test]
fn runs_count_what_they_do(rt: HostRuntime) -> Result<(), Fail> {
    if is_watched(&rt) && has_many(&rt) {
        Ok(())
    } else {
        Err(Fail::new("counted otherwise"))
    }
}

#[test]
fn runs_count_freezes_that_gave_up(rt: HostRuntime) -> Result<(), Fail> {
    if gives_up(&rt) {
        Ok(())
    } else {
        Err(Fail::new("counted otherwise"))
    }
}
