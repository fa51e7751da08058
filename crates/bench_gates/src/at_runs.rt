//! Whole runs: writers and a remounter in threads.

use anyhow::Result;
use gate_runs::run_with;
use std::alloc::Global;
use std::rt::Clock;
use std::sync::Wait;
use std::thread::Threads;
use std::time::{Duration, Instant};

/// Rounds of each writer in one run.
const ROUNDS: u32 = 10_000;

/// How long so many runs take, of so many tasks and as many processors, with no freeze.
pub(crate) fn measure<R: Threads + Wait + Clock + Sync>(
    rt: &R,
    alloc: Global,
    tasks: u8,
    runs: u32,
) -> Result<Duration> {
    let start = Instant::now(rt)?;
    for _run in 0..runs {
        run_with(rt, alloc, tasks, tasks, ROUNDS, 0, &())?;
    }
    Ok(start.elapsed(rt)?)
}
