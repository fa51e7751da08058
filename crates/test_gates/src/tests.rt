//! Tests of tasks, which are texts that `cases` plays, and of runs.

mod alone;
mod calls;
mod cases;
mod decisions;
mod failures;
mod fixtures;
mod in_time;
mod lines;
mod lost;
mod meetings;
mod pairs;
mod patience;
mod runs;
mod shown;
mod tasks;
mod thread_runs;
mod threads;
mod worked;

use cases::plays;
use std::test::Fail;

/// What a task does where no other one runs at the same time.
const IN_TURN: &[&str] = &[
    calls::ACCESSES,
    calls::HOLDERS,
    calls::FILES,
    calls::OPENS,
    calls::KEPT_OPEN,
    calls::OPENED_TOO,
    calls::TRIES,
    calls::BY_STEPS,
    calls::CLOSURES,
    failures::FAILURES,
    failures::GIVEN_UP,
    worked::ALONE,
    worked::LIMITS,
];

/// What docs/refusals.md advises, and what is left to others where a task is lost.
const REFUSED: &[&str] = &[
    decisions::REMOUNTS,
    decisions::BACKUPS,
    decisions::OWN,
    decisions::SNAPSHOTS,
    lost::ACCESS,
    lost::OWNER,
    lost::HOLDER,
    lost::INSIDE,
    lost::RESTING,
];

/// Tasks in threads.
const AT_ONCE: &[&str] = &[
    worked::READERS,
    worked::WRITERS,
    threads::mounts::CASE,
    threads::remounts::CASE,
    threads::freezes::CASE,
    threads::holders::CASE,
    threads::trees::CASE,
    threads::opens::CASE,
];

#[test]
fn calls_end_as_their_user_expects(rt: HostRuntime) -> Result<(), Fail> {
    plays(&rt, IN_TURN)
}

#[test]
fn refusals_are_met_as_advised(rt: HostRuntime) -> Result<(), Fail> {
    plays(&rt, REFUSED)
}

#[test]
fn tasks_in_threads_meet(rt: HostRuntime) -> Result<(), Fail> {
    plays(&rt, AT_ONCE)
}
