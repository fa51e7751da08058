//! A run: writers, a remounter and a backup, each in a thread of its own.

ghost use Rattle.std.specs.Prelude.{◌≡◌, ◌≢◌, IfErr, IfOk, None, OnOk};
ghost use Rattle.access_model.specs.declared.errors.GateError.TheVariants.{Invalid, Order, TooMany};
ghost use Rattle.vfs_gates.specs.Ended.{EndedWith, HasAll};
ghost use Rattle.vfs_gates.specs.TaskStates.{IsFrom};
ghost use Rattle.run_plans.specs.declared.counts.Details.{Details as DetailsType};
ghost use Rattle.run_plans.specs.Meetings.{unseen};
ghost use Rattle.gate_runs.specs.Counts.{gave_up_told};
ghost use Rattle.gate_runs.specs.Told.{TellsRun};
ghost use Rattle.run_plans.specs.Plans.{MayRun};
ghost use Rattle.gate_runs.specs.Refusals.{RunRefused};

use crate::threads::in_threads;
use access_model::{Gate, GateError};
use cpu_words::WordName;
use run_plans::{Details, MOUNT, Meeting, Plan, RunObserver, Totals};
use std::alloc::Global;
use std::sync::Wait;
use std::thread::Threads;
use vfs_gates::{Closed, Gates, Task};

/// The wrapping sum of all count words: what is held.
fn held_in(closed: &Closed) -> u64
    ensures { result ≡ 0 }
{
    let mut held = 0u64;
    for gate in [
        Gate::Mount(MOUNT),
        Gate::Level(1),
        Gate::Level(2),
        Gate::Level(3),
    ] {
        held = held.wrapping_add(closed.gate_sum(gate).unwrap_or(0));
    }
    held
}

/// Closes the gates: the task is the only one left, and rests.
fn close(gates: Gates, task: Task) -> Closed
    requires from { IsFrom task gates }
    requires all { HasAll task }
    ensures { (result.config ≡ gates.words.config) × EndedWith result.config result.words task.items task.seen }
{
    let Ok(closed) = gates.close(task) else {
        unreachable!()
    };
    closed
}

/// How often freezes gave up, as it is told: None if the plan has no patience.
fn gave_up_told(plan: Plan, gave_up: u32) -> Option<u64>
    ensures { result ≡ gave_up_told plan.patience gave_up }
{
    match plan.patience() {
        Some(_) => Some(u64::from(gave_up)),
        None => None,
    }
}

/// Runs a plan: makes the gates and their files, does the plan in threads, and closes the gates. Its backup calls the watch too
/// (`RunObserver::seen` has what these calls show). Tells beside the totals what the tasks met on their way: each refusal that was
/// tried again, and each callback that ran, is counted. If the plan has a patience (`Plan::with_patience`), a freeze that has looked so often again gives
/// up, and its round goes on with the callbacks: it is counted (`Totals::gave_up`), and is no refusal of the run.
///
/// # Errors
///
/// As `run_with`, but never Invalid, as a plan's numbers are within their limits.
pub fn run_plan<R: Threads + Wait + Sync, W: RunObserver + Sync>(
    rt: &R,
    alloc: Global,
    plan: Plan,
    watch: &W,
) -> Result<(Totals, Details, Closed), GateError>
    ensures tells { IfOk result (λ r. TellsRun (W.held watch.now) (W.seen watch.now) plan.tasks plan.processors plan.rounds plan.freezes plan.patience
        r.0 r.1 r.2) }
    ensures refused { IfErr result (RunRefused plan.tasks plan.processors plan.rounds) }
    ensures in_order { IfErr result (λ refusal. (refusal ≢ Order) × (refusal ≢ TooMany) × (refusal ≢ Invalid)) }
{
    let (gates, task) = Gates::new(alloc, plan.config())?;
    let (task, met) = in_threads(rt, alloc, &gates, plan, watch, task)?;
    let closed = close(gates, task);
    let details = met?;
    let totals = Totals {
        grown: closed.word(WordName::Used).unwrap_or(0),
        frozen: u64::from(details.copies.frozen),
        gave_up: gave_up_told(plan, details.copies.gave_up),
        snapshots: u64::from(details.copies.snapshots),
        remounts: u64::from(plan.rounds()),
        held: held_in(&closed),
    };
    Ok((totals, details, closed))
}

/// Runs so many tasks (3 to 64), each in a thread of its own, at one mount with so many processors (1 to 64), and closes the gates.
/// The first one freezes the file system so often (at most 1,000), takes a snapshot, thaws, and calls back what the three levels have
/// queued. The second, for so many rounds (1 to 10,000), makes the mount read-only, unless it is busy, and then writable. Each other one
/// has a file, and in each round takes write access, again while the mount is read-only, makes its file larger by one block, again
/// while others were before it, meets, and gives the access back on another processor. That each did just this, and nothing else, is told
/// of the views that its task has in the end (`Meeting::held` has what the calls of the meeting show).
///
/// # Errors
///
/// Invalid if a number is out of its limits, and only then. NoMemory if memory or a thread was refused. Any other refusal is that of a file
/// (`RunRefused`):
///
/// - its creation, at the beginning: NoSpace or Again;
/// - its growth, by a writer: NoEntry, IsDir or NoSpace.
///
/// No other call ends a run. The backup's first write access isn't ReadOnly, because no task has done anything yet; a writer asks again. No file is
/// refused as NoEntry or NotDir when it is created, because the root is always a directory. Nothing is Busy or Invalid within the limits, because only
/// the backup freezes and thaws, so what it has frozen stands. No hook fails, because a run's hooks answer Ok, unless a plan with a patience has its freezes give
/// up, which is counted. No call is refused as Order or as
/// TooMany, because each task makes it only when it may.
///
/// All threads that were started have ended when it returns. Unless memory, a thread or a file was refused before the backup's first freeze, all
/// tasks are joined and the gates closed.
pub fn run_with<R: Threads + Wait + Sync, M: Meeting + Sync>(
    rt: &R,
    alloc: Global,
    tasks: u8,
    processors: u8,
    rounds: u32,
    freezes: u32,
    meeting: &M,
) -> Result<(Totals, Closed), GateError>
    ensures within { OnOk result (MayRun tasks processors rounds freezes) }
    ensures invalid { ¬ MayRun tasks processors rounds freezes → result ≡ Err Invalid }
    ensures refused { MayRun tasks processors rounds freezes → IfErr result (RunRefused tasks processors rounds) }
    ensures in_order { IfErr result (λ refusal. (refusal ≢ Order) × (refusal ≢ TooMany)) }
    ensures frozen { MayRun tasks processors rounds freezes → IfErr result (λ refusal. refusal ≢ Invalid) }
    ensures tells { IfOk result (λ r. (details : DetailsType) × TellsRun (M.held meeting.now) unseen tasks processors rounds freezes None r.0 details r.1) }
{
    let plan = Plan::new(tasks, processors, rounds, freezes)?;
    let (totals, _details, closed) = run_plan(rt, alloc, plan, meeting)?;
    Ok((totals, closed))
}
