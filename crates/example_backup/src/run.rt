//! Both at once, and the end.

ghost use Rattle.std.specs.Prelude.{◌≡◌, ◌≤◌, ◌+◌, ◌++◌, ℕ, length, IfOk, IfErr, OnOk};
ghost use Rattle.vfs_gates.specs.Rounds.{IsFrom, Rests, Busy, NoMemory, spare_of};
ghost use Rattle.vfs_gates.specs.Seating.{times};
ghost use Rattle.example_backup.specs.Reports.{HasEveryWrite, ReportIsTrue};

use crate::report::Report;
use crate::{backup, writer};
use std::alloc::Global;
use std::sync::Wait;
use std::sync::atomic::AtomicU64;
use std::thread;
use std::thread::Threads;
use vfs_gates::{Closed, Config, GateError, Gates, Task};

/// How often the writer writes.
const WRITES: u32 = 10_000;

/// How many copies the backup makes.
const COPIES: u32 = 100;

/// One task with the numbers of both. A join is refused only where one of them doesn't rest, so here it isn't.
fn join(gates: &Gates, mut first: Task, second: Task) -> Task
    requires from { IsFrom first gates.now × IsFrom second gates.now }
    requires rests { Rests first × Rests second }
    ensures from { IsFrom result gates.now }
    ensures numbers { result.items ≡ first.items ++ second.items }
    ensures joined { result ≡ record first { items = first.items ++ second.items; seen = first.seen ++ second.seen } }
{
    let Ok(()) = first.join(gates, second) else {
        unreachable!()
    };
    first
}

/// One copy more, by a backup's task, to which the writer's is handed first: whether it is torn. It has every write that was finished: in the history
/// that its change to read-only leaves, all that the writer had done comes before it. No clause would say so of a backup that only knows by other
/// means, as by a flag in memory, that the writer is done. The task given back has the numbers of both, and rests, whatever the copy answers.
///
/// # Errors
///
/// Busy where a writer is counted at the mount; then there is no copy.
pub fn copy_at_the_end<R: Wait>(
    rt: &R,
    gates: &Gates,
    backup: Task,
    writer: Task,
    file: &AtomicU64,
) -> (Task, Result<bool, GateError>)
    requires from { IsFrom backup gates.now × IsFrom writer gates.now }
    requires rests { Rests backup × Rests writer }
    // `Task::number` says so of each.
    requires there { (1 ≤ length backup.items) × (1 ≤ length writer.items) }
    ensures from { IsFrom result.0 gates.now }
    ensures rests { Rests result.0 }
    ensures refused { IfErr result.1 (λ refusal. refusal ≡ Busy) }
    ensures others { spare_of result.0.items ≡ spare_of (backup.items ++ writer.items) }
    ensures numbers { (n : ℕ) → times n result.0.items ≡ times n backup.items + times n writer.items }
    ensures every_write { OnOk result.1 (HasEveryWrite backup writer result.0) }
{
    let mut task = join(gates, backup, writer);
    let copied = backup::copy_once(rt, gates, &mut task, file);
    (task, copied)
}

/// Lets the writer and the backup work at one mount, each in a thread; then a third task is handed both of theirs and copies once more; and closes the
/// gates. Tells what both tasks' lists have in the end, and that the copy at the end, if it was made, has every write.
///
/// # Errors
///
/// NoMemory if there is none for the gates or a further task.
pub fn run<R: Threads + Wait + Sync>(rt: &R, alloc: Global) -> Result<(Report, Closed), GateError>
    ensures told { IfOk result (λ done. ReportIsTrue done.0 done.1) }
    ensures refused { IfErr result (λ refusal. refusal ≡ NoMemory) }
{
    let config = Config {
        tasks: 3,
        processors: 2,
        mounts: 1,
        nodes: 2,
        capacity: 0,
    };
    let (gates, mut first) = Gates::new(alloc, config)?;
    let second = first.split(alloc, &gates)?;
    let third = first.split(alloc, &gates)?;
    let file = AtomicU64::new(0);
    let (first, (second, torn)) = thread::join(
        rt,
        || writer::write(rt, &gates, first, &file, WRITES),
        || backup::back_up(rt, &gates, second, &file, COPIES),
    );
    let (writer, backup, last) = (first.number(), second.number(), third.number());
    let both = join(&gates, first, second);
    let (task, copied) = copy_at_the_end(rt, &gates, third, both, &file);
    let told = Report {
        writer,
        writes: WRITES,
        backup,
        copies: COPIES,
        torn,
        last,
        last_torn: copied.ok(),
    };
    let Ok(closed) = gates.close(task) else {
        unreachable!()
    };
    Ok((told, closed))
}
