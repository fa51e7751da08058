//! Rounds at the gates.

ghost use Rattle.std.specs.Prelude.{◌≡◌, ◌≤◌, All, OnOk};
ghost use Rattle.vfs_gates.specs.TaskStates.{IsFrom};

use anyhow::{Result, bail};
use std::alloc::Global;
use std::rt::Clock;
use std::sync::Wait;
use std::thread;
use std::thread::{Parker, Threads};
use std::time::{Duration, Instant};
use vfs_gates::{Config, GateError, Gates, Holder, Kind, Task};

/// What a round is.
#[derive(Clone, Copy)]
pub(crate) enum Round {
    /// An access at mount 0, taken and given back.
    Mount,
    /// A place inside level 1, taken and given back.
    Level,
    /// Write access: both.
    WriteAccess,
    /// A freeze and its thaw, by one task. The levels stay on their slow path.
    Freeze,
    /// A freeze and its thaw, and the callbacks of the levels. Each freeze and each callback waits for a grace period at each level.
    FreezeAndCallbacks,
    /// A remount to read-only and one back, by one task.
    Remounts,
    /// A snapshot of the frozen file system, by one task.
    Snapshot,
    /// A file, opened and closed, by one task.
    File,
    /// A place inside level 1, which all tasks but the first wait for while the first one has all frozen, for as many milliseconds as there are rounds.
    Wait,
    /// A file, created and removed, by one task.
    CreateAndRemove,
    /// A file, made larger by one block, by one task.
    Grow,
    /// Two moves of a file, there and back, by one task.
    Moves,
    /// A page fault and a write-back of a file, by one task.
    FaultAndFlush,
}

/// Takes an access at mount 0 and gives it back, so often, on the processor with the task's own number, and says whether each call
/// was done.
fn want_and_drop(task: &mut Task, gates: &Gates, count: u32) -> bool
    requires { IsFrom task.old gates.now }
{
    let cpu = task.number();
    for _round in 0..count {
        if task.try_want(gates, 0, cpu).is_err() || task.drop_mount(gates, 0, cpu).is_err() {
            return false;
        }
    }
    true
}

/// Goes inside level 1 and leaves it, so often, on the processor with the task's own number, and says whether each call was done.
fn start_and_end(task: &mut Task, gates: &Gates, count: u32) -> bool
    requires { IsFrom task.old gates.now }
{
    let cpu = task.number();
    for _round in 0..count {
        if task.try_start(gates, 1, cpu).is_err() || task.end(gates, 1, cpu).is_err() {
            return false;
        }
    }
    true
}

/// Takes write access at mount 0 and gives it back, so often, on the processor with the task's own number, and says whether each call was
/// done.
fn want_and_drop_write<R: Wait>(task: &mut Task, rt: &R, gates: &Gates, count: u32) -> bool
    requires { IsFrom task.old gates.now }
{
    let cpu = task.number();
    for _round in 0..count {
        let wanted = task.want_write(rt, gates, 0, cpu);
        if wanted.is_err() || task.drop_write(gates, 0, cpu).is_err() {
            return false;
        }
    }
    true
}

/// Freezes and thaws once, and says whether each call was done.
fn freeze_and_thaw<R: Wait>(task: &mut Task, rt: &R, gates: &Gates) -> bool
    requires { IsFrom task.old gates.now }
    ensures { IsFrom task.new gates.now }
{
    let frozen = task.freeze(rt, gates, Holder::User, &mut ());
    frozen.is_ok() && task.thaw(rt, gates, Holder::User, &mut ()).is_ok()
}

/// Runs the callbacks of the three levels, and says whether each call was done.
fn call_back<R: Wait>(task: &mut Task, rt: &R, gates: &Gates) -> bool
    requires { IsFrom task.old gates.now }
    ensures { IsFrom task.new gates.now }
{
    for level in 1..4 {
        if task.callback(rt, gates, level).is_err() {
            return false;
        }
    }
    true
}

/// Freezes and thaws so often, with the callbacks after each thaw where they are asked for.
fn freezes<R: Wait>(task: &mut Task, rt: &R, gates: &Gates, callbacks: bool, count: u32) -> bool
    requires { IsFrom task.old gates.now }
{
    for _round in 0..count {
        if !freeze_and_thaw(task, rt, gates) || callbacks && !call_back(task, rt, gates) {
            return false;
        }
    }
    true
}

/// Remounts to read-only and back so often, and says whether each call was done.
fn remounts<R: Wait>(task: &mut Task, rt: &R, gates: &Gates, count: u32) -> bool
    requires { IsFrom task.old gates.now }
{
    for _round in 0..count {
        let there = task.remount_sb(rt, gates, true, &mut ());
        if there.is_err() || task.remount_sb(rt, gates, false, &mut ()).is_err() {
            return false;
        }
    }
    true
}

/// Freezes, and takes so many snapshots, and says whether each call was done.
fn snapshots<R: Wait>(task: &mut Task, rt: &R, gates: &Gates, count: u32) -> bool
    requires { IsFrom task.old gates.now }
{
    if task.freeze(rt, gates, Holder::User, &mut ()).is_err() {
        return false;
    }
    for _round in 0..count {
        if task.snapshot(rt, gates).is_err() {
            return false;
        }
    }
    true
}

/// Makes a file, and opens and closes it so often, and says whether each call was done.
fn open_and_close<R: Wait>(task: &mut Task, rt: &R, gates: &Gates, count: u32) -> bool
    requires { IsFrom task.old gates.now }
{
    let cpu = task.number();
    if task.want_write(rt, gates, 0, cpu).is_err() {
        return false;
    }
    let Ok(file) = task.create(gates, 0, Kind::File) else {
        return false;
    };
    if task.drop_write(gates, 0, cpu).is_err() {
        return false;
    }
    for _round in 0..count {
        let opened = task.open_file(gates, file);
        if opened.is_err() || task.close_file(rt, gates, file, cpu).is_err() {
            return false;
        }
    }
    true
}

/// Sleeps for so many milliseconds and thaws, as the task that has all frozen. Any other task goes inside level 1 and leaves it, once all is thawed.
fn thaw_or_wait<R: Wait>(task: &mut Task, rt: &R, gates: &Gates, milliseconds: u32) -> bool
    requires { IsFrom task.old gates.now }
{
    let cpu = task.number();
    if cpu == 0 {
        Parker::new().park_timeout(rt, Duration::from_millis(u64::from(milliseconds)));
        return task.thaw(rt, gates, Holder::User, &mut ()).is_ok();
    }
    task.start(rt, gates, 1, cpu).is_ok() && task.end(gates, 1, cpu).is_ok()
}

/// Creates a file in the root and removes it so often, and says whether each call was done.
fn create_and_remove<R: Wait>(task: &mut Task, rt: &R, gates: &Gates, count: u32) -> bool
    requires { IsFrom task.old gates.now }
{
    let cpu = task.number();
    if task.want_write(rt, gates, 0, cpu).is_err() {
        return false;
    }
    for _round in 0..count {
        let Ok(file) = task.create(gates, 0, Kind::File) else {
            return false;
        };
        if task.remove(gates, file).is_err() {
            return false;
        }
    }
    true
}

/// Makes a file, and makes it larger so often, and says whether each call was done.
fn grows<R: Wait>(task: &mut Task, rt: &R, gates: &Gates, count: u32) -> bool
    requires { IsFrom task.old gates.now }
{
    let cpu = task.number();
    if task.want_write(rt, gates, 0, cpu).is_err() {
        return false;
    }
    let Ok(file) = task.create(gates, 0, Kind::File) else {
        return false;
    };
    for _round in 0..count {
        if task.grow(gates, file, 1).is_err() {
            return false;
        }
    }
    true
}

/// Makes a file and a directory, and moves the file there and back so often, and says whether each call was done.
fn moves<R: Wait>(task: &mut Task, rt: &R, gates: &Gates, count: u32) -> bool
    requires { IsFrom task.old gates.now }
{
    let cpu = task.number();
    if task.want_write(rt, gates, 0, cpu).is_err() {
        return false;
    }
    let Ok(dir) = task.create(gates, 0, Kind::Dir) else {
        return false;
    };
    let Ok(file) = task.create(gates, 0, Kind::File) else {
        return false;
    };
    for _round in 0..count {
        let there = task.move_to(gates, file, dir);
        if there.is_err() || task.move_to(gates, file, 0).is_err() {
            return false;
        }
    }
    true
}

/// Makes a file, and makes it dirty and clean so often, and says whether each call was done.
fn fault_and_flush<R: Wait>(task: &mut Task, rt: &R, gates: &Gates, count: u32) -> bool
    requires { IsFrom task.old gates.now }
{
    let cpu = task.number();
    if task.want_write(rt, gates, 0, cpu).is_err() {
        return false;
    }
    let Ok(file) = task.create(gates, 0, Kind::File) else {
        return false;
    };
    if task.start(rt, gates, 2, cpu).is_err() || task.start(rt, gates, 3, cpu).is_err() {
        return false;
    }
    for _round in 0..count {
        let faulted = task.fault(gates, file);
        if faulted.is_err() || task.flush(gates, file).is_err() {
            return false;
        }
    }
    true
}

/// Does so many rounds of one kind.
fn do_rounds<R: Wait>(task: &mut Task, rt: &R, gates: &Gates, round: Round, count: u32) -> bool
    requires { IsFrom task.old gates.now }
{
    match round {
        Round::Mount => want_and_drop(task, gates, count),
        Round::Level => start_and_end(task, gates, count),
        Round::WriteAccess => want_and_drop_write(task, rt, gates, count),
        Round::Freeze => freezes(task, rt, gates, false, count),
        Round::FreezeAndCallbacks => freezes(task, rt, gates, true, count),
        Round::Remounts => remounts(task, rt, gates, count),
        Round::Snapshot => snapshots(task, rt, gates, count),
        Round::File => open_and_close(task, rt, gates, count),
        Round::Wait => thaw_or_wait(task, rt, gates, count),
        Round::CreateAndRemove => create_and_remove(task, rt, gates, count),
        Round::Grow => grows(task, rt, gates, count),
        Round::Moves => moves(task, rt, gates, count),
        Round::FaultAndFlush => fault_and_flush(task, rt, gates, count),
    }
}

/// Splits tasks off until there are so many, the first among them. They are put behind those that are there.
fn split_off(
    alloc: Global,
    gates: &Gates,
    first: &mut Task,
    threads: u8,
    tasks: &mut Vec<Task>,
) -> Result<(), GateError>
    requires first { IsFrom first.old gates.now }
    requires tasks { All (λ task. IsFrom task gates.now) tasks.old.items }
    ensures first { OnOk result (IsFrom first.new gates.now) }
    ensures tasks { OnOk result (All (λ task. IsFrom task gates.now) tasks.new.items) }
{
    for _number in 1..threads {
        let other = first.split(alloc, gates)?;
        let Ok(()) = tasks.push(other) else {
            return Err(GateError::NoMemory);
        };
    }
    Ok(())
}

/// How long these tasks take for so many rounds each, every one in a thread of its own.
fn time_tasks<R: Threads + Wait + Clock + Sync>(
    rt: &R,
    gates: &Gates,
    tasks: Vec<Task>,
    round: Round,
    count: u32,
) -> Result<Duration>
    requires { All (λ task. IsFrom task gates.now) tasks.items }
{
    let start = Instant::now(rt)?;
    let done = thread::map_vec(
        rt,
        tasks,
        &|task| -> bool
            requires { IsFrom task gates.now }
        {
            let mut task = task;
            do_rounds(&mut task, rt, gates, round, count)
        },
    )?;
    let took = start.elapsed(rt);
    let is_refused = done.contains(&false);
    drop(done);
    if is_refused {
        bail!("a call at the gates was refused");
    }
    Ok(took?)
}

/// Times the first task and those that are split off from it, so many in all.
fn time_first<R: Threads + Wait + Clock + Sync>(
    rt: &R,
    alloc: Global,
    gates: &Gates,
    mut first: Task,
    threads: u8,
    round: Round,
    count: u32,
) -> Result<Duration>
    requires { IsFrom first gates.now }
{
    if let Round::Wait = round {
        first.freeze(rt, gates, Holder::User, &mut ())?;
    }
    let mut tasks = Vec::new(alloc);
    split_off(alloc, gates, &mut first, threads, &mut tasks)?;
    tasks.push(first)?;
    time_tasks(rt, gates, tasks, round, count)
}

/// How long so many rounds take each of so many tasks, with as many processors. All but pairs and waits are done by one task. A snapshot has as many
/// nodes.
pub(crate) fn measure<R: Threads + Wait + Clock + Sync>(
    rt: &R,
    alloc: Global,
    round: Round,
    size: u8,
    count: u32,
) -> Result<Duration> {
    let nodes = match round {
        Round::Snapshot => size,
        Round::Moves => 3,
        _ => 2,
    };
    let capacity = match round {
        Round::Grow => count,
        _ => 0,
    };
    let config = Config {
        tasks: size,
        processors: size,
        mounts: 1,
        nodes,
        capacity,
    };
    let threads = match round {
        Round::Mount | Round::Level | Round::WriteAccess | Round::Wait => size,
        _ => 1,
    };
    let (gates, first) = Gates::new(alloc, config)?;
    time_first(rt, alloc, &gates, first, threads, round, count)
}
