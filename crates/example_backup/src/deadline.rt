//! A backup with a deadline: it copies the frozen tree, and if somebody stays inside a level, it lets the writers work and tries again later.

ghost use Rattle.std.specs.Prelude.{OnOk};
ghost use Rattle.vfs_gates.specs.Rounds.{IsFrom, Rests};
ghost use Rattle.example_backup.specs.Deadlines.{CopiesAndThaws, TreeCopies};

use std::alloc::Global;
use std::rt::Clock;
use std::sync::Wait;
use std::thread;
use std::time::Duration;
use vfs_gates::{Config, GateError, Gates, Holder, TIMED_OUT, Task};

/// The processor of these gates.
const CPU: u8 = 0;

/// The level that a write goes inside: SB_FREEZE_WRITE.
const LEVEL: u8 = 1;

/// A backup and a writer, and no tree to speak of.
const CONFIG: Config = Config {
    tasks: 2,
    processors: 1,
    mounts: 1,
    nodes: 2,
    capacity: 0,
};

/// Takes a snapshot of the frozen tree, and thaws in any case. The task's `tree` shows it from then on.
///
/// # Errors
///
/// As `thaw`, and else as `snapshot`.
fn copy_and_thaw<R: Wait>(rt: &R, gates: &Gates, task: &mut Task) -> Result<(), GateError>
    requires from { IsFrom task.old gates.now }
    requires rests { Rests task.old }
    ensures from { IsFrom task.new gates.now }
    ensures rests { Rests task.new }
    ensures copied { OnOk result (CopiesAndThaws task.old task.new) }
{
    let taken = task.snapshot(rt, gates);
    task.thaw(rt, gates, Holder::User, &mut ())?;
    taken
}

/// Freezes, takes a snapshot and thaws. A freeze that waits longer than the limit for who is inside gives up; then writers are left to work for as long,
/// and it is tried again, so many times in all. The task rests, whatever the answer.
///
/// # Errors
///
/// `Hook(TIMED_OUT)` if each try has given up. Else as `freeze`, `snapshot` and `thaw`: these aren't tried again.
pub fn copy_within<R: Wait + Clock>(
    rt: &R,
    gates: &Gates,
    task: &mut Task,
    limit: Duration,
    tries: u32,
) -> Result<(), GateError>
    requires from { IsFrom task.old gates.now }
    requires rests { Rests task.old }
    ensures from { IsFrom task.new gates.now }
    ensures rests { Rests task.new }
    ensures copied { OnOk result (TreeCopies 1 task.old task.new) }
{
    for _try in 0..tries {
        match task.freeze_within(rt, gates, Holder::User, &mut (), limit) {
            Ok(()) => return copy_and_thaw(rt, gates, task),
            Err(GateError::Hook(TIMED_OUT)) => thread::sleep(rt, limit),
            Err(refusal) => return Err(refusal),
        }
    }
    Err(GateError::Hook(TIMED_OUT))
}

/// Two backups with a deadline, in one thread: one while a writer is inside level 1, which gives up, and one once it has left. Tells how each ended.
///
/// # Errors
///
/// NoMemory if there is none for the gates or a further task, and what `start` and `end` are refused with.
pub fn run_within<R: Wait + Clock>(
    rt: &R,
    alloc: Global,
) -> Result<(Result<(), GateError>, Result<(), GateError>), GateError> {
    let (gates, mut writer) = Gates::new(alloc, CONFIG)?;
    let mut backup = writer.split(alloc, &gates)?;
    writer.start(rt, &gates, LEVEL, CPU)?;
    let beside = copy_within(rt, &gates, &mut backup, Duration::from_millis(1), 2);
    writer.end(&gates, LEVEL, CPU)?;
    let after = copy_within(rt, &gates, &mut backup, Duration::from_secs(60), 1);
    Ok((beside, after))
}
