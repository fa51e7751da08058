//! What docs/refusals.md advises: a remount script that is busy, a backup whose freeze is refused, a snapshot that finds nothing frozen.

ghost use Rattle.vfs_gates.specs.TaskStates.{IsFrom};

use super::thread_runs::ThreadRun;
use std::sync::Wait;
use vfs_gates::{Backoff, Event, FsHooks, GateError, Gates, Holder, Op, Progress, Task, WordName};

/// Remounts read-only, so often while it is busy.
pub fn shut<R: Wait>(
    rt: &R,
    gates: &Gates,
    task: &mut Task,
    hooks: &mut ThreadRun<'_>,
    tries: u32,
) -> Result<(), GateError>
    requires { IsFrom task.old gates.now }
    ensures { IsFrom task.new gates.now }
{
    let mut backoff = Backoff::new();
    for _try in 0..tries {
        match task.remount_sb(rt, gates, true, hooks) {
            Err(GateError::Busy) => backoff.snooze(rt),
            answer => return answer,
        }
    }
    Err(GateError::Busy)
}

/// Remounts read-only by steps. Where it is busy, the word that it looked at last: the stage, the count of removed files, or the last count of
/// a mount.
pub fn shut_and_see<R: Wait>(
    rt: &R,
    gates: &Gates,
    task: &mut Task,
    hooks: &mut ThreadRun<'_>,
) -> Result<Option<WordName>, GateError>
    requires { IsFrom task.old gates.now }
    ensures { IsFrom task.new gates.now }
{
    task.begin(Op::RemountSb { read_only: true })?;
    let mut backoff = Backoff::new();
    let mut seen = None;
    for _ in rt.forever() {
        let hook = match task.wants_hook() {
            Some(_) => hooks.reconfigure(true),
            None => Ok(()),
        };
        let step = task.step(gates, hook);
        if let Some(
            Event {
                word: word @ (WordName::Stage | WordName::Removed | WordName::MountCount(_, _)),
                ..
            },
        ) = step.event
        {
            seen = Some(word);
        }
        match step.progress {
            Progress::Done(Err(GateError::Busy)) => return Ok(seen),
            Progress::Done(Ok(_)) => return Ok(None),
            Progress::Done(Err(refusal)) => return Err(refusal),
            Progress::Waiting => backoff.snooze(rt),
            Progress::Going | Progress::Idle => {}
        }
    }
    unreachable!()
}

/// Takes a snapshot of a freeze of its own, or of another's.
pub fn back_up<R: Wait>(
    rt: &R,
    gates: &Gates,
    task: &mut Task,
    hooks: &mut ThreadRun<'_>,
) -> Result<(), GateError>
    requires { IsFrom task.old gates.now }
    ensures { IsFrom task.new gates.now }
{
    match task.freeze(rt, gates, Holder::User, hooks) {
        Ok(()) => {
            let taken = task.snapshot(rt, gates);
            match task.thaw(rt, gates, Holder::User, hooks) {
                Ok(()) | Err(GateError::Invalid) => taken,
                refused => refused,
            }
        }
        Err(GateError::Busy) => task.try_snapshot(gates),
        Err(GateError::Hook(code)) => {
            for level in 1..=3 {
                task.callback(rt, gates, level)?;
            }
            Err(GateError::Hook(code))
        }
        Err(refusal) => Err(refusal),
    }
}

/// Takes a snapshot, so often while another task thaws in between, or keeps it from a look.
pub fn take<R: Wait>(
    rt: &R,
    gates: &Gates,
    task: &mut Task,
    hooks: &mut ThreadRun<'_>,
    tries: u32,
) -> Result<(), GateError>
    requires { IsFrom task.old gates.now }
    ensures { IsFrom task.new gates.now }
{
    let mut backoff = Backoff::new();
    for _try in 0..tries {
        match back_up(rt, gates, task, hooks) {
            Err(GateError::Invalid | GateError::Again) => backoff.snooze(rt),
            answer => return answer,
        }
    }
    Err(GateError::Invalid)
}

/// A remount is busy for the access that another task takes with the second processor, and for what it has frozen, each time, and is done once
/// that is thawed.
pub const REMOUNTS: &str = "\
config 2 2 1 2 8: agrees
split: done
1 want 0 1: done
0 shut: Busy
0 shut_and_see: mount0.cpu1
1 drop 0 0: done
1 freeze: done
0 shut_and_see: stage
1 thaw: done
0 shut: done
1 trywant 0 0: ReadOnly
join: done
close: done
";

/// A backup that the file system refuses takes no snapshot, and has run the callbacks: two freezes have closed the first level since one ran
/// there, and one has run by then. What another task has frozen is taken as it is, and left frozen.
pub const BACKUPS: &str = "\
config 2 2 1 2 8: agrees
split: done
1 freeze: done
1 thaw: done
fail freeze_fs 16
0 back_up: Hook 16
0 tree: none
0 callback 1: done=1
0 callback 1: done=0
1 freeze: done
0 back_up: done
0 tree: node 0 dir 0 0 clean
0 trystart 1 0: Again
1 thaw: done
join: done
close: done
";

/// A backup by its own freeze leaves nothing frozen.
pub const OWN: &str = "\
config 2 2 1 2 8: agrees
split: done
0 back_up: done
0 tree: node 0 dir 0 0 clean
0 thaw: Invalid
1 trystart 1 0: done
1 end 1 0: done
join: done
close: done
";

/// A snapshot that finds nothing frozen is taken of a freeze of its own.
pub const SNAPSHOTS: &str = "\
config 2 2 1 2 8: agrees
split: done
0 snapshot: Invalid
0 tree: none
0 take: done
0 tree: node 0 dir 0 0 clean
join: done
close: done
";
