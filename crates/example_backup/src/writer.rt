//! The writer: each write stands between a want and a drop.

ghost use Rattle.std.specs.Prelude.{◌≡◌, IfErr, OnErr, OnOk};
ghost use Rattle.vfs_gates.specs.Rounds.{IsFrom, Rests, Granted, Mount, ReadOnly, own_actions};
ghost use Rattle.example_backup.specs.Reports.{SameNumbers};

use crate::MOUNT;
use std::sync::Wait;
use std::sync::atomic::{AtomicU64, Ordering};
use vfs_gates::{GateError, Gates, Task};

/// The processor that the writer says it is on.
const CPU: u8 = 0;

/// Adds 1 to the file, inside an access. Refused only as ReadOnly; whatever it answers, the task rests again.
pub(crate) fn write_once<R: Wait>(
    rt: &R,
    gates: &Gates,
    task: &mut Task,
    file: &AtomicU64,
) -> Result<(), GateError>
    requires from { IsFrom task.old gates.now }
    requires rests { Rests task.old }
    ensures from { IsFrom task.new gates.now }
    ensures rests { Rests task.new }
    ensures numbers { SameNumbers task.old task.new }
    ensures refused { IfErr result (λ refusal. refusal ≡ ReadOnly) }
    ensures wrote { OnOk result (Granted (Mount 0) 1 task.old task.new) }
    ensures wrote_nothing { OnErr result (own_actions task.new ≡ own_actions task.old) }
{
    task.want(rt, gates, MOUNT, CPU)?;
    file.fetch_add(1, Ordering::SeqCst);
    task.drop_mount(gates, MOUNT, CPU)
}

/// Does so many writes. One that is refused, while the backup has the mount read-only, is done again.
pub(crate) fn write<R: Wait>(
    rt: &R,
    gates: &Gates,
    mut task: Task,
    file: &AtomicU64,
    writes: u32,
) -> Task
    requires from { IsFrom task gates.now }
    requires rests { Rests task }
    ensures from { IsFrom result gates.now }
    ensures rests { Rests result }
    ensures numbers { SameNumbers task result }
    ensures wrote { Granted (Mount 0) writes task result }
{
    let mut wrote = 0;
    for _ in rt.forever() {
        if wrote == writes {
            break;
        }
        wrote += u32::from(write_once(rt, gates, &mut task, file).is_ok());
    }
    task
}
