//! The backup: it reads while the mount is read-only.

ghost use Rattle.std.specs.Prelude.{◌≡◌, ◌+◌, ℕ, IfErr, OnErr, OnOk};
ghost use Rattle.vfs_gates.specs.Rounds.{SeatedTask, IsFrom, Rests, Busy, spare_of};
ghost use Rattle.example_backup.specs.Reports.{Copies, HasCopied, SameNumbers};

use crate::MOUNT;
use std::sync::Wait;
use std::sync::atomic::{AtomicU64, Ordering};
use vfs_gates::{GateError, Gates, Task};

/// Whether two reads of the file differ while the mount is read-only. Refused only as Busy; whatever it answers, the task rests again.
pub(crate) fn copy_once<R: Wait>(
    rt: &R,
    gates: &Gates,
    task: &mut Task,
    file: &AtomicU64,
) -> Result<bool, GateError>
    requires from { IsFrom task.old gates.now }
    requires rests { Rests task.old }
    ensures from { IsFrom task.new gates.now }
    ensures rests { Rests task.new }
    ensures numbers { SameNumbers task.old task.new }
    ensures refused { IfErr result (λ refusal. refusal ≡ Busy) }
    ensures others { spare_of task.new.items ≡ spare_of task.old.items }
    ensures made { OnOk result (HasCopied task.old task.new) }
    ensures copied { OnOk result ((n : ℕ) (first : SeatedTask) → Copies n first task.old → Copies (n + 1) first task.new) }
    ensures copied_nothing { OnErr result ((n : ℕ) (first : SeatedTask) → Copies n first task.old → Copies n first task.new) }
{
    task.change_mount(rt, gates, MOUNT, true)?;
    let copy = file.load(Ordering::SeqCst);
    let torn = copy != file.load(Ordering::SeqCst);
    task.change_mount(rt, gates, MOUNT, false)?;
    Ok(torn)
}

/// Makes so many copies, and says how many were torn. One that is refused, while the writer is inside, is made again.
#[tactic(auto, using(vfs_gates::specs::Rounds::none))]
pub(crate) fn back_up<R: Wait>(
    rt: &R,
    gates: &Gates,
    mut task: Task,
    file: &AtomicU64,
    copies: u32,
) -> (Task, u32)
    requires from { IsFrom task gates.now }
    requires rests { Rests task }
    ensures from { IsFrom result.0 gates.now }
    ensures rests { Rests result.0 }
    ensures numbers { SameNumbers task result.0 }
    ensures copied { Copies copies task result.0 }
{
    let mut made = 0;
    let mut torn = 0;
    for _ in rt.forever() {
        if made == copies {
            break;
        }
        if let Ok(differs) = copy_once(rt, gates, &mut task, file) {
            made += 1;
            torn += u32::from(differs);
        }
    }
    (task, torn)
}
