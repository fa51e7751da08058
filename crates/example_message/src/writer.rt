//! The writer: it writes, and sends word of each write.

ghost use Rattle.std.specs.Prelude.{◌≡◌, ◌+◌, ◌≤◌, OnOk};
ghost use Rattle.vfs_gates.specs.Held.{own_actions};
ghost use Rattle.vfs_gates.specs.Meetings.{SawList};
ghost use Rattle.vfs_gates.specs.TaskStates.{IsFrom, own_number};
ghost use Rattle.example_message.specs.Words.{AreThese, writes_in};

use crate::word::{SharedGates, Word};
use crate::{Ended, MOUNT, WRITES};
use crossbeam_channel::Sender;
use std::sync::Wait;
use vfs_gates::{GateError, Gates, Kind, Task};

/// The root of the tree.
const ROOT: u8 = 0;

/// The processor that the writer says it is on.
const CPU: u8 = 0;

/// Creates the file that is written, inside a write access, and tells its node. The access is given back, whatever the creation answers.
///
/// # Errors
///
/// As `want_write`, `create` and `drop_write`.
fn create_file<R: Wait>(rt: &R, gates: &Gates, task: &mut Task) -> Result<u8, GateError>
    requires from { IsFrom task.old gates.now }
    ensures from { IsFrom task.new gates.now }
{
    task.want_write(rt, gates, MOUNT, CPU)?;
    let file = task.create(gates, ROOT, Kind::File);
    task.drop_write(gates, MOUNT, CPU)?;
    file
}

/// Writes: makes the file larger by a block, inside a write access, which is given back in any case. Then the task's list has one write more, and the
/// task has seen that.
///
/// # Errors
///
/// As `want_write`, `grow` and `drop_write`.
fn write_once<R: Wait>(rt: &R, gates: &Gates, task: &mut Task, file: u8) -> Result<(), GateError>
    requires from { IsFrom task.old gates.now }
    ensures from { IsFrom task.new gates.now }
    ensures wrote { OnOk result (writes_in (own_actions task.old) + 1 ≤ writes_in (own_actions task.new)) }
    ensures seen { OnOk result (SawList task.new.config (own_number task.new.items) (own_actions task.new) task.new.seen) }
{
    task.want_write(rt, gates, MOUNT, CPU)?;
    let grown = task.grow(gates, file, 1);
    task.drop_write(gates, MOUNT, CPU)?;
    grown
}

/// Writes `WRITES` times, and sends word after each write.
///
/// # Errors
///
/// As `create_file` and `write_once`; then no more word is sent.
fn write_and_tell<R: Wait, G: SharedGates>(
    rt: &R,
    gates: &Gates,
    task: &mut Task,
    to: &Sender<Word<G>>,
) -> Result<(), GateError>
    requires these { AreThese G.table G.config gates.now }
    requires from { IsFrom task.old gates.now }
    ensures from { IsFrom task.new gates.now }
{
    let file = create_file(rt, gates, task)?;
    for before in 0..WRITES {
        write_once(rt, gates, task, file)?;
        let word = Word::new(gates, task, before + 1);
        // The backup has ended, or there is no memory for the message.
        if to.send(rt, word).is_err() {
            break;
        }
    }
    Ok(())
}

/// The writer's work, from a task of its own. The channel's end goes with it: then no more word can come.
pub(crate) fn write<R: Wait, G: SharedGates>(
    rt: &R,
    gates: &Gates,
    mut task: Task,
    to: Sender<Word<G>>,
) -> Ended<()>
    requires these { AreThese G.table G.config gates.now }
    requires from { IsFrom task gates.now }
    ensures from { IsFrom result.0 gates.now }
{
    let outcome = write_and_tell(rt, gates, &mut task, &to);
    (task, outcome)
}
