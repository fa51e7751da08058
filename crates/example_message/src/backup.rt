//! The backup: it copies what it is told of.

ghost use Rattle.std.specs.Prelude.{◌≡◌, ◌≤◌, IfOk, Some, length};
ghost use Rattle.gate_world.specs.declared.views.Snapshot.{Snapshot};
ghost use Rattle.vfs_gates.specs.TaskStates.{IsFrom, own_view};
ghost use Rattle.example_message.specs.Words.{AreThese, BackedUp, CopiesNow, HasEveryWrite};

use crate::Ended;
use crate::word::{SharedGates, Word};
use crossbeam_channel::Receiver;
use std::sync::Wait;
use vfs_gates::{GateError, Gates, Holder, Task};

/// A copy of the tree, and the word by which it was made.
#[derive(Clone, Copy)]
pub(crate) struct TreeCopy {
    /// The number of the writer that sent word.
    pub(crate) writer: u8,
    /// How often it had written by then, as it told.
    pub(crate) writes: u32,
    /// The blocks of all files in the copy.
    pub(crate) blocks: u64,
}

/// The blocks of a task's last snapshot; 0 if it has none.
fn copied_blocks(task: &Task) -> u64
    ensures there { 1 ≤ length task.now.items }
    ensures blocks { (s : Snapshot) → (own_view task.now.items).snapshot ≡ Some s → result ≡ s.loaded.used }
{
    match task.tree() {
        Some(tree) => tree.used(),
        None => 0,
    }
}

/// Copies the frozen tree, and tells its blocks.
fn copy_tree<R: Wait>(rt: &R, gates: &Gates, task: &mut Task) -> Result<u64, GateError>
    requires from { IsFrom task.old gates.now }
    ensures from { IsFrom task.new gates.now }
    ensures copied { IfOk result (CopiesNow task.old task.new) }
{
    task.snapshot(rt, gates)?;
    Ok(copied_blocks(task))
}

/// Takes word in, freezes, copies the tree and thaws. The copy is the tree of a moment by which the writer had done all of which it sent word. Tells the
/// copy's blocks.
///
/// # Errors
///
/// As `freeze`, `snapshot` and `thaw`. If the snapshot is refused, all is thawed before this returns.
fn copy_what_was_told<R: Wait, G: SharedGates>(
    rt: &R,
    gates: &Gates,
    task: &mut Task,
    word: Word<G>,
) -> Result<u64, GateError>
    requires these { AreThese G.table G.config gates.now }
    requires from { IsFrom task.old gates.now }
    ensures from { IsFrom task.new gates.now }
    ensures told { IfOk result
        (λ blocks. ∥ HasEveryWrite gates.now.words.config word.writer word.writes blocks task.new.seen ∥₁) }
{
    task.take_in(gates, word.receipt);
    task.freeze(rt, gates, Holder::User, &mut ())?;
    let copied = copy_tree(rt, gates, task);
    task.thaw(rt, gates, Holder::User, &mut ())?;
    copied
}

/// Copies each time that word comes, until no more can come. Returns the task and its last copy; None if no word came.
///
/// # Errors
///
/// As `copy_what_was_told`; then no more word is taken.
pub(crate) fn back_up<R: Wait, G: SharedGates>(
    rt: &R,
    gates: &Gates,
    mut task: Task,
    from: Receiver<Word<G>>,
) -> Ended<Option<TreeCopy>>
    requires these { AreThese G.table G.config gates.now }
    requires from { IsFrom task gates.now }
    ensures from { IsFrom result.0 gates.now }
    ensures backed_up { BackedUp gates.now.words.config result }
{
    let mut last = None;
    for _ in rt.forever() {
        let Ok(word) = from.recv(rt) else {
            break;
        };
        let (writer, writes) = (word.writer, word.writes);
        match copy_what_was_told(rt, gates, &mut task, word) {
            Ok(blocks) => {
                last = Some(TreeCopy {
                    writer,
                    writes,
                    blocks,
                });
            }
            Err(refusal) => return (task, Err(refusal)),
        }
    }
    (task, Ok(last))
}
