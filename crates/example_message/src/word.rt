//! Word of what a writer has done.

ghost use Rattle.std.specs.Prelude.{◌≡◌};
ghost use Rattle.vfs_gates.specs.TaskStates.{IsFrom, own_number};
ghost use Rattle.example_message.specs.Words.{AreThese, HadWritten};

use std::marker::{Brand, PhantomData};
use vfs_gates::{Gates, Receipt, Task};

/// The gates that the two ends of a channel share: which words they have, and their configuration. A message's type names them, so whoever gets one
/// knows that it is about its own gates. Both members stand in proofs alone. A caller picks them.
pub(crate) trait SharedGates {
    ghost use Rattle.vfs_gates.specs.Meetings.{Config, TableId};

    ghost table: { TableId };

    ghost config: { Config };
}

impl SharedGates for Brand {
    ghost use Rattle.std.specs.Prelude.{[]};

    ghost table = { record { words = 0; slots = 0; views_name = 0; atom = 0; block = 0; offset = 0; slot_names = [] } };

    ghost config = { record { tasks = 0; processors = 0; mounts = 0; nodes = 0; capacity = 0 } };
}

/// A message: how often a writer had written when it sent this. The receipt has no bytes. By it the type says what the message tells: the writer's own
/// list had that many writes, in a state that the receipt has seen.
#[derive(Drop)]
pub(crate) struct Word<G: SharedGates> {
    /// The number of the writer's task.
    pub(crate) writer: u8,
    /// How often it had written, at least.
    pub(crate) writes: u32,
    /// What its task had seen.
    pub(crate) receipt: Receipt,
    pub(crate) gates: PhantomData<G>,
    ghost these: { receipt.table ≡ G.table },
    ghost told: { ∥ HadWritten G.config writer writes receipt.seen ∥₁ },
}

impl<G: SharedGates> Word<G> {
    /// Word of a task that has written so often. The task stays as it was.
    pub(crate) fn new(gates: &Gates, task: &mut Task, writes: u32) -> Word<G>
        requires these { AreThese G.table G.config gates.now }
        requires from { IsFrom task.old gates.now }
        requires told { HadWritten G.config (own_number task.old.items) writes task.old.seen }
        ensures same { task.new ≡ task.old }
        ensures tells { (result.writer ≡ own_number task.old.items) × (result.writes ≡ writes) }
    {
        let writer = task.number();
        let receipt = task.receipt(gates);
        Word {
            writer,
            writes,
            receipt,
            gates: PhantomData,
        }
    }
}
