//! Numbers that go from task to task.

ghost use Rattle.std.specs.Prelude.{◌≡◌, ◌++◌, IfOk, IfErr, Some, None};
ghost use Rattle.access_model.specs.declared.errors.GateError.TheVariants.{Order};

use crate::buffers::SnapshotBuffers;
use crate::gates::Gates;
use crate::numbers::{lowest, none};
use crate::task::Task;
use access_model::GateError;
use gate_steps::call_events::TaskState;
use std::alloc::Global;

impl Task {
    ghost use Rattle.vfs_gates.specs.TaskStates.{IsFrom, IsIdle, HoldsNothing};
    ghost use Rattle.vfs_gates.specs.Parts.{SplitOf, SplitRefused};
    ghost use Rattle.vfs_gates.specs.Held.{Rests};

    /// A task with the lowest number that this one has to give. The new one is idle, holds nothing, has no number to give, and has seen what
    /// this one has: what was done before the split lies behind its calls.
    ///
    /// # Errors
    ///
    /// Order where an operation is under way, TooMany where no number is left, NoMemory where a growth was refused; then nothing is
    /// changed.
    pub fn split(&mut self, alloc: Global, gates: &Gates) -> Result<Task, GateError>
        requires { IsFrom self.old gates.now }
        ensures table { self.new.table ≡ self.old.table }
        ensures config { self.new.config ≡ self.old.config }
        ensures from { IfOk result (λ t. IsFrom t gates.now) }
        ensures made { IfOk result (λ t. SplitOf self.old self.new t) }
        ensures refused { IfErr result (λ e. (self.new ≡ self.old) × SplitRefused self.old e) }
        ensures rests { IfOk result (λ t. Rests t × (Rests self.old → Rests self.new)) }
    {
        if !self.is_idle() {
            return Err(GateError::Order);
        }
        let Some(number) = lowest(&self.spare) else {
            return Err(GateError::TooMany);
        };
        let buffers = SnapshotBuffers::new(alloc, self.config.nodes)?;
        let seat = gates.words.give(&mut self.seat, number);
        self.spare[number as usize] = false;
        Ok(Task {
            number,
            config: self.config,
            begins: None,
            state: TaskState::idle(),
            spare: none(),
            buffers,
            waited: 0,
            seat,
        })
    }

    /// Takes another task's numbers back, to give them again. This one has seen what either had: what the other did lies behind its next calls.
    ///
    /// # Errors
    ///
    /// Order, with the other given back as it was, unless both are idle and hold nothing.
    pub fn join(&mut self, gates: &Gates, other: Task) -> Result<(), (GateError, Task)>
        requires this { IsFrom self.old gates.now }
        requires that { IsFrom other gates.now }
        ensures table { self.new.table ≡ self.old.table }
        ensures config { self.new.config ≡ self.old.config }
        ensures joined { IfOk result (λ _. IsIdle self.old × HoldsNothing self.old × IsIdle other × HoldsNothing other
            × (self.new ≡ record self.old { items = self.old.items ++ other.items; seen = self.old.seen ++ other.seen })) }
        ensures refused { IfErr result (λ e. (e.0 ≡ Order) × (e.1 ≡ other) × (self.new ≡ self.old)
            × ¬ (IsIdle self.old × HoldsNothing self.old × IsIdle other × HoldsNothing other)) }
    {
        if !self.rests() || !other.rests() {
            return Err((GateError::Order, other));
        }
        other.leave_to(self, gates);
        Ok(())
    }
}
