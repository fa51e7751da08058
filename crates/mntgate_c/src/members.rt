//! A task with the gates that it came from.

ghost use Rattle.std.specs.Prelude.{◌≡◌, ◌++◌, IfOk, IfErr};
ghost use Rattle.gate_world.specs.Configs.{IsWithin};
ghost use Rattle.vfs_gates.specs.Held.{Rests};
ghost use Rattle.vfs_gates.specs.Meetings.{Meets};
ghost use Rattle.vfs_gates.specs.Ended.{HasAll, EndedWith, HasOpeningWords};
ghost use Rattle.vfs_gates.specs.Parts.{SplitOf};
ghost use Rattle.mntgate_c.specs.Openings.{IsFirst, SplitIsRefused};
ghost use Rattle.access_model.specs.declared.errors.GateError.TheVariants.{Invalid, NoMemory};

use std::alloc::Global;
use std::marker::Model;
use std::sync::Arc;
use vfs_gates::{Closed, Config, GateError, Gates, Task};

/// A task with a share of its gates, which go when the last of their tasks does. Contracts see the task.
#[derive(Drop)]
pub struct Member {
    /// The gates that the task came from.
    pub gates: Arc<Gates, Global>,
    pub task: Task,
}

impl Model for Member {
    ghost use Rattle.vfs_gates.specs.TaskStates.{SeatedTask, IsFrom};
    ghost use Rattle.std.specs.Arc.{arc_value};

    ghost Value = { SeatedTask };

    ghost view = { λ m. m.task };

    ghost invariant = { λ m. IsFrom m.task (arc_value m.gates) };
}

/// A member on the heap.
fn boxed(alloc: Global, member: Member) -> Result<Box<Member, Global>, GateError>
    ensures made { IfOk result (λ b. b.value ≡ member) }
    ensures memory { IfErr result (λ e. e ≡ NoMemory) }
{
    Box::new(alloc, member).map_err(|_| GateError::NoMemory)
}

impl Member {
    /// Opens gates, with the task that has all other numbers to give.
    ///
    /// # Errors
    ///
    /// Invalid where a number of the configuration is out of its limits, NoMemory where a growth was refused.
    pub(crate) fn open(alloc: Global, config: Config) -> Result<Box<Member, Global>, GateError>
        ensures config { IfOk result (λ b. b.value.config ≡ config) }
        ensures rests { IfOk result (λ b. Rests b.value) }
        ensures numbers { IfOk result (λ b. IsFirst b.value config) }
        ensures words { IfOk result (λ b. HasOpeningWords b.value.config b.value.items) }
        ensures invalid { ¬ IsWithin config → result ≡ Err Invalid }
        ensures memory { IsWithin config → IfErr result (λ e. e ≡ NoMemory) }
    {
        let (gates, task) = Gates::new(alloc, config)?;
        let gates = Arc::new(alloc, gates).map_err(|_| GateError::NoMemory)?;
        boxed(alloc, Member { gates, task })
    }

    /// Splits off a task with the lowest number that this one has to give. This one rests, so it can take the number back if there is no
    /// memory for the new one's share of the gates or its block.
    ///
    /// # Errors
    ///
    /// TooMany if no number is left: this task is as it was. NoMemory if a growth was refused: this task has all its numbers still.
    pub(crate) fn split(&mut self, alloc: Global) -> Result<Box<Member, Global>, GateError>
        requires { Rests self.old }
        ensures made { IfOk result (λ b. SplitOf self.old self.new b.value) }
        ensures rests { IfOk result (λ b. Rests b.value × Rests self.new) }
        ensures refused { IfErr result (SplitIsRefused self.old self.new) }
    {
        let task = self.task.split(alloc, &self.gates)?;
        match Arc::try_clone(&self.gates) {
            Ok(gates) => self.boxed_or_absorbed(alloc, Member { gates, task }),
            Err(_) => {
                self.take_back(task);
                Err(GateError::NoMemory)
            }
        }
    }

    /// Puts a task that was split off on the heap. If there is no memory for it, takes its numbers back.
    fn boxed_or_absorbed(
        &mut self,
        alloc: Global,
        other: Member,
    ) -> Result<Box<Member, Global>, GateError>
        requires same { (other.table ≡ self.old.table) × (other.config ≡ self.old.config) }
        requires this { Rests self.old }
        requires that { Rests other }
        ensures made { IfOk result (λ b. (b.value ≡ other) × (self.new ≡ self.old)) }
        ensures refused { IfErr result (λ refusal. (refusal ≡ NoMemory)
            × (self.new ≡ record self.old { items = self.old.items ++ other.items; seen = self.old.seen ++ other.seen })) }
    {
        match Box::new(alloc, other) {
            Ok(boxed) => Ok(boxed),
            Err(failed) => {
                self.absorb(failed.value);
                Err(GateError::NoMemory)
            }
        }
    }

    /// Takes the numbers of a task that rests, as this one does.
    pub(crate) fn absorb(&mut self, other: Member)
        requires same { (other.table ≡ self.old.table) × (other.config ≡ self.old.config) }
        requires this { Rests self.old }
        requires that { Rests other }
        ensures { self.new ≡ record self.old { items = self.old.items ++ other.items; seen = self.old.seen ++ other.seen } }
    {
        let Member { gates: _, task } = other;
        self.take_back(task);
    }

    /// Takes the numbers of a task that rests and has no share of the gates, as this one rests.
    fn take_back(&mut self, other: Task)
        requires same { (other.table ≡ self.old.table) × (other.config ≡ self.old.config) }
        requires this { Rests self.old }
        requires that { Rests other }
        ensures { self.new ≡ record self.old { items = self.old.items ++ other.items; seen = self.old.seen ++ other.seen } }
    {
        let Ok(()) = self.task.join(&self.gates, other) else {
            unreachable!()
        };
    }

    /// Brings two tasks of the same gates together: what either has done stands in one state, which both have seen from then on.
    pub(crate) fn meet(&mut self, other: &mut Member)
        requires same { (other.old.table ≡ self.old.table) × (other.old.config ≡ self.old.config) }
        ensures { Meets self.old other.old self.new other.new }
    {
        self.task.meet(&self.gates, &mut other.task);
    }

    /// Closes the gates, where no other task has them any more; else the member comes back.
    pub(crate) fn close(self) -> Result<Closed, Member>
        requires { HasAll self }
        ensures closed { IfOk result (λ c. (c.config ≡ self.config) × EndedWith c.config c.words self.items self.seen) }
        ensures back { IfErr result (λ m. m ≡ self) }
    {
        let Member { gates, task } = self;
        match Arc::try_unwrap(gates) {
            Ok(gates) => {
                let Ok(closed) = gates.close(task) else {
                    unreachable!()
                };
                Ok(closed)
            }
            Err(gates) => Err(Member { gates, task }),
        }
    }
}
