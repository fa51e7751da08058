//! Gates opened, and tasks split off and joined, by handles.

ghost use Rattle.std.specs.Prelude.{◌≡◌, ◌++◌, true, false, Err, OnOk, OnErr, IfErr};
ghost use Rattle.access_model.specs.declared.errors.GateError.TheVariants.{Invalid, NoMemory, Order};
ghost use Rattle.gate_world.specs.Configs.{IsWithin};
ghost use Rattle.vfs_gates.specs.Ended.{HasOpeningWords};
ghost use Rattle.vfs_gates.specs.Held.{Rests};
ghost use Rattle.vfs_gates.specs.Parts.{SplitOf};
ghost use Rattle.mntgate_c.specs.Openings.{IsFirst, SplitIsRefused, config_of};

use crate::handles::TaskHandle;
use crate::members::Member;
use std::alloc::Global;
use vfs_gates::{Config, GateError};

/// How many of each there are: tasks and processors 1 to 64, mounts 1 to 8, nodes 2 to 64, and the blocks that all files may have.
#[repr(C)]
#[derive(Clone, Copy)]
pub struct ConfigRecord {
    pub tasks: u8,
    pub processors: u8,
    pub mounts: u8,
    pub nodes: u8,
    pub capacity: u32,
}

/// The configuration that C names.
fn config(named: ConfigRecord) -> Config
    ensures { result ≡ config_of named }
{
    let ConfigRecord {
        tasks,
        processors,
        mounts,
        nodes,
        capacity,
    } = named;
    Config {
        tasks,
        processors,
        mounts,
        nodes,
        capacity,
    }
}

impl TaskHandle {
    /// Opens gates, and gives the handle the task that has all other numbers to give.
    ///
    /// # Errors
    ///
    /// Then the handle has no task still. Invalid if a number of the configuration is out of its limits, NoMemory if a growth was refused.
    pub fn open(&mut self, alloc: Global, named: ConfigRecord) -> Result<(), GateError>
        requires { self.old.full ≡ false }
        ensures full { OnOk result (self.new.full ≡ true) }
        ensures rests { OnOk result (Rests self.new.state) }
        ensures config { OnOk result (self.new.state.config ≡ config_of named) }
        ensures numbers { OnOk result (IsFirst self.new.state (config_of named)) }
        ensures words { OnOk result (HasOpeningWords self.new.state.config self.new.state.items) }
        ensures refused { OnErr result (self.new.full ≡ false) }
        ensures invalid { ¬ IsWithin (config_of named) → result ≡ Err Invalid }
        ensures memory { IsWithin (config_of named) → OnErr result (result ≡ Err NoMemory) }
    {
        self.put(Member::open(alloc, config(named))?);
        Ok(())
    }

    /// Splits off a task with the lowest number that this one has to give, for a handle that has none.
    ///
    /// # Errors
    ///
    /// The other handle has no task then. Order unless this task rests, and TooMany if it has no number to give: it is as it was. NoMemory if a
    /// growth was refused: this task has all its numbers still.
    pub fn split_into(&mut self, alloc: Global, other: &mut TaskHandle) -> Result<(), GateError>
        requires this { self.old.full ≡ true }
        requires that { other.old.full ≡ false }
        ensures this { self.new.full ≡ true }
        ensures that { OnOk result (other.new.full ≡ true) }
        // So the new task has the table and the configuration of the old one, as `join` asks.
        ensures made { OnOk result (SplitOf self.old.state self.new.state other.new.state) }
        ensures rests { OnOk result (Rests self.new.state × Rests other.new.state) }
        ensures refused { OnErr result (other.new.full ≡ false) }
        ensures why { IfErr result (SplitIsRefused self.old.state self.new.state) }
    {
        if !self.member().task.rests() {
            return Err(GateError::Order);
        }
        other.put(self.member().split(alloc)?);
        Ok(())
    }

    /// Takes back the numbers of another task of the same gates, whose handle has none then.
    ///
    /// # Errors
    ///
    /// Order, with both tasks as they were, unless both rest.
    pub fn join(&mut self, alloc: Global, other: &mut TaskHandle) -> Result<(), GateError>
        requires this { self.old.full ≡ true }
        requires that { other.old.full ≡ true }
        requires same { (other.old.state.table ≡ self.old.state.table) × (other.old.state.config ≡ self.old.state.config) }
        ensures full { self.new.full ≡ true }
        ensures joined { OnOk result ((other.new.full ≡ false) × Rests self.old.state × Rests other.old.state
            × (self.new.state ≡ record self.old.state { items = self.old.state.items ++ other.old.state.items; seen = self.old.state.seen ++ other.old.state.seen })) }
        ensures refused { OnErr result ((result ≡ Err Order) × (other.new.full ≡ true) × (self.new.state ≡ self.old.state)
            × (other.new.state ≡ other.old.state) × ¬ (Rests self.old.state × Rests other.old.state)) }
    {
        if !self.member().task.rests() || !other.member().task.rests() {
            return Err(GateError::Order);
        }
        let joined = other.take(alloc);
        self.member().absorb(Box::into_inner(joined));
        Ok(())
    }
}
