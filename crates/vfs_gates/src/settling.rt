//! Callbacks of all levels, until none is queued.

ghost use Rattle.std.specs.Prelude.{◌≡◌, ◌≤◌, OnOk, Ok};

use crate::gates::Gates;
use crate::task::Task;
use access_model::GateError;
use std::sync::Wait;

impl Task {
    ghost use Rattle.vfs_gates.specs.TaskStates.{IsFrom, IsIdle};
    ghost use Rattle.vfs_gates.specs.Held.{IsAsBefore};
    ghost use Rattle.vfs_gates.specs.Settled.{Settles, SettlesLevel};
    ghost use Rattle.access_model.specs.declared.errors.GateError.TheVariants.{Order};

    /// Calls back what a level, 1 to 3, has queued, until none is.
    fn settle_level<R: Wait>(&mut self, rt: &R, gates: &Gates, level: u8) -> Result<(), GateError>
        requires from { IsFrom self.old gates.now }
        requires level { (1 ≤ level) × (level ≤ 3) }
        ensures from { IsFrom self.new gates.now }
        ensures settled { OnOk result (SettlesLevel level self.old self.new) }
        ensures idle { IsIdle self.old → (result ≡ Ok tt) × IsAsBefore self.old self.new }
        ensures refused { ¬ IsIdle self.old → (result ≡ Err Order) × (self.new ≡ self.old) }
    {
        for _ in rt.forever() {
            if !self.callback(rt, gates, level)? {
                return Ok(());
            }
        }
        unreachable!()
    }

    /// Calls back what the three levels have queued, one level after the other, each until none is queued: from a thaw until then readers
    /// take the slow path. It waits as `callback` does, at a level where other tasks go on freezing as long as they do. Of an idle task it is
    /// never refused, and then the task is as it was.
    ///
    /// # Errors
    ///
    /// Order where an operation is under way; then nothing is changed.
    pub fn settle<R: Wait>(&mut self, rt: &R, gates: &Gates) -> Result<(), GateError>
        requires { IsFrom self.old gates.now }
        ensures from { IsFrom self.new gates.now }
        ensures settled { OnOk result (Settles self.old self.new) }
        ensures idle { IsIdle self.old → (result ≡ Ok tt) × IsAsBefore self.old self.new }
        ensures refused { ¬ IsIdle self.old → (result ≡ Err Order) × (self.new ≡ self.old) }
    {
        self.settle_level(rt, gates, 1)?;
        self.settle_level(rt, gates, 2)?;
        self.settle_level(rt, gates, 3)
    }
}
