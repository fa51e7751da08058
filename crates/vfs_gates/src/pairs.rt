//! Pairs of calls with others between them, of which the second can't be left out.

ghost use Rattle.std.specs.Prelude.{◌≡◌, Ok};
ghost use Rattle.std.specs.Fn.{FnOnceReturnsAtMut, FnOnceTakesAtMut};
ghost use Rattle.vfs_gates.specs.TaskStates.{SeatedTask};

use crate::gates::Gates;
use crate::task::Task;
use access_model::{GateError, Holder};
use gate_steps::call_events::TimedHooks;
use std::sync::Wait;

impl Task {
    ghost use Rattle.gate_world.specs.declared.operations.Op.TheVariants.{Freeze as FreezeOp, WantWrite};
    ghost use Rattle.gate_steps.specs.call_events.Runs.{Performs};
    ghost use Rattle.vfs_gates.specs.TaskStates.{IsFrom, IsIdle};
    ghost use Rattle.vfs_gates.specs.Held.{IsAsBefore};
    ghost use Rattle.vfs_gates.specs.Pairs.{WithFreeze, WithWrite};

    /// `want_write`, then the closure with the task, and `drop_write` on the same processor, whatever the closure answers. The closure is to
    /// leave the task idle, with what it held; after the call the task holds what it held before.
    ///
    /// # Errors
    ///
    /// As `want_write`; then the closure isn't called.
    pub fn with_write<R: Wait, T, F: FnOnce(&mut Task) -> T>(
        &mut self,
        rt: &R,
        gates: &Gates,
        mount: u8,
        cpu: u8,
        inside: F,
    ) -> Result<T, GateError>
        requires from { IsFrom self.old gates.now }
        requires callable { (there : SeatedTask) → IsFrom there gates.now → Performs (WantWrite mount cpu) self.old there (Ok tt) →
            FnOnceTakesAtMut F.FnOnce inside there }
        requires keeps { (there mid : SeatedTask) (answer : T) → IsIdle there → Performs (WantWrite mount cpu) self.old there (Ok tt) →
            FnOnceReturnsAtMut F.FnOnce inside there answer mid → IsAsBefore there mid }
        ensures from { IsFrom self.new gates.now }
        ensures written { WithWrite (FnOnceReturnsAtMut F.FnOnce inside) mount cpu self.old self.new result }
        ensures as_before { IsIdle self.old → IsAsBefore self.old self.new }
    {
        self.want_write(rt, gates, mount, cpu)?;
        let answer = inside(self);
        let Ok(()) = self.drop_write(gates, mount, cpu) else {
            unreachable!()
        };
        Ok(answer)
    }

    /// `freeze` for a holder, then the closure with the task, and `thaw` for that holder, whatever the closure answers. Tells the closure's
    /// answer and how the thaw ended: where it was refused, all is still frozen, or another task has thawed it for this holder meanwhile
    /// (`thaw` says which). The closure is to leave the task idle, with what it held; after the call the task holds what it held before.
    ///
    /// # Errors
    ///
    /// As `freeze`; then the closure isn't called.
    pub fn with_freeze<R: Wait, H: TimedHooks, T, F: FnOnce(&mut Task) -> T>(
        &mut self,
        rt: &R,
        gates: &Gates,
        holder: Holder,
        hooks: &mut H,
        inside: F,
    ) -> Result<(T, Result<(), GateError>), GateError>
        requires from { IsFrom self.old gates.now }
        requires callable { (there : SeatedTask) → IsFrom there gates.now → Performs (FreezeOp holder) self.old there (Ok tt) →
            FnOnceTakesAtMut F.FnOnce inside there }
        requires keeps { (there mid : SeatedTask) (answer : T) → IsIdle there → Performs (FreezeOp holder) self.old there (Ok tt) →
            FnOnceReturnsAtMut F.FnOnce inside there answer mid → IsAsBefore there mid }
        ensures from { IsFrom self.new gates.now }
        ensures frozen { WithFreeze (FnOnceReturnsAtMut F.FnOnce inside) H.answers holder self.old self.new result hooks.old hooks.new }
        ensures as_before { IsIdle self.old → IsAsBefore self.old self.new }
    {
        self.freeze(rt, gates, holder, hooks)?;
        let answer = inside(self);
        let thawed = self.thaw(rt, gates, holder, hooks);
        Ok((answer, thawed))
    }
}
