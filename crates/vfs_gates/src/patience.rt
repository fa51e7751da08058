//! Freezes with little patience: one that waits for nobody who is inside, and one that waits no longer than a limit.

ghost use Rattle.std.specs.Prelude.{◌≡◌};
ghost use Rattle.vfs_gates.specs.Patience.{without_patience, with_deadline};

use crate::gates::Gates;
use crate::task::Task;
use access_model::{GateError, Holder};
use freeze_levels::HookCall;
use gate_steps::call_events::{GhostSeat, TimedHooks};
use std::rt::Clock;
use std::sync::Wait;
use std::time::{Duration, Instant};

/// The code with which a freeze gives up that waits for nobody: EAGAIN.
pub const FOUND_SOMEBODY: u16 = 11;

/// The code with which a freeze gives up whose limit has passed: ETIMEDOUT.
pub const TIMED_OUT: u16 = 110;

/// Hooks with no patience. They ask a file system's own; where its `keep_waiting` would wait, they answer `FOUND_SOMEBODY`.
#[derive(Drop)]
pub struct NoPatience<'a, H> {
    /// The file system's own.
    pub hooks: &'a mut H,
}

impl<H: TimedHooks> TimedHooks for NoPatience<'_, H> {
    ghost answers = { λ call at old answer new. (new.hooks.ghost_name ≡ old.hooks.ghost_name)
        × without_patience H.answers call at old.hooks.now answer new.hooks.now };

    fn ask(&mut self, call: HookCall, at: &GhostSeat) -> Result<(), u16> {
        let answer = self.hooks.ask(call, at);
        match call {
            HookCall::KeepWaiting { .. } => answer.and(Err(FOUND_SOMEBODY)),
            _ => answer,
        }
    }
}

/// Hooks that wait no longer than a limit. They ask a file system's own; where its `keep_waiting` would wait and the limit has passed, they
/// answer `TIMED_OUT`. A clock that can't be read counts as one that has passed it.
#[derive(Drop)]
pub struct Deadline<'a, R, H> {
    /// What tells the time.
    pub clock: &'a R,
    /// When the limit began; None where the clock couldn't be read.
    pub start: Option<Instant>,
    /// How long to wait.
    pub limit: Duration,
    /// The file system's own.
    pub hooks: &'a mut H,
}

impl<'a, R: Clock, H> Deadline<'a, R, H> {
    /// Whether the limit has passed.
    fn has_passed(&self) -> bool {
        let Some(start) = self.start else {
            return true;
        };
        match start.elapsed(self.clock) {
            Ok(took) => took >= self.limit,
            Err(_) => true,
        }
    }
}

impl<R: Clock, H: TimedHooks> TimedHooks for Deadline<'_, R, H> {
    ghost answers = { λ call at old answer new. (new.hooks.ghost_name ≡ old.hooks.ghost_name)
        × with_deadline H.answers call at old.hooks.now answer new.hooks.now };

    fn ask(&mut self, call: HookCall, at: &GhostSeat) -> Result<(), u16> {
        let answer = self.hooks.ask(call, at);
        match call {
            HookCall::KeepWaiting { .. } => {
                answer?;
                if self.has_passed() {
                    return Err(TIMED_OUT);
                }
                Ok(())
            }
            _ => answer,
        }
    }
}

impl Task {
    ghost use Rattle.gate_world.specs.declared.operations.Op.TheVariants.{Freeze as FreezeOp};
    ghost use Rattle.vfs_gates.specs.TaskStates.{IsFrom};
    ghost use Rattle.gate_steps.specs.call_events.Asking.{PerformsAsking};

    /// As `freeze`, but for nobody who is inside a level: at the first sum of a level that finds somebody it gives up. It still waits where
    /// another task has `umount`, and for the grace period of a level.
    ///
    /// While it is under way new starts of a level that it closes wait, those that try are `Again`, and another freeze or a remount is Busy. Once
    /// it has given up the stage is 0, no level is closed by it, and `umount` is given back: from then on nobody waits or is refused because of it.
    /// Dirty marks may be cleared, and the readers of a level are slow until a `callback` of that level has run, as after a thaw.
    ///
    /// # Errors
    ///
    /// Hook of 11 (EAGAIN) where it has given up. A sum also counts tasks that have added themselves to a level's count, are to find it closed and
    /// to take that back: so it may give up though nobody is inside. Who tries again is to pause before: each try closes level 1 for one sum. All
    /// others as `freeze`.
    pub fn try_freeze<R: Wait, H: TimedHooks>(
        &mut self,
        rt: &R,
        gates: &Gates,
        holder: Holder,
        hooks: &mut H,
    ) -> Result<(), GateError>
        requires { IsFrom self.old gates.now }
        ensures { PerformsAsking (without_patience H.answers) (FreezeOp holder) self.old self.new result hooks.old hooks.new }
    {
        let mut impatient = NoPatience { hooks };
        let outcome = self.freeze(rt, gates, holder, &mut impatient);
        let NoPatience { hooks } = impatient;
        // No effect at run time. The proof reads what the hooks are from this use.
        let _ = &*hooks;
        outcome
    }

    /// As `freeze`, but once this time has passed it waits no longer for who is inside a level: at the next sum that finds somebody it gives up, as
    /// `try_freeze` does. The time passes from the call on, also while it waits for `umount` or for a grace period, which it doesn't give up. Its
    /// pauses are at most 0.8 milliseconds long. Where the clock can't be read it counts as passed. No proof says how long a call takes.
    ///
    /// # Errors
    ///
    /// Hook of 110 (ETIMEDOUT) where it has given up; then all is as after a `try_freeze` that has. All others as `freeze`.
    pub fn freeze_within<R: Wait + Clock, H: TimedHooks>(
        &mut self,
        rt: &R,
        gates: &Gates,
        holder: Holder,
        hooks: &mut H,
        limit: Duration,
    ) -> Result<(), GateError>
        requires { IsFrom self.old gates.now }
        ensures { PerformsAsking (with_deadline H.answers) (FreezeOp holder) self.old self.new result hooks.old hooks.new }
    {
        let mut within = Deadline {
            clock: rt,
            start: Instant::now(rt).ok(),
            limit,
            hooks,
        };
        let outcome = self.freeze(rt, gates, holder, &mut within);
        let Deadline { hooks, .. } = within;
        // No effect at run time. The proof reads what the hooks are from this use.
        let _ = &*hooks;
        outcome
    }
}
