//! What a call asks of the file system, with the moment at which it asks.

use crate::call_events::words::GhostSeat;
use freeze_levels::{FsHooks, HookCall};

/// The hooks of a file system that may look at the task that asks: each `FsHooks` is one, which doesn't look.
pub trait TimedHooks {
    ghost use Rattle.cpu_words.specs.Hooks.{HookAnswer};
    ghost use Rattle.freeze_levels.specs.declared.hooks.HookCall.{HookCall as HookCallType};
    ghost use Rattle.gate_steps.specs.Seating.{DealtNumbers};

    /// What a hook may answer that is asked where the numbers of the task stand so, and what the file system may be then.
    ghost answers: { HookCallType → DealtNumbers → Self → HookAnswer → Self → Type 0 };

    /// Asks a hook, by the seat of the task that asks: Ok, or Err with the code of its failure. Nobody has the seat as it stands after an
    /// step before that step.
    fn ask(&mut self, call: HookCall, at: &GhostSeat) -> Result<(), u16>
        ensures { answers call at.now.me.0.items self.old result self.new };
}

impl<H: FsHooks> TimedHooks for H {
    ghost answers = { λ call at old answer new. H.answers call old answer new };

    #[inline(always)]
    fn ask(&mut self, call: HookCall, _at: &GhostSeat) -> Result<(), u16> {
        call.ask(self)
    }
}
