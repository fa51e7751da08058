//! The order of steps of a callback of a level's `rcu_sync`.

ghost use Rattle.std.specs.Prelude.{◌≡◌};
ghost use Rattle.percpu_rwsem.specs.Callbacks.{at_callback, callback_next, claimed, callback_looked, called_back, callback_after};
ghost use Rattle.percpu_rwsem.specs.declared.callbacks.CallbackStep.TheVariants.{Claims};
ghost use Rattle.percpu_rwsem.specs.declared.transitions.Transition.TheVariants.{Loads};

use crate::grace::{Grace, GraceNext};
use crate::sync_word::SyncWord;
use crate::transitions::{Transition, TransitionNext};
use access_model::{Action, Next, Reply};
use cpu_words::{Touch, WordName};

/// What the next step of a callback is (`rcu_sync_func`, and before it the wait of `call_rcu`).
#[derive(Clone, Copy, PartialEq, Eq)]
pub enum CallbackStep {
    /// Takes the callback that is queued, where one is.
    Claims(Transition),
    /// Loads the next section word of its grace period.
    AwaitsSections(Grace),
    /// Makes the callback's transition, after its grace period.
    CallsBack(Transition),
}

/// A callback of a level (1 to 3) under way, among so many tasks (1 to 64). It answers whether one ran.
#[derive(Clone, Copy, PartialEq, Eq)]
pub struct Callback {
    pub level: u8,
    pub tasks: u8,
    pub step: CallbackStep,
}

impl Callback {
    /// A callback before its first step.
    #[inline(always)]
    pub fn new(level: u8, tasks: u8) -> Callback
        ensures { result ≡ record { level = level; tasks = tasks; step = Claims Loads } }
    {
        Callback {
            level,
            tasks,
            step: CallbackStep::Claims(Transition::Loads),
        }
    }

    /// The word and the touch of the next step.
    #[inline(always)]
    pub fn next(self) -> (WordName, Touch)
        ensures { result ≡ callback_next self self.step }
    {
        match self.step {
            CallbackStep::Claims(transition) | CallbackStep::CallsBack(transition) => {
                transition.next(self.level)
            }
            CallbackStep::AwaitsSections(grace) => (WordName::Section(grace.task), Touch::Load),
        }
    }

    /// Returns the callback with this step to come.
    #[inline(always)]
    fn at(self, step: CallbackStep) -> Callback
        ensures { result ≡ at_callback self step }
    {
        Callback { step, ..self }
    }

    /// What comes after a step of the claim: where none is queued, no callback ran.
    #[inline(always)]
    fn after_claim(self, next: TransitionNext) -> Next<Callback>
        ensures { result ≡ claimed self next }
    {
        match next {
            TransitionNext::More(transition) => {
                Next::Go(self.at(CallbackStep::Claims(transition)))
            }
            TransitionNext::Undefined => Next::Done(Ok(Reply::Ran(false))),
            TransitionNext::Made(_) => {
                let grace = Grace::start(self.tasks);
                Next::Go(self.at(CallbackStep::AwaitsSections(grace)))
            }
        }
    }

    /// What comes after a load of a section word.
    #[inline(always)]
    fn after_look(self, next: GraceNext) -> Next<Callback>
        ensures { result ≡ callback_looked self next }
    {
        match next {
            GraceNext::More(grace) => Next::Go(self.at(CallbackStep::AwaitsSections(grace))),
            GraceNext::Wait(grace) => Next::Wait(self.at(CallbackStep::AwaitsSections(grace))),
            GraceNext::Ended => Next::Go(self.at(CallbackStep::CallsBack(Transition::Loads))),
        }
    }

    /// What comes after a step of the callback's own transition.
    #[inline(always)]
    fn after_callback(self, next: TransitionNext) -> Next<Callback>
        ensures { result ≡ called_back self next }
    {
        match next {
            TransitionNext::More(transition) => {
                Next::Go(self.at(CallbackStep::CallsBack(transition)))
            }
            TransitionNext::Undefined => {
                Next::Go(self.at(CallbackStep::CallsBack(Transition::Loads)))
            }
            TransitionNext::Made(_) => Next::Done(Ok(Reply::Ran(true))),
        }
    }

    /// What comes after the step, which found this. No step of a callback adds an action.
    #[inline(always)]
    pub fn after(self, found: u64) -> (Next<Callback>, Option<Action>)
        ensures { result ≡ callback_after self self.step found }
    {
        let next = match self.step {
            CallbackStep::Claims(transition) => {
                self.after_claim(transition.after(found, SyncWord::on_claim))
            }
            CallbackStep::AwaitsSections(grace) => self.after_look(grace.look(found)),
            CallbackStep::CallsBack(transition) => {
                self.after_callback(transition.after(found, SyncWord::on_callback))
            }
        };
        (next, None)
    }
}
