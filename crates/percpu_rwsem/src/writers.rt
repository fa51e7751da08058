//! The orders of steps of a down-write and of an up-write.

ghost use Rattle.std.specs.Prelude.{◌≡◌};
ghost use Rattle.access_model.specs.declared.replies.Next.TheVariants.{Go};
ghost use Rattle.percpu_rwsem.specs.SyncWords.{unpack};
ghost use Rattle.percpu_rwsem.specs.Writers.{
  at_down_write,
  down_write_next,
  enter_step,
  sections_awaited,
  callback_step,
  passed_awaited,
  down_write_summed,
  down_write_after,
  at_up_write,
  up_write_next,
  exit_made,
  up_write_after,
};

use crate::grace::{Grace, GraceNext};
use crate::sync_word::{GpState, SyncWord};
use crate::transitions::{Transition, TransitionNext};
use access_model::{Action, Next, Reply};
use cpu_words::{Sum, Taken, Touch, WordName};

/// What the next step of a down-write is (`percpu_down_write`).
#[derive(Clone, Copy, PartialEq, Eq)]
pub enum DownWriteStep {
    /// Enters the level's `rcu_sync` (`rcu_sync_enter`).
    Enters(Transition),
    /// Loads the next section word of its grace period: it found GP_IDLE (`synchronize_rcu`).
    AwaitsSections(Grace),
    /// Makes GP_ENTER GP_PASSED, after its grace period (`rcu_sync_func`).
    CallsBack(Transition),
    /// Loads the sync word, for GP_PASSED: it found GP_ENTER, so another writer waits for a grace period.
    AwaitsPassed,
    /// Sets `block`, where it finds 0 (`__percpu_down_write_trylock`).
    SetsBlock,
    /// Loads the next word of the sum of the read counts (`readers_active_check`).
    Sums(Sum),
}

/// A down-write of a level (1 to 3) under way, among so many tasks and processors (1 to 64 both). It ends with nobody holding the level.
#[derive(Clone, Copy, PartialEq, Eq)]
pub struct DownWrite {
    pub level: u8,
    pub tasks: u8,
    pub processors: u8,
    pub step: DownWriteStep,
}

/// What the next step of an up-write is (`percpu_up_write`).
#[derive(Clone, Copy, PartialEq, Eq)]
pub enum UpWriteStep {
    /// Sets `block` to 0.
    ClearsBlock,
    /// Leaves the level's `rcu_sync` (`rcu_sync_exit`).
    Exits(Transition),
}

/// An up-write of a level (1 to 3) under way. It ends with a callback queued or to follow, where no other writer is in.
#[derive(Clone, Copy, PartialEq, Eq)]
pub struct UpWrite {
    pub level: u8,
    pub step: UpWriteStep,
}

impl DownWriteStep {
    /// What comes after a step of the enter, among so many tasks.
    #[inline(always)]
    fn after_enter(next: TransitionNext, tasks: u8) -> DownWriteStep
        ensures { result ≡ enter_step tasks next }
    {
        match next {
            TransitionNext::More(transition) => DownWriteStep::Enters(transition),
            TransitionNext::Undefined => DownWriteStep::Enters(Transition::Loads),
            TransitionNext::Made(GpState::Idle) => {
                DownWriteStep::AwaitsSections(Grace::start(tasks))
            }
            TransitionNext::Made(GpState::Enter) => DownWriteStep::AwaitsPassed,
            TransitionNext::Made(GpState::Passed | GpState::Exit | GpState::Replay) => {
                DownWriteStep::SetsBlock
            }
        }
    }

    /// What comes after a step of the transition that ends the grace period.
    #[inline(always)]
    fn after_callback(next: TransitionNext) -> DownWriteStep
        ensures { result ≡ callback_step next }
    {
        match next {
            TransitionNext::More(transition) => DownWriteStep::CallsBack(transition),
            TransitionNext::Undefined => DownWriteStep::CallsBack(Transition::Loads),
            TransitionNext::Made(_) => DownWriteStep::SetsBlock,
        }
    }
}

impl DownWrite {
    /// The word and the touch of the next step.
    #[inline(always)]
    pub fn next(self) -> (WordName, Touch)
        ensures { result ≡ down_write_next self self.step }
    {
        match self.step {
            DownWriteStep::Enters(transition) | DownWriteStep::CallsBack(transition) => {
                transition.next(self.level)
            }
            DownWriteStep::AwaitsSections(grace) => (WordName::Section(grace.task), Touch::Load),
            DownWriteStep::AwaitsPassed => (WordName::Sync(self.level), Touch::Load),
            DownWriteStep::SetsBlock => (WordName::Block(self.level), Touch::Swap(1)),
            DownWriteStep::Sums(sum) => {
                (WordName::LevelCount(self.level, sum.words), Touch::Load)
            }
        }
    }

    /// Returns the down-write with this step to come.
    #[inline(always)]
    fn at(self, step: DownWriteStep) -> DownWrite
        ensures { result ≡ at_down_write self step }
    {
        DownWrite { step, ..self }
    }

    /// What comes after a load of a section word.
    #[inline(always)]
    fn after_look(self, next: GraceNext) -> Next<DownWrite>
        ensures { result ≡ sections_awaited self next }
    {
        match next {
            GraceNext::More(grace) => Next::Go(self.at(DownWriteStep::AwaitsSections(grace))),
            GraceNext::Wait(grace) => Next::Wait(self.at(DownWriteStep::AwaitsSections(grace))),
            GraceNext::Ended => Next::Go(self.at(DownWriteStep::CallsBack(Transition::Loads))),
        }
    }

    /// What comes after a load for GP_PASSED. A number that is no word is loaded again.
    #[inline(always)]
    fn after_sync(self, found: u64) -> Next<DownWrite>
        ensures { result ≡ passed_awaited self (unpack found) }
    {
        match SyncWord::unpack(found).map(|word| word.state) {
            None => Next::Go(self.at(DownWriteStep::AwaitsPassed)),
            Some(GpState::Idle | GpState::Enter) => {
                Next::Wait(self.at(DownWriteStep::AwaitsPassed))
            }
            Some(GpState::Passed | GpState::Exit | GpState::Replay) => {
                Next::Go(self.at(DownWriteStep::SetsBlock))
            }
        }
    }

    /// What comes after one word more of the sum, which begins anew where somebody was counted.
    #[inline(always)]
    fn after_sum(self, taken: Taken) -> (Next<DownWrite>, Option<Action>)
        ensures { result ≡ down_write_summed self taken }
    {
        match taken {
            Taken::More(sum) => (Next::Go(self.at(DownWriteStep::Sums(sum))), None),
            Taken::Total(0) => (Next::Done(Ok(Reply::Unit)), Some(Action::Pass(self.level))),
            Taken::Total(_) => (Next::Wait(self.at(DownWriteStep::Sums(Sum::start()))), None),
        }
    }

    /// What comes after the step, which found this, and the action that the step adds.
    #[inline(always)]
    pub fn after(self, found: u64) -> (Next<DownWrite>, Option<Action>)
        ensures { result ≡ down_write_after self self.step found }
    {
        let next = match self.step {
            DownWriteStep::Enters(transition) => {
                let next = transition.after(found, SyncWord::on_enter);
                Next::Go(self.at(DownWriteStep::after_enter(next, self.tasks)))
            }
            DownWriteStep::AwaitsSections(grace) => self.after_look(grace.look(found)),
            DownWriteStep::CallsBack(transition) => {
                let next = transition.after(found, SyncWord::on_callback);
                Next::Go(self.at(DownWriteStep::after_callback(next)))
            }
            DownWriteStep::AwaitsPassed => self.after_sync(found),
            DownWriteStep::SetsBlock if found == 0 => {
                Next::Go(self.at(DownWriteStep::Sums(Sum::start())))
            }
            DownWriteStep::SetsBlock => Next::Wait(self.at(DownWriteStep::SetsBlock)),
            DownWriteStep::Sums(sum) => return self.after_sum(sum.take(found, self.processors)),
        };
        (next, None)
    }
}

impl UpWrite {
    /// The word and the touch of the next step.
    #[inline(always)]
    pub fn next(self) -> (WordName, Touch)
        ensures { result ≡ up_write_next self self.step }
    {
        match self.step {
            UpWriteStep::ClearsBlock => (WordName::Block(self.level), Touch::Store(0)),
            UpWriteStep::Exits(transition) => transition.next(self.level),
        }
    }

    /// Returns the up-write with this step of its transition to come.
    #[inline(always)]
    fn at(self, transition: Transition) -> Next<UpWrite>
        ensures { result ≡ Go (at_up_write self transition) }
    {
        Next::Go(UpWrite {
            step: UpWriteStep::Exits(transition),
            ..self
        })
    }

    /// What comes after the step, which found this, and the action that the step adds.
    #[inline(always)]
    pub fn after(self, found: u64) -> (Next<UpWrite>, Option<Action>)
        ensures { result ≡ up_write_after self self.step found }
    {
        match self.step {
            UpWriteStep::ClearsBlock => {
                (self.at(Transition::Loads), Some(Action::Reopen(self.level)))
            }
            UpWriteStep::Exits(transition) => {
                let next = match transition.after(found, SyncWord::on_exit) {
                    TransitionNext::More(transition) => self.at(transition),
                    TransitionNext::Undefined => self.at(Transition::Loads),
                    TransitionNext::Made(_) => Next::Done(Ok(Reply::Unit)),
                };
                (next, None)
            }
        }
    }
}
