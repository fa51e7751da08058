//! The orders of steps of a down-read and of an up-read.

ghost use Rattle.std.specs.Prelude.{◌≡◌};
ghost use Rattle.percpu_rwsem.specs.SyncWords.{unpack};
ghost use Rattle.percpu_rwsem.specs.Readers.{down_read_next, down_read_after, step_found, up_read_next, up_read_after};
ghost use Rattle.percpu_rwsem.specs.declared.readers.DownReadStep.TheVariants.{EntersSection};

use crate::sync_word::{GpState, SyncWord};
use access_model::{Action, Gate, GateError, Next, Reply};
use cpu_words::{Touch, WordName};

/// What the next step of a down-read is (`percpu_down_read`, `percpu_down_read_trylock`).
#[derive(Clone, Copy, PartialEq, Eq)]
pub enum DownReadStep {
    /// Adds one to its section word, which is odd from then on (`preempt_disable`).
    EntersSection,
    /// Loads the level's sync word (`rcu_sync_is_idle`), again where it is none.
    LoadsSync,
    /// Adds one to the count of its processor, and is admitted: the state was GP_IDLE.
    CountsUpFast,
    /// Adds one to the count of its processor, and is to ask: it was another.
    CountsUpSlow,
    /// Loads `block`: where it is 0, it is admitted (`__percpu_down_read_trylock`).
    LoadsBlock,
    /// Subtracts what it added.
    CountsDown,
    /// Adds one to its section word, which is even from then on, with the level held.
    LeavesAdmitted,
    /// Adds one to its section word, which is even from then on, with `block` found set.
    LeavesBlocked,
}

/// A down-read of a level (1 to 3) under way, by a task on a processor (0 to 63 both). One that doesn't wait is refused as Again where it
/// finds `block` set, with its section left and its count taken back.
#[derive(Clone, Copy, PartialEq, Eq)]
pub struct DownRead {
    pub level: u8,
    pub cpu: u8,
    pub task: u8,
    pub wait: bool,
    pub step: DownReadStep,
}

/// An up-read of a level (1 to 3), on a processor (0 to 63) that need not be the one of its down-read (`percpu_up_read`): subtracts one
/// from the count there.
#[derive(Clone, Copy, PartialEq, Eq)]
pub struct UpRead {
    pub level: u8,
    pub cpu: u8,
}

impl DownReadStep {
    /// The step that a number found in a sync word leads to: GP_IDLE alone to the fast path, as in the kernel. A number that is no word is
    /// loaded again; behind the gates there is none.
    #[inline(always)]
    fn after_sync(found: u64) -> DownReadStep
        ensures { result ≡ step_found (unpack found) }
    {
        // GP_IDLE has one number alone, so that the usual case needs no look at the parts of the word.
        if found == 0 {
            return DownReadStep::CountsUpFast;
        }
        match SyncWord::unpack(found) {
            Some(word) if word.state == GpState::Idle => DownReadStep::CountsUpFast,
            Some(_) => DownReadStep::CountsUpSlow,
            None => DownReadStep::LoadsSync,
        }
    }
}

impl DownRead {
    /// A down-read before its first step.
    #[inline(always)]
    pub fn new(level: u8, cpu: u8, task: u8, wait: bool) -> DownRead
        ensures { result ≡ record { level = level; cpu = cpu; task = task; wait = wait; step = EntersSection } }
    {
        DownRead {
            level,
            cpu,
            task,
            wait,
            step: DownReadStep::EntersSection,
        }
    }

    /// The word and the touch of the next step.
    #[inline(always)]
    pub fn next(self) -> (WordName, Touch)
        ensures { result ≡ down_read_next self self.step }
    {
        let section = WordName::Section(self.task);
        let count = WordName::LevelCount(self.level, self.cpu);
        match self.step {
            DownReadStep::EntersSection
            | DownReadStep::LeavesAdmitted
            | DownReadStep::LeavesBlocked => (section, Touch::Add(1)),
            DownReadStep::LoadsSync => (WordName::Sync(self.level), Touch::Load),
            DownReadStep::CountsUpFast | DownReadStep::CountsUpSlow => (count, Touch::Add(1)),
            DownReadStep::LoadsBlock => (WordName::Block(self.level), Touch::Load),
            DownReadStep::CountsDown => (count, Touch::Sub(1)),
        }
    }

    /// Returns the down-read with this step to come.
    #[inline(always)]
    fn at(self, step: DownReadStep) -> DownRead
        ensures { result ≡ record self { step = step } }
    {
        DownRead { step, ..self }
    }

    /// What comes after the step, which found this, and the action that the step adds.
    #[inline(always)]
    pub fn after(self, found: u64) -> (Next<DownRead>, Option<Action>)
        ensures { result ≡ down_read_after self self.step found }
    {
        let granted = Some(Action::Grant(Gate::Level(self.level)));
        let (step, action) = match self.step {
            DownReadStep::EntersSection => (DownReadStep::LoadsSync, None),
            DownReadStep::LoadsSync => (DownReadStep::after_sync(found), None),
            DownReadStep::CountsUpFast => (DownReadStep::LeavesAdmitted, granted),
            DownReadStep::CountsUpSlow => (DownReadStep::LoadsBlock, None),
            DownReadStep::LoadsBlock if found == 0 => (DownReadStep::LeavesAdmitted, granted),
            DownReadStep::LoadsBlock => (DownReadStep::CountsDown, None),
            DownReadStep::CountsDown => (DownReadStep::LeavesBlocked, None),
            DownReadStep::LeavesAdmitted => return (Next::Done(Ok(Reply::Unit)), None),
            DownReadStep::LeavesBlocked if self.wait => {
                return (Next::Wait(self.at(DownReadStep::EntersSection)), None);
            }
            DownReadStep::LeavesBlocked => return (Next::Done(Err(GateError::Again)), None),
        };
        (Next::Go(self.at(step)), action)
    }
}

impl UpRead {
    /// The word and the touch of its step.
    #[inline(always)]
    pub fn next(self) -> (WordName, Touch)
        ensures { result ≡ up_read_next self }
    {
        (WordName::LevelCount(self.level, self.cpu), Touch::Sub(1))
    }

    /// What comes after the step, and the action that the step adds.
    #[inline(always)]
    pub fn after(self) -> (Next<UpRead>, Option<Action>)
        ensures { result ≡ up_read_after self }
    {
        let returned = Action::Return(Gate::Level(self.level));
        (Next::Done(Ok(Reply::Unit)), Some(returned))
    }
}
