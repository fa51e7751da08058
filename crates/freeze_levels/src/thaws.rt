//! The order of steps of a thaw of the superblock.

ghost use Rattle.std.specs.Prelude.{◌≡◌};
ghost use Rattle.freeze_levels.specs.Thaws.{
  thaw_next,
  thaw_after,
  thaw_hook,
  at_thaw,
  thaw_opens,
  thawed,
  thaw_finds,
  thaw_leaves,
  after_opening,
};
ghost use Rattle.freeze_levels.specs.declared.thaws.ThawStep.TheVariants.{Locks};

use crate::holders::{pack, unpack};
use crate::hooks::HookKind;
use crate::levels::reopening;
use access_model::{Action, GateError, Holder, Holders, Next, Reply};
use cpu_words::{Touch, WordName};
use percpu_rwsem::UpWrite;

/// What the next step of a thaw is (`thaw_super`).
#[derive(Clone, Copy, PartialEq, Eq)]
pub enum ThawStep {
    /// Takes `umount` where it is free.
    Locks,
    /// Loads the stage, for SB_FREEZE_COMPLETE.
    LoadsStage,
    /// Loads who holds a freeze.
    LoadsHolders,
    /// Stores these without its holder: others hold a freeze.
    Leaves(Holders),
    /// Loads the superblock's flag.
    LoadsSuperblock,
    /// Stores that nobody holds a freeze: the superblock is read-only.
    LeavesReadOnly,
    /// Stores SB_UNFROZEN: the superblock is read-only, so its freeze closed no level.
    UnfreezesReadOnly,
    /// Stores that nobody holds a freeze, or gives `umount` back, as the file system answers `unfreeze_fs`.
    LeavesLast,
    /// Stores SB_UNFROZEN.
    SetsUnfrozen,
    /// Reopens a level (`sb_freeze_unlock`).
    Reopens(UpWrite),
    /// Gives `umount` back, and answers this.
    Releases(Result<Reply, GateError>),
}

/// A thaw of the superblock under way, for a holder, by a task, which need not be the one that froze it.
#[derive(Clone, Copy, PartialEq, Eq)]
pub struct Thaw {
    pub task: u8,
    pub holder: Holder,
    pub step: ThawStep,
}

impl Thaw {
    /// A thaw before its first step.
    #[inline(always)]
    pub fn new(holder: Holder, task: u8) -> Thaw
        ensures { result ≡ record { holder = holder; task = task; step = Locks } }
    {
        Thaw {
            holder,
            task,
            step: ThawStep::Locks,
        }
    }

    /// The hook whose answer the next step reads.
    #[inline(always)]
    pub fn wants_hook(self) -> Option<HookKind>
        ensures { result ≡ thaw_hook self.step }
    {
        match self.step {
            ThawStep::LeavesLast => Some(HookKind::UnfreezeFs),
            _ => None,
        }
    }

    /// The word and the touch of the next step, where the file system answers this. A step that the answer doesn't decide
    /// ignores it.
    #[inline(always)]
    pub fn next(self, hook: Result<(), u16>) -> (WordName, Touch)
        ensures { result ≡ thaw_next self self.step hook }
    {
        match self.step {
            ThawStep::Locks => {
                let put = self.task as u64 + 1;
                (WordName::Umount, Touch::Cas { expect: 0, put })
            }
            ThawStep::LoadsStage => (WordName::Stage, Touch::Load),
            ThawStep::LoadsHolders => (WordName::Holders, Touch::Load),
            ThawStep::Leaves(held) => {
                let word = pack(held.without(self.holder));
                (WordName::Holders, Touch::Store(word))
            }
            ThawStep::LoadsSuperblock => (WordName::SbFlags, Touch::Load),
            ThawStep::LeavesReadOnly => (WordName::Holders, Touch::Store(0)),
            ThawStep::LeavesLast => match hook {
                Ok(()) => (WordName::Holders, Touch::Store(0)),
                Err(_) => (WordName::Umount, Touch::Store(0)),
            },
            ThawStep::UnfreezesReadOnly | ThawStep::SetsUnfrozen => {
                (WordName::Stage, Touch::Store(0))
            }
            ThawStep::Reopens(write) => write.next(),
            ThawStep::Releases(_) => (WordName::Umount, Touch::Store(0)),
        }
    }

    /// Returns the thaw with this step to come.
    #[inline(always)]
    fn at(self, step: ThawStep) -> Thaw
        ensures { result ≡ at_thaw self step }
    {
        Thaw { step, ..self }
    }

    /// What comes after a look at who holds a freeze: it is refused where its holder holds none, and thaws only where no other does.
    fn finds(self, held: Holders) -> ThawStep
        ensures { result ≡ thaw_finds self held }
    {
        if !held.has(self.holder) {
            ThawStep::Releases(Err(GateError::Invalid))
        } else if held.without(self.holder).is_none() {
            ThawStep::LoadsSuperblock
        } else {
            ThawStep::Leaves(held)
        }
    }

    /// What comes after a store without its holder: this step.
    fn leaves(self, step: ThawStep) -> (Next<Thaw>, Option<Action>)
        ensures { result ≡ thaw_leaves self step }
    {
        (Next::Go(self.at(step)), Some(Action::Leave(self.holder)))
    }

    /// What comes after the store that `unfreeze_fs` decides.
    #[inline(always)]
    fn thawed(self, hook: Result<(), u16>) -> (Next<Thaw>, Option<Action>)
        ensures { result ≡ thawed self hook }
    {
        match hook {
            Ok(()) => self.leaves(ThawStep::SetsUnfrozen),
            Err(code) => (Next::Done(Err(GateError::Hook(code))), None),
        }
    }

    /// What comes after a step of the reopening of a level.
    #[inline(always)]
    fn after_opening(self, level: u8, next: Next<UpWrite>) -> Next<Thaw>
        ensures { result ≡ after_opening self level next }
    {
        match next {
            Next::Go(write) => Next::Go(self.at(ThawStep::Reopens(write))),
            Next::Wait(write) => Next::Wait(self.at(ThawStep::Reopens(write))),
            Next::Done(_) => Next::Go(self.at(opening(level.saturating_sub(1)))),
        }
    }

    /// What comes after the step, which found this, where the file system answers this, and the action that the step adds.
    #[inline(always)]
    pub fn after(self, found: u64, hook: Result<(), u16>) -> (Next<Thaw>, Option<Action>)
        ensures { result ≡ thaw_after self self.step found hook }
    {
        let done = ThawStep::Releases(Ok(Reply::Unit));
        let step = match self.step {
            ThawStep::Locks if found == 0 => ThawStep::LoadsStage,
            ThawStep::Locks => return (Next::Wait(self), None),
            ThawStep::LoadsStage if found == 4 => ThawStep::LoadsHolders,
            ThawStep::LoadsStage => ThawStep::Releases(Err(GateError::Invalid)),
            ThawStep::LoadsHolders => self.finds(unpack(found)),
            ThawStep::Leaves(_) => return self.leaves(done),
            ThawStep::LoadsSuperblock if found == 0 => ThawStep::LeavesLast,
            ThawStep::LoadsSuperblock => ThawStep::LeavesReadOnly,
            ThawStep::LeavesReadOnly => return self.leaves(ThawStep::UnfreezesReadOnly),
            ThawStep::LeavesLast => return self.thawed(hook),
            ThawStep::UnfreezesReadOnly => {
                return (Next::Go(self.at(done)), Some(Action::Stage(0)));
            }
            ThawStep::SetsUnfrozen => {
                return (Next::Go(self.at(opening(3))), Some(Action::Stage(0)));
            }
            ThawStep::Reopens(write) => {
                let (next, action) = write.after(found);
                return (self.after_opening(write.level, next), action);
            }
            ThawStep::Releases(answer) => return (Next::Done(answer), None),
        };
        (Next::Go(self.at(step)), None)
    }
}

/// What comes where the levels up to this one are still to be reopened, the highest first.
#[inline(always)]
fn opening(level: u8) -> ThawStep
    ensures { result ≡ thaw_opens level }
{
    if level == 0 {
        ThawStep::Releases(Ok(Reply::Unit))
    } else {
        ThawStep::Reopens(reopening(level))
    }
}
