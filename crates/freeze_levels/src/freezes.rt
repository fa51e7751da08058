//! The order of steps of a freeze of the superblock.

ghost use Rattle.std.specs.Prelude.{◌≡◌, Ok};
ghost use Rattle.access_model.specs.declared.replies.Next.TheVariants.{Go};
ghost use Rattle.freeze_levels.specs.declared.freezes.FreezeStep.TheVariants.{Closes, Locks};
ghost use Rattle.percpu_rwsem.specs.declared.writers.DownWriteStep.TheVariants.{Sums};
ghost use Rattle.freeze_levels.specs.Freezes.{
  freeze_next,
  freeze_after,
  freeze_hook,
  at_freeze,
  freeze_locked,
  freeze_closes,
  freeze_synced,
  found_holders,
  held_now,
  freeze_completed,
  stage_stored,
  level_closed,
  after_closing,
  closing_waits,
  freeze_closed,
  freeze_waited,
  freeze_undone,
  after_undoing,
  after_clearing,
  freeze_fails,
  after_reopening,
};

use crate::holders::{pack, unpack};
use crate::hooks::HookKind;
use crate::levels::{closing, reopening};
use access_model::{Action, GateError, Holder, Holders, Next, Reply};
use cpu_words::{Touch, WordName};
use node_words::ClearMarks;
use percpu_rwsem::{DownWrite, DownWriteStep, SyncWord, Transition, TransitionNext, UpWrite};

/// What the next step of a freeze is (`freeze_super`).
#[derive(Clone, Copy, PartialEq, Eq)]
pub enum FreezeStep {
    /// Takes `umount` where it is free.
    Locks,
    /// Loads the stage, for SB_UNFROZEN, or for SB_FREEZE_COMPLETE.
    LoadsStage,
    /// Loads who holds a freeze: all is frozen already.
    LoadsHolders,
    /// Stores its holder beside these.
    Holds(Holders),
    /// Loads the superblock's flag.
    LoadsSuperblock,
    /// Stores SB_FREEZE_COMPLETE at once: the superblock is read-only.
    CompletesReadOnly,
    /// Stores SB_FREEZE_WRITE.
    SetsWrite,
    /// Gives `umount` back, before level 1 is closed.
    Unlocks,
    /// Closes a level (`sb_wait_write`).
    Closes(DownWrite),
    /// Loads the first word of another sum at a level where somebody was found, or clears its `block` and so gives it up, as the file system
    /// answers `keep_waiting`.
    Waits(DownWrite),
    /// Leaves the `rcu_sync` of a level that it has given up, as the hook answered this code.
    Undoes {
        level: u8,
        transition: Transition,
        code: u16,
    },
    /// Takes `umount` again where it is free, with level 1 given up.
    LocksToUndo(u16),
    /// Stores SB_UNFROZEN, with this level given up and those below it still closed.
    GivesUp {
        level: u8,
        code: u16,
    },
    /// Takes `umount` again where it is free, with level 1 closed.
    LocksAgain,
    /// Stores SB_FREEZE_PAGEFAULT.
    SetsPageFault,
    /// Clears the dirty mark of a node (`sync_filesystem`).
    Cleans(ClearMarks),
    /// Stores SB_FREEZE_FS, or SB_UNFROZEN, as the file system answers `sync`.
    SetsFs,
    /// Stores SB_FREEZE_COMPLETE, or SB_UNFROZEN, as the file system answers `freeze_fs`.
    SetsComplete,
    /// Reopens a level, as a hook failed with this code (`sb_freeze_unlock`).
    Reopens {
        write: UpWrite,
        code: u16,
    },
    /// Gives `umount` back, and answers this.
    Releases(Result<Reply, GateError>),
}

/// A freeze of the superblock under way, for a holder, by a task, among so many tasks, processors and nodes.
#[derive(Clone, Copy, PartialEq, Eq)]
pub struct Freeze {
    pub task: u8,
    pub tasks: u8,
    pub processors: u8,
    pub nodes: u8,
    pub holder: Holder,
    pub step: FreezeStep,
}

impl Freeze {
    /// A freeze before its first step, among so many tasks, processors and nodes.
    #[inline(always)]
    pub fn new(holder: Holder, task: u8, tasks: u8, processors: u8, nodes: u8) -> Freeze
        ensures { result ≡ record { holder = holder; task = task; tasks = tasks; processors = processors; nodes = nodes; step = Locks } }
    {
        Freeze {
            holder,
            task,
            tasks,
            processors,
            nodes,
            step: FreezeStep::Locks,
        }
    }

    /// The hook whose answer the next step reads.
    #[inline(always)]
    pub fn wants_hook(self) -> Option<HookKind>
        ensures { result ≡ freeze_hook self.step }
    {
        match self.step {
            FreezeStep::SetsFs => Some(HookKind::Sync),
            FreezeStep::SetsComplete => Some(HookKind::FreezeFs),
            FreezeStep::Waits(_) => Some(HookKind::KeepWaiting),
            _ => None,
        }
    }

    /// The word and the touch of the next step, where the file system answers this. A step that the answer doesn't decide
    /// ignores it.
    #[inline(always)]
    pub fn next(self, hook: Result<(), u16>) -> (WordName, Touch)
        ensures { result ≡ freeze_next self self.step hook }
    {
        match self.step {
            FreezeStep::Locks | FreezeStep::LocksAgain | FreezeStep::LocksToUndo(_) => {
                let put = self.task as u64 + 1;
                (WordName::Umount, Touch::Cas { expect: 0, put })
            }
            FreezeStep::LoadsStage => (WordName::Stage, Touch::Load),
            FreezeStep::LoadsHolders => (WordName::Holders, Touch::Load),
            FreezeStep::Holds(beside) => {
                let word = pack(beside.with(self.holder));
                (WordName::Holders, Touch::Store(word))
            }
            FreezeStep::LoadsSuperblock => (WordName::SbFlags, Touch::Load),
            FreezeStep::CompletesReadOnly => (WordName::Stage, Touch::Store(4)),
            FreezeStep::SetsWrite => (WordName::Stage, Touch::Store(1)),
            FreezeStep::SetsPageFault => (WordName::Stage, Touch::Store(2)),
            FreezeStep::SetsFs => match hook {
                Ok(()) => (WordName::Stage, Touch::Store(3)),
                Err(_) => (WordName::Stage, Touch::Store(0)),
            },
            FreezeStep::SetsComplete => match hook {
                Ok(()) => (WordName::Stage, Touch::Store(4)),
                Err(_) => (WordName::Stage, Touch::Store(0)),
            },
            FreezeStep::Waits(write) => match hook {
                Ok(()) => write.next(),
                Err(_) => (WordName::Block(write.level), Touch::Store(0)),
            },
            FreezeStep::GivesUp { .. } => (WordName::Stage, Touch::Store(0)),
            FreezeStep::Closes(write) => write.next(),
            FreezeStep::Cleans(clearing) => clearing.next(),
            FreezeStep::Reopens { write, .. } => write.next(),
            FreezeStep::Undoes {
                level,
                transition,
                ..
            } => transition.next(level),
            FreezeStep::Unlocks | FreezeStep::Releases(_) => (WordName::Umount, Touch::Store(0)),
        }
    }

    /// Returns the freeze with this step to come.
    #[inline(always)]
    fn at(self, step: FreezeStep) -> Freeze
        ensures { result ≡ at_freeze self step }
    {
        Freeze { step, ..self }
    }

    /// What comes after a try to take `umount`: this step, where it was free, and else another try.
    #[inline(always)]
    fn locked(self, found: u64, step: FreezeStep) -> Next<Freeze>
        ensures { result ≡ freeze_locked self self.step found step }
    {
        if found == 0 {
            Next::Go(self.at(step))
        } else {
            Next::Wait(self)
        }
    }

    /// The closing of a level that begins.
    #[inline(always)]
    fn closes(self, level: u8) -> FreezeStep
        ensures { result ≡ freeze_closes self level }
    {
        FreezeStep::Closes(closing(level, self.tasks, self.processors))
    }

    /// What comes after a step of the closing of a level.
    #[inline(always)]
    fn after_closing(self, level: u8, next: Next<DownWrite>) -> Next<Freeze>
        ensures { result ≡ after_closing self level next }
    {
        match next {
            Next::Go(write) => Next::Go(self.at(FreezeStep::Closes(write))),
            Next::Wait(write) => Next::Wait(self.at(waiting(write))),
            Next::Done(_) => Next::Go(self.at(closed(level, self.nodes))),
        }
    }

    /// What comes after a step by which the `rcu_sync` of a level that is given up is left.
    fn after_undoing(self, level: u8, code: u16, next: TransitionNext) -> Next<Freeze>
        ensures { result ≡ after_undoing self level code next }
    {
        let step = match next {
            TransitionNext::More(transition) => FreezeStep::Undoes {
                level,
                transition,
                code,
            },
            TransitionNext::Undefined => FreezeStep::Undoes {
                level,
                transition: Transition::Loads,
                code,
            },
            TransitionNext::Made(_) => undone(level, code),
        };
        Next::Go(self.at(step))
    }

    /// What comes after the clearing of a node's mark.
    #[inline(always)]
    fn after_clearing(self, next: Next<ClearMarks>) -> Next<Freeze>
        ensures { result ≡ after_clearing self next }
    {
        match next {
            Next::Go(clearing) => Next::Go(self.at(FreezeStep::Cleans(clearing))),
            Next::Wait(clearing) => Next::Wait(self.at(FreezeStep::Cleans(clearing))),
            Next::Done(_) => Next::Go(self.at(FreezeStep::SetsFs)),
        }
    }

    /// What comes after a step of the reopening of a level.
    #[inline(always)]
    fn after_reopening(self, level: u8, code: u16, next: Next<UpWrite>) -> Next<Freeze>
        ensures { result ≡ after_reopening self level code next }
    {
        match next {
            Next::Go(write) => Next::Go(self.at(FreezeStep::Reopens { write, code })),
            Next::Wait(write) => Next::Wait(self.at(FreezeStep::Reopens { write, code })),
            Next::Done(_) => Next::Go(self.at(failing(level.saturating_sub(1), code))),
        }
    }

    /// What comes after a store of this stage: this step, and the action of the stage.
    #[inline(always)]
    fn stored(self, stage: u8, step: FreezeStep) -> (Next<Freeze>, Option<Action>)
        ensures { result ≡ stage_stored self stage step }
    {
        (Next::Go(self.at(step)), Some(Action::Stage(stage)))
    }

    /// What comes after the store that `sync` decides.
    #[inline(always)]
    fn synced(self, hook: Result<(), u16>) -> (Next<Freeze>, Option<Action>)
        ensures { result ≡ freeze_synced self hook }
    {
        match hook {
            Ok(()) => self.stored(3, self.closes(3)),
            Err(code) => self.stored(0, failing(2, code)),
        }
    }

    /// What comes after a look at who holds a freeze: where its holder does, another one is refused.
    fn found_holders(self, held: Holders) -> FreezeStep
        ensures { result ≡ found_holders self held }
    {
        if held.has(self.holder) {
            FreezeStep::Releases(Err(GateError::Busy))
        } else {
            FreezeStep::Holds(held)
        }
    }

    /// What comes after the store of its holder.
    fn held_now(self) -> (Next<Freeze>, Option<Action>)
        ensures { result ≡ held_now self }
    {
        let done = FreezeStep::Releases(Ok(Reply::Unit));
        (Next::Go(self.at(done)), Some(Action::Hold(self.holder)))
    }

    /// What comes after the store that `freeze_fs` decides.
    #[inline(always)]
    fn completed(self, hook: Result<(), u16>) -> (Next<Freeze>, Option<Action>)
        ensures { result ≡ freeze_completed self hook }
    {
        match hook {
            Ok(()) => self.stored(4, FreezeStep::Holds(Holders::none())),
            Err(code) => self.stored(0, failing(3, code)),
        }
    }

    /// What comes after a step of this down-write, which found this, and the action that the step adds.
    #[inline(always)]
    fn after_write(self, write: DownWrite, found: u64) -> (Next<Freeze>, Option<Action>)
        ensures { result ≡ freeze_closed self write found }
    {
        let (next, action) = write.after(found);
        (self.after_closing(write.level, next), action)
    }

    /// What comes after the step that `keep_waiting` decides: another sum has begun, or the level is given up.
    fn waited(
        self,
        write: DownWrite,
        found: u64,
        hook: Result<(), u16>,
    ) -> (Next<Freeze>, Option<Action>)
        ensures { result ≡ freeze_waited self write found hook }
    {
        match hook {
            Ok(()) => self.after_write(write, found),
            Err(code) => {
                let step = FreezeStep::Undoes {
                    level: write.level,
                    transition: Transition::Loads,
                    code,
                };
                (Next::Go(self.at(step)), None)
            }
        }
    }

    /// What comes after the step, which found this, where the file system answers this, and the action that the step adds. A freeze is
    /// mostly down-writes, whose loads stand in rows: so these are put in line, and all other steps are a call.
    #[inline(always)]
    pub fn after(self, found: u64, hook: Result<(), u16>) -> (Next<Freeze>, Option<Action>)
        ensures { result ≡ freeze_after self self.step found hook }
    {
        match self.step {
            FreezeStep::Closes(write) => self.after_write(write, found),
            _ => self.after_any(found, hook),
        }
    }

    /// Returns what comes after any step, and the action that the step adds.
    #[inline(never)]
    fn after_any(self, found: u64, hook: Result<(), u16>) -> (Next<Freeze>, Option<Action>)
        ensures { result ≡ freeze_after self self.step found hook }
    {
        let step = match self.step {
            FreezeStep::Locks => return (self.locked(found, FreezeStep::LoadsStage), None),
            FreezeStep::LocksAgain => {
                return (self.locked(found, FreezeStep::SetsPageFault), None);
            }
            FreezeStep::LoadsStage => match found {
                0 => FreezeStep::LoadsSuperblock,
                4 => FreezeStep::LoadsHolders,
                _ => FreezeStep::Releases(Err(GateError::Busy)),
            },
            FreezeStep::LoadsHolders => self.found_holders(unpack(found)),
            FreezeStep::Holds(_) => return self.held_now(),
            FreezeStep::LoadsSuperblock => match found {
                0 => FreezeStep::SetsWrite,
                _ => FreezeStep::CompletesReadOnly,
            },
            FreezeStep::Unlocks => self.closes(1),
            FreezeStep::CompletesReadOnly => return self.stored(
                4,
                FreezeStep::Holds(Holders::none()),
            ),
            FreezeStep::SetsWrite => return self.stored(1, FreezeStep::Unlocks),
            FreezeStep::SetsPageFault => return self.stored(2, self.closes(2)),
            FreezeStep::SetsFs => return self.synced(hook),
            FreezeStep::SetsComplete => return self.completed(hook),
            FreezeStep::Closes(write) => return self.after_write(write, found),
            FreezeStep::Waits(write) => return self.waited(write, found, hook),
            FreezeStep::Undoes {
                level,
                transition,
                code,
            } => {
                let next = transition.after(found, SyncWord::on_exit);
                return (self.after_undoing(level, code, next), None);
            }
            FreezeStep::LocksToUndo(code) => {
                return (
                    self.locked(found, FreezeStep::GivesUp { level: 1, code }),
                    None,
                );
            }
            FreezeStep::GivesUp { level, code } => {
                return self.stored(0, failing(level.saturating_sub(1), code));
            }
            FreezeStep::Cleans(clearing) => {
                let (next, action) = clearing.after(found);
                return (self.after_clearing(next), action);
            }
            FreezeStep::Reopens { write, code } => {
                let (next, action) = write.after(found);
                return (self.after_reopening(write.level, code, next), action);
            }
            FreezeStep::Releases(answer) => return (Next::Done(answer), None),
        };
        (Next::Go(self.at(step)), None)
    }
}

/// What comes after the closing of a level, among so many nodes: level 1 is closed with `umount` given back, level 2 before the marks
/// are cleared, and level 3 before the file system's own part.
#[inline(always)]
fn closed(level: u8, nodes: u8) -> FreezeStep
    ensures { result ≡ level_closed level nodes }
{
    match level {
        1 => FreezeStep::LocksAgain,
        2 => FreezeStep::Cleans(ClearMarks::start(nodes)),
        _ => FreezeStep::SetsComplete,
    }
}

/// The step of a down-write that waits: where its sum found somebody, the file system is asked before the next one.
#[inline(always)]
fn waiting(write: DownWrite) -> FreezeStep
    ensures { result ≡ closing_waits write write.step }
{
    match write.step {
        DownWriteStep::Sums(_) => FreezeStep::Waits(write),
        _ => FreezeStep::Closes(write),
    }
}

/// What comes after a level is given up, as the hook answered this code: level 1 with `umount` given back.
#[inline(always)]
fn undone(level: u8, code: u16) -> FreezeStep
    ensures { result ≡ freeze_undone level code }
{
    if level == 1 {
        FreezeStep::LocksToUndo(code)
    } else {
        FreezeStep::GivesUp { level, code }
    }
}

/// What comes where a hook failed with this code and the levels up to this one are still to be reopened, the highest first.
#[inline(always)]
fn failing(level: u8, code: u16) -> FreezeStep
    ensures { result ≡ freeze_fails level code }
{
    if level == 0 {
        FreezeStep::Releases(Err(GateError::Hook(code)))
    } else {
        let write = reopening(level);
        FreezeStep::Reopens { write, code }
    }
}
