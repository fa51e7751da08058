//! The orders of steps of want, drop and change.

ghost use Rattle.std.specs.Prelude.{◌≡◌};
ghost use Rattle.mount_counts.specs.Phases.{next, after, want_next, want_after, at_change, change_next, change_from, change_summed, change_after};
ghost use Rattle.access_model.specs.declared.replies.Next.TheVariants.{Go};
ghost use Rattle.mount_counts.specs.declared.phases.{WantStep.TheVariants.CountsUp, ChangeStep.TheVariants.Locks};

use crate::flags::MountFlags;
use access_model::{Action, Gate, GateError, Next, Reply, map_after};
use bitflags::Flags;
use cpu_words::{Sum, Taken, Touch, WordName};

/// What the next step of a want is (`__mnt_want_write`).
#[derive(Clone, Copy, PartialEq, Eq)]
pub enum WantStep {
    /// Adds one to the count of its processor.
    CountsUp,
    /// Loads the flags, for HOLD.
    LoadsHold,
    /// Loads `remount`, the first word of the read-only question.
    LoadsRemount,
    /// Loads the flags again, for READONLY, the second.
    LoadsReadOnly,
    /// Loads the superblock's flag, the third.
    LoadsSuperblock,
    /// Subtracts what it added, and is refused with this.
    CountsDown(GateError),
}

/// A want of an access at a mount under way, on a processor. One that doesn't wait is refused where it finds HOLD.
#[derive(Clone, Copy, PartialEq, Eq)]
pub struct Want {
    pub mount: u8,
    pub cpu: u8,
    pub wait: bool,
    pub step: WantStep,
}

/// What the next step of a change is (`mnt_make_readonly`, `mnt_hold_writers`, `mnt_unhold_writers`).
#[derive(Clone, Copy, PartialEq, Eq)]
pub enum ChangeStep {
    /// Takes `umount` where it is free.
    Locks,
    /// Loads the flags, for the mount's own state.
    LoadsFlags,
    /// Loads the superblock's flag, where the mount's own is clear.
    LoadsSuperblock,
    /// Clears READONLY.
    ClearsReadOnly,
    /// Sets HOLD.
    SetsHold,
    /// Loads the next word of the sum of the writer counts.
    Sums(Sum),
    /// Sets READONLY, with HOLD set and the sum 0.
    SetsReadOnly,
    /// Clears HOLD, and is to answer this.
    ClearsHold(Result<Reply, GateError>),
    /// Gives `umount` back, and answers this.
    Releases(Result<Reply, GateError>),
}

/// A change of a mount's own read-only flag under way, by a task, among so many processors. One that doesn't wait is
/// refused where it finds `umount` taken.
#[derive(Clone, Copy, PartialEq, Eq)]
pub struct Change {
    pub mount: u8,
    pub read_only: bool,
    pub wait: bool,
    pub task: u8,
    pub processors: u8,
    pub step: ChangeStep,
}

/// Where an operation at a mount stands between two of its steps.
#[derive(Clone, Copy, PartialEq, Eq)]
pub enum MountPhase {
    /// `mnt_want_write` of a mount.
    Want(Want),
    /// `mnt_drop_write` of a mount: subtracts one from the count of a processor.
    Drop { mount: u8, cpu: u8 },
    /// `mnt_make_readonly`, or its undoing.
    Change(Change),
}

impl Want {
    /// A want before its first step.
    #[inline(always)]
    pub fn new(mount: u8, cpu: u8, wait: bool) -> Want
        ensures { result ≡ record { mount = mount; cpu = cpu; wait = wait; step = CountsUp } }
    {
        Want {
            mount,
            cpu,
            wait,
            step: WantStep::CountsUp,
        }
    }

    /// The word and the touch of the next step.
    #[inline(always)]
    pub fn next(self) -> (WordName, Touch)
        ensures { result ≡ want_next self self.step }
    {
        let count = WordName::MountCount(self.mount, self.cpu);
        match self.step {
            WantStep::CountsUp => (count, Touch::Add(1)),
            WantStep::LoadsHold | WantStep::LoadsReadOnly => (
                WordName::MountFlags(self.mount),
                Touch::Load,
            ),
            WantStep::LoadsRemount => (WordName::Remount, Touch::Load),
            WantStep::LoadsSuperblock => (WordName::SbFlags, Touch::Load),
            WantStep::CountsDown(_) => (count, Touch::Sub(1)),
        }
    }

    /// Returns the want with this step to come.
    #[inline(always)]
    fn at(self, step: WantStep) -> Want
        ensures { result ≡ record self { step = step } }
    {
        Want { step, ..self }
    }

    /// What comes after the step, which found this, and the action that the step adds.
    #[inline(always)]
    pub fn after(self, found: u64) -> (Next<Want>, Option<Action>)
        ensures { result ≡ want_after self self.step found }
    {
        let flags = MountFlags::from_bits_retain(found);
        let next = match self.step {
            WantStep::CountsUp => Next::Go(self.at(WantStep::LoadsHold)),
            WantStep::LoadsHold => {
                if !flags.contains(MountFlags::HOLD) {
                    Next::Go(self.at(WantStep::LoadsRemount))
                } else if self.wait {
                    Next::Wait(self)
                } else {
                    Next::Go(self.at(WantStep::CountsDown(GateError::Again)))
                }
            }
            WantStep::LoadsRemount if found == 0 => Next::Go(self.at(WantStep::LoadsReadOnly)),
            WantStep::LoadsReadOnly if !flags.contains(MountFlags::READONLY) => {
                Next::Go(self.at(WantStep::LoadsSuperblock))
            }
            WantStep::LoadsSuperblock if found == 0 => {
                let granted = Action::Grant(Gate::Mount(self.mount));
                return (Next::Done(Ok(Reply::Unit)), Some(granted));
            }
            WantStep::LoadsRemount | WantStep::LoadsReadOnly | WantStep::LoadsSuperblock => {
                Next::Go(self.at(WantStep::CountsDown(GateError::ReadOnly)))
            }
            WantStep::CountsDown(refusal) => Next::Done(Err(refusal)),
        };
        (next, None)
    }
}

impl Change {
    /// A change before its first step, among so many processors.
    #[inline(always)]
    pub fn new(mount: u8, read_only: bool, wait: bool, task: u8, processors: u8) -> Change
        ensures { result ≡ record { mount = mount; read_only = read_only; wait = wait; task = task; processors = processors; step = Locks } }
    {
        Change {
            mount,
            read_only,
            wait,
            task,
            processors,
            step: ChangeStep::Locks,
        }
    }

    #[inline(always)]
    fn next(self) -> (WordName, Touch)
        ensures { result ≡ change_next self self.step }
    {
        let flags = WordName::MountFlags(self.mount);
        match self.step {
            ChangeStep::Locks => {
                let put = self.task as u64 + 1;
                (WordName::Umount, Touch::Cas { expect: 0, put })
            }
            ChangeStep::LoadsFlags => (flags, Touch::Load),
            ChangeStep::LoadsSuperblock => (WordName::SbFlags, Touch::Load),
            ChangeStep::ClearsReadOnly => (flags, Touch::And(!MountFlags::READONLY.bits())),
            ChangeStep::SetsHold => (flags, Touch::Or(MountFlags::HOLD.bits())),
            ChangeStep::Sums(sum) => (WordName::MountCount(self.mount, sum.words), Touch::Load),
            ChangeStep::SetsReadOnly => (flags, Touch::Or(MountFlags::READONLY.bits())),
            ChangeStep::ClearsHold(_) => (flags, Touch::And(!MountFlags::HOLD.bits())),
            ChangeStep::Releases(_) => (WordName::Umount, Touch::Store(0)),
        }
    }

    /// Returns the change with this step to come.
    #[inline(always)]
    fn at(self, step: ChangeStep) -> Next<Change>
        ensures { result ≡ Go (at_change self step) }
    {
        Next::Go(Change { step, ..self })
    }

    /// What comes after the present state was found.
    #[inline(always)]
    fn from_state(self, read_only: bool) -> ChangeStep
        ensures { result ≡ change_from self read_only }
    {
        match (self.read_only, read_only) {
            (true, false) => ChangeStep::SetsHold,
            (false, true) => ChangeStep::ClearsReadOnly,
            _ => ChangeStep::Releases(Ok(Reply::Unit)),
        }
    }

    /// What comes after one word more of the sum.
    #[inline(always)]
    fn summed(self, sum: Sum, word: u64) -> ChangeStep
        ensures { result ≡ change_summed self sum word }
    {
        match sum.take(word, self.processors) {
            Taken::More(sum) => ChangeStep::Sums(sum),
            Taken::Total(0) => ChangeStep::SetsReadOnly,
            Taken::Total(_) => ChangeStep::ClearsHold(Err(GateError::Busy)),
        }
    }

    /// What comes after the step, which found this, and the action that the step adds.
    #[inline(always)]
    pub fn after(self, found: u64) -> (Next<Change>, Option<Action>)
        ensures { result ≡ change_after self self.step found }
    {
        let done = Ok(Reply::Unit);
        match self.step {
            ChangeStep::Locks if found == 0 => (self.at(ChangeStep::LoadsFlags), None),
            ChangeStep::Locks if self.wait => (Next::Wait(self), None),
            ChangeStep::Locks => (Next::Done(Err(GateError::Again)), None),
            ChangeStep::LoadsFlags => {
                let flags = MountFlags::from_bits_retain(found);
                if flags.contains(MountFlags::READONLY) {
                    (self.at(self.from_state(true)), None)
                } else {
                    (self.at(ChangeStep::LoadsSuperblock), None)
                }
            }
            ChangeStep::LoadsSuperblock => (self.at(self.from_state(found != 0)), None),
            ChangeStep::ClearsReadOnly => (
                self.at(ChangeStep::Releases(done)),
                Some(Action::MountRw(self.mount)),
            ),
            ChangeStep::SetsHold => (self.at(ChangeStep::Sums(Sum::start())), None),
            ChangeStep::Sums(sum) => (self.at(self.summed(sum, found)), None),
            ChangeStep::SetsReadOnly => (
                self.at(ChangeStep::ClearsHold(done)),
                Some(Action::MountRo(self.mount)),
            ),
            ChangeStep::ClearsHold(answer) => (self.at(ChangeStep::Releases(answer)), None),
            ChangeStep::Releases(answer) => (Next::Done(answer), None),
        }
    }
}

impl MountPhase {
    /// The word and the touch of the next step. No step of a mount reads a hook's answer.
    #[inline(always)]
    pub fn next(&self, hook: Result<(), u16>) -> (WordName, Touch)
        ensures { result ≡ next self.now hook }
    {
        let _ = hook;
        match *self {
            MountPhase::Want(want) => want.next(),
            MountPhase::Drop { mount, cpu } => (WordName::MountCount(mount, cpu), Touch::Sub(1)),
            MountPhase::Change(change) => change.next(),
        }
    }

    /// What comes after the step, which found this, and the action that the step adds.
    #[inline(always)]
    pub fn after(self, found: u64, hook: Result<(), u16>) -> (Next<MountPhase>, Option<Action>)
        ensures { result ≡ after self found hook }
    {
        let _ = hook;
        match self {
            MountPhase::Want(want) => map_after(want.after(found), MountPhase::Want),
            MountPhase::Drop { mount, .. } => (
                Next::Done(Ok(Reply::Unit)),
                Some(Action::Return(Gate::Mount(mount))),
            ),
            MountPhase::Change(change) => map_after(change.after(found), MountPhase::Change),
        }
    }
}
