//! The steps of an operation under way: the word that each touches and how, and what comes after it.

ghost use Rattle.std.specs.Prelude.{◌≡◌};
ghost use Rattle.gate_world.specs.Work.{next_of, after_of};

use access_model::{Action, Next, map_after};
use composite_ops::{ClosePhase, WritePhase};
use cpu_words::{Touch, WordName};
use freeze_levels::{Freeze, Thaw};
use gate_world::Phase;
use gated_tree::{Create, Grow, Mark, MoveTo, OpenFile, Remove, TreePhase};
use mount_counts::{Change, MountPhase, Remount, Want};
use percpu_rwsem::{Callback, DownRead, UpRead};

/// An operation under way, in a form that has no more room than its own phases need: what does one kind of operation only,
/// and that fast, uses it in the place of a whole `Phase`.
pub trait PendingOp: Copy {
    ghost use Rattle.std.specs.Prelude.{◌≡◌};
    ghost use Rattle.gate_world.specs.declared.work.Phase.{Phase as PhaseType};
    ghost use Rattle.gate_world.specs.Work.{next_of, after_of};
    ghost use Rattle.access_model.specs.Replies.{map_next};

    /// The phase that it stands for.
    ghost as_phase: { Self → PhaseType };

    /// Returns the phase that it stands for.
    fn phase(self) -> Phase
        ensures { result ≡ as_phase self };

    /// The word and the touch of the next step, where a hook answers this.
    fn next(self, hook: Result<(), u16>) -> (WordName, Touch)
        ensures { result ≡ next_of (as_phase self) hook };

    /// What comes after the step, which found this, and the action that it adds.
    fn after(self, found: u64, hook: Result<(), u16>) -> (Next<Self>, Option<Action>)
        ensures { (map_next as_phase result.0, result.1) ≡ after_of (as_phase self) found hook };
}

/// The word and the touch of a phase's next step, where a hook answers this.
#[inline(always)]
pub fn next_event(phase: &Phase, hook: Result<(), u16>) -> (WordName, Touch)
    ensures { result ≡ next_of phase.now hook }
{
    match phase {
        Phase::Mounts(phase) => phase.next(hook),
        Phase::Remounts(remount) => remount.next(hook),
        Phase::DownReads(read) => read.next(),
        Phase::UpReads(read) => read.next(),
        Phase::Callbacks(callback) => callback.next(),
        Phase::Writes(phase) => phase.next(),
        Phase::Freezes(freeze) => freeze.next(hook),
        Phase::Thaws(thaw) => thaw.next(hook),
        Phase::Trees(phase) => phase.next(hook),
        Phase::Closes(phase) => phase.next(),
    }
}

/// What comes after the step, which found this, and the action that it adds.
#[inline(always)]
pub fn after_event(phase: Phase, found: u64, hook: Result<(), u16>) -> (Next<Phase>, Option<Action>)
    ensures { result ≡ after_of phase found hook }
{
    match phase {
        Phase::Mounts(phase) => map_after(phase.after(found, hook), Phase::Mounts),
        Phase::Remounts(remount) => map_after(remount.after(found, hook), Phase::Remounts),
        Phase::DownReads(read) => map_after(read.after(found), Phase::DownReads),
        Phase::UpReads(read) => map_after(read.after(), Phase::UpReads),
        Phase::Callbacks(callback) => map_after(callback.after(found), Phase::Callbacks),
        Phase::Writes(phase) => map_after(phase.after(found), Phase::Writes),
        Phase::Freezes(freeze) => map_after(freeze.after(found, hook), Phase::Freezes),
        Phase::Thaws(thaw) => map_after(thaw.after(found, hook), Phase::Thaws),
        Phase::Trees(phase) => map_after(phase.after(found, hook), Phase::Trees),
        Phase::Closes(phase) => map_after(phase.after(found), Phase::Closes),
    }
}

impl PendingOp for Phase {
    ghost as_phase = { λ phase. phase };

    #[inline(always)]
    fn phase(self) -> Phase {
        self
    }

    #[inline(always)]
    fn next(self, hook: Result<(), u16>) -> (WordName, Touch) {
        next_event(&self, hook)
    }

    #[inline(always)]
    fn after(self, found: u64, hook: Result<(), u16>) -> (Next<Phase>, Option<Action>) {
        after_event(self, found, hook)
    }
}

impl PendingOp for Want {
    ghost use Rattle.gate_world.specs.declared.work.Phase.TheVariants.{Mounts};
    ghost use Rattle.mount_counts.specs.declared.phases.MountPhase.TheVariants.{Want as Wants};

    ghost as_phase = { λ want. Mounts (Wants want) };

    #[inline(always)]
    fn phase(self) -> Phase {
        Phase::Mounts(MountPhase::Want(self))
    }

    #[inline(always)]
    fn next(self, _hook: Result<(), u16>) -> (WordName, Touch) {
        self.next()
    }

    #[inline(always)]
    fn after(self, found: u64, _hook: Result<(), u16>) -> (Next<Want>, Option<Action>) {
        self.after(found)
    }
}

impl PendingOp for MountPhase {
    ghost use Rattle.gate_world.specs.declared.work.Phase.TheVariants.{Mounts};

    ghost as_phase = { λ phase. Mounts phase };

    #[inline(always)]
    fn phase(self) -> Phase {
        Phase::Mounts(self)
    }

    #[inline(always)]
    fn next(self, hook: Result<(), u16>) -> (WordName, Touch) {
        MountPhase::next(&self, hook)
    }

    #[inline(always)]
    fn after(self, found: u64, hook: Result<(), u16>) -> (Next<MountPhase>, Option<Action>) {
        self.after(found, hook)
    }
}

impl PendingOp for Change {
    ghost use Rattle.gate_world.specs.declared.work.Phase.TheVariants.{Mounts};
    ghost use Rattle.mount_counts.specs.declared.phases.MountPhase.TheVariants.{Change as Changes};

    ghost as_phase = { λ change. Mounts (Changes change) };

    #[inline(always)]
    fn phase(self) -> Phase {
        Phase::Mounts(MountPhase::Change(self))
    }

    #[inline(always)]
    fn next(self, hook: Result<(), u16>) -> (WordName, Touch) {
        MountPhase::next(&MountPhase::Change(self), hook)
    }

    #[inline(always)]
    fn after(self, found: u64, _hook: Result<(), u16>) -> (Next<Change>, Option<Action>) {
        self.after(found)
    }
}

impl PendingOp for DownRead {
    ghost use Rattle.gate_world.specs.declared.work.Phase.TheVariants.{DownReads};

    ghost as_phase = { λ read. DownReads read };

    #[inline(always)]
    fn phase(self) -> Phase {
        Phase::DownReads(self)
    }

    #[inline(always)]
    fn next(self, _hook: Result<(), u16>) -> (WordName, Touch) {
        self.next()
    }

    #[inline(always)]
    fn after(self, found: u64, _hook: Result<(), u16>) -> (Next<DownRead>, Option<Action>) {
        self.after(found)
    }
}

impl PendingOp for UpRead {
    ghost use Rattle.gate_world.specs.declared.work.Phase.TheVariants.{UpReads};

    ghost as_phase = { λ read. UpReads read };

    #[inline(always)]
    fn phase(self) -> Phase {
        Phase::UpReads(self)
    }

    #[inline(always)]
    fn next(self, _hook: Result<(), u16>) -> (WordName, Touch) {
        self.next()
    }

    #[inline(always)]
    fn after(self, _found: u64, _hook: Result<(), u16>) -> (Next<UpRead>, Option<Action>) {
        self.after()
    }
}

impl PendingOp for WritePhase {
    ghost use Rattle.gate_world.specs.declared.work.Phase.TheVariants.{Writes};

    ghost as_phase = { λ phase. Writes phase };

    #[inline(always)]
    fn phase(self) -> Phase {
        Phase::Writes(self)
    }

    #[inline(always)]
    fn next(self, _hook: Result<(), u16>) -> (WordName, Touch) {
        self.next()
    }

    #[inline(always)]
    fn after(self, found: u64, _hook: Result<(), u16>) -> (Next<WritePhase>, Option<Action>) {
        self.after(found)
    }
}

impl PendingOp for Remount {
    ghost use Rattle.gate_world.specs.declared.work.Phase.TheVariants.{Remounts};

    ghost as_phase = { λ remount. Remounts remount };

    #[inline(always)]
    fn phase(self) -> Phase {
        Phase::Remounts(self)
    }

    #[inline(always)]
    fn next(self, hook: Result<(), u16>) -> (WordName, Touch) {
        self.next(hook)
    }

    #[inline(always)]
    fn after(self, found: u64, hook: Result<(), u16>) -> (Next<Remount>, Option<Action>) {
        self.after(found, hook)
    }
}

impl PendingOp for Callback {
    ghost use Rattle.gate_world.specs.declared.work.Phase.TheVariants.{Callbacks};

    ghost as_phase = { λ callback. Callbacks callback };

    #[inline(always)]
    fn phase(self) -> Phase {
        Phase::Callbacks(self)
    }

    #[inline(always)]
    fn next(self, _hook: Result<(), u16>) -> (WordName, Touch) {
        self.next()
    }

    #[inline(always)]
    fn after(self, found: u64, _hook: Result<(), u16>) -> (Next<Callback>, Option<Action>) {
        self.after(found)
    }
}

impl PendingOp for Freeze {
    ghost use Rattle.gate_world.specs.declared.work.Phase.TheVariants.{Freezes};

    ghost as_phase = { λ freeze. Freezes freeze };

    #[inline(always)]
    fn phase(self) -> Phase {
        Phase::Freezes(self)
    }

    #[inline(always)]
    fn next(self, hook: Result<(), u16>) -> (WordName, Touch) {
        self.next(hook)
    }

    #[inline(always)]
    fn after(self, found: u64, hook: Result<(), u16>) -> (Next<Freeze>, Option<Action>) {
        self.after(found, hook)
    }
}

impl PendingOp for Thaw {
    ghost use Rattle.gate_world.specs.declared.work.Phase.TheVariants.{Thaws};

    ghost as_phase = { λ thaw. Thaws thaw };

    #[inline(always)]
    fn phase(self) -> Phase {
        Phase::Thaws(self)
    }

    #[inline(always)]
    fn next(self, hook: Result<(), u16>) -> (WordName, Touch) {
        self.next(hook)
    }

    #[inline(always)]
    fn after(self, found: u64, hook: Result<(), u16>) -> (Next<Thaw>, Option<Action>) {
        self.after(found, hook)
    }
}

impl PendingOp for TreePhase {
    ghost use Rattle.gate_world.specs.declared.work.Phase.TheVariants.{Trees};

    ghost as_phase = { λ phase. Trees phase };

    #[inline(always)]
    fn phase(self) -> Phase {
        Phase::Trees(self)
    }

    #[inline(always)]
    fn next(self, hook: Result<(), u16>) -> (WordName, Touch) {
        TreePhase::next(&self, hook)
    }

    #[inline(always)]
    fn after(self, found: u64, hook: Result<(), u16>) -> (Next<TreePhase>, Option<Action>) {
        self.after(found, hook)
    }
}

impl PendingOp for Create {
    ghost use Rattle.gate_world.specs.declared.work.Phase.TheVariants.{Trees};
    ghost use Rattle.gated_tree.specs.declared.phases.TreePhase.TheVariants.{Create as Creates};

    ghost as_phase = { λ create. Trees (Creates create) };

    #[inline(always)]
    fn phase(self) -> Phase {
        Phase::Trees(TreePhase::Create(self))
    }

    #[inline(always)]
    fn next(self, _hook: Result<(), u16>) -> (WordName, Touch) {
        self.next()
    }

    #[inline(always)]
    fn after(self, found: u64, _hook: Result<(), u16>) -> (Next<Create>, Option<Action>) {
        self.after(found)
    }
}

impl PendingOp for Remove {
    ghost use Rattle.gate_world.specs.declared.work.Phase.TheVariants.{Trees};
    ghost use Rattle.gated_tree.specs.declared.phases.TreePhase.TheVariants.{Remove as Removes};

    ghost as_phase = { λ remove. Trees (Removes remove) };

    #[inline(always)]
    fn phase(self) -> Phase {
        Phase::Trees(TreePhase::Remove(self))
    }

    #[inline(always)]
    fn next(self, _hook: Result<(), u16>) -> (WordName, Touch) {
        self.next()
    }

    #[inline(always)]
    fn after(self, found: u64, _hook: Result<(), u16>) -> (Next<Remove>, Option<Action>) {
        self.after(found)
    }
}

impl PendingOp for Grow {
    ghost use Rattle.gate_world.specs.declared.work.Phase.TheVariants.{Trees};
    ghost use Rattle.gated_tree.specs.declared.phases.TreePhase.TheVariants.{Grow as Grows};

    ghost as_phase = { λ grow. Trees (Grows grow) };

    #[inline(always)]
    fn phase(self) -> Phase {
        Phase::Trees(TreePhase::Grow(self))
    }

    #[inline(always)]
    fn next(self, _hook: Result<(), u16>) -> (WordName, Touch) {
        self.next()
    }

    #[inline(always)]
    fn after(self, found: u64, _hook: Result<(), u16>) -> (Next<Grow>, Option<Action>) {
        self.after(found)
    }
}

impl PendingOp for MoveTo {
    ghost use Rattle.gate_world.specs.declared.work.Phase.TheVariants.{Trees};
    ghost use Rattle.gated_tree.specs.declared.phases.TreePhase.TheVariants.{MoveTo as Moves};

    ghost as_phase = { λ moving. Trees (Moves moving) };

    #[inline(always)]
    fn phase(self) -> Phase {
        Phase::Trees(TreePhase::MoveTo(self))
    }

    #[inline(always)]
    fn next(self, _hook: Result<(), u16>) -> (WordName, Touch) {
        self.next()
    }

    #[inline(always)]
    fn after(self, found: u64, _hook: Result<(), u16>) -> (Next<MoveTo>, Option<Action>) {
        self.after(found)
    }
}

impl PendingOp for Mark {
    ghost use Rattle.gate_world.specs.declared.work.Phase.TheVariants.{Trees};
    ghost use Rattle.gated_tree.specs.declared.phases.TreePhase.TheVariants.{Mark as Marks};

    ghost as_phase = { λ mark. Trees (Marks mark) };

    #[inline(always)]
    fn phase(self) -> Phase {
        Phase::Trees(TreePhase::Mark(self))
    }

    #[inline(always)]
    fn next(self, _hook: Result<(), u16>) -> (WordName, Touch) {
        self.next()
    }

    #[inline(always)]
    fn after(self, found: u64, _hook: Result<(), u16>) -> (Next<Mark>, Option<Action>) {
        self.after(found)
    }
}

impl PendingOp for OpenFile {
    ghost use Rattle.gate_world.specs.declared.work.Phase.TheVariants.{Trees};
    ghost use Rattle.gated_tree.specs.declared.phases.TreePhase.TheVariants.{OpenFile as Opens};

    ghost as_phase = { λ opening. Trees (Opens opening) };

    #[inline(always)]
    fn phase(self) -> Phase {
        Phase::Trees(TreePhase::OpenFile(self))
    }

    #[inline(always)]
    fn next(self, _hook: Result<(), u16>) -> (WordName, Touch) {
        self.next()
    }

    #[inline(always)]
    fn after(self, found: u64, _hook: Result<(), u16>) -> (Next<OpenFile>, Option<Action>) {
        self.after(found)
    }
}

impl PendingOp for ClosePhase {
    ghost use Rattle.gate_world.specs.declared.work.Phase.TheVariants.{Closes};

    ghost as_phase = { λ phase. Closes phase };

    #[inline(always)]
    fn phase(self) -> Phase {
        Phase::Closes(self)
    }

    #[inline(always)]
    fn next(self, _hook: Result<(), u16>) -> (WordName, Touch) {
        self.next()
    }

    #[inline(always)]
    fn after(self, found: u64, _hook: Result<(), u16>) -> (Next<ClosePhase>, Option<Action>) {
        self.after(found)
    }
}
