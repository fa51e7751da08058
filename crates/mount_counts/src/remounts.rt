//! The order of steps of a remount of the superblock.

ghost use Rattle.std.specs.Prelude.{◌≡◌, if◌then◌else◌};
ghost use Rattle.access_model.specs.declared.actions.Action.TheVariants.{Clean};
ghost use Rattle.access_model.specs.declared.replies.Next.TheVariants.{Go};
ghost use Rattle.mount_counts.specs.Remounts.{remount_next, remount_after, remount_from, past_mount, let_go, leave_holds, give_up, at_remount, remount_summed, past_node, mark_cleared};
ghost use Rattle.mount_counts.specs.Phases.{has_flag};
ghost use Rattle.mount_counts.specs.declared.remounts.RemountStep.TheVariants.{Locks, SetsHold};

use crate::flags::MountFlags;
use crate::sets::MountSet;
use access_model::{Action, GateError, Next, Reply};
use bitflags::Flags;
use cpu_words::{Sum, Taken, Touch, WordName};
use node_words::NodeWord;

/// What the next step of a remount is (`reconfigure_super`, `sb_prepare_remount_readonly`). `mount` is the one at which its
/// loop stands, and `held` are the mounts at which it has HOLD set.
#[derive(Clone, Copy, PartialEq, Eq)]
pub enum RemountStep {
    /// Takes `umount` where it is free.
    Locks,
    /// Loads the stage.
    LoadsStage,
    /// Loads the superblock's flag.
    LoadsSuperblock,
    /// Clears the superblock's flag, or gives `umount` back, as the file system answers.
    SetsWritable,
    /// Loads how many removed files are open, before the first mount.
    LoadsRemoved,
    /// Loads the flags of a mount, for READONLY.
    LoadsFlags { mount: u8, held: MountSet },
    /// Sets its HOLD.
    SetsHold { mount: u8, held: MountSet },
    /// Loads the next word of the sum of its writer counts.
    Sums { mount: u8, held: MountSet, sum: Sum },
    /// Loads again how many removed files are open, with each sum 0.
    LoadsRemovedAgain { held: MountSet },
    /// Clears HOLD of the lowest mount that it holds, as a file was found removed.
    LeavesHolds { held: MountSet },
    /// Sets `remount`, with each sum 0 and no removed file open.
    SetsRemount { held: MountSet },
    /// Clears HOLD of the lowest mount that it holds, with `remount` set.
    ClearsHold { held: MountSet },
    /// Clears HOLD of the lowest mount that it holds, as the sum of this mount was not 0.
    GivesUp { mount: u8, held: MountSet },
    /// Clears the dirty mark of a node.
    ClearsMark { node: u8 },
    /// Sets the superblock's flag, or clears `remount`, as the file system answers.
    SetsReadOnly,
    /// Clears `remount`, with the superblock's flag set.
    ClearsRemount,
    /// Gives `umount` back, and answers this.
    Releases(Result<Reply, GateError>),
}

/// A remount of the superblock under way, by a task, among so many processors, mounts and nodes.
#[derive(Clone, Copy, PartialEq, Eq)]
pub struct Remount {
    pub read_only: bool,
    pub task: u8,
    pub processors: u8,
    pub mounts: u8,
    pub nodes: u8,
    pub step: RemountStep,
}

impl Remount {
    /// A remount before its first step, among so many processors, mounts and nodes.
    #[inline(always)]
    pub fn new(read_only: bool, task: u8, processors: u8, mounts: u8, nodes: u8) -> Remount
        ensures { result ≡ record { read_only = read_only; task = task; processors = processors; mounts = mounts; nodes = nodes; step = Locks } }
    {
        Remount {
            read_only,
            task,
            processors,
            mounts,
            nodes,
            step: RemountStep::Locks,
        }
    }

    /// The word and the touch of the next step, where the file system answers this. A step that the answer doesn't decide
    /// ignores it.
    #[inline(always)]
    pub fn next(self, hook: Result<(), u16>) -> (WordName, Touch)
        ensures { result ≡ remount_next self self.step hook }
    {
        match self.step {
            RemountStep::Locks => {
                let put = self.task as u64 + 1;
                (WordName::Umount, Touch::Cas { expect: 0, put })
            }
            RemountStep::LoadsStage => (WordName::Stage, Touch::Load),
            RemountStep::LoadsSuperblock => (WordName::SbFlags, Touch::Load),
            RemountStep::SetsWritable if hook.is_ok() => (WordName::SbFlags, Touch::Store(0)),
            RemountStep::LoadsRemoved | RemountStep::LoadsRemovedAgain { .. } => {
                (WordName::Removed, Touch::Load)
            }
            RemountStep::LoadsFlags { mount, .. } => (WordName::MountFlags(mount), Touch::Load),
            RemountStep::SetsHold { mount, .. } => (
                WordName::MountFlags(mount),
                Touch::Or(MountFlags::HOLD.bits()),
            ),
            RemountStep::Sums { mount, sum, .. } => {
                (WordName::MountCount(mount, sum.words), Touch::Load)
            }
            RemountStep::SetsRemount { .. } => (WordName::Remount, Touch::Store(1)),
            RemountStep::ClearsHold { held }
            | RemountStep::GivesUp { held, .. }
            | RemountStep::LeavesHolds { held } => (
                WordName::MountFlags(held.lowest()),
                Touch::And(!MountFlags::HOLD.bits()),
            ),
            RemountStep::ClearsMark { node } => (
                WordName::Node(node),
                Touch::And(!NodeWord::DIRTY),
            ),
            RemountStep::SetsReadOnly if hook.is_ok() => (WordName::SbFlags, Touch::Store(1)),
            RemountStep::SetsReadOnly | RemountStep::ClearsRemount => {
                (WordName::Remount, Touch::Store(0))
            }
            RemountStep::SetsWritable | RemountStep::Releases(_) => {
                (WordName::Umount, Touch::Store(0))
            }
        }
    }

    /// What comes after the superblock's present state was found.
    fn from_state(self, read_only: bool) -> RemountStep
        ensures { result ≡ remount_from self.read_only read_only }
    {
        match (self.read_only, read_only) {
            (true, false) => RemountStep::LoadsRemoved,
            (false, true) => RemountStep::SetsWritable,
            _ => RemountStep::Releases(Ok(Reply::Unit)),
        }
    }

    /// What comes after the loop is done with a mount.
    fn past(self, mount: u8, held: MountSet) -> RemountStep
        ensures { result ≡ past_mount self.mounts mount held }
    {
        if (mount as u16) + 1 < self.mounts as u16 {
            let mount = mount + 1;
            RemountStep::LoadsFlags { mount, held }
        } else {
            RemountStep::LoadsRemovedAgain { held }
        }
    }

    /// What comes after a mount's flags were found: one that is read-only already is passed over.
    fn flagged(self, mount: u8, held: MountSet, found: u64) -> RemountStep
        ensures { result ≡ (if has_flag found 1 then past_mount self.mounts mount held else SetsHold mount held) }
    {
        if MountFlags::from_bits_retain(found).contains(MountFlags::READONLY) {
            self.past(mount, held)
        } else {
            RemountStep::SetsHold { mount, held }
        }
    }

    /// What comes after one word more of a sum.
    fn summed(self, mount: u8, held: MountSet, sum: Sum, word: u64) -> RemountStep
        ensures { result ≡ remount_summed self mount held sum word }
    {
        match sum.take(word, self.processors) {
            Taken::More(sum) => RemountStep::Sums { mount, held, sum },
            Taken::Total(0) => self.past(mount, held.with(mount)),
            Taken::Total(_) => giving_up(mount, held.with(mount)),
        }
    }

    /// What comes after the mark of a node was cleared.
    fn cleared(self, node: u8) -> RemountStep
        ensures { result ≡ past_node self.nodes node }
    {
        if (node as u16) + 1 < self.nodes as u16 {
            let node = node + 1;
            RemountStep::ClearsMark { node }
        } else {
            RemountStep::SetsReadOnly
        }
    }

    /// Returns the remount with this step to come.
    fn at(self, step: RemountStep) -> Next<Remount>
        ensures { result ≡ Go (at_remount self step) }
    {
        Next::Go(Remount { step, ..self })
    }

    /// What comes after the step, which found this, where the file system answers this.
    fn next_after(self, found: u64, hook: Result<(), u16>) -> Next<Remount>
        ensures { result ≡ (remount_after self self.step found hook).0 }
    {
        self.at(match self.step {
            RemountStep::Locks if found == 0 => RemountStep::LoadsStage,
            RemountStep::Locks => return Next::Wait(self),
            RemountStep::LoadsStage if found == 0 => RemountStep::LoadsSuperblock,
            RemountStep::LoadsStage => RemountStep::Releases(Err(GateError::Busy)),
            RemountStep::LoadsSuperblock => self.from_state(found != 0),
            RemountStep::SetsWritable => match hook {
                Ok(()) => RemountStep::Releases(Ok(Reply::Unit)),
                Err(code) => return Next::Done(Err(GateError::Hook(code))),
            },
            RemountStep::LoadsRemoved if found == 0 => RemountStep::LoadsFlags {
                mount: 0,
                held: MountSet::empty(),
            },
            RemountStep::LoadsRemoved => RemountStep::Releases(Err(GateError::Busy)),
            RemountStep::LoadsFlags { mount, held } => self.flagged(mount, held, found),
            RemountStep::SetsHold { mount, held } => RemountStep::Sums {
                mount,
                held,
                sum: Sum::start(),
            },
            RemountStep::Sums { mount, held, sum } => self.summed(mount, held, sum, found),
            RemountStep::LoadsRemovedAgain { held } if found == 0 => {
                RemountStep::SetsRemount { held }
            }
            RemountStep::LoadsRemovedAgain { held } => leaving_holds(held),
            RemountStep::LeavesHolds { held } => leaving_holds(held.without_lowest()),
            RemountStep::SetsRemount { held } => letting_go(held),
            RemountStep::ClearsHold { held } => letting_go(held.without_lowest()),
            RemountStep::GivesUp { mount, held } => giving_up(mount, held.without_lowest()),
            RemountStep::ClearsMark { node } => self.cleared(node),
            RemountStep::SetsReadOnly => match hook {
                Ok(()) => RemountStep::ClearsRemount,
                Err(code) => RemountStep::Releases(Err(GateError::Hook(code))),
            },
            RemountStep::ClearsRemount => RemountStep::Releases(Ok(Reply::Unit)),
            RemountStep::Releases(answer) => return Next::Done(answer),
        })
    }

    /// The action that the step adds, which found this, where the file system answers this.
    fn action_of(self, found: u64, hook: Result<(), u16>) -> Option<Action>
        ensures { result ≡ (remount_after self self.step found hook).1 }
    {
        match (self.step, hook) {
            (RemountStep::SetsWritable, Ok(())) | (RemountStep::SetsReadOnly, Err(_)) => Some(
                Action::SbRw,
            ),
            (RemountStep::SetsRemount { .. }, _) => Some(Action::SbRo),
            (RemountStep::ClearsMark { node }, _) => cleaned(node, found),
            _ => None,
        }
    }

    /// What comes after the step, which found this, where the file system answers this, and the action that the step adds.
    #[inline(always)]
    pub fn after(self, found: u64, hook: Result<(), u16>) -> (Next<Remount>, Option<Action>)
        ensures { result ≡ remount_after self self.step found hook }
    {
        (self.next_after(found, hook), self.action_of(found, hook))
    }
}

/// What comes where the holds of these mounts are still to be cleared, with `remount` set.
fn letting_go(held: MountSet) -> RemountStep
    ensures { result ≡ let_go held }
{
    if held.bits == 0 {
        RemountStep::ClearsMark { node: 1 }
    } else {
        RemountStep::ClearsHold { held }
    }
}

/// What comes where the holds of these mounts are still to be cleared, as a file was found removed.
fn leaving_holds(held: MountSet) -> RemountStep
    ensures { result ≡ leave_holds held }
{
    if held.bits == 0 {
        RemountStep::Releases(Err(GateError::Busy))
    } else {
        RemountStep::LeavesHolds { held }
    }
}

/// What comes where the holds of these mounts are still to be cleared, as the sum of this mount was not 0.
fn giving_up(mount: u8, held: MountSet) -> RemountStep
    ensures { result ≡ give_up mount held }
{
    if held.bits == 0 {
        RemountStep::Releases(Err(GateError::Busy))
    } else {
        RemountStep::GivesUp { mount, held }
    }
}

/// The action of clearing the mark of a node whose word was this: none where it had none.
fn cleaned(node: u8, word: u64) -> Option<Action>
    ensures { result ≡ mark_cleared node word }
{
    if word & NodeWord::DIRTY == NodeWord::DIRTY {
        Some(Action::Clean(node))
    } else {
        None
    }
}
