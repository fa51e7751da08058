//! A snapshot: under `umount`, with the file system frozen, it loads all words of the tree. Its task keeps what it loads; the phase
//! only tells which word is next.

ghost use Rattle.std.specs.Prelude.{◌≡◌};
ghost use Rattle.access_model.specs.declared.replies.Next.TheVariants.{Go};
ghost use Rattle.node_words.specs.Nodes.{node_after};
ghost use Rattle.gated_tree.specs.Trees.{loads_last};
ghost use Rattle.gated_tree.specs.Phases.{snapshot_next, at_snapshot, node_step, kids_step, snapshot_after};
ghost use Rattle.gated_tree.specs.declared.snapshots.SnapshotStep.TheVariants.{Locks};

use access_model::{Action, GateError, Next, Reply};
use cpu_words::{Touch, WordName};
use node_words::{NodeWord, following};

/// The stage at which all is frozen (`SB_FREEZE_COMPLETE`).
const FROZEN: u64 = 4;

/// What the next step of a snapshot is.
#[derive(Clone, Copy, PartialEq, Eq)]
pub enum SnapshotStep {
    /// Takes `umount` where it is free.
    Locks,
    /// Loads the stage.
    LoadsStage,
    /// Loads the blocks that are charged.
    LoadsUsed,
    /// Loads this node.
    LoadsNode(u8),
    /// Loads the children that are charged to this node.
    LoadsKids(u8),
    /// Gives `umount` back, and answers this.
    Releases(Result<Reply, GateError>),
}

/// A snapshot under way, by a task, of so many nodes. One that doesn't wait is refused where it finds `umount` taken.
#[derive(Clone, Copy, PartialEq, Eq)]
pub struct Snapshot {
    pub wait: bool,
    pub task: u8,
    pub nodes: u8,
    pub step: SnapshotStep,
}

impl Snapshot {
    /// A snapshot before its first step, of so many nodes.
    #[inline(always)]
    pub fn new(wait: bool, task: u8, nodes: u8) -> Snapshot
        ensures { result ≡ record { wait = wait; task = task; nodes = nodes; step = Locks } }
    {
        Snapshot {
            wait,
            task,
            nodes,
            step: SnapshotStep::Locks,
        }
    }

    /// Whether the next step is the load of its last word: of the children that are charged to the last node.
    #[inline(always)]
    pub fn loads_last(self) -> bool
        ensures { result ≡ loads_last self.nodes self.step }
    {
        match self.step {
            SnapshotStep::LoadsKids(node) => following(node, self.nodes).is_none(),
            _ => false,
        }
    }

    pub(crate) fn next(self) -> (WordName, Touch)
        ensures { result ≡ snapshot_next self self.step }
    {
        match self.step {
            SnapshotStep::Locks => {
                let put = u64::from(self.task) + 1;
                (WordName::Umount, Touch::Cas { expect: 0, put })
            }
            SnapshotStep::LoadsStage => (WordName::Stage, Touch::Load),
            SnapshotStep::LoadsUsed => (WordName::Used, Touch::Load),
            SnapshotStep::LoadsNode(node) => (WordName::Node(node), Touch::Load),
            SnapshotStep::LoadsKids(node) => (WordName::Kids(node), Touch::Load),
            SnapshotStep::Releases(_) => (WordName::Umount, Touch::Store(0)),
        }
    }

    /// Returns the snapshot with this step to come.
    fn at(self, step: SnapshotStep) -> Next<Snapshot>
        ensures { result ≡ Go (at_snapshot self step) }
    {
        Next::Go(Snapshot { step, ..self })
    }

    /// What comes after a node's word: the next node, and after the last one the children of the first.
    fn loaded_node(self, node: u8) -> SnapshotStep
        ensures { result ≡ node_step (node_after node self.nodes) }
    {
        match following(node, self.nodes) {
            Some(next) => SnapshotStep::LoadsNode(next),
            None => SnapshotStep::LoadsKids(0),
        }
    }

    /// What comes after the children of a node: those of the next one, and after the last one the end.
    fn loaded_kids(self, node: u8) -> SnapshotStep
        ensures { result ≡ kids_step (node_after node self.nodes) }
    {
        match following(node, self.nodes) {
            Some(next) => SnapshotStep::LoadsKids(next),
            None => SnapshotStep::Releases(Ok(Reply::Tree)),
        }
    }

    pub(crate) fn after(self, found: u64) -> (Next<Snapshot>, Option<Action>)
        ensures { result ≡ snapshot_after self self.step found }
    {
        let next = match self.step {
            SnapshotStep::Locks if found == 0 => self.at(SnapshotStep::LoadsStage),
            SnapshotStep::Locks if self.wait => Next::Wait(self),
            SnapshotStep::Locks => Next::Done(Err(GateError::Again)),
            SnapshotStep::LoadsStage if found == FROZEN => self.at(SnapshotStep::LoadsUsed),
            SnapshotStep::LoadsStage => self.at(SnapshotStep::Releases(Err(GateError::Invalid))),
            SnapshotStep::LoadsUsed => self.at(SnapshotStep::LoadsNode(0)),
            SnapshotStep::LoadsNode(node) if NodeWord::unpack(found).is_some() => {
                self.at(self.loaded_node(node))
            }
            SnapshotStep::LoadsNode(_) => Next::Go(self),
            SnapshotStep::LoadsKids(node) => self.at(self.loaded_kids(node)),
            SnapshotStep::Releases(answer) => Next::Done(answer),
        };
        (next, None)
    }
}
