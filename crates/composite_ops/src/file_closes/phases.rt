//! The order of steps of a close.

ghost use Rattle.std.specs.Prelude.{◌≡◌};
ghost use Rattle.node_words.specs.Nodes.{closed_node, any_file_in};
ghost use Rattle.node_words.specs.Phases.{after_look};
ghost use Rattle.composite_ops.specs.declared.file_closes.phases.ClosePhase.TheVariants.{LoadsFile};
ghost use Rattle.composite_ops.specs.file_closes.Phases.{next, after, closed_from, enters, then_frees};

use access_model::{Action, Gate, GateError, Next, Reply};
use cpu_words::{Touch, WordName};
use node_words::NodeWord;
use percpu_rwsem::{DownRead, UpRead};

/// A close of a file by a task, on a processor. One that doesn't wait is refused where it would have to.
#[derive(Clone, Copy, PartialEq, Eq)]
pub struct Closing {
    pub file: u8,
    pub cpu: u8,
    pub task: u8,
    pub wait: bool,
}

/// Where a close stands between two of its steps (`__fput`). Freeze level 3 (`SB_FREEZE_FS`) is that of a last close alone.
#[derive(Clone, Copy, PartialEq, Eq)]
pub enum ClosePhase {
    /// Loads the file's node.
    LoadsFile(Closing),
    /// Counts one task less that has the file open, where its node is as it was loaded.
    LowersCount {
        close: Closing,
        node: NodeWord,
    },
    /// Goes inside level 3: the file was removed, and nobody else has it open.
    Enters {
        file: u8,
        node: NodeWord,
        read: DownRead,
    },
    /// Frees the node.
    FreesNode {
        file: u8,
        cpu: u8,
        node: NodeWord,
    },
    /// Subtracts the blocks that were charged for the file.
    RefundsBlocks {
        cpu: u8,
        blocks: u32,
    },
    /// Counts one removed file less.
    Uncounts {
        cpu: u8,
    },
    /// Leaves level 3.
    Leaves {
        cpu: u8,
    },
}

/// The up-read of level 3 on a processor.
fn up_read(cpu: u8) -> UpRead
    ensures { result ≡ record { level = 3; cpu = cpu } }
{
    UpRead { level: 3, cpu }
}

/// The file with one task less that has it open.
fn closed(node: NodeWord) -> NodeWord
    ensures { result ≡ closed_node node }
{
    NodeWord {
        opens: node.opens.saturating_sub(1),
        ..node
    }
}

impl Closing {
    /// The begin of a down-read of level 3.
    fn enters(self, node: NodeWord) -> ClosePhase
        ensures { result ≡ enters self node }
    {
        ClosePhase::Enters {
            file: self.file,
            node,
            read: DownRead::new(3, self.cpu, self.task, self.wait),
        }
    }

    /// What comes after its file was found: no task has it open, so that it is loaded again, or it is to be freed, or the count is lowered.
    fn from(self, node: NodeWord) -> ClosePhase
        ensures { result ≡ closed_from self node }
    {
        if node.opens == 0 {
            ClosePhase::LoadsFile(self)
        } else if node.removed && node.opens == 1 {
            self.enters(node)
        } else {
            ClosePhase::LowersCount { close: self, node }
        }
    }

    /// What comes after the load of its file's node, which found this.
    fn after_load(self, found: u64) -> Next<ClosePhase>
        ensures { result ≡ after_look (LoadsFile self) (closed_from self) (any_file_in found) }
    {
        match NodeWord::any_file(found) {
            None => Next::Go(ClosePhase::LoadsFile(self)),
            Some(Err(refusal)) => Next::Done(Err(refusal)),
            Some(Ok(node)) => Next::Go(self.from(node)),
        }
    }
}

/// What comes after a step at the level: inside it, the node is freed, on the same processor.
fn frees_then(file: u8, node: NodeWord, cpu: u8, next: Next<DownRead>) -> Next<ClosePhase>
    ensures { result ≡ then_frees file node cpu next }
{
    match next {
        Next::Go(read) => Next::Go(ClosePhase::Enters { file, node, read }),
        Next::Wait(read) => Next::Wait(ClosePhase::Enters { file, node, read }),
        Next::Done(Ok(_)) => Next::Go(ClosePhase::FreesNode { file, cpu, node }),
        Next::Done(Err(refusal)) => Next::Done(Err(refusal)),
    }
}

impl ClosePhase {
    /// A close before its first step.
    #[inline(always)]
    pub fn new(file: u8, cpu: u8, task: u8, wait: bool) -> ClosePhase
        ensures { result ≡ LoadsFile record { file = file; cpu = cpu; task = task; wait = wait } }
    {
        ClosePhase::LoadsFile(Closing {
            file,
            cpu,
            task,
            wait,
        })
    }

    /// The word and the touch of the next step.
    #[inline(always)]
    pub fn next(self) -> (WordName, Touch)
        ensures { result ≡ next self }
    {
        match self {
            ClosePhase::LoadsFile(close) => (WordName::Node(close.file), Touch::Load),
            ClosePhase::LowersCount { close, node } => {
                let expect = node.pack();
                let put = closed(node).pack();
                (WordName::Node(close.file), Touch::Cas { expect, put })
            }
            ClosePhase::Enters { read, .. } => read.next(),
            ClosePhase::FreesNode { file, node, .. } => {
                let expect = node.pack();
                let put = NodeWord::FREE;
                (WordName::Node(file), Touch::Cas { expect, put })
            }
            ClosePhase::RefundsBlocks { blocks, .. } => {
                (WordName::Used, Touch::Sub(u64::from(blocks)))
            }
            ClosePhase::Uncounts { .. } => (WordName::Removed, Touch::Sub(1)),
            ClosePhase::Leaves { cpu } => up_read(cpu).next(),
        }
    }

    /// What comes after the step, which found this, and the action that the step adds.
    #[inline(always)]
    pub fn after(self, found: u64) -> (Next<ClosePhase>, Option<Action>)
        ensures { result ≡ after self found }
    {
        match self {
            ClosePhase::LoadsFile(close) => (close.after_load(found), None),
            ClosePhase::LowersCount { close, node } => {
                if node.is_still(found) {
                    (Next::Done(Ok(Reply::Unit)), Some(Action::Close(close.file)))
                } else {
                    (Next::Done(Err(GateError::Again)), None)
                }
            }
            ClosePhase::Enters { file, node, read } => {
                let (next, action) = read.after(found);
                (frees_then(file, node, read.cpu, next), action)
            }
            ClosePhase::FreesNode { file, cpu, node } => {
                if node.is_still(found) {
                    let blocks = node.size;
                    (
                        Next::Go(ClosePhase::RefundsBlocks { cpu, blocks }),
                        Some(Action::Close(file)),
                    )
                } else {
                    (Next::Go(self), None)
                }
            }
            ClosePhase::RefundsBlocks { cpu, .. } => (Next::Go(ClosePhase::Uncounts { cpu }), None),
            ClosePhase::Uncounts { cpu } => (Next::Go(ClosePhase::Leaves { cpu }), None),
            ClosePhase::Leaves { .. } => (
                Next::Done(Ok(Reply::Unit)),
                Some(Action::Return(Gate::Level(3))),
            ),
        }
    }
}
