//! The call that makes a file larger.

ghost use Rattle.std.specs.Prelude.{◌≡◌};
ghost use Rattle.access_model.specs.declared.replies.Next.TheVariants.{Go};
ghost use Rattle.node_words.specs.Nodes.{grown_node};
ghost use Rattle.gated_tree.specs.Phases.{grow_next, at_grow, grow_from, grow_after};
ghost use Rattle.gated_tree.specs.declared.growth.GrowStep.TheVariants.{LoadsFile};

use access_model::{Action, GateError, Next, Reply};
use cpu_words::{Touch, WordName};
use node_words::NodeWord;

/// What the next step of a grow is. `file` is the file's node as it was loaded.
#[derive(Clone, Copy, PartialEq, Eq)]
pub enum GrowStep {
    /// Loads the file's node.
    LoadsFile,
    /// Loads the blocks that are charged.
    LoadsUsed(NodeWord),
    /// Charges its blocks, where as many are charged as it found.
    ChargesBlocks { file: NodeWord, used: u32 },
    /// Makes the file larger and dirty, where its node is as it was loaded.
    GrowsFile(NodeWord),
    /// Subtracts the blocks that it charged, and is refused.
    RefundsBlocks,
}

/// A grow of a file under way, by so many blocks, where all files together may have so many as `capacity`: what a write past the end
/// of a file does to it (`generic_perform_write`).
#[derive(Clone, Copy, PartialEq, Eq)]
pub struct Grow {
    pub file: u8,
    pub blocks: u32,
    pub capacity: u32,
    pub step: GrowStep,
}

impl Grow {
    /// A grow before its first step, where all files together may have so many blocks.
    #[inline(always)]
    pub fn new(file: u8, blocks: u32, capacity: u32) -> Grow
        ensures { result ≡ record { file = file; blocks = blocks; capacity = capacity; step = LoadsFile } }
    {
        Grow {
            file,
            blocks,
            capacity,
            step: GrowStep::LoadsFile,
        }
    }

    /// The file with the blocks more, and dirty. It comes to this only where the sum is within the capacity, so it doesn't wrap.
    #[inline(always)]
    fn grown(self, file: NodeWord) -> NodeWord
        ensures { result ≡ grown_node self.blocks file }
    {
        NodeWord {
            dirty: true,
            size: file.size.wrapping_add(self.blocks),
            ..file
        }
    }

    /// The word and the touch of the next step.
    #[inline(always)]
    pub fn next(self) -> (WordName, Touch)
        ensures { result ≡ grow_next self self.step }
    {
        let blocks = u64::from(self.blocks);
        match self.step {
            GrowStep::LoadsFile => (WordName::Node(self.file), Touch::Load),
            GrowStep::LoadsUsed(_) => (WordName::Used, Touch::Load),
            GrowStep::ChargesBlocks { used, .. } => {
                let expect = u64::from(used);
                let put = expect + blocks;
                (WordName::Used, Touch::Cas { expect, put })
            }
            GrowStep::GrowsFile(file) => {
                let expect = file.pack();
                let put = self.grown(file).pack();
                (WordName::Node(self.file), Touch::Cas { expect, put })
            }
            GrowStep::RefundsBlocks => (WordName::Used, Touch::Sub(blocks)),
        }
    }

    /// Returns the grow with this step to come.
    #[inline(always)]
    fn at(self, step: GrowStep) -> Next<Grow>
        ensures { result ≡ Go (at_grow self step) }
    {
        Next::Go(Grow { step, ..self })
    }

    /// What comes after so many blocks were found charged: there is room for its own, or there is none, or the file that was loaded has
    /// more than fits beside its own, so that it was removed since then, and its node is out of date.
    #[inline(always)]
    fn charged_from(self, file: NodeWord, used: u64) -> Next<Grow>
        ensures { result ≡ grow_from self file used }
    {
        let blocks = u64::from(self.blocks);
        let capacity = u64::from(self.capacity);
        if used.saturating_add(blocks) > capacity {
            Next::Done(Err(GateError::NoSpace))
        } else if u64::from(file.size) + blocks > capacity {
            Next::Done(Err(GateError::Again))
        } else {
            let used = used as u32;
            self.at(GrowStep::ChargesBlocks { file, used })
        }
    }

    /// What comes after the step, which found this, and the action that the step adds.
    #[inline(always)]
    pub fn after(self, found: u64) -> (Next<Grow>, Option<Action>)
        ensures { result ≡ grow_after self self.step found }
    {
        let next = match self.step {
            GrowStep::LoadsFile => match NodeWord::file(found) {
                None => Next::Go(self),
                Some(Err(refusal)) => Next::Done(Err(refusal)),
                Some(Ok(file)) => self.at(GrowStep::LoadsUsed(file)),
            },
            GrowStep::LoadsUsed(file) => self.charged_from(file, found),
            GrowStep::ChargesBlocks { file, used } if found == u64::from(used) => {
                self.at(GrowStep::GrowsFile(file))
            }
            GrowStep::ChargesBlocks { .. } => Next::Done(Err(GateError::Again)),
            GrowStep::GrowsFile(file) if file.is_still(found) => {
                let (node, blocks) = (self.file, self.blocks);
                let grown = Action::Grow { node, blocks };
                return (Next::Done(Ok(Reply::Unit)), Some(grown));
            }
            GrowStep::GrowsFile(_) => self.at(GrowStep::RefundsBlocks),
            GrowStep::RefundsBlocks => Next::Done(Err(GateError::Again)),
        };
        (next, None)
    }
}
