//! The dirty mark of one file, set by a page fault or cleared by a write-back.

ghost use Rattle.std.specs.Prelude.{◌≡◌};
ghost use Rattle.gated_tree.specs.Phases.{mark_next, mark_done, mark_after};
ghost use Rattle.gated_tree.specs.declared.marks.MarkStep.TheVariants.{LoadsFile};

use access_model::{Action, GateError, Next, Reply};
use cpu_words::{Touch, WordName};
use node_words::NodeWord;

/// What the next step of a mark is.
#[derive(Clone, Copy, PartialEq, Eq)]
pub enum MarkStep {
    /// Loads the file's node.
    LoadsFile,
    /// Sets or clears the file's mark, where its node is this, as it was loaded.
    MarksFile(NodeWord),
}

/// A page fault under way, which makes a file dirty (`block_page_mkwrite`), or a write-back, which makes it clean
/// (`writeback_single_inode`).
#[derive(Clone, Copy, PartialEq, Eq)]
pub struct Mark {
    pub file: u8,
    pub dirty: bool,
    pub step: MarkStep,
}

impl Mark {
    /// A page fault, which makes the file dirty, or a write-back, before its first step.
    #[inline(always)]
    pub fn new(file: u8, dirty: bool) -> Mark
        ensures { result ≡ record { file = file; dirty = dirty; step = LoadsFile } }
    {
        Mark {
            file,
            dirty,
            step: MarkStep::LoadsFile,
        }
    }

    /// The word and the touch of the next step.
    #[inline(always)]
    pub fn next(self) -> (WordName, Touch)
        ensures { result ≡ mark_next self self.step }
    {
        let touch = match self.step {
            MarkStep::LoadsFile => Touch::Load,
            MarkStep::MarksFile(file) => {
                let dirty = self.dirty;
                let expect = file.pack();
                let put = NodeWord { dirty, ..file }.pack();
                Touch::Cas { expect, put }
            }
        };
        (WordName::Node(self.file), touch)
    }

    /// The action of the mark that was set or cleared.
    fn done(self) -> Action
        ensures { result ≡ mark_done self.dirty self.file }
    {
        if self.dirty {
            Action::Dirty(self.file)
        } else {
            Action::Clean(self.file)
        }
    }

    /// What comes after the step, which found this, and the action that the step adds.
    #[inline(always)]
    pub fn after(self, found: u64) -> (Next<Mark>, Option<Action>)
        ensures { result ≡ mark_after self self.step found }
    {
        let next = match self.step {
            MarkStep::LoadsFile => match NodeWord::file(found) {
                None => Next::Go(self),
                Some(Err(refusal)) => Next::Done(Err(refusal)),
                Some(Ok(file)) => {
                    let step = MarkStep::MarksFile(file);
                    Next::Go(Mark { step, ..self })
                }
            },
            MarkStep::MarksFile(file) if file.is_still(found) => {
                return (Next::Done(Ok(Reply::Unit)), Some(self.done()));
            }
            MarkStep::MarksFile(_) => Next::Done(Err(GateError::Again)),
        };
        (next, None)
    }
}
