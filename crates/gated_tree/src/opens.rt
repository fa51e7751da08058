//! The call that opens a file.

ghost use Rattle.std.specs.Prelude.{◌≡◌};
ghost use Rattle.node_words.specs.Nodes.{opened_node};
ghost use Rattle.gated_tree.specs.Phases.{open_next, open_after};
ghost use Rattle.gated_tree.specs.declared.opens.OpenStep.TheVariants.{LoadsFile};

use access_model::{Action, GateError, Next, Reply};
use cpu_words::{Touch, WordName};
use node_words::NodeWord;

/// The most tasks that may have one file open.
const MOST_OPENS: u8 = 64;

/// What the next step of an open is.
#[derive(Clone, Copy, PartialEq, Eq)]
pub enum OpenStep {
    /// Loads the file's node.
    LoadsFile,
    /// Counts one task more that has the file open, where its node is this, as it was loaded.
    OpensFile(NodeWord),
}

/// An open of a file under way (`do_dentry_open`).
#[derive(Clone, Copy, PartialEq, Eq)]
pub struct OpenFile {
    pub file: u8,
    pub step: OpenStep,
}

/// The file with one task more that has it open.
fn opened(file: NodeWord) -> NodeWord
    ensures { result ≡ opened_node file }
{
    NodeWord {
        opens: file.opens.wrapping_add(1),
        ..file
    }
}

impl OpenFile {
    /// An open before its first step.
    #[inline(always)]
    pub fn new(file: u8) -> OpenFile
        ensures { result ≡ record { file = file; step = LoadsFile } }
    {
        OpenFile {
            file,
            step: OpenStep::LoadsFile,
        }
    }

    /// The word and the touch of the next step.
    #[inline(always)]
    pub fn next(self) -> (WordName, Touch)
        ensures { result ≡ open_next self self.step }
    {
        let touch = match self.step {
            OpenStep::LoadsFile => Touch::Load,
            OpenStep::OpensFile(file) => {
                let expect = file.pack();
                let put = opened(file).pack();
                Touch::Cas { expect, put }
            }
        };
        (WordName::Node(self.file), touch)
    }

    /// What comes after the step, which found this, and the action that the step adds.
    #[inline(always)]
    pub fn after(self, found: u64) -> (Next<OpenFile>, Option<Action>)
        ensures { result ≡ open_after self self.step found }
    {
        let next = match self.step {
            OpenStep::LoadsFile => match NodeWord::file(found) {
                None => Next::Go(self),
                Some(Err(refusal)) => Next::Done(Err(refusal)),
                Some(Ok(file)) if file.opens < MOST_OPENS => {
                    let step = OpenStep::OpensFile(file);
                    Next::Go(OpenFile { step, ..self })
                }
                Some(Ok(_)) => Next::Go(self),
            },
            OpenStep::OpensFile(file) if file.is_still(found) => {
                return (Next::Done(Ok(Reply::Unit)), Some(Action::Open(self.file)));
            }
            OpenStep::OpensFile(_) => Next::Done(Err(GateError::Again)),
        };
        (next, None)
    }
}
