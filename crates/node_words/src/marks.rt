//! The dirty marks of all files, cleared one after the other.

ghost use Rattle.std.specs.Prelude.{◌≡◌};
ghost use Rattle.node_words.specs.Phases.{clear_next, clear_after};

use crate::nodes::{NodeWord, following};
use access_model::{Action, Next, Reply};
use cpu_words::{Touch, WordName};

/// A clearing of all dirty marks under way, at this node of so many (`sync_filesystem`). The root has no mark.
#[derive(Clone, Copy, PartialEq, Eq)]
pub struct ClearMarks {
    pub node: u8,
    pub nodes: u8,
}

impl ClearMarks {
    /// A clearing that begins, of so many nodes.
    pub fn start(nodes: u8) -> ClearMarks
        ensures { result ≡ record { node = 1; nodes = nodes } }
    {
        ClearMarks { node: 1, nodes }
    }

    /// The word and the touch of the next step.
    pub fn next(self) -> (WordName, Touch)
        ensures { result ≡ clear_next self }
    {
        (WordName::Node(self.node), Touch::And(!NodeWord::DIRTY))
    }

    /// What comes after the step, which found this, and the action that the step adds: Clean, where the mark was set. The last
    /// node's step ends it.
    pub fn after(self, found: u64) -> (Next<ClearMarks>, Option<Action>)
        ensures { result ≡ clear_after self found }
    {
        let next = match following(self.node, self.nodes) {
            Some(node) => Next::Go(ClearMarks { node, ..self }),
            None => Next::Done(Ok(Reply::Unit)),
        };
        let cleaned = if NodeWord::fields(found).dirty {
            Some(Action::Clean(self.node))
        } else {
            None
        };
        (next, cleaned)
    }
}
