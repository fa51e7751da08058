//! The orders of steps of all calls at the tree, as one.

ghost use Rattle.std.specs.Prelude.{◌≡◌};
ghost use Rattle.gated_tree.specs.Phases.{next, after};

use crate::changes::{Create, MoveTo, Remove};
use crate::growth::Grow;
use crate::marks::Mark;
use crate::opens::OpenFile;
use crate::snapshots::Snapshot;
use access_model::{Action, Next, map_after};
use cpu_words::{Touch, WordName};
use node_words::ClearMarks;

/// Where a call at the tree stands between two of its steps.
#[derive(Clone, Copy, PartialEq, Eq)]
pub enum TreePhase {
    Create(Create),
    Remove(Remove),
    Grow(Grow),
    MoveTo(MoveTo),
    /// A page fault or a write-back.
    Mark(Mark),
    OpenFile(OpenFile),
    Snapshot(Snapshot),
    /// The clearing of all dirty marks, which is a part of a remount and of a freeze.
    ClearMarks(ClearMarks),
}

impl TreePhase {
    /// The word and the touch of the next step. No step at the tree reads a hook's answer.
    #[inline(always)]
    pub fn next(&self, hook: Result<(), u16>) -> (WordName, Touch)
        ensures { result ≡ next self.now hook }
    {
        let _ = hook;
        match *self {
            TreePhase::Create(create) => create.next(),
            TreePhase::Remove(remove) => remove.next(),
            TreePhase::Grow(grow) => grow.next(),
            TreePhase::MoveTo(moving) => moving.next(),
            TreePhase::Mark(mark) => mark.next(),
            TreePhase::OpenFile(opening) => opening.next(),
            TreePhase::Snapshot(snapshot) => snapshot.next(),
            TreePhase::ClearMarks(clearing) => clearing.next(),
        }
    }

    /// What comes after the step, which found this, and the action that the step adds.
    pub fn after(self, found: u64, hook: Result<(), u16>) -> (Next<TreePhase>, Option<Action>)
        ensures { result ≡ after self found hook }
    {
        let _ = hook;
        match self {
            TreePhase::Create(create) => map_after(create.after(found), TreePhase::Create),
            TreePhase::Remove(remove) => map_after(remove.after(found), TreePhase::Remove),
            TreePhase::Grow(grow) => map_after(grow.after(found), TreePhase::Grow),
            TreePhase::MoveTo(moving) => map_after(moving.after(found), TreePhase::MoveTo),
            TreePhase::Mark(mark) => map_after(mark.after(found), TreePhase::Mark),
            TreePhase::OpenFile(opening) => map_after(opening.after(found), TreePhase::OpenFile),
            TreePhase::Snapshot(snapshot) => map_after(snapshot.after(found), TreePhase::Snapshot),
            TreePhase::ClearMarks(clearing) => map_after(
                clearing.after(found),
                TreePhase::ClearMarks,
            ),
        }
    }
}
