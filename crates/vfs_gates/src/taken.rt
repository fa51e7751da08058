//! A snapshot with the tree that it took.

ghost use Rattle.std.specs.Prelude.{IfOk};
ghost use Rattle.std.specs.Borrow.{sem};
ghost use Rattle.gated_tree.specs.Trees.{LoadedClean, LoadedSound, words_of};

use crate::gates::Gates;
use crate::task::Task;
use access_model::GateError;
use gated_tree::Tree;
use std::sync::Wait;

impl Task {
    ghost use Rattle.vfs_gates.specs.Taken.{EndsWithTree};
    ghost use Rattle.vfs_gates.specs.TaskStates.{IsFrom};

    /// `snapshot`, and the tree that it took, which `tree` shows from then on: the whole tree of one moment, sound and clean.
    ///
    /// # Errors
    ///
    /// As `snapshot`; then the last snapshot stays.
    pub fn snapshot_tree<R: Wait>(&mut self, rt: &R, gates: &Gates) -> Result<&Tree, GateError>
        requires { IsFrom self.old gates.now }
        ensures* taken { sem 𝓛 (EndsWithTree self.entry result) }
        ensures whole { IfOk result (λ tree. LoadedSound (words_of tree.now) × LoadedClean (words_of tree.now)) }
    {
        self.snapshot(rt, gates)?;
        match self.tree() {
            Some(tree) => Ok(tree),
            None => unreachable!(),
        }
    }
}
