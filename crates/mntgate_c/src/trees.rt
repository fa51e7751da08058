//! A snapshot's tree, node by node, as records of numbers.

ghost use Rattle.std.specs.Prelude.{◌≡◌, true, slice_index, Err, OnOk, OnErr, Some, None};
ghost use Rattle.access_model.specs.declared.errors.GateError.TheVariants.{NoEntry};
ghost use Rattle.gate_world.specs.declared.views.Snapshot.{Snapshot as Taken};
ghost use Rattle.gated_tree.specs.Trees.{node_at, words_of};
ghost use Rattle.vfs_gates.specs.TaskStates.{own_view};
ghost use Rattle.mntgate_c.specs.Trees.{node_told};

use crate::handles::TaskHandle;
use vfs_gates::{GateError, Kind, NodeInfo, Tree};

/// A node of a tree; all but `kids` is 0 where there is none.
#[repr(C)]
#[derive(Clone, Copy)]
pub struct NodeRecord {
    /// Whether there is one.
    pub there: bool,
    /// A directory, not a file.
    pub is_dir: bool,
    pub dirty: bool,
    /// Removed while a task has it open.
    pub removed: bool,
    pub parent: u8,
    /// In blocks.
    pub size: u32,
    /// How many children a directory has.
    pub kids: u64,
}

/// A node, for C, with its children.
fn record(there: Option<NodeInfo>, kids: u64) -> NodeRecord
    ensures told { node_told result ≡ there }
    ensures kids { result.kids ≡ kids }
{
    match there {
        None => NodeRecord {
            there: false,
            is_dir: false,
            dirty: false,
            removed: false,
            parent: 0,
            size: 0,
            kids,
        },
        Some(info) => NodeRecord {
            there: true,
            is_dir: info.kind == Kind::Dir,
            dirty: info.dirty,
            removed: info.removed,
            parent: info.parent,
            size: info.size,
            kids,
        },
    }
}

/// A node of a tree, for C.
fn node(tree: &Tree, number: u8) -> NodeRecord
    ensures told { node_told result ≡ node_at (words_of tree.now) number }
    ensures kids { result.kids ≡ slice_index (words_of tree.now).kids number }
{
    record(tree.node(number), tree.kids(number))
}

impl TaskHandle {
    /// Writes a node of the last snapshot that the task has taken.
    ///
    /// # Errors
    ///
    /// NoEntry before the task's first snapshot.
    pub fn tree_node(&mut self, number: u8, to: &mut NodeRecord) -> Result<(), GateError>
        requires { self.old.full ≡ true }
        ensures full { self.new.full ≡ true }
        ensures same { self.new.state ≡ self.old.state }
        ensures taken { OnOk result ((s : Taken) × ((own_view self.old.state.items).snapshot ≡ Some s)
            × (node_told to.new ≡ node_at s.loaded number) × (to.new.kids ≡ slice_index s.loaded.kids number)) }
        ensures none { OnErr result ((result ≡ Err NoEntry) × ((own_view self.old.state.items).snapshot ≡ None) × (to.new ≡ to.old)) }
    {
        match self.member().task.tree() {
            Some(tree) => {
                *to = node(tree, number);
                Ok(())
            }
            None => Err(GateError::NoEntry),
        }
    }

    /// Writes how many blocks were charged in the last snapshot that the task has taken.
    ///
    /// # Errors
    ///
    /// NoEntry before the task's first snapshot.
    pub fn tree_used(&mut self, used: &mut u64) -> Result<(), GateError>
        requires { self.old.full ≡ true }
        ensures full { self.new.full ≡ true }
        ensures same { self.new.state ≡ self.old.state }
        ensures taken { OnOk result ((s : Taken) × ((own_view self.old.state.items).snapshot ≡ Some s) × (used.new ≡ s.loaded.used)) }
        ensures none { OnErr result ((result ≡ Err NoEntry) × ((own_view self.old.state.items).snapshot ≡ None) × (used.new ≡ used.old)) }
    {
        match self.member().task.tree() {
            Some(tree) => {
                *used = tree.used();
                Ok(())
            }
            None => Err(GateError::NoEntry),
        }
    }
}
