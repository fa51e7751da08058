//! Room for snapshots.

ghost use Rattle.std.specs.Prelude.{◌≡◌, ◌≤◌, ℕ, IfOk, Option, option_map, Some, None, false, length};
ghost use Rattle.gated_tree.specs.Trees.{words_of};
ghost use Rattle.cpu_words.specs.Hooks.{HookAnswer};
ghost use Rattle.cpu_words.specs.Touches.{event_of};
ghost use Rattle.gate_world.specs.declared.operations.Op.{Op as OpType};
ghost use Rattle.gate_world.specs.Views.{phase_after};
ghost use Rattle.gate_world.specs.Work.{after_of, next_of};
ghost use Rattle.gate_steps.specs.Seating.{DealtNumbers, items_after};
ghost use Rattle.vfs_gates.specs.Buffers.{HasSnapshotRoom, BuffersMatch, after_noting, completed, last_in, words_in};

use cpu_words::{Event, Touch};
use gate_world::Phase;
use gated_tree::{Snapshot, Tree, TreePhase};
use std::alloc::{AllocError, Global};
use std::mem::swap;

/// Room for a task's two snapshots, the last one and the one that is being taken, and whether there is a last one. Each is behind a pointer,
/// so that one exchange of pointers makes a complete snapshot the last one.
#[derive(Drop)]
pub struct SnapshotBuffers {
    taken: bool,
    last: Box<Tree>,
    /// Until a snapshot has loaded a word, the word may be one of an earlier snapshot.
    pub(crate) next: Box<Tree>,
}

impl SnapshotBuffers {
    /// Room for two snapshots of so many nodes. Where a growth of memory is refused, there is none.
    pub fn new(alloc: Global, nodes: u8) -> Result<SnapshotBuffers, AllocError>
        ensures { IfOk result (λ buffers. HasSnapshotRoom nodes (words_in buffers) × (buffers.taken ≡ false)) }
    {
        Ok(SnapshotBuffers {
            taken: false,
            last: Box::new(alloc, Tree::new(alloc, nodes)?)?,
            next: Box::new(alloc, Tree::new(alloc, nodes)?)?,
        })
    }

    /// The last snapshot.
    pub fn last(&self) -> Option<&Tree>
        ensures { option_map (λ tree. words_of tree.now) result ≡ last_in (words_in self.now) }
    {
        if self.taken { Some(&self.last) } else { None }
    }

    /// The snapshot that is being taken is complete, and becomes the last one.
    #[inline(always)]
    pub(crate) fn complete(&mut self)
        ensures { words_in self.new ≡ completed (words_in self.old) }
    {
        swap(&mut self.last, &mut self.next);
        self.taken = true;
    }

    /// Notes a step of a snapshot. With the load of its last word it is the last snapshot.
    fn note(&mut self, snapshot: Snapshot, event: Event)
        ensures { words_in self.new ≡ after_noting snapshot event (words_in self.old) }
    {
        if let Touch::Load = event.touch {
            self.next.load(event.word, event.found);
        }
        if snapshot.loads_last() {
            self.complete();
        }
    }

    /// A step of an operation under way was done, which stood at this phase. Those of a snapshot are noted.
    pub fn follow(&mut self, phase: Phase, event: Event)
        ensures { (nodes : ℕ) (begins : Option OpType) (hook : HookAnswer) (found : ℕ) (items : DealtNumbers) → 1 ≤ length items →
            event ≡ event_of (next_of phase hook).0 (next_of phase hook).1 found →
            BuffersMatch nodes (words_in self.old) begins (Some phase) items →
            BuffersMatch nodes (words_in self.new) None (phase_after (after_of phase event.found hook).0) (items_after begins phase hook found items) }
    {
        let Phase::Trees(call) = phase else {
            return;
        };
        if let TreePhase::Snapshot(snapshot) = call {
            self.note(snapshot, event);
        }
    }
}
