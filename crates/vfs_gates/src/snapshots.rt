//! The steps of a snapshot, in a line: it loads all words of the tree, and notes each in its task's buffers.

ghost use Rattle.std.specs.Prelude.{◌≡◌, ◌≤◌, Some, None, Ok, is_some, length};
ghost use Rattle.access_model.specs.declared.replies.Next.TheVariants.{Go};
ghost use Rattle.access_model.specs.declared.replies.Reply.TheVariants.{Tree as TreeReply};
ghost use Rattle.gate_world.specs.Work.{after_of};
ghost use Rattle.gated_tree.specs.Trees.{words_of};
ghost use Rattle.gated_tree.specs.declared.snapshots.SnapshotStep.TheVariants.{LoadsKids, LoadsNode, LoadsUsed, Locks, Releases};
ghost use Rattle.node_words.specs.Nodes.{unpacked};
ghost use Rattle.gate_steps.specs.call_events.Led.{Stands};
ghost use Rattle.vfs_gates.specs.Buffers.{IsSized, completed, words_in};
ghost use Rattle.vfs_gates.specs.Noted.{Noted, nodes_loaded, of_tree, taken_or, snapshot_at, with_kids, with_loaded, with_nodes, words_loaded};

use crate::buffers::SnapshotBuffers;
use access_model::{Next, Reply};
use cpu_words::{Touch, WordName};
use gate_steps::call_events::{GateWords, GhostSeat, find, find_first};
use gate_world::{Accesses, Op};
use gated_tree::{NodeWord, Snapshot, SnapshotStep, Tree, TreePhase};
use node_words::following;

/// The stage at which all is frozen (`SB_FREEZE_COMPLETE`).
const FROZEN: u64 = 4;

/// Leaves the line, after a step that has found this, to what `rest` says then. It stands apart, and takes the step by itself, so that nothing is
/// written to memory where the line goes on.
#[cold]
#[inline(never)]
fn leave(snapshot: Snapshot, step: SnapshotStep, found: u64, rest: &mut Next<TreePhase>) -> bool
    ensures { taken_or result rest.new ≡ (after_of (snapshot_at snapshot step) found (Ok tt)).0 }
{
    let here = TreePhase::Snapshot(Snapshot { step, ..snapshot });
    let (next, _action) = here.after(found, Ok(()));
    *rest = next;
    false
}

/// Leaves the line, to load this node again, as `rest` says then.
#[cold]
#[inline(never)]
fn leave_at_node(snapshot: Snapshot, node: u8, rest: &mut Next<TreePhase>) -> bool
    ensures { taken_or result rest.new ≡ Go (snapshot_at snapshot (LoadsNode node)) }
{
    let step = SnapshotStep::LoadsNode(node);
    *rest = Next::Go(TreePhase::Snapshot(Snapshot { step, ..snapshot }));
    false
}

/// Whether a word is a node's. That of a free one is 0, which is seen first.
#[inline(always)]
fn is_node(word: u64) -> bool
    ensures { result ≡ is_some (unpacked word) }
{
    word == 0 || NodeWord::unpack(word).is_some()
}

/// Loads one node after the other, and notes the word of each. Where the word of one is no node's, which.
#[inline(always)]
fn load_nodes(
    gates: &GateWords,
    seat: &mut GhostSeat,
    accesses: &Accesses,
    nodes: &mut [u64],
    snapshot: Snapshot,
) -> Option<u8>
    requires many { (length nodes.old ≡ snapshot.nodes) × (1 ≤ snapshot.nodes) }
    requires stands { Stands gates.now None (Go (snapshot_at snapshot (LoadsNode 0))) accesses.now seat.old }
    ensures { Noted gates.now None (Go (snapshot_at snapshot (LoadsNode 0))) accesses.now seat.old (λ r. r.next.nodes ≡ nodes.old)
        (Go (nodes_loaded snapshot result)) seat.new (with_nodes nodes.new) }
{
    let mut node = 0;
    loop {
        let step = SnapshotStep::LoadsNode(node);
        let here = TreePhase::Snapshot(Snapshot { step, ..snapshot });
        let word = WordName::Node(node);
        let found = find(gates, seat, accesses, here, word, Touch::Load);
        nodes[node as usize] = found;
        let is_there = is_node(found);
        if !is_there {
            return Some(node);
        }
        node = following(node, snapshot.nodes)?;
    }
}

/// Loads the children that are charged to one node after the other, and notes them. Then the snapshot is complete.
#[inline(always)]
fn load_kids(
    gates: &GateWords,
    seat: &mut GhostSeat,
    accesses: &Accesses,
    kids: &mut [u64],
    snapshot: Snapshot,
)
    requires many { (length kids.old ≡ snapshot.nodes) × (1 ≤ snapshot.nodes) }
    requires stands { Stands gates.now None (Go (snapshot_at snapshot (LoadsKids 0))) accesses.now seat.old }
    ensures { Noted gates.now None (Go (snapshot_at snapshot (LoadsKids 0))) accesses.now seat.old (λ r. r.next.kids ≡ kids.old)
        (Go (snapshot_at snapshot (Releases (Ok TreeReply)))) seat.new (λ r. completed (with_kids kids.new r)) }
{
    let mut node = 0;
    loop {
        let step = SnapshotStep::LoadsKids(node);
        let here = TreePhase::Snapshot(Snapshot { step, ..snapshot });
        let word = WordName::Kids(node);
        let found = find(gates, seat, accesses, here, word, Touch::Load);
        kids[node as usize] = found;
        match following(node, snapshot.nodes) {
            Some(next) => node = next,
            None => return,
        }
    }
}

/// Loads the blocks that are charged, the nodes and their children, and notes them. Where the word of one node is no node's, which.
#[inline(always)]
fn load_words(
    gates: &GateWords,
    seat: &mut GhostSeat,
    accesses: &Accesses,
    tree: &mut Tree,
    snapshot: Snapshot,
) -> Option<u8>
    requires many { IsSized snapshot.nodes (words_of tree.old) × (1 ≤ snapshot.nodes) }
    requires stands { Stands gates.now None (Go (snapshot_at snapshot LoadsUsed)) accesses.now seat.old }
    ensures { Noted gates.now None (Go (snapshot_at snapshot LoadsUsed)) accesses.now seat.old (λ r. r.next ≡ words_of tree.old)
        (Go (words_loaded snapshot result)) seat.new (with_loaded result (words_of tree.new)) }
{
    let step = SnapshotStep::LoadsUsed;
    let here = TreePhase::Snapshot(Snapshot { step, ..snapshot });
    let used = find(gates, seat, accesses, here, WordName::Used, Touch::Load);
    tree.load(WordName::Used, used);
    if let Some(node) = load_nodes(gates, seat, accesses, tree.nodes_mut(), snapshot) {
        return Some(node);
    }
    load_kids(gates, seat, accesses, tree.kids_mut(), snapshot);
    None
}

/// Loads the tree of a file system that is frozen, and gives `umount` back. Whether it is taken; if not, what comes next is left in `rest`.
#[inline(always)]
fn load_tree(
    gates: &GateWords,
    seat: &mut GhostSeat,
    accesses: &Accesses,
    buffers: &mut SnapshotBuffers,
    snapshot: Snapshot,
    rest: &mut Next<TreePhase>,
) -> bool
    requires many { IsSized snapshot.nodes (words_in buffers.old).next × (1 ≤ snapshot.nodes) }
    requires stands { Stands gates.now None (Go (snapshot_at snapshot LoadsUsed)) accesses.now seat.old }
    ensures { Noted gates.now None (Go (snapshot_at snapshot LoadsUsed)) accesses.now seat.old (λ r. r ≡ words_in buffers.old)
        (taken_or result rest.new) seat.new (λ r. words_in buffers.new) }
{
    let tree = &mut buffers.next;
    if let Some(node) = load_words(gates, seat, accesses, tree, snapshot) {
        return leave_at_node(snapshot, node, rest);
    }
    buffers.complete();
    let step = SnapshotStep::Releases(Ok(Reply::Tree));
    let here = TreePhase::Snapshot(Snapshot { step, ..snapshot });
    let _freed = find(
        gates,
        seat,
        accesses,
        here,
        WordName::Umount,
        Touch::Store(0),
    );
    true
}

/// Takes a snapshot, from the first step on. Whether it is taken; if not, what comes next is left in `rest`. So the usual answer is one bit, and
/// nothing of what comes next is written to memory.
#[inline(never)]
fn take_snapshot(
    gates: &GateWords,
    seat: &mut GhostSeat,
    accesses: &Accesses,
    buffers: &mut SnapshotBuffers,
    op: Op,
    snapshot: Snapshot,
    rest: &mut Next<TreePhase>,
) -> bool
    requires many { IsSized snapshot.nodes (words_in buffers.old).next × (1 ≤ snapshot.nodes) }
    requires stands { Stands gates.now (Some op) (Go (snapshot_at snapshot Locks)) accesses.now seat.old }
    ensures { Noted gates.now (Some op) (Go (snapshot_at snapshot Locks)) accesses.now seat.old (λ r. r ≡ words_in buffers.old)
        (taken_or result rest.new) seat.new (λ r. words_in buffers.new) }
{
    let step = SnapshotStep::Locks;
    let locks = TreePhase::Snapshot(Snapshot { step, ..snapshot });
    let put = u64::from(snapshot.task) + 1;
    let touch = Touch::Cas { expect: 0, put };
    let taken = find_first(gates, seat, accesses, op, locks, WordName::Umount, touch);
    if taken != 0 {
        return leave(snapshot, SnapshotStep::Locks, taken, rest);
    }
    let step = SnapshotStep::LoadsStage;
    let here = TreePhase::Snapshot(Snapshot { step, ..snapshot });
    let stage = find(gates, seat, accesses, here, WordName::Stage, Touch::Load);
    if stage != FROZEN {
        return leave(snapshot, SnapshotStep::LoadsStage, stage, rest);
    }
    load_tree(gates, seat, accesses, buffers, snapshot, rest)
}

/// Takes a snapshot, from the first step on. What comes after the last one that stands in the line.
#[inline(always)]
pub(crate) fn snapshot_first(
    gates: &GateWords,
    seat: &mut GhostSeat,
    accesses: &Accesses,
    buffers: &mut SnapshotBuffers,
    op: Op,
    snapshot: Snapshot,
) -> Next<TreePhase>
    requires many { IsSized snapshot.nodes (words_in buffers.old).next × (1 ≤ snapshot.nodes) }
    requires stands { Stands gates.now (Some op) (Go (snapshot_at snapshot Locks)) accesses.now seat.old }
    ensures { Noted gates.now (Some op) (Go (snapshot_at snapshot Locks)) accesses.now seat.old (λ r. r ≡ words_in buffers.old)
        (of_tree result) seat.new (λ r. words_in buffers.new) }
{
    let mut rest = Next::Done(Ok(Reply::Tree));
    if take_snapshot(gates, seat, accesses, buffers, op, snapshot, &mut rest) {
        return Next::Done(Ok(Reply::Tree));
    }
    rest
}
