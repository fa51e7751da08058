//! The tree that a snapshot has loaded.
#![tactic(auto, unfolding(crate::specs::Trees::words_of))]

ghost use Rattle.std.specs.Prelude.{◌≡◌, ◌<◌, ◌^◌, ◌↔◌, IsTrue, IfOk, OnSome, length, slice_index, vec_len};
ghost use Rattle.std.specs.Borrow.{sem};
ghost use Rattle.access_model.specs.States.{is_dirty};

use access_model::{Kind, NodeInfo};
use cpu_words::WordName;
use node_words::NodeWord;
use std::alloc::{AllocError, Global};
use std::collections::LinkedList;

/// The words of the tree: the blocks charged, the nodes, the children charged to each. Definitions and proofs speak of these; no value
/// of them is ever made.
pub struct TreeWords {
    pub used: u64,
    pub nodes: LinkedList<u64>,
    pub kids: LinkedList<u64>,
}

/// A snapshot of the tree, or the room for one: each word as it was loaded last. A snapshot loads them while all is frozen, so they
/// are those of one moment.
#[derive(Drop)]
pub struct Tree {
    used: u64,
    nodes: Vec<u64>,
    kids: Vec<u64>,
    ghost as_many: { vec_len kids ≡ vec_len nodes },
    ghost few: { vec_len nodes < 2 ^ 8 },
}

impl Tree {
    ghost use Rattle.gated_tree.specs.Lending.{LendsKids, LendsNodes};
    ghost use Rattle.gated_tree.specs.Trees.{CountsChildren, HasDirectories, HasDirectory, LoadedClean, LoadedSound, blocks_in, children_in, loaded, node_at, unloaded, words_of};

    /// Room for the words of so many nodes, of which none was loaded: all are 0. Where a growth of memory is refused, there is none.
    pub fn new(alloc: Global, nodes: u8) -> Result<Tree, AllocError>
        ensures { IfOk result (λ tree. words_of tree ≡ unloaded nodes) }
    {
        Ok(Tree {
            used: 0,
            nodes: vec![in alloc; 0; nodes as usize]?,
            kids: vec![in alloc; 0; nodes as usize]?,
        })
    }

    /// Lends the words of the nodes, for a line of loads that notes each where it stands. There are as many as `new` was told.
    #[inline(always)]
    pub fn nodes_mut(&mut self) -> &mut [u64]
        ensures* lends { sem 𝓛 (LendsNodes self.entry result) }
        ensures words { result.now ≡ (words_of self.old).nodes }
    {
        self.nodes.as_mut_slice()
    }

    /// Lends the words of the children that are charged to each node, for a line of loads that notes each where it stands.
    #[inline(always)]
    pub fn kids_mut(&mut self) -> &mut [u64]
        ensures* lends { sem 𝓛 (LendsKids self.entry result) }
        ensures words { result.now ≡ (words_of self.old).kids }
    {
        self.kids.as_mut_slice()
    }

    /// Notes that a word was loaded and had this value. A word that is none of the tree's changes nothing. Takes no memory.
    #[inline(always)]
    pub fn load(&mut self, word: WordName, value: u64)
        ensures { words_of self.new ≡ loaded (words_of self.old) word value }
    {
        match word {
            WordName::Used => self.used = value,
            WordName::Node(node) => {
                if (node as usize) < self.nodes.len() {
                    self.nodes[node as usize] = value;
                }
            }
            WordName::Kids(node) => {
                if (node as usize) < self.kids.len() {
                    self.kids[node as usize] = value;
                }
            }
            _ => {}
        }
    }

    /// The blocks that were charged.
    pub fn used(&self) -> u64
        ensures { result ≡ (words_of self.now).used }
    {
        self.used
    }

    /// A node, with its kind, parent, size, dirty mark and removed mark; None where it was free or there is none of that number.
    pub fn node(&self, node: u8) -> Option<NodeInfo>
        ensures value { result ≡ node_at (words_of self.now) node }
        ensures there { OnSome result (node < length (words_of self.now).nodes) }
    {
        if (node as usize) < self.nodes.len() {
            NodeWord::shown(self.nodes[node as usize])
        } else {
            None
        }
    }

    /// The children that were charged to a node; 0 where there is none of that number.
    pub fn kids(&self, node: u8) -> u64
        ensures { result ≡ slice_index (words_of self.now).kids node }
    {
        if (node as usize) < self.kids.len() {
            self.kids[node as usize]
        } else {
            0
        }
    }

    /// Whether the blocks charged are those of all files, the children charged to each node are its children, and each parent is a
    /// directory.
    pub fn is_sound(&self) -> bool
        ensures { IsTrue result ↔ LoadedSound (words_of self.now) }
    {
        self.used == self.blocks() && self.counts_children() && self.has_directories()
    }

    /// Whether no file is dirty.
    pub fn is_clean(&self) -> bool
        ensures { IsTrue result ↔ LoadedClean (words_of self.now) }
    {
        (0..self.size()).all(|node| !self.is_dirty(node))
    }

    /// How many nodes there are, the free ones counted.
    fn size(&self) -> u8
        ensures { result ≡ length (words_of self.now).nodes }
    {
        self.nodes.len() as u8
    }

    /// The blocks of all files.
    fn blocks(&self) -> u64
        ensures { let words = words_of self.now in result ≡ blocks_in (length words.nodes) (node_at words) }
    {
        let mut blocks: u64 = 0;
        for node in 0..self.size() {
            if let Some(info) = self.node(node) {
                blocks += u64::from(info.size);
            }
        }
        blocks
    }

    /// Whether the children charged to each node are its children.
    fn counts_children(&self) -> bool
        ensures { let words = words_of self.now in
            IsTrue result ↔ CountsChildren (length words.nodes) (node_at words) (slice_index words.kids) }
    {
        (0..self.size()).all(|dir| self.kids(dir) == self.children(dir))
    }

    /// Whether each node that is there has a directory for its parent.
    fn has_directories(&self) -> bool
        ensures { let words = words_of self.now in IsTrue result ↔ HasDirectories (length words.nodes) (node_at words) }
    {
        (0..self.size()).all(|node| self.has_directory(node))
    }

    /// How many nodes other than the root, and not removed, have this parent.
    fn children(&self, dir: u8) -> u64
        ensures { let words = words_of self.now in result ≡ children_in (length words.nodes) (node_at words) dir }
    {
        let mut children: u64 = 0;
        for node in 0..self.size() {
            match self.node(node) {
                Some(info) if node != 0 && !info.removed && info.parent == dir => children += 1,
                _ => {}
            }
        }
        children
    }

    /// Whether a node is free, or its parent is a directory.
    fn has_directory(&self, node: u8) -> bool
        ensures { let words = words_of self.now in
            IsTrue result ↔ HasDirectory (length words.nodes) (node_at words) (node_at words node) }
    {
        self.node(node).is_none_or(|info| {
            self.node(info.parent)
                .is_some_and(|parent| parent.kind == Kind::Dir)
        })
    }

    /// Whether a node is there and dirty.
    fn is_dirty(&self, node: u8) -> bool
        ensures { result ≡ is_dirty (node_at (words_of self.now) node) }
    {
        matches!(self.node(node), Some(info) if info.dirty)
    }
}
