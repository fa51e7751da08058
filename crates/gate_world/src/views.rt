//! What is known of one task number. Definitions and proofs speak of these; no value of them is ever made.

use crate::operations::Op;
use crate::work::Phase;
use access_model::Action;
use cpu_words::Event;
use gated_tree::TreeWords;
use std::collections::LinkedList;

/// A step with the hook's answer that it read.
#[derive(Clone, Copy)]
pub struct Traced {
    pub event: Event,
    pub hook: Result<(), u16>,
}

/// A snapshot: what it loaded, and how many actions had been done at its last load by its number, and by each other number of its task.
pub struct Snapshot {
    pub loaded: TreeWords,
    pub done: u64,
    pub others: LinkedList<(u8, u64)>,
}

/// What is known of one task number. Its accesses are what its actions leave, and its net additions to each count word are
/// what its steps add up to.
pub struct View {
    /// The operation under way, or the last one.
    pub op: Option<Op>,
    /// Where the operation under way stands.
    pub phase: Option<Phase>,
    /// Its actions, the newest first.
    pub actions: LinkedList<Action>,
    /// Its steps, the newest first.
    pub events: LinkedList<Event>,
    /// The steps of the operation under way, or of the last one, the newest first.
    pub trace: LinkedList<Traced>,
    /// The actions that it had when that operation began, the newest first.
    pub before: LinkedList<Action>,
    /// Its last snapshot.
    pub snapshot: Option<Snapshot>,
}
