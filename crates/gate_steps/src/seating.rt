//! What a seat of the table knows: task numbers, each with its view.

use gate_world::{Entry, View};
use std::collections::LinkedList;

/// A task number with its view. No value of it is ever made.
pub struct Numbered {
    pub number: u8,
    pub view: View,
}

/// What a seat knows: its numbers, and schedules that it has seen, each from the first transition to some moment. No value of it is ever made.
pub struct Knowledge {
    pub items: LinkedList<Numbered>,
    pub seen: LinkedList<LinkedList<Entry>>,
}
