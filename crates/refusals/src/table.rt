//! The table of all refusals, in parts: those of the gates, of the tree, and of tasks, with what is refused before the first step.

pub(crate) mod gates;
pub(crate) mod tasks;
pub(crate) mod trees;
