//! A node of the tree as one word, what a call that looks at it finds, and the clearing of all dirty marks, which is a part of a remount
//! and of a freeze.
#![tactic(auto)]

pub mod marks;
pub mod nodes;

pub use marks::ClearMarks;
pub use nodes::{NodeWord, following};
