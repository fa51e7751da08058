//! What C calls. An export takes a handle that has a task, and leaves one; what it did is said by the clause of the library's own call.

pub mod at_once;
pub mod counts;
pub mod knowing;
pub mod opening;
pub mod steps;
pub mod tree;
