//! The tree behind the gates: the orders of steps of the calls that change it or take a snapshot of it, and what a snapshot loads. A phase
//! says which step comes next, and what comes after it.
#![tactic(auto)]

pub mod changes;
pub mod growth;
pub mod marks;
pub mod opens;
pub mod phases;
pub mod snapshots;
pub mod trees;

pub use changes::{Create, CreateStep, MoveStep, MoveTo, Remove, RemoveStep};
pub use growth::{Grow, GrowStep};
pub use marks::{Mark, MarkStep};
pub use node_words::{ClearMarks, NodeWord};
pub use opens::{OpenFile, OpenStep};
pub use phases::TreePhase;
pub use snapshots::{Snapshot, SnapshotStep};
pub use trees::{Tree, TreeWords};
