//! A run of writers, a remounter and a backup beside its gates: what it may be asked for, who looks on, what its tasks meet, counted, and how
//! that is told.
#![tactic(auto)]

pub mod counts;
mod meetings;
pub mod plans;
pub mod progress;
pub mod rows;

pub use counts::{Copies, Details, Remounts, Sizes, Totals, Tried, Writes};
pub use meetings::{Meeting, RunObserver};
pub use plans::{FIRST_WRITER, MOUNT, Plan};
pub use progress::Progress;
