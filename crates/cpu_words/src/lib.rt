//! The words of the gates, what one step does to a word, and sums over processors. Every word is a `u64` in memory, and
//! one step is one load, store, addition, subtraction, or, and, swap or compare-exchange of one word.
#![tactic(auto)]

pub mod events;
pub mod gate_counts;
pub mod names;
pub mod sums;

pub use events::{Event, Touch};
pub use names::{STRIDE, WORDS, WordName, WordRow};
pub use sums::{Sum, Taken};
