//! The state that every execution and every table moves: the words, and one view per task number. Here stand the
//! configuration, the operations and their beginnings, what a task holds and is at, and what one transition of an execution does. The code of
//! beginnings and steps stands in `gate_transitions`.
#![tactic(auto)]

pub mod accesses;
pub mod config;
pub mod entries;
pub mod operations;
pub mod views;
pub mod work;

pub use accesses::Accesses;
pub use config::Config;
pub use entries::Entry;
pub use operations::Op;
pub use views::{Snapshot, Traced, View};
pub use work::Phase;
