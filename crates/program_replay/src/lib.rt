//! A replay, as the command line asks for it: over the core, or over the gates that threads use, driven by one thread; plain, or shown in another
//! form; with what a person is told of a fault, its text and what helps.
#![tactic(auto)]

pub mod gates_driver;
pub mod replays;
mod showing;

pub use gates_driver::GatesDriver;
pub use replays::{Terminal, replay, replay_gates, run_replay};
