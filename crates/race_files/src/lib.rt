//! The files of races. A file of a race is a schedule that sets up, a line `race`, and then what each task calls; its lines are read as those of
//! schedules are, by `schedule_text`. What was read is a race, with the core that it begins on, and its schedules are printed as a replay takes
//! them.
#![tactic(auto)]

pub mod calls;
pub mod faults;
pub mod files;
pub mod lines;
mod prefixes;
mod schedules;
pub mod setting_up;
pub mod sources;

pub use calls::{CallLine, Calls};
pub use faults::RaceFault;
pub use files::{RaceFile, read_race};
pub use lines::{Lines, is_claim, is_race};
pub use setting_up::{set_up, set_up_again};
pub use sources::RaceSource;
