//! What a replay prints: the bytes that the lines of a schedule print, and the fault at which it ends, as a definition over the states of
//! the theorem; the session that prints it: the gates of a schedule, whichever they are, and the model beside them; and the replay, which
//! reads the lines, has a player do each, and writes out what it prints. The plain player prints what a transcript has of the line.
#![tactic(auto)]

pub mod line_replay;
pub mod player;
pub mod session;

pub use line_replay::{Ended, LineReplay, replay_to_end};
pub use player::{Player, SessionPlayer, print_line};
pub use session::{Session, no_memory, settled};
