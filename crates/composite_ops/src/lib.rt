//! Orders of steps that go through those of the gates inside them: write access (level 1 and a mount, one inside the other), and the close
//! of a file, whose last one goes inside level 3 where the file was removed.
#![tactic(auto)]

pub mod file_closes;
pub mod write_access;

pub use crate::file_closes::{ClosePhase, Closing};
pub use crate::write_access::WritePhase;
