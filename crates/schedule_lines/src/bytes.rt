//! The bytes of a schedule: read in blocks, and written out; and the fault at which this ends before
//! its end.

pub mod replay_faults;

pub use crate::lines::Input;
pub use crate::output::write_out;
pub use replay_faults::{ReplayFault, fault_after};
