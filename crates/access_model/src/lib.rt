//! The access model: who holds an access at which gate, which read-only flags stand, how far a freeze has come, and a
//! tree of nodes. It has no word of the machinery: an access is granted, a flag is set, a level is passed, each as one
//! whole action at one moment. What the gates do word by word is proved to be a run of this model.
#![tactic(auto)]

pub mod actions;
pub mod errors;
pub mod laws;
pub mod replies;

pub use actions::{Action, Gate, Holder, Holders, Kind, NodeInfo};
pub use errors::GateError;
pub use replies::{Next, Reply, map_after};
