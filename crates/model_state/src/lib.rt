//! The access model as a value: its state, which changes by whole actions alone, each where it is allowed. A replay keeps one beside the
//! gates.
#![tactic(auto)]

pub mod model;

pub use model::Model;
