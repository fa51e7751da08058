//! The outcomes of a race, shown: a line each, a record each, or a page with a picture for each. Below each may stand an execution that ends in it and
//! the model at its end, and each execution can be saved to a file.
#![tactic(auto)]

pub mod details;
mod executions;
mod finals;
pub mod saving;
pub mod shown;
pub mod telling;

pub use details::{Details, Schedules};
pub use saving::save_outcomes;
pub use shown::{Exhibit, Shape, show_outcomes};
pub use telling::{tell, tell_ends};
