//! All outcomes of a race, each with its text, in the order of these, and whose moves lead to it.
#![tactic(auto)]

mod briefly;
mod listing;
mod texts;
mod ways;

pub use briefly::{print_briefly, print_count, print_counts};
pub use listing::{Method, Outcome, OutcomeListing, SearchPlan, list};
pub use texts::outcome_text;
pub use ways::{movers_to, runs_for};
