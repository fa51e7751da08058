//! What files say, checked: what their lines print and what they claim of their races. Files can also be made to say what they print, in lines
//! `#> TEXT`, which a replay skips as it skips each comment.
#![tactic(auto)]

mod blessed;
mod blessings;
mod checks;
mod claims;
mod comparisons;
mod playing;
mod said;

pub use blessings::run_blessings;
pub use checks::run_checks;
pub use claims::{Judged, VerdictForm, bad_claim, tell_claims};
