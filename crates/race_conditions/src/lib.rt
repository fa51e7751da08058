//! Conditions on the states of a race: what calls have answered, and what the gates show. A condition has a text, and a race may be claimed to end by
//! it never, sometimes or always, or to keep it in every state. The verdict on a claim is right of every schedule of the race.
#![tactic(auto)]

pub mod claim_text;
pub mod claims;
pub mod conditions;
pub mod evaluating;
pub mod faults;
pub mod finding;
pub mod laws;
pub mod models;
pub mod parsing;
pub mod pieces;
pub mod searching;
pub mod state_at;
pub mod systems;
pub mod verdicts;
pub mod views;
mod word_facts;

pub use claim_text::parse_claim;
pub use claims::{Claim, ClaimKind};
pub use conditions::{CallAnswer, Condition, Fact, NodeFact};
pub use faults::{ConditionFault, Expected, Unexpected};
pub use parsing::{Names, parse};
pub use searching::{open_marks, race_ends, race_ends_led};
pub use verdicts::{Verdict, judge, judge_led};
pub use views::StateView;
