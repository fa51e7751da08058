//! The words in one table of atomic words, under the invariant of words and views: each step is one atomic step, whichever thread
//! takes it. On it what a call does apart from its task (`call_events`).
#![tactic(auto)]

pub mod call_events;
mod meeting;
mod rule;
mod seating;
mod steps;
mod tables;

pub use meeting::{meet, receipt};
pub use rule::{
    Divided, Divides, Given, Gives, LookPlay, StepInputs, StepPlay, TableInvariant, TakesBack,
};
pub use seating::{Knowledge, Numbered};
pub use steps::{event, give, index_of, take_back, touch};
pub use tables::{Closed, GateTable, close, open, opening_words, word_of};
