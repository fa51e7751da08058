//! The command line of the program: from its words to what they ask for.
#![tactic(auto)]

mod arguments;
pub mod words;

pub use words::{
    Explain, Numbers, OutcomeForm, Outcomes, ProgramRequest, Replay, ReplayForm, RunReport,
    ScheduleForm, Style, Validation, read_words,
};
