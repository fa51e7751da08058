//! The language of schedules: what a line of text asks for. Whoever drives the gates does what the lines say.
#![tactic(auto)]

pub mod commands;
pub mod verbs;

pub use commands::{HookFailure, Line, Request, TaskCommand, parse};
pub use verbs::{Verb, VerbRow};
