//! A schedule that can be seen: a replay that shows each step, also those of a `run`, with the call that it is of, what it does to the model
//! and for whom it waits. What is seen is one trace of entries (`trace`), which each form prints in its way: as lines, in columns, as JSON, as a
//! picture. A replay without a form has another player (`SessionPlayer` of `transcripts`); here are the same session and the same steps.
#![tactic(auto)]

mod columns;
mod drawing;
pub mod forms;
pub mod html;
mod json;
mod kernel;
mod layout;
mod listings;
mod markup;
mod page;
mod picture;
mod reasons;
pub mod records;
mod rows;
mod screen;
pub mod screen_player;
pub mod shown;
mod terms;
mod trace;
mod values;
mod waits;

pub use forms::{Form, Look, Names, Style};
pub use screen_player::ScreenPlayer;
pub use shown::{shown_of, with_waits};
