//! What a person is told of a faulty line of a schedule or a race: `FILE:3:3: error: unknown command 'wnat'`, the line with a caret under the words
//! at fault, and how to mend it. The faults themselves are those of `schedule_text` and `race_files`; here is only what helps.
#![tactic(auto)]

mod contexts;
mod diagnoses;
mod forms;
mod hints;
mod nearest;
mod places;
mod race_hints;
mod texts;

pub use contexts::Context;
pub use diagnoses::{Faulty, Marked, diagnosis, tell_faulty};
pub use nearest::Nearest;
pub use texts::Text;
