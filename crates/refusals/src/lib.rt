//! What each refusal of each call means, what the state is then, what to do next and what never to do, and how to find who is in the way on a real
//! system: one table, which the program explains from, and of which the page on refusals has the text.
#![tactic(auto)]

mod calls;
mod causes;
mod explaining;
mod rows;
mod table;

pub use explaining::run_explanation;
