//! Tests of the gates: each public call as its user makes it, hooks that fail, tasks that are lost, what docs/refusals.md advises, and tasks
//! in threads; and of the model and the core below. They need public calls alone. What a contract says of all inputs has no test here.
#![tactic(auto)]

#[cfg(test)]
mod cores;
#[cfg(test)]
mod models;
#[cfg(test)]
mod tests;
