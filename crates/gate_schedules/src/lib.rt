//! Whole executions, and what holds of each of them: the theorem (`schedules`); below it the laws of all operations (`operations`) and of the
//! calls at the tree (`trees`).
//!
//! In `proofs` a folder says what its lemmas are of:
//!
//! - `schedules`: whole executions, from the laws of steps to the clauses of the theorem.
//! - `operations`: one folder for each operation, or for a few of a kind: `want` (and drop), `change`, `remount`, `freeze`, `thaw`, `readers`
//!   (start and end), `callback`, `write_access`, `calls` (create, remove, grow, move, fault, flush, open), `snapshot`, `close`.
//!   `AllOperations` knows them all. `deadlocks`: who comes to a reply, and who is blocked.
//! - `mounts`, `levels`, `writers` (freezes and thaws at a level), `trees/worlds`: what several operations do there; `trees`: the tree alone.
//! - `frames`: what a step leaves alone, conjunct by conjunct of the invariant, and what the owner of `umount` relies on.
//! - `traces`: what a trace tells from step to step.
//!
//! In the folder of an operation a file says what it proves: `Events`, that each step keeps the invariant (a want's loads are in `Loads`); `Parts`,
//! what a step leaves of each part; `Runs`, what it is of each level; `Fits`, what comes after it; `Trace`, what a trace tells; `Causes` and
//! `Waits`, why a call is refused or waits; `Progress`, that steps come nearer to the reply; `Laws`, all of these as one value.
#![tactic(auto)]

pub mod operations;
pub mod schedules;
pub mod trees;

pub use schedules::{every_schedule, every_schedule_keeps_the_rule};
