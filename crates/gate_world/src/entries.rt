//! What an execution is a list of. Definitions and proofs speak of these; no value of them is ever made.

use crate::operations::Op;

/// A transition of an execution: a task begins an operation, or does its next step, where a hook answers this.
pub enum Entry {
    Begins(u8, Op),
    Steps(u8, Result<(), u16>),
}
