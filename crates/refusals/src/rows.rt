//! The rows of the table.

use crate::causes::{Cause, cause_of};

/// What is to be known of a refusal of some calls.
#[derive(Clone, Copy)]
pub(crate) struct RefusalRow {
    /// The calls, each by its first name, with a blank between two.
    pub(crate) calls: &'static str,
    pub(crate) cause: &'static Cause,
    /// When, in a few words, if these calls have several such refusals.
    pub(crate) when: &'static str,
    /// On a line each, behind its label: what the refusal means, the state now, what who calls the library does next, what never, and what a script does
    /// on a real system. A text is sentences, with code in backticks.
    pub(crate) texts: &'static str,
}

impl RefusalRow {
    /// Reads a row: its first line is `CALL..: REFUSAL` or `CALL..: REFUSAL, WHEN`, and each line behind it a text. None if it is no such row.
    pub(crate) fn read(row: &'static str) -> Option<RefusalRow> {
        let (head, texts) = row.split_once('\n')?;
        let (calls, refused) = head.split_once(": ")?;
        let (name, when) = refused.split_once(", ").unwrap_or((refused, ""));
        let cause = cause_of(name)?;
        Some(RefusalRow {
            calls,
            cause,
            when,
            texts,
        })
    }
}
