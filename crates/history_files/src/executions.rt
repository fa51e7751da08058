//! The execution that leads to the first line of a history that can't be.

use crate::printers::ExecutionPrinter;
use crate::verdicts::Verdict;
use crate::{HistorySource, Notes, line_at};
use race_files::Lines;
use schedule_lines::Output;
use std::alloc::AllocError;

/// Puts an execution that leads to one of the states in which most markers have passed, as lines that a replay takes: the set-up, a beginning as it
/// stands in the history, or `T step`; each marker is a comment, where it comes.
///
/// # Errors
///
/// `AllocError` if there was no memory for it.
pub fn put_execution(
    source: HistorySource<'_>,
    notes: &Notes,
    verdict: &Verdict,
    text: &mut Output,
) -> Result<(), AllocError> {
    let Verdict { history, judged } = verdict;
    let movers = judged.movers(source.alloc)?;
    text.text(source.set_up_lines());
    let Some(mut printer) = ExecutionPrinter::new(source, history.tasks())? else {
        return text.settled();
    };
    let mut lines = Lines::new(source.bytes);
    let mut passed: usize = 0;
    for mover in &movers {
        if *mover < history.tasks() {
            printer.move_task(*mover, text);
            continue;
        }
        if let Some(marker) = history.markers().get(passed)
            && let Some(line) = notes.lines.get(passed)
        {
            printer.mark(*marker, line_at(&mut lines, *line), text)?;
        }
        passed = passed.saturating_add(1);
    }
    text.settled()
}
