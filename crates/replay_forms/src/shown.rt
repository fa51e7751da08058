//! Schedules that are shown in memory, on gates that were set up.

use crate::forms::{Form, Look, Style};
use crate::screen_player::ScreenPlayer;
use access_model::GateError;
use gate_transitions::Driver;
use schedule_lines::{Fault, FaultKind, Output};
use std::alloc::{AllocError, Global};
use transcripts::{LineReplay, Session};

/// Returns what a replay of a schedule shows, on gates that were set up; None if a line of it has a fault. No line has one in a schedule that was made
/// of moves of such gates.
///
/// # Errors
///
/// `AllocError` if there was no memory for it.
pub fn shown_of<D: Driver>(
    alloc: Global,
    look: Look,
    session: Session<D>,
    schedule: &Output,
) -> Result<Option<Vec<u8>>, AllocError> {
    schedule.settled()?;
    let mut replay = LineReplay::new(alloc, ScreenPlayer::over(alloc, look, session))?;
    let mut shown = Vec::new(alloc);
    let mut lines = schedule.bytes.as_slice();
    match replay.do_lines(&mut lines, &mut shown) {
        Ok(()) => Ok(Some(shown)),
        Err(fault) if is_no_memory(fault.kind) => Err(AllocError),
        Err(_) => Ok(None),
    }
}

/// Whether a fault of a replay that writes to memory says that there was none. A `Vec` takes all that is written to it, unless it can't grow.
fn is_no_memory(kind: FaultKind) -> bool {
    matches!(
        kind,
        FaultKind::Schedule(Fault::WriteFailed | Fault::Refused(GateError::NoMemory))
    )
}

/// Returns a schedule, and behind it a comment for each task whose last step has to wait, on gates that were set up: for what, and for whom.
pub fn with_waits<D: Driver>(
    alloc: Global,
    style: Style,
    session: Session<D>,
    mut schedule: Output,
) -> Result<Output, AllocError> {
    let look = Look {
        form: Form::Waits,
        style,
    };
    if let Some(waits) = shown_of(alloc, look, session, &schedule)? {
        schedule.text(waits.as_slice());
    }
    schedule.settled()?;
    Ok(schedule)
}
