//! Gates that play an execution of a history, and print it.

use crate::{HistorySource, Operations};
use access_model::{GateError, Reply};
use gate_core::Core;
use gate_transitions::Progress;
use histories::Marker;
use race_files::Calls;
use races::{CALLS, Call, CallAnswers, call_in};
use schedule_lines::Output;
use std::alloc::{AllocError, Global};
use transcripts::Session;

/// What a call answers.
type Answer = Result<Reply, GateError>;

/// What a task has under way.
#[derive(Drop)]
struct Seat {
    row: [Option<Call>; 8],
    course: CallAnswers,
    /// The operations of the row, with their lines.
    calls: Option<Calls>,
}

impl Seat {
    /// A task that has nothing under way.
    fn idle() -> Seat {
        Seat {
            row: [None; CALLS],
            course: CallAnswers::new(),
            calls: None,
        }
    }
}

/// Gates that play an execution of a history, and print it.
#[derive(Drop)]
pub(crate) struct ExecutionPrinter {
    alloc: Global,
    session: Session<Core>,
    seats: Vec<Seat>,
}

impl ExecutionPrinter {
    /// Sets the gates of a history up, for so many tasks; None as `HistorySource::gates`.
    pub(crate) fn new(
        source: HistorySource<'_>,
        tasks: u8,
    ) -> Result<Option<ExecutionPrinter>, AllocError> {
        let Some(session) = source.gates()? else {
            return Ok(None);
        };
        let mut seats = Vec::new(source.alloc);
        for _ in 0..tasks {
            seats.push(Seat::idle())?;
        }
        Ok(Some(ExecutionPrinter {
            alloc: source.alloc,
            session,
            seats,
        }))
    }

    /// Takes a marker, which stands on this line, and prints it as a comment.
    pub(crate) fn mark(
        &mut self,
        marker: Marker,
        line: &[u8],
        text: &mut Output,
    ) -> Result<(), AllocError> {
        text.text(b"# ");
        text.line(line);
        let task = marker.task();
        let seat = match marker {
            Marker::Begins(_, row) => {
                let operations = Operations::of(self.alloc, line)?;
                Seat {
                    row,
                    course: CallAnswers::new(),
                    calls: operations.calls(self.alloc, self.session.tasks()).ok(),
                }
            }
            Marker::Returns(_, _) => Seat::idle(),
        };
        if let Some(old) = self.seats.get_mut(usize::from(task)) {
            *old = seat;
        }
        Ok(())
    }

    /// Makes the next move of a task, and prints it.
    pub(crate) fn move_task(&mut self, task: u8, text: &mut Output) {
        let Some(seat) = self.seats.get_mut(usize::from(task)) else {
            return;
        };
        let Some(call) = call_in(&seat.row, &seat.course) else {
            return;
        };
        let answer = if self.session.gates().is_under_way(task) {
            do_step(&mut self.session, task, call, text)
        } else {
            if let Some(calls) = &seat.calls {
                text.line(calls.line(task, seat.course.turn));
            }
            match self.session.try_begin(task, call.op) {
                Ok(()) => None,
                Err(refusal) => Some(Err(refusal)),
            }
        };
        seat.course = seat.course.after(&seat.row, call, answer);
    }
}

/// Does the next step of a task, in this call of its, and prints it. What it answers, if it does.
fn do_step(session: &mut Session<Core>, task: u8, call: Call, text: &mut Output) -> Option<Answer> {
    let hook = session.hook_answer(task, call.failure);
    text.number(u64::from(task));
    text.text(b" step");
    if let Err(code) = hook {
        text.numbered(b" ", u64::from(code));
    }
    text.text(b"\n");
    match session.step_judged(task, hook).step.progress {
        Progress::Done(answer) => Some(answer),
        _ => None,
    }
}
