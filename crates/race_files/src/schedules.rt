//! The schedule of an outcome.

use crate::calls::Calls;
use access_model::{GateError, Reply};
use gate_core::Core;
use gate_transitions::{Progress, Step};
use races::{CallAnswers, Race};
use schedule_lines::Output;
use std::alloc::{AllocError, Global};
use transcripts::Session;

/// What a call answers.
type Answer = Result<Reply, GateError>;

/// Moves gates that were set up as these movers do, and prints a line for each move.
pub(crate) fn print_schedule(
    alloc: Global,
    calls: &Calls,
    session: &mut Session<Core>,
    movers: &[u8],
    out: &mut Output,
) -> Result<(), AllocError> {
    let mut courses = vec![in alloc; CallAnswers::new(); usize::from(calls.race.tasks)]?;
    for task in movers {
        let task = *task;
        let Some(course) = courses.get_mut(usize::from(task)) else {
            continue;
        };
        let answer = print_move(calls, session, task, course.turn, out);
        *course = course_after(&calls.race, task, *course, answer);
    }
    out.settled()
}

/// Moves gates that were set up as these movers do, and returns moves that lead to the same answers, where each task begins a call right before the
/// call's first step.
pub(crate) fn begin_late(
    alloc: Global,
    calls: &Calls,
    session: &mut Session<Core>,
    movers: &[u8],
) -> Result<Vec<u8>, AllocError> {
    let mut courses = vec![in alloc; CallAnswers::new(); usize::from(calls.race.tasks)]?;
    let mut held = vec![in alloc; false; usize::from(calls.race.tasks)]?;
    let mut late = Vec::new(alloc);
    let mut unread = Output::new(alloc);
    for task in movers {
        let task = *task;
        let Some(course) = courses.get_mut(usize::from(task)) else {
            continue;
        };
        let was_idle = !session.gates().is_under_way(task);
        let answer = print_move(calls, session, task, course.turn, &mut unread);
        *course = course_after(&calls.race, task, *course, answer);
        let begins = was_idle && session.gates().is_under_way(task);
        hold_or_move(begins, task, held.as_mut_slice(), &mut late)?;
    }
    Ok(late)
}

/// Holds the beginning of a task; or adds its move, behind its beginning if that is held.
fn hold_or_move(
    begins: bool,
    task: u8,
    held: &mut [bool],
    moves: &mut Vec<u8>,
) -> Result<(), AllocError> {
    if let Some(is_held) = held.get_mut(usize::from(task)) {
        if *is_held {
            moves.push(task)?;
        }
        *is_held = begins;
    }
    if !begins {
        moves.push(task)?;
    }
    Ok(())
}

/// How far a task has come whose next move answered this, or nothing.
fn course_after(race: &Race, task: u8, course: CallAnswers, answer: Option<Answer>) -> CallAnswers {
    match (race.calls_of(task), race.call_after(task, course)) {
        (Some(calls), Some(call)) => course.after(calls, call, answer),
        _ => course,
    }
}

/// Makes the next move of a task, which is in this call of its, or begins it. What it answers, if it does.
fn print_move(
    calls: &Calls,
    session: &mut Session<Core>,
    task: u8,
    turn: u8,
    out: &mut Output,
) -> Option<Answer> {
    let call = calls.call(task, turn)?;
    if !session.gates().is_under_way(task) {
        out.line(calls.line(task, turn));
        return match session.try_begin(task, call.op) {
            Ok(()) => None,
            Err(refusal) => Some(Err(refusal)),
        };
    }
    let hook = session.hook_answer(task, call.failure);
    print_step(task, hook, out);
    let judged = session.step_judged(task, hook);
    if !judged.is_allowed {
        print_forbidden(task, judged.step, out);
    }
    match judged.step.progress {
        Progress::Done(answer) => Some(answer),
        _ => None,
    }
}

/// Prints, as a comment, that the model forbids the action of a step.
fn print_forbidden(task: u8, step: Step, out: &mut Output) {
    if let Some(event) = step.event {
        out.text(b"#   the model forbids this action: ");
        out.event_line(task, event, step.action, false);
    }
}

/// Prints the next step of a task.
fn print_step(task: u8, hook: Result<(), u16>, out: &mut Output) {
    out.number(u64::from(task));
    out.text(b" step");
    if let Err(code) = hook {
        out.numbered(b" ", u64::from(code));
    }
    out.text(b"\n");
}
