//! The text of an outcome.

ghost use Rattle.std.specs.Prelude.{◌≡◌, All, IfOk, slice_get, take};
ghost use Rattle.schedule_lines.specs.Printed.{Prints};
ghost use Rattle.race_outcomes.specs.Texts.{NumberFits, NumbersFit, answer_part, told_answer, course_text, outcome_text};

use access_model::{GateError, Reply};
use races::{CALLS, CallAnswers, Race};
use schedule_lines::Output;
use std::alloc::{AllocError, Global};

/// The text of an outcome: what the calls of each task have answered, task by task, `T skipped` for each that was skipped, and `T waits` for
/// each task that has calls left; all joined by `; `. Each number in it can be read back.
#[tactic(auto, unfolding(crate::specs::Texts::outcome_text))]
pub fn outcome_text(
    alloc: Global,
    race: &Race,
    courses: &[CallAnswers],
) -> Result<Vec<u8>, AllocError>
    ensures text { IfOk result (λ text. text.items ≡ outcome_text race.now.tasks race.now.calls.items courses.now) }
    ensures numbers { IfOk result (λ text. NumbersFit race.now.tasks courses.now) }
{
    let mut out = Output::new(alloc);
    for task in 0..race.tasks {
        if let Some(course) = course_of(courses, task) {
            print_course(&mut out, race, task, course);
        }
    }
    out.settled()?;
    let text = out.bytes.as_slice();
    Vec::from_slice(alloc, &text[2.min(text.len())..])
}

/// What a task's calls have answered, if there is such a task.
fn course_of(courses: &[CallAnswers], task: u8) -> Option<CallAnswers>
    ensures { result ≡ slice_get courses.now task }
{
    courses.get(task as usize).copied()
}

/// Prints what the calls of a task have answered, or that they were skipped, each behind `; `, and that it waits, where it has calls left.
#[tactic(auto, unfolding(crate::specs::Texts::course_text))]
fn print_course(out: &mut Output, race: &Race, task: u8, course: CallAnswers)
    ensures printed { Prints out.old out.new (course_text race.now.calls.items task course) }
    ensures numbers { All NumberFits (take course.turn course.answers) }
{
    let behind = usize::from(course.turn).min(CALLS);
    for turn in 0..behind {
        print_answer(out, task, course.answers[turn]);
    }
    if let Some(_) = race.call_after(task, course) {
        out.numbered(b"; ", u64::from(task));
        out.text(b" waits");
    }
}

/// Prints what a call of a task has answered, or that it was skipped, behind `; `.
fn print_answer(out: &mut Output, task: u8, answer: Option<Result<Reply, GateError>>)
    ensures printed { Prints out.old out.new (answer_part task answer) }
    ensures numbers { NumberFits answer }
{
    match answer {
        Some(answer) => {
            out.text(b"; ");
            out.answer(task, without_blocks(answer), 0);
        }
        None => {
            out.numbered(b"; ", u64::from(task));
            out.text(b" skipped");
        }
    }
}

/// Returns the answer, but of a snapshot only that it was taken: how many blocks it found is no part of the outcome.
fn without_blocks(answer: Result<Reply, GateError>) -> Result<Reply, GateError>
    ensures { result ≡ told_answer answer }
{
    match answer {
        Ok(Reply::Tree) => Ok(Reply::Unit),
        _ => answer,
    }
}
