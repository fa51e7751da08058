//! What is told of a verdict.

ghost use Rattle.std.specs.Prelude.{◌≡◌, ◌<◌, ◌≤◌, ◌+◌, ◌++◌, None, IfOk, IfSome, codes, decimal, length, slice_index_or};
ghost use Rattle.schedule_lines.specs.Printed.{Prints};

use crate::executions::put_execution;
use crate::verdicts::Verdict;
use crate::{HistorySource, Notes};
use access_model::{GateError, Reply};
use diagnostics::{Marked, Text};
use histories::Played;
use schedule_lines::Output;
use std::alloc::{AllocError, Global};

/// What is said where a processor isn't known, and the verdict rests on it.
const UNKNOWN: &str =
    "\nnote: each processor '*' is taken as 0; that no other one makes the line possible was compared, and is not proved";

/// The units of groups of three digits.
const UNITS: [u64; 7] = [
    1_000_000_000_000_000_000,
    1_000_000_000_000_000,
    1_000_000_000_000,
    1_000_000_000,
    1_000_000,
    1_000,
    1,
];

/// The first line of a history that can't be.
#[derive(Drop)]
pub struct Impossible {
    /// Its number, from 1.
    pub line: u32,
    /// What a person is told of it.
    pub text: String,
}

/// What is told of a verdict.
#[derive(Drop)]
pub struct Told {
    /// What is written: of a history that is possible, the line that says so; else an execution that leads to its first line that can't be.
    pub text: Output,
    /// The first line that can't be; None if all can.
    pub fault: Option<Impossible>,
}

/// Tells a verdict on the history that a source has.
///
/// # Errors
///
/// `AllocError` if there was no memory for it.
pub fn tell<'a>(
    source: HistorySource<'a>,
    file: Option<&'a str>,
    notes: &Notes,
    verdict: &Verdict,
) -> Result<Told, AllocError>
    ensures possible { IfOk result (λ told. told.fault ≡ None → length verdict.now.history.markers.items ≤ verdict.now.judged.passed) }
    ensures impossible { IfOk result (λ told. IfSome told.fault (λ fault. verdict.now.judged.passed < length verdict.now.history.markers.items)) }
    ensures line { IfOk result (λ told. IfSome told.fault (λ fault. fault.line ≡ slice_index_or notes.now.lines.items verdict.now.judged.passed 0)) }
{
    let mut text = Output::new(source.alloc);
    if verdict.is_possible() {
        put_possible(notes, verdict, &mut text);
        text.settled()?;
        return Ok(Told { text, fault: None });
    }
    let line = first_line(notes, verdict);
    let fault = fault_of(source, file, notes, verdict)?;
    put_execution(source, notes, verdict, &mut text)?;
    Ok(Told {
        text,
        fault: Some(Impossible { line, text: fault }),
    })
}

/// The number of the first line that can't be; 0 if all can.
fn first_line(notes: &Notes, verdict: &Verdict) -> u32
    ensures { result ≡ slice_index_or notes.now.lines.items verdict.now.judged.passed 0 }
{
    match notes.lines.get(verdict.judged.passed as usize) {
        Some(line) => *line,
        None => 0,
    }
}

/// Puts `possible`, or `impossible at` and the number of the first line that can't be, on a line.
pub fn put_verdict(notes: &Notes, verdict: &Verdict, text: &mut Output)
    ensures possible { length verdict.now.history.markers.items ≤ verdict.now.judged.passed → Prints text.old text.new (codes "possible\n") }
    ensures impossible { verdict.now.judged.passed < length verdict.now.history.markers.items → Prints text.old text.new
        (codes "impossible at " ++ decimal (slice_index_or notes.now.lines.items verdict.now.judged.passed 0) ++ codes "\n") }
{
    if verdict.is_possible() {
        text.line(b"possible");
        return;
    }
    text.numbered(b"impossible at ", u64::from(first_line(notes, verdict)));
    text.text(b"\n");
}

/// Puts the line that says that a history is possible.
fn put_possible(notes: &Notes, verdict: &Verdict, text: &mut Output) {
    text.text(b"possible: ");
    put_count(notes.calls, b" call", text);
    text.text(b"; ");
    put_count(verdict.judged.found() as u64, b" state", text);
    text.text(b"\n");
}

/// Puts a number of things, in groups of three digits, with `s` behind their name unless it is 1.
fn put_count(number: u64, name: &[u8], text: &mut Output) {
    put_grouped(number, text);
    text.text(name);
    if number != 1 {
        text.text(b"s");
    }
}

/// Puts a number in groups of three digits.
fn put_grouped(number: u64, text: &mut Output) {
    let mut is_begun = false;
    for unit in UNITS {
        let group = number.checked_div(unit).unwrap_or(0) % 1_000;
        if is_begun {
            text.text(b",");
            text.number(group / 100);
            text.number(group / 10 % 10);
            text.number(group % 10);
        } else if group > 0 || unit == 1 {
            is_begun = true;
            text.number(group);
        }
    }
}

/// What is told of the first line that can't be: what could have been answered there, and how many states are possible before it.
fn fault_of<'a>(
    source: HistorySource<'a>,
    file: Option<&'a str>,
    notes: &Notes,
    verdict: &Verdict,
) -> Result<String, AllocError> {
    let alloc = source.alloc;
    let number = first_line(notes, verdict);
    let line = source.line(number);
    let before = Before::of(alloc, verdict)?;
    let help = before.help(alloc)?;
    let marked = Marked {
        file,
        number,
        line,
        before: 0,
        length: line.len(),
        error: "no execution has this line",
        help: help.as_str(),
    };
    let marked = marked.told(alloc)?;
    let mut text = Text::new(alloc);
    text.put(marked.as_str());
    if notes.has_unknown {
        text.put(UNKNOWN);
    }
    before.put_note(&mut text);
    text.ended()
}

/// What is possible right before the first line that can't be.
#[derive(Drop)]
struct Before {
    /// Whose call returns there.
    task: u8,
    /// In how many states that may be.
    states: u64,
    /// What the call has answered in them, each answer once.
    answers: Vec<Option<Result<Reply, GateError>>>,
}

impl Before {
    /// Finds it among all states of a verdict.
    fn of(alloc: Global, verdict: &Verdict) -> Result<Before, AllocError> {
        let Verdict { history, judged } = verdict;
        let states = judged.states();
        let played = Played { history, alloc };
        let task = match history.markers().get(judged.passed as usize) {
            Some(marker) => marker.task(),
            None => 0,
        };
        let mut before = Before {
            task,
            states: 0,
            answers: Vec::new(alloc),
        };
        for at in 0..states.len() {
            if states.passed(at) == judged.passed {
                before.states = before.states.saturating_add(1);
                before.add(played.answer(states, at, task))?;
            }
        }
        Ok(before)
    }

    /// Adds an answer that wasn't there.
    fn add(&mut self, answer: Option<Result<Reply, GateError>>) -> Result<(), AllocError> {
        if answer.is_some() && !self.answers.contains(&answer) {
            self.answers.push(answer)?;
        }
        Ok(())
    }

    /// Tells what the call could have answered.
    fn help(&self, alloc: Global) -> Result<String, AllocError> {
        let mut help = Text::new(alloc);
        if self.answers.is_empty() {
            help.put("here ");
            help.put(self.task);
            help.put(" can't return yet: its call is answered in no execution so far");
            return help.ended();
        }
        let mut between = "here ";
        for answer in &self.answers {
            help.put(between);
            if between == "here " {
                help.put(self.task);
                help.put(" can return ");
            }
            put_answer(alloc, *answer, &mut help)?;
            between = " or ";
        }
        help.ended()
    }

    /// Tells how many states there are.
    fn put_note(&self, text: &mut Text) {
        text.put("\nnote: ");
        text.put(self.states);
        text.put(if self.states == 1 {
            " state is possible before it; this execution leads there:"
        } else {
            " states are possible before it; this execution leads to one:"
        });
    }
}

/// Puts an answer as a line of the record tells it.
fn put_answer(
    alloc: Global,
    answer: Option<Result<Reply, GateError>>,
    text: &mut Text,
) -> Result<(), AllocError> {
    let mut line = Output::new(alloc);
    match answer {
        // How many blocks are used is no part of a record.
        Some(Ok(Reply::Tree)) | None => line.text(b"0 ok"),
        Some(answer) => line.answer(0, answer, 0),
    }
    line.settled()?;
    text.put("'");
    text.bytes(line.bytes.as_slice().get(2..).unwrap_or(b""));
    text.put("'");
    Ok(())
}
