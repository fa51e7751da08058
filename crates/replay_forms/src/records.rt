//! Records of the outcomes of a race, a JSON object on each line.

use crate::json::{List, Record};
use crate::page::text_of;
use schedule_lines::Output;
use std::alloc::Global;

/// Of how much a claim speaks.
#[derive(Clone, Copy)]
pub enum Searched {
    /// Of so many ends.
    Ends(u64),
    /// Of so many states.
    States(u64),
}

/// Prints how many states were searched, and how many outcomes there are; and whether these are all.
pub fn print_race(alloc: Global, states: u64, outcomes: u64, is_whole: bool, out: &mut Output) {
    let mut record = Record::of_kind(alloc, "race");
    record.number("states", states);
    record.number("outcomes", outcomes);
    record.flag("whole", is_whole);
    record.print(out);
}

/// Prints the verdict on a claim.
pub fn print_verdict(
    alloc: Global,
    claim: &[u8],
    holds: bool,
    searched: Searched,
    out: &mut Output,
) {
    let mut record = Record::of_kind(alloc, "verdict");
    record.text("claim", text_of(claim));
    record.flag("holds", holds);
    match searched {
        Searched::Ends(count) => record.number("ends", count),
        Searched::States(count) => record.number("states", count),
    }
    record.print(out);
}

/// Prints why a claim can't be judged.
pub fn print_fault(alloc: Global, claim: &[u8], why: &[u8], out: &mut Output) {
    let mut record = Record::of_kind(alloc, "verdict");
    record.text("claim", text_of(claim));
    record.text("error", text_of(why));
    record.print(out);
}

/// Prints an outcome, by its text: the answers, each behind its task, joined by `; `, and perhaps the final model behind ` -> `; and how many
/// final models there are, if that is known.
pub fn print_outcome(
    alloc: Global,
    number: u64,
    text: &[u8],
    models: Option<u64>,
    out: &mut Output,
) {
    let text = text_of(text);
    let mut record = Record::of_kind(alloc, "outcome");
    record.number("outcome", number);
    record.text("text", text);
    if let Some(models) = models {
        record.number("models", models);
    }
    let mut answers = List::new(alloc);
    let told = text.split(" -> ").next().unwrap_or(text);
    for answer in told.split("; ") {
        answers.object(answer_of(alloc, answer));
    }
    record.list("answers", answers);
    record.print(out);
}

/// An answer of an outcome, by its text, as `1 refused 16 Busy`.
fn answer_of(alloc: Global, text: &str) -> Record {
    let mut record = Record::new(alloc);
    let mut words = text.split(' ');
    record.number("task", number_of(words.next()));
    record.text("answer", words.next().unwrap_or(""));
    match words.next() {
        None => {}
        Some("node") => record.number("node", number_of(words.next())),
        Some("ran") => record.flag("ran", true),
        Some("none") => record.flag("ran", false),
        Some("hook") => record.number("hook", number_of(words.next())),
        Some(errno) => {
            record.number("errno", number_of(Some(errno)));
            record.text("name", words.next().unwrap_or(""));
        }
    }
    record
}

/// The number of a word; 0, where there is none.
fn number_of(word: Option<&str>) -> u64 {
    match word {
        Some(word) => word.parse::<u64>().unwrap_or(0),
        None => 0,
    }
}
