//! The operations that a recorded call stands for.

ghost use Rattle.std.specs.Prelude.{◌≡◌, ◌<◌, true, length, Ok, IfOk, IfErr};
ghost use Rattle.history_files.specs.Faults.{IsMemory, IsToldOrMemory};
ghost use Rattle.race_files.specs.Faults.{IsToldOrMemory as IsRaceToldOrMemory};
ghost use Rattle.history_files.specs.Operations.{behind_next, ends_operation, has_processor, is_unknown, operation_lines, shown_words, without_end, word_text};
ghost use Rattle.history_files.specs.Records.{row_among, task_of};
ghost use Rattle.race_files.specs.Left.{calls_left, lines_in};
ghost use Rattle.schedule_lines.specs.Printed.{Prints};
ghost use Rattle.history_files.specs.declared.operations.Behind.TheVariants.{Nothing};

use crate::faults::HistoryFault;
use race_files::{Calls, Lines, RaceFault};
use races::{CALLS, Call};
use schedule_lines::numbers::{is_digits, number_of};
use schedule_lines::words::{after_word, first_word, is_word, word_count};
use schedule_lines::{Fault, Output};
use schedule_text::Verb;
use std::alloc::{AllocError, Global};
use transcripts::no_memory;

/// The operations of a recorded call, as a race has them: lines on its task, one for each.
#[derive(Drop)]
pub struct Operations {
    pub lines: Output,
    /// Whether the processor of one of them isn't known. It stands as 0 in its line.
    pub has_unknown: bool,
}

impl Operations {
    /// Splits a line on a task into lines of its operations, which end with a word that ends with `;`. Where `*` stands for a processor, 0 does.
    ///
    /// # Errors
    ///
    /// `AllocError` if there was no memory for them.
    #[tactic(auto, unfolding(crate::specs::Operations::operation_lines))]
    pub fn of(alloc: Global, line: &[u8]) -> Result<Operations, AllocError>
        ensures { IfOk result (λ operations. operations.lines.bytes.items ≡ operation_lines line.now) }
    {
        let mut lines = Output::new(alloc);
        let task = first_word(line);
        lines.text(task);
        let has_unknown = put_words(
            task,
            word_count(line).saturating_sub(1),
            after_word(line),
            &mut lines,
        );
        lines.text(b"\n");
        lines.settled()?;
        Ok(Operations { lines, has_unknown })
    }

    /// Reads the operations, as those of a task among so many.
    ///
    /// # Errors
    ///
    /// The first fault of their lines, or that they are none.
    pub fn read(
        &self,
        alloc: Global,
        tasks: u8,
        task: u8,
    ) -> Result<[Option<Call>; CALLS], HistoryFault>
        ensures read { IfOk result (λ row. row_among task (calls_left tasks (lines_in 1048576 self.now.lines.bytes.items)) ≡ Ok row) }
        ensures fault { IfErr result (IsToldOrMemory (row_among task (calls_left tasks (lines_in 1048576 self.now.lines.bytes.items)))) }
    {
        let calls = self.calls(alloc, tasks)?;
        match calls.race.calls_of(task) {
            Some(row) if row[0].is_some() => Ok(*row),
            _ => Err(HistoryFault::Race(RaceFault::CallExpected)),
        }
    }

    /// Reads the operations, with their lines.
    ///
    /// # Errors
    ///
    /// The first fault of their lines.
    pub fn calls(&self, alloc: Global, tasks: u8) -> Result<Calls, RaceFault>
        ensures read { IfOk result (λ calls. calls_left tasks (lines_in 1048576 self.now.lines.bytes.items) ≡ Ok calls.race.calls.items) }
        ensures fault { IfErr result (IsRaceToldOrMemory (calls_left tasks (lines_in 1048576 self.now.lines.bytes.items))) }
    {
        Calls::read(alloc, tasks, &mut Lines::new(self.lines.bytes.as_slice()))
    }
}

/// What a word of an operation stands behind: the second argument of some commands is a processor.
#[derive(Clone, Copy)]
enum Behind {
    /// No command that takes a processor.
    Nothing,
    /// Such a command.
    Command,
    /// Such a command's first argument.
    First,
}

/// Puts so many words of a line on a task as a race has them. Whether a processor isn't known.
fn put_words(task: &[u8], count: usize, words: &[u8], lines: &mut Output) -> bool
    ensures { Prints lines.old lines.new (shown_words task.now count Nothing words.now) }
{
    let mut has_unknown = false;
    let mut behind = Behind::Nothing;
    let mut rest = words;
    for taken in 0..count {
        let _ = taken;
        let word = first_word(rest);
        has_unknown |= is_unknown(behind, without_end(word));
        put_word(task, behind, word, lines);
        behind = behind_next(behind, word);
        rest = after_word(rest);
    }
    has_unknown
}

/// Puts a word, and behind the last one of an operation the next line.
fn put_word(task: &[u8], behind: Behind, word: &[u8], lines: &mut Output)
    ensures { Prints lines.old lines.new (word_text task.now behind word.now) }
{
    lines.text(b" ");
    if is_unknown(behind, without_end(word)) {
        lines.text(b"0");
    } else {
        lines.text(without_end(word));
    }
    if ends_operation(word) {
        lines.text(b"\n");
        lines.text(task);
    }
}

/// What the next word stands behind.
fn behind_next(behind: Behind, word: &[u8]) -> Behind
    ensures { result ≡ behind_next behind word.now }
{
    if ends_operation(word) {
        return Behind::Nothing;
    }
    match behind {
        Behind::Nothing if has_processor(Verb::of(word)) => Behind::Command,
        Behind::Command => Behind::First,
        Behind::Nothing | Behind::First => Behind::Nothing,
    }
}

/// Whether the second argument of a command is a processor.
fn has_processor(verb: Option<Verb>) -> bool
    ensures { result ≡ has_processor verb }
{
    matches!(
        verb,
        Some(
            Verb::Want
                | Verb::TryWant
                | Verb::WantWrite
                | Verb::Drop
                | Verb::DropWrite
                | Verb::Start
                | Verb::TryStart
                | Verb::End
                | Verb::Close
                | Verb::TryClose
        )
    )
}

/// Whether an operation ends with a word: the word ends with `;`, which is no part of the operation.
#[tactic(auto, unfolding(crate::specs::Operations::ends_operation))]
fn ends_operation(word: &[u8]) -> bool
    ensures is { result ≡ ends_operation word.now }
    ensures some { result ≡ true → 0 < length word.now }
{
    !word.is_empty() && word[word.len() - 1] == b';'
}

/// The word of the operation.
#[tactic(auto, unfolding(crate::specs::Operations::without_end))]
fn without_end(word: &[u8]) -> &[u8]
    ensures { result.now ≡ without_end word.now }
{
    if ends_operation(word) {
        &word[..word.len() - 1]
    } else {
        word
    }
}

/// Whether a word is `*` in the place of a processor.
fn is_unknown(behind: Behind, word: &[u8]) -> bool
    ensures { result ≡ is_unknown behind word.now }
{
    matches!(behind, Behind::First) && is_word(word, "*")
}

/// That memory was refused.
pub(crate) fn refused(error: AllocError) -> HistoryFault
    ensures { IsMemory result }
{
    HistoryFault::Race(RaceFault::Schedule(no_memory(error)))
}

/// The task of a line, among so many.
///
/// # Errors
///
/// If it begins with no number, or there is no such task.
#[tactic(auto, unfolding(crate::specs::Records::task_of))]
pub(crate) fn task_of(line: &[u8], tasks: u8) -> Result<u8, Fault>
    ensures { result ≡ task_of tasks line.now }
{
    let word = first_word(line);
    if !is_digits(word) {
        return Err(Fault::UnknownCommand);
    }
    match number_of(word) {
        Some(task) if task < u32::from(tasks) => Ok(task as u8),
        _ => Err(Fault::NoSuchTask),
    }
}
