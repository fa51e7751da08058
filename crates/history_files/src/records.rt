//! What was recorded: the lines behind `history`.

ghost use Rattle.std.specs.Prelude.{◌≡◌, ◌∷◌, ◌++◌, ◌+◌, ◌≤◌, ◌⊎◌, [], Ok, Some, IfOk, IfErr, OnOk, slice_get};
ghost use Rattle.history_files.specs.Records.{begun_at, failure_of, hook_in, is_blank, nothing_read, reading_after, reading_left, row_of, task_line, with_begin, with_hook, with_marker, with_return};
ghost use Rattle.history_files.specs.Answers.{recorded_of};
ghost use Rattle.history_files.specs.Faults.{FailsInRecord, IsMemory, IsToldOrMemory};
ghost use Rattle.history_files.specs.Readings.{read_in};
ghost use Rattle.race_files.specs.Left.{left_in, line_count};
ghost use Rattle.schedule_text.specs.Parsing.{parsed};

use crate::answers::{begins_answer, recorded_of};
use crate::faults::HistoryFault;
use crate::hooks::{failing, failure_of};
use crate::operations::{Operations, refused, task_of};
use histories::Marker;
use race_files::{Lines, RaceFault};
use schedule_lines::words::{after_word, first_word, is_word};
use schedule_text::{HookFailure, Line, parse};
use std::alloc::{AllocError, Global};

/// What else is to be known of a record than its markers.
#[derive(Drop)]
pub struct Notes {
    /// The number of the line of each marker.
    pub lines: Vec<u32>,
    /// How many calls began.
    pub calls: u64,
    /// Whether the processor of some operation isn't known.
    pub has_unknown: bool,
}

/// What was recorded of the calls of so many tasks.
#[derive(Drop)]
pub struct Record {
    pub tasks: u8,
    pub markers: Vec<Marker>,
    pub notes: Notes,
    /// The index of the marker by which each task's call began that is under way.
    begun: Vec<Option<usize>>,
}

impl Record {
    /// Takes all lines behind `history`, which has this number, where there are so many tasks.
    ///
    /// # Errors
    ///
    /// The fault of the first line that has one, at which it stops, or that memory was refused.
    pub fn read(
        alloc: Global,
        tasks: u8,
        history: u32,
        lines: &mut Lines<'_>,
    ) -> Result<Record, HistoryFault>
        requires first { lines.old.done ≡ 0 }
        requires few { history ≤ 1048576 }
        ensures read { IfOk result (λ it. reading_left tasks (history + 1) (left_in lines.old) ≡ Ok (read_in it)) }
        ensures count { line_count lines.new ≡ line_count lines.old }
        ensures fault { IfErr result (λ fault. FailsInRecord tasks (history + 1) (left_in lines.old) (left_in lines.new) fault ⊎ IsMemory fault) }
    {
        let mut reading = match Record::new(alloc, tasks) {
            Ok(empty) => empty,
            Err(error) => return Err(refused(error)),
        };
        while let Some(line) = lines.line()? {
            reading.read_line(alloc, line, history + lines.number())?;
            lines.take();
        }
        Ok(reading)
    }

    fn new(alloc: Global, tasks: u8) -> Result<Record, AllocError>
        ensures tasks { IfOk result (λ it. it.tasks ≡ tasks) }
        ensures nothing { IfOk result (λ it. read_in it ≡ nothing_read tasks) }
    {
        Ok(Record {
            tasks,
            markers: Vec::new(alloc),
            notes: Notes {
                lines: Vec::new(alloc),
                calls: 0,
                has_unknown: false,
            },
            begun: vec![in alloc; None; usize::from(tasks)]?,
        })
    }

    /// Reads the line of this number.
    #[tactic(auto, unfolding(crate::specs::Records::reading_after))]
    fn read_line(&mut self, alloc: Global, line: &[u8], number: u32) -> Result<(), HistoryFault>
        ensures tasks { self.new.tasks ≡ self.old.tasks }
        ensures read { OnOk result (reading_after self.old.tasks (read_in self.old) number line.now ≡ Ok (read_in self.new)) }
        ensures fault { IfErr result (IsToldOrMemory (reading_after self.old.tasks (read_in self.old) number line.now)) }
    {
        if is_blank(line, self.tasks) {
            return Ok(());
        }
        let task = task_of(line, self.tasks)?;
        self.read_of_task(alloc, task, line, number)
    }

    /// Reads a line on a task.
    #[tactic(auto, unfolding(crate::specs::Records::task_line))]
    fn read_of_task(
        &mut self,
        alloc: Global,
        task: u8,
        line: &[u8],
        number: u32,
    ) -> Result<(), HistoryFault>
        ensures tasks { self.new.tasks ≡ self.old.tasks }
        ensures read { OnOk result (task_line self.old.tasks (read_in self.old) number task line.now ≡ Ok (read_in self.new)) }
        ensures fault { IfErr result (IsToldOrMemory (task_line self.old.tasks (read_in self.old) number task line.now)) }
    {
        let rest = after_word(line);
        if begins_answer(first_word(rest)) {
            self.read_return(task, rest, number)
        } else if is_word(first_word(rest), "hook") {
            self.read_hook(task, after_word(rest))
        } else {
            self.read_begin(alloc, task, line, number)
        }
    }

    /// Reads a line by which a task begins a call.
    fn read_begin(
        &mut self,
        alloc: Global,
        task: u8,
        line: &[u8],
        number: u32,
    ) -> Result<(), HistoryFault>
        ensures tasks { self.new.tasks ≡ self.old.tasks }
        ensures read { OnOk result (with_begin (read_in self.old) number task (row_of self.old.tasks task line.now) ≡ Ok (read_in self.new)) }
        ensures fault { IfErr result (IsToldOrMemory (with_begin (read_in self.old) number task (row_of self.old.tasks task line.now))) }
    {
        let operations = match Operations::of(alloc, line) {
            Ok(operations) => operations,
            Err(error) => return Err(refused(error)),
        };
        let row = operations.read(alloc, self.tasks, task)?;
        if self.begun_at(task).is_some() {
            return Err(HistoryFault::Race(RaceFault::UnderWay));
        }
        self.notes.has_unknown |= operations.has_unknown;
        self.notes.calls = self.notes.calls.saturating_add(1);
        let at = self.markers.len();
        self.add(task, Marker::Begins(task, row), number, Some(at))
    }

    /// Reads the words of a task's answer.
    fn read_return(&mut self, task: u8, words: &[u8], number: u32) -> Result<(), HistoryFault>
        ensures tasks { self.new.tasks ≡ self.old.tasks }
        ensures read { OnOk result (with_return (read_in self.old) number task (recorded_of words.now) ≡ Ok (read_in self.new)) }
        ensures fault { IfErr result (IsToldOrMemory (with_return (read_in self.old) number task (recorded_of words.now))) }
    {
        let Some(recorded) = recorded_of(words) else {
            return Err(HistoryFault::BadAnswer);
        };
        if self.begun_at(task).is_none() {
            return Err(HistoryFault::NothingUnderWay);
        }
        self.add(task, Marker::Returns(task, recorded), number, None)
    }

    /// Reads the words behind `hook`: this hook fails in the call that the task has under way.
    fn read_hook(&mut self, task: u8, words: &[u8]) -> Result<(), HistoryFault>
        ensures tasks { self.new.tasks ≡ self.old.tasks }
        ensures read { OnOk result (with_hook (read_in self.old) task (failure_of words.now) ≡ Ok (read_in self.new)) }
        ensures fault { IfErr result (IsToldOrMemory (with_hook (read_in self.old) task (failure_of words.now))) }
    {
        let failure = failure_of(words)?;
        let Some(at) = self.begun_at(task) else {
            return Err(HistoryFault::NothingUnderWay);
        };
        self.fail(at, failure)
    }

    /// A hook fails in the call that began by the marker at an index.
    fn fail(&mut self, at: usize, failure: HookFailure) -> Result<(), HistoryFault>
        ensures tasks { self.new.tasks ≡ self.old.tasks }
        ensures read { OnOk result (hook_in (read_in self.old) failure at (slice_get self.old.markers.items at) ≡ Ok (read_in self.new)) }
        ensures fault { IfErr result (IsToldOrMemory (hook_in (read_in self.old) failure at (slice_get self.old.markers.items at))) }
    {
        match self.markers.get(at) {
            Some(Marker::Begins(task, row)) => {
                self.markers[at] = Marker::Begins(*task, failing(row, failure)?);
                Ok(())
            }
            _ => Ok(()),
        }
    }

    /// The index of the marker by which a task's call began that is under way.
    fn begun_at(&self, task: u8) -> Option<usize>
        ensures { result ≡ begun_at (read_in self.now) task }
    {
        match self.begun.get(usize::from(task)) {
            Some(begun) => *begun,
            None => None,
        }
    }

    /// Adds a marker of a task, which stands at the line of this number. What is under way from there on began at this index, or nothing is.
    fn add(
        &mut self,
        task: u8,
        marker: Marker,
        number: u32,
        at: Option<usize>,
    ) -> Result<(), HistoryFault>
        ensures tasks { self.new.tasks ≡ self.old.tasks }
        ensures read { OnOk result (read_in self.new ≡ with_marker (read_in self.old) number task marker at) }
        ensures fault { IfErr result IsMemory }
    {
        if let Some(begun) = self.begun.get_mut(usize::from(task)) {
            *begun = at;
        }
        match self.push(marker, number) {
            Ok(()) => Ok(()),
            Err(error) => Err(refused(error)),
        }
    }

    fn push(&mut self, marker: Marker, number: u32) -> Result<(), AllocError>
        ensures tasks { self.new.tasks ≡ self.old.tasks }
        ensures begun { self.new.begun.items ≡ self.old.begun.items }
        ensures markers { OnOk result (self.new.markers.items ≡ self.old.markers.items ++ marker ∷ []) }
        ensures lines { OnOk result (self.new.notes.lines.items ≡ self.old.notes.lines.items ++ number ∷ []) }
    {
        self.markers.push(marker)?;
        self.notes.lines.push(number)?;
        Ok(())
    }
}

/// Whether a line is skipped: it is empty, or a comment.
fn is_blank(line: &[u8], tasks: u8) -> bool
    ensures { result ≡ is_blank (parsed line.now (Some tasks)) }
{
    matches!(parse(line, Some(tasks)), Ok(Line::Skipped))
}
