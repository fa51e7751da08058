//! What the tasks of a race call.

ghost use Rattle.std.specs.Prelude.{◌≡◌, ◌≤◌, ◌⊎◌, [], is_none, length, None, Some, Ok, Err, IfOk, IfErr, OnOk, slice_index_or};
ghost use Rattle.std.specs.List.{position};
ghost use Rattle.race_files.specs.Calls.{no_calls, count_of, is_named, is_unconditional, with_call, with_failure, added, failing, as_run, begin_line, hook_line, prefixed_line, calls_after};
ghost use Rattle.race_files.specs.Prefixes.{without_prefix};
ghost use Rattle.race_files.specs.Faults.{IsToldOrMemory};
ghost use Rattle.race_files.specs.Left.{calls_left, left_in, line_count};
ghost use Rattle.race_files.specs.FirstFaults.{FailsInCalls, IsMemory};
ghost use Rattle.schedule_text.specs.Parsing.{parsed};
ghost use Rattle.schedule_lines.specs.Printed.{Prints};
ghost use Rattle.schedule_lines.specs.declared.faults.Fault.TheVariants.{Refused};
ghost use Rattle.access_model.specs.declared.errors.GateError.TheVariants.{NoMemory};

use crate::faults::RaceFault;
use crate::lines::{Lines, is_claim, is_race};
use crate::prefixes::{
    Prefix, after_at, behind_after, command_at, has_prefix, print_without_prefix, retries_at,
    when_at,
};
use races::{CALLS, Call, CallName, Race, When};
use schedule_lines::words::{after_word, first_word};
use schedule_lines::{Fault, Output};
use schedule_text::{HookFailure, Line, Request, TaskCommand, parse};
use std::alloc::{AllocError, Global};
use transcripts::{no_memory, settled};

/// The line by which a task begins a call, as a schedule has it.
#[derive(Drop)]
pub struct CallLine {
    pub task: u8,
    /// Which of the task's calls it is, from 0.
    pub turn: u8,
    pub text: Vec<u8>,
}

/// What the tasks of a race call, and the lines that say so.
#[derive(Drop)]
pub struct Calls {
    pub race: Race,
    pub lines: Vec<CallLine>,
}

impl Calls {
    /// Takes all lines after `race`, where there are so many tasks. Its fault is that of the first line that has one, at which it stops, or
    /// that memory was refused.
    pub fn read(alloc: Global, tasks: u8, lines: &mut Lines<'_>) -> Result<Calls, RaceFault>
        ensures tasks { IfOk result (λ calls. calls.race.tasks ≡ tasks) }
        ensures read { IfOk result (λ calls. calls_left tasks (left_in lines.old) ≡ Ok calls.race.calls.items) }
        ensures count { line_count lines.new ≡ line_count lines.old }
        ensures fault { IfErr result (λ fault. FailsInCalls tasks (left_in lines.old) (left_in lines.new) fault ⊎ IsMemory fault) }
    {
        let mut calls = Calls::new(alloc, tasks).map_err(no_memory)?;
        while let Some(line) = lines.line()? {
            calls.read_line(alloc, line)?;
            lines.take();
        }
        Ok(calls)
    }

    fn new(alloc: Global, tasks: u8) -> Result<Calls, AllocError>
        ensures tasks { IfOk result (λ calls. calls.race.tasks ≡ tasks) }
        ensures none { IfOk result (λ calls. calls.race.calls.items ≡ no_calls tasks) }
    {
        let calls = vec![in alloc; [None; CALLS]; usize::from(tasks)]?;
        Ok(Calls {
            race: Race { tasks, calls },
            lines: Vec::new(alloc),
        })
    }

    /// A call of a task; None where it has no such call.
    pub fn call(&self, task: u8, turn: u8) -> Option<Call>
        ensures { result ≡ slice_index_or (slice_index_or self.now.race.calls.items task []) turn None }
    {
        let calls = self.race.calls_of(task)?;
        *calls.get(usize::from(turn))?
    }

    /// The line by which a task begins a call; empty where it has no such call.
    pub fn line(&self, task: u8, turn: u8) -> &[u8] {
        for line in &self.lines {
            if line.task == task && line.turn == turn {
                return line.text.as_slice();
            }
        }
        &[]
    }

    /// Reads a line after `race`.
    #[tactic(auto, unfolding(crate::specs::Calls::calls_after))]
    fn read_line(&mut self, alloc: Global, line: &[u8]) -> Result<(), RaceFault>
        ensures tasks { self.new.race.tasks ≡ self.old.race.tasks }
        ensures read { OnOk result (calls_after self.old.race.tasks self.old.race.calls.items line.now ≡ Ok self.new.race.calls.items) }
        ensures fault { IfErr result (IsToldOrMemory (calls_after self.old.race.tasks self.old.race.calls.items line.now)) }
    {
        if is_claim(line) {
            return Ok(());
        }
        if is_race(line)? {
            return Err(RaceFault::RaceTwice);
        }
        if first_word(after_word(line)) == b"hook".as_slice() {
            return self.read_hook(alloc, line);
        }
        if has_prefix(line) {
            return self.read_prefixed(alloc, line);
        }
        self.read_call(alloc, Prefix::none(), line)
    }

    /// Reads a line that has `after T.K`, `if ok`, `if refused` or `retry` before its command.
    #[tactic(auto, unfolding(crate::specs::Calls::prefixed_line))]
    fn read_prefixed(&mut self, alloc: Global, line: &[u8]) -> Result<(), RaceFault>
        ensures tasks { self.new.race.tasks ≡ self.old.race.tasks }
        ensures read { OnOk result (prefixed_line self.old.race.tasks self.old.race.calls.items line.now ≡ Ok self.new.race.calls.items) }
        ensures fault { IfErr result (IsToldOrMemory (prefixed_line self.old.race.tasks self.old.race.calls.items line.now)) }
    {
        let after = after_at(after_word(line))?;
        let rest = behind_after(after_word(line));
        let Some(when) = when_at(rest) else {
            return Err(RaceFault::BranchExpected);
        };
        if command_at(rest).is_empty() {
            return Err(RaceFault::CallExpected);
        }
        let prefix = Prefix {
            when,
            retries: retries_at(rest),
            after,
        };
        let plain = plain_line(alloc, line).map_err(no_memory)?;
        self.read_call(alloc, prefix, plain.as_slice())
    }

    /// Reads a line that begins an operation, as a call with this prefix.
    fn read_call(&mut self, alloc: Global, prefix: Prefix, line: &[u8]) -> Result<(), RaceFault>
        ensures tasks { self.new.race.tasks ≡ self.old.race.tasks }
        ensures read { OnOk result (begin_line self.old.race.calls.items prefix (parsed line.now (Some self.old.race.tasks))
            ≡ Ok self.new.race.calls.items) }
        ensures fault { IfErr result (IsToldOrMemory
            (begin_line self.old.race.calls.items prefix (parsed line.now (Some self.old.race.tasks)))) }
    {
        match parse(line, Some(self.race.tasks))? {
            Line::Skipped => Ok(()),
            Line::Request(
                Request::Task {
                    task,
                    command: TaskCommand::Begin(op),
                },
            ) => self.add(alloc, task, prefix.call(op), line),
            Line::Config(_) | Line::Request(_) => Err(RaceFault::CallExpected),
        }
    }

    /// Reads `T hook HOOK CODE`, which says what `T run HOOK CODE` says of a run: which hook of the task's last call fails, and how.
    fn read_hook(&mut self, alloc: Global, line: &[u8]) -> Result<(), RaceFault>
        ensures tasks { self.new.race.tasks ≡ self.old.race.tasks }
        ensures read { OnOk result (hook_line self.old.race.calls.items (parsed (as_run line.now) (Some self.old.race.tasks))
            ≡ Ok self.new.race.calls.items) }
        ensures fault { IfErr result (IsToldOrMemory
            (hook_line self.old.race.calls.items (parsed (as_run line.now) (Some self.old.race.tasks)))) }
    {
        match parse_run(alloc, line, self.race.tasks)? {
            Line::Skipped => Ok(()),
            Line::Request(
                Request::Task {
                    task,
                    command: TaskCommand::Run {
                        failure: Some(failure),
                    },
                },
            ) => self.fail(task, failure),
            Line::Config(_) | Line::Request(_) => {
                Err(RaceFault::Schedule(Fault::WrongNumberOfWords))
            }
        }
    }

    /// A call more of a task.
    #[tactic(auto, unfolding(crate::specs::Calls::added))]
    fn add(&mut self, alloc: Global, task: u8, call: Call, line: &[u8]) -> Result<(), RaceFault>
        ensures tasks { self.new.race.tasks ≡ self.old.race.tasks }
        ensures read { OnOk result (added self.old.race.calls.items task call ≡ Ok self.new.race.calls.items) }
        ensures fault { IfErr result (IsToldOrMemory (added self.old.race.calls.items task call)) }
    {
        if !self.is_named(call.after) {
            return Err(RaceFault::NoSuchCall);
        }
        let Some(calls) = self.race.calls.get_mut(usize::from(task)) else {
            return Err(RaceFault::Schedule(Fault::NoSuchTask));
        };
        let turn = count_of(calls) as u8;
        *calls = with_call(*calls, call)?;
        self.keep(alloc, task, turn, line).map_err(no_memory)?;
        Ok(())
    }

    /// Whether the call that a call comes after stands among these, if it comes after one.
    fn is_named(&self, after: Option<CallName>) -> bool
        ensures { result ≡ is_named self.now.race.calls.items after }
    {
        match after {
            Some(name) => self.call(name.task, name.turn).is_some(),
            None => true,
        }
    }

    /// Keeps the line by which a task begins a call.
    fn keep(&mut self, alloc: Global, task: u8, turn: u8, line: &[u8]) -> Result<(), AllocError>
        ensures { self.new.race ≡ self.old.race }
    {
        let text = Vec::from_slice(alloc, line)?;
        self.lines.push(CallLine { task, turn, text })?;
        Ok(())
    }

    /// A hook fails in a task's last call.
    #[tactic(auto, unfolding(crate::specs::Calls::failing))]
    fn fail(&mut self, task: u8, failure: HookFailure) -> Result<(), RaceFault>
        ensures tasks { self.new.race.tasks ≡ self.old.race.tasks }
        ensures read { OnOk result (failing self.old.race.calls.items task failure ≡ Ok self.new.race.calls.items) }
        ensures fault { IfErr result (IsToldOrMemory (failing self.old.race.calls.items task failure)) }
    {
        let Some(calls) = self.race.calls.get_mut(usize::from(task)) else {
            return Err(RaceFault::Schedule(Fault::NoSuchTask));
        };
        *calls = with_failure(*calls, failure)?;
        Ok(())
    }
}

/// The first place that has no call.
fn first_free(calls: &[Option<Call>]) -> Option<usize>
    ensures { result ≡ position is_none calls.now }
{
    calls.iter().position(|call| call.is_none())
}

/// How many calls there are.
fn count_of(calls: &[Option<Call>]) -> usize
    ensures is { result ≡ count_of calls.now }
    ensures few { result ≤ length calls.now }
{
    match first_free(calls) {
        Some(count) => count,
        None => calls.len(),
    }
}

/// Returns the calls with one more.
#[tactic(auto, unfolding(crate::specs::Calls::with_call))]
fn with_call(
    mut calls: [Option<Call>; CALLS],
    call: Call,
) -> Result<[Option<Call>; CALLS], RaceFault>
    ensures { result ≡ with_call calls call }
{
    let count = count_of(&calls);
    if count >= CALLS {
        return Err(RaceFault::TooManyCalls);
    }
    if count > 0 || is_unconditional(call.when) {
        calls[count] = Some(call);
        Ok(calls)
    } else {
        Err(RaceFault::NoCallBefore)
    }
}

/// Whether a call is made in any case.
fn is_unconditional(when: When) -> bool
    ensures { result ≡ is_unconditional when }
{
    match when {
        When::Always => true,
        When::IfOk | When::IfRefused => false,
    }
}

/// Returns the calls with a hook that fails in the last one.
#[tactic(auto, unfolding(crate::specs::Calls::with_failure))]
fn with_failure(
    mut calls: [Option<Call>; CALLS],
    failure: HookFailure,
) -> Result<[Option<Call>; CALLS], RaceFault>
    ensures { result ≡ with_failure calls failure }
{
    let count = count_of(&calls);
    if count == 0 {
        return Err(RaceFault::CallExpected);
    }
    match calls[count - 1] {
        None => Err(RaceFault::CallExpected),
        Some(
            Call {
                failure: Some(_),
                ..
            },
        ) => Err(RaceFault::HookTwice),
        Some(call) => {
            calls[count - 1] = Some(Call {
                failure: Some(failure),
                ..call
            });
            Ok(calls)
        }
    }
}

/// A line without its prefix.
fn plain_line(alloc: Global, line: &[u8]) -> Result<Vec<u8>, AllocError>
    ensures { IfOk result (λ plain. plain.items ≡ without_prefix line.now) }
{
    let mut plain = Output::new(alloc);
    print_without_prefix(line, &mut plain);
    plain.settled()?;
    Vec::from_slice(alloc, plain.bytes.as_slice())
}

/// What a line asks for with `run` in the place of its second word.
fn parse_run(alloc: Global, line: &[u8], tasks: u8) -> Result<Line, Fault>
    ensures asked { IfOk result (λ asked. parsed (as_run line.now) (Some tasks) ≡ Ok asked) }
    ensures fault { IfErr result (λ fault. (fault ≡ Refused NoMemory) ⊎ (parsed (as_run line.now) (Some tasks) ≡ Err fault)) }
{
    let mut run = Output::new(alloc);
    print_run(line, &mut run);
    settled(&run)?;
    parse(run.bytes.as_slice(), Some(tasks))
}

/// Prints a line with `run` in the place of its second word.
#[tactic(auto, using(crate::proofs::Words::word_within), unfolding(crate::specs::Calls::as_run))]
fn print_run(line: &[u8], run: &mut Output)
    ensures { Prints run.old run.new (as_run line.now) }
{
    let rest = after_word(line);
    run.text(first_word(line));
    run.text(b" run");
    run.text(&rest[first_word(rest).len()..]);
}
