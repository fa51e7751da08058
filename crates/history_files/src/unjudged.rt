//! Why a history has no verdict.

ghost use Rattle.std.specs.Prelude.{◌≡◌};
ghost use Rattle.exploration.specs.declared.stops.Stop.TheVariants.{TooMany as TooManyFound};
ghost use Rattle.history_files.specs.declared.unjudged.Unjudged.TheVariants.{TooMany};

use crate::find_history;
use diagnostics::{Context, Faulty, Marked, diagnosis};
use exploration::Stop;
use schedule_lines::bytes::ReplayFault;
use schedule_lines::numbers::is_digits;
use schedule_lines::words::{first_word, is_word};
use schedule_lines::{Fault, FaultKind, Front, front_of};
use std::alloc::{AllocError, Global};

/// Why a history has no verdict.
#[derive(Clone, Copy)]
pub enum Unjudged {
    /// More states than the limit come up, and the markers so far are possible.
    TooMany,
    /// More states, parts of them, moves or markers come up than can be numbered.
    NoNumbers,
    /// There was no memory.
    NoMemory,
}

impl Unjudged {
    /// Why a search that was stopped has no verdict.
    pub(crate) fn of(stop: Stop) -> Unjudged
        ensures { result ≡ TooMany → stop ≡ TooManyFound }
    {
        match stop {
            Stop::NoMemory => Unjudged::NoMemory,
            Stop::NoNumbers => Unjudged::NoNumbers,
            Stop::TooMany => Unjudged::TooMany,
        }
    }
}

/// Returns what a person is told of a fault of a history: the line with a caret, and how to mend it.
///
/// # Errors
///
/// `AllocError` if there was no memory for it.
pub fn fault_text<'a>(
    alloc: Global,
    file: Option<&'a str>,
    bytes: &'a [u8],
    fault: ReplayFault,
) -> Result<String, AllocError> {
    let (context, rest) = Context::find(bytes, fault.line);
    let is_behind = find_history(bytes).is_some_and(|place| place.number < fault.line);
    if let Front::Line(length) = front_of(rest)
        && let Some(told) = told_of(fault.kind, &rest[..length], is_behind)
    {
        let marked = Marked {
            file,
            number: fault.line,
            line: &rest[..length],
            before: told.before,
            length: told.length,
            error: fault.kind.text(),
            help: told.help,
        };
        return marked.told(alloc);
    }
    let faulty = Faulty {
        file,
        fault,
        context: behind_history(context, is_behind),
        rest,
    };
    diagnosis(alloc, faulty)
}

/// A part of a line that is at fault: what stands before it, how long it is, and how to mend it.
#[derive(Clone, Copy)]
struct HistoryHelp {
    before: usize,
    length: usize,
    help: &'static str,
}

/// What is told of a fault that only a history has; None if a schedule or a race has it too, at such a line.
fn told_of(fault: FaultKind, line: &[u8], is_behind: bool) -> Option<HistoryHelp> {
    if let Some(help) = help_of(fault, line) {
        return Some(HistoryHelp {
            before: 0,
            length: line.len(),
            help,
        });
    }
    if !is_behind {
        return None;
    }
    let first = first_word(line);
    if fault == FaultKind::Schedule(Fault::UnknownCommand) && !is_digits(first) {
        return Some(HistoryHelp {
            before: 0,
            length: first.len(),
            help: "a line behind 'history' begins with the number of a task, as '0 freeze' or '0 ok'",
        });
    }
    if line.contains(&b';') {
        return Some(HistoryHelp {
            before: first.len().saturating_add(1),
            length: line.len(),
            help: "between ';' stand operations, each as in a line that begins one: '0 start 1 *; end 1 *'",
        });
    }
    None
}

/// How to mend a fault that only a history has; None if a schedule or a race has it too.
fn help_of(fault: FaultKind, line: &[u8]) -> Option<&'static str> {
    let help = match fault {
        FaultKind::HistoryExpected => {
            "a history has a line 'history', and behind it what was recorded of each call"
        }
        FaultKind::UnderWay if is_word(line, "history") => {
            "each call before 'history' has to end there: 'T run' until it is answered"
        }
        FaultKind::UnderWay => {
            "the task's last call has not returned: 'T ok', 'T refused' or 'T ?' stands before its next one"
        }
        FaultKind::NothingUnderWay => {
            "the task has no call under way here: the line by which it begins stands before this one"
        }
        FaultKind::BadAnswer => {
            "an answer is 'ok', 'ok node N', 'ok ran', 'ok none', 'refused', 'refused ERRNO', 'refused ERRNO NAME', 'refused hook CODE' or '?'"
        }
        FaultKind::TooManyCalls => "a call stands for at most 8 operations",
        FaultKind::HookTwice => "one hook of a call may fail: this call has a line 'hook' already",
        _ => return None,
    };
    Some(help)
}

/// The context of a line: behind the line `history` that of a race's calls.
fn behind_history(context: Context, is_behind: bool) -> Context {
    match context {
        Context::Schedule(tasks) if is_behind => Context::Race(tasks),
        _ => context,
    }
}
