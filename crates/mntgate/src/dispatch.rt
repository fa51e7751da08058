//! From the words of a command line to how the program ends.

ghost use Rattle.std.specs.Prelude.{◌≡◌, ◌≤◌, ◌⊎◌, true, false, IfOk, Ok, map, string_bytes};
ghost use Rattle.command_line.specs.CommandLine.{MayAskPlainly, ask_plainly};
ghost use Rattle.exit_status.specs.declared.ends.ProgramEnding.TheVariants.{Done, Passed, Ran};
ghost use Rattle.program_replay.specs.Replays.{EndsReplayed};
ghost use Rattle.mntgate.specs.Asking.{EndsAsked, EndsRun, TellsSomePassed, WasSomeRun};
ghost use Rattle.transcripts.specs.Replayed.{Replayed};

use crate::outcomes::run_outcomes;
use crate::validation::run_validation;
use command_line::{Numbers, ProgramRequest, RunReport, read_words};
use exit_status::{ProgramEnding, report_refusal, write_text};
use gate_runs::{Plan, run_told};
use program_checks::{run_blessings, run_checks};
use program_replay::{Terminal, run_replay};
use refusals::run_explanation;
use run_plans::Progress;
use run_plans::rows::{ROWS, TOTAL_ROWS};
use std::alloc::{AllocError, Global};
use std::io::{Read, Stderr, Write};
use std::rt::{Clock, Files};
use std::sync::Wait;
use std::thread::Threads;

/// Does what the words of a command line ask for; faults are printed on a writer of their own, and where they can't be, the
/// program ends the same. Where a person watches, a run tells there how far it is, and a fault of a schedule is explained. A run ends as Ran
/// only where all that was asked of it was done.
///
/// # Errors
///
/// `AllocError` where there was no memory to read the words, or for what they ask for.
pub fn run<
    R: Threads + Wait + Clock + Sync + Files + Alloc<A = Global>,
    I: Read,
    W: Write,
    E: Write,
>(
    rt: &R,
    alloc: Global,
    words: &[String],
    reader: &mut I,
    writer: &mut W,
    errors: &mut E,
    person: Terminal,
) -> Result<ProgramEnding, AllocError>
    ensures plain { ask_plainly (map string_bytes words.now) ≡ true → IfOk result (λ ending. EndsReplayed false
        (I.remaining reader.old) (I.remaining reader.new) (W.contents writer.old) (W.contents writer.new) ending) }
    ensures only { IfOk result (λ ending. ending ≡ Done → MayAskPlainly (map string_bytes words.now)) }
    ensures done { IfOk result (λ ending. ending ≡ Done →
        Replayed (I.remaining reader.old) (I.remaining reader.new) (W.contents writer.old) (W.contents writer.new) (Ok tt)) }
    ensures passed { IfOk result (λ ending. ending ≡ Passed → TellsSomePassed (W.contents writer.old) (W.contents writer.new)) }
    ensures ran { IfOk result (λ ending. ending ≡ Ran → WasSomeRun) }
{
    let asked = read_words(alloc, words, errors)?;
    do_asked(rt, alloc, &asked, reader, writer, errors, person)
}

/// Does what is asked for.
fn do_asked<
    R: Threads + Wait + Clock + Sync + Files + Alloc<A = Global>,
    I: Read,
    W: Write,
    E: Write,
>(
    rt: &R,
    alloc: Global,
    asked: &ProgramRequest<'_>,
    reader: &mut I,
    writer: &mut W,
    errors: &mut E,
    person: Terminal,
) -> Result<ProgramEnding, AllocError>
    ensures { IfOk result (EndsAsked asked.now (I.remaining reader.old) (I.remaining reader.new) (W.contents writer.old) (W.contents writer.new)) }
{
    match asked {
        ProgramRequest::Replay(replay) => {
            Ok(run_replay(rt, alloc, *replay, reader, writer, errors, &person))
        }
        ProgramRequest::Check(files) => {
            Ok(run_checks(rt, alloc, files.as_slice(), reader, writer, errors))
        }
        ProgramRequest::Bless(files) => {
            Ok(run_blessings(rt, alloc, files.as_slice(), reader, writer, errors))
        }
        ProgramRequest::Explain(explain) => {
            Ok(run_explanation(alloc, explain.call, explain.refusal, writer, errors))
        }
        ProgramRequest::Outcomes(asked) => {
            let watched = person.watches;
            run_outcomes(rt, alloc, *asked, reader, writer, errors, watched)
        }
        ProgramRequest::Validate(asked) => {
            let watched = person.watches;
            Ok(run_validation(rt, alloc, *asked, reader, writer, errors, watched))
        }
        ProgramRequest::Run(numbers, tells) => {
            let watched = person.watches;
            Ok(run_threads(rt, alloc, *numbers, *tells, writer, errors, watched))
        }
        ProgramRequest::Told(text) => Ok(write_text(text.as_str(), writer, errors)),
        ProgramRequest::Misused => Ok(ProgramEnding::Misused),
    }
}

/// How many of the rows are printed: the first of them tell what all tasks did, the others what they met.
fn count_of(tells: RunReport) -> usize
    ensures { result ≤ ROWS }
{
    match tells {
        RunReport::Totals => TOTAL_ROWS,
        RunReport::Details => ROWS,
    }
}

/// Runs the threads. Where the clock can't be read, nobody is told how far they are.
fn run_threads<R: Threads + Wait + Clock + Sync, W: Write, E: Write>(
    rt: &R,
    alloc: Global,
    numbers: Numbers,
    tells: RunReport,
    writer: &mut W,
    errors: &mut E,
    watched: Option<Stderr>,
) -> ProgramEnding
    ensures { EndsRun numbers result }
{
    let Numbers {
        tasks,
        processors,
        rounds,
        freezes,
        patience,
    } = numbers;
    let plan = match Plan::new(tasks, processors, rounds, freezes) {
        Ok(plan) => plan.with_patience(patience),
        Err(refusal) => return report_refusal(refusal, errors),
    };
    let progress = watched.and_then(|stderr| Progress::new(
        rt, tasks, rounds, freezes, stderr,
    ).ok());
    let count = count_of(tells);
    match progress {
        Some(progress) => run_told(rt, alloc, plan, count, &progress, writer, errors),
        None => run_told(rt, alloc, plan, count, &(), writer, errors),
    }
}
