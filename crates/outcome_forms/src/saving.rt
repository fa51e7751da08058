//! A schedule of each outcome of a race, as a file that a replay takes.

ghost use Rattle.std.specs.Prelude.{◌≡◌, ◌<◌, ◌≤◌, ◌*◌, All, IfErr, length};
ghost use Rattle.exit_status.specs.declared.ends.ProgramEnding.TheVariants.{Refused};
ghost use Rattle.exploration.specs.Tables.{IsTable};
ghost use Rattle.race_outcomes.specs.Methods.{next_by};

use crate::executions::{execution_of, movers_of};
use access_model::GateError;
use exit_status::{ProgramEnding, report_of, report_refusal_of, report_unopened, write_file};
use race_files::RaceSource;
use race_outcomes::{Outcome, OutcomeListing, runs_for};
use replay_forms::Style;
use schedule_lines::Output;
use std::alloc::{AllocError, Global};
use std::fs;
use std::io::Write;
use std::rt::Files;

/// What is said of the file behind the last one.
const OLDER: &str = "it was there before, has no outcome of this list, and stays";

/// Writes a schedule of each outcome to a file in a folder: `1.schedule` and so on, in the order in which they are listed. Each has the set-up,
/// a comment with the outcome, and an execution that ends in it. What else is in the folder stays: a file of the next number is printed.
///
/// # Errors
///
/// How the program ends if a file can't be written, or there is no memory, which is printed. Files before it are written.
pub fn save_outcomes<R: Files + Alloc<A = Global>, E: Write>(
    rt: &R,
    source: RaceSource<'_>,
    listing: &OutcomeListing,
    style: Style,
    folder: &str,
    errors: &mut E,
) -> Result<(), ProgramEnding>
    requires table { IsTable (next_by listing.now.method source.calls.now.race.calls.items source.calls.now.race.tasks)
        source.calls.now.race.tasks listing.now.all.found.states listing.now.all.found.origins.items listing.now.all.found.edges.items }
    requires rows { length listing.now.all.found.edges.items ≡ listing.now.all.found.expanded * source.calls.now.race.tasks }
    requires expanded { listing.now.all.found.expanded ≤ length listing.now.all.found.states }
    requires within { All (λ outcome. outcome.end < length listing.now.all.found.states) listing.now.outcomes.items }
    ensures { IfErr result (λ ending. ending ≡ Refused) }
{
    let runs = runs_for(source.alloc, &source.calls.race, &listing.all.found, true).map_err(
        |_| report_refusal_of(GateError::NoMemory, Some(folder), errors),
    )?;
    let mut number = 1u64;
    for outcome in &listing.outcomes {
        let file = movers_of(source, listing, &runs, outcome.end)
            .and_then(|movers| file_of(source, outcome, movers.as_slice(), style))
            .map_err(|_| report_refusal_of(GateError::NoMemory, Some(folder), errors))?;
        save_file(
            rt,
            source.alloc,
            (folder, number),
            file.bytes.as_slice(),
            errors,
        )?;
        number = number.saturating_add(1);
    }
    tell_older(rt, source.alloc, (folder, number), errors)
}

/// Writes the file of this number in a folder.
fn save_file<R: Files + Alloc<A = Global>, E: Write>(
    rt: &R,
    alloc: Global,
    place: (&str, u64),
    bytes: &[u8],
    errors: &mut E,
) -> Result<(), ProgramEnding>
    ensures { IfErr result (λ ending. ending ≡ Refused) }
{
    let name = name_of(alloc, place, errors)?;
    write_file(rt, name.as_str(), bytes).map_err(|error| report_unopened(
        Some(name.as_str()),
        &error,
        errors,
    ))
}

/// Returns the name of the file of this number in a folder.
fn name_of<E: Write>(
    alloc: Global,
    place: (&str, u64),
    errors: &mut E,
) -> Result<String, ProgramEnding>
    ensures { IfErr result (λ ending. ending ≡ Refused) }
{
    let (folder, number) = place;
    format!(in alloc; "{folder}/{number}.schedule").map_err(|_| report_refusal_of(
        GateError::NoMemory,
        Some(folder),
        errors,
    ))
}

/// Tells of the file of this number in a folder, if there is one, that it has no outcome of this list.
fn tell_older<R: Files, E: Write>(
    rt: &R,
    alloc: Global,
    place: (&str, u64),
    errors: &mut E,
) -> Result<(), ProgramEnding>
    ensures { IfErr result (λ ending. ending ≡ Refused) }
{
    let name = name_of(alloc, place, errors)?;
    if fs::symlink_metadata(rt, name.as_str()).is_ok() {
        report_of(OLDER, Some(name.as_str()), errors);
    }
    Ok(())
}

/// Returns the lines of the file of an outcome, to which these moves lead.
fn file_of(
    source: RaceSource<'_>,
    outcome: &Outcome,
    movers: &[u8],
    style: Style,
) -> Result<Output, AllocError> {
    let mut file = Output::new(source.alloc);
    file.text(source.set_up_lines());
    file.text(b"# ");
    file.line(outcome.text.as_slice());
    let execution = execution_of(source, movers, style)?;
    file.text(execution.bytes.as_slice());
    file.settled()?;
    Ok(file)
}
