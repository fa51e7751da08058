//! An execution for each outcome of a race, as it is printed: with few switches between tasks, and with each task that waits at its wait.

ghost use Rattle.std.specs.Prelude.{◌<◌, ◌≡◌, ◌≤◌, ◌*◌, length};
ghost use Rattle.exploration.specs.Tables.{IsTable};
ghost use Rattle.race_outcomes.specs.Methods.{next_by};

use exploration::Runs;
use race_files::RaceSource;
use race_outcomes::{OutcomeListing, movers_to};
use replay_forms::{Look, Style, shown_of, with_waits};
use schedule_lines::Output;
use std::alloc::AllocError;

/// Whose moves lead to the listed state at an index. If runs were found the moves are to be read: each task begins a call right before the call's
/// first step, and not as early as a search that is reduced has it.
pub(crate) fn movers_of(
    source: RaceSource<'_>,
    listing: &OutcomeListing,
    runs: &Option<Runs>,
    end: usize,
) -> Result<Vec<u8>, AllocError>
    requires table { IsTable (next_by listing.now.method source.calls.now.race.calls.items source.calls.now.race.tasks)
        source.calls.now.race.tasks listing.now.all.found.states listing.now.all.found.origins.items listing.now.all.found.edges.items }
    requires rows { length listing.now.all.found.edges.items ≡ listing.now.all.found.expanded * source.calls.now.race.tasks }
    requires expanded { listing.now.all.found.expanded ≤ length listing.now.all.found.states }
    requires within { end < length listing.now.all.found.states }
{
    let (alloc, race) = (source.alloc, &source.calls.race);
    let movers = movers_to(alloc, race, listing.method, &listing.all.found, runs, end)?;
    match runs {
        Some(_) => source.begun_late(movers.as_slice()),
        None => Ok(movers),
    }
}

/// The schedule of these moves, and behind it a comment for each task whose last step has to wait: for what, and for whom.
pub(crate) fn execution_of(
    source: RaceSource<'_>,
    movers: &[u8],
    style: Style,
) -> Result<Output, AllocError> {
    let schedule = source.schedule(movers)?;
    match source.gates()? {
        Some(session) => with_waits(source.alloc, style, session, schedule),
        None => Ok(schedule),
    }
}

/// What a replay of the schedule of these moves shows; None if a line of it has a fault, which none has.
pub(crate) fn show_execution(
    source: RaceSource<'_>,
    movers: &[u8],
    look: Look,
) -> Result<Option<Vec<u8>>, AllocError> {
    let schedule = execution_of(source, movers, look.style)?;
    match source.gates()? {
        Some(session) => shown_of(source.alloc, look, session, &schedule),
        None => Ok(None),
    }
}
