//! The outcomes of a race, as records or as a page.

ghost use Rattle.std.specs.Prelude.{◌≡◌, ◌<◌, ◌≤◌, ◌*◌, length, All, IfOk};
ghost use Rattle.exploration.specs.Tables.{IsTable};
ghost use Rattle.race_outcomes.specs.Methods.{next_by};

use crate::details::Details;
use crate::executions::{movers_of, show_execution};
use crate::finals::{FinalModel, Finals, list_ends};
use crate::telling::print_model_behind;
use exploration::{Observer, Stop};
use gate_core::Core;
use race_files::RaceSource;
use race_outcomes::{OutcomeListing, SearchPlan, list, runs_for};
use replay_forms::{Form, html, records, shown_of};
use schedule_lines::Output;
use std::alloc::AllocError;

/// As what outcomes are shown.
#[derive(Clone, Copy)]
pub enum Shape<'a> {
    /// A line of JSON for each, and for what else is asked for.
    Records,
    /// A page of this title, with a picture for each.
    Page(&'a str),
}

/// What is shown of a race, and as what.
#[derive(Clone, Copy)]
pub struct Exhibit<'a> {
    pub shape: Shape<'a>,
    pub details: Details,
    /// Whether outcomes with other final models are told apart.
    pub ends: bool,
}

impl Exhibit<'_> {
    /// Whether an execution of each outcome is shown, or the model behind it.
    fn has_executions(self) -> bool {
        match self.shape {
            Shape::Records => self.details.schedules.are_told() || self.details.model,
            Shape::Page(_) => true,
        }
    }
}

/// Shows the outcomes of a race on this core: all of them, or those so far, where there are more states than the limit.
///
/// # Errors
///
/// As `list`.
pub fn show_outcomes<W: Observer>(
    source: RaceSource<'_>,
    core: Core,
    plan: SearchPlan,
    exhibit: Exhibit<'_>,
    watch: &mut W,
    out: &mut Output,
) -> Result<OutcomeListing, Stop>
    requires { source.calls.now.race.tasks ≡ core.config.tasks }
    ensures table { IfOk result (λ listing. IsTable (next_by listing.method source.entry.calls.now.race.calls.items source.entry.calls.now.race.tasks)
        source.entry.calls.now.race.tasks listing.all.found.states listing.all.found.origins.items listing.all.found.edges.items) }
    ensures rows { IfOk result (λ listing. length listing.all.found.edges.items ≡ listing.all.found.expanded * source.entry.calls.now.race.tasks) }
    ensures expanded { IfOk result (λ listing. listing.all.found.expanded ≤ length listing.all.found.states) }
    ensures within { IfOk result (λ listing. All (λ outcome. outcome.end < length listing.all.found.states) listing.outcomes.items) }
{
    let has_models = exhibit.details.model && !exhibit.ends;
    let finals = if has_models {
        Finals::find(source, &core, plan, watch)?
    } else {
        Finals::unknown(source)
    };
    let listing = listed(source, core, plan, exhibit.ends, watch)?;
    show_listing(source, &listing, exhibit, &finals, out)?;
    Ok(listing)
}

/// Lists the outcomes of a race on this core, or its ends.
fn listed<W: Observer>(
    source: RaceSource<'_>,
    core: Core,
    plan: SearchPlan,
    ends: bool,
    watch: &mut W,
) -> Result<OutcomeListing, Stop>
    requires { source.calls.now.race.tasks ≡ core.config.tasks }
    ensures table { IfOk result (λ listing. IsTable (next_by listing.method source.entry.calls.now.race.calls.items source.entry.calls.now.race.tasks)
        source.entry.calls.now.race.tasks listing.all.found.states listing.all.found.origins.items listing.all.found.edges.items) }
    ensures rows { IfOk result (λ listing. length listing.all.found.edges.items ≡ listing.all.found.expanded * source.entry.calls.now.race.tasks) }
    ensures expanded { IfOk result (λ listing. listing.all.found.expanded ≤ length listing.all.found.states) }
    ensures within { IfOk result (λ listing. All (λ outcome. outcome.end < length listing.all.found.states) listing.outcomes.items) }
{
    if ends {
        return list_ends(source, &core, plan, watch);
    }
    list(source.alloc, &source.calls.race, core, plan, watch)
}

/// Shows what was listed.
fn show_listing(
    source: RaceSource<'_>,
    listing: &OutcomeListing,
    exhibit: Exhibit<'_>,
    finals: &Finals,
    out: &mut Output,
) -> Result<(), AllocError>
    requires table { IsTable (next_by listing.now.method source.calls.now.race.calls.items source.calls.now.race.tasks)
        source.calls.now.race.tasks listing.now.all.found.states listing.now.all.found.origins.items listing.now.all.found.edges.items }
    requires rows { length listing.now.all.found.edges.items ≡ listing.now.all.found.expanded * source.calls.now.race.tasks }
    requires expanded { listing.now.all.found.expanded ≤ length listing.now.all.found.states }
    requires within { All (λ outcome. outcome.end < length listing.now.all.found.states) listing.now.outcomes.items }
{
    print_head(source, listing, exhibit, out);
    let (race, found) = (&source.calls.race, &listing.all.found);
    let runs = runs_for(source.alloc, race, found, exhibit.has_executions())?;
    let mut number = 1u64;
    for outcome in &listing.outcomes {
        let text = outcome.text.as_slice();
        let movers = movers_of(source, listing, &runs, outcome.end)?;
        let known = if exhibit.ends {
            FinalModel::One(movers.as_slice())
        } else {
            finals.of(text)
        };
        show_outcome(
            source,
            exhibit,
            (number, text),
            movers.as_slice(),
            known,
            out,
        )?;
        number = number.saturating_add(1);
    }
    out.settled()
}

/// Prints what stands above all outcomes.
fn print_head(
    source: RaceSource<'_>,
    listing: &OutcomeListing,
    exhibit: Exhibit<'_>,
    out: &mut Output,
) {
    let states = listing.all.found.states.len() as u64;
    let count = listing.outcomes.len() as u64;
    let is_whole = listing.all.found.is_whole();
    match exhibit.shape {
        Shape::Records => records::print_race(source.alloc, states, count, is_whole, out),
        Shape::Page(title) => {
            html::print_head(out, title);
            html::print_text(out, source.bytes);
            html::begin_outcomes(out, states, count, is_whole);
            for (number, outcome) in listing.outcomes.iter().enumerate() {
                html::list_outcome(out, number as u64 + 1, outcome.text.as_slice());
            }
            html::end_outcomes(out);
        }
    }
}

/// Shows an outcome of this number and text, with an execution of these movers that ends in it, and what is known of its final model.
fn show_outcome(
    source: RaceSource<'_>,
    exhibit: Exhibit<'_>,
    named: (u64, &[u8]),
    movers: &[u8],
    known: FinalModel<'_>,
    out: &mut Output,
) -> Result<(), AllocError> {
    match exhibit.shape {
        Shape::Records => print_record(source, exhibit.details, named, movers, known, out)?,
        Shape::Page(_) => print_picture(source, exhibit.details, named, movers, out)?,
    }
    match known {
        FinalModel::One(movers) if exhibit.details.model => {
            show_model(source, exhibit, movers, out)
        }
        _ => Ok(()),
    }
}

/// Prints the record of an outcome, and if they are asked for those of an execution's steps.
fn print_record(
    source: RaceSource<'_>,
    details: Details,
    (number, text): (u64, &[u8]),
    movers: &[u8],
    known: FinalModel<'_>,
    out: &mut Output,
) -> Result<(), AllocError> {
    let models = match known {
        FinalModel::One(_) => Some(1),
        FinalModel::Several(count) => Some(count),
        FinalModel::Unknown => None,
    };
    records::print_outcome(source.alloc, number, text, models, out);
    if details.schedules.are_told()
        && let Some(steps) = show_execution(source, movers, details.look(Form::Json))?
    {
        out.text(steps.as_slice());
    }
    Ok(())
}

/// Prints the picture of an execution below its outcome.
fn print_picture(
    source: RaceSource<'_>,
    details: Details,
    (number, text): (u64, &[u8]),
    movers: &[u8],
    out: &mut Output,
) -> Result<(), AllocError> {
    html::print_outcome_head(out, number, text);
    if let Some(picture) = show_execution(source, movers, details.look(Form::Picture))? {
        html::print_picture(out, picture.as_slice());
    }
    Ok(())
}

/// Shows the model behind these moves: as a record, or as text.
fn show_model(
    source: RaceSource<'_>,
    exhibit: Exhibit<'_>,
    movers: &[u8],
    out: &mut Output,
) -> Result<(), AllocError> {
    match exhibit.shape {
        Shape::Records => {
            if let Some(shown) = model_record(source, exhibit, movers)? {
                out.text(shown.as_slice());
            }
            Ok(())
        }
        Shape::Page(_) => {
            let mut model = Output::new(source.alloc);
            print_model_behind(source, movers, &mut model)?;
            html::print_text(out, model.bytes.as_slice());
            Ok(())
        }
    }
}

/// The record of the model behind these moves, if a replay shows it.
fn model_record(
    source: RaceSource<'_>,
    exhibit: Exhibit<'_>,
    movers: &[u8],
) -> Result<Option<Vec<u8>>, AllocError> {
    let look = exhibit.details.look(Form::Json);
    let mut asked = Output::new(source.alloc);
    asked.text(b"model\n");
    match source.gates_behind(movers)? {
        Some(session) => shown_of(source.alloc, look, session, &asked),
        None => Ok(None),
    }
}
