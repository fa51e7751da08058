//! The outcomes of a race, from the command line.

ghost use Rattle.std.specs.Prelude.{◌≡◌, ◌<◌, ◌≤◌, ◌*◌, ◌⊎◌, false, true, All, IfOk, IfErr, OnOk, OnErr, is_some, length};
ghost use Rattle.std.specs.Io.KnownBytes.{Appends, Keeps};
ghost use Rattle.exit_status.specs.declared.ends.ProgramEnding.TheVariants.{Listed, Refused};
ghost use Rattle.exploration.specs.Tables.{IsTable};
ghost use Rattle.exploration.specs.declared.stops.Stop.TheVariants.{TooMany};
ghost use Rattle.race_outcomes.specs.Methods.{next_by};
ghost use Rattle.program_checks.specs.Claims.{ClaimConditions, IsPlain, PrintsClaims, race_lines};
ghost use Rattle.program_checks.specs.declared.claims.Judged.TheVariants.{Hold};
ghost use Rattle.mntgate.specs.Outcomes.{EndsTold, IsListed, IsUnlisted, IsWhyUnlisted, TellsRace, details_of, list_ending, method_of, schedules_as};
ghost use Rattle.mntgate.specs.declared.unlisted.Unlisted.TheVariants.{Unsaved, Unwritten};
ghost use Rattle.outcome_forms.specs.Told.{TellsAll, TellsSome, margin_of, mark_of};
ghost use Rattle.command_line.specs.declared.words.OutcomeForm.TheVariants.{Text};
ghost use Rattle.race_files.specs.Calls.{is_claim};
ghost use Rattle.race_files.specs.Left.{lines_in};
ghost use Rattle.race_files.specs.Races.{IsRaceIn, IsRecent};
ghost use Rattle.schedule_lines.specs.Printed.{Prints};
ghost use Rattle.schedule_lines.specs.bytes.Writing.{AppendsPart};
ghost use Rattle.schedule_lines.specs.declared.faults.Fault.TheVariants.{WriteFailed};

use crate::progress::SearchProgress;
use crate::unlisted::Unlisted;
use command_line::{OutcomeForm, Outcomes, ScheduleForm};
use exit_status::{ProgramEnding, read_bytes};
use exploration::{Observer, Stop};
use gate_core::Core;
use outcome_forms::{
    Details, Exhibit, Schedules, Shape, save_outcomes, show_outcomes, tell, tell_ends,
};
use program_checks::{Judged, VerdictForm, bad_claim, tell_claims};
use race_files::{RaceFile, RaceSource, read_race};
use race_outcomes::{Method, OutcomeListing as RaceListing, SearchPlan};
use replay_forms::{Style, html};
use schedule_lines::Output;
use schedule_lines::bytes::write_out;
use std::alloc::{AllocError, Global};
use std::io::{Read, Stderr, Write};
use std::rt::{Clock, Files};

/// Writes the outcomes of the race that a file has, or the reader, where none is named, and the verdicts on what it claims. A fault of the race is
/// printed on the writer of faults, and so is want of memory; then nothing is written. Where a person watches, the search tells there how far it is.
/// It ends as Listed where all outcomes are written, and all claims hold.
pub fn run_outcomes<R: Files + Clock + Alloc<A = Global>, I: Read, W: Write, E: Write>(
    rt: &R,
    alloc: Global,
    asked: Outcomes<'_>,
    reader: &mut I,
    writer: &mut W,
    errors: &mut E,
    watched: Option<Stderr>,
) -> Result<ProgramEnding, AllocError>
    ensures ends { IfOk result (λ ending. (ending ≡ Listed) ⊎ (ending ≡ Refused)) }
    ensures told { asked.entry.form ≡ Text → asked.entry.ends ≡ false →
        IfOk result (EndsTold asked.entry (I.remaining reader.old) (W.contents writer.old) (W.contents writer.new)) }
    ensures memory { OnErr result (Keeps (W.contents writer.old) (W.contents writer.new)) }
{
    match read_bytes(rt, alloc, asked.file, reader, errors) {
        Ok(bytes) => {
            let bytes = bytes.as_slice();
            match answer_outcomes(rt, asked, bytes, writer, errors, watched) {
                Ok(ending) => Ok(ending),
                Err(why) => Ok(why.report(alloc, asked, bytes, errors)),
            }
        }
        Err(ending) => Ok(ending),
    }
}

/// What was printed of a race.
#[derive(Drop)]
struct Answered {
    listing: RaceListing,
    /// Whether these are all outcomes.
    is_whole: bool,
    judged: Judged,
}

/// Writes the outcomes of the race that these bytes have, in the form that is asked for, and the verdicts on what it claims. It ends as Listed exactly
/// if these are all outcomes, and all claims hold.
///
/// # Errors
///
/// Why nothing was written; or that a write failed, and then the first bytes of all that was to be written are.
pub fn answer_outcomes<R: Files + Clock + Alloc<A = Global>, W: Write, E: Write>(
    rt: &R,
    asked: Outcomes<'_>,
    bytes: &[u8],
    writer: &mut W,
    errors: &mut E,
    watched: Option<Stderr>,
) -> Result<ProgramEnding, Unlisted>
    ensures ends { IfOk result (λ ending. (ending ≡ Listed) ⊎ (ending ≡ Refused)) }
    ensures listed { asked.entry.form ≡ Text → asked.entry.ends ≡ false →
        IfOk result (IsListed asked.entry bytes.now (W.contents writer.old) (W.contents writer.new)) }
    ensures why { asked.entry.form ≡ Text → asked.entry.ends ≡ false →
        IfErr result (IsUnlisted asked.entry bytes.now (W.contents writer.old) (W.contents writer.new)) }
{
    let mut told = Output::new(rt.alloc());
    let mut watch = SearchProgress::new(rt, watched);
    let answered = answer_race(rt, asked, bytes, &mut watch, &mut told, errors)?;
    write_told(&told, &answered, writer)
}

/// Writes what is printed, and returns how the program ends then.
///
/// # Errors
///
/// That a write failed: then the first bytes are written.
fn write_told<W: Write>(
    told: &Output,
    answered: &Answered,
    writer: &mut W,
) -> Result<ProgramEnding, Unlisted>
    ensures ends { IfOk result (λ ending. ending ≡ list_ending answered.now.is_whole answered.now.judged) }
    ensures written { OnOk result (Appends (W.contents writer.old) (W.contents writer.new) told.now.bytes.items) }
    ensures part { OnErr result (AppendsPart (W.contents writer.old) (W.contents writer.new) told.now.bytes.items) }
    ensures why { IfErr result (λ why. why ≡ Unwritten WriteFailed) }
{
    match write_out(writer, told.bytes.as_slice()) {
        Ok(()) => Ok(list_ending(answered.is_whole, answered.judged)),
        Err(fault) => Err(Unlisted::Unwritten(fault)),
    }
}

/// How it ends where all was written that is printed: as Listed if these are all outcomes, and all claims hold.
fn list_ending(is_whole: bool, judged: Judged) -> ProgramEnding
    ensures { result ≡ list_ending is_whole judged }
{
    match judged {
        Judged::Hold if is_whole => ProgramEnding::Listed,
        Judged::Hold | Judged::Broken | Judged::Unjudged => ProgramEnding::Refused,
    }
}

/// Tells the outcomes of the race that these bytes have, in the form that is asked for, and what its claims come to.
///
/// # Errors
///
/// Why they aren't printed: the first fault of the text, the first line that claims something by what is no condition, or want of memory; or a
/// schedule of theirs was to be saved, and wasn't.
fn answer_race<R: Files + Clock + Alloc<A = Global>, E: Write>(
    rt: &R,
    asked: Outcomes<'_>,
    bytes: &[u8],
    watch: &mut SearchProgress<'_, R>,
    told: &mut Output,
    errors: &mut E,
) -> Result<Answered, Unlisted>
    ensures told { asked.entry.form ≡ Text → asked.entry.ends ≡ false → IfOk result (λ answered.
        TellsRace asked.entry answered.is_whole answered.judged bytes.now told.old.bytes.items told.new.bytes.items) }
    ensures why { asked.entry.form ≡ Text → asked.entry.ends ≡ false → IfErr result (IsWhyUnlisted asked.entry bytes.now) }
{
    match read_race(rt.alloc(), bytes) {
        Ok(file) => answer_file(rt, asked, bytes, file, watch, told, errors),
        Err(fault) => Err(Unlisted::Faulty(fault)),
    }
}

/// Tells the outcomes of a race that was read from these bytes, and what its claims come to.
fn answer_file<R: Files + Clock + Alloc<A = Global>, E: Write>(
    rt: &R,
    asked: Outcomes<'_>,
    bytes: &[u8],
    file: RaceFile,
    watch: &mut SearchProgress<'_, R>,
    told: &mut Output,
    errors: &mut E,
) -> Result<Answered, Unlisted>
    requires race { IsRaceIn (lines_in 1048576 bytes.now) file.core file.calls.race.calls.items }
    requires recent { IsRecent file.core }
    ensures told { asked.entry.form ≡ Text → asked.entry.ends ≡ false → IfOk result (λ answered.
        TellsRace asked.entry answered.is_whole answered.judged bytes.now told.old.bytes.items told.new.bytes.items) }
    ensures why { asked.entry.form ≡ Text → asked.entry.ends ≡ false → IfErr result (IsWhyUnlisted asked.entry bytes.now) }
{
    let alloc = rt.alloc();
    let RaceFile { core, calls } = file;
    let source = RaceSource {
        alloc,
        bytes,
        calls: &calls,
    };
    expect_claims(source, &core, asked)?;
    let answered = list_judged(source, core, asked, watch, told);
    watch.end();
    let answered = answered?;
    save(rt, source, &answered.listing, asked, errors)?;
    Ok(answered)
}

/// That each line that claims something does so by a condition.
///
/// # Errors
///
/// What is printed of the first line that doesn't, or that memory was refused.
fn expect_claims(source: RaceSource<'_>, core: &Core, asked: Outcomes<'_>) -> Result<(), Unlisted>
    requires { IsRaceIn (lines_in 1048576 source.bytes.now) core.now source.calls.now.race.calls.items }
    ensures claims { OnOk result (ClaimConditions core.now source.entry.calls.now.race.calls.items (race_lines source.entry.bytes.now)) }
    ensures why { IfErr result (IsWhyUnlisted asked.entry source.entry.bytes.now) }
{
    match bad_claim(source, core, asked.file) {
        Ok(None) => Ok(()),
        Ok(Some(text)) => Err(Unlisted::BadClaim(text)),
        Err(AllocError) => Err(Unlisted::Stopped(Stop::NoMemory)),
    }
}

/// Tells the outcomes of a race on this core, and behind them the verdicts on what it claims.
fn list_judged<W: Observer>(
    source: RaceSource<'_>,
    core: Core,
    asked: Outcomes<'_>,
    watch: &mut W,
    told: &mut Output,
) -> Result<Answered, Stop>
    requires tasks { source.calls.now.race.tasks ≡ core.config.tasks }
    requires race { IsRaceIn (lines_in 1048576 source.bytes.now) core source.calls.now.race.calls.items }
    requires claims { ClaimConditions core source.calls.now.race.calls.items (race_lines source.bytes.now) }
    ensures table { IfOk result (λ answered. IsTable (next_by answered.listing.method source.entry.calls.now.race.calls.items source.entry.calls.now.race.tasks)
        source.entry.calls.now.race.tasks answered.listing.all.found.states answered.listing.all.found.origins.items answered.listing.all.found.edges.items) }
    ensures rows { IfOk result (λ answered. length answered.listing.all.found.edges.items ≡ answered.listing.all.found.expanded * source.entry.calls.now.race.tasks) }
    ensures expanded { IfOk result (λ answered. answered.listing.all.found.expanded ≤ length answered.listing.all.found.states) }
    ensures within { IfOk result (λ answered. All (λ outcome. outcome.end < length answered.listing.all.found.states) answered.listing.outcomes.items) }
    ensures told { asked.entry.form ≡ Text → asked.entry.ends ≡ false →
        IfOk result (λ answered. TellsRace asked.entry answered.is_whole answered.judged source.entry.bytes.now
        told.old.bytes.items told.new.bytes.items) }
    ensures not_recent { asked.entry.form ≡ Text → asked.entry.ends ≡ false → IfErr result (λ stop. stop ≡ TooMany → ¬ IsRecent core) }
{
    let mut verdicts = Output::new(source.alloc);
    let judged = judge_claims(source, &core, asked, watch, &mut verdicts)?;
    let listing = list_race(source, core, asked, watch, told)?;
    tell_verdicts(asked, &verdicts, told);
    let is_whole = listing.all.found.is_whole();
    verdicts.settled()?;
    told.settled()?;
    Ok(Answered {
        listing,
        is_whole,
        judged,
    })
}

/// Judges what a file claims of its race, and tells the verdicts.
fn judge_claims<W: Observer>(
    source: RaceSource<'_>,
    core: &Core,
    asked: Outcomes<'_>,
    watch: &mut W,
    verdicts: &mut Output,
) -> Result<Judged, Stop>
    requires tasks { source.calls.now.race.tasks ≡ core.now.config.tasks }
    requires claims { ClaimConditions core.now source.calls.now.race.calls.items (race_lines source.bytes.now) }
    ensures nothing { All (λ line. is_claim line ≡ false) (lines_in 1048576 source.entry.bytes.now).lines → verdicts.new ≡ verdicts.old }
    ensures holds { All (λ line. is_claim line ≡ false) (lines_in 1048576 source.entry.bytes.now).lines → IfOk result (λ judged. judged ≡ Hold) }
    ensures told { asked.entry.form ≡ Text →
        IfOk result (λ judged. PrintsClaims core.now source.entry.calls.now.race.calls.items
        (mark_of (schedules_as asked.entry.schedules)) (margin_of (schedules_as asked.entry.schedules)) asked.entry.limit
        (race_lines source.entry.bytes.now) judged verdicts.old verdicts.new) }
    ensures not_recent { IfErr result (λ stop. stop ≡ TooMany → ¬ IsRecent core.now) }
{
    tell_claims(
        source,
        core,
        plan_of(asked),
        form_of(asked),
        watch,
        verdicts,
    )
}

/// In which form verdicts are printed.
fn form_of(asked: Outcomes<'_>) -> VerdictForm
    ensures plain { asked.entry.form ≡ Text → IsPlain result }
    ensures mark { result.mark.now ≡ mark_of (schedules_as asked.entry.schedules) }
    ensures margin { result.margin.now ≡ margin_of (schedules_as asked.entry.schedules) }
{
    let Details {
        schedules,
        style,
        ..
    } = details_of(asked);
    VerdictForm {
        broken_alone: false,
        has_schedules: schedules.are_told(),
        has_records: matches!(asked.form, OutcomeForm::Json),
        steps: schedules.form(),
        mark: schedules.mark(),
        margin: schedules.margin(),
        style,
    }
}

/// How the states of a race are searched.
fn plan_of(asked: Outcomes<'_>) -> SearchPlan
    ensures limit { result.limit ≡ asked.entry.limit }
    ensures method { result.method ≡ method_of asked.entry.reduction }
{
    SearchPlan {
        limit: asked.limit as usize,
        method: if asked.reduction {
            Method::Reduced
        } else {
            Method::Full
        },
    }
}

/// Tells the outcomes of a race on this core, in the form that is asked for.
fn list_race<W: Observer>(
    source: RaceSource<'_>,
    core: Core,
    asked: Outcomes<'_>,
    watch: &mut W,
    told: &mut Output,
) -> Result<RaceListing, Stop>
    requires { source.calls.now.race.tasks ≡ core.config.tasks }
    ensures table { IfOk result (λ listing. IsTable (next_by listing.method source.entry.calls.now.race.calls.items source.entry.calls.now.race.tasks)
        source.entry.calls.now.race.tasks listing.all.found.states listing.all.found.origins.items listing.all.found.edges.items) }
    ensures rows { IfOk result (λ listing. length listing.all.found.edges.items ≡ listing.all.found.expanded * source.entry.calls.now.race.tasks) }
    ensures expanded { IfOk result (λ listing. listing.all.found.expanded ≤ length listing.all.found.states) }
    ensures within { IfOk result (λ listing. All (λ outcome. outcome.end < length listing.all.found.states) listing.outcomes.items) }
    ensures all { asked.entry.form ≡ Text → asked.entry.ends ≡ false → IfOk result (λ listing. listing.all.found.expanded ≡ length listing.all.found.states →
        TellsAll (method_of asked.entry.reduction) core source.entry.calls.now.race.calls.items (details_of asked.entry) told.old.bytes.items told.new.bytes.items) }
    ensures some { asked.entry.form ≡ Text → asked.entry.ends ≡ false → IfOk result (λ listing. listing.all.found.expanded < length listing.all.found.states →
        TellsSome (method_of asked.entry.reduction) core source.entry.calls.now.race.tasks source.entry.calls.now.race.calls.items
        asked.entry.limit (details_of asked.entry) told.old.bytes.items told.new.bytes.items) }
    ensures not_recent { asked.entry.form ≡ Text → asked.entry.ends ≡ false → IfErr result (λ stop. stop ≡ TooMany → ¬ IsRecent core) }
{
    let (plan, details) = (plan_of(asked), details_of(asked));
    let shape = match asked.form {
        OutcomeForm::Text if asked.ends => {
            return tell_ends(source, &core, plan, details, watch, told);
        }
        OutcomeForm::Text => return tell(source, core, plan, details, watch, told),
        OutcomeForm::Json => Shape::Records,
        OutcomeForm::Html => Shape::Page(asked.file.unwrap_or("A race")),
    };
    let exhibit = Exhibit {
        shape,
        details,
        ends: asked.ends,
    };
    show_outcomes(source, core, plan, exhibit, watch, told)
}

/// Saves a schedule of each outcome, if that is asked for.
///
/// # Errors
///
/// That one wasn't saved: why is printed on the writer of faults.
fn save<R: Files + Alloc<A = Global>, E: Write>(
    rt: &R,
    source: RaceSource<'_>,
    listing: &RaceListing,
    asked: Outcomes<'_>,
    errors: &mut E,
) -> Result<(), Unlisted>
    requires table { IsTable (next_by listing.now.method source.calls.now.race.calls.items source.calls.now.race.tasks)
        source.calls.now.race.tasks listing.now.all.found.states listing.now.all.found.origins.items listing.now.all.found.edges.items }
    requires rows { length listing.now.all.found.edges.items ≡ listing.now.all.found.expanded * source.calls.now.race.tasks }
    requires expanded { listing.now.all.found.expanded ≤ length listing.now.all.found.states }
    requires within { All (λ outcome. outcome.end < length listing.now.all.found.states) listing.now.outcomes.items }
    ensures { IfErr result (λ why. (why ≡ Unsaved) × (is_some asked.entry.save ≡ true)) }
{
    match asked.save {
        Some(folder) => {
            let style = details_of(asked).style;
            let saved = save_outcomes(rt, source, listing, style, folder, errors);
            saved.map_err(|_| Unlisted::Unsaved)
        }
        None => Ok(()),
    }
}

/// Tells the verdicts behind the outcomes.
fn tell_verdicts(asked: Outcomes<'_>, verdicts: &Output, told: &mut Output)
    ensures { asked.entry.form ≡ Text → Prints told.old told.new verdicts.now.bytes.items }
{
    match asked.form {
        OutcomeForm::Text | OutcomeForm::Json => told.text(verdicts.bytes.as_slice()),
        OutcomeForm::Html => {
            if !verdicts.bytes.is_empty() {
                html::print_text(told, verdicts.bytes.as_slice());
            }
            html::print_end(told);
        }
    }
}

/// What is printed under the line of an outcome.
fn details_of(asked: Outcomes<'_>) -> Details
    ensures { result ≡ details_of asked.entry }
{
    Details {
        schedules: schedules_of(asked.schedules),
        model: asked.model,
        style: Style::of(asked.style.kernel_names, asked.style.raw),
    }
}

/// In which form schedules are printed.
fn schedules_of(asked: ScheduleForm) -> Schedules
    ensures { result ≡ schedules_as asked }
{
    match asked {
        ScheduleForm::Untold => Schedules::Untold,
        ScheduleForm::Lines => Schedules::Lines,
        ScheduleForm::Columns => Schedules::Columns,
    }
}
