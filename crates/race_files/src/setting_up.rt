//! What comes before a race.

ghost use Rattle.std.specs.Prelude.{◌≡◌, ◌⊎◌, Err, IfErr, IfNone, IfOk, IfSome, None, OnErr, OnOk, Option, Some, false};
ghost use Rattle.access_model.specs.declared.errors.GateError.TheVariants.{NoMemory};
ghost use Rattle.gate_core.specs.Drivers.{CoreShows};
ghost use Rattle.race_files.specs.FirstFaults.{FailsBeforeRace, HasFaultBeforeRace, IsMemory};
ghost use Rattle.race_files.specs.Left.{AreLeftOf, BeginRace, Left, left_in, line_count, lines_in};
ghost use Rattle.race_files.specs.Observed.{ShowsLines};
ghost use Rattle.race_files.specs.SettingUp.{Opens, SetsUp};
ghost use Rattle.race_files.specs.declared.faults.RaceFault.TheVariants.{Schedule};
ghost use Rattle.schedule_lines.specs.declared.faults.Fault.TheVariants.{Refused};
ghost use Rattle.transcripts.specs.Sessions.{ShowsPlay};
ghost use Rattle.transcripts.specs.Transcript.{ReplayState};

use crate::faults::RaceFault;
use crate::lines::{Lines, is_race};
use access_model::GateError;
use gate_core::Core;
use schedule_lines::{Fault, Output};
use schedule_text::{Line, parse};
use std::alloc::{AllocError, Global};
use transcripts::Session;

/// Who looks at what the lines of a schedule print.
pub trait SetUpObserver {
    ghost use Rattle.race_files.specs.declared.lines.Lines.{Lines as LinesType};
    ghost use Rattle.schedule_lines.specs.declared.output.Output.{Output as OutputType};

    /// What it may be when it has taken what was printed before the next of these lines, and what it may leave of that. One that says nothing
    /// of it may be and leave anything.
    ghost takes: { Self → LinesType → OutputType → Self → OutputType → Type 0 } = { λ _ _ _ _ _. Unit {0} };

    /// Takes what was printed, before the next of these lines is done.
    fn take(&mut self, lines: &Lines<'_>, printed: &mut Output)
        ensures { takes self.old lines.now printed.old self.new printed.new };
}

/// What is printed is dropped.
#[derive(Drop)]
struct Unobserved;

impl SetUpObserver for Unobserved {
    fn take(&mut self, _lines: &Lines<'_>, printed: &mut Output) {
        printed.clear();
    }
}

/// Takes the lines of a schedule before the first line `race`, and does them: the session shows the play that they make of the opening. What
/// they print is dropped.
pub fn set_up(alloc: Global, lines: &mut Lines<'_>) -> Result<Session<Core>, RaceFault>
    ensures count { line_count lines.new ≡ line_count lines.old }
    ensures begin { IfOk result (λ _. BeginRace (left_in lines.old) (left_in lines.new)) }
    ensures made { IfOk result (λ session. (p : ReplayState) × SetsUp None (Some p) (left_in lines.old) (left_in lines.new) × ShowsPlay CoreShows session p) }
    ensures fault { IfErr result (λ fault. FailsBeforeRace None (left_in lines.old) (left_in lines.new) fault ⊎ IsMemory fault) }
{
    do_setting(alloc, lines, &mut Output::new(alloc), &mut Unobserved)
}

/// Does the lines before the first line `race` of a text. None if one of them has a fault, or there is no such line; so it is of no text of a race.
///
/// # Errors
///
/// `AllocError` if there was no memory for it.
pub fn set_up_again(alloc: Global, bytes: &[u8]) -> Result<Option<Session<Core>>, AllocError>
    ensures made { IfOk result (λ found. IfSome found (λ session. (p : ReplayState) × (left : Left) × BeginRace (lines_in 1048576 bytes.now) left ×
        SetsUp None (Some p) (lines_in 1048576 bytes.now) left × ShowsPlay CoreShows session p)) }
    ensures fault { IfOk result (λ found. IfNone found (HasFaultBeforeRace (lines_in 1048576 bytes.now))) }
{
    let mut lines = Lines::new(bytes);
    match set_up(alloc, &mut lines) {
        Ok(session) => Ok(Some(session)),
        Err(fault) => {
            if is_no_memory(fault) {
                Err(AllocError)
            } else {
                Ok(None)
            }
        }
    }
}

/// Whether a fault is that memory was refused.
fn is_no_memory(fault: RaceFault) -> bool
    ensures { result ≡ false → ¬ IsMemory fault }
{
    let RaceFault::Schedule(fault) = fault else {
        return false;
    };
    let Fault::Refused(refusal) = fault else {
        return false;
    };
    refusal == GateError::NoMemory
}

/// Does the lines before the first line `race`, for one who looks at what they print: who takes, before each line that asks for something, what stands
/// there by then. What the line prints stands behind what was left of that.
pub fn do_setting<W: SetUpObserver>(
    alloc: Global,
    lines: &mut Lines<'_>,
    printed: &mut Output,
    watch: &mut W,
) -> Result<Session<Core>, RaceFault>
    ensures count { line_count lines.new ≡ line_count lines.old }
    ensures begin { IfOk result (λ _. BeginRace (left_in lines.old) (left_in lines.new)) }
    ensures made { IfOk result (λ session. (p : ReplayState) × SetsUp None (Some p) (left_in lines.old) (left_in lines.new) × ShowsPlay CoreShows session p) }
    ensures fault { IfErr result (λ fault. FailsBeforeRace None (left_in lines.old) (left_in lines.new) fault ⊎ IsMemory fault) }
    ensures shown { (result ≡ Err (Schedule (Refused NoMemory)) → ⊥) → (q : Option ReplayState) × ShowsLines W.takes (line_count lines.old) None q
        (left_in lines.old) (left_in lines.new) (watch.old, printed.old) (watch.new, printed.new) }
{
    let mut session = open(alloc, lines)?;
    let done = do_lines(&mut session, lines, printed, watch);
    done.and(Ok(session))
}

/// Takes the lines up to the configuration.
fn open(alloc: Global, lines: &mut Lines<'_>) -> Result<Session<Core>, RaceFault>
    ensures count { line_count lines.new ≡ line_count lines.old }
    ensures left { IfOk result (λ _. AreLeftOf (left_in lines.old) (left_in lines.new)) }
    ensures made { IfOk result (λ session. (p : ReplayState) × Opens p (left_in lines.old) (left_in lines.new) × ShowsPlay CoreShows session p) }
    ensures unopened { OnErr result (SetsUp None None (left_in lines.old) (left_in lines.new)) }
    ensures fault { IfErr result (λ fault. FailsBeforeRace None (left_in lines.old) (left_in lines.new) fault ⊎ IsMemory fault) }
{
    while let Some(line) = lines.line()? {
        if let Line::Config(config) = parse(line, None)? {
            let session = Session::new(alloc, config)?;
            lines.take();
            return Ok(session);
        }
        lines.take();
    }
    Err(RaceFault::Schedule(Fault::ConfigExpected))
}

/// Takes the lines behind the configuration, up to the line `race`, and does them. RaceExpected where there is no such line.
fn do_lines<W: SetUpObserver>(
    session: &mut Session<Core>,
    lines: &mut Lines<'_>,
    printed: &mut Output,
    watch: &mut W,
) -> Result<(), RaceFault>
    ensures count { line_count lines.new ≡ line_count lines.old }
    ensures begin { IfOk result (λ _. BeginRace (left_in lines.old) (left_in lines.new)) }
    ensures made { (p : ReplayState) → ShowsPlay CoreShows session.old p → OnOk result (
        (q : ReplayState) × SetsUp (Some p) (Some q) (left_in lines.old) (left_in lines.new) × ShowsPlay CoreShows session.new q) }
    ensures fault { (p : ReplayState) → ShowsPlay CoreShows session.old p →
        IfErr result (λ fault. FailsBeforeRace (Some p) (left_in lines.old) (left_in lines.new) fault ⊎ IsMemory fault) }
    ensures shown { (p : ReplayState) → ShowsPlay CoreShows session.old p → (result ≡ Err (Schedule (Refused NoMemory)) → ⊥) →
        (q : Option ReplayState) × ShowsLines W.takes (line_count lines.old) (Some p) q (left_in lines.old) (left_in lines.new)
        (watch.old, printed.old) (watch.new, printed.new) }
{
    while let Some(line) = lines.line()? {
        if is_race(line)? {
            return Ok(());
        }
        if let Line::Request(request) = parse(line, Some(session.tasks()))? {
            watch.take(lines, printed);
            session.do_request(request, printed)?;
        }
        lines.take();
    }
    Err(RaceFault::RaceExpected)
}
