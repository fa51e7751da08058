//! A whole file of a race.

ghost use Rattle.std.specs.Prelude.{◌≡◌, ◌<◌, ◌⊎◌, ℕ, IfErr, IfOk, None, Ok, OnOk};
ghost use Rattle.gate_core.specs.Drivers.{CoreShows};
ghost use Rattle.gate_core.specs.Moves.{phase_in};
ghost use Rattle.race_files.specs.FirstFaults.{FailsFromRace, IsFaultTold, IsFirstFault, IsMemory};
ghost use Rattle.race_files.specs.Left.{behind, calls_left, left_in, line_count, lines_in};
ghost use Rattle.race_files.specs.Races.{AllAreIdle, IsRaceIn, IsRecent};
ghost use Rattle.race_files.specs.declared.faults.RaceFault.TheVariants.{UnderWay};
ghost use Rattle.transcripts.specs.Sessions.{ShowsPlay};
ghost use Rattle.transcripts.specs.Transcript.{ReplayState};

use crate::calls::Calls;
use crate::faults::RaceFault;
use crate::lines::Lines;
use crate::setting_up::set_up;
use gate_core::Core;
use schedule_lines::bytes::ReplayFault;
use std::alloc::Global;
use transcripts::{Session, no_memory};

/// A race that was read: the core, as it was set up, and what each of its tasks calls.
#[derive(Drop)]
pub struct RaceFile {
    pub core: Core,
    pub calls: Calls,
    pub ghost tasks: { calls.race.tasks ≡ core.config.tasks },
}

impl RaceFile {
    /// Takes the lines from `race` on, on gates that were set up: the calls are those of all lines behind it.
    pub fn read(
        alloc: Global,
        session: &Session<Core>,
        lines: &mut Lines<'_>,
    ) -> Result<RaceFile, RaceFault>
        ensures core { (p : ReplayState) → ShowsPlay CoreShows session.now p → IfOk result (λ file. CoreShows file.core p.config p.world) }
        ensures idle { (p : ReplayState) → ShowsPlay CoreShows session.now p → OnOk result (AllAreIdle p) }
        ensures calls { IfOk result (λ file. calls_left file.core.config.tasks (behind (left_in lines.old)) ≡ Ok file.calls.race.calls.items) }
        ensures recent { (p : ReplayState) → ShowsPlay CoreShows session.now p → IfOk result (λ file. IsRecent file.core) }
        ensures fault { (p : ReplayState) → ShowsPlay CoreShows session.now p →
            IfErr result (λ fault. FailsFromRace p (left_in lines.old) (left_in lines.new) fault ⊎ IsMemory fault) }
        ensures count { line_count lines.new ≡ line_count lines.old }
    {
        expect_idle(session.gates())?;
        let core = session.gates().twin().map_err(no_memory)?;
        lines.take();
        let calls = Calls::read(alloc, core.config().tasks, lines)?;
        Ok(RaceFile { core, calls })
    }
}

/// That no task is under way.
fn expect_idle(core: &Core) -> Result<(), RaceFault>
    ensures idle { OnOk result ((t : ℕ) → t < core.now.config.tasks → phase_in core.now t ≡ None) }
    ensures busy { IfErr result (λ _. ((t : ℕ) → t < core.now.config.tasks → phase_in core.now t ≡ None) → ⊥) }
    ensures fault { IfErr result (λ fault. fault ≡ UnderWay) }
{
    for task in 0..core.config().tasks {
        if core.is_under_way(task) {
            return Err(RaceFault::UnderWay);
        }
    }
    Ok(())
}

/// Reads a race, which begins on the core that the lines before the first line `race` make of the opening.
///
/// # Errors
///
/// The first fault of the text, with its line, or that memory was refused.
pub fn read_race(alloc: Global, bytes: &[u8]) -> Result<RaceFile, ReplayFault>
    ensures race { IfOk result (λ file. IsRaceIn (lines_in 1048576 bytes.now) file.core file.calls.race.calls.items) }
    ensures recent { IfOk result (λ file. IsRecent file.core) }
    ensures fault { IfErr result (IsFaultTold (lines_in 1048576 bytes.now)) }
{
    let mut lines = Lines::new(bytes);
    match read_lines(alloc, &mut lines) {
        Ok(file) => Ok(file),
        Err(fault) => Err(lines.fault(fault)),
    }
}

fn read_lines(alloc: Global, lines: &mut Lines<'_>) -> Result<RaceFile, RaceFault>
    ensures race { IfOk result (λ file. IsRaceIn (left_in lines.old) file.core file.calls.race.calls.items) }
    ensures recent { IfOk result (λ file. IsRecent file.core) }
    ensures count { line_count lines.new ≡ line_count lines.old }
    ensures fault { IfErr result (λ fault. IsFirstFault (left_in lines.old) (left_in lines.new) fault ⊎ IsMemory fault) }
{
    let session = set_up(alloc, lines)?;
    RaceFile::read(alloc, &session, lines)
}
