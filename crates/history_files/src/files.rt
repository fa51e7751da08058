//! A whole file of a history.

ghost use Rattle.std.specs.Prelude.{◌≡◌, ◌+◌, ◌<◌, ◌≤◌, ◌⊎◌, ◌++◌, ℕ, List, Option, IfErr, IfOk, IfSome, Some, Ok, codes, length, take};
ghost use Rattle.history_files.specs.Faults.{IsFaultAt, IsMemory};
ghost use Rattle.history_files.specs.Files.{IsFaultTold, IsHistoryIn, history_from};
ghost use Rattle.history_files.specs.declared.faults.HistoryFault.{HistoryFault as FaultType};
ghost use Rattle.race_files.specs.FirstFaults.{IsFaultTold as IsSetUpFault};
ghost use Rattle.race_files.specs.Left.{lines_in};
ghost use Rattle.race_files.specs.Races.{IsRaceIn, IsRecent};
ghost use Rattle.races.specs.declared.calls.Call.{Call as CallType};

use crate::faults::HistoryFault;
use crate::operations::refused;
use crate::records::{Notes, Record};
use gate_core::Core;
use histories::Marker;
use race_files::{Lines, is_race, read_race};
use schedule_lines::bytes::ReplayFault;
use schedule_lines::words::is_word;
use schedule_lines::{Front, LINES, Output, front_of};
use std::alloc::{AllocError, Global};

/// A history that was read: the core, as it was set up, and what was recorded from there on.
#[derive(Drop)]
pub struct HistoryFile {
    pub core: Core,
    pub markers: Vec<Marker>,
    pub notes: Notes,
}

/// Where the line `history` stands.
#[derive(Clone, Copy)]
pub struct HistoryPlace {
    /// How many bytes stand before it.
    pub before: usize,
    /// How many with it and its newline.
    pub behind: usize,
    /// Its number, from 1.
    pub number: u32,
}

/// Reads a history, which begins on the core that the lines before the first line `history` make of the opening.
///
/// # Errors
///
/// The first fault of the text, with its line, or that memory was refused.
pub fn read_history(alloc: Global, bytes: &[u8]) -> Result<HistoryFile, ReplayFault>
    ensures history { IfOk result (λ file. IsHistoryIn bytes.now file.core file.markers.items file.notes.lines.items) }
    ensures recent { IfOk result (λ file. IsRecent file.core) }
    ensures fault { IfErr result (IsFaultTold bytes.now) }
{
    let Some(place) = find_history(bytes) else {
        return Err(fault_of(alloc, bytes));
    };
    let core = set_up(alloc, &bytes[..place.before])?;
    let mut lines = Lines::new(&bytes[place.behind..]);
    match Record::read(alloc, core.config().tasks, place.number, &mut lines) {
        Ok(record) => {
            let Record { markers, notes, .. } = record;
            Ok(HistoryFile {
                core,
                markers,
                notes,
            })
        }
        Err(fault) => Err(fault.at(place.number + lines.number())),
    }
}

/// Finds the first line `history`.
pub fn find_history(bytes: &[u8]) -> Option<HistoryPlace>
    ensures at { result ≡ history_from 1048576 0 0 bytes.now }
    ensures before { IfSome result (λ place. place.before ≤ length bytes.now) }
    ensures behind { IfSome result (λ place. place.behind ≤ length bytes.now) }
    ensures number { IfSome result (λ place. place.number ≤ 1048576) }
{
    let mut at = 0;
    for done in 0..LINES {
        let rest = &bytes[at..];
        let Front::Line(length) = front_of(rest) else {
            return None;
        };
        let behind = at + length + 1;
        if is_word(&rest[..length], "history") {
            return Some(HistoryPlace {
                before: at,
                behind,
                number: done + 1,
            });
        }
        at = behind;
    }
    None
}

/// The core that these lines set up: the same on which a race begins behind them.
///
/// # Errors
///
/// The first fault of the lines, or that an operation is under way behind them, with its line.
fn set_up(alloc: Global, before: &[u8]) -> Result<Core, ReplayFault>
    ensures race { IfOk result (λ core. (calls : List (List (Option CallType))) × IsRaceIn (lines_in 1048576 (before.now ++ codes "race\n")) core calls) }
    ensures recent { IfOk result (λ core. IsRecent core) }
    ensures fault { IfErr result (λ told. IsSetUpFault (lines_in 1048576 (before.now ++ codes "race\n")) told
        ⊎ ((number : ℕ) × (fault : FaultType) × IsMemory fault × IsFaultAt number fault told)) }
{
    let race = match with_race(alloc, before) {
        Ok(race) => race,
        Err(error) => return Err(refused(error).at(1)),
    };
    let file = read_race(alloc, race.bytes.as_slice())?;
    Ok(file.core)
}

/// Returns these lines, and behind them the line `race`.
pub(crate) fn with_race(alloc: Global, before: &[u8]) -> Result<Output, AllocError>
    ensures { IfOk result (λ race. race.bytes.items ≡ before.now ++ codes "race\n") }
{
    let mut race = Output::new(alloc);
    race.text(before);
    race.text(b"race\n");
    race.settled()?;
    Ok(race)
}

/// The first fault of a text that has no line `history`: one of its lines, or that no line `history` follows, where the lines end, or `race` stands.
fn fault_of(alloc: Global, bytes: &[u8]) -> ReplayFault {
    let mut lines = Lines::new(bytes);
    let end = pass_set_up(&mut lines);
    let before = &bytes[..bytes.len().saturating_sub(lines.rest().len())];
    match set_up(alloc, before) {
        Ok(_) => end.at(lines.number()),
        Err(fault) => fault,
    }
}

/// Passes all lines before a line `race`, and returns what is wrong behind them.
fn pass_set_up(lines: &mut Lines<'_>) -> HistoryFault {
    for _ in 0..LINES {
        match lines.line() {
            Ok(Some(line)) if !matches!(is_race(line), Ok(true)) => lines.take(),
            Ok(_) => return HistoryFault::HistoryExpected,
            Err(fault) => return HistoryFault::from(fault),
        }
    }
    match lines.line() {
        Err(fault) => HistoryFault::from(fault),
        Ok(_) => HistoryFault::HistoryExpected,
    }
}
