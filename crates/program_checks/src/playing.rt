//! The lines of a file, done one by one.

ghost use Rattle.std.specs.Prelude.{OnOk};
ghost use Rattle.history_files.specs.Verdicts.{TellsVerdict};

use crate::claims::claims_some;
use crate::said::{Said, said_in};
use access_model::GateError;
use diagnostics::{Context, Faulty, diagnosis};
use exploration::Stop;
use gate_core::Core;
use history_files::{Unjudged, Unvalidated, fault_text, print_verdict};
use race_files::setting_up::{SetUpObserver, do_setting};
use race_files::{Lines, RaceFault, RaceFile};
use race_outcomes::print_briefly;
use schedule_lines::bytes::ReplayFault;
use schedule_lines::{Fault, LINES, Output};
use std::alloc::{AllocError, Global};
use transcripts::Session;

/// How many states a race may have here.
pub const STATES: usize = 100_000;

/// What a file's name ends with that is to have a race.
const RACE: &str = ".race";

/// What a file's name ends with that has a history.
const HISTORY: &str = ".history";

/// What a file says first of what its race prints, where it says the outcomes alone.
const OUTCOMES: &[u8] = b"outcomes:";

/// Why a file was not done to its end.
#[derive(Clone, Copy)]
pub enum Stopped {
    /// The fault of a line.
    Fault(ReplayFault),
    /// Its race or its history has more states than it may have here.
    TooMany,
    /// There was no memory.
    NoMemory,
}

/// A file, by its name if it has one, and all its bytes.
#[derive(Clone, Copy)]
pub struct Source<'a> {
    pub file: Option<&'a str>,
    pub bytes: &'a [u8],
}

impl<'a> Source<'a> {
    /// Returns what a person is told of a fault.
    pub fn faulty(self, fault: ReplayFault) -> Faulty<'a> {
        let (context, rest) = Context::find(self.bytes, fault.line);
        Faulty {
            file: self.file,
            fault,
            context,
            rest,
        }
    }

    /// Returns the text of a fault, with its line and how to mend it.
    ///
    /// # Errors
    ///
    /// `AllocError` if there was no memory for it.
    pub fn fault_text(self, alloc: Global, fault: ReplayFault) -> Result<String, AllocError> {
        if self.is_named_history() {
            fault_text(alloc, self.file, self.bytes, fault)
        } else {
            diagnosis(alloc, self.faulty(fault))
        }
    }

    /// Does the lines of a schedule, or of a race, whose outcomes are what its line `race` prints, for one who looks at what each line prints. A file
    /// that is named as a race has to be one. Where the first line that says what the race prints is `#> outcomes:`, the race prints that line
    /// in the place of the one that counts states and outcomes. A race of which something is claimed prints nothing where no line says what.
    /// Of a file that is named as a history only the verdict is printed, behind its last line.
    pub fn play<W: SetUpObserver>(self, alloc: Global, watch: &mut W) -> Result<(), Stopped> {
        let mut lines = Lines::new(self.bytes);
        let mut printed = Output::new(alloc);
        if self.is_named_history() {
            print_history(alloc, self.bytes, &mut printed)?;
            pass_all(&mut lines);
            watch.take(&lines, &mut printed);
            return Ok(());
        }
        let set_up = do_setting(alloc, &mut lines, &mut printed, watch);
        watch.take(&lines, &mut printed);
        match set_up {
            Ok(session) => {
                let done = print_race(alloc, &session, &mut lines, &mut printed);
                watch.take(&lines, &mut printed);
                done
            }
            Err(RaceFault::RaceExpected) if !self.is_named_race() => Ok(()),
            Err(fault) => Err(Stopped::Fault(lines.fault(fault))),
        }
    }

    /// Whether the file is named as a history, all of whose lines `#> TEXT` say its verdict, wherever they stand.
    pub fn is_named_history(self) -> bool {
        self.file.is_some_and(|file| file.ends_with(HISTORY))
    }

    /// Whether the file is named as a race.
    fn is_named_race(self) -> bool {
        self.file.is_some_and(|file| file.ends_with(RACE))
    }
}

/// Takes all lines.
fn pass_all(lines: &mut Lines<'_>) {
    for _ in 0..LINES {
        if lines.next().is_none() {
            break;
        }
    }
}

/// Prints the verdict on a history.
///
/// # Errors
///
/// The fault of its text, or why it has no verdict.
fn print_history(alloc: Global, bytes: &[u8], printed: &mut Output) -> Result<(), Stopped>
    ensures { OnOk result (TellsVerdict bytes.now printed.old printed.new) }
{
    match print_verdict(alloc, bytes, STATES, printed) {
        Ok(()) => Ok(()),
        Err(Unvalidated::Faulty(fault)) => Err(Stopped::Fault(fault)),
        Err(Unvalidated::Unjudged(Unjudged::TooMany | Unjudged::NoNumbers)) => {
            Err(Stopped::TooMany)
        }
        Err(Unvalidated::Unjudged(Unjudged::NoMemory)) => Err(Stopped::NoMemory),
    }
}

/// Reads a race, and prints its outcomes, if they are to be printed.
fn print_race(
    alloc: Global,
    session: &Session<Core>,
    lines: &mut Lines<'_>,
    printed: &mut Output,
) -> Result<(), Stopped> {
    let rest = lines.rest();
    let said = first_said(rest);
    let file = RaceFile::read(alloc, session, lines).map_err(|fault| Stopped::Fault(lines.fault(
        fault,
    )))?;
    if said.is_none() && claims_some(rest) {
        return Ok(());
    }
    match print_outcomes(alloc, file, printed) {
        Ok(true) => {
            if said == Some(OUTCOMES) {
                leave_counts_out(alloc, printed);
            }
            printed.settled().map_err(|_| refused(lines))
        }
        Ok(false) => {
            printed.clear();
            Err(Stopped::TooMany)
        }
        Err(Stop::TooMany | Stop::NoNumbers) => Err(Stopped::TooMany),
        Err(Stop::NoMemory) => Err(refused(lines)),
    }
}

/// Returns that memory was refused at a line.
fn refused(lines: &Lines<'_>) -> Stopped {
    let fault = RaceFault::Schedule(Fault::Refused(GateError::NoMemory));
    Stopped::Fault(lines.fault(fault))
}

/// Prints the outcomes of a race briefly. Whether these are all.
fn print_outcomes(alloc: Global, file: RaceFile, printed: &mut Output) -> Result<bool, Stop> {
    let RaceFile { core, calls } = file;
    print_briefly(alloc, &calls.race, core, STATES, printed)
}

/// Returns what the first line `#> TEXT` says that is printed; None where there is no such line.
fn first_said(bytes: &[u8]) -> Option<&[u8]> {
    let mut lines = Lines::new(bytes);
    for _ in 0..LINES {
        let line = lines.next()?;
        if let Some(Said::Line(text)) = said_in(line) {
            return Some(text);
        }
    }
    None
}

/// Puts the line `outcomes:` in the place of the first line, which says how many states and outcomes there are.
fn leave_counts_out(alloc: Global, printed: &mut Output) {
    let mut lines = printed
        .bytes
        .as_slice()
        .split_inclusive(|byte| *byte == b'\n');
    let _ = lines.next();
    let mut outcomes = Output::new(alloc);
    outcomes.line(OUTCOMES);
    for line in lines {
        outcomes.text(line);
    }
    outcomes.is_whole &= printed.is_whole;
    *printed = outcomes;
}
