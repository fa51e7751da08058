//! What a schedule prints, compared with what it says of it.

ghost use Rattle.std.specs.Prelude.{◌≡◌, ◌-◌, IsTrue, true, take, []};
ghost use Rattle.race_files.specs.Left.{left_in};
ghost use Rattle.program_checks.specs.Said.{said_by};

use crate::claims::{Judged, VerdictForm, bad_claim, claims_some, tell_claims};
use crate::playing::{STATES, Source, Stopped};
use crate::said::{Said, read_said, said_in};
use diagnostics::Text;
use exit_status::SourceName;
use exploration::{Stop, Unobserved};
use race_files::setting_up::SetUpObserver;
use race_files::{Lines, RaceFile, RaceSource, read_race};
use race_outcomes::{Method, SearchPlan};
use replay_forms::Style;
use schedule_lines::Output;
use std::alloc::{AllocError, Global};

/// How a schedule compares.
#[derive(Drop)]
pub struct Checked {
    /// Whether it has no fault, and prints what it says, each line under its command.
    pub passed: bool,
    /// What differs, and the fault, on lines that each end with a newline.
    pub told: String,
}

/// Replays a schedule over the core, and compares all that each command prints with the lines `#> TEXT` between it and the next command, and
/// all outcomes of a race, where it ends with one, with those behind the line `race`. What it claims of a race is judged. A race of which
/// something is claimed need not say its outcomes.
pub fn check(alloc: Global, source: Source<'_>) -> Result<Checked, AllocError> {
    let mut comparison = Comparison {
        alloc,
        file: source.file,
        said: Lines::new(source.bytes),
        passed: true,
        is_whole: true,
        told: Text::new(alloc),
    };
    match source.play(alloc, &mut comparison) {
        Ok(()) => comparison.judge(alloc, source)?,
        Err(stopped) => comparison.stop(alloc, source, stopped)?,
    }
    let Comparison {
        alloc: _,
        file: _,
        said: _,
        passed,
        is_whole,
        told,
    } = comparison;
    if !is_whole {
        return Err(AllocError);
    }
    Ok(Checked {
        passed,
        told: told.ended()?,
    })
}

/// A check on its way.
#[derive(Drop)]
struct Comparison<'a> {
    alloc: Global,
    file: Option<&'a str>,
    /// The lines from the last command on, which say what it prints.
    said: Lines<'a>,
    passed: bool,
    /// Whether there was memory for all that lines say.
    is_whole: bool,
    told: Text,
}

/// Lines of a file that follow one another: the number of the first, the bytes from it on, and how many they are.
#[derive(Clone, Copy)]
struct Place<'a> {
    number: u32,
    rest: &'a [u8],
    count: u32,
}

impl SetUpObserver for Comparison<'_> {
    ghost takes = { λ old lines printed new left. (left.bytes.items ≡ []) × (IsTrue new.passed → IsTrue old.passed
        × (printed.bytes.items ≡ said_by (take (lines.done - old.said.done) (left_in old.said).lines))) };

    /// Compares all that the last command printed with what the lines between it and the next one say.
    fn take(&mut self, lines: &Lines<'_>, printed: &mut Output) {
        let (number, rest) = (self.said.number(), self.said.rest());
        let count = lines.number().saturating_sub(number);
        let said = read_said(self.alloc, &mut self.said, count);
        let place = Place {
            number,
            rest,
            count,
        };
        self.compare(place, &said, printed);
        printed.clear();
    }
}

impl Comparison<'_> {
    /// Compares all that was printed with what is said at a place. It has passed only if these are the same bytes.
    fn compare(&mut self, place: Place<'_>, said: &Output, printed: &Output)
        ensures { IsTrue self.new.passed → IsTrue self.old.passed × (said.now.is_whole ≡ true) × (said.now.bytes.items ≡ printed.now.bytes.items) }
    {
        if said.is_whole && said.bytes.as_slice() == printed.bytes.as_slice() {
            return;
        }
        // A part of it differs only since there was no memory for the rest, which the replay's fault tells.
        if printed.is_whole {
            self.tell_difference(place, said.bytes.as_slice(), printed.bytes.as_slice());
        }
        self.is_whole &= said.is_whole;
        self.passed = false;
    }

    /// Tells how what was printed differs from what is said at a place, line by line, each by the number of the line that says it.
    fn tell_difference(&mut self, place: Place<'_>, said: &[u8], printed: &[u8]) {
        let mut wanted = said.split_inclusive(|byte| *byte == b'\n');
        let mut shown = printed.split_inclusive(|byte| *byte == b'\n');
        let mut lines = Lines::new(place.rest);
        let mut goes_on = false;
        for index in 0..place.count {
            let number = place.number.saturating_add(index);
            let begins = lines.next().is_some_and(|line| match said_in(line) {
                Some(Said::Line(_)) => true,
                Some(Said::More(_)) => !goes_on,
                None => false,
            });
            if begins && let Some(text) = wanted.next() {
                goes_on = true;
                self.tell_unless_same(number, text, shown.next());
            }
        }
        for line in shown {
            self.begin(place.number);
            self.quote("'", line, "' was printed, which no line says\n");
        }
    }

    /// Tells what is said by a line of this number, unless that was printed.
    fn tell_unless_same(&mut self, number: u32, text: &[u8], line: Option<&[u8]>) {
        if let Some(line) = line
            && line == text
        {
            return;
        }
        self.begin(number);
        self.quote("expected '", text, "', and ");
        match line {
            Some(line) => self.quote("'", line, "' was printed\n"),
            None => self.told.put("nothing more was printed\n"),
        }
    }

    /// Begins to tell of the line of this number.
    fn begin(&mut self, number: u32) {
        self.told.put(SourceName(self.file));
        self.told.put(":");
        self.told.put(number);
        self.told.put(": error: ");
    }

    /// Tells a line without its newline, and what stands before and after it.
    fn quote(&mut self, before: &str, line: &[u8], after: &str) {
        self.told.put(before);
        self.told
            .bytes(line.strip_suffix(b"\n".as_slice()).unwrap_or(line));
        self.told.put(after);
    }

    /// Judges what a file claims of its race, if it claims something, and tells which claims don't hold.
    fn judge(&mut self, alloc: Global, source: Source<'_>) -> Result<(), AllocError> {
        if !claims_some(source.bytes) {
            return Ok(());
        }
        let file = match read_race(alloc, source.bytes) {
            Ok(file) => file,
            Err(fault) => return self.stop(alloc, source, Stopped::Fault(fault)),
        };
        if let Some(text) = bad_claim_in(alloc, source, &file)? {
            self.passed = false;
            self.told.put(text.as_str());
            self.told.put("\n");
            return Ok(());
        }
        let mut told = Output::new(alloc);
        let judged = judge_claims(alloc, source.bytes, file, &mut told);
        told.settled()?;
        match judged {
            Ok(Judged::Hold) => Ok(()),
            Ok(Judged::Broken) => {
                self.fail(told.bytes.as_slice());
                Ok(())
            }
            Ok(Judged::Unjudged) => self.stop(alloc, source, Stopped::TooMany),
            Err(Stop::TooMany | Stop::NoNumbers) => self.stop(alloc, source, Stopped::TooMany),
            Err(Stop::NoMemory) => Err(AllocError),
        }
    }

    /// Tells the verdicts on claims that don't hold.
    fn fail(&mut self, verdicts: &[u8]) {
        self.passed = false;
        if let Some(file) = self.file {
            self.told.put(file);
            self.told.put(": ");
        }
        self.tell_lines(verdicts);
    }

    /// Tells lines as they are.
    fn tell_lines(&mut self, bytes: &[u8]) {
        for line in bytes.split_inclusive(|byte| *byte == b'\n') {
            self.quote("", line, "\n");
        }
    }

    /// Tells why the lines were not done to their end.
    fn stop(
        &mut self,
        alloc: Global,
        source: Source<'_>,
        stopped: Stopped,
    ) -> Result<(), AllocError> {
        self.passed = false;
        match stopped {
            Stopped::Fault(fault) => {
                let text = source.fault_text(alloc, fault)?;
                self.told.put(text.as_str());
                self.told.put("\n");
            }
            Stopped::TooMany => {
                self.told.put(SourceName(self.file));
                self.told.put(format_args!(": more than {STATES} states\n"));
            }
            Stopped::NoMemory => return Err(AllocError),
        }
        Ok(())
    }
}

/// Returns what is printed of the first line of a race's file that claims something by what is no condition.
fn bad_claim_in(
    alloc: Global,
    source: Source<'_>,
    file: &RaceFile,
) -> Result<Option<String>, AllocError> {
    let race = RaceSource {
        alloc,
        bytes: source.bytes,
        calls: &file.calls,
    };
    bad_claim(race, &file.core, source.file)
}

/// Judges what a file claims of its race, and tells which claims are broken.
fn judge_claims(
    alloc: Global,
    bytes: &[u8],
    file: RaceFile,
    told: &mut Output,
) -> Result<Judged, Stop> {
    let RaceFile { core, calls } = file;
    let source = RaceSource {
        alloc,
        bytes,
        calls: &calls,
    };
    let form = VerdictForm {
        broken_alone: true,
        has_schedules: false,
        has_records: false,
        steps: None,
        mark: b"",
        margin: b"  ",
        style: Style::of(false, false),
    };
    let plan = SearchPlan {
        limit: STATES,
        method: Method::Reduced,
    };
    tell_claims(source, &core, plan, form, &mut Unobserved, told)
}
