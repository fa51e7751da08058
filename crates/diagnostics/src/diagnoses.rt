//! A diagnosis: a fault with its line, and how to mend it.

ghost use Rattle.std.specs.Prelude.{◌≡◌};
ghost use Rattle.exit_status.specs.declared.ends.ProgramEnding.TheVariants.{Refused};

use crate::contexts::Context;
use crate::hints::{find, tell_first_line};
use crate::places::Place;
use crate::texts::Text;
use exit_status::{ProgramEnding, SourceName, report, report_fault};
use schedule_lines::bytes::ReplayFault;
use schedule_lines::{Fault, FaultKind, Front, front_of};
use std::alloc::{AllocError, Global};
use std::io::Write;

/// A fault of a schedule or a race, and what was read of it.
#[derive(Clone, Copy)]
pub struct Faulty<'a> {
    /// Its file; standard input, if none is named.
    pub file: Option<&'a str>,
    pub fault: ReplayFault,
    pub context: Context,
    /// What was read from the faulty line on.
    pub rest: &'a [u8],
}

/// A fault at a known place of a line, and how to mend it.
#[derive(Clone, Copy)]
pub struct Marked<'a> {
    /// Its file; standard input, if none is named.
    pub file: Option<&'a str>,
    /// The number of the line, from 1.
    pub number: u32,
    pub line: &'a [u8],
    /// How many bytes of the line stand before what is at fault, and how many that has.
    pub before: usize,
    pub length: usize,
    pub error: &'a str,
    pub help: &'a str,
}

impl Marked<'_> {
    /// Returns its text, in the same form as `diagnosis`.
    ///
    /// # Errors
    ///
    /// `AllocError` if there was no memory for it.
    pub fn told(self, alloc: Global) -> Result<String, AllocError> {
        let behind = self.line.get(self.before..).unwrap_or(b"");
        let place = Place {
            part: behind.get(..self.length).unwrap_or(behind),
            column: self.before.saturating_add(1),
        };
        let mut text = Text::new(alloc);
        put_source(&mut text, self.file, self.number, Some(place));
        text.put(self.error);
        put_line(&mut text, self.line, place);
        text.put("\nhelp: ");
        text.put(self.help);
        text.ended()
    }
}

/// Tells a fault with its line, and how to mend it; the fault alone if there is no memory for more.
pub fn tell_faulty<E: Write>(alloc: Global, faulty: Faulty<'_>, errors: &mut E) -> ProgramEnding
    ensures { result ≡ Refused }
{
    match diagnosis(alloc, faulty) {
        Ok(text) => report(text.as_str(), errors),
        Err(AllocError) => report_fault(faulty.fault, faulty.file, errors),
    }
}

/// Returns the text of a fault: `FILE:LINE:COLUMN: error: TEXT`, and on lines of their own the faulty line, a caret under what is at fault, and how to
/// mend it. The last of them has no newline.
///
/// # Errors
///
/// `AllocError` if there was no memory for it.
pub fn diagnosis(alloc: Global, faulty: Faulty<'_>) -> Result<String, AllocError> {
    let mut help = Text::new(alloc);
    let line = line_of(faulty);
    let place = match line {
        Some(line) => Some(find(&mut help, faulty.fault.kind, line, faulty.context)),
        None => {
            tell_no_line(&mut help, faulty.fault.kind);
            None
        }
    };
    let help = help.ended()?;
    let mut text = Text::new(alloc);
    put_head(&mut text, faulty, place);
    if let (Some(line), Some(place)) = (line, place) {
        put_line(&mut text, line, place);
    }
    if !help.is_empty() {
        text.put("\nhelp: ");
        text.put(help.as_str());
    }
    text.ended()
}

/// Returns the faulty line, if there is one that can be shown.
fn line_of<'a>(faulty: Faulty<'a>) -> Option<&'a [u8]> {
    match faulty.fault.kind {
        FaultKind::Schedule(
            Fault::TooManyLines | Fault::LineTooLong | Fault::ReadFailed | Fault::WriteFailed,
        ) => None,
        FaultKind::Schedule(Fault::CutOff) => Some(faulty.rest),
        FaultKind::Schedule(Fault::Refused(_)) if !matches!(faulty.context, Context::Opening) => {
            None
        }
        _ => match front_of(faulty.rest) {
            Front::Line(length) => Some(&faulty.rest[..length]),
            _ => None,
        },
    }
}

/// Tells how to mend a fault that no line shows.
fn tell_no_line(help: &mut Text, fault: FaultKind) {
    match fault {
        FaultKind::Schedule(Fault::TooManyLines) => help.put(
            "a schedule has at most 1048576 lines",
        ),
        FaultKind::Schedule(Fault::LineTooLong) => help.put(
            "a line has at most 256 bytes before its newline",
        ),
        FaultKind::Schedule(Fault::ConfigExpected) => tell_first_line(help),
        FaultKind::RaceExpected => help.put(
            "a race has a line 'race', and behind it what each task calls; 'mntgate replay' plays a schedule",
        ),
        _ => {}
    }
}

/// Puts the place of a fault.
fn put_source(text: &mut Text, file: Option<&str>, line: u32, place: Option<Place<'_>>) {
    text.put(SourceName(file));
    text.put(":");
    text.put(line);
    if let Some(place) = place {
        text.put(":");
        text.put(place.column);
    }
    text.put(": error: ");
}

/// Puts the place of a fault and its text.
fn put_head(text: &mut Text, faulty: Faulty<'_>, place: Option<Place<'_>>) {
    put_source(text, faulty.file, faulty.fault.line, place);
    text.put(faulty.fault.kind);
    if let Some(place) = place
        && is_of_word(faulty.fault.kind)
        && is_word(place.part)
    {
        text.put(" '");
        text.bytes(place.part);
        text.put("'");
    }
}

/// Whether a fault is that of one word, which is printed with it.
fn is_of_word(fault: FaultKind) -> bool {
    matches!(
        fault,
        FaultKind::Schedule(
            Fault::UnknownCommand | Fault::NoSuchTask | Fault::BadNumber | Fault::BadWord
        )
    )
}

/// Whether a part of a line is a word that can be shown as it is.
fn is_word(part: &[u8]) -> bool {
    !part.is_empty() && part.iter().all(|byte| byte.is_ascii_graphic())
}

/// Puts a line, and a caret under a part of it.
fn put_line(text: &mut Text, line: &[u8], place: Place<'_>) {
    text.put("\n  ");
    text.bytes(line);
    text.put("\n  ");
    let before = line.get(..place.column.saturating_sub(1)).unwrap_or(line);
    text.repeated(' ', width_of(before));
    text.put("^");
    text.repeated('~', width_of(place.part).saturating_sub(1));
}

/// Returns how many characters show these bytes.
fn width_of(bytes: &[u8]) -> usize {
    let mut width: usize = 0;
    for byte in bytes {
        let more = match *byte {
            b'\t' | b'\r' => 2,
            b' ' => 1,
            graphic if graphic.is_ascii_graphic() => 1,
            _ => 4,
        };
        width = width.saturating_add(more);
    }
    width
}
