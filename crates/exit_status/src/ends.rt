//! How the program ends, and what it tells of a fault.

ghost use Rattle.std.specs.Prelude.{◌≡◌, ◌⊎◌};
ghost use Rattle.std.specs.Io.KnownBytes.{Appends};
ghost use Rattle.exit_status.specs.declared.ends.ProgramEnding.TheVariants.{Done, DoneOfFile, DoneOverGates, Shown, Passed, Blessed, Listed, Possible, Ran, Told, Refused, Misused};

use crate::reading::is_input;
use access_model::GateError;
use schedule_lines::bytes::{ReplayFault, write_out};
use std::fmt::Display;
use std::io::Write;
use std::{fmt, io};

/// What is said of a folder that was named in the place of a file.
const IS_FOLDER: &str = "it is a folder, and a file is expected";

/// How the program ends.
#[derive(Clone, Copy)]
pub enum ProgramEnding {
    /// The whole schedule of standard input was done.
    Done,
    /// The whole schedule of a file was done.
    DoneOfFile,
    /// It was done over the gates that threads use.
    DoneOverGates,
    /// It was done, and shown in another form.
    Shown,
    /// Each schedule of a check prints what it says.
    Passed,
    /// Each file says what it prints.
    Blessed,
    /// All outcomes of a race are printed.
    Listed,
    /// Some execution has the whole history.
    Possible,
    /// A run was done, and what it counted is written.
    Ran,
    /// A text of the program's own was asked for, its version or an explanation, and is written.
    Told,
    /// A schedule, a race, a history or a run was refused, or could not be read or written, or there was no memory; or a check failed; or no execution
    /// has a history.
    Refused,
    /// The command line has a fault, or wishes for help.
    Misused,
}

impl ProgramEnding {
    ghost use Rattle.exit_status.specs.Endings.{of_file};

    /// The exit status.
    pub fn status(self) -> u8
        ensures done { self ≡ Done → result ≡ 0 }
        ensures done_of_file { self ≡ DoneOfFile → result ≡ 0 }
        ensures done_over_gates { self ≡ DoneOverGates → result ≡ 0 }
        ensures shown { self ≡ Shown → result ≡ 0 }
        ensures passed { self ≡ Passed → result ≡ 0 }
        ensures blessed { self ≡ Blessed → result ≡ 0 }
        ensures listed { self ≡ Listed → result ≡ 0 }
        ensures possible { self ≡ Possible → result ≡ 0 }
        ensures ran { self ≡ Ran → result ≡ 0 }
        ensures told { self ≡ Told → result ≡ 0 }
        ensures refused { self ≡ Refused → result ≡ 1 }
        ensures misused { self ≡ Misused → result ≡ 2 }
    {
        match self {
            ProgramEnding::Done
            | ProgramEnding::DoneOfFile
            | ProgramEnding::DoneOverGates
            | ProgramEnding::Shown => 0,
            ProgramEnding::Passed | ProgramEnding::Blessed | ProgramEnding::Listed => 0,
            ProgramEnding::Possible | ProgramEnding::Ran | ProgramEnding::Told => 0,
            ProgramEnding::Refused => 1,
            ProgramEnding::Misused => 2,
        }
    }

    /// Returns how the program ends, if the schedule is that of a file.
    pub fn of_file(self) -> ProgramEnding
        ensures { result ≡ of_file self }
    {
        match self {
            ProgramEnding::Done => ProgramEnding::DoneOfFile,
            ending => ending,
        }
    }
}

/// Says why the program ends; where that can't be said it ends the same.
pub fn report<D: Display + Drop, E: Write>(why: D, errors: &mut E) -> ProgramEnding
    ensures { result ≡ Refused }
{
    let _ = writeln!(errors, "{why}");
    ProgramEnding::Refused
}

/// A text in which each control character is printed by its number, so that none of them moves a terminal's cursor.
#[derive(Clone, Copy)]
pub struct Printable<'a>(pub &'a str);

impl fmt::Display for Printable<'_> {
    fn fmt<W: fmt::Write>(&self, f: &mut fmt::Formatter<W>) -> fmt::Result {
        for character in self.0.chars() {
            if character.is_control() {
                write!(f, "\\x{:02x}", u32::from(character))?;
            } else {
                f.write_char(character)?;
            }
        }
        Ok(())
    }
}

/// The name by which what is read is printed: that of its file, in printable characters, or `''` where that has none; `<stdin>` if no file is named, or `-`.
#[derive(Clone, Copy)]
pub struct SourceName<'a>(pub Option<&'a str>);

impl fmt::Display for SourceName<'_> {
    fn fmt<W: fmt::Write>(&self, f: &mut fmt::Formatter<W>) -> fmt::Result {
        match self.0 {
            Some("") => write!(f, "''"),
            Some(file) if !is_input(self.0) => write!(f, "{}", Printable(file)),
            _ => write!(f, "<stdin>"),
        }
    }
}

/// Says why the program ends, and of which file, if it is of one. Where that can't be said it ends the same.
pub fn report_of<D: Display + Drop, E: Write>(
    why: D,
    file: Option<&str>,
    errors: &mut E,
) -> ProgramEnding
    ensures { result ≡ Refused }
{
    match file {
        None => report(why, errors),
        Some(_) => report(format_args!("{}: {why}", SourceName(file)), errors),
    }
}

/// Says at which line a schedule ended, of which file, if it has one, and why.
pub fn report_fault<E: Write>(
    fault: ReplayFault,
    file: Option<&str>,
    errors: &mut E,
) -> ProgramEnding
    ensures { result ≡ Refused }
{
    report_of(fault, file, errors)
}

/// Says why a file, or standard input where none is named, can't be opened or read.
pub fn report_unopened<E: Write>(
    file: Option<&str>,
    error: &io::Error,
    errors: &mut E,
) -> ProgramEnding
    ensures { result ≡ Refused }
{
    let name = SourceName(file);
    match error.kind() {
        io::ErrorKind::OutOfMemory => report_refusal_of(GateError::NoMemory, file, errors),
        io::ErrorKind::IsADirectory => report(format_args!("{name}: {IS_FOLDER}"), errors),
        _ => report(format_args!("{name}: {error}"), errors),
    }
}

/// Says that a folder was named in the place of a file.
pub fn report_folder<E: Write>(file: &str, errors: &mut E) -> ProgramEnding
    ensures { result ≡ Refused }
{
    report_of(IS_FOLDER, Some(file), errors)
}

/// Writes the text that was asked for of the program itself, as its version, to the end if the ending is `Told`.
pub fn write_text<W: Write, E: Write>(text: &str, writer: &mut W, errors: &mut E) -> ProgramEnding
    ensures ending { (result ≡ Told) ⊎ (result ≡ Refused) }
    ensures told { result ≡ Told → Appends (W.contents writer.old) (W.contents writer.new) text.now }
{
    match write_out(writer, text.as_bytes()) {
        Ok(()) => ProgramEnding::Told,
        Err(fault) => report(fault.text(), errors),
    }
}

/// Says why a run ended.
pub fn report_refusal<E: Write>(refusal: GateError, errors: &mut E) -> ProgramEnding
    ensures { result ≡ Refused }
{
    report_refusal_of(refusal, None, errors)
}

/// Says why the program ends that was refused something, and of which file, if it is of one.
pub fn report_refusal_of<E: Write>(
    refusal: GateError,
    file: Option<&str>,
    errors: &mut E,
) -> ProgramEnding
    ensures { result ≡ Refused }
{
    let (number, name) = (refusal.number(), refusal.name());
    report_of(format_args!("refused {number} {name}"), file, errors)
}

/// Says that there are no words: an argument is no text, or there was no memory for them.
pub fn report_unreadable<E: Write>(error: &io::Error, errors: &mut E) -> ProgramEnding
    ensures { (result ≡ Refused) ⊎ (result ≡ Misused) }
{
    match error.kind() {
        io::ErrorKind::InvalidData => {
            report(
                "error: invalid UTF-8 was detected in one or more arguments",
                errors,
            );
            ProgramEnding::Misused
        }
        io::ErrorKind::OutOfMemory => report_refusal(GateError::NoMemory, errors),
        _ => report(format_args!("error: {error}"), errors),
    }
}
