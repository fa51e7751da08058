//! Files that are made to say what they print, from the command line.

ghost use Rattle.std.specs.Prelude.{◌≡◌, ◌⊎◌};
ghost use Rattle.exit_status.specs.declared.ends.ProgramEnding.TheVariants.{Blessed, Refused};

use crate::blessed::blessed;
use crate::playing::{STATES, Source, Stopped};
use access_model::GateError;
use exit_status::{
    ProgramEnding, expect_file, read_bytes, replace_file, report, report_fault, report_of,
    report_refusal, report_refusal_of, report_unopened,
};
use schedule_lines::Output;
use schedule_lines::bytes::write_out;
use std::alloc::{AllocError, Global};
use std::fs;
use std::io::{Read, Write};
use std::rt::Files;

/// How many files were written, stayed as they were, and failed.
#[derive(Drop)]
struct Counts {
    written: u64,
    unchanged: u64,
    failed: u64,
}

impl Counts {
    /// Counts a file.
    fn add(&mut self, blessed: Result<bool, ProgramEnding>) {
        match blessed {
            Ok(true) => self.written = self.written.saturating_add(1),
            Ok(false) => self.unchanged = self.unchanged.saturating_add(1),
            Err(_) => self.failed = self.failed.saturating_add(1),
        }
    }

    /// Writes the counts.
    fn end<W: Write, E: Write>(self, alloc: Global, writer: &mut W, errors: &mut E) -> ProgramEnding
        ensures { (result ≡ Blessed) ⊎ (result ≡ Refused) }
    {
        let mut told = Output::new(alloc);
        told.number(self.written);
        told.numbered(b" written, ", self.unchanged);
        told.numbered(b" unchanged, ", self.failed);
        told.text(b" failed\n");
        if told.settled().is_err() {
            return report_refusal(GateError::NoMemory, errors);
        }
        match write_out(writer, told.bytes.as_slice()) {
            Ok(()) if self.failed == 0 => ProgramEnding::Blessed,
            Ok(()) => ProgramEnding::Refused,
            Err(fault) => report(fault.text(), errors),
        }
    }
}

/// Writes what the schedules and races of some files print into them, in the place of what they say of it. Writes how many were written, stayed as
/// they were, and failed; a file that has a fault, or can't be read or written, is printed on the writer of faults, and stays as it is. So does one that is no
/// regular file, or has other names. Of a link the file is written to which it leads.
pub fn run_blessings<R: Files + Alloc<A = Global>, I: Read, W: Write, E: Write>(
    rt: &R,
    alloc: Global,
    files: &[&str],
    reader: &mut I,
    writer: &mut W,
    errors: &mut E,
) -> ProgramEnding
    ensures { (result ≡ Blessed) ⊎ (result ≡ Refused) }
{
    let mut counts = Counts {
        written: 0,
        unchanged: 0,
        failed: 0,
    };
    for file in files {
        counts.add(bless(rt, alloc, file, reader, errors));
    }
    counts.end(alloc, writer, errors)
}

/// Writes what a file prints into it, unless it says so already; whether it was written.
fn bless<R: Files + Alloc<A = Global>, I: Read, E: Write>(
    rt: &R,
    alloc: Global,
    file: &str,
    reader: &mut I,
    errors: &mut E,
) -> Result<bool, ProgramEnding> {
    // A pipe would be read, and can't be replaced.
    fs::metadata(rt, file)
        .and_then(|found| expect_file(&found))
        .map_err(|error| report_unopened(Some(file), &error, errors))?;
    let bytes = read_bytes(rt, alloc, Some(file), reader, errors)?;
    let source = Source {
        file: Some(file),
        bytes: bytes.as_slice(),
    };
    let lines = blessed(alloc, source).map_err(|stopped| tell_stopped(
        alloc, source, stopped, errors,
    ))?;
    write_new(rt, file, source.bytes, &lines, errors)
}

/// Tells why a file can't be made to say what it prints.
fn tell_stopped<E: Write>(
    alloc: Global,
    source: Source<'_>,
    stopped: Stopped,
    errors: &mut E,
) -> ProgramEnding {
    match stopped {
        Stopped::Fault(fault) => match source.fault_text(alloc, fault) {
            Ok(text) => report(text.as_str(), errors),
            Err(AllocError) => report_fault(fault, source.file, errors),
        },
        Stopped::TooMany => report_of(
            format_args!("more than {STATES} states"),
            source.file,
            errors,
        ),
        Stopped::NoMemory => report_refusal_of(GateError::NoMemory, source.file, errors),
    }
}

/// Writes these lines into a file that has others, unless they are the same; whether it was written.
fn write_new<R: Files + Alloc<A = Global>, E: Write>(
    rt: &R,
    file: &str,
    others: &[u8],
    lines: &Output,
    errors: &mut E,
) -> Result<bool, ProgramEnding> {
    if lines.settled().is_err() {
        return Err(report_refusal_of(GateError::NoMemory, Some(file), errors));
    }
    if lines.bytes.as_slice() == others {
        return Ok(false);
    }
    replace_file(rt, file, lines.bytes.as_slice()).map_err(|error| report_unopened(
        Some(file),
        &error,
        errors,
    ))?;
    Ok(true)
}
