//! The validation of a history, from the command line.

ghost use Rattle.std.specs.Prelude.{◌≡◌, ◌⊎◌, None, IfSome};
ghost use Rattle.std.specs.Io.KnownBytes.{Appends};
ghost use Rattle.exit_status.specs.declared.ends.ProgramEnding.TheVariants.{Possible, Refused};
ghost use Rattle.mntgate.specs.Validated.{EndsValidated};
ghost use Rattle.schedule_lines.specs.bytes.Writing.{AppendsPart};

use crate::progress::SearchProgress;
use crate::unlisted::UNNUMBERED;
use access_model::GateError;
use command_line::Validation;
use exit_status::{ProgramEnding, read_bytes, report, report_fault, report_of, report_refusal_of};
use history_files::{Told, Unjudged, Unvalidated, fault_text, validate};
use schedule_lines::bytes::{ReplayFault, write_out};
use std::alloc::{AllocError, Global};
use std::io::{Read, Stderr, Write};
use std::rt::{Clock, Files};

/// Says whether some execution has the history that a file has, or the reader, where none is named. It ends as Possible where one has. Else it tells
/// the first line that none has, and writes an execution that leads there. Where a person watches, the search tells there how far it is.
pub fn run_validation<R: Files + Clock + Alloc<A = Global>, I: Read, W: Write, E: Write>(
    rt: &R,
    alloc: Global,
    asked: Validation<'_>,
    reader: &mut I,
    writer: &mut W,
    errors: &mut E,
    watched: Option<Stderr>,
) -> ProgramEnding
    ensures { EndsValidated asked.entry (I.remaining reader.old) (W.contents writer.old) (W.contents writer.new) result }
{
    let bytes = match read_bytes(rt, alloc, asked.file, reader, errors) {
        Ok(bytes) => bytes,
        Err(ending) => return ending,
    };
    let bytes = bytes.as_slice();
    let mut watch = SearchProgress::new(rt, watched);
    let validated = validate(alloc, asked.file, bytes, asked.limit as usize, &mut watch);
    watch.end();
    match validated {
        Ok(told) => write_told(&told, writer, errors),
        Err(why) => tell_unvalidated(alloc, asked, bytes, why, errors),
    }
}

/// Writes what is printed of a verdict, and returns how the program ends then.
fn write_told<W: Write, E: Write>(told: &Told, writer: &mut W, errors: &mut E) -> ProgramEnding
    ensures possible { told.now.fault ≡ None → ((result ≡ Possible) × Appends (W.contents writer.old) (W.contents writer.new) told.now.text.bytes.items)
        ⊎ ((result ≡ Refused) × AppendsPart (W.contents writer.old) (W.contents writer.new) told.now.text.bytes.items) }
    ensures impossible { IfSome told.now.fault (λ fault. (result ≡ Refused) × (Appends (W.contents writer.old) (W.contents writer.new) told.now.text.bytes.items
        ⊎ AppendsPart (W.contents writer.old) (W.contents writer.new) told.now.text.bytes.items)) }
{
    if let Some(fault) = &told.fault {
        let _ = report(fault.text.as_str(), errors);
    }
    if let Err(fault) = write_out(writer, told.text.bytes.as_slice()) {
        return report(fault.text(), errors);
    }
    match &told.fault {
        Some(_) => ProgramEnding::Refused,
        None => ProgramEnding::Possible,
    }
}

/// Tells why the history in these bytes has no verdict.
fn tell_unvalidated<E: Write>(
    alloc: Global,
    asked: Validation<'_>,
    bytes: &[u8],
    why: Unvalidated,
    errors: &mut E,
) -> ProgramEnding
    ensures { result ≡ Refused }
{
    match why {
        Unvalidated::Faulty(fault) => tell_fault(alloc, asked, bytes, fault, errors),
        Unvalidated::Unjudged(Unjudged::NoMemory) => {
            report_refusal_of(GateError::NoMemory, asked.file, errors)
        }
        Unvalidated::Unjudged(Unjudged::NoNumbers) => report_of(UNNUMBERED, asked.file, errors),
        Unvalidated::Unjudged(Unjudged::TooMany) => {
            let limit = asked.limit;
            report_of(format_args!("more than {limit} states"), asked.file, errors)
        }
    }
}

/// Tells the fault of a history in these bytes, with its line and how to mend it; the fault alone if there is no memory for more.
fn tell_fault<E: Write>(
    alloc: Global,
    asked: Validation<'_>,
    bytes: &[u8],
    fault: ReplayFault,
    errors: &mut E,
) -> ProgramEnding
    ensures { result ≡ Refused }
{
    match fault_text(alloc, asked.file, bytes, fault) {
        Ok(text) => report(text.as_str(), errors),
        Err(AllocError) => report_fault(fault, asked.file, errors),
    }
}
