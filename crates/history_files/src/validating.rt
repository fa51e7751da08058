//! The validation of a text.

ghost use Rattle.std.specs.Prelude.{◌≡◌, ◌<◌, ◌≤◌, None, IfErr, IfOk, IfSome, OnOk, length, slice_index_or};
ghost use Rattle.history_files.specs.Unjudged.{IsUnjudged};
ghost use Rattle.history_files.specs.Verdicts.{HasPossible, IsImpossibleAt, TellsVerdict};

use crate::telling::{Told, put_verdict, tell};
use crate::unjudged::Unjudged;
use crate::verdicts::{Verdict, verdict_of};
use crate::{HistoryFile, HistorySource, Notes, read_history};
use exploration::{Observer, Unobserved};
use schedule_lines::Output;
use schedule_lines::bytes::ReplayFault;
use std::alloc::{AllocError, Global};

/// Why a text has no verdict.
#[derive(Clone, Copy)]
pub enum Unvalidated {
    /// It has this fault.
    Faulty(ReplayFault),
    /// Its history isn't judged.
    Unjudged(Unjudged),
}

/// A history that was read and judged.
#[derive(Drop)]
struct JudgedFile {
    notes: Notes,
    verdict: Verdict,
}

/// Reads the history in a text, and finds whether some execution has it.
///
/// # Errors
///
/// The first fault of the text; or more states than the limit come up, or there was no memory.
fn judge_file<W: Observer>(
    alloc: Global,
    bytes: &[u8],
    limit: usize,
    watch: &mut W,
) -> Result<JudgedFile, Unvalidated>
    ensures possible { IfOk result (λ file. length file.verdict.history.markers.items ≤ file.verdict.judged.passed → HasPossible bytes.now) }
    ensures impossible { IfOk result (λ file. file.verdict.judged.passed < length file.verdict.history.markers.items →
        IsImpossibleAt bytes.now (slice_index_or file.notes.lines.items file.verdict.judged.passed 0)) }
    ensures unjudged { IfErr result (IsUnjudged bytes.now limit) }
{
    let HistoryFile {
        core,
        markers,
        notes,
    } = match read_history(alloc, bytes) {
        Ok(file) => file,
        Err(fault) => return Err(Unvalidated::Faulty(fault)),
    };
    match verdict_of(alloc, &core, markers, limit, watch) {
        Ok(verdict) => Ok(JudgedFile { notes, verdict }),
        Err(why) => Err(Unvalidated::Unjudged(why)),
    }
}

/// Finds whether some execution has the history in a text, and tells it: `file` is its name there. If nothing is told of a line that can't be, some
/// execution has the whole history. Else one has all lines before it, and none of fewer than 2^62 moves has it too.
///
/// # Errors
///
/// The first fault of the text; or more states than the limit come up, or there was no memory.
pub fn validate<'a, W: Observer>(
    alloc: Global,
    file: Option<&'a str>,
    bytes: &'a [u8],
    limit: usize,
    watch: &mut W,
) -> Result<Told, Unvalidated>
    ensures possible { IfOk result (λ told. told.fault ≡ None → HasPossible bytes.now) }
    ensures impossible { IfOk result (λ told. IfSome told.fault (λ fault. IsImpossibleAt bytes.now fault.line)) }
    ensures unjudged { IfErr result (IsUnjudged bytes.now limit) }
{
    let JudgedFile { notes, verdict } = judge_file(alloc, bytes, limit, watch)?;
    let source = HistorySource { alloc, bytes };
    match tell(source, file, &notes, &verdict) {
        Ok(told) => Ok(told),
        Err(AllocError) => Err(Unvalidated::Unjudged(Unjudged::NoMemory)),
    }
}

/// Prints the verdict on the history in a text, on a line: `possible`, or `impossible at` and the number of its first line that can't be.
///
/// # Errors
///
/// As those of `validate`.
pub fn print_verdict(
    alloc: Global,
    bytes: &[u8],
    limit: usize,
    printed: &mut Output,
) -> Result<(), Unvalidated>
    ensures told { OnOk result (TellsVerdict bytes.now printed.old printed.new) }
    ensures unjudged { IfErr result (IsUnjudged bytes.now limit) }
{
    let JudgedFile { notes, verdict } = judge_file(alloc, bytes, limit, &mut Unobserved)?;
    put_verdict(&notes, &verdict, printed);
    match printed.settled() {
        Ok(()) => Ok(()),
        Err(AllocError) => Err(Unvalidated::Unjudged(Unjudged::NoMemory)),
    }
}
