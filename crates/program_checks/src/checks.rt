//! Checks of schedules, from the command line.

ghost use Rattle.std.specs.Prelude.{◌≡◌, ◌⊎◌, ◌<◌, ◌+◌, ◌^◌, IsTrue, length};
ghost use Rattle.std.specs.Io.KnownBytes.{Appends};
ghost use Rattle.schedule_lines.specs.Printed.{Prints};
ghost use Rattle.program_checks.specs.Checks.{TellsPassed, WritesMore, count_checked, counts_text};
ghost use Rattle.exit_status.specs.declared.ends.ProgramEnding.TheVariants.{Passed, Refused};

use crate::comparisons::check;
use crate::playing::Source;
use access_model::GateError;
use exit_status::{ProgramEnding, read_bytes, report, report_refusal, report_refusal_of};
use schedule_lines::bytes::write_out;
use schedule_lines::{Fault, Output};
use std::alloc::{AllocError, Global};
use std::io::{Read, Write};
use std::rt::Files;

/// How many schedules passed and failed.
#[derive(Drop)]
struct Checks {
    alloc: Global,
    passed: u64,
    failed: u64,
    /// Whether all that was to be printed so far is written.
    is_written: bool,
}

impl Checks {
    /// Reads and checks the schedule of a file, or of the reader, where none is named.
    fn add_read<R: Files + Alloc<A = Global>, I: Read, W: Write, E: Write>(
        &mut self,
        rt: &R,
        file: Option<&str>,
        reader: &mut I,
        writer: &mut W,
        errors: &mut E,
    )
        requires { self.old.passed + self.old.failed + 1 < 2 ^ 64 }
        ensures counted { self.new.passed + self.new.failed ≡ self.old.passed + self.old.failed + 1 }
        ensures before { IsTrue self.new.is_written → IsTrue self.old.is_written }
        ensures written { IsTrue self.new.is_written → WritesMore (W.contents writer.old) (W.contents writer.new) }
    {
        match read_bytes(rt, self.alloc, file, reader, errors) {
            Ok(bytes) => {
                let bytes = bytes.as_slice();
                self.add(Source { file, bytes }, writer, errors);
            }
            Err(_) => self.failed += 1,
        }
    }

    /// Checks a schedule, counts it, and writes what differs. Want of memory is printed on the writer of faults, and then it has failed.
    fn add<W: Write, E: Write>(&mut self, source: Source<'_>, writer: &mut W, errors: &mut E)
        requires { self.old.passed + self.old.failed + 1 < 2 ^ 64 }
        ensures counted { self.new.passed + self.new.failed ≡ self.old.passed + self.old.failed + 1 }
        ensures before { IsTrue self.new.is_written → IsTrue self.old.is_written }
        ensures written { IsTrue self.new.is_written → WritesMore (W.contents writer.old) (W.contents writer.new) }
    {
        match check(self.alloc, source) {
            Ok(checked) => {
                if checked.passed {
                    self.passed += 1;
                } else {
                    self.failed += 1;
                }
                self.write(checked.told.as_bytes(), writer);
            }
            Err(AllocError) => {
                self.failed += 1;
                let _ = report_refusal_of(GateError::NoMemory, source.file, errors);
            }
        }
    }

    /// Writes a text, unless a write has failed before.
    fn write<W: Write>(&mut self, text: &[u8], writer: &mut W)
        ensures passed { self.new.passed ≡ self.old.passed }
        ensures failed { self.new.failed ≡ self.old.failed }
        ensures before { IsTrue self.new.is_written → IsTrue self.old.is_written }
        ensures written { IsTrue self.new.is_written → Appends (W.contents writer.old) (W.contents writer.new) text.now }
    {
        if self.is_written {
            self.is_written = write_out(writer, text).is_ok();
        }
    }

    /// Writes how many passed and failed.
    fn end<W: Write, E: Write>(mut self, writer: &mut W, errors: &mut E) -> ProgramEnding
        ensures ends { (result ≡ Passed) ⊎ (result ≡ Refused) }
        ensures passed { result ≡ Passed → IsTrue self.is_written × (self.failed ≡ 0)
            × Appends (W.contents writer.old) (W.contents writer.new) (counts_text self.passed 0) }
    {
        let mut counts = Output::new(self.alloc);
        tell_counts(self.passed, self.failed, &mut counts);
        if counts.settled().is_err() {
            return report_refusal(GateError::NoMemory, errors);
        }
        self.write(counts.bytes.as_slice(), writer);
        if !self.is_written {
            return report(Fault::WriteFailed.text(), errors);
        }
        if self.failed == 0 {
            ProgramEnding::Passed
        } else {
            ProgramEnding::Refused
        }
    }
}

/// Tells how many passed and failed.
#[tactic(auto, unfolding(crate::specs::Checks::counts_text))]
fn tell_counts(passed: u64, failed: u64, told: &mut Output)
    ensures { Prints told.old told.new (counts_text passed failed) }
{
    told.number(passed);
    told.numbered(b" passed, ", failed);
    told.text(b" failed\n");
}

/// Checks the schedules of some files, or that of the reader, where none is named. Writes what differs, file by file, and last how many passed and
/// failed; a file that can't be read is printed on the writer of faults, and has failed.
pub fn run_checks<R: Files + Alloc<A = Global>, I: Read, W: Write, E: Write>(
    rt: &R,
    alloc: Global,
    files: &[&str],
    reader: &mut I,
    writer: &mut W,
    errors: &mut E,
) -> ProgramEnding
    ensures ends { (result ≡ Passed) ⊎ (result ≡ Refused) }
    ensures passed { result ≡ Passed →
        TellsPassed (count_checked (length files.now)) (W.contents writer.old) (W.contents writer.new) }
{
    let mut checks = Checks {
        alloc,
        passed: 0,
        failed: 0,
        is_written: true,
    };
    // Where no file is named the one at 0 is none.
    for number in 0..files.len().max(1) {
        checks.add_read(rt, files.get(number).copied(), reader, writer, errors);
    }
    checks.end(writer, errors)
}
