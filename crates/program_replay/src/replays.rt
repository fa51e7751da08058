//! A replay, over the core or over the gates that threads use; and as the command line asks for it: of a file or of standard input, in whatever
//! form, with its fault told.

ghost use Rattle.std.specs.Prelude.{◌≡◌, ◌⊎◌, ℕ, List, None, Some, true, IfErr, codes};
ghost use Rattle.std.specs.Borrow.{Bor};
ghost use Rattle.exit_status.specs.declared.ends.ProgramEnding.TheVariants.{Refused};
ghost use Rattle.program_replay.specs.Replays.{EndsReplayed, EndsReplayedFile, EndsReplayedNamed, IsRefusedUnread, done_in, done_of};
ghost use Rattle.command_line.specs.declared.words.ReplayForm.TheVariants.{Plain};
ghost use Rattle.transcripts.specs.Limits.{IsLineNumber};
ghost use Rattle.transcripts.specs.Replayed.{Replayed};

use crate::gates_driver::GatesDriver;
use crate::showing::show_told;
use command_line::{Replay, ReplayForm};
use diagnostics::{Context, Faulty, tell_faulty};
use exit_status::{ProgramEnding, report_fault, report_folder, report_unopened};
use gate_core::{Core, Driver};
use replay_forms::{Form, Look, Style};
use schedule_lines::bytes::ReplayFault;
use std::alloc::Global;
use std::fs;
use std::io::{Read, Stderr, Write};
use std::rt::Files;
use transcripts::replay_to_end;

/// What a person is told who is to type a schedule.
const AWAITED: &str =
    "mntgate: type a schedule, from 'config TASKS CPUS MOUNTS NODES CAPACITY' on; Ctrl-D ends it\n";

/// How wide all columns are together.
const WIDTH: usize = 100;

/// Where a person is.
#[derive(Drop)]
pub struct Terminal {
    /// Standard error, where it is a terminal.
    pub watches: Option<Stderr>,
    /// Whether standard input is one.
    pub types: bool,
}

/// What is printed of a fault.
#[derive(Clone, Copy)]
pub(crate) struct Telling<'a> {
    /// Where the memory of the replay, and of what is printed, comes from.
    pub alloc: Global,
    /// The schedule's file, if it has one.
    pub file: Option<&'a str>,
    /// Whether the faulty line is printed too, and how to mend it.
    pub explains: bool,
}

/// Reads a schedule and writes what its lines ask for, to the first fault. Whatever the lines so far print is written out
/// before more is read.
pub fn replay<R: Read, W: Write>(
    alloc: Global,
    reader: &mut R,
    writer: &mut W,
) -> Result<(), ReplayFault>
    ensures replayed { Replayed (R.remaining reader.old) (R.remaining reader.new) (W.contents writer.old) (W.contents writer.new) result }
    ensures line { IfErr result (λ fault. IsLineNumber fault.line) }
{
    replay_to_end::<Core, R, W>(alloc, reader, writer).result
}

/// Reads a schedule and replays it over the gates that threads use, driven by this one thread: it prints what `replay` prints of the same bytes,
/// and ends by the same faults. A task is made for each number by splits, and none is joined. Words and trees are printed from a list
/// that each step moves, since gates tell their words only once they are closed.
///
/// # Errors
///
/// The fault at which it ended, and its line: the first line that is none, can't be read or written, or is refused for memory. A
/// configuration is refused as `Gates::new` is, then as `Task::split`, and at last as the model beside them. What the lines before it print
/// is written.
pub fn replay_gates<R: Read, W: Write>(
    alloc: Global,
    reader: &mut R,
    writer: &mut W,
) -> Result<(), ReplayFault>
    ensures replayed { Replayed (R.remaining reader.old) (R.remaining reader.new) (W.contents writer.old) (W.contents writer.new) result }
    ensures line { IfErr result (λ fault. IsLineNumber fault.line) }
{
    replay_to_end::<GatesDriver, R, W>(alloc, reader, writer).result
}

/// Replays a schedule: that of a file, or that of the reader, where no file is named, or `-`.
pub fn run_replay<R: Files, I: Read, W: Write, E: Write>(
    rt: &R,
    alloc: Global,
    asked: Replay<'_>,
    reader: &mut I,
    writer: &mut W,
    errors: &mut E,
    person: &Terminal,
) -> ProgramEnding
    ensures ends { (result ≡ done_of asked.entry.file (done_in asked.entry.form asked.entry.over_gates)) ⊎ (result ≡ Refused) }
    ensures plain { asked.entry.form ≡ Plain → asked.entry.file ≡ None → EndsReplayed asked.entry.over_gates
        (I.remaining reader.old) (I.remaining reader.new) (W.contents writer.old) (W.contents writer.new) result }
    ensures of_file { (file : Bor (List ℕ)) → asked.entry.form ≡ Plain → asked.entry.file ≡ Some file →
        EndsReplayedFile asked.entry.over_gates (W.contents writer.old) (W.contents writer.new) result
        ⊎ IsRefusedUnread (I.remaining reader.old) (I.remaining reader.new) (W.contents writer.old) (W.contents writer.new) result }
    ensures named { (file : Bor (List ℕ)) → asked.entry.form ≡ Plain → asked.entry.file ≡ Some file → file.now ≡ codes "-" →
        EndsReplayedNamed asked.entry.over_gates
        (I.remaining reader.old) (I.remaining reader.new) (W.contents writer.old) (W.contents writer.new) result }
{
    let telling = Telling {
        alloc,
        file: asked.file,
        explains: asked.explain || person.watches.is_some(),
    };
    match asked.file {
        None => replay_input(asked, telling, reader, writer, errors, person),
        Some("-") => replay_input(asked, telling, reader, writer, errors, person).of_file(),
        Some(file) => match open_file(rt, file, errors) {
            Ok(mut opened) => replay_as(asked, telling, &mut opened, writer, errors).of_file(),
            Err(ending) => ending,
        },
    }
}

/// Opens a file that is no folder, of which no byte could be read.
fn open_file<R: Files, E: Write>(
    rt: &R,
    file: &str,
    errors: &mut E,
) -> Result<R::File, ProgramEnding>
    ensures { IfErr result (λ ending. ending ≡ Refused) }
{
    if let Ok(metadata) = fs::metadata(rt, file)
        && metadata.is_dir()
    {
        return Err(report_folder(file, errors));
    }
    fs::open(rt, file).map_err(|error| report_unopened(Some(file), &error, errors))
}

/// Replays the schedule of standard input; a person who is to type it is told so.
fn replay_input<I: Read, W: Write, E: Write>(
    asked: Replay<'_>,
    telling: Telling<'_>,
    reader: &mut I,
    writer: &mut W,
    errors: &mut E,
    person: &Terminal,
) -> ProgramEnding
    ensures ends { (result ≡ done_in asked.entry.form asked.entry.over_gates) ⊎ (result ≡ Refused) }
    ensures plain { asked.entry.form ≡ Plain → EndsReplayed asked.entry.over_gates
        (I.remaining reader.old) (I.remaining reader.new) (W.contents writer.old) (W.contents writer.new) result }
{
    if person.types {
        let _ = errors.write_all(AWAITED.as_bytes());
    }
    replay_as(asked, telling, reader, writer, errors)
}

/// Replays the schedule of a reader in the form that is asked for.
fn replay_as<I: Read, W: Write, E: Write>(
    asked: Replay<'_>,
    telling: Telling<'_>,
    reader: &mut I,
    writer: &mut W,
    errors: &mut E,
) -> ProgramEnding
    ensures ends { (result ≡ done_in asked.entry.form asked.entry.over_gates) ⊎ (result ≡ Refused) }
    ensures plain { asked.entry.form ≡ Plain → EndsReplayed asked.entry.over_gates
        (I.remaining reader.old) (I.remaining reader.new) (W.contents writer.old) (W.contents writer.new) result }
{
    let form = match asked.form {
        ReplayForm::Plain if asked.over_gates => {
            return match replay_gates_told(telling, reader, writer, errors) {
                Ok(()) => ProgramEnding::DoneOverGates,
                Err(_) => ProgramEnding::Refused,
            };
        }
        ReplayForm::Plain => {
            return match replay_told::<Core, I, W, E>(telling, reader, writer, errors) {
                Ok(()) => ProgramEnding::Done,
                Err(_) => ProgramEnding::Refused,
            };
        }
        ReplayForm::Events => Form::Events,
        ReplayForm::Columns => Form::Columns { width: WIDTH },
        ReplayForm::Json => Form::Json,
        ReplayForm::Html => Form::Picture,
    };
    let look = Look {
        form,
        style: Style::of(asked.style.kernel_names, asked.style.raw),
    };
    let ended = if asked.over_gates {
        show_told::<GatesDriver, I, W, E>(look, telling, reader, writer, errors)
    } else {
        show_told::<Core, I, W, E>(look, telling, reader, writer, errors)
    };
    match ended {
        Ok(()) => ProgramEnding::Shown,
        Err(_) => ProgramEnding::Refused,
    }
}

/// A schedule over whatever gates. Its fault is printed on a writer of faults, and where that can't be done it ends the same.
fn replay_told<D: Driver, R: Read, W: Write, E: Write>(
    telling: Telling<'_>,
    reader: &mut R,
    writer: &mut W,
    errors: &mut E,
) -> Result<(), ReplayFault>
    ensures replayed { D.is_known ≡ true →
        Replayed (R.remaining reader.old) (R.remaining reader.new) (W.contents writer.old) (W.contents writer.new) result }
    ensures line { IfErr result (λ fault. IsLineNumber fault.line) }
{
    let ended = replay_to_end::<D, R, W>(telling.alloc, reader, writer);
    if let Err(fault) = ended.result {
        match &ended.replay {
            Some(replay) => tell(telling, fault, (replay.rest(), replay.tasks()), errors),
            None => tell(telling, fault, (&[], None), errors),
        }
    }
    ended.result
}

/// A schedule over the gates that threads use, as `replay_told` does one over whatever gates. Unless a fault's line is printed too, it is a plain
/// `replay_gates`.
fn replay_gates_told<R: Read, W: Write, E: Write>(
    telling: Telling<'_>,
    reader: &mut R,
    writer: &mut W,
    errors: &mut E,
) -> Result<(), ReplayFault>
    ensures replayed { Replayed (R.remaining reader.old) (R.remaining reader.new) (W.contents writer.old) (W.contents writer.new) result }
    ensures line { IfErr result (λ fault. IsLineNumber fault.line) }
{
    if telling.explains {
        return replay_told::<GatesDriver, R, W, E>(telling, reader, writer, errors);
    }
    let ended = replay_gates(telling.alloc, reader, writer);
    if let Err(fault) = ended {
        let _ = report_fault(fault, telling.file, errors);
    }
    ended
}

/// Tells a fault; where that is asked for, with its line, and how to mend it: of what was read from the faulty line on, and how many tasks there are.
pub(crate) fn tell<E: Write>(
    telling: Telling<'_>,
    fault: ReplayFault,
    (rest, tasks): (&[u8], Option<u8>),
    errors: &mut E,
) {
    let Telling {
        alloc,
        file,
        explains,
    } = telling;
    let context = Context::of_schedule(tasks);
    let faulty = Faulty {
        file,
        fault,
        context,
        rest,
    };
    let _ = if explains {
        tell_faulty(alloc, faulty, errors)
    } else {
        report_fault(fault, file, errors)
    };
}
