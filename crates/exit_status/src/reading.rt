//! The bytes that a command line asks for.

ghost use Rattle.std.specs.Prelude.{◌≡◌, ◌↔◌, IsTrue, IfOk, IfErr, IfSome};
ghost use Rattle.exit_status.specs.Endings.{IsInput};
ghost use Rattle.exit_status.specs.declared.ends.ProgramEnding.TheVariants.{Refused};

use crate::ends::{ProgramEnding, report_unopened};
use schedule_lines::{LINE_BYTES, LINES};
use std::alloc::Global;
use std::fs::OpenFile;
use std::io::{Read, Write};
use std::rt::Files;
use std::{fs, io};

/// How many bytes are read at most: those of as many lines as a schedule may have, each as long as it may be, with its newline.
pub const BYTES: usize = LINES as usize * (LINE_BYTES + 1);

/// What is said of an input that has more.
const TOO_LONG: &str = "it has more than 269484032 bytes, the longest that a schedule may have";

/// Whether standard input is to be read: no file is named, or `-`.
pub fn is_input(file: Option<&str>) -> bool
    ensures { IsTrue result ↔ IsInput file.entry }
{
    match file {
        None => true,
        Some(file) => file == "-",
    }
}

/// Reads all bytes of a file, or of the reader, where no file is named, or `-`.
///
/// # Errors
///
/// How the program ends if they can't be read, or are more than the longest schedule has, which is printed. Then no more than one of these is read.
pub fn read_bytes<R: Files + Alloc<A = Global>, I: Read, E: Write>(
    rt: &R,
    alloc: Global,
    file: Option<&str>,
    reader: &mut I,
    errors: &mut E,
) -> Result<Vec<u8>, ProgramEnding>
    ensures read { IfOk result (λ bytes. IsInput file.entry → IfSome (I.remaining reader.old) (λ all. bytes.items ≡ all)) }
    ensures refused { IfErr result (λ ending. ending ≡ Refused) }
{
    match file {
        Some(file) if !is_input(Some(file)) => {
            read_file(rt, alloc, file).map_err(|error| report_unopened(Some(file), &error, errors))
        }
        _ => read_all(alloc, reader).map_err(|error| report_unopened(None, &error, errors)),
    }
}

/// Reads all bytes of a file.
fn read_file<R: Files>(rt: &R, alloc: Global, file: &str) -> io::Result<Vec<u8>> {
    let mut opened = fs::open(rt, file)?;
    // That of a pipe or a device is 0.
    if opened.metadata()?.len() > BYTES as u64 {
        return Err(too_long());
    }
    read_all(alloc, &mut opened)
}

/// Reads all bytes of a reader, unless they are more than the longest schedule has.
fn read_all<I: Read>(alloc: Global, reader: &mut I) -> io::Result<Vec<u8>>
    ensures { IfOk result (λ bytes. IfSome (I.remaining reader.old) (λ all. bytes.items ≡ all)) }
{
    let mut bytes = Vec::new(alloc);
    let mut limited = reader.take(BYTES as u64 + 1);
    limited.read_to_end(&mut bytes)?;
    if bytes.len() > BYTES {
        return Err(too_long());
    }
    Ok(bytes)
}

/// Why an input isn't read to its end.
fn too_long() -> io::Error {
    io::Error::new(io::ErrorKind::FileTooLarge, TOO_LONG)
}
