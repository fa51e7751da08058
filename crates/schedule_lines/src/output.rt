//! The bytes that are printed, and how they are written out.

ghost use Rattle.std.specs.Prelude.{◌≡◌, ◌++◌, [], true, false, codes, decimal, IfOk, IfErr, OnOk, OnErr, vec_len, vec_capacity};
ghost use Rattle.std.specs.Io.KnownBytes.{Appends};
ghost use Rattle.schedule_lines.specs.Printed.{Prints};
ghost use Rattle.schedule_lines.specs.bytes.Writing.{AppendsPart};
ghost use Rattle.schedule_lines.specs.declared.faults.Fault.TheVariants.{WriteFailed};

use crate::Fault;
use itoa::Buffer;
use std::alloc::{AllocError, Global};
use std::io::Write;

/// The bytes that have been printed and not yet written out. What prints has no way out of its own: once a growth was refused nothing more
/// is printed, and `settled` says so.
#[derive(Drop)]
pub struct Output {
    pub bytes: Vec<u8>,
    /// Whether there was memory for all that was printed.
    pub is_whole: bool,
}

impl Output {
    /// Nothing printed.
    pub fn new(alloc: Global) -> Output
        ensures nothing { result.bytes.items ≡ [] }
        ensures whole { result.is_whole ≡ true }
    {
        Output {
            bytes: Vec::new(alloc),
            is_whole: true,
        }
    }

    /// Nothing printed, with room for so many bytes.
    pub fn with_room(alloc: Global, room: usize) -> Result<Output, AllocError>
        ensures nothing { IfOk result (λ output. output.bytes.items ≡ []) }
        ensures whole { IfOk result (λ output. output.is_whole ≡ true) }
        ensures room { IfOk result (λ output. vec_capacity output.bytes ≡ room) }
    {
        let bytes = Vec::with_capacity(alloc, room)?;
        Ok(Output {
            bytes,
            is_whole: true,
        })
    }

    /// Prints a text. Nothing of it where there is no memory for all of it, or was none for what came before.
    pub fn text(&mut self, text: &[u8])
        ensures printed { Prints self.old self.new text.now }
        ensures refused { self.new.is_whole ≡ false → self.new.bytes.items ≡ self.old.bytes.items }
    {
        if self.is_whole {
            self.is_whole = self.bytes.extend_from_slice(text).is_ok();
        }
    }

    /// Prints a text on a line of its own.
    pub fn line(&mut self, text: &[u8])
        ensures { Prints self.old self.new (text.now ++ codes "\n") }
    {
        self.text(text);
        self.text(b"\n");
    }

    /// Prints a number with no leading zeros. Most have one digit.
    #[inline(always)]
    #[tactic(auto, using(std::proofs::lemmas::Fmt::decimal_digit))]
    pub fn number(&mut self, number: u64)
        ensures { Prints self.old self.new (decimal number) }
    {
        if number >= 10 {
            self.digits(number);
        } else if self.is_whole {
            self.is_whole = self.bytes.push(b'0' + number as u8).is_ok();
        }
    }

    /// Prints a number, however many digits it has.
    #[inline(never)]
    fn digits(&mut self, number: u64)
        ensures { Prints self.old self.new (decimal number) }
    {
        let mut buffer = Buffer::new();
        self.text(buffer.format(number).as_bytes());
    }

    /// Prints a text and a number right after it. In line, so that a short text is no call.
    #[inline(always)]
    pub fn numbered(&mut self, text: &[u8], number: u64)
        ensures { Prints self.old self.new (text.now ++ decimal number) }
    {
        self.text(text);
        self.number(number);
    }

    /// Prints a text and the number of a task, a mount, a level, a processor or a node right after it.
    #[inline(always)]
    pub(crate) fn indexed(&mut self, text: &[u8], index: u8)
        ensures { Prints self.old self.new (text.now ++ decimal index) }
    {
        self.numbered(text, u64::from(index));
    }

    /// Whether there was memory for all that was printed. An error stays until what was printed is forgotten.
    pub fn settled(&self) -> Result<(), AllocError>
        ensures whole { OnOk result (self.now.is_whole ≡ true) }
        ensures refused { OnErr result (self.now.is_whole ≡ false) }
    {
        if self.is_whole {
            Ok(())
        } else {
            Err(AllocError)
        }
    }

    /// Writes out what was printed, and forgets it. After a failure nothing is left to be written, so that no write follows it.
    pub fn write_out<W: Write>(&mut self, writer: &mut W) -> Result<(), Fault>
        ensures all { OnOk result (Appends (W.contents writer.old) (W.contents writer.new) self.old.bytes.items) }
        ensures part { OnErr result (AppendsPart (W.contents writer.old) (W.contents writer.new) self.old.bytes.items) }
        ensures fault { IfErr result (λ fault. fault ≡ WriteFailed) }
        ensures nothing { self.new.bytes.items ≡ [] }
    {
        let written = write_out(writer, self.bytes.as_slice());
        self.clear();
        written
    }

    /// Forgets what was printed.
    pub fn clear(&mut self)
        ensures nothing { self.new.bytes.items ≡ [] }
        ensures whole { self.new.is_whole ≡ true }
    {
        self.bytes.clear();
        self.is_whole = true;
    }
}

/// Writes all these bytes. A refused or interrupted write, or one of no byte, ends it, and then only the first of them are
/// written.
pub fn write_out<W: Write>(writer: &mut W, bytes: &[u8]) -> Result<(), Fault>
    ensures all { OnOk result (Appends (W.contents writer.old) (W.contents writer.new) bytes.now) }
    ensures part { OnErr result (AppendsPart (W.contents writer.old) (W.contents writer.new) bytes.now) }
    ensures fault { IfErr result (λ fault. fault ≡ WriteFailed) }
{
    let mut written = 0;
    // Each turn that goes on writes a byte or more.
    while written < bytes.len() {
        match writer.write(&bytes[written..]) {
            Ok(0) => return Err(Fault::WriteFailed),
            Ok(count) => written += count,
            Err(_) => return Err(Fault::WriteFailed),
        }
    }
    Ok(())
}
