//! What was read of a text in blocks and not yet taken, and the line that it begins with.

ghost use Rattle.schedule_lines.specs.Lines.{is_newline, front_of};
ghost use Rattle.schedule_lines.specs.bytes.Reading.{ReadsOn};
ghost use Rattle.schedule_lines.specs.declared.faults.Fault.TheVariants.{ReadFailed};
ghost use Rattle.schedule_lines.specs.declared.lines.Front.TheVariants.{Line};
ghost use Rattle.std.specs.Io.KnownBytes.{IsAtEnd, Keeps};
ghost use Rattle.std.specs.List.{position};
ghost use Rattle.std.specs.Prelude.{◌≡◌, ◌≤◌, ◌+◌, ◌-◌, ℕ, ◌<◌, [], true, false, IfOk, IfErr, OnErr, vec_len, length, take, drop};

use crate::Fault;
use std::alloc::{AllocError, Global};
use std::io::Read;

/// How many lines a schedule may have.
pub const LINES: u32 = 1_048_576;

/// How many bytes a line may have before its newline.
pub const LINE_BYTES: usize = 256;

const NEWLINE: u8 = b'\n';

/// How many bytes are asked for at once.
const BLOCK: usize = 65_536;

/// What the bytes that have been read begin with.
#[derive(Clone, Copy)]
pub enum Front {
    /// A line of this many bytes, with its newline after it.
    Line(usize),
    /// More bytes than a line may have, with no newline among them.
    TooLong,
    /// A part of a line, or nothing: more has to be read.
    Part,
}

/// Where the first newline is.
#[tactic(auto, using(std::proofs::lemmas::List::Sums::position_or_len_is))]
fn first_newline(bytes: &[u8]) -> Option<usize>
    ensures { result ≡ position is_newline bytes.now }
{
    for (index, byte) in bytes.iter().enumerate() {
        if *byte == NEWLINE {
            return Some(index);
        }
    }
    None
}

/// The bytes among which the newline of a line that isn't too long is.
fn line_window(bytes: &[u8]) -> &[u8]
    ensures { result.now ≡ take 257 bytes.now }
{
    if bytes.len() > LINE_BYTES {
        &bytes[..LINE_BYTES + 1]
    } else {
        bytes
    }
}

/// What the bytes that have been read begin with.
#[tactic(auto, unfolding(crate::specs::Lines::front_of))]
pub fn front_of(bytes: &[u8]) -> Front
    ensures front { result ≡ front_of bytes.now }
    ensures inside { (n : ℕ) → result ≡ Line n → n < length bytes.now }
{
    match first_newline(line_window(bytes)) {
        Some(length) => Front::Line(length),
        None if bytes.len() > LINE_BYTES => Front::TooLong,
        None => Front::Part,
    }
}

/// What was read and not yet taken.
#[derive(Drop)]
pub struct Input {
    /// `BLOCK` bytes, of which those from `start` up to `end` were read and not yet taken.
    bytes: Vec<u8>,
    start: usize,
    end: usize,
    ghost ordered: { start ≤ end },
    ghost within: { end ≤ vec_len bytes },
    ghost whole: { vec_len bytes ≡ 65536 },
}

impl Input {
    ghost use Rattle.schedule_lines.specs.bytes.Pending.{pending, pending_count};

    /// Nothing read yet.
    pub fn new(alloc: Global) -> Result<Input, AllocError>
        ensures { IfOk result (λ input. pending input ≡ []) }
    {
        let bytes = vec![in alloc; 0; BLOCK]?;
        Ok(Input {
            bytes,
            start: 0,
            end: 0,
        })
    }

    /// What was read and not yet taken.
    pub fn pending(&self) -> &[u8]
        ensures { result.now ≡ pending self.now }
    {
        &self.bytes[self.start..self.end]
    }

    /// What the pending bytes begin with.
    pub fn front(&self) -> Front
        ensures front { result ≡ front_of (pending self.now) }
        ensures inside { (n : ℕ) → result ≡ Line n → n < pending_count self.now }
    {
        front_of(self.pending())
    }

    /// Whether all that was read is taken.
    pub fn is_empty(&self) -> bool
        ensures none { result ≡ true → pending self.now ≡ [] }
        ensures some { result ≡ false → 0 < length (pending self.now) }
    {
        self.start == self.end
    }

    /// The first of the pending bytes.
    pub fn first(&self, count: usize) -> &[u8]
        requires { count ≤ pending_count self.now }
        ensures { result.now ≡ take count (pending self.now) }
    {
        &self.pending()[..count]
    }

    /// Takes the first of the pending bytes.
    pub fn take(&mut self, count: usize)
        requires { count ≤ pending_count self.old }
        ensures { pending self.new ≡ drop count (pending self.old) }
    {
        self.start += count;
    }

    /// Reads more, and says how many bytes came: none at the end of the input, or where the block is full.
    pub fn read<R: Read>(&mut self, reader: &mut R) -> Result<usize, Fault>
        ensures grows { IfOk result (ReadsOn (R.remaining reader.old) (R.remaining reader.new) (pending self.old) (pending self.new)) }
        ensures end { IfOk result (λ count. count ≡ 0 → length (pending self.old) < 65536 → IsAtEnd (R.remaining reader.new)) }
        ensures kept { OnErr result (Keeps (R.remaining reader.old) (R.remaining reader.new)) }
        ensures failed { IfErr result (λ fault. fault ≡ ReadFailed) }
    {
        self.make_room();
        let count = read_behind(reader, self.bytes.as_mut_slice(), self.end)?;
        self.end += count;
        Ok(count)
    }

    /// Moves the pending bytes to the start of the block.
    fn make_room(&mut self)
        ensures pending { pending self.new ≡ pending self.old }
        ensures start { self.new.start ≡ 0 }
        ensures end { self.new.end ≡ self.old.end - self.old.start }
    {
        self.bytes.copy_within(self.start..self.end, 0);
        self.end -= self.start;
        self.start = 0;
    }
}

/// Reads behind the first bytes of a block, and says how many bytes came.
fn read_behind<R: Read>(reader: &mut R, block: &mut [u8], end: usize) -> Result<usize, Fault>
    requires { end ≤ length block.old }
    ensures bound { IfOk result (λ count. end + count ≤ length block.new) }
    ensures grows { IfOk result (λ count. ReadsOn (R.remaining reader.old) (R.remaining reader.new) (take end block.old)
        (take (end + count) block.new) count) }
    ensures end { IfOk result (λ count. count ≡ 0 → end < length block.new → IsAtEnd (R.remaining reader.new)) }
    ensures kept { OnErr result (Keeps (R.remaining reader.old) (R.remaining reader.new)) }
    ensures failed { IfErr result (λ fault. fault ≡ ReadFailed) }
{
    match reader.read(&mut block[end..]) {
        Ok(count) => Ok(count),
        Err(_) => Err(Fault::ReadFailed),
    }
}
