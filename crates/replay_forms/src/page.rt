//! What is printed.

ghost use Rattle.std.specs.Prelude.{◌≡◌, OnErr};

use schedule_lines::{Fault, Output};
use std::alloc::{AllocError, Global};
use transcripts::print_line;

/// What a line prints, until it is done. What prints has no way out of its own: memory that was refused is noted, and then nothing of the line is
/// printed.
#[derive(Drop)]
pub(crate) struct Page {
    pub(crate) alloc: Global,
    /// How many lines of the schedule are done.
    pub(crate) lines: u32,
    pub(crate) out: Output,
}

impl Page {
    /// Nothing printed yet.
    pub(crate) fn new(alloc: Global) -> Page {
        Page {
            alloc,
            lines: 0,
            out: Output::new(alloc),
        }
    }

    /// How many bytes there are.
    pub(crate) fn len(&self) -> usize {
        self.out.bytes.len()
    }

    /// Notes whether there was memory for something.
    pub(crate) fn note(&mut self, printed: Result<(), AllocError>) {
        self.out.is_whole &= printed.is_ok();
    }

    /// Prints on the output what was printed here, or nothing of it where there was no memory for all of it; forgets it then.
    pub(crate) fn print(&mut self, output: &mut Output) -> Result<(), Fault>
        ensures { OnErr result (output.new.bytes.items ≡ output.old.bytes.items) }
    {
        let printed = print_line(&self.out, output);
        self.out.clear();
        printed
    }

    /// Ends a line: prints what it has printed on the output, and counts it.
    pub(crate) fn end_line(&mut self, output: &mut Output) -> Result<(), Fault>
        ensures { OnErr result (output.new.bytes.items ≡ output.old.bytes.items) }
    {
        self.print(output)?;
        self.lines = self.lines.saturating_add(1);
        Ok(())
    }

    /// Prints a text.
    pub(crate) fn text(&mut self, text: &str) {
        self.out.text(text.as_bytes());
    }

    /// Prints so many spaces.
    pub(crate) fn spaces(&mut self, count: usize) {
        for _ in 0..count {
            self.text(" ");
        }
    }
}

/// Bytes that were printed, as text.
pub(crate) fn text_of(bytes: &[u8]) -> &str {
    std::str::from_utf8(bytes).unwrap_or("")
}
