//! A history that was read, and gates that are set up for it anew.

use crate::files::{find_history, with_race};
use gate_core::Core;
use race_files::{Lines, set_up_again};
use std::alloc::{AllocError, Global};
use transcripts::Session;

/// The bytes of a history.
#[derive(Clone, Copy)]
pub struct HistorySource<'a> {
    pub alloc: Global,
    pub bytes: &'a [u8],
}

impl<'a> HistorySource<'a> {
    /// Returns the lines before the line `history`.
    pub fn set_up_lines(self) -> &'a [u8] {
        match find_history(self.bytes) {
            Some(place) => &self.bytes[..place.before],
            None => self.bytes,
        }
    }

    /// Returns the line of a number, from 1; an empty one if there is none.
    pub fn line(self, number: u32) -> &'a [u8] {
        line_at(&mut Lines::new(self.bytes), number)
    }

    /// Sets up the gates of the history anew. None if a line before the history has a fault, which none has in a history that was read.
    ///
    /// # Errors
    ///
    /// `AllocError` if there was no memory for them.
    pub fn gates(self) -> Result<Option<Session<Core>>, AllocError> {
        let race = with_race(self.alloc, self.set_up_lines())?;
        set_up_again(self.alloc, race.bytes.as_slice())
    }
}

/// Takes lines up to the one of a number, which is taken and returned; an empty one if there is none.
pub fn line_at<'a>(lines: &mut Lines<'a>, number: u32) -> &'a [u8] {
    for _ in lines.number()..number {
        lines.take();
    }
    lines.next().unwrap_or(b"")
}
