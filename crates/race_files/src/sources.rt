//! A race that was read, and gates that are set up for it anew.

use crate::calls::Calls;
use crate::lines::{Lines, is_race};
use crate::schedules::{begin_late, print_schedule};
use crate::setting_up::set_up_again;
use gate_core::Core;
use schedule_lines::{LINES, Output};
use std::alloc::{AllocError, Global};
use transcripts::Session;

/// The bytes of a race, and the calls that were read from them.
#[derive(Clone, Copy)]
pub struct RaceSource<'a> {
    pub alloc: Global,
    pub bytes: &'a [u8],
    pub calls: &'a Calls,
}

impl<'a> RaceSource<'a> {
    /// Returns the lines before the first line `race`.
    pub fn set_up_lines(self) -> &'a [u8] {
        let mut lines = Lines::new(self.bytes);
        for _ in 0..LINES {
            let before = self.bytes.len().saturating_sub(lines.rest().len());
            match lines.next() {
                Some(line) if matches!(is_race(line), Ok(true)) => return &self.bytes[..before],
                Some(_) => {}
                None => break,
            }
        }
        self.bytes
    }

    /// Sets up the gates of the race anew. None if a line before the race has a fault, which none has in a race that was read.
    ///
    /// # Errors
    ///
    /// `AllocError` if there was no memory for them.
    pub fn gates(self) -> Result<Option<Session<Core>>, AllocError> {
        set_up_again(self.alloc, self.bytes)
    }

    /// Returns the gates of the race behind these moves; None as `gates`.
    pub fn gates_behind(self, movers: &[u8]) -> Result<Option<Session<Core>>, AllocError> {
        let Some(mut session) = self.gates()? else {
            return Ok(None);
        };
        let mut unread = Output::new(self.alloc);
        print_schedule(self.alloc, self.calls, &mut session, movers, &mut unread)?;
        Ok(Some(session))
    }

    /// Returns a line for each of these moves, which a replay takes: a beginning as it stands in the file, `T step`, or `T step CODE` where the hook
    /// fails that the step asks. An action that the model forbids, which only a build that isn't proved can add, is printed in a comment under its line.
    pub fn schedule(self, movers: &[u8]) -> Result<Output, AllocError> {
        let mut schedule = Output::new(self.alloc);
        if let Some(mut session) = self.gates()? {
            print_schedule(self.alloc, self.calls, &mut session, movers, &mut schedule)?;
        }
        Ok(schedule)
    }

    /// Returns moves that lead to the same answers as these, where each task begins a call right before the call's first step; a beginning that no step
    /// follows is left out. A beginning touches no word, so it is no matter what others do before and after it. No contract says that the answers
    /// are the same.
    pub fn begun_late(self, movers: &[u8]) -> Result<Vec<u8>, AllocError> {
        match self.gates()? {
            Some(mut session) => begin_late(self.alloc, self.calls, &mut session, movers),
            None => Vec::from_slice(self.alloc, movers),
        }
    }
}
