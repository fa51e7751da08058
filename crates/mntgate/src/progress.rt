//! How far a search is, told while it runs.

use exploration::Observer;
use std::io::{Stderr, Write};
use std::rt::Clock;
use std::time::Instant;

/// Tells a person about each second how many states a search has found, on a line that goes when it ends.
#[derive(Drop)]
pub(crate) struct SearchProgress<'r, R> {
    rt: &'r R,
    /// When it began, and where it is told; None where nobody watches.
    watched: Option<(Instant, Stderr)>,
    /// The second from the start at which a person is told next.
    due: u64,
}

impl<'r, R: Clock> SearchProgress<'r, R> {
    /// That of a search that begins now. Where the clock can't be read, nobody is told.
    pub(crate) fn new(rt: &'r R, errors: Option<Stderr>) -> SearchProgress<'r, R> {
        let watched = errors.and_then(|errors| Some((Instant::now(rt).ok()?, errors)));
        SearchProgress {
            rt,
            watched,
            due: 1,
        }
    }

    /// Takes the line away, if there is one.
    pub(crate) fn end(&mut self) {
        if let Some((_, errors)) = &mut self.watched
            && self.due > 1
        {
            let _ = write!(errors, "\r\x1b[K");
        }
    }
}

impl<R: Clock> Observer for SearchProgress<'_, R> {
    fn found(&mut self, states: usize) {
        let Some((start, errors)) = &mut self.watched else {
            return;
        };
        let Ok(gone) = start.elapsed(self.rt) else {
            return;
        };
        let second = gone.as_secs();
        if second >= self.due {
            self.due = second.saturating_add(1);
            // That nobody can be told is no fault of the search.
            let _ = tell(states as u64, errors);
        }
    }
}

/// Tells so many states, in groups of three digits, in the place of what was printed before.
fn tell<E: Write>(states: u64, errors: &mut E) -> std::io::Result<()> {
    let (millions, thousands, ones) = (states / 1_000_000, states / 1_000 % 1_000, states % 1_000);
    let (billions, rest) = (millions / 1_000, millions % 1_000);
    if billions > 0 {
        write!(
            errors,
            "\r{billions},{rest:03},{thousands:03},{ones:03} states\x1b[K"
        )
    } else if millions > 0 {
        write!(errors, "\r{millions},{thousands:03},{ones:03} states\x1b[K")
    } else if thousands > 0 {
        write!(errors, "\r{thousands},{ones:03} states\x1b[K")
    } else {
        write!(errors, "\r{ones} states\x1b[K")
    }
}
