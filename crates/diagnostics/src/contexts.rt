//! What comes before a faulty line.

use schedule_lines::words::first_word;
use schedule_lines::{Front, front_of};
use schedule_text::{Line, parse};

/// What comes before a faulty line, and so which lines may stand there.
#[derive(Clone, Copy)]
pub enum Context {
    /// No configuration yet.
    Opening,
    /// The configuration of a schedule, of so many tasks.
    Schedule(u8),
    /// The line `race` of a race, of so many tasks.
    Race(u8),
}

impl Context {
    /// Returns the context in a schedule, where there are so many tasks once it is configured.
    pub fn of_schedule(tasks: Option<u8>) -> Context {
        match tasks {
            None => Context::Opening,
            Some(tasks) => Context::Schedule(tasks),
        }
    }

    /// Finds a line of a schedule or a race by its number, from 1: returns its context, and the bytes from it on.
    pub fn find(bytes: &[u8], number: u32) -> (Context, &[u8]) {
        let mut context = Context::Opening;
        let mut rest = bytes;
        for _ in 1..number {
            let Front::Line(length) = front_of(rest) else {
                break;
            };
            context = context.behind(&rest[..length]);
            rest = rest.get(length.saturating_add(1)..).unwrap_or(b"");
        }
        (context, rest)
    }

    /// Returns the context behind a line.
    fn behind(self, line: &[u8]) -> Context {
        match self {
            Context::Opening => match parse(line, None) {
                Ok(Line::Config(config)) => Context::Schedule(config.tasks),
                _ => self,
            },
            Context::Schedule(tasks) if first_word(line) == b"race".as_slice() => {
                Context::Race(tasks)
            }
            _ => self,
        }
    }
}
