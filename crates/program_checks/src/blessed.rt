//! A file with what it prints in the place of what it says of it.

use crate::playing::{Source, Stopped};
use crate::said::{put_said, said_in};
use race_files::Lines;
use race_files::setting_up::SetUpObserver;
use schedule_lines::Output;
use std::alloc::Global;

/// Returns the lines of a file, where the lines `#> TEXT` behind each command say all that it prints: they stand where the first of them stood, or else
/// right behind the command. All other lines stay as they are.
pub fn blessed(alloc: Global, source: Source<'_>) -> Result<Output, Stopped> {
    let mut blessing = Blessing {
        said: Lines::new(source.bytes),
        lines: Output::new(alloc),
    };
    let played = source.play(alloc, &mut blessing);
    let Blessing { said: _, lines } = blessing;
    played.and(Ok(lines))
}

/// A file on its way.
#[derive(Drop)]
struct Blessing<'a> {
    /// The lines from the last command on.
    said: Lines<'a>,
    /// Those before them, as they are to be.
    lines: Output,
}

impl SetUpObserver for Blessing<'_> {
    /// Puts the last command and the lines up to the next one, with what it printed.
    fn take(&mut self, lines: &Lines<'_>, printed: &mut Output) {
        let count = lines.number().saturating_sub(self.said.number());
        let place = place_in(self.said.rest(), count);
        for index in 0..count {
            if index == place {
                put_said(printed.bytes.as_slice(), &mut self.lines);
            }
            if let Some(line) = self.said.next()
                && said_in(line).is_none()
            {
                self.lines.line(line);
            }
        }
        if count <= place {
            put_said(printed.bytes.as_slice(), &mut self.lines);
        }
        printed.clear();
    }
}

/// Returns at which of so many lines, from 0, the first one stands that says what is printed; the second line if none does.
fn place_in(rest: &[u8], count: u32) -> u32 {
    let mut lines = Lines::new(rest);
    for index in 0..count {
        if lines.next().is_some_and(|line| said_in(line).is_some()) {
            return index;
        }
    }
    1
}
