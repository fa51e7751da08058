//! For whom a task waits.

use crate::forms::Style;
use cpu_words::{Event, WordName};
use gate_transitions::Driver;
use schedule_lines::Output;
use transcripts::Session;

/// Who stands in the way.
#[derive(Clone, Copy)]
pub(crate) enum Culprit {
    Task(u8),
    /// Whoever freezes, or has frozen.
    Freeze,
    /// Somebody who went on since.
    Gone,
}

/// What a task waits for: the word at which it found that it has to wait, and who stands in the way.
#[derive(Clone, Copy)]
pub(crate) struct Wait {
    pub(crate) word: WordName,
    pub(crate) culprit: Culprit,
}

impl Wait {
    /// What a step waits for that reports so. A lock has its owner's number, and 1, in it; HOLD is set by the owner of `umount`; a section
    /// is its task's; and a sum of a level counts whoever is inside. A start has found its level's block set three steps before, and this
    /// step is the end of its own section.
    pub(crate) fn of<D: Driver>(session: &Session<D>, task: u8, event: Event, block: u8) -> Wait {
        let culprit = match event.word {
            WordName::Umount => owner(event.found),
            WordName::MountFlags(_) => owner(session.word(WordName::Umount).unwrap_or(0)),
            WordName::Section(own) if own == task => {
                return Wait {
                    word: WordName::Block(block),
                    culprit: Culprit::Freeze,
                };
            }
            WordName::Section(other) => Culprit::Task(other),
            WordName::LevelCount(level, _) => inside(session, level),
            _ => Culprit::Gone,
        };
        Wait {
            word: event.word,
            culprit,
        }
    }

    /// Prints it: `waiting for mount0.flags, task 1`.
    pub(crate) fn print(self, out: &mut Output, style: Style) {
        out.text(b"waiting for ");
        style.name(out, self.word);
        match self.culprit {
            Culprit::Task(task) => out.numbered(b", task ", u64::from(task)),
            Culprit::Freeze => out.text(b", the freeze"),
            Culprit::Gone => {}
        }
    }
}

/// The owner of a lock with this value.
fn owner(value: u64) -> Culprit {
    match u8::try_from(value) {
        Ok(number) if number > 0 => Culprit::Task(number - 1),
        _ => Culprit::Gone,
    }
}

/// The first task that is inside a level.
fn inside<D: Driver>(session: &Session<D>, level: u8) -> Culprit {
    for task in 0..session.tasks() {
        if session.model().held_level(task, level) {
            return Culprit::Task(task);
        }
    }
    Culprit::Gone
}
