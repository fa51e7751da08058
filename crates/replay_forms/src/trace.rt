//! What is seen of a schedule, entry by entry: what each form prints in its way.

use crate::forms::Style;
use crate::reasons::Reason;
use crate::terms::call_term;
use crate::waits::Wait;
use access_model::{Action, GateError, Reply};
use cpu_words::{Event, Touch, WordName};
use gate_world::Op;
use schedule_lines::Output;

/// A step that a task has taken.
#[derive(Clone, Copy)]
pub(crate) struct Taken {
    pub(crate) event: Event,
    pub(crate) action: Option<Action>,
    /// For whom the task waits, if it has to look again.
    pub(crate) wait: Option<Wait>,
    /// The call that the step is of, unless it began before there was anybody to see it.
    pub(crate) call: Option<Op>,
    /// The word of the step before it in the same call.
    pub(crate) before: Option<WordName>,
}

/// What happens to a task.
#[derive(Clone, Copy)]
pub(crate) enum Happening {
    /// It begins this call, or is refused it.
    Begins {
        call: Op,
        is_refused: bool,
    },
    /// The beginning was refused.
    Unbegun {
        refusal: GateError,
        reason: Option<Reason>,
    },
    /// It takes a step.
    Steps(Taken),
    /// Its call answers; so many blocks are charged then.
    Answers {
        answer: Result<Reply, GateError>,
        used: u64,
    },
    /// Its call goes on behind the last step that one line may do.
    GoesOn,
    /// The model forbids the action of its last step. No step of the gates has such an action; a mutant's may.
    IsForbidden,
    /// It has no call under way.
    IsIdle,
}

/// What happens to which task.
#[derive(Clone, Copy)]
pub(crate) struct Entry {
    pub(crate) task: u8,
    pub(crate) happens: Happening,
}

impl Entry {
    /// For whom its task waits, if it does.
    pub(crate) fn wait(&self) -> Option<Wait> {
        match self.happens {
            Happening::Steps(taken) => taken.wait,
            _ => None,
        }
    }

    /// What it does to the model, if anything.
    pub(crate) fn action(&self) -> Option<Action> {
        match self.happens {
            Happening::Steps(taken) => taken.action,
            _ => None,
        }
    }

    /// Prints the entry as a line, which begins with its task.
    pub(crate) fn print(&self, out: &mut Output, style: Style) {
        match self.happens {
            Happening::Begins { call, .. } => {
                out.number(u64::from(self.task));
                out.text(b" ");
                call_term(call).print(out);
            }
            Happening::Unbegun { refusal, reason } => {
                out.answer(self.task, Err(refusal), 0);
                if let Some(reason) = reason {
                    out.text(b": ");
                    reason.print(out);
                }
            }
            Happening::Steps(taken) => {
                out.number(u64::from(self.task));
                out.text(b" ");
                taken.print(out, style);
            }
            Happening::Answers { answer, used } => out.answer(self.task, answer, used),
            Happening::GoesOn => return out.waiting_line(self.task),
            Happening::IsForbidden => {
                out.number(u64::from(self.task));
                out.text(b" the model forbids this action");
            }
            Happening::IsIdle => return out.idle_line(self.task),
        }
        out.text(b"\n");
    }
}

/// What stands behind the task in the line of an entry.
pub(crate) fn behind_task(line: &[u8]) -> &[u8] {
    let line = line.trim_ascii_end();
    for at in 0..line.len() {
        if line[at] == b' ' {
            return &line[at + 1..];
        }
    }
    line
}

impl Taken {
    /// Prints the step: as a replay does, if values are numbers.
    fn print(&self, out: &mut Output, style: Style) {
        let joint: &[u8] = if style.raw { b" " } else { b"; " };
        self.print_touch(out, style);
        if let Some(action) = self.action {
            out.text(joint);
            out.action(action);
        }
        if let Some(wait) = self.wait {
            out.text(joint);
            wait.print(out, style);
        }
    }

    /// Prints what the step does to its word, and the value before it and behind it: once, where a store finds nothing, or where the step
    /// leaves the word as it was and values are not numbers.
    pub(crate) fn print_touch(&self, out: &mut Output, style: Style) {
        let Event {
            word,
            touch,
            found,
            left,
        } = self.event;
        out.text(touch_name(touch).as_bytes());
        out.text(b" ");
        style.name(out, word);
        out.text(b" ");
        style.value(out, word, found);
        match touch {
            Touch::Store(_) => {}
            _ if style.raw => out.numbered(b" ", left),
            _ if found == left => {}
            _ => {
                out.text(b" -> ");
                style.value(out, word, left);
            }
        }
    }
}

/// The name of what a step does.
pub(crate) fn touch_name(touch: Touch) -> &'static str {
    match touch {
        Touch::Load => "load",
        Touch::Store(_) => "store",
        Touch::Add(_) => "add",
        Touch::Sub(_) => "sub",
        Touch::Or(_) => "or",
        Touch::And(_) => "and",
        Touch::Swap(_) => "swap",
        Touch::Cas { .. } => "cas",
    }
}
