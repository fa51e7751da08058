//! What is seen of a session.

use crate::columns::Columns;
use crate::forms::{Form, Look, Style};
use crate::json;
use crate::listings::{Listed, ListingKind, words_of};
use crate::page::Page;
use crate::picture::Picture;
use crate::reasons::Asker;
use crate::trace::{Entry, Happening, Taken};
use crate::waits::Wait;
use cpu_words::{Event, WordName};
use gate_transitions::{Driver, Progress, Step};
use gate_world::Op;
use schedule_lines::Output;
use schedule_text::{HookFailure, Request, TaskCommand};
use std::alloc::Global;
use transcripts::Session;
use transcripts::session::{EVENTS, JudgedStep};

/// How many tasks a number can tell.
const TASKS: usize = 256;

/// What was seen of a task that its next step is printed by.
#[derive(Clone, Copy)]
struct Seen {
    /// The call that is under way.
    call: Option<Op>,
    /// The word of the call's last step.
    word: Option<WordName>,
    /// The level whose block the task loaded last.
    block: u8,
}

/// What prints entries in a form.
#[derive(Drop)]
enum Printer {
    Events,
    Columns(Columns),
    Json,
    Picture(Picture),
    Waits(LastWaits),
}

/// What the last step of each task waits for, if it has to.
type LastWaits = [Option<Wait>; TASKS];

/// A form, and what was printed in it.
#[derive(Drop)]
pub(crate) struct Screen {
    pub(crate) page: Page,
    style: Style,
    printer: Printer,
    seen: [Seen; TASKS],
}

impl Screen {
    /// Nothing printed yet.
    pub(crate) fn new(alloc: Global, look: Look) -> Screen {
        let printer = match look.form {
            Form::Events => Printer::Events,
            Form::Columns { width } => Printer::Columns(Columns::new(alloc, width)),
            Form::Json => Printer::Json,
            Form::Picture => Printer::Picture(Picture::new(alloc, look.style)),
            Form::Waits => Printer::Waits([None; TASKS]),
        };
        let nothing = Seen {
            call: None,
            word: None,
            block: 0,
        };
        Screen {
            page: Page::new(alloc),
            style: look.style,
            printer,
            seen: [nothing; TASKS],
        }
    }

    /// Begins to show a session.
    pub(crate) fn begin<D: Driver>(&mut self, session: &Session<D>) {
        match &mut self.printer {
            Printer::Columns(columns) => columns.begin(session.tasks(), &mut self.page),
            Printer::Picture(picture) => picture.begin(session.tasks(), session.model()),
            Printer::Events | Printer::Json | Printer::Waits(_) => {}
        }
    }

    /// Prints what is printed at the end: the picture, or who waits.
    pub(crate) fn end(&mut self) {
        match &mut self.printer {
            Printer::Picture(picture) => picture.print(&mut self.page),
            Printer::Waits(waits) => print_waits(waits, self.style, &mut self.page.out),
            Printer::Events | Printer::Columns(_) | Printer::Json => {}
        }
    }

    /// Does what is asked of the gates, and shows it.
    pub(crate) fn do_request<D: Driver>(&mut self, session: &mut Session<D>, request: Request) {
        match request {
            Request::Words => self.list(session, ListingKind::Words),
            Request::Tree => self.list(session, ListingKind::Tree),
            Request::Model => self.show_model(session),
            Request::Task { task, command } => match command {
                TaskCommand::Begin(op) => self.start(session, task, op),
                TaskCommand::Step { hook } => {
                    self.step(session, task, hook);
                }
                TaskCommand::Run { failure } => self.run(session, task, failure),
            },
        }
    }

    /// Shows an entry.
    fn show(&mut self, task: u8, happens: Happening) {
        let entry = Entry { task, happens };
        match &mut self.printer {
            Printer::Events => entry.print(&mut self.page.out, self.style),
            Printer::Columns(columns) => columns.show(&entry, self.style, &mut self.page),
            Printer::Json => json::print_entry(&entry, self.style, &mut self.page),
            Printer::Picture(picture) => self.page.note(picture.add(entry)),
            Printer::Waits(waits) => waits[usize::from(task)] = entry.wait(),
        }
    }

    /// Shows the words of a listing. In columns `words` has those that have changed.
    fn list<D: Driver>(&mut self, session: &Session<D>, listing: ListingKind) {
        match words_of(self.page.alloc, session, listing) {
            Ok(words) => self.show_words(listing, words.as_slice()),
            Err(refused) => self.page.note(Err(refused)),
        }
    }

    fn show_words(&mut self, listing: ListingKind, words: &[Listed]) {
        match &mut self.printer {
            Printer::Columns(columns) if listing == ListingKind::Words => {
                columns.changes(words, self.style, &mut self.page);
            }
            Printer::Json => json::print_words(listing, words, self.style, &mut self.page),
            Printer::Events | Printer::Columns(_) => {
                print_words(words, self.style, &mut self.page.out);
            }
            Printer::Picture(picture) => {
                let mut text = Output::new(self.page.alloc);
                print_words(words, self.style, &mut text);
                self.page.note(picture.add_listing(listing, &text));
            }
            Printer::Waits(_) => {}
        }
    }

    fn show_model<D: Driver>(&mut self, session: &Session<D>) {
        match &mut self.printer {
            Printer::Events | Printer::Columns(_) => session.print_model(&mut self.page.out),
            Printer::Json => json::print_model(session, &mut self.page),
            Printer::Picture(picture) => {
                let mut text = Output::new(self.page.alloc);
                session.print_model(&mut text);
                self.page
                    .note(picture.add_listing(ListingKind::Model, &text));
            }
            Printer::Waits(_) => {}
        }
    }

    /// Begins a call, or shows why it can't begin.
    fn start<D: Driver>(&mut self, session: &mut Session<D>, task: u8, call: Op) {
        let under_way = self.seen[usize::from(task)].call;
        match session.try_begin(task, call) {
            Ok(()) => {
                let seen = &mut self.seen[usize::from(task)];
                seen.call = Some(call);
                seen.word = None;
                let is_refused = false;
                self.show(task, Happening::Begins { call, is_refused });
            }
            Err(refusal) => {
                let is_refused = true;
                self.show(task, Happening::Begins { call, is_refused });
                let asker = Asker {
                    session,
                    task,
                    under_way,
                };
                let reason = asker.reason(call, refusal);
                self.show(task, Happening::Unbegun { refusal, reason });
            }
        }
    }

    /// Goes on to the reply, to the first step that has to wait, or to the last step that one line may do.
    fn run<D: Driver>(&mut self, session: &mut Session<D>, task: u8, failure: Option<HookFailure>) {
        for _ in 0..EVENTS {
            let hook = session.hook_answer(task, failure);
            let Progress::Going = self.step(session, task, hook) else {
                return;
            };
        }
        self.show(task, Happening::GoesOn);
    }

    /// Does one step and prints it, also one whose action the model forbids, and the reply, if the operation has ended; says how it stands.
    fn step<D: Driver>(
        &mut self,
        session: &mut Session<D>,
        task: u8,
        hook: Result<(), u16>,
    ) -> Progress {
        let JudgedStep { step, is_allowed } = session.step_judged(task, hook);
        if let Some(event) = step.event {
            self.show_step(session, task, event, step);
        }
        if !is_allowed {
            self.show(task, Happening::IsForbidden);
        }
        self.show_end(session, task, step.progress);
        step.progress
    }

    /// Shows the reply, where a call has ended, and that there is no call.
    fn show_end<D: Driver>(&mut self, session: &Session<D>, task: u8, progress: Progress) {
        match progress {
            Progress::Going | Progress::Waiting => {}
            Progress::Idle => self.show(task, Happening::IsIdle),
            Progress::Done(answer) => {
                let used = session.used();
                self.seen[usize::from(task)].call = None;
                self.show(task, Happening::Answers { answer, used });
            }
        }
    }

    /// Prints the event of a step, and for whom it waits.
    fn show_step<D: Driver>(&mut self, session: &Session<D>, task: u8, event: Event, step: Step) {
        let seen = &mut self.seen[usize::from(task)];
        if let WordName::Block(level) = event.word {
            seen.block = level;
        }
        let Seen { call, word, block } = *seen;
        seen.word = Some(event.word);
        let wait = match step.progress {
            Progress::Waiting => Some(Wait::of(session, task, event, block)),
            _ => None,
        };
        let taken = Taken {
            event,
            action: step.action,
            wait,
            call,
            before: word,
        };
        self.show(task, Happening::Steps(taken));
    }
}

/// Prints a comment for each task that waits.
fn print_waits(waits: &LastWaits, style: Style, out: &mut Output) {
    for task in 0..TASKS {
        if let Some(wait) = waits[task] {
            out.numbered(b"#   ", task as u64);
            out.text(b" ");
            wait.print(out, style);
            out.text(b"\n");
        }
    }
}

/// Prints the words that aren't 0, each on a line of its own.
fn print_words(words: &[Listed], style: Style, out: &mut Output) {
    for listed in words {
        if listed.value != 0 {
            style.name(out, listed.word);
            out.text(b" ");
            style.value(out, listed.word, listed.value);
            out.text(b"\n");
        }
    }
}
