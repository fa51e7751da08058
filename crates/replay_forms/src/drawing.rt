//! How a picture is drawn.

use crate::forms::Style;
use crate::kernel::code_of;
use crate::layout::{BASE, CODE, HEAD, LINE, Layout, row_height};
use crate::markup::{attribute, counted, escaped};
use crate::picture::Begins;
use crate::rows::{Rows, count_rows};
use crate::trace::{Entry, Happening, Taken, behind_task};
use crate::waits::{Culprit, Wait};
use access_model::Action;
use schedule_lines::Output;
use std::alloc::{AllocError, Global};

/// The letters and the colours of a picture, which it has with it, so that it stands alone.
static STYLE: &str =
    ".trace{--paper:#fff;--ink:#1f2328;--dim:#656d76;--line:#e4e8ec;--call:#f6f8fa;--edge:#b6bdc5;--ok:#1a7f37;--no:#cf222e;--wait:#9a6700;\
--bar:#e0a100;--act:#0a54b5;--s1:#b6e3ff;--s2:#80ccff;--s3:#4aa3f0;--s4:#0a54b5;--ro:#8250df}\
@media screen and (prefers-color-scheme:dark){.trace{--paper:#0d1117;--ink:#e6edf3;--dim:#9198a1;--line:#21262d;--call:#161b22;\
--edge:#484f58;--ok:#56d364;--no:#ff7b72;--wait:#e3b341;--bar:#bb8009;--act:#79c0ff;--s1:#0c2d6b;--s2:#1158c7;--s3:#388bfd;--s4:#a5d6ff;\
--ro:#bc8cff}}\
.trace text{font:12px ui-monospace,SFMono-Regular,Menlo,Consolas,'DejaVu Sans Mono',monospace;fill:#1f2328;fill:var(--ink);white-space:pre}\
.trace .paper{fill:#fff;fill:var(--paper)}.trace .rule{stroke:#e4e8ec;stroke:var(--line);shape-rendering:crispEdges}\
.trace .call{fill:#f6f8fa;fill:var(--call);stroke:#b6bdc5;stroke:var(--edge)}.trace .head,.trace .begins{font-weight:700}\
.trace .dim,.trace .code{fill:#656d76;fill:var(--dim)}.trace .code{font-size:11px}.trace .ok{fill:#1a7f37;fill:var(--ok);font-weight:700}\
.trace .no{fill:#cf222e;fill:var(--no);font-weight:700}.trace .wait{fill:#9a6700;fill:var(--wait)}.trace .act{fill:#0a54b5;fill:var(--act)}\
.trace .bar{fill:#e0a100;fill:var(--bar)}.trace .link{stroke:#e0a100;stroke:var(--bar);stroke-dasharray:3 3}\
.trace .s1{fill:#b6e3ff;fill:var(--s1)}.trace .s2{fill:#80ccff;fill:var(--s2)}.trace .s3{fill:#4aa3f0;fill:var(--s3)}\
.trace .s4{fill:#0a54b5;fill:var(--s4)}.trace .ro{fill:#8250df;fill:var(--ro)}.trace rect{-webkit-print-color-adjust:exact;print-color-adjust:exact}";

/// The class of each stage.
static STAGES: [&str; 5] = ["", "s1", "s2", "s3", "s4"];

/// The space between the lane's edge and its text, where the bar of a wait has its place.
const INDENT: u64 = 16;

/// How wide the letter of an indented row is.
const LETTER: u64 = 7;

/// The entries of a trace, and where the row of each begins.
#[derive(Drop)]
pub(crate) struct Drawing<'a> {
    alloc: Global,
    layout: Layout,
    style: Style,
    entries: &'a [Entry],
    /// Where each row begins, and behind them where the last one ends.
    tops: Vec<u64>,
}

/// A strip that tells how long something of the model is so: where it stands, its class, what it tells, and from where on.
#[derive(Clone, Copy)]
struct Strip {
    at: u64,
    class: &'static str,
    from: u64,
}

impl<'a> Drawing<'a> {
    /// Lays the rows out.
    pub(crate) fn new(
        alloc: Global,
        layout: Layout,
        style: Style,
        entries: &'a [Entry],
    ) -> Result<Drawing<'a>, AllocError> {
        let mut drawing = Drawing {
            alloc,
            layout,
            style,
            entries,
            tops: Vec::new(alloc),
        };
        drawing.lay_out()?;
        Ok(drawing)
    }

    fn lay_out(&mut self) -> Result<(), AllocError> {
        let mut top = HEAD;
        for entry in self.entries {
            self.tops.push(top)?;
            let lines = self.lines_of(entry)?;
            top = top.saturating_add(row_height(lines));
        }
        self.tops.push(top)?;
        Ok(())
    }

    /// The next row of a task behind a row; how many rows there are, if there is none.
    fn next(&self, row: usize, task: u8) -> usize {
        for next in row.saturating_add(1)..self.entries.len() {
            if self.entries[next].task == task {
                return next;
            }
        }
        self.entries.len()
    }

    /// How many lines the row of an entry has.
    fn lines_of(&self, entry: &Entry) -> Result<usize, AllocError> {
        let lines = self.count_lines(&self.cell_of(entry))?;
        match entry.wait() {
            Some(wait) => {
                let more = self.count_lines(&self.wait_of(wait))?;
                Ok(lines.saturating_add(more))
            }
            None => Ok(lines),
        }
    }

    /// How many lines a text has in a lane.
    fn count_lines(&self, text: &Output) -> Result<usize, AllocError> {
        text.settled()?;
        let line = behind_task(text.bytes.as_slice());
        Ok(count_rows(line, self.layout.room))
    }

    /// What stands in the lane for an entry, behind its task.
    fn cell_of(&self, entry: &Entry) -> Output {
        let mut text = Output::new(self.alloc);
        match entry.happens {
            Happening::Steps(taken) => {
                text.text(b" ");
                taken.print_touch(&mut text, self.style);
            }
            _ => entry.print(&mut text, self.style),
        }
        text
    }

    /// What stands in the lane of a wait, behind nothing.
    fn wait_of(&self, wait: Wait) -> Output {
        let mut text = Output::new(self.alloc);
        text.text(b" ");
        wait.print(&mut text, self.style);
        text
    }

    /// Where a row begins; where the last one ends, if there is none of that number.
    fn top(&self, row: usize) -> u64 {
        match self.tops.get(row) {
            Some(top) => *top,
            None => self.bottom(),
        }
    }

    /// Where the last row ends.
    fn bottom(&self) -> u64 {
        self.tops.last().copied().unwrap_or(HEAD)
    }

    /// Prints the picture of so many steps, before which the model was so.
    pub(crate) fn print(&self, begins: Begins, steps: u64, out: &mut Output) {
        self.print_begin(steps, out);
        self.print_heads(out);
        for row in 0..self.entries.len() {
            self.print_rule(row, out);
        }
        for (row, entry) in self.entries.iter().enumerate() {
            self.print_call(row, entry, out);
        }
        for (row, entry) in self.entries.iter().enumerate() {
            self.print_bar(row, entry, out);
        }
        self.print_strips(begins, out);
        let mut step = 0u64;
        for (row, entry) in self.entries.iter().enumerate() {
            if let Happening::Steps(_) = entry.happens {
                step = step.saturating_add(1);
            }
            self.print_row(row, entry, step, out);
        }
        out.text(b"</svg>\n");
    }

    fn print_begin(&self, steps: u64, out: &mut Output) {
        let (width, height) = (self.layout.width(), self.bottom().saturating_add(10));
        out.text(b"<svg xmlns=\"http://www.w3.org/2000/svg\" class=\"trace\"");
        attribute(out, "width", width);
        attribute(out, "height", height);
        out.numbered(b" viewBox=\"0 0 ", width);
        out.numbered(b" ", height);
        out.text(b"\">\n<title>");
        counted(out, u64::from(self.layout.tasks), b"task");
        out.text(b", ");
        counted(out, steps, b"step");
        out.text(b"</title>\n<style>");
        out.text(STYLE.as_bytes());
        out.text(b"</style>\n");
        rect(out, "paper", (0, 0), (width, height));
        out.text(b"\n");
    }

    /// Prints the heads of the columns.
    fn print_heads(&self, out: &mut Output) {
        for task in 0..self.layout.tasks {
            begin_text(
                out,
                "head",
                self.layout.lane_at(task).saturating_add(INDENT),
                23,
            );
            out.numbered(b"task ", u64::from(task));
            out.text(b"</text>\n");
        }
        begin_text(out, "head", self.layout.model_at().saturating_add(28), 23);
        out.text(b"model</text>\n");
        begin_text(out, "head", self.layout.kernel_at(), 23);
        out.text(b"in Linux 6.1</text>\n");
    }

    /// Prints the line above a row.
    fn print_rule(&self, row: usize, out: &mut Output) {
        out.text(b"<path class=\"rule\" d=\"M");
        out.numbered(b"8 ", self.top(row));
        out.numbered(b"H", self.layout.width().saturating_sub(8));
        out.text(b"\"/>\n");
    }

    /// Prints the box of the call that begins in a row, or is refused there.
    fn print_call(&self, row: usize, entry: &Entry, out: &mut Output) {
        let Happening::Begins { is_refused, .. } = entry.happens else {
            return;
        };
        let end = if is_refused {
            row.saturating_add(2)
        } else {
            self.end_of_call(row, entry.task)
        };
        let from = self.top(row).saturating_add(2);
        let height = self.top(end).saturating_sub(2).saturating_sub(from);
        out.text(b"<rect class=\"call\" rx=\"6\"");
        attribute(out, "x", self.layout.lane_at(entry.task));
        attribute(out, "y", from);
        attribute(out, "width", self.layout.lane);
        attribute(out, "height", height);
        out.text(b"/>\n");
    }

    /// The row behind the answer of the call of a task that begins in a row.
    fn end_of_call(&self, row: usize, task: u8) -> usize {
        for at in row.saturating_add(1)..self.entries.len() {
            let entry = &self.entries[at];
            if entry.task == task && matches!(entry.happens, Happening::Answers { .. }) {
                return at + 1;
            }
        }
        self.entries.len()
    }

    /// Prints the bar of a wait that is found in a row: up to the next thing that happens to its task; and a line to the blocker's lane.
    fn print_bar(&self, row: usize, entry: &Entry, out: &mut Output) {
        let Some(wait) = entry.wait() else {
            return;
        };
        let lane = self.layout.lane_at(entry.task);
        let from = self.top(row).saturating_add(4);
        let height = self.top(self.next(row, entry.task)).saturating_sub(from);
        rect(out, "bar", (lane.saturating_add(5), from), (5, height));
        out.text(b"\n");
        self.print_link(row, entry.task, wait, out);
    }

    /// Prints the line from a task that waits to its blocker's lane.
    fn print_link(&self, row: usize, task: u8, wait: Wait, out: &mut Output) {
        let Culprit::Task(blocker) = wait.culprit else {
            return;
        };
        let (from, to) = if blocker < task {
            (self.layout.lane_at(task), self.layout.lane_end(blocker))
        } else {
            (self.layout.lane_end(task), self.layout.lane_at(blocker))
        };
        let y = self.top(row).saturating_add(BASE).saturating_sub(4);
        out.numbered(b"<path class=\"link\" d=\"M", from);
        out.numbered(b" ", y);
        out.numbered(b"H", to);
        out.text(b"\"/><circle class=\"bar\" r=\"4\"");
        attribute(out, "cx", to);
        attribute(out, "cy", y);
        out.text(b"/>\n");
    }

    /// Prints how long the file system is at each stage, and how long the superblock is read-only.
    fn print_strips(&self, begins: Begins, out: &mut Output) {
        let at = self.layout.model_at();
        let mut stage = Strip {
            at,
            class: stage_class(begins.stage),
            from: HEAD,
        };
        let mut read_only = Strip {
            at: at.saturating_add(14),
            class: if begins.read_only { "ro" } else { "" },
            from: HEAD,
        };
        for (row, entry) in self.entries.iter().enumerate() {
            let top = self.top(row);
            match entry.action() {
                Some(Action::Stage(number)) => stage.turn(stage_class(number), top, out),
                Some(Action::SbRo) => read_only.turn("ro", top, out),
                Some(Action::SbRw) => read_only.turn("", top, out),
                _ => {}
            }
        }
        stage.print(self.bottom(), out);
        read_only.print(self.bottom(), out);
    }

    /// Prints the texts of a row: the number of a step, what stands in the lane, what it does to the model, and the kernel's code.
    fn print_row(&self, row: usize, entry: &Entry, step: u64, out: &mut Output) {
        let y = self.top(row).saturating_add(BASE);
        let x = self.layout.lane_at(entry.task).saturating_add(INDENT);
        let text = self.cell_of(entry);
        let Happening::Steps(taken) = entry.happens else {
            self.print_rows(class_of(entry), x, y, &text, out);
            return;
        };
        out.text(b"<g>");
        self.print_hover(entry, step, out);
        begin_text(out, "dim", 8, y);
        out.number(step);
        out.text(b"</text>\n");
        let y = self.print_rows("step", x, y, &text, out);
        if let Some(wait) = taken.wait {
            self.print_rows("wait", x, y, &self.wait_of(wait), out);
        }
        self.print_right(row, &taken, out);
        out.text(b"</g>\n");
    }

    /// Prints what a step does to the model, and the kernel's code for it.
    fn print_right(&self, row: usize, taken: &Taken, out: &mut Output) {
        let y = self.top(row).saturating_add(BASE);
        if let Some(action) = taken.action {
            begin_text(out, "act", self.layout.model_at().saturating_add(28), y);
            out.action(action);
            out.text(b"</text>\n");
        }
        begin_text(out, "code", self.layout.kernel_at(), y);
        let code = code_of(taken).as_bytes();
        escaped(out, &code[..CODE.min(code.len())]);
        out.text(b"</text>");
    }

    /// Prints what is printed of a step where one points at it: its line as numbers.
    fn print_hover(&self, entry: &Entry, step: u64, out: &mut Output) {
        let numbers = Style {
            raw: true,
            ..self.style
        };
        out.numbered(b"<title>step ", step);
        out.numbered(b", task ", u64::from(entry.task));
        out.text(b": ");
        let mut line = Output::new(self.alloc);
        entry.print(&mut line, numbers);
        out.is_whole &= line.is_whole;
        escaped(out, behind_task(line.bytes.as_slice()));
        out.text(b"</title>");
    }

    /// Prints a text in rows from a place on; says where the row behind it begins.
    fn print_rows(&self, class: &str, x: u64, y: u64, text: &Output, out: &mut Output) -> u64 {
        out.is_whole &= text.is_whole;
        let line = behind_task(text.bytes.as_slice());
        let mut rows = Rows::new(line, self.layout.room);
        let (mut x_of_row, mut y_of_row) = (x, y);
        for _ in 0..=line.len() {
            let Some(row) = rows.next() else {
                break;
            };
            begin_text(out, class, x_of_row, y_of_row);
            escaped(out, row);
            out.text(b"</text>\n");
            x_of_row = x.saturating_add(LETTER);
            y_of_row = y_of_row.saturating_add(LINE);
        }
        y_of_row
    }
}

impl Strip {
    /// Prints the strip up to here, and goes on with another one.
    fn turn(&mut self, class: &'static str, here: u64, out: &mut Output) {
        self.print(here, out);
        self.class = class;
        self.from = here;
    }

    /// Prints the strip up to here, unless it has no class.
    fn print(&self, here: u64, out: &mut Output) {
        if self.class.is_empty() {
            return;
        }
        let size = (10, here.saturating_sub(self.from));
        rect(out, self.class, (self.at, self.from), size);
        out.text(b"\n");
    }
}

/// The class of the text of an entry that is no step.
fn class_of(entry: &Entry) -> &'static str {
    match entry.happens {
        Happening::Begins { .. } => "begins",
        Happening::Answers { answer: Ok(_), .. } => "ok",
        Happening::Answers { .. } | Happening::Unbegun { .. } | Happening::IsForbidden => "no",
        _ => "dim",
    }
}

fn stage_class(stage: u8) -> &'static str {
    match STAGES.get(usize::from(stage)) {
        Some(class) => *class,
        None => "",
    }
}

/// Begins a text of a class at a place.
fn begin_text(out: &mut Output, class: &str, x: u64, y: u64) {
    out.text(b"<text class=\"");
    out.text(class.as_bytes());
    out.text(b"\"");
    attribute(out, "x", x);
    attribute(out, "y", y);
    out.text(b">");
}

/// Prints a rectangle of a class: its place, and its size.
fn rect(out: &mut Output, class: &str, (x, y): (u64, u64), (width, height): (u64, u64)) {
    out.text(b"<rect class=\"");
    out.text(class.as_bytes());
    out.text(b"\"");
    attribute(out, "x", x);
    attribute(out, "y", y);
    attribute(out, "width", width);
    attribute(out, "height", height);
    out.text(b"/>");
}
