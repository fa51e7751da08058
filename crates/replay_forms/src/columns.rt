//! Entries in a column for each task.

use crate::forms::Style;
use crate::listings::Listed;
use crate::page::{Page, text_of};
use crate::rows::Rows;
use crate::trace::{Entry, behind_task};
use cpu_words::WORDS;
use schedule_lines::Output;
use std::alloc::{AllocError, Global};

/// How wide a column is at least.
const LEAST: usize = 14;

/// The most tasks for which words are whole.
const FEW: u8 = 4;

/// What narrower words are printed by.
static NARROWER: &str = "narrower words: m is mount, l level, s section, .f .flags, .c .cpu\n";

/// What stands for what in them.
static SHORTER: [(&str, &str); 5] = [
    (" mount", " m"),
    (" level", " l"),
    (" section", " s"),
    (".flags", ".f"),
    (".cpu", ".c"),
];

/// A column for each task, and the words as they were listed last.
#[derive(Drop)]
pub(crate) struct Columns {
    /// How wide all columns are together, where there is room for it.
    page: usize,
    width: usize,
    is_narrow: bool,
    /// Each value at the place of its word; none before the first listing.
    listed: Vec<u64>,
}

impl Columns {
    /// No column yet.
    pub(crate) fn new(alloc: Global, page: usize) -> Columns {
        Columns {
            page,
            width: page,
            is_narrow: false,
            listed: Vec::new(alloc),
        }
    }

    /// Prints the heads of the columns.
    pub(crate) fn begin(&mut self, tasks: u8, page: &mut Page) {
        self.width = (self.page / usize::from(tasks.max(1))).max(LEAST);
        self.is_narrow = tasks > FEW;
        if self.is_narrow {
            page.text(NARROWER);
        }
        let start = page.len();
        for task in 0..tasks {
            let used = page.len().saturating_sub(start);
            page.spaces(self.indent(task).saturating_sub(used));
            page.out.numbered(b"task ", u64::from(task));
        }
        page.text("\n");
    }

    /// How many bytes are before a task's column.
    fn indent(&self, task: u8) -> usize {
        self.width.saturating_mul(usize::from(task))
    }

    /// Prints an entry in the column of its task.
    pub(crate) fn show(&self, entry: &Entry, style: Style, page: &mut Page) {
        let mut line = Output::new(page.alloc);
        entry.print(&mut line, style);
        page.note(line.settled());
        self.line(entry.task, line.bytes.as_slice(), page);
    }

    /// Prints the line of a task in its column, with shorter words where it has to be narrow.
    fn line(&self, task: u8, line: &[u8], page: &mut Page) {
        let text = behind_task(line);
        if !self.is_narrow {
            return self.cell(task, text, page);
        }
        match shortened(page.alloc, text_of(text)) {
            Ok(short) => self.cell(task, short.as_bytes(), page),
            Err(refused) => page.note(Err(refused)),
        }
    }

    /// Prints a text in the task's column: what has no room there goes on in the next row, behind a space.
    fn cell(&self, task: u8, text: &[u8], page: &mut Page) {
        let indent = self.indent(task);
        let mut rows = Rows::new(text, self.width.saturating_sub(1));
        for number in 0..=text.len() {
            let Some(row) = rows.next() else {
                break;
            };
            page.spaces(indent.saturating_add(number.min(1)));
            page.out.line(row);
        }
    }

    /// Prints the words that have changed since they were listed last, as `WORD BEFORE -> NOW`.
    pub(crate) fn changes(&mut self, words: &[Listed], style: Style, page: &mut Page) {
        if self.listed.is_empty() {
            match vec![in page.alloc; 0u64; WORDS] {
                Ok(listed) => self.listed = listed,
                Err(refused) => return page.note(Err(refused)),
            }
        }
        let start = page.len();
        for listed in words {
            let Listed { word, value } = *listed;
            if let Some(last) = self.listed.get_mut(word.place()) {
                let was = *last;
                *last = value;
                if was != value {
                    print_change(&mut page.out, listed, was, style);
                }
            }
        }
        if page.len() == start {
            page.text("no word has changed\n");
        }
    }
}

/// Prints a word, what it was, and what it is now.
fn print_change(out: &mut Output, now: &Listed, was: u64, style: Style) {
    style.name(out, now.word);
    out.text(b" ");
    style.value(out, now.word, was);
    out.text(b" -> ");
    style.value(out, now.word, now.value);
    out.text(b"\n");
}

/// A text with its words shortened.
fn shortened(alloc: Global, text: &str) -> Result<String, AllocError> {
    let mut text = text.to_string(alloc)?;
    for (whole, short) in SHORTER.iter() {
        text = text.as_str().replace(alloc, *whole, *short)?;
    }
    Ok(text)
}
