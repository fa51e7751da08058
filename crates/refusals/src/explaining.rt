//! Explanations, from the command line.

ghost use Rattle.std.specs.Prelude.{◌≡◌, ◌⊎◌};
ghost use Rattle.exit_status.specs.declared.ends.ProgramEnding.TheVariants.{Misused, Refused, Told};

use crate::calls::{OTHERS, call_named, first_name, is_named, nearest_call};
use crate::causes::{CAUSES, Cause};
use crate::rows::RefusalRow;
use crate::table::{gates, tasks, trees};
use access_model::GateError;
use diagnostics::Text;
use exit_status::{ProgramEnding, report, report_refusal, write_text};
use schedule_text::Verb;
use std::alloc::{AllocError, Global};
use std::io::Write;

/// At which column the lines of an explanation end, and at which its texts begin.
const WIDTH: usize = 78;

const MARGIN: usize = 13;

/// What is asked for.
#[derive(Clone, Copy)]
struct RefusalQuery<'a> {
    /// A name of a call; all calls, if there is none.
    call: Option<&'a str>,
    /// A number or a name of a refusal; all refusals, if there is none.
    refusal: Option<&'a str>,
}

/// Writes what is to be known of a refusal of a call: of all of them, if no refusal is named; an index of the refusals, if no call is. A
/// refusal may be named before its call, and one without a call is explained for all calls. A name that nobody has is told as a fault of
/// the command line.
pub fn run_explanation<W: Write, E: Write>(
    alloc: Global,
    call: Option<&str>,
    refusal: Option<&str>,
    writer: &mut W,
    errors: &mut E,
) -> ProgramEnding
    ensures { (result ≡ Told) ⊎ (result ≡ Refused) ⊎ (result ≡ Misused) }
{
    let asked = match call {
        Some(word) if call_named(word).is_none() && is_any_refusal(word) => RefusalQuery {
            call: refusal,
            refusal: call,
        },
        _ => RefusalQuery { call, refusal },
    };
    let mut text = Text::new(alloc);
    let is_found = match asked {
        RefusalQuery {
            call: None,
            refusal: None,
        } => {
            put_index(&mut text);
            true
        }
        _ => put_rows(&mut text, asked),
    };
    if !is_found {
        return report_unknown(alloc, asked, errors);
    }
    match text.ended() {
        Ok(text) => write_text(text.as_str(), writer, errors),
        Err(AllocError) => report_refusal(GateError::NoMemory, errors),
    }
}

/// Puts each row that is asked for; whether there are some.
fn put_rows(text: &mut Text, asked: RefusalQuery<'_>) -> bool {
    let is_found = put_part(text, gates::ROWS, asked, false);
    let is_found = put_part(text, trees::ROWS, asked, is_found);
    put_part(text, tasks::ROWS, asked, is_found)
}

/// Puts each of these rows that is asked for, behind others, if some were found; whether there are some now.
fn put_part(text: &mut Text, rows: &'static str, asked: RefusalQuery<'_>, others: bool) -> bool {
    let mut is_found = others;
    for row in rows.split("\n\n") {
        if let Some(row) = RefusalRow::read(row)
            && is_asked(&row, asked)
        {
            if is_found {
                text.put("\n");
            }
            put_row(text, &row);
            is_found = true;
        }
    }
    is_found
}

/// Whether a row is asked for.
fn is_asked(row: &RefusalRow, asked: RefusalQuery<'_>) -> bool {
    let is_of_call = match asked.call {
        Some(word) => are_named(row.calls, word),
        None => true,
    };
    let is_of_refusal = match asked.refusal {
        Some(word) => is_refusal(row.cause, word),
        None => true,
    };
    is_of_call && is_of_refusal
}

/// Puts a row: its calls, its refusal, and each text behind its label.
fn put_row(text: &mut Text, row: &RefusalRow) {
    put_head(text, row);
    for line in row.texts.lines() {
        let (label, told) = line.split_once(": ").unwrap_or(("", line));
        put_labelled(text, label, told);
    }
}

/// Puts the refusal of a row, and its calls.
fn put_head(text: &mut Text, row: &RefusalRow) {
    put_refusal(text, row.cause);
    if !row.when.is_empty() {
        text.put(", ");
        text.put(row.when);
    }
    text.put("\n");
    let mut calls = Lines::new(text, "of");
    for call in row.calls.split(' ') {
        calls.put_word(call);
    }
    calls.end();
}

/// Puts a refusal by its number and its names.
fn put_refusal(text: &mut Text, cause: &Cause) {
    let (refusal, errno, _) = cause;
    if let GateError::Hook(_) = refusal {
        return text.put("Hook(code)");
    }
    text.put(refusal.number());
    text.put(" ");
    text.put(refusal.name());
    text.put(" (");
    text.put(*errno);
    text.put(")");
}

/// Puts a text behind its label, in lines that end at the margin.
fn put_labelled(text: &mut Text, label: &str, told: &str) {
    let mut lines = Lines::new(text, label);
    for word in told.split(' ') {
        lines.put_word(word);
    }
    lines.end();
}

/// Lines behind a label, on their way.
struct Lines<'a> {
    text: &'a mut Text,
    /// How many characters the last line has.
    column: usize,
}

impl<'a> Lines<'a> {
    /// Begins the first line by a label.
    fn new(text: &'a mut Text, label: &str) -> Lines<'a> {
        text.put("  ");
        text.put(label);
        Lines {
            text,
            column: label.len().saturating_add(2),
        }
    }

    /// Puts a word: on a line of its own, if the last one has no room for it.
    fn put_word(&mut self, word: &str) {
        if self.column > MARGIN && self.column.saturating_add(word.len()) >= WIDTH {
            self.text.put("\n");
            self.column = 0;
        }
        let spaces = MARGIN.saturating_sub(self.column).max(1);
        self.text.repeated(' ', spaces);
        self.text.put(word);
        self.column = self
            .column
            .saturating_add(spaces)
            .saturating_add(word.len());
    }

    /// Ends the last line.
    fn end(self) {
        let Lines { text, column: _ } = self;
        text.put("\n");
    }
}

/// Puts a line for each refusal, and the names of the calls.
fn put_index(text: &mut Text) {
    for (cause, errno, short) in &CAUSES {
        match cause {
            GateError::Hook(_) => text.put("-- Hook(code)       "),
            _ => put_columns(text, *cause, errno),
        }
        text.put(*short);
        text.put("\n");
    }
    text.put("\n'mntgate explain CALL REFUSAL' tells what to do about one. The calls:\n");
    let mut lines = Lines::new(text, "");
    for verb in &Verb::ALL {
        if verb.call_names().is_some() {
            lines.put_word(verb.name());
        }
    }
    for call in OTHERS.lines() {
        lines.put_word(first_name(call));
    }
    lines.end();
}

/// Puts the number and the names of a refusal in columns.
fn put_columns(text: &mut Text, cause: GateError, errno: &str) {
    if cause.number() < 10 {
        text.put(" ");
    }
    text.put(cause.number());
    text.put(" ");
    text.put(cause.name());
    text.repeated(' ', 9usize.saturating_sub(cause.name().len()));
    text.put(errno);
    text.repeated(' ', 8usize.saturating_sub(errno.len()));
}

/// Reports that a call or a refusal isn't known, or that the call is never refused so.
fn report_unknown<E: Write>(alloc: Global, asked: RefusalQuery<'_>, errors: &mut E) -> ProgramEnding
    ensures { (result ≡ Refused) ⊎ (result ≡ Misused) }
{
    let mut text = Text::new(alloc);
    text.put("error: ");
    match asked.call {
        Some(word) if call_named(word).is_none() => put_unknown_call(alloc, &mut text, word),
        call => put_unknown_refusal(&mut text, call, asked.refusal.unwrap_or("")),
    }
    text.put("\n\nUsage: mntgate explain [CALL] [REFUSAL]\n\nFor more information, try '--help'.");
    match text.ended() {
        Ok(text) => {
            let _ = report(text.as_str(), errors);
            ProgramEnding::Misused
        }
        Err(AllocError) => report_refusal(GateError::NoMemory, errors),
    }
}

/// Puts that there is no such call, and the nearest name.
fn put_unknown_call(alloc: Global, text: &mut Text, word: &str) {
    let is_refusal = is_any_refusal(word);
    text.put(if is_refusal {
        "there is no call '"
    } else {
        "there is no call or refusal '"
    });
    text.bytes(word.as_bytes());
    text.put("'");
    match nearest_call(alloc, word) {
        Some(name) => {
            text.put("; did you mean '");
            text.put(name);
            text.put("'?");
        }
        None => text.put(": 'mntgate explain' lists them"),
    }
}

/// Puts that a call is never refused so, and how it is.
fn put_unknown_refusal(text: &mut Text, call: Option<&str>, word: &str) {
    text.put("'");
    text.bytes(word.as_bytes());
    text.put("' is no refusal");
    let Some(call) = call else {
        return text.put(": 'mntgate explain' lists them");
    };
    text.put(" of '");
    text.bytes(call.as_bytes());
    text.put("', which may be refused as:");
    let asked = RefusalQuery {
        call: Some(call),
        refusal: None,
    };
    put_refusals(text, gates::ROWS, asked);
    put_refusals(text, trees::ROWS, asked);
    put_refusals(text, tasks::ROWS, asked);
}

/// Puts the refusals of these rows that are asked for, each once.
fn put_refusals(text: &mut Text, rows: &'static str, asked: RefusalQuery<'_>) {
    let mut last = None;
    for row in rows.split("\n\n") {
        if let Some(row) = RefusalRow::read(row)
            && is_asked(&row, asked)
            && last != Some(row.cause.0)
        {
            text.put(" ");
            put_refusal(text, row.cause);
            last = Some(row.cause.0);
        }
    }
}

/// Whether the call that has this name is one of those with these first names.
fn are_named(calls: &str, word: &str) -> bool {
    match call_named(word) {
        Some(name) => is_named(calls, name),
        None => false,
    }
}

/// Whether some refusal is named so.
fn is_any_refusal(word: &str) -> bool {
    CAUSES.iter().any(|cause| is_refusal(cause, word))
}

/// Whether a refusal is named so: by its number, its name or that in Linux, in capitals or not. A hook's may have its code behind it.
fn is_refusal(cause: &Cause, word: &str) -> bool {
    let (refusal, errno, _) = cause;
    if let GateError::Hook(_) = refusal {
        return refusal.name().eq_ignore_ascii_case(without_code(word));
    }
    refusal.name().eq_ignore_ascii_case(word)
        || errno.eq_ignore_ascii_case(word)
        || word
            .parse::<u16>()
            .is_ok_and(|number| number == refusal.number())
}

/// Returns a word without a hook's code behind it, as in `Hook(5)`.
fn without_code(word: &str) -> &str {
    let (name, rest) = word.split_once('(').unwrap_or((word, ""));
    match rest.strip_suffix(')') {
        Some(code) if code == "code" || code.parse::<u16>().is_ok() => name,
        _ => word,
    }
}
