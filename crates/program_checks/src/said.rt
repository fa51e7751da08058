//! What lines of a file say that is printed.

ghost use Rattle.std.specs.Prelude.{◌≡◌, ◌<◌, ◌≤◌, ◌∷◌, ◌++◌, [], true, codes, length, take};
ghost use Rattle.race_files.specs.Left.{behind, left_in};
ghost use Rattle.program_checks.specs.Said.{IsSaidIn, PutsSaid, SaysMore, said_by};
ghost use Rattle.schedule_lines.specs.Printed.{Prints};

use race_files::Lines;
use schedule_lines::{LINE_BYTES, Output};
use std::alloc::Global;

/// How many bytes of what is printed a line says at most, behind its mark.
const ROOM: usize = LINE_BYTES - 3;

/// What a line says of what is printed.
#[derive(Clone, Copy)]
pub enum Said<'a> {
    /// `#> TEXT`: a line, or its beginning.
    Line(&'a [u8]),
    /// `#>+TEXT`: more of the line that the one before it says, right behind its end.
    More(&'a [u8]),
}

/// Returns what a line says of what is printed, if it says something.
pub fn said_in(line: &[u8]) -> Option<Said<'_>>
    ensures { IsSaidIn line.now result }
{
    if let Some(more) = line.strip_prefix(b"#>+") {
        return Some(Said::More(more));
    }
    if let Some(text) = line.strip_prefix(b"#> ") {
        return Some(Said::Line(text));
    }
    match line.strip_prefix(b"#>") {
        Some(text) => Some(Said::Line(text)),
        None => None,
    }
}

/// Adds what a line says to what the lines before it say.
fn say(line: &[u8], said: &mut Output)
    ensures { SaysMore said.old said.new (line.now ∷ []) }
{
    match said_in(line) {
        Some(Said::Line(text)) => said.line(text),
        Some(Said::More(text)) => {
            // It stands in the place of the newline.
            let end = said.bytes.len().saturating_sub(1);
            said.bytes.truncate(end);
            said.line(text);
        }
        None => {}
    }
}

/// Takes a line, if there is one, and adds what it says.
fn take_said(lines: &mut Lines<'_>, said: &mut Output)
    ensures says { SaysMore said.old said.new (take 1 (left_in lines.old).lines) }
    ensures left { left_in lines.new ≡ behind (left_in lines.old) }
{
    if let Ok(Some(line)) = lines.line() {
        say(line, said);
    }
    lines.take();
}

/// Takes so many lines, and returns what they say that is printed: each line with a newline behind it.
pub fn read_said(alloc: Global, lines: &mut Lines<'_>, count: u32) -> Output
    ensures { result.is_whole ≡ true → result.bytes.items ≡ said_by (take count (left_in lines.old).lines) }
{
    let mut said = Output::new(alloc);
    for taken in 0..count {
        let _ = taken;
        take_said(lines, &mut said);
    }
    said
}

/// Puts lines that say what was printed. None of them is longer than a line may be: a printed line that is goes on in further lines, each from a
/// space on where there is one.
pub fn put_said(printed: &[u8], lines: &mut Output) {
    let mut rest = printed;
    while !rest.is_empty() {
        let (line, others) = split_line(rest);
        put_line(line, lines);
        rest = others;
    }
}

/// Splits bytes behind their first line: returns it without its newline, and what follows.
fn split_line(bytes: &[u8]) -> (&[u8], &[u8])
    ensures { 0 < length bytes.now → length result.1.now < length bytes.now }
{
    for place in 0..bytes.len() {
        if bytes[place] == b'\n' {
            return (&bytes[..place], &bytes[place + 1..]);
        }
    }
    (bytes, b"")
}

/// Puts lines that say a printed line.
fn put_line(text: &[u8], lines: &mut Output)
    ensures { PutsSaid lines.old lines.new (text.now ++ codes "\n") }
{
    let (first, mut rest) = cut(text);
    put_part(b"#> ", first, lines);
    while !rest.is_empty() {
        let (part, others) = cut(rest);
        put_part(b"#>+", part, lines);
        rest = others;
    }
}

/// Puts a line with a mark before it.
fn put_part(mark: &[u8], text: &[u8], lines: &mut Output)
    ensures { Prints lines.old lines.new ((mark.now ++ text.now) ++ codes "\n") }
{
    lines.text(mark);
    lines.line(text);
}

/// Cuts a text where a line that says it ends, and returns the parts: the first has all of it, or fits into a line, and ends before a space if it can.
fn cut(text: &[u8]) -> (&[u8], &[u8])
    ensures parts { text.now ≡ result.0.now ++ result.1.now }
    ensures fits { length result.0.now ≤ 253 }
    ensures some { 0 < length text.now → length result.1.now < length text.now }
{
    if text.len() <= ROOM {
        return (text, b"");
    }
    let end = cut_place(text);
    (&text[..end], &text[end..])
}

/// Returns how many bytes of a text that doesn't fit into a line go into one: up to the last space that may stand behind them, if there is one.
fn cut_place(text: &[u8]) -> usize
    requires { 253 < length text.now }
    ensures some { 0 < result }
    ensures fits { result ≤ 253 }
{
    let mut end = ROOM;
    for place in 1..ROOM + 1 {
        if text[place] == b' ' {
            end = place;
        }
    }
    end
}
