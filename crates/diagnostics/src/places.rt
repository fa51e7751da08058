//! Parts of a line, and where they stand.

use schedule_lines::words::{after_word, first_word, word_count};

/// A part of a line, and the column at which it begins: 1 for the first byte.
#[derive(Clone, Copy)]
pub(crate) struct Place<'a> {
    pub(crate) part: &'a [u8],
    pub(crate) column: usize,
}

/// Returns the word of a line with so many before it; behind the last one it is empty and stands at the end.
pub(crate) fn word_after<'a>(line: &'a [u8], before: usize) -> Place<'a> {
    let mut rest = line;
    for _ in 0..before {
        rest = after_word(rest);
    }
    Place {
        part: first_word(rest),
        column: column_of(line, rest),
    }
}

/// Returns all from the word of a line on that has so many before it.
pub(crate) fn words_from<'a>(line: &'a [u8], before: usize) -> Place<'a> {
    let mut rest = line;
    for _ in 0..before {
        rest = after_word(rest);
    }
    Place {
        part: rest,
        column: column_of(line, rest),
    }
}

/// Returns the place behind the last byte of a line.
pub(crate) fn end_of<'a>(line: &'a [u8]) -> Place<'a> {
    Place {
        part: b"",
        column: line.len().saturating_add(1),
    }
}

/// Returns the place of the first such byte of a line.
pub(crate) fn byte_in<'a>(line: &'a [u8], byte: u8) -> Option<Place<'a>> {
    let at = line.iter().position(|other| *other == byte)?;
    Some(Place {
        part: line.get(at..at.saturating_add(1))?,
        column: at.saturating_add(1),
    })
}

/// Returns the first word of a line that is empty, as two spaces make one, or a space at an end.
pub(crate) fn empty_word<'a>(line: &'a [u8]) -> Option<Place<'a>> {
    for number in 0..word_count(line) {
        let place = word_after(line, number);
        if place.part.is_empty() {
            return Some(place);
        }
    }
    None
}

/// Returns the first word of a line that begins a comment, and all behind it.
pub(crate) fn comment_in<'a>(line: &'a [u8]) -> Option<Place<'a>> {
    for number in 1..word_count(line) {
        let place = words_from(line, number);
        if place.part.starts_with(b"#") {
            return Some(place);
        }
    }
    None
}

/// Returns the column at which the rest of a line begins.
fn column_of(line: &[u8], rest: &[u8]) -> usize {
    line.len().saturating_sub(rest.len()).saturating_add(1)
}
