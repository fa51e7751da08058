//! Texts in rows that are narrower than they.

/// The rows of a text that are left, of which the next one has so much room.
#[derive(Clone, Copy)]
pub(crate) struct Rows<'a> {
    /// None behind the last row. A text with no byte has one row.
    rest: Option<&'a [u8]>,
    room: usize,
    /// How much room each row behind the first one has.
    next_room: usize,
}

impl<'a> Rows<'a> {
    /// The rows of a text, of which the first has so much room, and each other one a byte less, since it is indented by one.
    pub(crate) fn new(text: &'a [u8], room: usize) -> Rows<'a> {
        Rows {
            rest: Some(text),
            room,
            next_room: room.saturating_sub(1),
        }
    }

    /// The next row, if there is one.
    pub(crate) fn next(&mut self) -> Option<&'a [u8]> {
        let (row, rest) = first_row(self.rest?, self.room);
        self.rest = if rest.is_empty() { None } else { Some(rest) };
        self.room = self.next_room;
        Some(row)
    }
}

/// How many rows a text has.
pub(crate) fn count_rows(text: &[u8], room: usize) -> usize {
    let mut rows = Rows::new(text, room);
    for count in 0..text.len() {
        if rows.next().is_none() {
            return count;
        }
    }
    text.len().max(1)
}

/// The first row of a text, and what is left of the text: as many whole words as there is room for, or as much of the first word, where that
/// alone is too long.
fn first_row(text: &[u8], room: usize) -> (&[u8], &[u8]) {
    if text.len() <= room {
        return (text, &[]);
    }
    for at in (1..=room).rev() {
        if let Some(b' ') = text.get(at) {
            return (before(text, at), behind(text, at.saturating_add(1)));
        }
    }
    (before(text, room), behind(text, room))
}

/// The bytes before an index.
fn before(text: &[u8], end: usize) -> &[u8] {
    &text[..end.min(text.len())]
}

/// The bytes from an index on.
fn behind(text: &[u8], begin: usize) -> &[u8] {
    &text[begin.min(text.len())..]
}
