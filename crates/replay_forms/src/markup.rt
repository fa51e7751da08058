//! Text in pages and pictures.

use schedule_lines::Output;

/// Prints a text so that it stands for itself, whatever its bytes: the marks of a page are escaped, and bytes that no page may have become
/// question marks.
pub(crate) fn escaped(out: &mut Output, text: &[u8]) {
    for byte in text {
        match *byte {
            b'&' => out.text(b"&amp;"),
            b'<' => out.text(b"&lt;"),
            b'>' => out.text(b"&gt;"),
            b'"' => out.text(b"&quot;"),
            b'\n' | b'\t' => out.text(&[*byte]),
            0..=31 | 127..=255 => out.text(b"?"),
            _ => out.text(&[*byte]),
        }
    }
}

/// Prints an attribute with a number.
pub(crate) fn attribute(out: &mut Output, name: &str, number: u64) {
    out.text(b" ");
    out.text(name.as_bytes());
    out.numbered(b"=\"", number);
    out.text(b"\"");
}

/// Prints how many there are of something.
pub(crate) fn counted(out: &mut Output, count: u64, what: &[u8]) {
    out.number(count);
    out.text(b" ");
    out.text(what);
    if count != 1 {
        out.text(b"s");
    }
}
