//! Pages that hold pictures: each is whole, and asks for nothing from elsewhere.

use crate::markup::{counted, escaped};
use schedule_lines::Output;

/// The letters and the colours of a page.
static STYLE: &str =
    ":root{color-scheme:light dark}body{font:16px/1.5 system-ui,sans-serif;margin:2rem auto;padding:0 1rem;max-width:75rem}\
h1{font-size:1.5rem}h2{font-size:1.1rem;margin-top:2.5rem;break-after:avoid}h3{font-size:1rem}p{max-width:44rem}\
figure{margin:1rem 0;overflow-x:auto;width:fit-content;max-width:calc(100vw - 3rem)}\
code,pre{font:14px/1.5 ui-monospace,SFMono-Regular,Menlo,Consolas,'DejaVu Sans Mono',monospace}\
pre{overflow-x:auto;padding:.75rem 1rem;border:1px solid #8884;border-radius:6px}li{margin:.25rem 0}a{color:inherit}\
@media screen and (prefers-color-scheme:dark){body{background:#0d1117;color:#e6edf3}}\
@media print{body{margin:0;max-width:none;font-size:11pt}figure{overflow:visible;max-width:none;break-before:avoid}.trace{max-width:100%;height:auto}}";

/// How a picture is read.
static READING: &str =
    "<p>Time runs down. Each row is one atomic step of one task on one word, with the value before it and the value after it. \
A box is a call, from its beginning to its answer. A bar at the left of a lane is a wait, and its dotted line leads to the task in the way. \
The strips below <b>model</b> last as long as a freeze is under way or stands (blue, darker with each stage), and as the superblock is \
read-only (violet). The last column has the code of Linux 6.1 for each step. Point at a step to see its values as numbers.</p>\n";

/// Prints the begin of a page of this title, up to its first picture.
pub fn print_head(out: &mut Output, title: &str) {
    out.text(b"<!DOCTYPE html>\n<html lang=\"en\">\n<head>\n<meta charset=\"utf-8\">\n");
    out.text(b"<meta name=\"viewport\" content=\"width=device-width\">\n<title>");
    escaped(out, title.as_bytes());
    out.text(b"</title>\n<style>");
    out.text(STYLE.as_bytes());
    out.text(b"</style>\n</head>\n<body>\n<h1>");
    escaped(out, title.as_bytes());
    out.text(b"</h1>\n");
    out.text(READING.as_bytes());
}

/// Prints the end of a page.
pub fn print_end(out: &mut Output) {
    out.text(b"</body>\n</html>\n");
}

/// Prints a text of many lines as it is.
pub fn print_text(out: &mut Output, text: &[u8]) {
    out.text(b"<pre>");
    escaped(out, text);
    out.text(b"</pre>\n");
}

/// Prints a picture.
pub fn print_picture(out: &mut Output, picture: &[u8]) {
    out.text(b"<figure>\n");
    out.text(picture);
    out.text(b"</figure>\n");
}

/// Prints how many states were searched for how many outcomes, of which a list follows, and whether these are all.
pub fn begin_outcomes(out: &mut Output, states: u64, outcomes: u64, is_whole: bool) {
    out.numbered(b"<p>", states);
    out.numbered(b" states, ", outcomes);
    out.text(b" outcomes. ");
    out.text(if is_whole {
        b"The list is complete.".as_slice()
    } else {
        b"There are more states: the list has the outcomes so far.".as_slice()
    });
    out.text(b" Below is an execution for each.</p>\n<ol>\n");
}

/// Prints an outcome in the list, which leads to its picture.
pub fn list_outcome(out: &mut Output, number: u64, text: &[u8]) {
    out.numbered(b"<li><a href=\"#outcome", number);
    out.text(b"\"><code>");
    escaped(out, text);
    out.text(b"</code></a></li>\n");
}

/// Prints the end of the list.
pub fn end_outcomes(out: &mut Output) {
    out.text(b"</ol>\n");
}

/// Prints what stands above the picture of an outcome.
pub fn print_outcome_head(out: &mut Output, number: u64, text: &[u8]) {
    out.numbered(b"<h2 id=\"outcome", number);
    out.numbered(b"\">", number);
    out.text(b". <code>");
    escaped(out, text);
    out.text(b"</code></h2>\n");
}
