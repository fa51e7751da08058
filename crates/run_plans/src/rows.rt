//! What is told of a run, line by line.

ghost use Rattle.std.specs.Prelude.{◌≤◌};

use crate::counts::{Details, Sizes, Totals};
use std::alloc::AllocError;
use std::io::Write;
use std::time::Duration;

/// So many in so long a time, for each second. A time under a microsecond counts as one.
fn each_second(count: u64, took: Duration) -> u64 {
    let micros = u64::try_from(took.as_micros()).unwrap_or(u64::MAX).max(1);
    count.saturating_mul(1_000_000) / micros
}

/// A line that is told: a name and its number, and none where there is no number.
type Figure = (&'static str, Option<u64>);

/// How many rows there are.
pub const ROWS: usize = 16;

/// How many of them, the first ones, tell what all tasks did.
pub const TOTAL_ROWS: usize = 6;

/// What can be told of a run. How often a freeze gave up is told if it may, the sizes of snapshots if there was one, and the time if the clock could be
/// read.
fn rows_of(totals: Totals, details: Details, took: Option<Duration>) -> [Figure; ROWS] {
    let (writes, copies) = (details.writes, details.copies);
    let (least, most) = match copies.sizes {
        Some(Sizes { least, most }) => (Some(least), Some(most)),
        None => (None, None),
    };
    let (milliseconds, speed) = match took {
        Some(took) => (
            Some(u64::try_from(took.as_millis()).unwrap_or(u64::MAX)),
            Some(each_second(writes.granted, took)),
        ),
        None => (None, None),
    };
    [
        ("grown", Some(totals.grown)),
        ("frozen", Some(totals.frozen)),
        ("gave_up", totals.gave_up),
        ("snapshots", Some(totals.snapshots)),
        ("remounts", Some(totals.remounts)),
        ("held", Some(totals.held)),
        ("granted", Some(writes.granted)),
        ("read_only", Some(writes.read_only)),
        ("busy", Some(u64::from(details.busy))),
        ("again", Some(writes.again)),
        ("callbacks", Some(u64::from(copies.callbacks))),
        ("waits", Some(details.waits())),
        ("least_blocks", least),
        ("most_blocks", most),
        ("milliseconds", milliseconds),
        ("rounds_a_second", speed),
    ]
}

/// Adds the lines of the first rows, so many, `ROWS` at most. A row that the run has nothing to tell of has no line.
///
/// # Errors
///
/// AllocError where memory for a line was refused: the lines before it stand there then, and of it there may be a part.
pub fn add_rows(
    lines: &mut String,
    count: usize,
    totals: Totals,
    details: Details,
    took: Option<Duration>,
) -> Result<(), AllocError>
    requires { count ≤ ROWS }
{
    let rows = rows_of(totals, details, took);
    for (name, number) in &rows[..count] {
        if let Some(number) = number {
            writeln!(lines, "{name} {number}")?;
        }
    }
    Ok(())
}
