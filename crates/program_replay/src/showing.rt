//! A schedule that is shown, over whatever gates, with its fault told.

use crate::replays::{Telling, tell};
use gate_core::Driver;
use replay_forms::{Form, Look, ScreenPlayer, html};
use schedule_lines::Output;
use schedule_lines::bytes::{ReplayFault, fault_after, write_out};
use std::io::{Read, Write};
use transcripts::{LineReplay, no_memory, settled};

/// A schedule that is shown, over whatever gates; a picture stands on a page of its own.
pub fn show_told<D: Driver, R: Read, W: Write, E: Write>(
    look: Look,
    telling: Telling<'_>,
    reader: &mut R,
    writer: &mut W,
    errors: &mut E,
) -> Result<(), ReplayFault> {
    let player = ScreenPlayer::<D>::new(telling.alloc, look);
    let mut replay = match LineReplay::new(telling.alloc, player) {
        Ok(replay) => replay,
        Err(error) => {
            let fault = fault_after(0, no_memory(error));
            tell(telling, fault, (&[], None), errors);
            return Err(fault);
        }
    };
    let ended = match look.form {
        Form::Picture => show_page(&mut replay, telling, reader, writer),
        _ => replay.do_lines(reader, writer),
    };
    if let Err(fault) = ended {
        tell(telling, fault, (replay.rest(), replay.tasks()), errors);
    }
    ended
}

/// Shows a schedule on a page, which is whole also where the schedule has a fault.
fn show_page<D: Driver, R: Read, W: Write>(
    replay: &mut LineReplay<ScreenPlayer<D>>,
    telling: Telling<'_>,
    reader: &mut R,
    writer: &mut W,
) -> Result<(), ReplayFault> {
    let mut out = Output::new(telling.alloc);
    html::print_head(&mut out, telling.file.unwrap_or("A schedule"));
    out.text(b"<figure>\n");
    write_page(&mut out, writer)?;
    let ended = replay.do_lines(reader, writer);
    out.text(b"</figure>\n");
    html::print_end(&mut out);
    let written = write_page(&mut out, writer);
    ended.and(written)
}

/// Writes out a part of a page.
fn write_page<W: Write>(out: &mut Output, writer: &mut W) -> Result<(), ReplayFault> {
    let written = settled(out).and_then(|()| write_out(writer, out.bytes.as_slice()));
    out.clear();
    written.map_err(|fault| fault_after(0, fault))
}
