//! A trace as a picture: a lane for each task, a row for each entry.

use crate::drawing::Drawing;
use crate::forms::Style;
use crate::layout::Layout;
use crate::listings::ListingKind;
use crate::markup::escaped;
use crate::page::Page;
use crate::trace::{Entry, Happening};
use model_state::Model;
use schedule_lines::Output;
use std::alloc::{AllocError, Global};

/// What was seen so far.
#[derive(Drop)]
pub(crate) struct Picture {
    alloc: Global,
    style: Style,
    layout: Layout,
    begins: Begins,
    entries: Vec<Entry>,
    /// How many steps were taken.
    steps: u64,
    /// What was listed, as it stands below the picture.
    listings: Output,
}

/// What the model is where a trace begins.
#[derive(Clone, Copy)]
pub(crate) struct Begins {
    pub(crate) stage: u8,
    pub(crate) read_only: bool,
}

impl Picture {
    /// Nothing seen yet.
    pub(crate) fn new(alloc: Global, style: Style) -> Picture {
        Picture {
            alloc,
            style,
            layout: Layout::new(0),
            begins: Begins {
                stage: 0,
                read_only: false,
            },
            entries: Vec::new(alloc),
            steps: 0,
            listings: Output::new(alloc),
        }
    }

    /// Takes how many tasks there are, and what the model is before the first entry.
    pub(crate) fn begin(&mut self, tasks: u8, model: &Model) {
        self.layout = Layout::new(tasks);
        self.begins = Begins {
            stage: model.stage(),
            read_only: model.sb_ro(),
        };
    }

    /// Takes an entry.
    pub(crate) fn add(&mut self, entry: Entry) -> Result<(), AllocError> {
        if let Happening::Steps(_) = entry.happens {
            self.steps = self.steps.saturating_add(1);
        }
        self.entries.push(entry)?;
        Ok(())
    }

    /// Takes what was listed.
    pub(crate) fn add_listing(
        &mut self,
        listing: ListingKind,
        text: &Output,
    ) -> Result<(), AllocError> {
        let out = &mut self.listings;
        out.text(b"<h3>");
        out.text(listing.name().as_bytes());
        out.numbered(b" after step ", self.steps);
        out.text(b"</h3>\n<pre>");
        if text.bytes.is_empty() {
            out.text(b"all are 0");
        }
        escaped(out, text.bytes.as_slice());
        out.text(b"</pre>\n");
        out.is_whole &= text.is_whole;
        out.settled()
    }

    /// Prints the picture, and below it what was listed.
    pub(crate) fn print(&self, page: &mut Page) {
        let (layout, style) = (self.layout, self.style);
        let entries = self.entries.as_slice();
        match Drawing::new(self.alloc, layout, style, entries) {
            Ok(drawing) => drawing.print(self.begins, self.steps, &mut page.out),
            Err(refused) => page.note(Err(refused)),
        }
        page.out.text(self.listings.bytes.as_slice());
    }
}
