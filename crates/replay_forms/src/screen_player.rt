//! A session that is seen.

use crate::forms::Look;
use crate::screen::Screen;
use gate_transitions::Driver;
use schedule_lines::{Fault, Output};
use schedule_text::Line;
use std::alloc::Global;
use transcripts::{Player, Session};

/// A session over whatever gates, whose lines print what a form shows of them.
#[derive(Drop)]
pub struct ScreenPlayer<D> {
    session: Option<Session<D>>,
    screen: Screen,
}

impl<D: Driver> ScreenPlayer<D> {
    /// No configuration yet.
    pub fn new(alloc: Global, look: Look) -> ScreenPlayer<D> {
        ScreenPlayer {
            session: None,
            screen: Screen::new(alloc, look),
        }
    }

    /// Gates that were set up before, with no configuration to be read.
    pub fn over(alloc: Global, look: Look, session: Session<D>) -> ScreenPlayer<D> {
        let mut player = ScreenPlayer::new(alloc, look);
        player.open(session);
        player
    }

    /// Begins to show a session.
    fn open(&mut self, session: Session<D>) {
        self.screen.begin(&session);
        self.session = Some(session);
    }
}

/// What a form shows is only tested: nothing is known of what it plays.
impl<D: Driver> Player for ScreenPlayer<D> {
    ghost use Rattle.std.specs.Prelude.{false};

    ghost is_known = { false };

    ghost plays = { λ _ _. ⊥ };

    fn tasks(&self) -> Option<u8> {
        self.session.as_ref().map(|session| session.tasks())
    }

    fn do_line(&mut self, line: Line, output: &mut Output) -> Result<(), Fault> {
        match line {
            Line::Skipped => {}
            Line::Config(config) => {
                let session = Session::new(self.screen.page.alloc, config)?;
                self.open(session);
            }
            Line::Request(request) => match &mut self.session {
                Some(session) => self.screen.do_request(session, request),
                None => return Err(Fault::ConfigExpected),
            },
        }
        self.screen.page.end_line(output)
    }

    fn print_end(&mut self, output: &mut Output) -> Result<(), Fault> {
        self.screen.end();
        self.screen.page.print(output)
    }
}
