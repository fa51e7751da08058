//! What does the lines of a schedule: any player, and the plain one.

ghost use Rattle.std.specs.Prelude.{◌≡◌, ◌++◌, ◌⊎◌, Option, IfOk, IfErr, OnOk, OnErr};
ghost use Rattle.access_model.specs.declared.errors.GateError.TheVariants.{NoMemory};
ghost use Rattle.schedule_lines.specs.declared.faults.Fault.TheVariants.{Refused};
ghost use Rattle.schedule_text.specs.declared.commands.Line.TheVariants.{Request as RequestLine};
ghost use Rattle.transcripts.specs.Sessions.{ShowsPlayIfAny};
ghost use Rattle.transcripts.specs.Transcript.{ReplayState, line_effect};

use crate::session::{Session, settled};
use gate_transitions::Driver;
use schedule_lines::{Fault, Output};
use schedule_text::{Line, Request};
use std::alloc::{AllocError, Global};

/// Room for what the longest line prints, so that no line has to grow it.
const ROOM: usize = 65_536;

/// What does the lines of a schedule, one after the other, and prints what is to be seen of each.
pub trait Player: Drop {
    ghost use Rattle.std.specs.Prelude.{◌⊎◌, true, Bool, Option};
    ghost use Rattle.transcripts.specs.Transcript.{ReplayState, line_effect, tasks_of};

    /// Whether it is known what it plays once it begins.
    ghost is_known: { Bool };

    /// It plays this: a schedule on its way, or None before the configuration.
    ghost plays: { Self → Option ReplayState → Type 0 };

    /// How many tasks there are, once there is a configuration.
    fn tasks(&self) -> Option<u8>
        ensures { (p : Option ReplayState) → plays self.now p → result ≡ tasks_of p };

    /// Does what a line asks for, and prints what is to be seen of it.
    ///
    /// # Errors
    ///
    /// The line's fault, or NoMemory where a growth was refused. Then nothing of the line is printed.
    fn do_line(&mut self, line: Line, output: &mut Output) -> Result<(), Fault>
        ensures prints { (p : Option ReplayState) → plays self.old p →
            OnOk result (output.new.bytes.items ≡ output.old.bytes.items ++ (line_effect p line).printed) }
        ensures plays { (p : Option ReplayState) → is_known ≡ true → plays self.old p → OnOk result (plays self.new (line_effect p line).play) }
        ensures done { (p : Option ReplayState) → plays self.old p → OnOk result ((line_effect p line).fault ≡ None) }
        ensures fault { (p : Option ReplayState) → plays self.old p →
            IfErr result (λ fault. (fault ≡ Refused NoMemory) ⊎ ((line_effect p line).fault ≡ Some fault)) }
        ensures kept { OnErr result (output.new.bytes.items ≡ output.old.bytes.items) };

    /// Prints what stands behind all lines, also where a fault has ended them: nothing, where it is known what the player plays.
    ///
    /// # Errors
    ///
    /// NoMemory where a growth was refused. Then nothing is printed here.
    fn print_end(&mut self, output: &mut Output) -> Result<(), Fault>
        ensures done { is_known ≡ true → result ≡ Ok tt }
        ensures printed { is_known ≡ true → output.new.bytes.items ≡ output.old.bytes.items }
        ensures kept { OnErr result (output.new.bytes.items ≡ output.old.bytes.items) };
}

/// A session over whatever gates, whose lines print what their transcript has of them.
#[derive(Drop)]
pub struct SessionPlayer<D> {
    alloc: Global,
    session: Option<Session<D>>,
    /// What the last line printed: apart, so that a line for which there is no memory takes nothing from those before it.
    line: Output,
}

impl<D: Driver> SessionPlayer<D> {
    /// No configuration yet.
    pub fn new(alloc: Global) -> Result<SessionPlayer<D>, AllocError>
        ensures { IfOk result (λ player. player.session ≡ None) }
    {
        Ok(SessionPlayer {
            alloc,
            session: None,
            line: Output::with_room(alloc, ROOM)?,
        })
    }

    /// Does what is asked of the gates, once they are set up.
    fn do_request(&mut self, request: Request, output: &mut Output) -> Result<(), Fault>
        ensures prints { (p : Option ReplayState) → ShowsPlayIfAny D.shows self.old.session p →
            OnOk result (output.new.bytes.items ≡ output.old.bytes.items ++ (line_effect p (RequestLine request)).printed) }
        ensures shows { (p : Option ReplayState) → ShowsPlayIfAny D.shows self.old.session p →
            OnOk result (ShowsPlayIfAny D.shows self.new.session (line_effect p (RequestLine request)).play) }
        ensures done { (p : Option ReplayState) → ShowsPlayIfAny D.shows self.old.session p →
            OnOk result ((line_effect p (RequestLine request)).fault ≡ None) }
        ensures fault { (p : Option ReplayState) → ShowsPlayIfAny D.shows self.old.session p →
            IfErr result (λ fault. (fault ≡ Refused NoMemory) ⊎ ((line_effect p (RequestLine request)).fault ≡ Some fault)) }
        ensures kept { OnErr result (output.new.bytes.items ≡ output.old.bytes.items) }
    {
        match &mut self.session {
            None => Err(Fault::ConfigExpected),
            Some(session) => {
                self.line.clear();
                session.do_request(request, &mut self.line)?;
                print_line(&self.line, output)
            }
        }
    }
}

impl<D: Driver> Player for SessionPlayer<D> {
    ghost is_known = { D.is_known };

    ghost plays = { λ player p. ShowsPlayIfAny D.shows player.session p };

    fn tasks(&self) -> Option<u8> {
        self.session.as_ref().map(|session| session.tasks())
    }

    fn do_line(&mut self, line: Line, output: &mut Output) -> Result<(), Fault> {
        match line {
            Line::Skipped => Ok(()),
            Line::Config(config) => {
                self.session = Some(Session::new(self.alloc, config)?);
                Ok(())
            }
            Line::Request(request) => self.do_request(request, output),
        }
    }

    fn print_end(&mut self, _output: &mut Output) -> Result<(), Fault> {
        Ok(())
    }
}

/// Prints what a line has printed apart: all of it, or nothing where there was no memory for it. Many lines print nothing.
pub fn print_line(line: &Output, output: &mut Output) -> Result<(), Fault>
    ensures printed { OnOk result (output.new.bytes.items ≡ output.old.bytes.items ++ line.now.bytes.items) }
    ensures kept { OnErr result (output.new.bytes.items ≡ output.old.bytes.items) }
    ensures memory { IfErr result (λ fault. fault ≡ Refused NoMemory) }
{
    settled(line)?;
    if line.bytes.is_empty() {
        return Ok(());
    }
    output.text(line.bytes.as_slice());
    settled(output)
}
