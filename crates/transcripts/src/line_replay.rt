//! A replay, line by line: on its way, and to its end.

ghost use Rattle.std.specs.Prelude.{◌≡◌, ◌≤◌, ◌<◌, ◌+◌, ◌⊎◌, ℕ, List, [], true, false, Option, IfOk, IfErr, OnOk, OnErr, IfSome, IsSome, length};
ghost use Rattle.std.specs.Io.KnownBytes.{Appends, IsAtEnd};
ghost use Rattle.schedule_lines.specs.Lines.{front_of};
ghost use Rattle.schedule_lines.specs.bytes.Pending.{pending, pending_count};
ghost use Rattle.schedule_lines.specs.bytes.Writing.{AppendsPart};
ghost use Rattle.schedule_lines.specs.declared.faults.Fault.TheVariants.{ConfigExpected, WriteFailed};
ghost use Rattle.schedule_lines.specs.declared.lines.Front.TheVariants.{Line as WholeLine, Part};
ghost use Rattle.transcripts.specs.Limits.{IsLineNumber};
ghost use Rattle.transcripts.specs.Transcript.{ReplayState, tasks_of};
ghost use Rattle.transcripts.specs.LineReplays.{IsNewReplay, IsReadReplay, ReplayGoesOn};
ghost use Rattle.transcripts.specs.Replayed.{Replayed};
ghost use Rattle.transcripts.specs.Replaying.{AllDone, LinesEnd, Stops};

use crate::player::{Player, SessionPlayer};
use crate::session::no_memory;
use gate_transitions::Driver;
use schedule_lines::bytes::{ReplayFault, fault_after};
use schedule_lines::{Fault, Front, Input, LINES, Output};
use schedule_text::parse;
use std::alloc::{AllocError, Global};
use std::io::{Read, Write};

/// From so many printed bytes on they are written out.
const FULL: usize = 65_536;

/// Room for `FULL` bytes and for what the longest line of a transcript prints on top, so that no such line has to grow it.
const ROOM: usize = 131_072;

/// A replay on its way: what was read of a schedule, what does its lines, and what they have printed.
#[derive(Drop)]
pub struct LineReplay<P> {
    input: Input,
    output: Output,
    player: P,
}

impl<P: Player> LineReplay<P> {
    /// Nothing read and nothing printed yet.
    pub fn new(alloc: Global, player: P) -> Result<LineReplay<P>, AllocError>
        ensures { P.plays player None → IfOk result (λ replay. IsNewReplay P.plays replay) }
    {
        let input = Input::new(alloc)?;
        let output = Output::with_room(alloc, ROOM)?;
        Ok(LineReplay {
            input,
            output,
            player,
        })
    }

    /// Does all lines, or those up to the first fault. Whatever the lines so far print is written out before more is read.
    pub fn do_lines<R: Read, W: Write>(
        &mut self,
        reader: &mut R,
        writer: &mut W,
    ) -> Result<(), ReplayFault>
        requires { P.is_known ≡ true → IsNewReplay P.plays self.old }
        ensures replayed { P.is_known ≡ true →
            Replayed (R.remaining reader.old) (R.remaining reader.new) (W.contents writer.old) (W.contents writer.new) result }
        ensures line { IfErr result (λ fault. IsLineNumber fault.line) }
    {
        for done in 0..LINES {
            match self.do_line(reader, writer) {
                Ok(true) => {}
                Ok(false) => return self.finish(done, Ok(()), writer),
                Err(fault) => return self.finish(done, Err(fault), writer),
            }
        }
        let outcome = self.expect_end(reader, writer);
        self.finish(LINES, outcome, writer)
    }

    /// Reads a line and does it; says whether there was one.
    fn do_line<R: Read, W: Write>(&mut self, reader: &mut R, writer: &mut W) -> Result<bool, Fault>
        ensures goes_on { (input held : Option (List ℕ)) (done : ℕ) → done < 1048576 →
            ReplayGoesOn P.is_known P.plays input held done self.old (R.remaining reader.old) (W.contents writer.old) → result ≡ Ok true →
            ReplayGoesOn P.is_known P.plays input held (done + 1) self.new (R.remaining reader.new) (W.contents writer.new) }
        ensures ends { (input held : Option (List ℕ)) (done : ℕ) → done < 1048576 →
            ReplayGoesOn P.is_known P.plays input held done self.old (R.remaining reader.old) (W.contents writer.old) → result ≡ Ok false →
            AllDone input held (R.remaining reader.new) self.new.output.bytes.items (W.contents writer.new) done }
        ensures stops { (input held : Option (List ℕ)) (done : ℕ) → done < 1048576 →
            ReplayGoesOn P.is_known P.plays input held done self.old (R.remaining reader.old) (W.contents writer.old) →
            IfErr result (λ fault.
            Stops input held (R.remaining reader.new) self.new.output.bytes.items (W.contents writer.new) done fault) }
    {
        let Some(length) = self.read_line(reader, writer)? else {
            self.expect_config()?;
            return Ok(false);
        };
        self.do_front(length)?;
        if self.output.bytes.len() >= FULL {
            self.output.write_out(writer)?;
        }
        Ok(true)
    }

    /// Reads until the next line is whole, and says how many bytes it has; None at the end of the input.
    fn read_line<R: Read, W: Write>(
        &mut self,
        reader: &mut R,
        writer: &mut W,
    ) -> Result<Option<usize>, Fault>
        ensures goes_on { (input held : Option (List ℕ)) (done : ℕ) →
            ReplayGoesOn P.is_known P.plays input held done self.old (R.remaining reader.old) (W.contents writer.old) →
            OnOk result (ReplayGoesOn P.is_known P.plays input held done self.new (R.remaining reader.new) (W.contents writer.new)) }
        ensures front { IfOk result (λ found. IfSome found (λ length. front_of (pending self.new.input) ≡ WholeLine length)) }
        ensures inside { IfOk result (λ found. IfSome found (λ length. length < pending_count self.new.input)) }
        ensures end { result ≡ Ok None → IsReadReplay self.new (R.remaining reader.new) }
        ensures stops { (input held : Option (List ℕ)) (done : ℕ) → done < 1048576 →
            ReplayGoesOn P.is_known P.plays input held done self.old (R.remaining reader.old) (W.contents writer.old) →
            IfErr result (λ fault.
            Stops input held (R.remaining reader.new) self.new.output.bytes.items (W.contents writer.new) done fault) }
    {
        // Each turn that goes on reads a byte or more, so that a newline comes, or more bytes than a line has.
        'reads: loop {
            match self.input.front() {
                Front::Line(length) => return Ok(Some(length)),
                Front::TooLong => return Err(Fault::LineTooLong),
                Front::Part => {}
            }
            if self.read_more(reader, writer)? == 0 {
                return if self.input.is_empty() {
                    Ok(None)
                } else {
                    Err(Fault::CutOff)
                };
            }
        }
    }

    /// That there was a configuration, where no line follows.
    fn expect_config(&self) -> Result<(), Fault>
        ensures begun { (p : Option ReplayState) → P.plays self.now.player p → OnOk result (IsSome p) }
        ensures fault { (p : Option ReplayState) → P.plays self.now.player p → IfErr result (λ fault. (fault ≡ ConfigExpected) × (p ≡ None)) }
    {
        match self.tasks() {
            Some(_) => Ok(()),
            None => Err(Fault::ConfigExpected),
        }
    }

    /// That nothing follows, where there were as many lines as there may be.
    fn expect_end<R: Read, W: Write>(&mut self, reader: &mut R, writer: &mut W) -> Result<(), Fault>
        ensures { (input held : Option (List ℕ)) →
            ReplayGoesOn P.is_known P.plays input held 1048576 self.old (R.remaining reader.old) (W.contents writer.old) →
            LinesEnd input held (R.remaining reader.new) self.new.output.bytes.items (W.contents writer.new) 1048576 result }
    {
        if !self.input.is_empty() {
            return Err(Fault::TooManyLines);
        }
        if self.read_more(reader, writer)? > 0 {
            return Err(Fault::TooManyLines);
        }
        self.expect_config()
    }

    /// Writes out what was printed, and only then reads more. After the last line that there may be nothing is pending.
    fn read_more<R: Read, W: Write>(
        &mut self,
        reader: &mut R,
        writer: &mut W,
    ) -> Result<usize, Fault>
        requires { front_of (pending self.old.input) ≡ Part }
        ensures goes_on { (input held : Option (List ℕ)) (done : ℕ) →
            ReplayGoesOn P.is_known P.plays input held done self.old (R.remaining reader.old) (W.contents writer.old) →
            OnOk result (ReplayGoesOn P.is_known P.plays input held done self.new (R.remaining reader.new) (W.contents writer.new)) }
        ensures count { IfOk result (λ count. length (pending self.new.input) ≡ length (pending self.old.input) + count) }
        ensures end { IfOk result (λ count. count ≡ 0 →
            (pending self.new.input ≡ pending self.old.input) × IsAtEnd (R.remaining reader.new)) }
        ensures stops { (input held : Option (List ℕ)) (done : ℕ) → ((done < 1048576) ⊎ (pending self.old.input ≡ [])) →
            ReplayGoesOn P.is_known P.plays input held done self.old (R.remaining reader.old) (W.contents writer.old) →
            IfErr result (λ fault.
            Stops input held (R.remaining reader.new) self.new.output.bytes.items (W.contents writer.new) done fault) }
    {
        self.output.write_out(writer)?;
        self.input.read(reader)
    }

    /// What was read from the line on that is to be done next; after a fault, from the faulty line on.
    pub fn rest(&self) -> &[u8]
        ensures { result.now ≡ pending self.now.input }
    {
        self.input.pending()
    }

    /// How many tasks there are, once there is a configuration.
    pub fn tasks(&self) -> Option<u8>
        ensures { (p : Option ReplayState) → P.plays self.now.player p → result ≡ tasks_of p }
    {
        self.player.tasks()
    }

    /// Does the line that the pending bytes begin with, and takes it, with its newline.
    fn do_front(&mut self, length: usize) -> Result<(), Fault>
        requires front { front_of (pending self.old.input) ≡ WholeLine length }
        requires inside { length < pending_count self.old.input }
        ensures goes_on { (input held left holds : Option (List ℕ)) (done : ℕ) → done < 1048576 →
            ReplayGoesOn P.is_known P.plays input held done self.old left holds →
            OnOk result (ReplayGoesOn P.is_known P.plays input held (done + 1) self.new left holds) }
        ensures stops { (input held left holds : Option (List ℕ)) (done : ℕ) → done < 1048576 →
            ReplayGoesOn P.is_known P.plays input held done self.old left holds →
            IfErr result (λ fault. Stops input held left self.new.output.bytes.items holds done fault) }
    {
        let line = parse(self.input.first(length), self.tasks())?;
        self.player.do_line(line, &mut self.output)?;
        self.input.take(length + 1);
        Ok(())
    }

    /// Ends the replay, whose lines have ended after so many: prints what stands behind all lines, and writes out
    /// what was printed. Where that fails, this is the fault.
    fn finish<W: Write>(
        &mut self,
        done: u32,
        outcome: Result<(), Fault>,
        writer: &mut W,
    ) -> Result<(), ReplayFault>
        requires { done ≤ 1048576 }
        ensures line { IfErr result (λ fault. fault.line ≡ done + 1) }
        ensures replayed { (input held left : Option (List ℕ)) → P.is_known ≡ true →
            LinesEnd input held left self.old.output.bytes.items (W.contents writer.old) done outcome →
            Replayed input left held (W.contents writer.new) result }
    {
        let printed = self.player.print_end(&mut self.output);
        let written = self.output.write_out(writer);
        match printed.and(written).and(outcome) {
            Ok(()) => Ok(()),
            Err(fault) => Err(fault_after(done, fault)),
        }
    }
}

/// A replay that has ended.
#[derive(Drop)]
pub struct Ended<D> {
    /// Whether all lines were done, or the fault.
    pub result: Result<(), ReplayFault>,
    /// The replay as it is then; None where there was no memory to begin it.
    pub replay: Option<LineReplay<SessionPlayer<D>>>,
}

/// Replays a schedule over whatever gates, to the first fault, and returns the replay as it is at its end.
pub fn replay_to_end<D: Driver, R: Read, W: Write>(
    alloc: Global,
    reader: &mut R,
    writer: &mut W,
) -> Ended<D>
    ensures replayed { D.is_known ≡ true →
        Replayed (R.remaining reader.old) (R.remaining reader.new) (W.contents writer.old) (W.contents writer.new) result.result }
    ensures line { IfErr result.result (λ fault. IsLineNumber fault.line) }
{
    match new_replay::<D>(alloc) {
        Ok(mut replay) => {
            let result = replay.do_lines(reader, writer);
            Ended {
                result,
                replay: Some(replay),
            }
        }
        Err(error) => Ended {
            result: Err(fault_after(0, no_memory(error))),
            replay: None,
        },
    }
}

/// A replay over whatever gates, before its first line.
fn new_replay<D: Driver>(alloc: Global) -> Result<LineReplay<SessionPlayer<D>>, AllocError>
    ensures { IfOk result (λ replay. IsNewReplay ⟦<SessionPlayer<D> as Player>⟧.plays replay) }
{
    let player = SessionPlayer::new(alloc)?;
    LineReplay::new(alloc, player)
}
