//! The lines of an input that was read whole.

ghost use Rattle.std.specs.Prelude.{◌≡◌, ◌<◌, ◌≤◌, ◌+◌, length, take, drop};
ghost use Rattle.race_files.specs.Calls.{is_claim, is_race};

use crate::faults::RaceFault;
use race_conditions::ClaimKind;
use schedule_lines::bytes::ReplayFault;
use schedule_lines::words::{first_word, word_count};
use schedule_lines::{Fault, Front, LINES, front_of};

/// The lines that are left, and how many were taken.
#[derive(Drop)]
pub struct Lines<'a> {
    rest: &'a [u8],
    done: u32,
    ghost few: { done ≤ 1048576 },
}

impl<'a> Lines<'a> {
    ghost use Rattle.std.specs.Prelude.{List, ℕ, [], ◌∷◌, None, Some, Ok, IfOk, IfErr, IfSome};
    ghost use Rattle.race_files.specs.Faults.{IsFaultAfter};
    ghost use Rattle.race_files.specs.Left.{lines_in, left_in, line_count, none_left, behind};

    /// All lines of these bytes.
    pub fn new(bytes: &'a [u8]) -> Lines<'a>
        ensures lines { left_in result ≡ lines_in 1048576 bytes.now }
        ensures done { result.done ≡ 0 }
    {
        Lines {
            rest: bytes,
            done: 0,
        }
    }

    /// What is left.
    pub fn rest(&self) -> &'a [u8]
        ensures { result.now ≡ self.now.rest.now }
    {
        self.rest
    }

    /// The number of the next line.
    pub fn number(&self) -> u32
        ensures is { result ≡ self.now.done + 1 }
        ensures few { result ≤ 1048577 }
    {
        self.done + 1
    }

    /// The next line, with no newline at its end; None after the last.
    pub fn line(&self) -> Result<Option<&'a [u8]>, Fault>
        ensures some { IfOk result (λ found. IfSome found (λ line.
            (left_in self.now).lines ≡ line.now ∷ (behind (left_in self.now)).lines)) }
        ensures none { result ≡ Ok None → left_in self.now ≡ none_left None }
        ensures fault { IfErr result (λ fault. left_in self.now ≡ none_left (Some fault)) }
    {
        if self.rest.is_empty() {
            return Ok(None);
        }
        if self.done >= LINES {
            return Err(Fault::TooManyLines);
        }
        match front_of(self.rest) {
            Front::Line(length) => Ok(Some(line_of(self.rest, length))),
            Front::TooLong => Err(Fault::LineTooLong),
            Front::Part => Err(Fault::CutOff),
        }
    }

    /// Takes the next line, where there is one.
    pub fn take(&mut self)
        ensures left { left_in self.new ≡ behind (left_in self.old) }
        ensures count { line_count self.new ≡ line_count self.old }
        ensures done { (line : List ℕ) → (left_in self.old).lines ≡ line ∷ (behind (left_in self.old)).lines →
            self.new.done ≡ self.old.done + 1 }
    {
        if self.done >= LINES {
            return;
        }
        match front_of(self.rest) {
            Front::Line(length) => {
                self.rest = behind_line(self.rest, length);
                self.done += 1;
            }
            Front::TooLong => {}
            Front::Part => {}
        }
    }

    /// The next line, which is taken; None where there is none that is whole.
    pub fn next(&mut self) -> Option<&'a [u8]>
        ensures left { left_in self.new ≡ behind (left_in self.old) }
        ensures some { IfSome result (λ line. (left_in self.old).lines ≡ line.now ∷ (behind (left_in self.old)).lines) }
        ensures none { result ≡ None → (left_in self.old).lines ≡ [] }
    {
        let line = match self.line() {
            Ok(line) => line,
            Err(_) => None,
        };
        self.take();
        line
    }

    /// A fault at the next line.
    pub fn fault(&self, fault: RaceFault) -> ReplayFault
        ensures { IsFaultAfter self.now.done fault result }
    {
        fault.after(self.done)
    }
}

/// A line of so many bytes.
fn line_of(bytes: &[u8], count: usize) -> &[u8]
    requires { count < length bytes.now }
    ensures { result.now ≡ take count bytes.now }
{
    &bytes[..count]
}

/// What follows it and its newline.
fn behind_line(bytes: &[u8], count: usize) -> &[u8]
    requires { count < length bytes.now }
    ensures { result.now ≡ drop (count + 1) bytes.now }
{
    &bytes[count + 1..]
}

/// Whether a line begins the race.
#[tactic(auto, unfolding(crate::specs::Calls::is_race))]
pub fn is_race(line: &[u8]) -> Result<bool, Fault>
    ensures { result ≡ is_race line.now }
{
    if first_word(line) != b"race".as_slice() {
        Ok(false)
    } else if word_count(line) == 1 {
        Ok(true)
    } else {
        Err(Fault::WrongNumberOfWords)
    }
}

/// Whether a line claims something of the race.
#[tactic(auto, unfolding(crate::specs::Calls::is_claim))]
pub fn is_claim(line: &[u8]) -> bool
    ensures { result ≡ is_claim line.now }
{
    ClaimKind::named(first_word(line)).is_some()
}
