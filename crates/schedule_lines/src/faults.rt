//! Why a schedule, a race or a history is refused.

ghost use Rattle.std.specs.Prelude.{◌≡◌};
ghost use Rattle.schedule_lines.specs.Faults.{kind_text, text_of};

use access_model::GateError;
use std::fmt;

/// Why a schedule is refused at a line. The first reason in the order of this list is the one that is given, but that the
/// last three are found by whoever reads, writes and does the lines.
#[derive(Clone, Copy, PartialEq, Eq, Debug)]
pub enum Fault {
    /// One line more than a schedule may have.
    TooManyLines,
    /// More bytes than a line may have.
    LineTooLong,
    /// The input ends inside a line.
    CutOff,
    /// The first line that isn't skipped is no `config`, or there is none.
    ConfigExpected,
    /// A second `config`.
    ConfigTwice,
    /// No command has this name.
    UnknownCommand,
    /// The command takes another number of words.
    WrongNumberOfWords,
    /// The configuration has no task of this number.
    NoSuchTask,
    /// An argument that has to be a number isn't one, or is out of its range.
    BadNumber,
    /// An argument that has to be one of some words is another one.
    BadWord,
    /// The input could not be read.
    ReadFailed,
    /// The output could not be written.
    WriteFailed,
    /// What the line asks for was refused for this reason.
    Refused(GateError),
}

/// The kind of a fault in the text of a schedule, a race or a history.
#[derive(Clone, Copy, PartialEq, Eq, Debug)]
pub enum FaultKind {
    /// One that a schedule may have, and so the lines of a race or a history too.
    Schedule(Fault),
    /// The input ends with no line `race`.
    RaceExpected,
    /// A second line `race`.
    RaceTwice,
    /// An operation is under way at the line `race` or `history`, or a task's last call at its next one.
    UnderWay,
    /// After `race`: neither a call nor a hook, a hook of a task that has no call yet, or no call
    /// behind `after`, `if ok`, `if refused` or `retry`.
    CallExpected,
    /// A ninth call of a task, or a ninth operation of a call.
    TooManyCalls,
    /// A second hook of one call.
    HookTwice,
    /// `if` without `ok` or `refused` behind it.
    BranchExpected,
    /// `if` before a task's first call.
    NoCallBefore,
    /// `after` without `T.K` behind it.
    NameExpected,
    /// `after` a call that stands in no line before.
    NoSuchCall,
    /// The input ends with no line `history`, or has a line `race` before it.
    HistoryExpected,
    /// A return, or a hook, of a task that has no call under way.
    NothingUnderWay,
    /// A return whose answer is none that a call can have.
    BadAnswer,
}

impl Fault {
    /// Returns the text that is printed of the fault, without the cause of a refusal.
    pub fn text(self) -> &'static str
        ensures { result.now ≡ text_of self }
    {
        match self {
            Fault::TooManyLines => "too many lines",
            Fault::LineTooLong => "line too long",
            Fault::CutOff => "cut off",
            Fault::ConfigExpected => "config expected",
            Fault::ConfigTwice => "config twice",
            Fault::UnknownCommand => "unknown command",
            Fault::WrongNumberOfWords => "wrong number of words",
            Fault::NoSuchTask => "no such task",
            Fault::BadNumber => "bad number",
            Fault::BadWord => "bad word",
            Fault::ReadFailed => "read failed",
            Fault::WriteFailed => "write failed",
            Fault::Refused(_) => "refused",
        }
    }
}

impl FaultKind {
    /// Returns the text that is printed of the fault, without the cause of a refusal.
    pub fn text(self) -> &'static str
        ensures { result.now ≡ kind_text self }
    {
        match self {
            FaultKind::Schedule(fault) => fault.text(),
            FaultKind::RaceExpected => "race expected",
            FaultKind::RaceTwice => "race twice",
            FaultKind::UnderWay => "task under way",
            FaultKind::CallExpected => "call expected",
            FaultKind::TooManyCalls => "too many calls",
            FaultKind::HookTwice => "hook twice",
            FaultKind::BranchExpected => "ok or refused expected",
            FaultKind::NoCallBefore => "no call before",
            FaultKind::NameExpected => "T.K expected",
            FaultKind::NoSuchCall => "no such call before",
            FaultKind::HistoryExpected => "history expected",
            FaultKind::NothingUnderWay => "nothing under way",
            FaultKind::BadAnswer => "bad answer",
        }
    }
}

/// Prints the text, and behind `refused` the number and the name of the cause, as in `refused 22 Invalid`.
impl fmt::Display for FaultKind {
    fn fmt<W: fmt::Write>(&self, f: &mut fmt::Formatter<W>) -> fmt::Result {
        let text = self.text();
        match self {
            FaultKind::Schedule(Fault::Refused(cause)) => {
                let (number, name) = (cause.number(), cause.name());
                write!(f, "{text} {number} {name}")
            }
            _ => f.write_str(text),
        }
    }
}
