//! Why a history is refused.

ghost use Rattle.std.specs.Prelude.{◌≡◌};

use race_files::RaceFault;
use schedule_lines::bytes::ReplayFault;
use schedule_lines::{Fault, FaultKind};

/// Why a history is refused at a line.
#[derive(Clone, Copy)]
pub enum HistoryFault {
    /// As a race is.
    Race(RaceFault),
    /// The input ends with no line `history`, or has a line `race` before it.
    HistoryExpected,
    /// A return, or a hook, of a task that has no call under way.
    NothingUnderWay,
    /// A return whose answer is none that a call can have.
    BadAnswer,
}

impl HistoryFault {
    ghost use Rattle.history_files.specs.Faults.{IsFaultAt, kind_of};

    /// Returns the kind of the fault.
    pub fn kind(self) -> FaultKind
        ensures { result ≡ kind_of self }
    {
        match self {
            HistoryFault::Race(fault) => fault.kind(),
            HistoryFault::HistoryExpected => FaultKind::HistoryExpected,
            HistoryFault::NothingUnderWay => FaultKind::NothingUnderWay,
            HistoryFault::BadAnswer => FaultKind::BadAnswer,
        }
    }

    /// The fault at the line of this number.
    pub fn at(self, line: u32) -> ReplayFault
        ensures { IsFaultAt line self result }
    {
        ReplayFault {
            line,
            kind: self.kind(),
        }
    }
}

impl From<RaceFault> for HistoryFault {
    ghost use Rattle.history_files.specs.declared.faults.HistoryFault.TheVariants.{Race};

    ghost from_gives = { λ fault told. told ≡ Race fault };

    fn from(fault: RaceFault) -> HistoryFault {
        HistoryFault::Race(fault)
    }
}

impl From<Fault> for HistoryFault {
    ghost use Rattle.history_files.specs.declared.faults.HistoryFault.TheVariants.{Race};
    ghost use Rattle.race_files.specs.declared.faults.RaceFault.TheVariants.{Schedule};

    ghost from_gives = { λ fault told. told ≡ Race (Schedule fault) };

    fn from(fault: Fault) -> HistoryFault {
        HistoryFault::Race(RaceFault::Schedule(fault))
    }
}
