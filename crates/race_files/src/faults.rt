//! Why a race is refused.

ghost use Rattle.std.specs.Prelude.{◌≡◌, ◌≤◌};

use schedule_lines::bytes::ReplayFault;
use schedule_lines::{Fault, FaultKind};

/// Why a race is refused at a line.
#[derive(Clone, Copy)]
pub enum RaceFault {
    /// As a schedule is.
    Schedule(Fault),
    /// The input ends with no line `race`.
    RaceExpected,
    /// A second line `race`.
    RaceTwice,
    /// An operation is under way at the line `race`.
    UnderWay,
    /// After `race`: neither a call nor a hook, a hook of a task that has no call yet, or no call
    /// behind `after`, `if ok`, `if refused` or `retry`.
    CallExpected,
    /// A ninth call of a task.
    TooManyCalls,
    /// A second hook of one call.
    HookTwice,
    /// `if` without `ok` or `refused` behind it.
    BranchExpected,
    /// `if` before a task's first call.
    NoCallBefore,
    /// `after` without `T.K` behind it.
    NameExpected,
    /// `after` a call that stands in no line before.
    NoSuchCall,
}

impl RaceFault {
    ghost use Rattle.race_files.specs.Faults.{IsFaultAfter, kind_of};

    /// Returns the kind of the fault.
    pub fn kind(self) -> FaultKind
        ensures { result ≡ kind_of self }
    {
        match self {
            RaceFault::Schedule(fault) => FaultKind::Schedule(fault),
            RaceFault::RaceExpected => FaultKind::RaceExpected,
            RaceFault::RaceTwice => FaultKind::RaceTwice,
            RaceFault::UnderWay => FaultKind::UnderWay,
            RaceFault::CallExpected => FaultKind::CallExpected,
            RaceFault::TooManyCalls => FaultKind::TooManyCalls,
            RaceFault::HookTwice => FaultKind::HookTwice,
            RaceFault::BranchExpected => FaultKind::BranchExpected,
            RaceFault::NoCallBefore => FaultKind::NoCallBefore,
            RaceFault::NameExpected => FaultKind::NameExpected,
            RaceFault::NoSuchCall => FaultKind::NoSuchCall,
        }
    }

    /// The fault at the line after so many.
    pub fn after(self, done: u32) -> ReplayFault
        requires { done ≤ 1048576 }
        ensures { IsFaultAfter done self result }
    {
        ReplayFault {
            line: done + 1,
            kind: self.kind(),
        }
    }
}

impl From<Fault> for RaceFault {
    ghost use Rattle.race_files.specs.declared.faults.RaceFault.TheVariants.{Schedule};

    ghost from_gives = { λ fault told. told ≡ Schedule fault };

    fn from(fault: Fault) -> RaceFault {
        RaceFault::Schedule(fault)
    }
}
