//! Where a replay ends before its end.

ghost use Rattle.std.specs.Prelude.{◌≡◌, ◌≤◌, ◌+◌};
ghost use Rattle.schedule_lines.specs.declared.faults.FaultKind.TheVariants.{Schedule};

use crate::{Fault, FaultKind};
use thiserror::Error;

/// Why a schedule ended before its end, at which line. It is printed as `line 2: unknown command`, and where the line was understood and refused as
/// `line 2: refused 22 Invalid`.
#[derive(Clone, Copy, PartialEq, Eq, Debug, Error)]
#[error("line {line}: {kind}")]
pub struct ReplayFault {
    pub line: u32,
    pub kind: FaultKind,
}

/// Returns a fault of a schedule at the line after so many.
pub fn fault_after(done: u32, fault: Fault) -> ReplayFault
    requires { done ≤ 1048576 }
    ensures line { result.line ≡ done + 1 }
    ensures kind { result.kind ≡ Schedule fault }
{
    ReplayFault {
        line: done + 1,
        kind: FaultKind::Schedule(fault),
    }
}
