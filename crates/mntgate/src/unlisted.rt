//! Why the outcomes of a race aren't printed, or not written whole.

ghost use Rattle.std.specs.Prelude.{◌≡◌};
ghost use Rattle.exit_status.specs.declared.ends.ProgramEnding.TheVariants.{Refused};

use access_model::GateError;
use command_line::Outcomes;
use diagnostics::{Context, Faulty, tell_faulty};
use exit_status::{ProgramEnding, report, report_of, report_refusal_of};
use exploration::Stop;
use schedule_lines::Fault;
use schedule_lines::bytes::ReplayFault;
use std::alloc::Global;
use std::io::Write;

/// What is printed if more states come up than a search can number.
pub(crate) const UNNUMBERED: &str =
    "more than 4000000000 states, parts of states or moves, and no more can be numbered";

/// Why the outcomes of a race aren't printed, or not written whole.
#[derive(Drop)]
pub enum Unlisted {
    /// The race's text has this fault.
    Faulty(ReplayFault),
    /// A line claims something by what is no condition. This is printed of it.
    BadClaim(String),
    /// The search was stopped.
    Stopped(Stop),
    /// A schedule was not saved. Why is printed already.
    Unsaved,
    /// A write failed, with this fault.
    Unwritten(Fault),
}

impl From<Stop> for Unlisted {
    ghost use Rattle.mntgate.specs.declared.unlisted.Unlisted.TheVariants.{Stopped};

    ghost from_gives = { λ stop why. why ≡ Stopped stop };

    fn from(stop: Stop) -> Unlisted {
        Unlisted::Stopped(stop)
    }
}

impl Unlisted {
    /// Reports why on the writer of faults, and returns how the program ends. The race is that of these bytes.
    pub fn report<E: Write>(
        self,
        alloc: Global,
        asked: Outcomes<'_>,
        bytes: &[u8],
        errors: &mut E,
    ) -> ProgramEnding
        ensures { result ≡ Refused }
    {
        match self {
            Unlisted::Faulty(fault) => report_fault(alloc, bytes, fault, asked.file, errors),
            Unlisted::BadClaim(text) => report(text.as_str(), errors),
            Unlisted::Stopped(stop) => report_stop(stop, asked, errors),
            Unlisted::Unsaved => ProgramEnding::Refused,
            Unlisted::Unwritten(fault) => report(fault.text(), errors),
        }
    }
}

/// Reports the fault of a race in these bytes, with its line and how to mend it.
fn report_fault<E: Write>(
    alloc: Global,
    bytes: &[u8],
    fault: ReplayFault,
    file: Option<&str>,
    errors: &mut E,
) -> ProgramEnding
    ensures { result ≡ Refused }
{
    let (context, rest) = Context::find(bytes, fault.line);
    let faulty = Faulty {
        file,
        fault,
        context,
        rest,
    };
    tell_faulty(alloc, faulty, errors)
}

/// Reports why a search was stopped.
fn report_stop<E: Write>(stop: Stop, asked: Outcomes<'_>, errors: &mut E) -> ProgramEnding
    ensures { result ≡ Refused }
{
    match stop {
        Stop::NoMemory => report_refusal_of(GateError::NoMemory, asked.file, errors),
        Stop::NoNumbers => report_of(UNNUMBERED, asked.file, errors),
        Stop::TooMany => {
            let limit = asked.limit;
            report_of(format_args!("more than {limit} states"), asked.file, errors)
        }
    }
}
