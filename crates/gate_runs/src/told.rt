//! A run, with what it counted written.

ghost use Rattle.std.specs.Prelude.{◌≡◌, ◌≤◌, ◌⊎◌};
ghost use Rattle.exit_status.specs.declared.ends.ProgramEnding.TheVariants.{Ran, Refused};
ghost use Rattle.gate_runs.specs.Told.{WasRun};

use crate::runs::run_plan;
use access_model::GateError;
use exit_status::{ProgramEnding, report, report_refusal};
use run_plans::rows::{ROWS, add_rows};
use run_plans::{Plan, RunObserver};
use schedule_lines::bytes::write_out;
use std::alloc::Global;
use std::io::Write;
use std::rt::Clock;
use std::sync::Wait;
use std::thread::Threads;
use std::time::Instant;

/// Does the plan (`run_plan`), and writes what was counted: the first so many of the rows. It ends as Ran only where all of the plan was done. A refusal
/// is printed on the writer of faults, and so is a write that fails; where that can't be printed it ends the same.
pub fn run_told<R: Threads + Wait + Clock + Sync, P: RunObserver + Sync, W: Write, E: Write>(
    rt: &R,
    alloc: Global,
    plan: Plan,
    count: usize,
    watch: &P,
    writer: &mut W,
    errors: &mut E,
) -> ProgramEnding
    requires { count ≤ ROWS }
    ensures ends { (result ≡ Ran) ⊎ (result ≡ Refused) }
    ensures ran { result ≡ Ran → WasRun (P.held watch.now) (P.seen watch.now) plan.tasks plan.processors plan.rounds plan.freezes plan.patience }
{
    let start = Instant::now(rt).ok();
    let (totals, details) = match run_plan(rt, alloc, plan, watch) {
        Ok((totals, details, _)) => (totals, details),
        Err(refusal) => return report_refusal(refusal, errors),
    };
    let took = start.and_then(|start| start.elapsed(rt).ok());
    let mut lines = String::new(alloc);
    if add_rows(&mut lines, count, totals, details, took).is_err() {
        return report_refusal(GateError::NoMemory, errors);
    }
    match write_out(writer, lines.as_bytes()) {
        Ok(()) => ProgramEnding::Ran,
        Err(fault) => report(fault.text(), errors),
    }
}
