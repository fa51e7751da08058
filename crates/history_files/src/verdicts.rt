//! The verdict on a history.

ghost use Rattle.std.specs.Prelude.{◌≡◌, ◌<◌, ◌≤◌, true, false, IfErr, IfOk, length};
ghost use Rattle.history_files.specs.Verdicts.{HasTooMany, IsImpossible, IsPossible};
ghost use Rattle.history_files.specs.declared.unjudged.Unjudged.TheVariants.{TooMany};
ghost use Rattle.race_files.specs.Races.{IsRecent};

use crate::unjudged::Unjudged;
use exploration::{Observer, Stop};
use gate_core::Core;
use histories::{History, Judged, Marker, judge_history};
use std::alloc::Global;

/// What was found of a history.
#[derive(Drop)]
pub struct Verdict {
    pub history: History,
    pub judged: Judged,
}

impl Verdict {
    /// Returns whether some execution has the whole history.
    pub fn is_possible(&self) -> bool
        ensures all { result ≡ true → length self.now.history.markers.items ≤ self.now.judged.passed }
        ensures some { result ≡ false → self.now.judged.passed < length self.now.history.markers.items }
    {
        self.judged.passed as usize >= self.history.markers().len()
    }

    /// Returns whether the search came far enough for a verdict: some execution has the whole history, or none has more of it.
    fn is_known(&self) -> bool
        ensures known { result ≡ true → self.now.judged.passed < length self.now.history.markers.items →
            self.now.judged.is_most ≡ true }
        ensures unknown { result ≡ false → self.now.judged.is_most ≡ false }
    {
        self.is_possible() || self.judged.is_most
    }
}

/// Finds whether some execution over a core has a history with these markers.
///
/// # Errors
///
/// If it isn't known: more states than the limit come up, and the markers so far are possible; no number is left; or there was no memory.
pub fn verdict_of<W: Observer>(
    alloc: Global,
    core: &Core,
    markers: Vec<Marker>,
    limit: usize,
    watch: &mut W,
) -> Result<Verdict, Unjudged>
    ensures markers { IfOk result (λ verdict. verdict.history.markers.items ≡ markers.items) }
    ensures possible { IfOk result (λ verdict. length markers.items ≤ verdict.judged.passed → IsPossible core.now markers.items) }
    ensures impossible { IfOk result (λ verdict. verdict.judged.passed < length markers.items → IsImpossible core.now markers.items verdict.judged.passed) }
    ensures too_many { IsRecent core.now → IfErr result (λ why. why ≡ TooMany → HasTooMany core.now markers.items limit) }
{
    let history = match History::new(alloc, core.config().tasks, markers) {
        Ok(history) => history,
        Err(out) => return Err(Unjudged::of(Stop::from(out))),
    };
    let judged = match judge_history(alloc, &history, core, limit, watch) {
        Ok(judged) => judged,
        Err(stop) => return Err(Unjudged::of(stop)),
    };
    let verdict = Verdict { history, judged };
    if verdict.is_known() {
        Ok(verdict)
    } else {
        Err(Unjudged::TooMany)
    }
}
