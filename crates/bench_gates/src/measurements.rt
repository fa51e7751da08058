//! What can be measured.

use crate::at_gates::Round;
use crate::{at_gates, at_runs};
use anyhow::Result;
use std::alloc::Global;
use std::rt::Clock;
use std::sync::Wait;
use std::thread::Threads;
use std::time::Duration;

/// What is measured.
enum Subject {
    /// Rounds at the gates, all of one kind.
    Rounds(Round),
    /// Whole runs.
    Runs,
}

/// What is measured, among how many, and how often it is done.
pub(crate) struct Measurement {
    subject: Subject,
    size: u8,
    count: u32,
}

impl Measurement {
    /// The one that these words ask for, if they do.
    pub(crate) fn of(what: &str, size: &str, count: &str) -> Option<Measurement> {
        let (Ok(size), Ok(count)) = (size.parse(), count.parse()) else {
            return None;
        };
        if !(1..=64).contains(&size) || count == 0 {
            return None;
        }
        let subject = match what {
            "mount" => Subject::Rounds(Round::Mount),
            "level" => Subject::Rounds(Round::Level),
            "write-access" => Subject::Rounds(Round::WriteAccess),
            "freeze" => Subject::Rounds(Round::Freeze),
            "freeze-and-callbacks" => Subject::Rounds(Round::FreezeAndCallbacks),
            "remounts" => Subject::Rounds(Round::Remounts),
            "snapshot" => Subject::Rounds(Round::Snapshot),
            "file" => Subject::Rounds(Round::File),
            "wait" => Subject::Rounds(Round::Wait),
            "create-and-remove" => Subject::Rounds(Round::CreateAndRemove),
            "grow" => Subject::Rounds(Round::Grow),
            "moves" => Subject::Rounds(Round::Moves),
            "fault-and-flush" => Subject::Rounds(Round::FaultAndFlush),
            "run" => Subject::Runs,
            _ => return None,
        };
        Some(Measurement {
            subject,
            size,
            count,
        })
    }

    /// How long it takes.
    pub(crate) fn measure<R: Threads + Wait + Clock + Sync>(
        self,
        rt: &R,
        alloc: Global,
    ) -> Result<Duration> {
        let Measurement {
            subject,
            size,
            count,
        } = self;
        match subject {
            Subject::Rounds(round) => at_gates::measure(rt, alloc, round, size, count),
            Subject::Runs => at_runs::measure(rt, alloc, size, count),
        }
    }
}
