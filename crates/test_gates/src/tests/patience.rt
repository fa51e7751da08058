//! Freezes that give up: those that find another task inside a level, and those whose limit passes while it stays there.

ghost use Rattle.vfs_gates.specs.TaskStates.{IsFrom};

use crate::models::passed;
use std::alloc::Global;
use std::rt::Clock;
use std::sync::Wait;
use std::test::Fail;
use std::time::Duration;
use vfs_gates::{Config, GateError, Gates, Holder, TIMED_OUT, Task};

/// The processor of these gates.
const CPU: u8 = 0;

/// Two tasks.
const CONFIG: Config = Config {
    tasks: 2,
    processors: 1,
    mounts: 1,
    nodes: 2,
    capacity: 0,
};

/// Freezes by the backup while the writer is inside each level in turn, within so long, and thaws where that was done. How the last one ended
/// that wasn't refused as TIMED_OUT.
fn freeze_beside<R: Wait + Clock>(
    rt: &R,
    gates: &Gates,
    backup: &mut Task,
    writer: &mut Task,
    limit: Duration,
) -> Result<(), GateError>
    requires backup { IsFrom backup.old gates.now }
    requires writer { IsFrom writer.old gates.now }
    ensures backup { IsFrom backup.new gates.now }
    ensures writer { IsFrom writer.new gates.now }
{
    for level in 1..=3 {
        writer.start(rt, gates, level, CPU)?;
        let frozen = backup.freeze_within(rt, gates, Holder::User, &mut (), limit);
        writer.end(gates, level, CPU)?;
        if frozen != Err(GateError::Hook(TIMED_OUT)) {
            return frozen;
        }
    }
    Ok(())
}

/// Whether a freeze within an instant, and one within 2 milliseconds, give up beside a writer that stays inside; and one within a minute is done
/// once the writer has left.
fn limits_pass<R: Wait + Clock>(rt: &R, alloc: Global) -> Result<(), GateError> {
    let (gates, mut writer) = Gates::new(alloc, CONFIG)?;
    let mut backup = writer.split(alloc, &gates)?;
    freeze_beside(rt, &gates, &mut backup, &mut writer, Duration::ZERO)?;
    let short = Duration::from_millis(2);
    freeze_beside(rt, &gates, &mut backup, &mut writer, short)?;
    let long = Duration::from_secs(60);
    backup.freeze_within(rt, &gates, Holder::User, &mut (), long)?;
    backup.thaw(rt, &gates, Holder::User, &mut ())
}

#[test]
fn a_freeze_whose_limit_passes_gives_up(rt: HostRuntime) -> Result<(), Fail> {
    passed(limits_pass(&rt, rt.alloc()) == Ok(()))
}
